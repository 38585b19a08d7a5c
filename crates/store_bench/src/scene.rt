// The metamodel, the names of the objects, and which book goes to which shelf.
use std::alloc::Global;
use vt_base::{NoMemory, Text};

pub const METAMODEL: &str = r#"{"format":1,"classes":[
{"name":"Shelf","references":[
 {"name":"books","target":"Book","many":true,"containment":true,"opposite":"shelf"}]},
{"name":"Book","attributes":[{"name":"pages","kind":"int"}],
 "references":[{"name":"shelf","target":"Shelf","opposite":"books"}]}]}"#;

/// The names of the objects, and the words of the metamodel.
#[derive(Drop)]
pub struct Scene {
    pub shelf: Text,
    pub book: Text,
    pub holds: Text,
    pub pages: Text,
    pub shelves: Vec<Text>,
    pub books: Vec<Text>,
}

// A letter before each number below the count.
fn names(alloc: Global, letter: &str, count: usize) -> Result<Vec<Text>, NoMemory> {
    let mut names = Vec::new(alloc);
    for place in 0..count {
        let name = format!(in alloc; "{letter}{place}")?;
        names.push(Text::new(alloc, name.as_str())?)?;
    }
    Ok(names)
}

impl Scene {
    /// A shelf for each ten books, and one more.
    pub fn new(alloc: Global, books: usize) -> Result<Scene, NoMemory> {
        Ok(Scene {
            shelf: Text::new(alloc, "Shelf")?,
            book: Text::new(alloc, "Book")?,
            holds: Text::new(alloc, "books")?,
            pages: Text::new(alloc, "pages")?,
            shelves: names(alloc, "s", books / 10 + 1)?,
            books: names(alloc, "b", books)?,
        })
    }

    /// The shelf of a book, far from that of the book before. At the next turn it is the next shelf.
    pub fn shelf_of(&self, book: usize, turn: usize) -> Option<&Text> {
        let count = self.shelves.len();
        if count == 0 {
            return None;
        }
        let place = book.wrapping_mul(7919).wrapping_add(turn) % count;
        self.shelves.get(place)
    }
}
