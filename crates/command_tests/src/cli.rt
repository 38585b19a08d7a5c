// The commands over files and output in memory: their endings, dumps, match lists, replies and the
// lines that tell a fault, each worked out by hand.
ghost use Rattle.std.specs.Prelude.{◌≡◌};

use std::alloc::Global;
use std::marker::Brand;
use std::sync::ledger::{Blank, Ledger};
use std::test::Fail;
use vt_base::{List, NoMemory, Steps, Text};
use vt_cli::{Ending, viatra};
use vt_outside::{MemShelf, MemSink};

mod documents;
mod faults;
mod matches;
mod replies;
mod runs;
mod show;

// One class: its objects have a number `w`, and lead to others by `to`.
const NODES: &str =
    r#"{"format":1,"classes":[{"name":"Node","attributes":[{"name":"w","kind":"int"}],"references":[{"name":"to","target":"Node","many":true}]}]}"#;

// Two nodes, of which the first leads to both.
const TWO_NODES: &str =
    r#"{"format":1,"objects":[{"name":"p","class":"Node","attributes":{"w":7},"links":{"to":["q","p","q"]}},{"name":"q","class":"Node"}]}"#;

const TWO_NODES_DUMP: &str = concat!(
    r#"{"format":1,"next":2,"objects":[{"attributes":{"w":7},"class":"Node","links":{"to":["p","q"]},"name":"p","number":0},"#,
    r#"{"attributes":{"w":0},"class":"Node","links":{},"name":"q","number":1}]}"#,
    "\n",
);

// Shelves with books in them and shelves within, and books that come in pairs.
const LIBRARY: &str = concat!(
    r#"{"format":1,"classes":[{"name":"Shelf","references":[{"name":"books","target":"Book","many":true,"containment":true,"opposite":"shelf"},"#,
    r#"{"name":"sub","target":"Shelf","many":true,"containment":true}]},"#,
    r#"{"name":"Book","attributes":[{"name":"pages","kind":"int"},{"name":"title","kind":"string"}],"references":[{"name":"shelf","target":"Shelf","opposite":"books"},"#,
    r#"{"name":"twin","target":"Book","opposite":"pair"},{"name":"pair","target":"Book","opposite":"twin"}]}]}"#,
);

// Things of two classes, with a value of each kind.
const ZOO: &str = concat!(
    r#"{"format":1,"enums":[{"name":"Mood","literals":["CALM","ANGRY"]}],"classes":["#,
    r#"{"name":"Thing","abstract":true,"attributes":[{"name":"n","kind":"int"}],"references":[{"name":"next","target":"Thing","many":true}]},"#,
    r#"{"name":"Cat","supers":["Thing"],"attributes":[{"name":"name","kind":"string"},{"name":"mood","kind":"Mood"},{"name":"wild","kind":"boolean"}]},"#,
    r#"{"name":"Dog","supers":["Thing"]}]}"#,
);

// Four cats and a dog. The links are `a` to `a` and `b`, `b` to `c`, and `c` to `a`.
const FIVE_THINGS: &str = concat!(
    r#"{"format":1,"objects":[{"name":"a","class":"Cat","attributes":{"n":3,"name":"b\"\n","mood":"ANGRY","wild":true},"links":{"next":["b","a"]}},"#,
    r#"{"name":"b","class":"Cat","attributes":{"n":-1,"name":"B"},"links":{"next":["c"]}},"#,
    r#"{"name":"c","class":"Dog","attributes":{"n":3},"links":{"next":["a"]}},"#,
    r#"{"name":"d","class":"Cat","attributes":{"n":-20,"name":null,"mood":null}},"#,
    r#"{"name":"e","class":"Cat","attributes":{"name":"é"}}]}"#,
);

fn word_list(alloc: Global, words: &[&str]) -> Result<List<Text>, NoMemory> {
    let mut list = List::new(alloc);
    for word in words {
        list.add(Text::new(alloc, word)?)?;
    }
    Ok(list)
}

fn add_file(
    files: &mut List<(Text, List<u8>)>,
    alloc: Global,
    name: &str,
    bytes: &[u8],
) -> Result<(), NoMemory> {
    let mut copy = List::new(alloc);
    copy.extend(bytes)?;
    files.add((Text::new(alloc, name)?, copy))
}

// A shelf with these files.
fn shelf_of(alloc: Global, named: &[(&str, &[u8])]) -> Result<MemShelf, NoMemory> {
    let mut files = List::new(alloc);
    for (name, bytes) in named {
        add_file(&mut files, alloc, name, bytes)?;
    }
    Ok(MemShelf::new(files, List::new(alloc)))
}

fn run<L: Ledger>(
    alloc: Global,
    words: &List<Text>,
    shelf: &mut MemShelf,
    out: &mut MemSink,
    blank: Blank,
) -> Ending
    requires name { blank.name ≡ L.name }
    requires parts { blank.parts ≡ L.parts }
    requires some { blank.parts ≡ 1 }
{
    let mut steps = Steps::<L>::new(blank);
    viatra(alloc, words.as_slice(), shelf, out, &mut steps)
}

// How a command ends over a shelf, and what it writes, where some calls of the sink fail.
fn answer(
    alloc: Global,
    words: &List<Text>,
    shelf: MemShelf,
    failing_puts: List<u64>,
) -> Result<(Ending, String), Fail> {
    let mut shelf = shelf;
    let mut out = MemSink::new(alloc, failing_puts);
    let ending = run::<Brand>(alloc, words, &mut shelf, &mut out, Blank::new(1));
    let text = str::from_utf8(out.bytes())?;
    Ok((ending, String::from_str(alloc, text)?))
}

// How `show` ends over a metamodel and a model, and what it writes.
fn shown(alloc: Global, meta: &str, model: &[u8]) -> Result<(Ending, String), Fail> {
    let words = word_list(alloc, &["show", "meta", "model"])?;
    let shelf = shelf_of(alloc, &[("meta", meta.as_bytes()), ("model", model)])?;
    answer(alloc, &words, shelf, List::new(alloc))
}

// How `matches` ends over a metamodel, a model and a query file, and what it writes.
fn matched(
    alloc: Global,
    meta: &str,
    model: &str,
    queries: &[u8],
) -> Result<(Ending, String), Fail> {
    let words = word_list(alloc, &["matches", "meta", "model", "queries"])?;
    let shelf = shelf_of(
        alloc,
        &[
            ("meta", meta.as_bytes()),
            ("model", model.as_bytes()),
            ("queries", queries),
        ],
    )?;
    answer(alloc, &words, shelf, List::new(alloc))
}
