// Each change made, taken back, and made again.
use crate::scene::Scene;
use std::alloc::Global;
use vt_base::Text;
use vt_store::{Change, Given, Store, StoreFault};

// ---- one change

fn make(alloc: Global, store: &mut Store, change: &Change) -> Result<(), StoreFault> {
    let edit = store.apply(alloc, change)?;
    store.revert(edit);
    store.apply(alloc, change)?;
    Ok(())
}

fn create_one(
    alloc: Global,
    store: &mut Store,
    name: &Text,
    class: &Text,
) -> Result<(), StoreFault> {
    let change = Change::Create {
        name: name.share(),
        class: class.share(),
        number: None,
    };
    make(alloc, store, &change)
}

fn link_one(
    alloc: Global,
    store: &mut Store,
    shelf: &Text,
    holds: &Text,
    book: &Text,
) -> Result<(), StoreFault> {
    let change = Change::Link {
        name: shelf.share(),
        reference: holds.share(),
        target: book.share(),
    };
    make(alloc, store, &change)
}

fn set_one(
    alloc: Global,
    store: &mut Store,
    book: &Text,
    pages: &Text,
    count: i64,
) -> Result<(), StoreFault> {
    let change = Change::Set {
        name: book.share(),
        attr: pages.share(),
        value: Given::Int(count),
    };
    make(alloc, store, &change)
}

fn delete_one(alloc: Global, store: &mut Store, name: &Text) -> Result<(), StoreFault> {
    let change = Change::Delete { name: name.share() };
    make(alloc, store, &change)
}

// ---- a change of many

/// An object of the class for each name.
pub fn create(
    alloc: Global,
    store: &mut Store,
    names: &[Text],
    class: &Text,
) -> Result<(), StoreFault> {
    for name in names {
        create_one(alloc, store, name, class)?;
    }
    Ok(())
}

/// Each book to its shelf. At a later turn this takes it from the shelf where it stood.
pub fn link(
    alloc: Global,
    store: &mut Store,
    scene: &Scene,
    turn: usize,
) -> Result<(), StoreFault> {
    for (place, book) in scene.books.iter().enumerate() {
        if let Some(shelf) = scene.shelf_of(place, turn) {
            link_one(alloc, store, shelf, &scene.holds, book)?;
        }
    }
    Ok(())
}

/// A number of pages for each book.
pub fn set(alloc: Global, store: &mut Store, scene: &Scene) -> Result<(), StoreFault> {
    for (place, book) in scene.books.iter().enumerate() {
        set_one(alloc, store, book, &scene.pages, (place % 997) as i64)?;
    }
    Ok(())
}

/// A third of the shelves goes, with their books.
pub fn delete(alloc: Global, store: &mut Store, scene: &Scene) -> Result<(), StoreFault> {
    for (place, shelf) in scene.shelves.iter().enumerate() {
        if place % 3 == 0 {
            delete_one(alloc, store, shelf)?;
        }
    }
    Ok(())
}
