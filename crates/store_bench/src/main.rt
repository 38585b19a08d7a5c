//! Makes, links, values and deletes shelves and books in a store; each change is made, taken back
//! and made again. The argument is the number of books.
#![tactic(auto)]

mod changes;
mod scene;

use changes::{create, delete, link, set};
use scene::{METAMODEL, Scene};
use std::alloc::Global;
use std::env;
use std::process::ExitCode;
use std::rt::Env;
use vt_meta::{Metamodel, read_meta};
use vt_store::{Store, StoreFault};

// The numbers of all objects have to be below 1048576, and one of eleven is a shelf.
const MOST_BOOKS: usize = 800_000;

// All changes of so many books, and the number that the next object gets then.
fn run(alloc: Global, meta: &Metamodel, books: usize) -> Result<u32, StoreFault> {
    let scene = Scene::new(alloc, books)?;
    let mut store = Store::new(alloc, meta)?;
    create(alloc, &mut store, &scene.shelves, &scene.shelf)?;
    create(alloc, &mut store, &scene.books, &scene.book)?;
    link(alloc, &mut store, &scene, 0)?;
    link(alloc, &mut store, &scene, 1)?;
    set(alloc, &mut store, &scene)?;
    delete(alloc, &mut store, &scene)?;
    Ok(store.next_number())
}

fn answer(alloc: Global, books: usize) -> Option<u32> {
    let Ok(meta) = read_meta(alloc, METAMODEL.as_bytes()) else {
        return None;
    };
    run(alloc, &meta, books).ok()
}

// How many books: the first argument, if it is a number that isn't too large.
fn count_of<R: Env + AllocGlobal>(rt: &R) -> Option<usize> {
    let mut args = env::args(rt).ok()?;
    let word = args.nth(1)?;
    let count = word.as_str().parse::<usize>().ok()?;
    if count <= MOST_BOOKS {
        Some(count)
    } else {
        None
    }
}

fn main(rt: HostRuntime) -> ExitCode {
    let Some(books) = count_of(&rt) else {
        return ExitCode::from(2);
    };
    let Some(next) = answer(rt.alloc(), books) else {
        return ExitCode::from(5);
    };
    match println!(rt; "{next} objects") {
        Ok(()) => ExitCode::from(0),
        Err(_) => ExitCode::from(6),
    }
}
