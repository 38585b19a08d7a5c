//! What transactions change and tell, which are refused, and that they are taken back.

use scene::{change, library, transaction};
use std::alloc::Global;
use std::test::Fail;
use told::{picture, told};
use vt_change::{ApplyFault, PushFault, Transaction, try_apply};
use vt_store::Store;

mod scene;
mod told;

// ---- transactions that are made

// What is told of each.
const MADE: [(&str, &str); 10] = [
    // A row for the class of a new object and for each above it.
    (
        "create u Atlas",
        "+Item(u) +Book(u) +Atlas(u) +pages(u 0) touched",
    ),
    // What is made and unmade leaves nothing.
    ("create u Book\ndelete u", "touched"),
    ("link b books z\nunlink z shelf b", "touched"),
    ("unlink a books x\nlink x shelf a", "touched"),
    // The value at the end counts.
    ("set x pages 5\nset x pages 3", "touched"),
    (
        "set x pages 5\nset x pages 7\nset y title four",
        "+title(y four) -pages(x 3) +pages(x 7) touched x y",
    ),
    // A book that goes to another shelf is displaced at both ends, and so is one that comes next.
    (
        "move x b books",
        "-books(a x) +books(b x) -shelf(x a) +shelf(x b) touched",
    ),
    (
        "link x next y\nlink x next z",
        "+next(x z) +previous(z x) touched",
    ),
    // Who lives before and after alone is touched.
    (
        "create u Book\nset u pages 9\nset y pages 1\ndelete y",
        "-Item(y) +Item(u) -Book(y) +Book(u) -pages(y 0) +pages(u 9) -books(a y) -shelf(y a) touched",
    ),
    // What is in it goes too.
    (
        "delete a",
        "-Item(a) -Item(x) -Item(y) -Shelf(a) -Book(x) -Book(y) -pages(x 3) -pages(y 0) -books(a x) -books(a y) -shelf(x a) -shelf(y a) touched",
    ),
];

// Makes a transaction and takes it back. The answer is what was told.
fn made_and_undone(alloc: Global, store: &mut Store, lines: &str) -> Result<String, Fail> {
    let changes = transaction(alloc, lines)?;
    let applied = try_apply(alloc, store, changes.changes())?;
    let text = told(alloc, store, &applied);
    applied.undo(store);
    text
}

#[test]
fn transactions_tell_what_changed_in_the_end_and_are_undone(rt: HostRuntime) -> Result<(), Fail> {
    let alloc = rt.alloc();
    let mut store = library(alloc)?;
    let before = picture(alloc, &store)?;
    for (lines, text) in MADE {
        assert_eq!(rt; made_and_undone(alloc, &mut store, lines)?.as_str(), text);
        assert_eq!(rt; picture(alloc, &store)?.as_str(), before.as_str());
    }
    Ok(())
}

// ---- transactions that are refused

const REFUSED: [(&str, &str); 3] = [
    (
        "set x pages 5\ndelete w",
        "change 1 is refused: an object that is named never existed",
    ),
    (
        "create u Book\nlink b books u\ndelete a\nset x pages 1\ndelete w",
        "change 3 is refused: an object that is named was deleted",
    ),
    (
        "create u Nothing\ndelete w",
        "change 0 is refused: no class has the name",
    ),
];

fn refused(alloc: Global, store: &mut Store, lines: &str) -> Result<String, Fail> {
    let changes = transaction(alloc, lines)?;
    match try_apply(alloc, store, changes.changes()) {
        Ok(_) => Ok(String::new(alloc)),
        Err(fault) => Ok(format!(in alloc; "{fault}")?),
    }
}

#[test]
fn a_refused_transaction_changes_nothing(rt: HostRuntime) -> Result<(), Fail> {
    let alloc = rt.alloc();
    let mut store = library(alloc)?;
    let before = picture(alloc, &store)?;
    for (lines, text) in REFUSED {
        assert_eq!(rt; refused(alloc, &mut store, lines)?.as_str(), text);
        assert_eq!(rt; picture(alloc, &store)?.as_str(), before.as_str());
    }
    Ok(())
}

// ---- the most changes

#[test]
fn a_transaction_takes_65536_changes(rt: HostRuntime) -> Result<(), Fail> {
    let alloc = rt.alloc();
    let mut changes = Transaction::new(alloc);
    let one = change(alloc, "delete x")?;
    for _ in 0..65_536u32 {
        changes.push(one.share())?;
    }
    assert!(rt; matches!(changes.push(one.share()), Err(PushFault::Full)));
    assert_eq!(rt; changes.changes().len(), 65_536);
    let mut store = library(alloc)?;
    let answer = try_apply(alloc, &mut store, changes.changes());
    assert!(rt; matches!(answer, Err(ApplyFault::Refused { at: 1, .. })));
    Ok(())
}
