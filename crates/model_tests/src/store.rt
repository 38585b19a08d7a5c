//! What changes leave, what is refused, and that changes are taken back.

use scene::{change, empty_library, picture};
use std::alloc::Global;
use std::test::Fail;
use vt_store::{Store, StoreFault};

mod dice;
mod random;
mod scene;

// Shelves a and b, books x, y and z; x and y stand on a, and x has three pages.
const SCENE: &str = "create a Shelf
create b Shelf
create x Book
create y Book
create z Book
link a books x
link a books y
set x pages 3";

// Makes the changes of lines, up to the first that is refused.
fn make_all(alloc: Global, store: &mut Store, lines: &str) -> Result<(), StoreFault> {
    for line in lines.lines() {
        let change = change(alloc, line)?;
        store.apply(alloc, &change)?;
    }
    Ok(())
}

fn library(alloc: Global) -> Result<Store, Fail> {
    let mut store = empty_library(alloc)?;
    make_all(alloc, &mut store, SCENE)?;
    Ok(store)
}

// What comes of the library: the answer to the last change or to the first that is refused, and
// what the store tells then.
fn told(alloc: Global, lines: &str) -> Result<String, Fail> {
    let mut store = library(alloc)?;
    let answer = make_all(alloc, &mut store, lines);
    let text = picture(alloc, &store)?;
    Ok(format!(in alloc; "{answer:?}: {text}")?)
}

const AS_BEFORE: &str = "a books>x books>y; b; x pages=3 shelf>a; y shelf>a; z; ";

const CASES: [(&str, &str); 13] = [
    // A book stands on one shelf, whichever end is given.
    (
        "link b books x",
        "Ok(()): a books>y; b books>x; x pages=3 shelf>b; y shelf>a; z; ",
    ),
    (
        "link x shelf b",
        "Ok(()): a books>y; b books>x; x pages=3 shelf>b; y shelf>a; z; ",
    ),
    (
        "move x b books",
        "Ok(()): a books>y; b books>x; x pages=3 shelf>b; y shelf>a; z; ",
    ),
    // Both ends go, whichever end is given.
    (
        "unlink x shelf a",
        "Ok(()): a books>y; b; x pages=3; y shelf>a; z; ",
    ),
    // A book has one that comes next and one before it: both that had another lose it.
    (
        "link x next y\nlink z previous z\nlink x next z",
        "Ok(()): a books>x books>y; b; x pages=3 shelf>a next>z; y shelf>a; z previous>x; ",
    ),
    // A shelf is in one other.
    (
        "create c Shelf\nlink a sub c\nlink b sub c",
        "Ok(()): a books>x books>y; b sub>c; x pages=3 shelf>a; y shelf>a; z; c; ",
    ),
    // A link that stands, and one that doesn't.
    (
        "link x shelf a\nunlink b books z",
        "Ok(()): a books>x books>y; b; x pages=3 shelf>a; y shelf>a; z; ",
    ),
    // A default comes back.
    (
        "unset x pages\nset y pages 7\nset y genre MAP\nset z genre MAP\nunset z genre",
        "Ok(()): a books>x books>y; b; x shelf>a; y pages=7 genre=2 shelf>a; z; ",
    ),
    // What is inside goes too, at any depth, and each link from outside.
    (
        "link a sub b\nlink z next x\ncreate u Book\nlink b books u\nlink z previous u\ndelete a",
        "Ok(()): a is gone; b is gone; x is gone; y is gone; z; u is gone; ",
    ),
    // A ring is closed by nobody.
    (
        "create c Shelf\nlink a sub b\nlink b sub c\nlink c sub a",
        "Err(Refused(ContainmentCycle)): a books>x books>y sub>b; b sub>c; x pages=3 shelf>a; y shelf>a; z; c; ",
    ),
    // A name comes once.
    (
        "delete z\ncreate z Book",
        "Err(Refused(NameTaken)): a books>x books>y; b; x pages=3 shelf>a; y shelf>a; z is gone; ",
    ),
    // One that never was comes before one that is gone, and that before the feature.
    (
        "delete z\nlink z nothing w",
        "Err(Refused(UnknownObject)): a books>x books>y; b; x pages=3 shelf>a; y shelf>a; z is gone; ",
    ),
    (
        "delete z\nlink x nothing z",
        "Err(Refused(Gone)): a books>x books>y; b; x pages=3 shelf>a; y shelf>a; z is gone; ",
    ),
];

const REFUSED: [(&str, &str); 20] = [
    ("create a Nothing", "UnknownClass"),
    ("create a Item", "AbstractClass"),
    ("create a Book", "NameTaken"),
    ("create _7 Book", "ReservedName"),
    ("delete w", "UnknownObject"),
    ("set w nothing 1", "UnknownObject"),
    ("set x nothing 1", "UnknownFeature"),
    ("set a pages 1", "UnknownFeature"),
    ("set x shelf 1", "WrongKind"),
    ("set x title 1", "WrongKind"),
    ("unset x next", "WrongKind"),
    ("link x nothing w", "UnknownObject"),
    ("link x nothing a", "UnknownFeature"),
    ("link x pages a", "WrongKind"),
    ("link x next a", "WrongTarget"),
    ("link a sub a", "ContainmentCycle"),
    ("unlink x next a", "WrongTarget"),
    ("move x y next", "WrongKind"),
    ("move x b sub", "WrongTarget"),
    ("move b b sub", "ContainmentCycle"),
];

#[test]
fn changes_leave_this_and_are_refused_for_the_first_reason(rt: HostRuntime) -> Result<(), Fail> {
    let alloc = rt.alloc();
    for (lines, text) in CASES {
        assert_eq!(rt; told(alloc, lines)?.as_str(), text);
    }
    for (line, why) in REFUSED {
        let text = format!(in alloc; "Err(Refused({why})): {AS_BEFORE}")?;
        assert_eq!(rt; told(alloc, line)?, text);
    }
    Ok(())
}
