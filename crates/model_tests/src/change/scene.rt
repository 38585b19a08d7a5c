// A small library, and the changes that lines ask for.

use std::alloc::Global;
use std::test::Fail;
use vt_base::{NoMemory, Text};
use vt_change::{Transaction, try_apply};
use vt_meta::read_meta;
use vt_model::{Change, Given};
use vt_store::Store;

const LIBRARY: &str = r#"{"format":1,"enums":[],"classes":[
{"name":"Item","abstract":true,"attributes":[{"name":"title","kind":"string"}]},
{"name":"Shelf","supers":["Item"],"references":[
 {"name":"books","target":"Book","many":true,"containment":true,"opposite":"shelf"}]},
{"name":"Book","supers":["Item"],"attributes":[{"name":"pages","kind":"int"}],"references":[
 {"name":"shelf","target":"Shelf","opposite":"books"},
 {"name":"next","target":"Book","opposite":"previous"},
 {"name":"previous","target":"Book","opposite":"next"}]},
{"name":"Atlas","supers":["Book"]}]}"#;

// Shelves a and b, books x, y and z; x and y stand on a, and x has three pages.
const SCENE: &str =
    "create a Shelf\ncreate b Shelf\ncreate x Book\ncreate y Book\ncreate z Book\nlink a books x\nlink a books y\nset x pages 3";

// A whole number, or else a text.
fn given(word: Text) -> Given {
    match word.as_str().parse::<i64>() {
        Ok(n) => Given::Int(n),
        Err(_) => Given::Text(word),
    }
}

// The change that a line asks for, as `link x shelf a`.
pub(super) fn change(alloc: Global, line: &str) -> Result<Change, NoMemory> {
    let mut words = line.split(' ');
    let verb = words.next().unwrap_or("");
    let name = Text::new(alloc, words.next().unwrap_or(""))?;
    let second = Text::new(alloc, words.next().unwrap_or(""))?;
    let third = Text::new(alloc, words.next().unwrap_or(""))?;
    Ok(match verb {
        "create" => Change::Create {
            name,
            class: second,
            number: None,
        },
        "delete" => Change::Delete { name },
        "set" => Change::Set {
            name,
            attr: second,
            value: given(third),
        },
        "link" => Change::Link {
            name,
            reference: second,
            target: third,
        },
        "unlink" => Change::Unlink {
            name,
            reference: second,
            target: third,
        },
        _ => Change::Move {
            child: name,
            parent: second,
            reference: third,
        },
    })
}

pub(super) fn transaction(alloc: Global, lines: &str) -> Result<Transaction, Fail> {
    let mut changes = Transaction::new(alloc);
    for line in lines.lines() {
        changes.push(change(alloc, line)?)?;
    }
    Ok(changes)
}

pub(super) fn library(alloc: Global) -> Result<Store, Fail> {
    let mut store = Store::new(alloc, &read_meta(alloc, LIBRARY.as_bytes())?)?;
    let changes = transaction(alloc, SCENE)?;
    let _ = try_apply(alloc, &mut store, changes.changes())?;
    Ok(store)
}
