// A small library, the changes that lines ask for, and what a store tells.
ghost use Rattle.std.specs.Prelude.{IfOk};
ghost use Rattle.vt_model.specs.Sound.{IsSound};

use std::alloc::Global;
use std::test::Fail;
use vt_base::{AttrId, NoMemory, ObjId, RefId, Text, Value};
use vt_meta::read_meta;
use vt_model::Metamodel;
use vt_store::{Change, Given, Store};

const LIBRARY: &str =
    r#"{"format":1,"enums":[{"name":"Genre","literals":["NOVEL","POEM","MAP"]}],"classes":[
{"name":"Item","abstract":true,"attributes":[{"name":"title","kind":"string"}]},
{"name":"Shelf","supers":["Item"],"references":[
 {"name":"books","target":"Book","many":true,"containment":true,"opposite":"shelf"},
 {"name":"sub","target":"Shelf","many":true,"containment":true},
 {"name":"shown","target":"Book"}]},
{"name":"Book","supers":["Item"],"attributes":[{"name":"pages","kind":"int"},{"name":"lent","kind":"boolean"},{"name":"genre","kind":"Genre"}],
 "references":[{"name":"shelf","target":"Shelf","opposite":"books"},
 {"name":"next","target":"Book","opposite":"previous"},
 {"name":"previous","target":"Book","opposite":"next"},
 {"name":"cites","target":"Item","many":true}]},
{"name":"Atlas","supers":["Book"],"references":[{"name":"inset","target":"Atlas","containment":true}]}]}"#;

fn metamodel(alloc: Global) -> Result<Metamodel, Fail>
    ensures sound { IfOk result IsSound }
{
    Ok(read_meta(alloc, LIBRARY.as_bytes())?)
}

pub(super) fn empty_library(alloc: Global) -> Result<Store, Fail> {
    Ok(Store::new(alloc, &metamodel(alloc)?)?)
}

// ---- changes

fn text(alloc: Global, words: &[&str], i: usize) -> Result<Text, NoMemory> {
    Text::new(alloc, words.get(i).copied().unwrap_or(""))
}

// A number, true, a literal of the enum by its number, or else a text.
fn given(alloc: Global, word: &str) -> Result<Given, NoMemory> {
    Ok(match word {
        "true" => Given::Bool(true),
        ".2" => Given::Literal(0, 2),
        ".3" => Given::Literal(0, 3),
        _ => match word.parse::<i64>() {
            Ok(n) => Given::Int(n),
            Err(_) => Given::Text(Text::new(alloc, word)?),
        },
    })
}

// The change that a line asks for, as `link x shelf a`.
pub(super) fn change(alloc: Global, line: &str) -> Result<Change, NoMemory> {
    let mut words = Vec::new(alloc);
    for word in line.split(' ') {
        words.push(word)?;
    }
    let name = text(alloc, words.as_slice(), 1)?;
    let second = text(alloc, words.as_slice(), 2)?;
    let third = text(alloc, words.as_slice(), 3)?;
    Ok(match words.first().copied().unwrap_or("") {
        "create" => Change::Create {
            name,
            class: second,
            number: third.as_str().parse::<u32>().ok(),
        },
        "delete" => Change::Delete { name },
        "set" => Change::Set {
            name,
            attr: second,
            value: given(alloc, third.as_str())?,
        },
        "unset" => Change::Unset { name, attr: second },
        "link" => Change::Link {
            name,
            reference: second,
            target: third,
        },
        "unlink" => Change::Unlink {
            name,
            reference: second,
            target: third,
        },
        _ => Change::Move {
            child: name,
            parent: second,
            reference: third,
        },
    })
}

// ---- what a store tells

fn shown(alloc: Global, value: &Value) -> Result<String, NoMemory> {
    Ok(match value {
        Value::Bool(b) => format!(in alloc; "{b}")?,
        Value::Int(n) => format!(in alloc; "{n}")?,
        Value::Text(text) => format!(in alloc; "{}", text.as_str())?,
        Value::Enum(_, l) => format!(in alloc; "{l}")?,
        Value::Obj(o) => format!(in alloc; "{}", o.0)?,
    })
}

// Values that are 0, false or the first literal aren't told.
fn add_values(text: &mut String, alloc: Global, store: &Store, o: ObjId) -> Result<(), Fail> {
    for a in 0..store.meta().attr_count() {
        let name = store.meta().attribute(AttrId(a)).map(|info| &info.name);
        if let (Some(name), Some(value)) = (name, store.attrs(o, AttrId(a))) {
            let value = shown(alloc, value)?;
            if value.as_str() != "0" && value.as_str() != "false" {
                let piece = format!(in alloc; " {}={}", name.as_str(), value.as_str())?;
                text.push_str(piece.as_str())?;
            }
        }
    }
    Ok(())
}

fn add_targets(
    text: &mut String,
    alloc: Global,
    store: &Store,
    reference: &Text,
    targets: &[ObjId],
) -> Result<(), Fail> {
    for o in targets {
        let name = store.name_of(*o).map_or("?", |name| name.as_str());
        text.push_str(format!(in alloc; " {}>{name}", reference.as_str())?.as_str())?;
    }
    Ok(())
}

fn add_links(text: &mut String, alloc: Global, store: &Store, o: ObjId) -> Result<(), Fail> {
    for r in 0..store.meta().ref_count() {
        if let Some(info) = store.meta().reference(RefId(r)) {
            let targets = store.targets(o, RefId(r));
            add_targets(text, alloc, store, &info.name, targets)?;
        }
    }
    Ok(())
}

// Each object that was ever made, by its name: its values and its targets, or that it is gone.
pub(super) fn picture(alloc: Global, store: &Store) -> Result<String, Fail> {
    let mut text = String::new(alloc);
    for number in 0..store.next_number() {
        let o = ObjId(number);
        if let Some(name) = store.name_of(o) {
            text.push_str(name.as_str())?;
            if store.class_of(o).is_none() {
                text.push_str(" is gone")?;
            }
            add_values(&mut text, alloc, store, o)?;
            add_links(&mut text, alloc, store, o)?;
            text.push_str("; ")?;
        }
    }
    Ok(text)
}
