// The parts of a model document, and how each is read.
ghost use Rattle.std.specs.Prelude.{◌≡◌, ◌&&◌, ◌≤◌, [], Some, None, codes, nat_le, option_map, string_bytes, unwrap_or, if◌then◌else◌};
ghost use Rattle.serde_json.specs.Find.{as_str};
ghost use Rattle.serde_json.specs.View.{view, items_view, members_view};
ghost use Rattle.vt_json.specs.Shape.{Reads, required, defaulted, list_of, items_in, entries_of, entries_in};
ghost use Rattle.vt_meta.specs.Document.{has_format_one};
ghost use Rattle.vt_model_json.specs.ModelDocument.{entry_shape, object_shape, document_shape, rise, above_all};

use crate::names::Names;
use serde_json::{Map, Value};
use std::alloc::Global;
use vt_base::{List, Text};
use vt_json::{ObjectName, Shape, ShapeFault, has_only, read_optional, read_required};
use vt_meta::{Given, has_format_one};

/// The most that a number and the next number may be.
const MOST_NUMBER: u64 = 1_048_576;

/// What stands under an attribute's name: a value, or `null`, which gives none.
#[derive(Debug, Drop)]
pub struct Entry {
    pub given: Option<Given>,
}

/// An object of a document.
#[derive(Debug, Drop)]
pub struct ObjectDocument {
    pub name: ObjectName,
    pub class: Text,
    pub number: Option<u64>,
    pub attributes: List<(Text, Entry)>,
    pub links: List<(Text, List<ObjectName>)>,
}

/// A model document.
#[derive(Debug, Drop)]
pub struct ModelDocument {
    pub next: u64,
    pub objects: List<ObjectDocument>,
}

impl Shape for Entry {
    ghost shape = { entry_shape };

    fn read(alloc: Global, value: &Value) -> Result<Entry, ShapeFault> {
        let given = match value {
            Value::Null => None,
            Value::Bool(b) => Some(Given::Bool(*b)),
            Value::Number(_) => Some(Given::Int(i64::read(alloc, value)?)),
            Value::String(_) => Some(Given::Text(Text::read(alloc, value)?)),
            Value::Array(_) | Value::Object(_) => return Err(ShapeFault::BadShape),
        };
        Ok(Entry { given })
    }
}

// ---- objects

// A member of an object, with its key, which is among the names.
fn read_entry<T: Shape>(
    alloc: Global,
    names: &mut Names,
    key: &String,
    value: &Value,
) -> Result<(Text, T), ShapeFault>
    ensures { Reads result (option_map (λ x. (string_bytes key.now, x)) (T.shape (view value.now))) }
{
    let item = T::read(alloc, value)?;
    let name = names.text(alloc, key.as_str())?;
    Ok((name, item))
}

fn read_members<T: Shape>(
    alloc: Global,
    names: &mut Names,
    members: &Map<String, Value>,
) -> Result<List<(Text, T)>, ShapeFault>
    ensures { Reads result (entries_in T.shape (members_view members.now.entries)) }
{
    let mut entries = List::new(alloc);
    for (key, value) in members {
        let entry = read_entry(alloc, names, key, value)?;
        entries.add(entry)?;
    }
    Ok(entries)
}

// The members of the object under a key; no members where there is no such key.
fn read_entries<T: Shape>(
    alloc: Global,
    names: &mut Names,
    value: &Value,
    key: &str,
) -> Result<List<(Text, T)>, ShapeFault>
    ensures { Reads result (defaulted key.now [] (entries_of T.shape) (view value.now)) }
{
    let Some(member) = value.get(key) else {
        return Ok(List::new(alloc));
    };
    match member.as_object() {
        Some(members) => read_members(alloc, names, members),
        None => Err(ShapeFault::BadShape),
    }
}

fn read_class(alloc: Global, names: &mut Names, value: &Value) -> Result<Text, ShapeFault>
    ensures { Reads result (required (codes "class") as_str (view value.now)) }
{
    let Some(member) = value.get("class") else {
        return Err(ShapeFault::BadShape);
    };
    let Some(class) = member.as_str() else {
        return Err(ShapeFault::BadShape);
    };
    Ok(names.text(alloc, class)?)
}

// Its class and its keys are among the names, since objects have them in common.
fn read_object(
    alloc: Global,
    names: &mut Names,
    value: &Value,
) -> Result<ObjectDocument, ShapeFault>
    ensures { Reads result (object_shape (view value.now)) }
{
    if !has_only(value, &["name", "class", "number", "attributes", "links"]) {
        return Err(ShapeFault::BadShape);
    }
    let name = read_required(alloc, value, "name")?;
    let class = read_class(alloc, names, value)?;
    let number = read_optional(alloc, value, "number")?;
    let attributes = read_entries(alloc, names, value, "attributes")?;
    let links = read_entries(alloc, names, value, "links")?;
    Ok(ObjectDocument {
        name,
        class,
        number,
        attributes,
        links,
    })
}

fn read_objects(alloc: Global, values: &[Value]) -> Result<List<ObjectDocument>, ShapeFault>
    ensures { Reads result (items_in object_shape (items_view values.now)) }
{
    let mut names = Names::new(alloc)?;
    let mut objects = List::new(alloc);
    objects.reserve(values.len())?;
    for value in values {
        let object = read_object(alloc, &mut names, value)?;
        objects.add(object)?;
    }
    Ok(objects)
}

fn read_all(alloc: Global, value: &Value) -> Result<List<ObjectDocument>, ShapeFault>
    ensures { Reads result (required (codes "objects") (list_of object_shape) (view value.now)) }
{
    let Some(member) = value.get("objects") else {
        return Err(ShapeFault::BadShape);
    };
    match member.as_array() {
        Some(values) => read_objects(alloc, values.as_slice()),
        None => Err(ShapeFault::BadShape),
    }
}

// ---- the document

// One above the last number, where the numbers rise as they should.
fn next_above(objects: &[ObjectDocument]) -> Option<u64>
    ensures { result ≡ (if rise 0 objects.now then Some (above_all 0 objects.now) else None) }
{
    let mut above = 0;
    for object in objects {
        let number = object.number.unwrap_or(above);
        if number < above || number > MOST_NUMBER {
            return None;
        }
        above = number + 1;
    }
    Some(above)
}

impl Shape for ModelDocument {
    ghost shape = { document_shape };

    fn read(alloc: Global, value: &Value) -> Result<ModelDocument, ShapeFault> {
        if !(has_only(value, &["format", "next", "objects"]) && has_format_one(value)) {
            return Err(ShapeFault::BadShape);
        }
        let given: Option<u64> = read_optional(alloc, value, "next")?;
        let objects = read_all(alloc, value)?;
        let Some(above) = next_above(objects.as_slice()) else {
            return Err(ShapeFault::BadShape);
        };
        let next = given.unwrap_or(above);
        if next < above || next > MOST_NUMBER {
            return Err(ShapeFault::BadShape);
        }
        Ok(ModelDocument { next, objects })
    }
}
