// The members of an object: under a key with or without a default, or under free keys.
ghost use Rattle.std.specs.Prelude.{◌≡◌, [], option_map, string_bytes};
ghost use Rattle.serde_json.specs.View.{view, members_view};
ghost use Rattle.vt_json.specs.Shape.{Reads, required, defaulted, optional, entries_in, entries_of};

use crate::shape::{Shape, ShapeFault};
use serde_json::{Map, Value};
use std::alloc::Global;
use vt_base::{List, Text};

/// What stands under a key that has no default.
pub fn read_required<T: Shape>(alloc: Global, value: &Value, key: &str) -> Result<T, ShapeFault>
    ensures { Reads result (required key.now T.shape (view value.now)) }
{
    match value.get(key) {
        Some(member) => T::read(alloc, member),
        None => Err(ShapeFault::BadShape),
    }
}

/// What stands under a key, or the default where there is no such key. What is no object has no
/// keys.
pub fn read_defaulted<T: Shape>(
    alloc: Global,
    value: &Value,
    key: &str,
    default: T,
) -> Result<T, ShapeFault>
    ensures { Reads result (defaulted key.now default T.shape (view value.now)) }
{
    match value.get(key) {
        Some(given) => T::read(alloc, given),
        None => Ok(default),
    }
}

/// What stands under a key, where there is such a key. What is no object has no keys.
pub fn read_optional<T: Shape>(
    alloc: Global,
    value: &Value,
    key: &str,
) -> Result<Option<T>, ShapeFault>
    ensures { Reads result (optional key.now T.shape (view value.now)) }
{
    match value.get(key) {
        Some(member) => Ok(Some(T::read(alloc, member)?)),
        None => Ok(None),
    }
}

fn read_entry<T: Shape>(alloc: Global, key: &String, value: &Value) -> Result<(Text, T), ShapeFault>
    ensures { Reads result (option_map (λ x. (string_bytes key.now, x)) (T.shape (view value.now))) }
{
    let item = T::read(alloc, value)?;
    let name = Text::new(alloc, key.as_str())?;
    Ok((name, item))
}

fn read_members<T: Shape>(
    alloc: Global,
    members: &Map<String, Value>,
) -> Result<List<(Text, T)>, ShapeFault>
    ensures { Reads result (entries_in T.shape (members_view members.now.entries)) }
{
    let mut entries = List::new(alloc);
    for (key, value) in members {
        let entry = read_entry(alloc, key, value)?;
        entries.add(entry)?;
    }
    Ok(entries)
}

/// The members of the object under a key, each with its own key and in rising order of these;
/// no members where there is no such key. What is no object has no keys.
pub fn read_entries<T: Shape>(
    alloc: Global,
    value: &Value,
    key: &str,
) -> Result<List<(Text, T)>, ShapeFault>
    ensures { Reads result (defaulted key.now [] (entries_of T.shape) (view value.now)) }
{
    let Some(member) = value.get(key) else {
        return Ok(List::new(alloc));
    };
    match member.as_object() {
        Some(members) => read_members(alloc, members),
        None => Err(ShapeFault::BadShape),
    }
}
