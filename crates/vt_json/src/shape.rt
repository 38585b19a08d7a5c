// From a JSON value to what it stands for: texts, numbers, lists, and the keys of objects.
ghost use Rattle.std.specs.Prelude.{◌≡◌, Option, map, string_bytes};
ghost use Rattle.std.specs.List.{list_all};
ghost use Rattle.std.specs.Map as entry_map;
ghost use Rattle.serde_json.specs.Data.{Data};
ghost use Rattle.serde_json.specs.Find.{as_str, as_bool};
ghost use Rattle.serde_json.specs.View.{view, items_view, members_view};
ghost use Rattle.vt_json.specs.declared.shape.ShapeFault.TheVariants.{NoMemory};
ghost use Rattle.vt_json.specs.Shape.{Reads, whole_number, integer, items_in, list_of, keys_of, is_listed, has_only};

use serde_json::{Map, Value};
use std::alloc::{AllocError, AllocFailed, Global};
use thiserror::Error;
use vt_base::{List, Text};

/// Why a JSON value doesn't give what was asked for.
#[derive(Clone, Copy, Debug, PartialEq, Eq, Error)]
pub enum ShapeFault {
    /// It has another form, as `1` where a text is asked for, or it has no key that is needed.
    #[error("the JSON value has another form, as `1` where a text is asked for, or lacks a key")]
    BadShape,
    /// Memory ran out. It may stand for any other answer.
    #[error("memory ran out before the JSON value was read")]
    NoMemory,
}

impl From<AllocError> for ShapeFault {
    ghost from_gives = { λ _ e. e ≡ NoMemory };

    fn from(_: AllocError) -> ShapeFault {
        ShapeFault::NoMemory
    }
}

impl<T: Drop> From<AllocFailed<T>> for ShapeFault {
    ghost from_gives = { λ _ e. e ≡ NoMemory };

    fn from(_: AllocFailed<T>) -> ShapeFault {
        ShapeFault::NoMemory
    }
}

impl From<vt_base::NoMemory> for ShapeFault {
    ghost from_gives = { λ _ e. e ≡ NoMemory };

    fn from(_: vt_base::NoMemory) -> ShapeFault {
        ShapeFault::NoMemory
    }
}

/// What a piece of JSON may stand for.
pub trait Shape: Drop {
    /// What some JSON stands for, and none where it has another form.
    ghost shape: { Data → Option Self };

    fn read(alloc: Global, value: &Value) -> Result<Self, ShapeFault>
        ensures { Reads result (shape (view value.now)) };
}

/// A text.
impl Shape for Text {
    ghost shape = { as_str };

    fn read(alloc: Global, value: &Value) -> Result<Text, ShapeFault> {
        let Some(text) = value.as_str() else {
            return Err(ShapeFault::BadShape);
        };
        Ok(Text::new(alloc, text)?)
    }
}

/// `true` or `false`.
impl Shape for bool {
    ghost shape = { as_bool };

    fn read(_alloc: Global, value: &Value) -> Result<bool, ShapeFault> {
        value.as_bool().ok_or(ShapeFault::BadShape)
    }
}

/// A whole number from 0.
impl Shape for u64 {
    ghost shape = { whole_number };

    fn read(_alloc: Global, value: &Value) -> Result<u64, ShapeFault> {
        value.as_u64().ok_or(ShapeFault::BadShape)
    }
}

/// A whole number with a sign.
impl Shape for i64 {
    ghost shape = { integer };

    fn read(_alloc: Global, value: &Value) -> Result<i64, ShapeFault> {
        value.as_i64().ok_or(ShapeFault::BadShape)
    }
}

fn read_items<T: Shape>(alloc: Global, values: &[Value]) -> Result<List<T>, ShapeFault>
    ensures { Reads result (items_in T.shape (items_view values.now)) }
{
    let mut items = List::new(alloc);
    for value in values {
        let item = T::read(alloc, value)?;
        items.add(item)?;
    }
    Ok(items)
}

/// A list of items of one shape.
impl<T: Shape> Shape for List<T> {
    ghost shape = { list_of T.shape };

    fn read(alloc: Global, value: &Value) -> Result<List<T>, ShapeFault> {
        let Some(values) = value.as_array() else {
            return Err(ShapeFault::BadShape);
        };
        read_items(alloc, values.as_slice())
    }
}

fn is_key(key: &str, keys: &[&str]) -> bool
    ensures { result ≡ is_listed (map (λ k. k.now) keys.now) key.now }
{
    for k in keys {
        if key == *k {
            return true;
        }
    }
    false
}

fn all_listed(members: &Map<String, Value>, keys: &[&str]) -> bool
    ensures { result ≡ list_all (λ k. is_listed (map (λ k. k.now) keys.now) (string_bytes k)) (entry_map.keys_of members.now.entries) }
{
    members.keys().all(|key| is_key(key.as_str(), keys))
}

#[tactic(auto, using(crate::proofs::ShapeLemmas::listed_keys))]
fn lists_keys(members: &Map<String, Value>, keys: &[&str]) -> bool
    ensures { result ≡ list_all (is_listed (map (λ k. k.now) keys.now)) (keys_of (members_view members.now.entries)) }
{
    all_listed(members, keys)
}

/// Whether the value is an object with no other keys than these.
pub fn has_only(value: &Value, keys: &[&str]) -> bool
    ensures { result ≡ has_only (map (λ k. k.now) keys.now) (view value.now) }
{
    match value.as_object() {
        Some(members) => lists_keys(members, keys),
        None => false,
    }
}
