// The names that documents give.
ghost use Rattle.std.specs.Prelude.{◌≡◌};
ghost use Rattle.std.specs.List.{list_all};
ghost use Rattle.vt_json.specs.Names.{begins_name, continues_identifier, continues_object_name, is_name, identifier, object_name};

use crate::shape::{Shape, ShapeFault};
use serde_json::Value;
use std::alloc::Global;
use std::marker::Model;
use vt_base::Text;

const MOST_BYTES: usize = 64;

fn begins(byte: u8) -> bool
    ensures { result ≡ begins_name byte }
{
    byte.is_ascii_alphabetic() || byte == b'_'
}

fn continues_in_identifier(byte: u8) -> bool
    ensures { result ≡ continues_identifier byte }
{
    byte.is_ascii_alphanumeric() || byte == b'_'
}

fn continues_in_object_name(byte: u8) -> bool
    ensures { result ≡ continues_object_name byte }
{
    continues_in_identifier(byte) || byte == b'-' || byte == b'.'
}

fn all_in_identifier(bytes: &[u8]) -> bool
    ensures { result ≡ list_all continues_identifier bytes.now }
{
    bytes.iter().all(|byte| continues_in_identifier(*byte))
}

fn all_in_object_name(bytes: &[u8]) -> bool
    ensures { result ≡ list_all continues_object_name bytes.now }
{
    bytes.iter().all(|byte| continues_in_object_name(*byte))
}

fn is_identifier(text: &str) -> bool
    ensures { result ≡ is_name continues_identifier text.now }
{
    match text.as_bytes() {
        [first, rest @ ..] => begins(*first) && all_in_identifier(rest) && rest.len() < MOST_BYTES,
        [] => false,
    }
}

fn is_object_name(text: &str) -> bool
    ensures { result ≡ is_name continues_object_name text.now }
{
    match text.as_bytes() {
        [first, rest @ ..] => begins(*first) && all_in_object_name(rest) && rest.len() < MOST_BYTES,
        [] => false,
    }
}

/// The name of an enum, a literal, a class or a feature: an ASCII letter or `_`, then letters,
/// digits and `_`, 64 bytes in all at most.
#[derive(Debug, Drop)]
pub struct Identifier {
    text: Text,
}

impl Model for Identifier {
    ghost use Rattle.std.specs.Prelude.{List, ℕ};

    ghost Value = { List ℕ };

    ghost view = { λ name. name.text };
}

impl Identifier {
    pub fn as_text(&self) -> &Text
        ensures { result.now ≡ self.now }
    {
        &self.text
    }
}

impl Shape for Identifier {
    ghost shape = { identifier };

    fn read(alloc: Global, value: &Value) -> Result<Identifier, ShapeFault> {
        let Some(text) = value.as_str() else {
            return Err(ShapeFault::BadShape);
        };
        if !is_identifier(text) {
            return Err(ShapeFault::BadShape);
        }
        let text = Text::new(alloc, text)?;
        Ok(Identifier { text })
    }
}

/// The name of an object: an identifier that may also have `-` and `.` after its first byte.
#[derive(Debug, Drop)]
pub struct ObjectName {
    text: Text,
}

impl Model for ObjectName {
    ghost use Rattle.std.specs.Prelude.{List, ℕ};

    ghost Value = { List ℕ };

    ghost view = { λ name. name.text };
}

impl ObjectName {
    pub fn as_text(&self) -> &Text
        ensures { result.now ≡ self.now }
    {
        &self.text
    }
}

impl Shape for ObjectName {
    ghost shape = { object_name };

    fn read(alloc: Global, value: &Value) -> Result<ObjectName, ShapeFault> {
        let Some(text) = value.as_str() else {
            return Err(ShapeFault::BadShape);
        };
        if !is_object_name(text) {
            return Err(ShapeFault::BadShape);
        }
        let text = Text::new(alloc, text)?;
        Ok(ObjectName { text })
    }
}
