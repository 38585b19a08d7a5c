//! Documents: from bytes to a JSON value, and from a JSON value to what it stands for.
//!
//! It stands on `vt_base` and `serde_json`. Read `specs/Json.antt`, `specs/Shape.antt`, then
//! `specs/Names.antt`.
#![tactic(auto)]

// From bytes to a JSON value.
mod json;
// From a JSON value to what it stands for.
mod members;
mod shape;
// The names that documents give.
mod names;

// From bytes to a JSON value.
pub use json::{JsonFault, parse};
// From a JSON value to what it stands for.
pub use members::{read_defaulted, read_entries, read_optional, read_required};
pub use shape::{Shape, ShapeFault, has_only};
// The names that documents give.
pub use names::{Identifier, ObjectName};

#[cfg(test)]
mod tests;
