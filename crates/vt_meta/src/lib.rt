//! Metamodels, read from a document.
//!
//! It stands on `vt_model`, whose names it hands on, and on `vt_base` and `vt_json`. Read
//! `specs/Document.antt`, `specs/Declarations.antt`, `specs/Built.antt`, `specs/Faults.antt` and
//! `specs/Reading.antt`.
#![tactic(auto)]

// From bytes to a metamodel, or the first fault.
mod building;
mod clashes;
mod cycles;
mod document;
mod duplicates;
mod fault;
mod limits;
mod opposites;
mod reader;
mod resolved;
mod types;
// What holds of every metamodel that is read, and of documents.
mod laws;

// From bytes to a metamodel, or the first fault.
pub use document::has_format_one;
pub use fault::MetaFault;
pub use reader::read_meta;
// What holds of every metamodel that is read, and of documents.
pub use laws::{read_is_sound, super_cycle_is_a_path};
// Metamodels and models, of the crate below.
pub use vt_model::{
    AttrInfo, AttributeValue, Change, ClassInfo, EnumInfo, Feature, Given, GoneObject, Link,
    Metamodel, Object, RefInfo, Refusal, base_ascends, effect_keeps_valid, empty_is_valid,
    inside_is_a_path, isa_is_a_path, transaction_keeps_valid,
};
