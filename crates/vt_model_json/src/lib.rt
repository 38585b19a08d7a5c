//! Model documents: read into a store, and written as the dump of its model.
//!
//! It stands on `vt_json`, `vt_meta` and `vt_store`. Read `specs/ModelDocument.antt`,
//! `specs/Loading.antt`, `specs/Difference.antt`, then `specs/Dump.antt`.
#![tactic(auto)]

// A document, the model that it makes, and what is new in it.
mod difference;
mod document;
mod loading;
mod names;
// The text of a model.
mod dump;
mod entries;
mod naming;
mod plan;

// A document, the model that it makes, and what is new in it.
pub use loading::{ModelFault, read_model, read_store};
// The text of a model.
pub use dump::write_model;
