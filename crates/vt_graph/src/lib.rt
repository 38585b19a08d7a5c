//! A model by its slots, seen as plain lists: objects by number and by name, links at both ends.
//!
//! It stands on `vt_slots`. Read `specs/Held.antt`, `specs/Asked.antt`, then `specs/Room.antt`.
#![tactic(auto)]

// A model by its slots, and what becomes of a name.
mod buried;
mod graph;
mod links;
mod made;
mod making;
mod names;
mod objects;
mod passing;
mod plan;
mod rows;
mod seen;
mod values;

// A model by its slots, and what becomes of a name.
pub use buried::Buried;
pub use graph::Graph;
pub use made::default_value;
pub use rows::Listed;
pub use seen::Seen;
