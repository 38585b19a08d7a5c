//! What a store keeps of each object: its number, its name and its class, and while it lives its
//! values and the ends of its links.
//!
//! It stands on `vt_base` and `vt_model`, and finds names by `indexmap`. It knows no metamodel. Read
//! `specs/Values.antt`, `specs/Ends.antt`, then `specs/Slots.antt`.
#![tactic(auto)]

// What one object has.
mod ends;
mod slot;
mod values;
// All objects, by number and by name.
mod name;
mod slots;

// What one object has.
pub use ends::{EndList, Ends};
pub use slot::{Body, Side, Slot};
pub use values::{Held, Values};
// All objects, by number and by name.
pub use slots::Slots;
