//! A typed model that takes single changes, refuses each that would break it, and can take each
//! change back.
//!
//! It stands on `vt_graph`, and on what `vt_model` says of changes. Read `specs/Edits.antt`,
//! `specs/Undoing.antt`, then `specs/Changing.antt`.
#![tactic(auto)]

// A store, what a change did, and why it wasn't made.
mod changing;
mod edit;
mod fault;
mod rows;
mod store;
// What is done for changes.
mod assignment;
mod creation;
mod deletion;
mod displaced;
mod linkage;
mod relinking;
mod reverting;
// What holds of every edit.
mod laws;

// A store, what a change did, and why it wasn't made.
pub use edit::Edit;
pub use fault::StoreFault;
pub use store::Store;
pub use vt_graph::Seen;
pub use vt_model::{Change, Given, Refusal};
pub use vt_slots::Held;
// What holds of every edit.
pub use laws::{edit_tells_apart, fits_with_more_room, undoing_gives_back};
