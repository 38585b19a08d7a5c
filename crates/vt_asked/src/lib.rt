//! What a change asks for by the names in it: live objects, a value for an attribute, a link; or the
//! first reason for which it is refused.
//!
//! It stands on `vt_graph`, which it only reads, and on what `vt_model` says of changes. Read
//! `specs/Named.antt`, then `specs/Asking.antt`.
#![tactic(auto)]

// The objects, the links and the values that changes ask for.
mod asking;
mod assigning;
mod naming;
mod valuing;
// What a metamodel says of references and of links.
mod references;

// The objects, the links and the values that changes ask for.
pub use asking::{containment_named, link_named};
pub use assigning::{Assignment, set_asked, unset_asked};
pub use naming::{Named, live_named};
// What a metamodel says of references and of links.
pub use references::{has_single_opposite, is_containment, is_many, link_back, oriented};
