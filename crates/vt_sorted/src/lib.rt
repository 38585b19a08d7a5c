//! An ordered set with room: it takes so many items with no memory, and without fail.
//!
//! It stands on `vt_facts`. Read `specs/Room.antt` there, then `specs/Ascending.antt`.
#![tactic(auto)]

// A front of the items, a key to one, and the items to come.
mod front;
mod like;
mod walk;
// Items in chunks.
mod chunk;
mod chunks;
mod large;
mod pieces;
// The set.
mod sorted;

// Memory: what wanting it answers, and what can be copied.
pub use vt_facts::{NoMemory, Plain};
// A front of the items, a key to one, and the items to come.
pub use front::Front;
pub use like::Like;
pub use walk::Walk;
// The set.
pub use sorted::Sorted;
