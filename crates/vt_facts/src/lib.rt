//! Facts on lists and small words of definitions, which several crates cite: one home for each.
//!
//! Its only types are of memory: the want of it, and values that can be copied. Read `specs/Names.antt`,
//! `specs/Parts.antt`, `specs/Firsts.antt`, `specs/Lines.antt`, then `specs/Room.antt`. The lemmas of
//! `proofs/` are for proofs alone.
#![tactic(auto)]

// Memory: what wanting it answers, and what can be copied.
mod memory;
mod plain;
// What holds of the words.
mod laws;

// Memory: what wanting it answers, and what can be copied.
pub use memory::NoMemory;
pub use plain::Plain;
// What holds of the words.
pub use laws::{
    a_line_ends_with_a_line_feed, distinct_names_have_one_place, names_are_their_bytes,
};
