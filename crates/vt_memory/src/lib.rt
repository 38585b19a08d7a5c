//! Memories of rows: sets with buckets, which need no memory for what they have room for.
//!
//! It stands on `vt_facts`, `vt_sorted`, `vt_base` and `vt_delta`, and keeps its rows in a `slab`.
//! Read `specs/Keyed.antt`, then `specs/Side.antt`; these are trusted.
#![tactic(auto)]

// A set of rows with buckets.
mod memory;
// What a node over one or two memories promises, and its net change.
mod change;
mod operator;
mod side;
// How the rows of a memory are found.
mod beyond;
mod bucket;
mod chains;
mod index;
mod numbers;
mod search;

// A set of rows with buckets.
pub use memory::Memory;
// What a node over one or two memories promises, and its net change.
pub use change::net_change;
pub use operator::Operator;
pub use side::Side;

#[cfg(test)]
mod tests;
