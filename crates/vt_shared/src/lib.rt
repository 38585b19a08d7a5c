//! A value on the heap with several owners, in one thread. One more owner takes no memory and cannot fail.
//!
//! It stands on `std_alloc` alone. The contracts of `Shared` cite no definition of this crate, so `specs/` is read only
//! to know what an owner holds.
#![tactic(auto)]

// The pointer, and what its callers ask of it.
mod pointer;

// The pointer, and what its callers ask of it.
pub use pointer::Shared;

#[cfg(test)]
mod tests;
