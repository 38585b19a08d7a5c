//! Tests of programs, their evaluation and query files: that calls succeed, which no clause says,
//! and that definitions say what one expects.
//!
//! A crate with tests is proved twice, so those of the crates below stand here, with no code beside
//! them.
#![tactic(auto)]

#[cfg(test)]
mod direct;
#[cfg(test)]
mod query;
#[cfg(test)]
mod vql;
