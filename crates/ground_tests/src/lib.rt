//! Tests of sets, texts, lists, values and changes of rows: that calls succeed, which no clause
//! says, and that definitions say what one expects.
//!
//! A crate with tests is proved twice, so those of the crates below stand here, with no code beside
//! them.
#![tactic(auto)]

#[cfg(test)]
mod base;
#[cfg(test)]
mod delta;
#[cfg(test)]
mod sorted;
