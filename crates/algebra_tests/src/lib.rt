//! Tests of trees of operators: that calls succeed, which no clause says, and that definitions say
//! what one expects.
//!
//! A crate with tests is proved twice, so those of the crate below stand here, with no code beside
//! them.
#![tactic(auto)]

#[cfg(test)]
mod trees;
