//! Tests of query files as they are written: that files can be read, which no clause says, and that
//! the grammar says what one expects.
//!
//! A crate with tests is proved twice, so those of the crate below stand here, with no code beside
//! them.
#![tactic(auto)]

#[cfg(test)]
mod files;
#[cfg(test)]
mod shown;
