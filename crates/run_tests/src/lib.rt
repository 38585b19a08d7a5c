//! Tests of reports, sessions and scripts: that calls succeed, which no clause says, and that
//! definitions say what one expects.
//!
//! A crate with tests is proved twice, so those of the crates below stand here, with no code beside
//! them.
#![tactic(auto)]

#[cfg(test)]
mod history;
#[cfg(test)]
mod script;
#[cfg(test)]
mod session;
