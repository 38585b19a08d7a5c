//! Tests of metamodels, objects, the store, transactions and their documents: that calls succeed,
//! which no clause says, and that definitions say what one expects.
//!
//! A crate with tests is proved twice, so those of the crates below stand here, with no code beside
//! them.
#![tactic(auto)]

#[cfg(test)]
mod change;
#[cfg(test)]
mod meta;
#[cfg(test)]
mod model_json;
#[cfg(test)]
mod slots;
#[cfg(test)]
mod store;
