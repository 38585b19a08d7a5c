//! Rules: what a rule does with the matches of a pattern, as data.
//!
//! It stands on `vt_text`. Read `specs/Jobs.antt`.
#![tactic(auto)]

// The types of rules.
mod copy;
mod rule;

// The types of rules.
pub use rule::{AgendaSpec, Job, Read, Rule, Rules, Statement, Who};

#[cfg(test)]
mod tests;
