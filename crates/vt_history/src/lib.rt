//! Histories: the steps of a model, what each does to the matches of patterns, and the report of it.
//!
//! It stands on `vt_query`. Read `specs/History.antt`, `specs/Events.antt`, then `specs/Report.antt`.
#![tactic(auto)]

// What is told of a step.
mod report;
// What a step does to a pattern's matches.
mod events;

// What is told of a step.
pub use report::{PatternEvents, StepReport};
