//! The outside: where files come from, and where the text goes.
//!
//! It stands on `vt_base`. Read `specs/Faults.antt`, `specs/Shelf.antt`, then `specs/Sink.antt`.
#![tactic(auto)]

// What a shelf and a sink are.
mod shelf;
mod sink;
// In memory: without failures, and with failures at given calls.
mod memory;
mod steady;
// The files and the output of the system.
mod files;
mod output;

// What a shelf and a sink are.
pub use shelf::{FetchFail, Fetched, Shelf};
pub use sink::{PutFail, Sink};
// In memory: without failures, and with failures at given calls.
pub use memory::{MemShelf, MemSink};
pub use steady::{SteadyShelf, SteadySink};
// The files and the output of the system.
pub use files::FileShelf;
pub use output::StdSink;

#[cfg(test)]
mod tests;
