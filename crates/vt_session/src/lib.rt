//! Sessions: a model, the match lists of patterns over it, and clients whose transactions change it
//! one at a time.
//!
//! It stands on `vt_change` and `vt_history`. Read `specs/Buffers.antt`, `specs/Run.antt`, then
//! `specs/Session.antt`.
#![tactic(auto)]

// A session, and what its calls answer.
mod buffers;
mod committing;
mod fault;
mod session;

// A session, and what its calls answer.
pub use fault::{SessionFault, StartFault};
pub use session::Session;
