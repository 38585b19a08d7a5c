//! Transactions: changes that a store makes as a whole or not at all, what they changed, and the way
//! back.
//!
//! It stands on `vt_store`. Read `specs/Leading.antt`, then `specs/Applying.antt`.
#![tactic(auto)]

// Changes that are collected.
mod transaction;
// A transaction that is made, and why one isn't.
mod applied;
mod applying;
mod fault;
// What its changes did so far, and the way back.
mod naming;
mod returning;
mod telling;
mod working;
// What holds of every way back.
mod laws;

// Changes that are collected.
pub use transaction::{PushFault, Transaction};
// A transaction that is made, and why one isn't.
pub use applied::Applied;
pub use applying::try_apply;
pub use fault::ApplyFault;
// What holds of every way back.
pub use laws::leads_back_with_more_room;
