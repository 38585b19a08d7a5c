//! Deltas: how a set of rows changed, and how all rows of a model did.
//!
//! It stands on `vt_base`. Read `specs/Changes.antt`, then `specs/Deltas.antt`: these are trusted.
#![tactic(auto)]

// The change of one set of rows, and of a list of them.
mod delta;
mod deltas;
// What net deltas do.
mod laws;

// The change of one set of rows, and of a list of them.
pub use delta::{BaseDelta, Delta};
pub use deltas::Deltas;
// What net deltas do.
pub use laws::{
    a_net_delta_leads_on, a_net_delta_stays_net, deltas_turn_with_their_rows, net_deltas_lead_on,
};
