//! What a dump loads to: a law on the definitions of `vt_model_json`, with its proof.
//!
//! It stands on `vt_meta` and `vt_model_json`, and nothing stands on it. Read `specs/ObjectNames.antt`,
//! then `dump_loads_back`.
#![tactic(auto)]

// What holds of the dump of every valid model.
mod laws;

// What holds of the dump of every valid model.
pub use laws::dump_loads_back;
