//! Scripts of sessions: from bytes to a list of commands, or the first fault.
//!
//! It stands on `vt_base` and `vt_model`, and takes the words of `vt_tokens` and `vt_json` for names and
//! numbers. Read `specs/Words.antt`, `specs/Commands.antt`, `specs/Script.antt`, then
//! `specs/Formed.antt`.
#![tactic(auto)]

// What a line spells.
mod commands;
mod line;
mod value;
mod verbs;
mod words;
// From bytes to commands, or the first fault.
mod fault;
mod script;
// What holds of every script.
mod laws;

// What a line spells.
pub use line::Line;
// From bytes to commands, or the first fault.
pub use fault::ScriptFault;
pub use script::read_script;
// What holds of every script.
pub use laws::accepted_is_formed;
