//! Grammars of lexemes: what a list of them spells, where its first fault stands, and how it is read.
//!
//! It stands on `vt_base`. Read `specs/Grammar.antt`, `specs/Fault.antt`, `specs/Forms.antt`, then
//! `specs/Reading.antt` and `specs/Gives.antt`.
#![tactic(auto)]

// What a grammar is about: symbols, and lexemes of them.
mod lexeme;
mod symbol;
// What every reader is made of.
mod brackets;
mod member;
mod reading;
mod stop;
// The end of a reading, and what holds of every grammar.
mod laws;
mod spelled;

// What a grammar is about: symbols, and lexemes of them.
pub use lexeme::Lexeme;
pub use symbol::Symbol;
// What every reader is made of.
pub use brackets::balanced;
pub use member::{Member, more};
pub use reading::{is_next, one};
pub use stop::Stop;
// The end of a reading, and what holds of every grammar.
pub use laws::{fault_spells_nothing, one_fault, one_tree, reading_is_spelling, spells_or_fault};
pub use spelled::{Spelled, whole};
