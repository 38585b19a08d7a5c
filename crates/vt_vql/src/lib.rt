//! Query files: from bytes to a program of patterns, or the first fault.
//!
//! It stands on `vt_grammar`, `vt_tokens`, `vt_meta` and `vt_query`. Read `specs/Rules.antt`,
//! `specs/Scope.antt`, `specs/Resolving.antt`, then `specs/Queries.antt`.
#![tactic(auto)]

// What a file spells, and how it is read from the lexemes.
mod reader;
mod tree;
// From what is spelled to a program.
mod narrow;
mod resolver;
mod scope;
// From bytes to a program, or the first fault.
mod fault;
mod queries;
// What holds of every file.
mod laws;

// What a file spells.
pub use tree::{ConstraintTree, FileTree, ParamTree, PatternTree, TermTree};
// From bytes to a program, or the first fault.
pub use fault::QueryFault;
pub use queries::read_queries;
// What holds of every file.
pub use laws::{accepted_has_no_fault, accepted_is_narrow, one_fault, one_program};
