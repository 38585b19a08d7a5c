//! Query files as they are written: their grammar, and how lexemes are read by it.
//!
//! It stands on `vt_grammar` and `vt_text`. Read `specs/Expressions.antt`, `specs/Terms.antt`,
//! `specs/Rules.antt`, then `specs/Parts.antt`.
#![tactic(auto)]

// What a file spells.
mod tree;
// From the lexemes of a file to its tree.
mod calls;
mod constraints;
mod file;
mod patterns;
mod terms;
// What holds of every list of lexemes.
mod laws;

// What a file spells.
pub use tree::{
    AggTree, ArgTree, BodyTree, CallTree, CodeTree, ConstraintTree, FileTree, ParamTree,
    PatternTree, RightTree, TermTree, TypeTree,
};
// From the lexemes of a file to its tree.
pub use file::read_file;
// What holds of every list of lexemes.
pub use laws::{balanced_is_longest, expression_is_spelled, part_goes_on};
