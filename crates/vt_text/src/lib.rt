//! Expressions: how they are read, their kinds and values; and tokens and lexemes, which it hands on.
//!
//! It stands on `vt_base`, `vt_grammar` and `vt_tokens`. Read `specs/ExpressionRules.antt`,
//! `specs/Parsing.antt`, `specs/Expression.antt` and `specs/Kinds.antt`.
#![tactic(auto)]

// Expressions as they are written, and how they are read.
mod leaf;
mod reader;
mod sign;
mod tree;
// Expressions over slots, and how they are made.
mod copy;
mod expr;
mod meaning;
mod parsing;
mod slots;
// Their values and kinds.
mod eval;
mod kind;
// What holds of every expression.
mod laws;

// Tokens, their lexemes, and words, numbers and strings among these.
pub use vt_tokens::{
    Token, TokenFault, TokenKind, feature_name, identifier, lexemes, lexemes_among, number, quoted,
    string, tokens,
};
// Expressions as they are written.
pub use tree::{ExprTree, OperandTree, Slot};
// Expressions over slots, and how they are made.
pub use expr::{Expr, Operand, Operator};
pub use meaning::resolve;
pub use parsing::{ExprFault, Parsed, expr_tree, parse_expr, read_expr};
pub use slots::{reads, slots_of};
// Their values and kinds.
pub use kind::KindClash;
// What holds of every expression.
pub use laws::{one_expression, values_have_the_kind};
