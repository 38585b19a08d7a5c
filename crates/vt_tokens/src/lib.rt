//! Tokens of queries, rules and scripts, their lexemes, and words, numbers and strings among these.
//!
//! It stands on `vt_base` and `vt_grammar`. Read `specs/Lexicon.antt`, `specs/Spelling.antt`,
//! `specs/Quoting.antt`, `specs/Lexemes.antt`; then `specs/Words.antt`.
#![tactic(auto)]

// The tokens of a text, and its lexemes.
mod lexeme;
mod lexer;
mod piece;
mod quoting;
mod token;
// Words, numbers and strings among lexemes.
mod words;
// What holds of every text.
mod laws;

// The tokens of a text, and its lexemes.
pub use lexeme::{lexemes, lexemes_among};
pub use lexer::tokens;
pub use quoting::quoted;
pub use token::{Token, TokenFault, TokenKind};
// Words, numbers and strings among lexemes.
pub use words::{feature_name, identifier, number, string};
// What holds of every text.
pub use laws::{
    all_are_among, bad_spells_nothing, each_mark_has_a_symbol, one_bad_line, one_list,
    spells_or_is_bad, strings_are_quoted, tokens_are_slices,
};
