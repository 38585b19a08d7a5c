// Lexemes.
use crate::Symbol;
use vt_base::Text;

/// A symbol with its text and the line on which it begins, counted from 1.
#[derive(Debug, Drop)]
pub struct Lexeme {
    pub symbol: Symbol,
    /// What a word or a number is written as, and what a string stands for. Other symbols have no
    /// text.
    pub text: Text,
    pub line: u32,
}
