// The kinds of lexeme.

/// The kinds of lexeme of a text, in four groups.
#[derive(Clone, Copy, Debug, PartialEq, Eq)]
pub enum Symbol {
    /// A name: a word that is no keyword.
    Identifier,
    /// `_` alone.
    Blank,
    Number,
    /// A string in double quotes.
    Quoted,

    // Keywords.
    Package,
    Import,
    Pattern,
    Private,
    Or,
    Find,
    Neg,
    Check,
    Eval,
    Sum,
    Min,
    Max,
    Avg,
    Count,
    Java,
    True,
    False,

    // Brackets.
    LeftParen,
    RightParen,
    LeftBrace,
    RightBrace,
    LeftBracket,
    RightBracket,

    // Other marks.
    Comma,
    Semicolon,
    Colon,
    DoubleColon,
    Dot,
    Hash,
    At,
    Assign,
    Equal,
    Differ,
    Less,
    AtMost,
    Greater,
    AtLeast,
    Plus,
    Minus,
    Times,
    Divided,
    Remainder,
    Not,
    Ampersand,
    And,
    Bar,
    OrElse,
    Question,
}
