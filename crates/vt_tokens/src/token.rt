// Tokens, and the fault of a text that has none at some place.
use std::alloc::{AllocError, AllocFailed};
use thiserror::Error;
use vt_base::NoMemory;

/// The five sorts of token.
#[derive(Clone, Copy, Debug, PartialEq, Eq)]
pub enum TokenKind {
    /// A letter or `_`, then letters, digits and `_`, but not `_` alone.
    Word,
    /// `_` alone.
    Blank,
    /// Digits, for a number up to 9223372036854775807.
    Number,
    /// A string in double quotes, on one line.
    Quoted,
    Mark,
}

/// A token and where it stands: its bytes are those of the text from `start` up to `end`, and
/// lines count from 1.
#[derive(Clone, Copy, Debug, PartialEq, Eq)]
pub struct Token {
    pub kind: TokenKind,
    pub start: u32,
    pub end: u32,
    pub line: u32,
}

/// Why a text has no list of tokens.
#[derive(Clone, Copy, Debug, PartialEq, Eq, Drop, Error)]
pub enum TokenFault {
    /// The first text that is neither a token nor between tokens begins on this line, as `1a`, `$`
    /// or a string without its last quote.
    #[error("line {line}: no token begins here")]
    Bad { line: u32 },
    /// Memory ran out, whatever the text is.
    #[error("memory ran out")]
    NoMemory,
}

impl From<AllocError> for TokenFault {
    ghost use Rattle.std.specs.Prelude.{◌≡◌};
    ghost use Rattle.vt_tokens.specs.declared.token.TokenFault.TheVariants.{NoMemory as WantOfMemory};

    ghost from_gives = { λ _ e. e ≡ WantOfMemory };

    fn from(_: AllocError) -> TokenFault {
        TokenFault::NoMemory
    }
}

impl<T: Drop> From<AllocFailed<T>> for TokenFault {
    ghost use Rattle.std.specs.Prelude.{◌≡◌};
    ghost use Rattle.vt_tokens.specs.declared.token.TokenFault.TheVariants.{NoMemory as WantOfMemory};

    ghost from_gives = { λ _ e. e ≡ WantOfMemory };

    fn from(_: AllocFailed<T>) -> TokenFault {
        TokenFault::NoMemory
    }
}

impl From<NoMemory> for TokenFault {
    ghost use Rattle.std.specs.Prelude.{◌≡◌};
    ghost use Rattle.vt_tokens.specs.declared.token.TokenFault.TheVariants.{NoMemory as WantOfMemory};

    ghost from_gives = { λ _ e. e ≡ WantOfMemory };

    fn from(_: NoMemory) -> TokenFault {
        TokenFault::NoMemory
    }
}
