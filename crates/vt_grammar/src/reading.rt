// What every reader is made of: looks at the next lexeme, and steps over it.
ghost use Rattle.std.specs.Prelude.{◌≡◌};
ghost use Rattle.vt_grammar.specs.Symbols.{same};
ghost use Rattle.vt_grammar.specs.Reading.{starts, one_of};
ghost use Rattle.vt_grammar.specs.Gives.{Gives};

use crate::{Lexeme, Stop, Symbol};

/// Whether the next lexeme is of this symbol.
pub fn is_next(lexemes: &[Lexeme], symbol: Symbol) -> bool
    ensures { result ≡ starts (same symbol) lexemes.now }
{
    match lexemes.first() {
        Some(lexeme) => symbol == lexeme.symbol,
        None => false,
    }
}

/// The next lexeme and those after it, where it is of this symbol.
pub fn one(lexemes: &[Lexeme], symbol: Symbol) -> Result<(&Lexeme, &[Lexeme]), Stop>
    ensures { Gives (λ x. (x.0.now, x.1.now)) result (one_of symbol lexemes.now) }
{
    match lexemes.split_first() {
        Some((lexeme, rest)) if symbol == lexeme.symbol => Ok((lexeme, rest)),
        _ => Err(Stop::Fault(lexemes.len())),
    }
}
