// The operators at the front of lexemes.
ghost use Rattle.std.specs.Prelude.{◌≡◌};
ghost use Rattle.vt_grammar.specs.Reading.{read as reading, first, starts};
ghost use Rattle.vt_grammar.specs.Gives.{Gives};
ghost use Rattle.vt_text.specs.ExpressionRules.{sign, comparison_sign, product_sign};
ghost use Rattle.vt_text.specs.Inside.Levels.{sign_at};

use crate::Operator;
use crate::reader::Level;
use vt_grammar::{Lexeme, Stop, Symbol, is_next, one};

// The operator that a symbol stands for, where this one is next.
#[tactic(auto, unfolding(vt_grammar::specs::Reading::read))]
fn sign(
    lexemes: &[Lexeme],
    symbol: Symbol,
    operator: Operator,
) -> Result<(Operator, &[Lexeme]), Stop>
    ensures { Gives (λ x. (x.0, x.1.now)) result (reading (sign symbol operator) lexemes.now) }
{
    let (_, rest) = one(lexemes, symbol)?;
    Ok((operator, rest))
}

/// Whether a comparison is next.
pub(crate) fn compares(lexemes: &[Lexeme]) -> bool
    ensures { result ≡ starts (first comparison_sign) lexemes.now }
{
    match lexemes.first() {
        Some(lexeme) => matches!(
            lexeme.symbol,
            Symbol::Equal
                | Symbol::Differ
                | Symbol::Less
                | Symbol::AtMost
                | Symbol::Greater
                | Symbol::AtLeast
        ),
        None => false,
    }
}

/// The comparison at the front, and the lexemes after it.
#[tactic(auto, unfolding(vt_grammar::specs::Reading::read))]
pub(crate) fn comparison_sign(lexemes: &[Lexeme]) -> Result<(Operator, &[Lexeme]), Stop>
    ensures { Gives (λ x. (x.0, x.1.now)) result (reading comparison_sign lexemes.now) }
{
    if is_next(lexemes, Symbol::Equal) {
        sign(lexemes, Symbol::Equal, Operator::Equal)
    } else if is_next(lexemes, Symbol::Differ) {
        sign(lexemes, Symbol::Differ, Operator::Differ)
    } else if is_next(lexemes, Symbol::Less) {
        sign(lexemes, Symbol::Less, Operator::Less)
    } else if is_next(lexemes, Symbol::AtMost) {
        sign(lexemes, Symbol::AtMost, Operator::AtMost)
    } else if is_next(lexemes, Symbol::Greater) {
        sign(lexemes, Symbol::Greater, Operator::Greater)
    } else {
        sign(lexemes, Symbol::AtLeast, Operator::AtLeast)
    }
}

// A `*`, `/` or `%` at the front, and the lexemes after it.
#[tactic(auto, unfolding(vt_grammar::specs::Reading::read))]
fn product_sign(lexemes: &[Lexeme]) -> Result<(Operator, &[Lexeme]), Stop>
    ensures { Gives (λ x. (x.0, x.1.now)) result (reading product_sign lexemes.now) }
{
    if is_next(lexemes, Symbol::Times) {
        sign(lexemes, Symbol::Times, Operator::Times)
    } else if is_next(lexemes, Symbol::Divided) {
        sign(lexemes, Symbol::Divided, Operator::Divided)
    } else {
        sign(lexemes, Symbol::Remainder, Operator::Remainder)
    }
}

/// Whether an operator of a level is next.
pub(crate) fn has_sign(lexemes: &[Lexeme], level: Level) -> bool
    ensures { result ≡ starts (first (sign_at level)) lexemes.now }
{
    match level {
        Level::Or => is_next(lexemes, Symbol::OrElse),
        Level::And => is_next(lexemes, Symbol::And),
        Level::Sum => is_next(lexemes, Symbol::Plus) || is_next(lexemes, Symbol::Minus),
        Level::Product => {
            is_next(lexemes, Symbol::Times)
                || is_next(lexemes, Symbol::Divided)
                || is_next(lexemes, Symbol::Remainder)
        }
    }
}

/// The operator of a level at the front, and the lexemes after it.
#[tactic(auto, unfolding(vt_grammar::specs::Reading::read))]
pub(crate) fn sign_at(lexemes: &[Lexeme], level: Level) -> Result<(Operator, &[Lexeme]), Stop>
    ensures { Gives (λ x. (x.0, x.1.now)) result (reading (sign_at level) lexemes.now) }
{
    match level {
        Level::Or => sign(lexemes, Symbol::OrElse, Operator::Or),
        Level::And => sign(lexemes, Symbol::And, Operator::And),
        Level::Sum => {
            if is_next(lexemes, Symbol::Plus) {
                sign(lexemes, Symbol::Plus, Operator::Plus)
            } else {
                sign(lexemes, Symbol::Minus, Operator::Minus)
            }
        }
        Level::Product => product_sign(lexemes),
    }
}
