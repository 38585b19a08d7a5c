// Words, numbers and strings at the front of lexemes.
ghost use Rattle.std.specs.Prelude.{◌≡◌, ◌+◌, ◌*◌, ◌-◌, ◌≤◌, pos};
ghost use Rattle.vt_grammar.specs.Reading.{read as reading, first};
ghost use Rattle.vt_grammar.specs.Gives.{Gives};
ghost use Rattle.vt_tokens.specs.Inside.Digits.{digits_on};
ghost use Rattle.vt_tokens.specs.Words.{identifier, any_word, feature_name, limited, int_of, number, string};

use vt_base::Text;
use vt_grammar::{Lexeme, Stop, Symbol, one};

/// The greatest number that a token writes.
const MOST: u128 = 9_223_372_036_854_775_807;

/// The name at the front, and the lexemes after it.
#[tactic(auto, unfolding(vt_grammar::specs::Reading::read))]
pub fn identifier(lexemes: &[Lexeme]) -> Result<(Text, &[Lexeme]), Stop>
    ensures { Gives (λ x. (x.0, x.1.now)) result (reading identifier lexemes.now) }
{
    let (lexeme, rest) = one(lexemes, Symbol::Identifier)?;
    Ok((lexeme.text.share(), rest))
}

// Whether a symbol is that of an identifier or of a keyword.
fn is_word(symbol: Symbol) -> bool
    ensures { result ≡ first any_word symbol }
{
    matches!(
        symbol,
        Symbol::Identifier
            | Symbol::Package
            | Symbol::Import
            | Symbol::Pattern
            | Symbol::Private
            | Symbol::Or
            | Symbol::Find
            | Symbol::Neg
            | Symbol::Check
            | Symbol::Eval
            | Symbol::Sum
            | Symbol::Min
            | Symbol::Max
            | Symbol::Avg
            | Symbol::Count
            | Symbol::Java
            | Symbol::True
            | Symbol::False
    )
}

/// The name of a feature or of a literal, which may be a keyword, and the lexemes after it.
pub fn feature_name(lexemes: &[Lexeme]) -> Result<(Text, &[Lexeme]), Stop>
    ensures { Gives (λ x. (x.0, x.1.now)) result (reading feature_name lexemes.now) }
{
    match lexemes.split_first() {
        Some((lexeme, rest)) if is_word(lexeme.symbol) => Ok((lexeme.text.share(), rest)),
        _ => Err(Stop::Fault(lexemes.len())),
    }
}

// A number with one more digit, or the greatest one where that is more.
#[tactic(auto, unfolding(crate::specs::Words::limited))]
fn with_digit(n: u64, b: u8) -> u64
    requires { n ≤ 9223372036854775807 }
    ensures value { result ≡ limited (n * 10 + (b - 48)) }
    ensures bounded { result ≤ 9223372036854775807 }
{
    let next = n as u128 * 10 + b.saturating_sub(b'0') as u128;
    if next <= MOST {
        next as u64
    } else {
        MOST as u64
    }
}

// The number that digits write, cut down on the way.
fn digits_on(digits: &[u8]) -> u64
    ensures value { result ≡ digits_on 0 digits.now }
    ensures bounded { result ≤ 9223372036854775807 }
{
    let mut n = 0u64;
    for b in digits {
        n = with_digit(n, *b);
    }
    n
}

// The number that digits write. What a token writes is never cut down.
#[tactic(auto, using(crate::proofs::DigitLemmas::digits_are))]
fn int_of(digits: &str) -> i64
    ensures { result ≡ pos (int_of digits.now) }
{
    digits_on(digits.as_bytes()) as i64
}

/// The number at the front, and the lexemes after it.
#[tactic(auto, unfolding(vt_grammar::specs::Reading::read))]
pub fn number(lexemes: &[Lexeme]) -> Result<(i64, &[Lexeme]), Stop>
    ensures { Gives (λ x. (x.0, x.1.now)) result (reading number lexemes.now) }
{
    let (lexeme, rest) = one(lexemes, Symbol::Number)?;
    Ok((int_of(lexeme.text.as_str()), rest))
}

/// The text of the string at the front, and the lexemes after it.
#[tactic(auto, unfolding(vt_grammar::specs::Reading::read))]
pub fn string(lexemes: &[Lexeme]) -> Result<(Text, &[Lexeme]), Stop>
    ensures { Gives (λ x. (x.0, x.1.now)) result (reading string lexemes.now) }
{
    let (lexeme, rest) = one(lexemes, Symbol::Quoted)?;
    Ok((lexeme.text.share(), rest))
}
