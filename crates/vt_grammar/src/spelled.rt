// A type of values that lexemes spell, and the end of its reading.
ghost use Rattle.std.specs.Prelude.{◌≡◌, ◌≢◌, true, ℕ, Ok, Err, IfOk};
ghost use Rattle.vt_grammar.specs.Grammar.{Grammar, Spells};
ghost use Rattle.vt_grammar.specs.Fault.{IsFault};
ghost use Rattle.vt_grammar.specs.SameAs.{SameAs};
ghost use Rattle.vt_grammar.specs.Reading.{is_decided, read as reading};
ghost use Rattle.vt_grammar.specs.Gives.{Gives};
ghost use Rattle.vt_grammar.specs.declared.stop.Stop.TheVariants.{Fault, NoMemory};

use crate::{Lexeme, Stop};

/// A type whose values lexemes spell, by a grammar where the next lexeme decides. A
/// contract can't speak of each grammar, but it can of each type with one.
pub trait Spelled {
    /// The grammar of its values.
    ghost grammar: { Grammar Self };

    /// The same with common fronts taken once, as it is read.
    ghost factored: { Grammar Self };

    /// The next lexeme decides, in each part of that one.
    ghost decided: { is_decided factored ≡ true };

    /// The two are the same.
    ghost same: { SameAs grammar factored };
}

/// What the lexemes spell, from what was read at their front.
pub fn whole<T: Spelled + Drop>(
    lexemes: &[Lexeme],
    read: Result<(T, &[Lexeme]), Stop>,
) -> Result<T, Stop>
    requires { Gives (λ x. (x.0, x.1.now)) read (reading T.factored lexemes.now) }

    // What is accepted is what all of the lexemes spell.
    ensures accepted { IfOk result (λ x. Spells T.grammar lexemes.now x) }

    // What they spell is answered, unless memory runs out.
    ensures only { (x : T) → Spells T.grammar lexemes.now x → result ≢ Err NoMemory → result ≡ Ok x }

    // What is refused is their fault. Want of memory may stand for any answer.
    ensures refused { (n : ℕ) → result ≡ Err (Fault n) → IsFault T.grammar lexemes.now n }
{
    match read {
        Ok((value, rest)) => {
            if rest.is_empty() {
                Ok(value)
            } else {
                Err(Stop::Fault(rest.len()))
            }
        }
        Err(stop) => Err(stop),
    }
}
