// The members of a repetition, and the one loop that reads them.
ghost use Rattle.std.specs.Prelude.{◌≡◌, true};
ghost use Rattle.vt_grammar.specs.Grammar.{Grammar, star};
ghost use Rattle.vt_grammar.specs.Reading.{is_decided, starts, first, read};
ghost use Rattle.vt_grammar.specs.Gives.{Gives, ahead};

use crate::{Lexeme, Stop};
use std::alloc::Global;
use vt_base::List;

/// What a repetition repeats: how one of it is known, and how it is read. A type without values
/// stands for it.
pub trait Member {
    type Value: Drop;

    /// The grammar of one.
    ghost grammar: { Grammar Self.Value };

    /// The next lexeme decides, in each part of the repetition.
    ghost decided: { is_decided (star grammar) ≡ true };

    /// Whether one is next.
    fn is_next(lexemes: &[Lexeme]) -> bool
        ensures { result ≡ starts (first grammar) lexemes.now };

    /// The next one, and the lexemes after it.
    fn read(alloc: Global, lexemes: &[Lexeme]) -> Result<(Self::Value, &[Lexeme]), Stop>
        ensures { Gives (λ x. (x.0, x.1.now)) result (read grammar lexemes.now) };
}

/// The members at the front, added to those before them, and the lexemes after them.
pub fn more<M: Member>(
    alloc: Global,
    before: List<M::Value>,
    lexemes: &[Lexeme],
) -> Result<(List<M::Value>, &[Lexeme]), Stop>
    ensures { Gives (λ x. (x.0, x.1.now)) result (ahead before (read (star M.grammar) lexemes.now)) }
{
    let mut all = before;
    let mut rest = lexemes;
    'each: while M::is_next(rest) {
        let (member, next) = M::read(alloc, rest)?;
        all.add(member)?;
        rest = next;
    }
    Ok((all, rest))
}
