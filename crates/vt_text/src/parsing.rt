// From lexemes to an expression and its slots.
ghost use Rattle.std.specs.Prelude.{◌≡◌, IfOk, IfErr, MatchOption};
ghost use Rattle.vt_grammar.specs.Grammar.{Spells};
ghost use Rattle.vt_tokens.specs.Spelling.{AreAmong};
ghost use Rattle.vt_tokens.specs.Lexemes.{lexemes_of};
ghost use Rattle.vt_text.specs.ExpressionRules.{expression};
ghost use Rattle.vt_text.specs.Parsing.{IsParsed, IsNoExpression, IsFaultOf};

use crate::meaning::resolve;
use crate::reader::front;
use crate::{Expr, ExprTree, Slot};
use std::alloc::{AllocError, AllocFailed, Global};
use thiserror::Error;
use vt_base::{List, Names, NoMemory};
use vt_grammar::{Lexeme, Stop};
use vt_tokens::{Token, lexemes_among};

/// An expression with its slots: the number of a slot is its place among them.
#[derive(Debug, Drop)]
pub struct Parsed {
    pub expr: Expr,
    /// One for each variable, and for each attribute of one, in the order in which they first stand.
    pub slots: List<Slot>,
}

/// Why lexemes aren't an expression over slots.
#[derive(Clone, Copy, Debug, PartialEq, Eq, Drop, Error)]
pub enum ExprFault {
    /// They are no expression, as `1 +`, `a < b < c`, or 65 parentheses in one another.
    #[error("this is no expression")]
    NotExpr,
    /// They are one that names a literal which isn't there, as `Signal::NONE`.
    #[error("the expression names a literal that isn't there")]
    UnknownLiteral,
    /// Memory ran out, whatever they are.
    #[error("memory ran out")]
    NoMemory,
}

impl From<AllocError> for ExprFault {
    ghost use Rattle.vt_text.specs.declared.parsing.ExprFault.TheVariants as fault;

    ghost from_gives = { λ _ e. e ≡ fault.NoMemory };

    fn from(_: AllocError) -> ExprFault {
        ExprFault::NoMemory
    }
}

impl<T: Drop> From<AllocFailed<T>> for ExprFault {
    ghost use Rattle.vt_text.specs.declared.parsing.ExprFault.TheVariants as fault;

    ghost from_gives = { λ _ e. e ≡ fault.NoMemory };

    fn from(_: AllocFailed<T>) -> ExprFault {
        ExprFault::NoMemory
    }
}

impl From<NoMemory> for ExprFault {
    ghost use Rattle.vt_text.specs.declared.parsing.ExprFault.TheVariants as fault;

    ghost from_gives = { λ _ e. e ≡ fault.NoMemory };

    fn from(_: NoMemory) -> ExprFault {
        ExprFault::NoMemory
    }
}

/// The expression that lexemes spell, as it is written. `None` where they spell none.
pub fn expr_tree(
    alloc: Global,
    lexemes: &[Lexeme],
    attributes: bool,
) -> Result<Option<ExprTree>, NoMemory>
    ensures { IfOk result (λ tree. MatchOption tree (IsNoExpression attributes lexemes.now)
        (λ t. Spells (expression attributes) lexemes.now t)) }
{
    match front(alloc, lexemes, attributes) {
        Ok((tree, rest)) => {
            if rest.is_empty() {
                Ok(Some(tree))
            } else {
                Ok(None)
            }
        }
        Err(Stop::Fault(_)) => Ok(None),
        Err(Stop::NoMemory) => Err(NoMemory),
    }
}

/// The expression that lexemes spell, over its slots.
pub fn read_expr<N: Names>(
    alloc: Global,
    lexemes: &[Lexeme],
    attributes: bool,
    names: &N,
) -> Result<Parsed, ExprFault>
    // What is accepted is what the lexemes spell.
    ensures accepted { IfOk result (λ parsed. IsParsed attributes (N.enums names.now) lexemes.now parsed) }

    // The fault is theirs. Want of memory may stand for any answer.
    ensures refused { IfErr result (λ fault. IsFaultOf attributes (N.enums names.now) lexemes.now fault) }
{
    match expr_tree(alloc, lexemes, attributes)? {
        Some(tree) => resolve(alloc, &tree, names),
        None => Err(ExprFault::NotExpr),
    }
}

/// The expression that tokens of a text spell, over its slots. In rules an attribute of a variable
/// is a slot too.
#[tactic(auto, using(crate::proofs::MeantLemmas::parsed_of_same, crate::proofs::MeantLemmas::fault_of_same))]
pub fn parse_expr<N: Names>(
    alloc: Global,
    text: &str,
    tokens: &[Token],
    attributes: bool,
    names: &N,
) -> Result<Parsed, ExprFault>
    requires { AreAmong text.now tokens.now }

    // What is accepted is what the tokens spell.
    ensures accepted { IfOk result (λ parsed.
        IsParsed attributes (N.enums names.now) (lexemes_of text.now tokens.now) parsed) }

    // The fault is theirs. Want of memory may stand for any answer.
    ensures refused { IfErr result (λ fault.
        IsFaultOf attributes (N.enums names.now) (lexemes_of text.now tokens.now) fault) }
{
    let lexemes = lexemes_among(alloc, text, tokens)?;
    let parsed = read_expr(alloc, lexemes.as_slice(), attributes, names)?;
    Ok(parsed)
}
