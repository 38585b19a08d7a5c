// Calls, aggregates and expressions at the front of lexemes.
ghost use Rattle.std.specs.Prelude.{◌≡◌, IfOk};
ghost use Rattle.vt_grammar.specs.Grammar.{token};
ghost use Rattle.vt_grammar.specs.Forms.{maybe, some_of, separated};
ghost use Rattle.vt_grammar.specs.Reading.{read as reading, first, starts};
ghost use Rattle.vt_grammar.specs.Gives.{Gives};
ghost use Rattle.vt_grammar.specs.declared.symbol.Symbol.TheVariants as symbol;
ghost use Rattle.vt_tokens.specs.Words.{identifier};
ghost use Rattle.vt_syntax.specs.Expressions.{expression_of};
ghost use Rattle.vt_syntax.specs.Terms.{code, column, closure, agg, aggregate_with};
ghost use Rattle.vt_syntax.specs.Inside.Factored.{arg, call, right};

use crate::terms::term;
use crate::{AggTree, ArgTree, CallTree, CodeTree, RightTree};
use std::alloc::Global;
use vt_base::{AggKind, List, NoMemory, Text};
use vt_grammar::{Lexeme, Member, Stop, Symbol, balanced, is_next, more, one};
use vt_text::{ExprTree, expr_tree};
use vt_tokens::identifier;

// ---- expressions

// The expression that lexemes spell, where they spell one.
#[tactic(auto, using(crate::proofs::ExpressionLemmas::tree_is))]
fn expression(alloc: Global, lexemes: &[Lexeme]) -> Result<Option<ExprTree>, NoMemory>
    ensures { IfOk result (λ expr. expr ≡ expression_of lexemes.now) }
{
    let expr = expr_tree(alloc, lexemes, false)?;
    Ok(expr)
}

/// A word and what stands in parentheses behind it, and the lexemes after it.
#[tactic(auto, unfolding(vt_grammar::specs::Reading::read))]
pub(crate) fn code(
    alloc: Global,
    lexemes: &[Lexeme],
    word: Symbol,
) -> Result<(CodeTree, &[Lexeme]), Stop>
    ensures { Gives (λ x. (x.0, x.1.now)) result (reading (code word) lexemes.now) }
{
    let (first, rest) = one(lexemes, word)?;
    let line = first.line;
    let (_, rest) = one(rest, Symbol::LeftParen)?;
    let (inner, rest) = balanced(alloc, rest)?;
    let (_, rest) = one(rest, Symbol::RightParen)?;
    let expr = expression(alloc, inner)?;
    Ok((CodeTree { line, expr }, rest))
}

// ---- arguments

// A name, where one is next.
#[tactic(auto, unfolding(vt_grammar::specs::Reading::read))]
fn maybe_name(lexemes: &[Lexeme]) -> Result<(Option<Text>, &[Lexeme]), Stop>
    ensures { Gives (λ x. (x.0, x.1.now)) result (reading (maybe identifier) lexemes.now) }
{
    if is_next(lexemes, Symbol::Identifier) {
        let (name, rest) = identifier(lexemes)?;
        Ok((Some(name), rest))
    } else {
        Ok((None, lexemes))
    }
}

#[tactic(auto, unfolding(vt_grammar::specs::Reading::read))]
fn column(lexemes: &[Lexeme]) -> Result<(ArgTree, &[Lexeme]), Stop>
    ensures { Gives (λ x. (x.0, x.1.now)) result (reading column lexemes.now) }
{
    let (_, rest) = one(lexemes, Symbol::Hash)?;
    let (_, rest) = maybe_name(rest)?;
    Ok((ArgTree::Column, rest))
}

#[tactic(auto, unfolding(vt_grammar::specs::Reading::read))]
fn arg(lexemes: &[Lexeme]) -> Result<(ArgTree, &[Lexeme]), Stop>
    ensures { Gives (λ x. (x.0, x.1.now)) result (reading arg lexemes.now) }
{
    if is_next(lexemes, Symbol::Hash) {
        column(lexemes)
    } else {
        let (term, rest) = term(lexemes)?;
        Ok((ArgTree::Term(term), rest))
    }
}

// Whether an argument is next.
fn is_arg(lexemes: &[Lexeme]) -> bool
    ensures { result ≡ starts (first arg) lexemes.now }
{
    match lexemes.first() {
        Some(lexeme) => matches!(
            lexeme.symbol,
            Symbol::Identifier
                | Symbol::Blank
                | Symbol::Minus
                | Symbol::Number
                | Symbol::Quoted
                | Symbol::True
                | Symbol::False
                | Symbol::Hash
        ),
        None => false,
    }
}

// An argument behind a comma.
struct FurtherArg;

impl Member for FurtherArg {
    ghost use Rattle.std.specs.Prelude.{refl};
    ghost use Rattle.vt_grammar.specs.Grammar.{token};
    ghost use Rattle.vt_grammar.specs.Forms.{after};
    ghost use Rattle.vt_grammar.specs.declared.symbol.Symbol.TheVariants as symbol;
    ghost use Rattle.vt_syntax.specs.Inside.Factored.{arg};

    type Value = ArgTree;

    ghost grammar = { after (token symbol.Comma) arg };

    ghost decided = { refl };

    fn is_next(lexemes: &[Lexeme]) -> bool {
        is_next(lexemes, Symbol::Comma)
    }

    #[tactic(auto, unfolding(vt_grammar::specs::Reading::read))]
    fn read(_alloc: Global, lexemes: &[Lexeme]) -> Result<(ArgTree, &[Lexeme]), Stop> {
        let (_, rest) = one(lexemes, Symbol::Comma)?;
        arg(rest)
    }
}

#[tactic(auto, unfolding(vt_grammar::specs::Reading::read))]
fn args(alloc: Global, lexemes: &[Lexeme]) -> Result<(List<ArgTree>, &[Lexeme]), Stop>
    ensures { Gives (λ x. (x.0, x.1.now)) result
        (reading (some_of (separated (token symbol.Comma) arg)) lexemes.now) }
{
    let mut args = List::new(alloc);
    if is_arg(lexemes) {
        let (first, rest) = arg(lexemes)?;
        args.add(first)?;
        more::<FurtherArg>(alloc, args, rest)
    } else {
        Ok((args, lexemes))
    }
}

// ---- calls

// The line of a `+` or `*`, where one is next.
#[tactic(auto, unfolding(vt_grammar::specs::Reading::read))]
fn closure(lexemes: &[Lexeme]) -> Result<(Option<u32>, &[Lexeme]), Stop>
    ensures { Gives (λ x. (x.0, x.1.now)) result (reading closure lexemes.now) }
{
    if is_next(lexemes, Symbol::Plus) {
        let (mark, rest) = one(lexemes, Symbol::Plus)?;
        Ok((Some(mark.line), rest))
    } else if is_next(lexemes, Symbol::Times) {
        let (mark, rest) = one(lexemes, Symbol::Times)?;
        Ok((Some(mark.line), rest))
    } else {
        Ok((None, lexemes))
    }
}

/// The call at the front, and the lexemes after it.
#[tactic(auto, unfolding(vt_grammar::specs::Reading::read))]
pub(crate) fn call(alloc: Global, lexemes: &[Lexeme]) -> Result<(CallTree, &[Lexeme]), Stop>
    ensures { Gives (λ x. (x.0, x.1.now)) result (reading call lexemes.now) }
{
    let (pattern, rest) = identifier(lexemes)?;
    let (closure, rest) = closure(rest)?;
    let (_, rest) = one(rest, Symbol::LeftParen)?;
    let (args, rest) = args(alloc, rest)?;
    let (_, rest) = one(rest, Symbol::RightParen)?;
    Ok((
        CallTree {
            pattern,
            closure,
            args,
        },
        rest,
    ))
}

// ---- what stands to the right of `==`

#[tactic(auto, unfolding(vt_grammar::specs::Reading::read))]
fn agg(lexemes: &[Lexeme]) -> Result<(AggTree, &[Lexeme]), Stop>
    ensures { Gives (λ x. (x.0, x.1.now)) result (reading agg lexemes.now) }
{
    if is_next(lexemes, Symbol::Sum) {
        let (_, rest) = one(lexemes, Symbol::Sum)?;
        Ok((AggTree::Of(AggKind::Sum), rest))
    } else if is_next(lexemes, Symbol::Min) {
        let (_, rest) = one(lexemes, Symbol::Min)?;
        Ok((AggTree::Of(AggKind::Min), rest))
    } else if is_next(lexemes, Symbol::Max) {
        let (_, rest) = one(lexemes, Symbol::Max)?;
        Ok((AggTree::Of(AggKind::Max), rest))
    } else if is_next(lexemes, Symbol::Avg) {
        let (word, rest) = one(lexemes, Symbol::Avg)?;
        Ok((AggTree::Avg(word.line), rest))
    } else {
        let (word, rest) = one(lexemes, Symbol::Count)?;
        Ok((AggTree::Count(word.line), rest))
    }
}

// Whether an aggregate is next.
fn is_agg(lexemes: &[Lexeme]) -> bool
    ensures { result ≡ starts (first agg) lexemes.now }
{
    is_next(lexemes, Symbol::Sum)
        || is_next(lexemes, Symbol::Min)
        || is_next(lexemes, Symbol::Max)
        || is_next(lexemes, Symbol::Avg)
        || is_next(lexemes, Symbol::Count)
}

#[tactic(auto, unfolding(vt_grammar::specs::Reading::read))]
fn aggregate(alloc: Global, lexemes: &[Lexeme]) -> Result<(RightTree, &[Lexeme]), Stop>
    ensures { Gives (λ x. (x.0, x.1.now)) result (reading (aggregate_with call) lexemes.now) }
{
    let (agg, rest) = agg(lexemes)?;
    let (_, rest) = one(rest, Symbol::Find)?;
    let (call, rest) = call(alloc, rest)?;
    Ok((RightTree::Aggregate(agg, call), rest))
}

/// What stands to the right of `==`, and the lexemes after it.
#[tactic(auto, unfolding(vt_grammar::specs::Reading::read))]
pub(crate) fn right(alloc: Global, lexemes: &[Lexeme]) -> Result<(RightTree, &[Lexeme]), Stop>
    ensures { Gives (λ x. (x.0, x.1.now)) result (reading right lexemes.now) }
{
    if is_next(lexemes, Symbol::Eval) {
        let (code, rest) = code(alloc, lexemes, Symbol::Eval)?;
        Ok((RightTree::Eval(code), rest))
    } else if is_agg(lexemes) {
        aggregate(alloc, lexemes)
    } else {
        let (term, rest) = term(lexemes)?;
        Ok((RightTree::Term(term), rest))
    }
}
