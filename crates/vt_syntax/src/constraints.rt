// Constraints at the front of lexemes.
ghost use Rattle.std.specs.Prelude.{◌≡◌};
ghost use Rattle.vt_grammar.specs.Grammar.{star, token};
ghost use Rattle.vt_grammar.specs.Forms.{applied, separated};
ghost use Rattle.vt_grammar.specs.Reading.{read as reading, first, starts};
ghost use Rattle.vt_grammar.specs.Gives.{Gives};
ghost use Rattle.vt_grammar.specs.declared.symbol.Symbol.TheVariants as symbol;
ghost use Rattle.vt_tokens.specs.Words.{feature_name};
ghost use Rattle.vt_syntax.specs.Rules.{enclosed_with, find_with, check};
ghost use Rattle.vt_syntax.specs.Inside.Factored.{term, call, equal_rest, differ_rest, comparison, type_rest, path_rest, compared_rest, constraint_rest, named_constraint, plain_constraint, java_constraint, constraint, line, body};

use crate::calls::{call, code, right};
use crate::terms::{java_type, name_rest, plain, term};
use crate::{BodyTree, ConstraintTree, TermTree, TypeTree};
use std::alloc::Global;
use vt_base::{List, Text};
use vt_grammar::{Lexeme, Member, Stop, Symbol, is_next, more, one};
use vt_tokens::{feature_name, identifier};

// ---- what follows a term

#[tactic(auto, unfolding(vt_grammar::specs::Reading::read))]
fn equal_rest(
    alloc: Global,
    lexemes: &[Lexeme],
    left: TermTree,
) -> Result<(ConstraintTree, &[Lexeme]), Stop>
    ensures { Gives (λ x. (x.0, x.1.now)) result (reading (applied left equal_rest) lexemes.now) }
{
    let (_, rest) = one(lexemes, Symbol::Equal)?;
    let (right, rest) = right(alloc, rest)?;
    Ok((ConstraintTree::Equal(left, right), rest))
}

#[tactic(auto, unfolding(vt_grammar::specs::Reading::read))]
fn differ_rest(lexemes: &[Lexeme], left: TermTree) -> Result<(ConstraintTree, &[Lexeme]), Stop>
    ensures { Gives (λ x. (x.0, x.1.now)) result (reading (applied left differ_rest) lexemes.now) }
{
    let (_, rest) = one(lexemes, Symbol::Differ)?;
    let (right, rest) = term(rest)?;
    Ok((ConstraintTree::Differ(left, right), rest))
}

// A comparison of a term with what follows it.
#[tactic(auto, unfolding(vt_grammar::specs::Reading::read))]
fn comparison(
    alloc: Global,
    lexemes: &[Lexeme],
    left: TermTree,
) -> Result<(ConstraintTree, &[Lexeme]), Stop>
    ensures { Gives (λ x. (x.0, x.1.now)) result (reading (applied left comparison) lexemes.now) }
{
    if is_next(lexemes, Symbol::Equal) {
        equal_rest(alloc, lexemes, left)
    } else {
        differ_rest(lexemes, left)
    }
}

// ---- what follows a name

// A term in parentheses.
#[tactic(auto, unfolding(vt_grammar::specs::Reading::read))]
fn enclosed(lexemes: &[Lexeme]) -> Result<(TermTree, &[Lexeme]), Stop>
    ensures { Gives (λ x. (x.0, x.1.now)) result (reading (enclosed_with term) lexemes.now) }
{
    let (_, rest) = one(lexemes, Symbol::LeftParen)?;
    let (term, rest) = term(rest)?;
    let (_, rest) = one(rest, Symbol::RightParen)?;
    Ok((term, rest))
}

#[tactic(auto, unfolding(vt_grammar::specs::Reading::read))]
fn type_rest(lexemes: &[Lexeme], name: Text) -> Result<(ConstraintTree, &[Lexeme]), Stop>
    ensures { Gives (λ x. (x.0, x.1.now)) result (reading (applied name type_rest) lexemes.now) }
{
    let (term, rest) = enclosed(lexemes)?;
    let ty = TypeTree::Named(name);
    Ok((ConstraintTree::Type { ty, term }, rest))
}

// A feature behind a dot.
struct FurtherFeature;

impl Member for FurtherFeature {
    ghost use Rattle.std.specs.Prelude.{refl};
    ghost use Rattle.vt_grammar.specs.Grammar.{token};
    ghost use Rattle.vt_grammar.specs.Forms.{after};
    ghost use Rattle.vt_grammar.specs.declared.symbol.Symbol.TheVariants as symbol;
    ghost use Rattle.vt_tokens.specs.Words.{feature_name};

    type Value = Text;

    ghost grammar = { after (token symbol.Dot) feature_name };

    ghost decided = { refl };

    fn is_next(lexemes: &[Lexeme]) -> bool {
        is_next(lexemes, Symbol::Dot)
    }

    #[tactic(auto, unfolding(vt_grammar::specs::Reading::read))]
    fn read(_alloc: Global, lexemes: &[Lexeme]) -> Result<(Text, &[Lexeme]), Stop> {
        let (_, rest) = one(lexemes, Symbol::Dot)?;
        feature_name(rest)
    }
}

// Features with dots between them.
#[tactic(auto, unfolding(vt_grammar::specs::Reading::read))]
fn features(alloc: Global, lexemes: &[Lexeme]) -> Result<(List<Text>, &[Lexeme]), Stop>
    ensures { Gives (λ x. (x.0, x.1.now)) result
        (reading (separated (token symbol.Dot) feature_name) lexemes.now) }
{
    let mut features = List::new(alloc);
    let (first, rest) = feature_name(lexemes)?;
    features.add(first)?;
    more::<FurtherFeature>(alloc, features, rest)
}

#[tactic(auto, unfolding(vt_grammar::specs::Reading::read))]
fn path_rest(
    alloc: Global,
    lexemes: &[Lexeme],
    class: Text,
) -> Result<(ConstraintTree, &[Lexeme]), Stop>
    ensures { Gives (λ x. (x.0, x.1.now)) result (reading (applied class path_rest) lexemes.now) }
{
    let (_, rest) = one(lexemes, Symbol::Dot)?;
    let (features, rest) = features(alloc, rest)?;
    let (_, rest) = one(rest, Symbol::LeftParen)?;
    let (from, rest) = term(rest)?;
    let (_, rest) = one(rest, Symbol::Comma)?;
    let (to, rest) = term(rest)?;
    let (_, rest) = one(rest, Symbol::RightParen)?;
    let path = ConstraintTree::Path {
        class,
        features,
        from,
        to,
    };
    Ok((path, rest))
}

// A comparison of the term that a name begins.
#[tactic(auto, using(crate::proofs::ReaderLemmas::compared_read, crate::proofs::ReaderLemmas::compared_fails))]
fn compared_rest(
    alloc: Global,
    lexemes: &[Lexeme],
    name: Text,
) -> Result<(ConstraintTree, &[Lexeme]), Stop>
    ensures { Gives (λ x. (x.0, x.1.now)) result (reading (applied name compared_rest) lexemes.now) }
{
    let (left, rest) = name_rest(lexemes, name)?;
    let (constraint, rest) = comparison(alloc, rest, left)?;
    Ok((constraint, rest))
}

#[tactic(auto, unfolding(vt_grammar::specs::Reading::read))]
fn constraint_rest(
    alloc: Global,
    lexemes: &[Lexeme],
    name: Text,
) -> Result<(ConstraintTree, &[Lexeme]), Stop>
    ensures { Gives (λ x. (x.0, x.1.now)) result (reading (applied name constraint_rest) lexemes.now) }
{
    if is_next(lexemes, Symbol::LeftParen) {
        type_rest(lexemes, name)
    } else if is_next(lexemes, Symbol::Dot) {
        path_rest(alloc, lexemes, name)
    } else {
        compared_rest(alloc, lexemes, name)
    }
}

// ---- constraints

#[tactic(auto, using(crate::proofs::ReaderLemmas::constraint_read, crate::proofs::ReaderLemmas::constraint_fails))]
fn named_constraint(alloc: Global, lexemes: &[Lexeme]) -> Result<(ConstraintTree, &[Lexeme]), Stop>
    ensures { Gives (λ x. (x.0, x.1.now)) result (reading named_constraint lexemes.now) }
{
    let (name, rest) = identifier(lexemes)?;
    let (constraint, rest) = constraint_rest(alloc, rest, name)?;
    Ok((constraint, rest))
}

#[tactic(auto, using(crate::proofs::ReaderLemmas::plain_read, crate::proofs::ReaderLemmas::plain_fails))]
fn plain_constraint(alloc: Global, lexemes: &[Lexeme]) -> Result<(ConstraintTree, &[Lexeme]), Stop>
    ensures { Gives (λ x. (x.0, x.1.now)) result (reading plain_constraint lexemes.now) }
{
    let (left, rest) = plain(lexemes)?;
    let (constraint, rest) = comparison(alloc, rest, left)?;
    Ok((constraint, rest))
}

#[tactic(auto, unfolding(vt_grammar::specs::Reading::read))]
fn java_constraint(alloc: Global, lexemes: &[Lexeme]) -> Result<(ConstraintTree, &[Lexeme]), Stop>
    ensures { Gives (λ x. (x.0, x.1.now)) result (reading java_constraint lexemes.now) }
{
    let (ty, rest) = java_type(alloc, lexemes)?;
    let (term, rest) = enclosed(rest)?;
    Ok((ConstraintTree::Type { ty, term }, rest))
}

// A call that must have a match, or behind `neg` none.
#[tactic(auto, unfolding(vt_grammar::specs::Reading::read))]
fn find(alloc: Global, lexemes: &[Lexeme]) -> Result<(ConstraintTree, &[Lexeme]), Stop>
    ensures { Gives (λ x. (x.0, x.1.now)) result (reading (find_with call) lexemes.now) }
{
    if is_next(lexemes, Symbol::Neg) {
        let (_, rest) = one(lexemes, Symbol::Neg)?;
        let (_, rest) = one(rest, Symbol::Find)?;
        let (call, rest) = call(alloc, rest)?;
        Ok((ConstraintTree::Neg(call), rest))
    } else {
        let (_, rest) = one(lexemes, Symbol::Find)?;
        let (call, rest) = call(alloc, rest)?;
        Ok((ConstraintTree::Find(call), rest))
    }
}

#[tactic(auto, unfolding(vt_grammar::specs::Reading::read))]
fn check(alloc: Global, lexemes: &[Lexeme]) -> Result<(ConstraintTree, &[Lexeme]), Stop>
    ensures { Gives (λ x. (x.0, x.1.now)) result (reading check lexemes.now) }
{
    let (code, rest) = code(alloc, lexemes, Symbol::Check)?;
    Ok((ConstraintTree::Check(code), rest))
}

#[tactic(auto, unfolding(vt_grammar::specs::Reading::read))]
fn constraint(alloc: Global, lexemes: &[Lexeme]) -> Result<(ConstraintTree, &[Lexeme]), Stop>
    ensures { Gives (λ x. (x.0, x.1.now)) result (reading constraint lexemes.now) }
{
    if is_next(lexemes, Symbol::Neg) || is_next(lexemes, Symbol::Find) {
        find(alloc, lexemes)
    } else if is_next(lexemes, Symbol::Check) {
        check(alloc, lexemes)
    } else if is_next(lexemes, Symbol::Java) {
        java_constraint(alloc, lexemes)
    } else if is_next(lexemes, Symbol::Identifier) {
        named_constraint(alloc, lexemes)
    } else {
        plain_constraint(alloc, lexemes)
    }
}

// ---- bodies

// Whether a constraint is next.
fn is_constraint(lexemes: &[Lexeme]) -> bool
    ensures { result ≡ starts (first constraint) lexemes.now }
{
    match lexemes.first() {
        Some(lexeme) => matches!(
            lexeme.symbol,
            Symbol::Neg
                | Symbol::Find
                | Symbol::Check
                | Symbol::Java
                | Symbol::Identifier
                | Symbol::Blank
                | Symbol::Minus
                | Symbol::Number
                | Symbol::Quoted
                | Symbol::True
                | Symbol::False
        ),
        None => false,
    }
}

// A constraint and its semicolon.
struct Line;

impl Member for Line {
    ghost use Rattle.std.specs.Prelude.{refl};
    ghost use Rattle.vt_syntax.specs.Inside.Factored.{line};

    type Value = ConstraintTree;

    ghost grammar = { line };

    ghost decided = { refl };

    fn is_next(lexemes: &[Lexeme]) -> bool {
        is_constraint(lexemes)
    }

    #[tactic(auto, unfolding(vt_grammar::specs::Reading::read))]
    fn read(alloc: Global, lexemes: &[Lexeme]) -> Result<(ConstraintTree, &[Lexeme]), Stop> {
        let (constraint, rest) = constraint(alloc, lexemes)?;
        let (_, rest) = one(rest, Symbol::Semicolon)?;
        Ok((constraint, rest))
    }
}

#[tactic(auto, using(crate::proofs::ReaderLemmas::lines_read))]
fn lines(alloc: Global, lexemes: &[Lexeme]) -> Result<(List<ConstraintTree>, &[Lexeme]), Stop>
    ensures { Gives (λ x. (x.0, x.1.now)) result (reading (star line) lexemes.now) }
{
    more::<Line>(alloc, List::new(alloc), lexemes)
}

/// The body at the front, and the lexemes after it.
#[tactic(auto, unfolding(vt_grammar::specs::Reading::read))]
pub(crate) fn body(alloc: Global, lexemes: &[Lexeme]) -> Result<(BodyTree, &[Lexeme]), Stop>
    ensures { Gives (λ x. (x.0, x.1.now)) result (reading body lexemes.now) }
{
    let (_, rest) = one(lexemes, Symbol::LeftBrace)?;
    let (constraints, rest) = lines(alloc, rest)?;
    let (_, rest) = one(rest, Symbol::RightBrace)?;
    Ok((BodyTree { constraints }, rest))
}
