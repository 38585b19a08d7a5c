// Lexemes as patterns.
ghost use Rattle.std.specs.Prelude.{◌≡◌};
ghost use Rattle.vt_grammar.specs.Grammar.{alt, star};
ghost use Rattle.vt_grammar.specs.Forms.{maybe, after, some_of, separated, applied};
ghost use Rattle.vt_grammar.specs.Reading.{read as reading};
ghost use Rattle.vt_grammar.specs.Gives.{Gives};
ghost use Rattle.vt_grammar.specs.Grammar.{token};
ghost use Rattle.vt_grammar.specs.declared.symbol.Symbol.TheVariants as symbol;
ghost use Rattle.vt_tokens.specs.Words.{identifier};
ghost use Rattle.vt_vql.specs.Rules.{term, param, shown};
ghost use Rattle.vt_vql.specs.Inside.Factored.{type_rest, feature_rest, constraint, line, body, pattern, file};

use crate::{ConstraintTree, FileTree, ParamTree, PatternTree, TermTree};
use std::alloc::Global;
use vt_base::{List, Text};
use vt_grammar::{Lexeme, Member, Stop, Symbol, is_next, more, one};
use vt_tokens::{feature_name, identifier};

// ---- constraints

#[tactic(auto, unfolding(vt_grammar::specs::Reading::read))]
fn term(lexemes: &[Lexeme]) -> Result<(TermTree, &[Lexeme]), Stop>
    ensures { Gives (λ x. (x.0, x.1.now)) result (reading term lexemes.now) }
{
    if is_next(lexemes, Symbol::Identifier) {
        let (name, rest) = identifier(lexemes)?;
        Ok((TermTree::Variable(name), rest))
    } else {
        let (_, rest) = one(lexemes, Symbol::Blank)?;
        Ok((TermTree::Blank, rest))
    }
}

#[tactic(auto, unfolding(vt_grammar::specs::Reading::read))]
fn type_rest(lexemes: &[Lexeme], ty: Text) -> Result<(ConstraintTree, &[Lexeme]), Stop>
    ensures { Gives (λ x. (x.0, x.1.now)) result (reading (applied ty type_rest) lexemes.now) }
{
    let (_, rest) = one(lexemes, Symbol::LeftParen)?;
    let (term, rest) = term(rest)?;
    let (_, rest) = one(rest, Symbol::RightParen)?;
    Ok((ConstraintTree::Type { ty, term }, rest))
}

#[tactic(auto, unfolding(vt_grammar::specs::Reading::read))]
fn feature_rest(lexemes: &[Lexeme], class: Text) -> Result<(ConstraintTree, &[Lexeme]), Stop>
    ensures { Gives (λ x. (x.0, x.1.now)) result (reading (applied class feature_rest) lexemes.now) }
{
    let (_, rest) = one(lexemes, Symbol::Dot)?;
    let (feature, rest) = feature_name(rest)?;
    let (_, rest) = one(rest, Symbol::LeftParen)?;
    let (from, rest) = term(rest)?;
    let (_, rest) = one(rest, Symbol::Comma)?;
    let (to, rest) = term(rest)?;
    let (_, rest) = one(rest, Symbol::RightParen)?;
    Ok((
        ConstraintTree::Feature {
            class,
            feature,
            from,
            to,
        },
        rest,
    ))
}

#[tactic(auto, unfolding(vt_grammar::specs::Reading::read))]
fn constraint_rest(lexemes: &[Lexeme], name: Text) -> Result<(ConstraintTree, &[Lexeme]), Stop>
    ensures { Gives (λ x. (x.0, x.1.now)) result (reading (applied name (alt type_rest feature_rest)) lexemes.now) }
{
    if is_next(lexemes, Symbol::LeftParen) {
        type_rest(lexemes, name)
    } else {
        feature_rest(lexemes, name)
    }
}

#[tactic(auto, using(crate::proofs::ReaderLemmas::constraint_read, crate::proofs::ReaderLemmas::constraint_fails))]
fn constraint(lexemes: &[Lexeme]) -> Result<(ConstraintTree, &[Lexeme]), Stop>
    ensures { Gives (λ x. (x.0, x.1.now)) result (reading constraint lexemes.now) }
{
    let (name, rest) = identifier(lexemes)?;
    let (constraint, rest) = constraint_rest(rest, name)?;
    Ok((constraint, rest))
}

// A constraint and its semicolon.
struct Line;

impl Member for Line {
    ghost use Rattle.std.specs.Prelude.{refl};
    ghost use Rattle.vt_vql.specs.Inside.Factored.{line};

    type Value = ConstraintTree;

    ghost grammar = { line };

    ghost decided = { refl };

    fn is_next(lexemes: &[Lexeme]) -> bool {
        is_next(lexemes, Symbol::Identifier)
    }

    #[tactic(auto, unfolding(vt_grammar::specs::Reading::read))]
    fn read(_alloc: Global, lexemes: &[Lexeme]) -> Result<(ConstraintTree, &[Lexeme]), Stop> {
        let (constraint, rest) = constraint(lexemes)?;
        let (_, rest) = one(rest, Symbol::Semicolon)?;
        Ok((constraint, rest))
    }
}

#[tactic(auto, using(crate::proofs::ReaderLemmas::lines_read))]
fn lines(alloc: Global, lexemes: &[Lexeme]) -> Result<(List<ConstraintTree>, &[Lexeme]), Stop>
    ensures { Gives (λ x. (x.0, x.1.now)) result (reading (star line) lexemes.now) }
{
    more::<Line>(alloc, List::new(alloc), lexemes)
}

#[tactic(auto, unfolding(vt_grammar::specs::Reading::read))]
fn body(alloc: Global, lexemes: &[Lexeme]) -> Result<(List<ConstraintTree>, &[Lexeme]), Stop>
    ensures { Gives (λ x. (x.0, x.1.now)) result (reading body lexemes.now) }
{
    let (_, rest) = one(lexemes, Symbol::LeftBrace)?;
    let (constraints, rest) = lines(alloc, rest)?;
    let (_, rest) = one(rest, Symbol::RightBrace)?;
    Ok((constraints, rest))
}

// ---- parameters

// The name of a type behind a colon, where there is one.
#[tactic(auto, unfolding(vt_grammar::specs::Reading::read))]
fn declared_type(lexemes: &[Lexeme]) -> Result<(Option<Text>, &[Lexeme]), Stop>
    ensures { Gives (λ x. (x.0, x.1.now)) result
        (reading (maybe (after (token symbol.Colon) identifier)) lexemes.now) }
{
    if is_next(lexemes, Symbol::Colon) {
        let (_, rest) = one(lexemes, Symbol::Colon)?;
        let (ty, rest) = identifier(rest)?;
        Ok((Some(ty), rest))
    } else {
        Ok((None, lexemes))
    }
}

#[tactic(auto, unfolding(vt_grammar::specs::Reading::read))]
fn param(lexemes: &[Lexeme]) -> Result<(ParamTree, &[Lexeme]), Stop>
    ensures { Gives (λ x. (x.0, x.1.now)) result (reading param lexemes.now) }
{
    let (name, rest) = identifier(lexemes)?;
    let (ty, rest) = declared_type(rest)?;
    Ok((ParamTree { name, ty }, rest))
}

// A parameter behind a comma.
struct FurtherParam;

impl Member for FurtherParam {
    ghost use Rattle.std.specs.Prelude.{refl};
    ghost use Rattle.vt_grammar.specs.Grammar.{token};
    ghost use Rattle.vt_grammar.specs.Forms.{after};
    ghost use Rattle.vt_grammar.specs.declared.symbol.Symbol.TheVariants as symbol;
    ghost use Rattle.vt_vql.specs.Rules.{param};

    type Value = ParamTree;

    ghost grammar = { after (token symbol.Comma) param };

    ghost decided = { refl };

    fn is_next(lexemes: &[Lexeme]) -> bool {
        is_next(lexemes, Symbol::Comma)
    }

    #[tactic(auto, unfolding(vt_grammar::specs::Reading::read))]
    fn read(_alloc: Global, lexemes: &[Lexeme]) -> Result<(ParamTree, &[Lexeme]), Stop> {
        let (_, rest) = one(lexemes, Symbol::Comma)?;
        param(rest)
    }
}

#[tactic(auto, unfolding(vt_grammar::specs::Reading::read))]
fn params(alloc: Global, lexemes: &[Lexeme]) -> Result<(List<ParamTree>, &[Lexeme]), Stop>
    ensures { Gives (λ x. (x.0, x.1.now)) result
        (reading (some_of (separated (token symbol.Comma) param)) lexemes.now) }
{
    let mut params = List::new(alloc);
    if is_next(lexemes, Symbol::Identifier) {
        let (first, rest) = param(lexemes)?;
        params.add(first)?;
        more::<FurtherParam>(alloc, params, rest)
    } else {
        Ok((params, lexemes))
    }
}

// ---- patterns

// Whether the pattern isn't private.
#[tactic(auto, unfolding(vt_grammar::specs::Reading::read))]
fn shown(lexemes: &[Lexeme]) -> Result<(bool, &[Lexeme]), Stop>
    ensures { Gives (λ x. (x.0, x.1.now)) result (reading shown lexemes.now) }
{
    if is_next(lexemes, Symbol::Private) {
        let (_, rest) = one(lexemes, Symbol::Private)?;
        Ok((false, rest))
    } else {
        Ok((true, lexemes))
    }
}

#[tactic(auto, unfolding(vt_grammar::specs::Reading::read))]
fn pattern(alloc: Global, lexemes: &[Lexeme]) -> Result<(PatternTree, &[Lexeme]), Stop>
    ensures { Gives (λ x. (x.0, x.1.now)) result (reading pattern lexemes.now) }
{
    let (shown, rest) = shown(lexemes)?;
    let (_, rest) = one(rest, Symbol::Pattern)?;
    let (name, rest) = identifier(rest)?;
    let (_, rest) = one(rest, Symbol::LeftParen)?;
    let (params, rest) = params(alloc, rest)?;
    let (_, rest) = one(rest, Symbol::RightParen)?;
    let (constraints, rest) = body(alloc, rest)?;
    Ok((
        PatternTree {
            name,
            shown,
            params,
            constraints,
        },
        rest,
    ))
}

struct EachPattern;

impl Member for EachPattern {
    ghost use Rattle.std.specs.Prelude.{refl};
    ghost use Rattle.vt_vql.specs.Inside.Factored.{pattern};

    type Value = PatternTree;

    ghost grammar = { pattern };

    ghost decided = { refl };

    fn is_next(lexemes: &[Lexeme]) -> bool {
        is_next(lexemes, Symbol::Private) || is_next(lexemes, Symbol::Pattern)
    }

    fn read(alloc: Global, lexemes: &[Lexeme]) -> Result<(PatternTree, &[Lexeme]), Stop> {
        pattern(alloc, lexemes)
    }
}

#[tactic(auto, using(crate::proofs::ReaderLemmas::patterns_read))]
fn patterns(alloc: Global, lexemes: &[Lexeme]) -> Result<(List<PatternTree>, &[Lexeme]), Stop>
    ensures { Gives (λ x. (x.0, x.1.now)) result (reading (star pattern) lexemes.now) }
{
    more::<EachPattern>(alloc, List::new(alloc), lexemes)
}

/// The patterns at the front.
#[tactic(auto, unfolding(vt_grammar::specs::Reading::read))]
pub(crate) fn file(alloc: Global, lexemes: &[Lexeme]) -> Result<(FileTree, &[Lexeme]), Stop>
    ensures { Gives (λ x. (x.0, x.1.now)) result (reading file lexemes.now) }
{
    let (patterns, rest) = patterns(alloc, lexemes)?;
    Ok((FileTree { patterns }, rest))
}
