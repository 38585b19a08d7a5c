// Patterns at the front of lexemes.
ghost use Rattle.std.specs.Prelude.{◌≡◌};
ghost use Rattle.vt_grammar.specs.Grammar.{star, token, balanced};
ghost use Rattle.vt_grammar.specs.Forms.{◌&◌, maybe, after, some_of, separated};
ghost use Rattle.vt_grammar.specs.Reading.{read as reading};
ghost use Rattle.vt_grammar.specs.Gives.{Gives};
ghost use Rattle.vt_grammar.specs.declared.symbol.Symbol.TheVariants as symbol;
ghost use Rattle.vt_syntax.specs.Terms.{skipped, type_name};
ghost use Rattle.vt_syntax.specs.Rules.{param, annotation, shown};
ghost use Rattle.vt_syntax.specs.Inside.Factored.{body, pattern};

use crate::constraints::body;
use crate::terms::type_name;
use crate::{BodyTree, ParamTree, PatternTree, TypeTree};
use std::alloc::Global;
use vt_base::{List, Text};
use vt_grammar::{Lexeme, Member, Stop, Symbol, balanced, is_next, more, one};
use vt_tokens::identifier;

// ---- parameters

// The type behind a colon, where there is one.
#[tactic(auto, unfolding(vt_grammar::specs::Reading::read))]
fn declared_type(alloc: Global, lexemes: &[Lexeme]) -> Result<(Option<TypeTree>, &[Lexeme]), Stop>
    ensures { Gives (λ x. (x.0, x.1.now)) result
        (reading (maybe (after (token symbol.Colon) type_name)) lexemes.now) }
{
    if is_next(lexemes, Symbol::Colon) {
        let (_, rest) = one(lexemes, Symbol::Colon)?;
        let (ty, rest) = type_name(alloc, rest)?;
        Ok((Some(ty), rest))
    } else {
        Ok((None, lexemes))
    }
}

#[tactic(auto, unfolding(vt_grammar::specs::Reading::read))]
fn param(alloc: Global, lexemes: &[Lexeme]) -> Result<(ParamTree, &[Lexeme]), Stop>
    ensures { Gives (λ x. (x.0, x.1.now)) result (reading param lexemes.now) }
{
    let (name, rest) = identifier(lexemes)?;
    let (ty, rest) = declared_type(alloc, rest)?;
    Ok((ParamTree { name, ty }, rest))
}

// A parameter behind a comma.
struct FurtherParam;

impl Member for FurtherParam {
    ghost use Rattle.std.specs.Prelude.{refl};
    ghost use Rattle.vt_grammar.specs.Grammar.{token};
    ghost use Rattle.vt_grammar.specs.Forms.{after};
    ghost use Rattle.vt_grammar.specs.declared.symbol.Symbol.TheVariants as symbol;
    ghost use Rattle.vt_syntax.specs.Rules.{param};

    type Value = ParamTree;

    ghost grammar = { after (token symbol.Comma) param };

    ghost decided = { refl };

    fn is_next(lexemes: &[Lexeme]) -> bool {
        is_next(lexemes, Symbol::Comma)
    }

    #[tactic(auto, unfolding(vt_grammar::specs::Reading::read))]
    fn read(alloc: Global, lexemes: &[Lexeme]) -> Result<(ParamTree, &[Lexeme]), Stop> {
        let (_, rest) = one(lexemes, Symbol::Comma)?;
        param(alloc, rest)
    }
}

#[tactic(auto, unfolding(vt_grammar::specs::Reading::read))]
fn params(alloc: Global, lexemes: &[Lexeme]) -> Result<(List<ParamTree>, &[Lexeme]), Stop>
    ensures { Gives (λ x. (x.0, x.1.now)) result
        (reading (some_of (separated (token symbol.Comma) param)) lexemes.now) }
{
    let mut params = List::new(alloc);
    if is_next(lexemes, Symbol::Identifier) {
        let (first, rest) = param(alloc, lexemes)?;
        params.add(first)?;
        more::<FurtherParam>(alloc, params, rest)
    } else {
        Ok((params, lexemes))
    }
}

// ---- annotations, which mean nothing

// Steps over what stands in parentheses, where it does.
#[tactic(auto, unfolding(vt_grammar::specs::Reading::read))]
fn values(alloc: Global, lexemes: &[Lexeme]) -> Result<&[Lexeme], Stop>
    ensures { Gives (λ x. (tt, x.now)) result
        (reading (skipped (maybe (token symbol.LeftParen & balanced & token symbol.RightParen))) lexemes.now) }
{
    if is_next(lexemes, Symbol::LeftParen) {
        let (_, rest) = one(lexemes, Symbol::LeftParen)?;
        let (_, rest) = balanced(alloc, rest)?;
        let (_, rest) = one(rest, Symbol::RightParen)?;
        Ok(rest)
    } else {
        Ok(lexemes)
    }
}

// An annotation.
struct Annotation;

impl Member for Annotation {
    ghost use Rattle.std.specs.Prelude.{refl};
    ghost use Rattle.vt_syntax.specs.Rules.{annotation};

    type Value = Text;

    ghost grammar = { annotation };

    ghost decided = { refl };

    fn is_next(lexemes: &[Lexeme]) -> bool {
        is_next(lexemes, Symbol::At)
    }

    #[tactic(auto, unfolding(vt_grammar::specs::Reading::read))]
    fn read(alloc: Global, lexemes: &[Lexeme]) -> Result<(Text, &[Lexeme]), Stop> {
        let (_, rest) = one(lexemes, Symbol::At)?;
        let (name, rest) = identifier(rest)?;
        let rest = values(alloc, rest)?;
        Ok((name, rest))
    }
}

#[tactic(auto, using(crate::proofs::ReaderLemmas::annotations_read))]
fn annotations(alloc: Global, lexemes: &[Lexeme]) -> Result<(List<Text>, &[Lexeme]), Stop>
    ensures { Gives (λ x. (x.0, x.1.now)) result (reading (star annotation) lexemes.now) }
{
    more::<Annotation>(alloc, List::new(alloc), lexemes)
}

// ---- patterns

// Whether the pattern isn't private.
#[tactic(auto, unfolding(vt_grammar::specs::Reading::read))]
fn shown(lexemes: &[Lexeme]) -> Result<(bool, &[Lexeme]), Stop>
    ensures { Gives (λ x. (x.0, x.1.now)) result (reading shown lexemes.now) }
{
    if is_next(lexemes, Symbol::Private) {
        let (_, rest) = one(lexemes, Symbol::Private)?;
        Ok((false, rest))
    } else {
        Ok((true, lexemes))
    }
}

// A body behind `or`.
struct FurtherBody;

impl Member for FurtherBody {
    ghost use Rattle.std.specs.Prelude.{refl};
    ghost use Rattle.vt_grammar.specs.Grammar.{token};
    ghost use Rattle.vt_grammar.specs.Forms.{after};
    ghost use Rattle.vt_grammar.specs.declared.symbol.Symbol.TheVariants as symbol;
    ghost use Rattle.vt_syntax.specs.Inside.Factored.{body};

    type Value = BodyTree;

    ghost grammar = { after (token symbol.Or) body };

    ghost decided = { refl };

    fn is_next(lexemes: &[Lexeme]) -> bool {
        is_next(lexemes, Symbol::Or)
    }

    #[tactic(auto, unfolding(vt_grammar::specs::Reading::read))]
    fn read(alloc: Global, lexemes: &[Lexeme]) -> Result<(BodyTree, &[Lexeme]), Stop> {
        let (_, rest) = one(lexemes, Symbol::Or)?;
        body(alloc, rest)
    }
}

#[tactic(auto, unfolding(vt_grammar::specs::Reading::read))]
fn bodies(alloc: Global, lexemes: &[Lexeme]) -> Result<(List<BodyTree>, &[Lexeme]), Stop>
    ensures { Gives (λ x. (x.0, x.1.now)) result
        (reading (separated (token symbol.Or) body) lexemes.now) }
{
    let mut bodies = List::new(alloc);
    let (first, rest) = body(alloc, lexemes)?;
    bodies.add(first)?;
    more::<FurtherBody>(alloc, bodies, rest)
}

/// The pattern at the front, and the lexemes after it.
#[tactic(auto, unfolding(vt_grammar::specs::Reading::read))]
pub(crate) fn pattern(alloc: Global, lexemes: &[Lexeme]) -> Result<(PatternTree, &[Lexeme]), Stop>
    ensures { Gives (λ x. (x.0, x.1.now)) result (reading pattern lexemes.now) }
{
    let (_, rest) = annotations(alloc, lexemes)?;
    let (shown, rest) = shown(rest)?;
    let (_, rest) = one(rest, Symbol::Pattern)?;
    let (name, rest) = identifier(rest)?;
    let (_, rest) = one(rest, Symbol::LeftParen)?;
    let (params, rest) = params(alloc, rest)?;
    let (_, rest) = one(rest, Symbol::RightParen)?;
    let (bodies, rest) = bodies(alloc, rest)?;
    Ok((
        PatternTree {
            name,
            shown,
            params,
            bodies,
        },
        rest,
    ))
}
