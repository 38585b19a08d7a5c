// Terms and types at the front of lexemes.
ghost use Rattle.std.specs.Prelude.{◌≡◌};
ghost use Rattle.vt_grammar.specs.Forms.{applied};
ghost use Rattle.vt_grammar.specs.Reading.{read as reading};
ghost use Rattle.vt_grammar.specs.Gives.{Gives};
ghost use Rattle.vt_syntax.specs.Terms.{qualified_name, integer, truth, java_type, type_name};
ghost use Rattle.vt_syntax.specs.Inside.Factored.{literal_rest, name_rest, named, plain, term};

use crate::{TermTree, TypeTree};
use std::alloc::Global;
use vt_base::{List, Text};
use vt_grammar::{Lexeme, Member, Stop, Symbol, is_next, more, one};
use vt_tokens::{feature_name, identifier, number, string};

// ---- names with dots

// A name behind a dot.
struct FurtherName;

impl Member for FurtherName {
    ghost use Rattle.std.specs.Prelude.{refl};
    ghost use Rattle.vt_grammar.specs.Grammar.{token};
    ghost use Rattle.vt_grammar.specs.Forms.{after};
    ghost use Rattle.vt_grammar.specs.declared.symbol.Symbol.TheVariants as symbol;
    ghost use Rattle.vt_tokens.specs.Words.{identifier};

    type Value = Text;

    ghost grammar = { after (token symbol.Dot) identifier };

    ghost decided = { refl };

    fn is_next(lexemes: &[Lexeme]) -> bool {
        is_next(lexemes, Symbol::Dot)
    }

    #[tactic(auto, unfolding(vt_grammar::specs::Reading::read))]
    fn read(_alloc: Global, lexemes: &[Lexeme]) -> Result<(Text, &[Lexeme]), Stop> {
        let (_, rest) = one(lexemes, Symbol::Dot)?;
        identifier(rest)
    }
}

/// Names with dots between them, and the lexemes after them.
#[tactic(auto, unfolding(vt_grammar::specs::Reading::read))]
pub(crate) fn qualified_name(
    alloc: Global,
    lexemes: &[Lexeme],
) -> Result<(List<Text>, &[Lexeme]), Stop>
    ensures { Gives (λ x. (x.0, x.1.now)) result (reading qualified_name lexemes.now) }
{
    let mut names = List::new(alloc);
    let (first, rest) = identifier(lexemes)?;
    names.add(first)?;
    more::<FurtherName>(alloc, names, rest)
}

// ---- types

/// A type of Java at the front, and the lexemes after it.
#[tactic(auto, unfolding(vt_grammar::specs::Reading::read))]
pub(crate) fn java_type(alloc: Global, lexemes: &[Lexeme]) -> Result<(TypeTree, &[Lexeme]), Stop>
    ensures { Gives (λ x. (x.0, x.1.now)) result (reading java_type lexemes.now) }
{
    let (word, rest) = one(lexemes, Symbol::Java)?;
    let line = word.line;
    let (_, rest) = qualified_name(alloc, rest)?;
    Ok((TypeTree::Java(line), rest))
}

/// The type at the front, and the lexemes after it.
#[tactic(auto, unfolding(vt_grammar::specs::Reading::read))]
pub(crate) fn type_name(alloc: Global, lexemes: &[Lexeme]) -> Result<(TypeTree, &[Lexeme]), Stop>
    ensures { Gives (λ x. (x.0, x.1.now)) result (reading type_name lexemes.now) }
{
    if is_next(lexemes, Symbol::Identifier) {
        let (name, rest) = identifier(lexemes)?;
        Ok((TypeTree::Named(name), rest))
    } else {
        java_type(alloc, lexemes)
    }
}

// ---- terms

// A number, with a `-` before it or without.
#[tactic(auto, unfolding(vt_grammar::specs::Reading::read))]
fn integer(lexemes: &[Lexeme]) -> Result<(i64, &[Lexeme]), Stop>
    ensures { Gives (λ x. (x.0, x.1.now)) result (reading integer lexemes.now) }
{
    if is_next(lexemes, Symbol::Minus) {
        let (_, rest) = one(lexemes, Symbol::Minus)?;
        let (n, rest) = number(rest)?;
        Ok((-n, rest))
    } else {
        number(lexemes)
    }
}

#[tactic(auto, unfolding(vt_grammar::specs::Reading::read))]
fn truth(lexemes: &[Lexeme]) -> Result<(bool, &[Lexeme]), Stop>
    ensures { Gives (λ x. (x.0, x.1.now)) result (reading truth lexemes.now) }
{
    if is_next(lexemes, Symbol::True) {
        let (_, rest) = one(lexemes, Symbol::True)?;
        Ok((true, rest))
    } else {
        let (_, rest) = one(lexemes, Symbol::False)?;
        Ok((false, rest))
    }
}

#[tactic(auto, unfolding(vt_grammar::specs::Reading::read))]
fn literal_rest(lexemes: &[Lexeme], name: Text) -> Result<(TermTree, &[Lexeme]), Stop>
    ensures { Gives (λ x. (x.0, x.1.now)) result (reading (applied name literal_rest) lexemes.now) }
{
    let (_, rest) = one(lexemes, Symbol::DoubleColon)?;
    let (literal, rest) = feature_name(rest)?;
    Ok((TermTree::Literal(name, literal), rest))
}

/// What stands behind a name, and makes it a literal or a variable.
#[tactic(auto, unfolding(vt_grammar::specs::Reading::read))]
pub(crate) fn name_rest(lexemes: &[Lexeme], name: Text) -> Result<(TermTree, &[Lexeme]), Stop>
    ensures { Gives (λ x. (x.0, x.1.now)) result (reading (applied name name_rest) lexemes.now) }
{
    if is_next(lexemes, Symbol::DoubleColon) {
        literal_rest(lexemes, name)
    } else {
        Ok((TermTree::Variable(name), lexemes))
    }
}

#[tactic(auto, using(crate::proofs::ReaderLemmas::named_read, crate::proofs::ReaderLemmas::named_fails))]
fn named(lexemes: &[Lexeme]) -> Result<(TermTree, &[Lexeme]), Stop>
    ensures { Gives (λ x. (x.0, x.1.now)) result (reading named lexemes.now) }
{
    let (name, rest) = identifier(lexemes)?;
    let (term, rest) = name_rest(rest, name)?;
    Ok((term, rest))
}

/// A term without a name at the front, and the lexemes after it.
#[tactic(auto, unfolding(vt_grammar::specs::Reading::read))]
pub(crate) fn plain(lexemes: &[Lexeme]) -> Result<(TermTree, &[Lexeme]), Stop>
    ensures { Gives (λ x. (x.0, x.1.now)) result (reading plain lexemes.now) }
{
    if is_next(lexemes, Symbol::Blank) {
        let (_, rest) = one(lexemes, Symbol::Blank)?;
        Ok((TermTree::Blank, rest))
    } else if is_next(lexemes, Symbol::Minus) || is_next(lexemes, Symbol::Number) {
        let (n, rest) = integer(lexemes)?;
        Ok((TermTree::Int(n), rest))
    } else if is_next(lexemes, Symbol::Quoted) {
        let (text, rest) = string(lexemes)?;
        Ok((TermTree::Text(text), rest))
    } else {
        let (b, rest) = truth(lexemes)?;
        Ok((TermTree::Bool(b), rest))
    }
}

/// The term at the front, and the lexemes after it.
#[tactic(auto, unfolding(vt_grammar::specs::Reading::read))]
pub(crate) fn term(lexemes: &[Lexeme]) -> Result<(TermTree, &[Lexeme]), Stop>
    ensures { Gives (λ x. (x.0, x.1.now)) result (reading term lexemes.now) }
{
    if is_next(lexemes, Symbol::Identifier) {
        named(lexemes)
    } else {
        plain(lexemes)
    }
}
