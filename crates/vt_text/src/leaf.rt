// What stands alone in an expression: numbers, strings, truths, literals and slots.
ghost use Rattle.std.specs.Prelude.{◌≡◌};
ghost use Rattle.vt_grammar.specs.Forms.{applied};
ghost use Rattle.vt_grammar.specs.Reading.{read as reading, first};
ghost use Rattle.vt_grammar.specs.Gives.{Gives};
ghost use Rattle.vt_text.specs.ExpressionRules.{truth};
ghost use Rattle.vt_text.specs.Inside.FactoredLeaf.{literal_rest, attribute_rest, name_rest, named, leaf};

use crate::{ExprTree, Slot};
use vt_base::Text;
use vt_grammar::{Lexeme, Stop, Symbol, is_next, one};
use vt_tokens::{feature_name, identifier, number, string};

#[tactic(auto, unfolding(vt_grammar::specs::Reading::read))]
fn truth(lexemes: &[Lexeme]) -> Result<(bool, &[Lexeme]), Stop>
    ensures { Gives (λ x. (x.0, x.1.now)) result (reading truth lexemes.now) }
{
    if is_next(lexemes, Symbol::True) {
        let (_, rest) = one(lexemes, Symbol::True)?;
        Ok((true, rest))
    } else {
        let (_, rest) = one(lexemes, Symbol::False)?;
        Ok((false, rest))
    }
}

#[tactic(auto, unfolding(vt_grammar::specs::Reading::read))]
fn literal_rest(lexemes: &[Lexeme], name: Text) -> Result<(ExprTree, &[Lexeme]), Stop>
    ensures { Gives (λ x. (x.0, x.1.now)) result (reading (applied name literal_rest) lexemes.now) }
{
    let (_, rest) = one(lexemes, Symbol::DoubleColon)?;
    let (literal, rest) = feature_name(rest)?;
    Ok((ExprTree::Literal(name, literal), rest))
}

#[tactic(auto, unfolding(vt_grammar::specs::Reading::read))]
fn attribute_rest(lexemes: &[Lexeme], name: Text) -> Result<(ExprTree, &[Lexeme]), Stop>
    ensures { Gives (λ x. (x.0, x.1.now)) result (reading (applied name attribute_rest) lexemes.now) }
{
    let (_, rest) = one(lexemes, Symbol::Dot)?;
    let (attr, rest) = feature_name(rest)?;
    let attr = Some(attr);
    Ok((ExprTree::Slot(Slot { name, attr }), rest))
}

// What stands behind a name, and makes it a literal, an attribute or a variable.
#[tactic(auto, unfolding(vt_grammar::specs::Reading::read))]
fn name_rest(
    lexemes: &[Lexeme],
    name: Text,
    attributes: bool,
) -> Result<(ExprTree, &[Lexeme]), Stop>
    ensures { Gives (λ x. (x.0, x.1.now)) result (reading (applied name (name_rest attributes)) lexemes.now) }
{
    if is_next(lexemes, Symbol::DoubleColon) {
        literal_rest(lexemes, name)
    } else if attributes && is_next(lexemes, Symbol::Dot) {
        attribute_rest(lexemes, name)
    } else {
        Ok((ExprTree::Slot(Slot { name, attr: None }), lexemes))
    }
}

#[tactic(auto, using(crate::proofs::NameLemmas::named_read, crate::proofs::NameLemmas::named_fails))]
fn named(lexemes: &[Lexeme], attributes: bool) -> Result<(ExprTree, &[Lexeme]), Stop>
    ensures { Gives (λ x. (x.0, x.1.now)) result (reading (named attributes) lexemes.now) }
{
    let (name, rest) = identifier(lexemes)?;
    let (tree, rest) = name_rest(rest, name, attributes)?;
    Ok((tree, rest))
}

/// Whether a symbol begins what stands alone.
#[tactic(auto, unfolding(crate::specs::Inside::FactoredLeaf::leaf))]
pub(crate) fn begins_leaf(symbol: Symbol, attributes: bool) -> bool
    ensures { result ≡ first (leaf attributes) symbol }
{
    matches!(
        symbol,
        Symbol::Number | Symbol::Quoted | Symbol::True | Symbol::False | Symbol::Identifier
    )
}

/// What stands alone at the front, and the lexemes after it.
#[tactic(auto, unfolding(vt_grammar::specs::Reading::read, crate::specs::Inside::FactoredLeaf::leaf))]
pub(crate) fn leaf(lexemes: &[Lexeme], attributes: bool) -> Result<(ExprTree, &[Lexeme]), Stop>
    ensures { Gives (λ x. (x.0, x.1.now)) result (reading (leaf attributes) lexemes.now) }
{
    if is_next(lexemes, Symbol::Number) {
        let (n, rest) = number(lexemes)?;
        Ok((ExprTree::Int(n), rest))
    } else if is_next(lexemes, Symbol::Quoted) {
        let (text, rest) = string(lexemes)?;
        Ok((ExprTree::Text(text), rest))
    } else if is_next(lexemes, Symbol::True) || is_next(lexemes, Symbol::False) {
        let (b, rest) = truth(lexemes)?;
        Ok((ExprTree::Bool(b), rest))
    } else {
        named(lexemes, attributes)
    }
}
