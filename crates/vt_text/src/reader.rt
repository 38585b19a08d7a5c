// Lexemes as expressions. Calls go as deep as unary operators and parentheses nest, and a chain is
// a loop.
ghost use Rattle.std.specs.Prelude.{◌≡◌, ℕ, Err, IfOk};
ghost use Rattle.vt_grammar.specs.Grammar.{star};
ghost use Rattle.vt_grammar.specs.Forms.{maybe};
ghost use Rattle.vt_grammar.specs.Reading.{read as reading, first, starts};
ghost use Rattle.vt_grammar.specs.Gives.{Gives};
ghost use Rattle.vt_grammar.specs.declared.stop.Stop.TheVariants.{Fault};
ghost use Rattle.vt_text.specs.ExpressionRules.{chained, paired, further, comparison_sign, sum, comparison, disjunction, negative, negation, enclosed, operand};
ghost use Rattle.vt_text.specs.Inside.FactoredLeaf.{leaf, read_as};
ghost use Rattle.vt_text.specs.Inside.Levels.{sign_at, below, at};

use crate::leaf::{begins_leaf, leaf};
use crate::sign::{compares, comparison_sign, has_sign, sign_at};
use crate::{ExprTree, OperandTree};
use sqlite_items::{Boxed, Items};
use std::alloc::Global;
use vt_grammar::{Lexeme, Stop, Symbol, is_next, one};

/// How deep unary operators and parentheses may nest.
const DEEPEST: u32 = 64;

/// A level of operators that chain any number of operands, from the one that binds least.
#[derive(Clone, Copy)]
pub(crate) enum Level {
    Or,
    And,
    Sum,
    Product,
}

// ---- chains

// A whole chain as one node, or its one operand.
fn chained(alloc: Global, first: ExprTree, rest: Vec<OperandTree>) -> Result<ExprTree, Stop>
    ensures value { IfOk result (λ tree. tree ≡ chained first rest.items) }
    ensures no_fault { (n : ℕ) → result ≡ Err (Fault n) → ⊥ }
{
    if rest.is_empty() {
        return Ok(first);
    }
    Ok(ExprTree::Chain(Boxed::new(alloc, first)?, Items::from_vec(rest)))
}

// Two operands that are compared, or the one.
fn paired(alloc: Global, first: ExprTree, second: Option<OperandTree>) -> Result<ExprTree, Stop>
    ensures value { IfOk result (λ tree. tree ≡ paired first second) }
    ensures no_fault { (n : ℕ) → result ≡ Err (Fault n) → ⊥ }
{
    match second {
        None => Ok(first),
        Some(operand) => {
            let mut rest = Vec::new(alloc);
            rest.push(operand)?;
            Ok(ExprTree::Chain(Boxed::new(alloc, first)?, Items::from_vec(rest)))
        }
    }
}

// An operand of a level.
#[cycle(read)]
#[tactic(auto, unfolding(crate::specs::ExpressionRules::conjunction, crate::specs::ExpressionRules::product))]
fn below(
    alloc: Global,
    lexemes: &[Lexeme],
    attributes: bool,
    depth: u32,
    level: Level,
) -> Result<(ExprTree, &[Lexeme]), Stop>
    ensures { Gives (λ x. (x.0, x.1.now)) result
        (reading (below level (operand (leaf attributes) depth)) lexemes.now) }
{
    match level {
        Level::Or => chain(alloc, lexemes, attributes, depth, Level::And),
        Level::And => comparison(alloc, lexemes, attributes, depth),
        Level::Sum => chain(alloc, lexemes, attributes, depth, Level::Product),
        Level::Product => operand(alloc, lexemes, attributes, depth),
    }
}

// An operator of a level and the operand to its right.
#[cycle(read)]
#[tactic(auto, unfolding(vt_grammar::specs::Reading::read))]
fn further(
    alloc: Global,
    lexemes: &[Lexeme],
    attributes: bool,
    depth: u32,
    level: Level,
) -> Result<(OperandTree, &[Lexeme]), Stop>
    ensures { Gives (λ x. (x.0, x.1.now)) result
        (reading (further (sign_at level) (below level (operand (leaf attributes) depth))) lexemes.now) }
{
    let (operator, rest) = sign_at(lexemes, level)?;
    let (expr, rest) = below(alloc, rest, attributes, depth, level)?;
    Ok((OperandTree { operator, expr }, rest))
}

// The operands of a chain behind its first.
#[cycle(read)]
#[tactic(auto, using(crate::proofs::DepthLemmas::operands_done, crate::proofs::DepthLemmas::operands_fail, crate::proofs::DepthLemmas::operands_go, crate::proofs::DepthLemmas::operands_shrink))]
fn operands(
    alloc: Global,
    lexemes: &[Lexeme],
    attributes: bool,
    depth: u32,
    level: Level,
) -> Result<(Vec<OperandTree>, &[Lexeme]), Stop>
    ensures { Gives (λ x. (x.0.items, x.1.now)) result
        (reading (star (further (sign_at level) (below level (operand (leaf attributes) depth)))) lexemes.now) }
{
    let mut operands = Vec::new(alloc);
    let mut rest = lexemes;
    'each: while has_sign(rest, level) {
        let (operand, next) = further(alloc, rest, attributes, depth, level)?;
        operands.push(operand)?;
        rest = next;
    }
    Ok((operands, rest))
}

// A chain of a level.
#[cycle(read)]
#[tactic(auto, unfolding(vt_grammar::specs::Reading::read))]
fn chain(
    alloc: Global,
    lexemes: &[Lexeme],
    attributes: bool,
    depth: u32,
    level: Level,
) -> Result<(ExprTree, &[Lexeme]), Stop>
    ensures { Gives (λ x. (x.0, x.1.now)) result
        (reading (at level (operand (leaf attributes) depth)) lexemes.now) }
{
    let (first, rest) = below(alloc, lexemes, attributes, depth, level)?;
    let (operands, rest) = operands(alloc, rest, attributes, depth, level)?;
    let tree = chained(alloc, first, operands)?;
    Ok((tree, rest))
}

// A sum, which is what is compared.
#[cycle(read)]
#[tactic(auto, unfolding(crate::specs::ExpressionRules::sum))]
fn sum(
    alloc: Global,
    lexemes: &[Lexeme],
    attributes: bool,
    depth: u32,
) -> Result<(ExprTree, &[Lexeme]), Stop>
    ensures { Gives (λ x. (x.0, x.1.now)) result
        (reading (sum (operand (leaf attributes) depth)) lexemes.now) }
{
    chain(alloc, lexemes, attributes, depth, Level::Sum)
}

// What is compared with what stands before it, if something is.
#[cycle(read)]
#[tactic(auto, unfolding(vt_grammar::specs::Reading::read))]
fn compared(
    alloc: Global,
    lexemes: &[Lexeme],
    attributes: bool,
    depth: u32,
) -> Result<(Option<OperandTree>, &[Lexeme]), Stop>
    ensures { Gives (λ x. (x.0, x.1.now)) result
        (reading (maybe (further comparison_sign (sum (operand (leaf attributes) depth)))) lexemes.now) }
{
    if compares(lexemes) {
        let (operator, rest) = comparison_sign(lexemes)?;
        let (expr, rest) = sum(alloc, rest, attributes, depth)?;
        Ok((Some(OperandTree { operator, expr }), rest))
    } else {
        Ok((None, lexemes))
    }
}

#[cycle(read)]
#[tactic(auto, unfolding(vt_grammar::specs::Reading::read, crate::specs::ExpressionRules::comparison))]
fn comparison(
    alloc: Global,
    lexemes: &[Lexeme],
    attributes: bool,
    depth: u32,
) -> Result<(ExprTree, &[Lexeme]), Stop>
    ensures { Gives (λ x. (x.0, x.1.now)) result
        (reading (comparison (operand (leaf attributes) depth)) lexemes.now) }
{
    let (first, rest) = sum(alloc, lexemes, attributes, depth)?;
    let (second, rest) = compared(alloc, rest, attributes, depth)?;
    let tree = paired(alloc, first, second)?;
    Ok((tree, rest))
}

// Any expression.
#[cycle(read)]
#[tactic(auto, unfolding(crate::specs::ExpressionRules::disjunction))]
fn disjunction(
    alloc: Global,
    lexemes: &[Lexeme],
    attributes: bool,
    depth: u32,
) -> Result<(ExprTree, &[Lexeme]), Stop>
    ensures { Gives (λ x. (x.0, x.1.now)) result
        (reading (disjunction (operand (leaf attributes) depth)) lexemes.now) }
{
    chain(alloc, lexemes, attributes, depth, Level::Or)
}

// ---- what nests

#[cycle(read)]
#[tactic(auto, unfolding(vt_grammar::specs::Reading::read))]
fn negative(
    alloc: Global,
    lexemes: &[Lexeme],
    attributes: bool,
    depth: u32,
) -> Result<(ExprTree, &[Lexeme]), Stop>
    ensures { Gives (λ x. (x.0, x.1.now)) result
        (reading (negative (operand (leaf attributes) depth)) lexemes.now) }
{
    let (_, rest) = one(lexemes, Symbol::Minus)?;
    let (inner, rest) = operand(alloc, rest, attributes, depth)?;
    Ok((ExprTree::Negative(Boxed::new(alloc, inner)?), rest))
}

#[cycle(read)]
#[tactic(auto, unfolding(vt_grammar::specs::Reading::read))]
fn negation(
    alloc: Global,
    lexemes: &[Lexeme],
    attributes: bool,
    depth: u32,
) -> Result<(ExprTree, &[Lexeme]), Stop>
    ensures { Gives (λ x. (x.0, x.1.now)) result
        (reading (negation (operand (leaf attributes) depth)) lexemes.now) }
{
    let (_, rest) = one(lexemes, Symbol::Not)?;
    let (inner, rest) = operand(alloc, rest, attributes, depth)?;
    Ok((ExprTree::Not(Boxed::new(alloc, inner)?), rest))
}

#[cycle(read)]
#[tactic(auto, unfolding(vt_grammar::specs::Reading::read))]
fn enclosed(
    alloc: Global,
    lexemes: &[Lexeme],
    attributes: bool,
    depth: u32,
) -> Result<(ExprTree, &[Lexeme]), Stop>
    ensures { Gives (λ x. (x.0, x.1.now)) result
        (reading (enclosed (disjunction (operand (leaf attributes) depth))) lexemes.now) }
{
    let (_, rest) = one(lexemes, Symbol::LeftParen)?;
    let (inner, rest) = disjunction(alloc, rest, attributes, depth)?;
    let (_, rest) = one(rest, Symbol::RightParen)?;
    Ok((inner, rest))
}

// Whether what stands alone is next.
fn is_leaf(lexemes: &[Lexeme], attributes: bool) -> bool
    ensures { result ≡ starts (first (leaf attributes)) lexemes.now }
{
    match lexemes.first() {
        Some(lexeme) => begins_leaf(lexeme.symbol, attributes),
        None => false,
    }
}

// An operand, in which so many unary operators and parentheses may nest.
#[cycle(read)]
#[tactic(auto, unfolding(vt_grammar::specs::Reading::read, crate::specs::ExpressionRules::operand))]
fn operand(
    alloc: Global,
    lexemes: &[Lexeme],
    attributes: bool,
    depth: u32,
) -> Result<(ExprTree, &[Lexeme]), Stop>
    ensures { Gives (λ x. (x.0, x.1.now)) result
        (reading (operand (leaf attributes) depth) lexemes.now) }
{
    if depth == 0 || is_leaf(lexemes, attributes) {
        return leaf(lexemes, attributes);
    }
    if is_next(lexemes, Symbol::Minus) {
        negative(alloc, lexemes, attributes, depth - 1)
    } else if is_next(lexemes, Symbol::Not) {
        negation(alloc, lexemes, attributes, depth - 1)
    } else {
        enclosed(alloc, lexemes, attributes, depth - 1)
    }
}

/// The expression at the front, and the lexemes after it.
#[tactic(auto, unfolding(crate::specs::Inside::FactoredLeaf::read_as))]
pub(crate) fn front(
    alloc: Global,
    lexemes: &[Lexeme],
    attributes: bool,
) -> Result<(ExprTree, &[Lexeme]), Stop>
    ensures { Gives (λ x. (x.0, x.1.now)) result
        (reading (read_as attributes) lexemes.now) }
{
    disjunction(alloc, lexemes, attributes, DEEPEST)
}
