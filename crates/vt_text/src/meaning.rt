// The expression that is meant by one as it is written.
ghost use Rattle.std.specs.Prelude.{◌≡◌, Some, None, option_map, position, IfOk, IfErr};
ghost use Rattle.vt_base.specs.Names.{literal_numbers};
ghost use Rattle.vt_text.specs.Parsing.{is_slot, place_of, expr_of, IsMeantBy, IsTreeFault};
ghost use Rattle.vt_text.specs.declared.expr.Expr.TheVariants as expr;
ghost use Rattle.vt_text.specs.Inside.Trees.{operand_exprs, Makes};

use crate::slots::{is_slot, slots_of};
use crate::{Expr, ExprFault, ExprTree, Operand, OperandTree, Parsed, Slot};
use sqlite_items::{Boxed, Items};
use std::alloc::Global;
use vt_base::{Names, Text};

fn found(slots: &[Slot], slot: &Slot) -> Option<usize>
    ensures { result ≡ position (is_slot slot.now) slots.now }
{
    slots.iter().position(|own| is_slot(slot, own))
}

fn place_of(slots: &[Slot], slot: &Slot) -> usize
    ensures { result ≡ place_of slots.now slot.now }
{
    found(slots, slot).unwrap_or(0)
}

fn literal<N: Names>(names: &N, enum_name: &Text, literal: &Text) -> Result<Expr, ExprFault>
    ensures { Makes result
        (option_map (λ numbers. expr.Enum numbers.0 numbers.1)
        (literal_numbers (N.enums names.now) enum_name.now literal.now)) }
{
    match names.literal_named(enum_name.as_str(), literal.as_str()) {
        Some((e, l)) => Ok(Expr::Enum(e, l)),
        None => Err(ExprFault::UnknownLiteral),
    }
}

// An expression over slots.
#[cycle(meaning)]
#[tactic(auto, using(crate::proofs::TreeLemmas::expr_boxed, crate::proofs::TreeLemmas::exprs_rows))]
fn meaning<N: Names>(
    alloc: Global,
    tree: &ExprTree,
    slots: &[Slot],
    names: &N,
) -> Result<Expr, ExprFault>
    ensures { Makes result (expr_of (N.enums names.now) slots.now tree.now) }
{
    match tree {
        ExprTree::Bool(b) => Ok(Expr::Bool(*b)),
        ExprTree::Int(n) => Ok(Expr::Int(*n)),
        ExprTree::Text(text) => Ok(Expr::Text(text.share())),
        ExprTree::Literal(enum_name, name) => literal(names, enum_name, name),
        ExprTree::Slot(slot) => Ok(Expr::Slot(place_of(slots, slot))),
        ExprTree::Negative(a) => {
            let a = meaning(alloc, a.get(), slots, names)?;
            Ok(Expr::Negative(Boxed::new(alloc, a)?))
        }
        ExprTree::Not(a) => {
            let a = meaning(alloc, a.get(), slots, names)?;
            Ok(Expr::Not(Boxed::new(alloc, a)?))
        }
        ExprTree::Chain(first, rest) => {
            let first = meaning(alloc, first.get(), slots, names)?;
            let operands = operands(alloc, rest.as_slice(), slots, names)?;
            Ok(Expr::Chain(Boxed::new(alloc, first)?, operands))
        }
    }
}

// Operands over slots.
#[cycle(meaning)]
fn operands<N: Names>(
    alloc: Global,
    trees: &[OperandTree],
    slots: &[Slot],
    names: &N,
) -> Result<Items<Operand>, ExprFault>
    ensures { Makes result (operand_exprs (N.enums names.now) slots.now trees.now) }
{
    let mut operands = Vec::with_capacity(alloc, trees.len())?;
    for tree in trees {
        let operator = tree.operator;
        let expr = meaning(alloc, &tree.expr, slots, names)?;
        operands.push(Operand { operator, expr })?;
    }
    Ok(Items::from_vec(operands))
}

/// The expression that is meant by one as it is written, with its slots.
#[tactic(auto, using(crate::proofs::MeantLemmas::meant_of, crate::proofs::MeantLemmas::fault_of))]
pub fn resolve<N: Names>(alloc: Global, tree: &ExprTree, names: &N) -> Result<Parsed, ExprFault>
    ensures accepted { IfOk result (λ parsed. IsMeantBy (N.enums names.now) tree.now parsed) }

    // Only an unknown literal is refused. Want of memory may stand for any answer.
    ensures refused { IfErr result (λ fault. IsTreeFault (N.enums names.now) tree.now fault) }
{
    let slots = slots_of(alloc, tree)?;
    let expr = meaning(alloc, tree, slots.as_slice(), names)?;
    Ok(Parsed { expr, slots })
}
