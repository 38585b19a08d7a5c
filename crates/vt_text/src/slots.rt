// What an expression reads, and its slots.
ghost use Rattle.std.specs.Prelude.{◌≡◌, ◌++◌, OnOk, IfOk};
ghost use Rattle.std.specs.List.{list_any};
ghost use Rattle.vt_text.specs.Parsing.{is_attr, is_slot, reads, firsts, slots_of};
ghost use Rattle.vt_text.specs.Inside.Trees.{operand_reads, with_first};

use crate::{ExprTree, OperandTree, Slot};
use std::alloc::Global;
use vt_base::{List, NoMemory, Plain, Text};

fn is_attr(a: &Option<Text>, b: &Option<Text>) -> bool
    ensures { result ≡ is_attr a.now b.now }
{
    match (a, b) {
        (None, None) => true,
        (Some(a), Some(b)) => a == b,
        _ => false,
    }
}

// Whether both read one variable, or one attribute of one.
pub(crate) fn is_slot(a: &Slot, b: &Slot) -> bool
    ensures { result ≡ is_slot a.now b.now }
{
    a.name == b.name && is_attr(&a.attr, &b.attr)
}

// Adds what an expression reads.
#[cycle(reads)]
#[tactic(auto, using(crate::proofs::TreeLemmas::reads_boxed, crate::proofs::TreeLemmas::reads_rows))]
fn add_reads(alloc: Global, slots: &mut List<Slot>, tree: &ExprTree) -> Result<(), NoMemory>
    ensures { OnOk result (slots.new ≡ slots.old ++ reads tree.now) }
{
    match tree {
        ExprTree::Slot(slot) => {
            let slot = slot.copy(alloc)?;
            slots.add(slot)
        }
        ExprTree::Negative(a) => add_reads(alloc, slots, a.get()),
        ExprTree::Not(a) => add_reads(alloc, slots, a.get()),
        ExprTree::Chain(first, rest) => {
            add_reads(alloc, slots, first.get())?;
            add_operand_reads(alloc, slots, rest.as_slice())
        }
        _ => Ok(()),
    }
}

// Adds what operands read.
#[cycle(reads)]
fn add_operand_reads(
    alloc: Global,
    slots: &mut List<Slot>,
    operands: &[OperandTree],
) -> Result<(), NoMemory>
    ensures { OnOk result (slots.new ≡ slots.old ++ operand_reads operands.now) }
{
    for operand in operands {
        add_reads(alloc, slots, &operand.expr)?;
    }
    Ok(())
}

/// What an expression reads, from left to right: what is read twice stands twice.
pub fn reads(alloc: Global, tree: &ExprTree) -> Result<List<Slot>, NoMemory>
    ensures { IfOk result (λ slots. slots ≡ reads tree.now) }
{
    let mut slots = List::new(alloc);
    add_reads(alloc, &mut slots, tree)?;
    Ok(slots)
}

fn has(slots: &[Slot], slot: &Slot) -> bool
    ensures { result ≡ list_any (λ own. is_slot own slot.now) slots.now }
{
    slots.iter().any(|own| is_slot(own, slot))
}

// Adds a slot that isn't there yet.
#[tactic(auto, unfolding(crate::specs::Inside::Trees::with_first))]
fn add_first(alloc: Global, slots: &mut List<Slot>, slot: &Slot) -> Result<(), NoMemory>
    ensures { OnOk result (slots.new ≡ with_first slots.old slot.now) }
{
    if has(slots.as_slice(), slot) {
        return Ok(());
    }
    let slot = slot.copy(alloc)?;
    slots.add(slot)
}

// Each once, where it first stands.
#[tactic(auto, using(crate::proofs::TreeLemmas::firsts_all))]
fn firsts(alloc: Global, reads: &[Slot]) -> Result<List<Slot>, NoMemory>
    ensures { IfOk result (λ slots. slots ≡ firsts reads.now) }
{
    let mut slots = List::new(alloc);
    for slot in reads {
        add_first(alloc, &mut slots, slot)?;
    }
    Ok(slots)
}

/// The slots of an expression: one for each variable, and for each attribute of one, in the order
/// in which they first stand.
pub fn slots_of(alloc: Global, tree: &ExprTree) -> Result<List<Slot>, NoMemory>
    ensures { IfOk result (λ slots. slots ≡ slots_of tree.now) }
{
    let reads = reads(alloc, tree)?;
    firsts(alloc, reads.as_slice())
}
