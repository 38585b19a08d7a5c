//! A plan of two patterns, and its tables.
ghost use Rattle.std.specs.Prelude.{◌≡◌, IfOk, IsTrue, All};
ghost use Rattle.vt_algebra.specs.Rows.{IsOver};

use super::plain::Tables;
use super::{small, text_of};
use std::alloc::Global;
use std::marker::Brand;
use std::process::Abort;
use std::sync::ledger::{Blank, Ledger};
use std::test::Fail;
use vt_algebra::{Op, Plans, evaluate_all};
use vt_base::{Base, ClassId, List, NoMemory, PatternId, Rows, Steps};

// The first pattern has the table of the second, and the second the objects of a class.
fn sample(rt: &impl Abort, alloc: Global, base: &Tables) -> Result<Plans, NoMemory>
    ensures { IfOk result (λ plans. All (IsOver (⟦<Tables as Base>⟧.rows base.now).counts) plans.trees) }
{
    let mut ops = List::new(alloc);
    ops.add(Op::Pattern(PatternId(1)))?;
    ops.add(Op::Class(ClassId(0)))?;
    let mut order = List::new(alloc);
    order.add(PatternId(1))?;
    order.add(PatternId(0))?;
    assert!(rt; are_over(base, ops.as_slice()));
    Ok(Plans::new(ops, order))
}

fn are_over(base: &Tables, ops: &[Op]) -> bool
    ensures { IsTrue result → All (IsOver (⟦<Tables as Base>⟧.rows base.now).counts) ops.now }
{
    let (classes, attributes) = (base.classes.len(), base.attributes.len());
    for op in ops {
        if !op.is_over(classes, attributes, base.references.len()) {
            return false;
        }
    }
    true
}

fn evaluated<L: Ledger>(
    alloc: Global,
    plans: &Plans,
    base: &Tables,
    blank: Blank,
) -> Result<List<Rows>, NoMemory>
    requires name { blank.name ≡ L.name }
    requires parts { blank.parts ≡ L.parts }
    requires some { blank.parts ≡ 1 }
    requires over { All (IsOver (⟦<Tables as Base>⟧.rows base.now).counts) plans.now.trees }
{
    let mut steps = Steps::<L>::new(blank);
    evaluate_all(alloc, plans, base, &mut steps)
}

fn tables_of(rt: &impl Abort, alloc: Global, base: &Tables) -> Result<List<Rows>, NoMemory> {
    let plans = sample(rt, alloc, base)?;
    evaluated::<Brand>(alloc, &plans, base, Blank::new(1))
}

#[test]
fn a_table_is_evaluated_before_it_is_read(rt: HostRuntime) -> Result<(), Fail> {
    let alloc = rt.alloc();
    let base = small(alloc)?;
    let tables = tables_of(&rt, alloc, &base)?;
    assert_eq!(rt; tables.len(), 2);
    for table in tables.as_slice() {
        let text = text_of(alloc, table)?;
        assert_eq!(rt; text.as_str(), "(1)(2)(3)");
    }
    Ok(())
}
