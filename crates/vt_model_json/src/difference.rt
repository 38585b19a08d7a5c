// The difference of a model from the empty one.
ghost use Rattle.std.specs.Prelude.{◌≡◌, ◌<◌, length, IfOk};
ghost use Rattle.vt_model.specs.Base.{base_of};
ghost use Rattle.vt_model_json.specs.Difference.{IsAllAdded, AreAllAdded, IsFromEmpty};
ghost use Rattle.vt_model_json.specs.Inside.Parts.{count_of, rows_of};

use std::alloc::Global;
use std::marker::Brand;
use std::sync::ledger::{Blank, Ledger};
use vt_base::{AttrId, Base, ClassId, List, NoMemory, RefId, Rows, Steps};
use vt_delta::{BaseDelta, Delta};
use vt_store::Store;

// The delta that adds rows.
fn all_added(alloc: Global, rows: Rows) -> Delta
    ensures { IsAllAdded rows.items result }
{
    Delta {
        added: rows,
        removed: Rows::new(alloc),
    }
}

/// What has rows by number: classes, attributes or references.
#[derive(Clone, Copy)]
pub enum Part {
    Classes,
    Attributes,
    References,
}

// The rows of the class, the attribute or the reference with a number.
fn rows_at<B: Base, L: Ledger>(
    alloc: Global,
    base: &B,
    part: Part,
    n: u16,
    steps: &mut Steps<L>,
) -> Result<Rows, NoMemory>
    requires { n < count_of part (B.rows base.now) }
    ensures { IfOk result (λ found. found.items ≡ rows_of part (B.rows base.now) n) }
{
    match part {
        Part::Classes => base.class_rows(alloc, ClassId(n), steps),
        Part::Attributes => base.attr_rows(alloc, AttrId(n), steps),
        Part::References => base.ref_rows(alloc, RefId(n), steps),
    }
}

// A delta for each of them, which adds its rows.
#[tactic(auto, using(crate::proofs::DifferenceLemmas::add_delta))]
fn deltas_of<B: Base, L: Ledger>(
    alloc: Global,
    base: &B,
    part: Part,
    count: u16,
    steps: &mut Steps<L>,
) -> Result<List<Delta>, NoMemory>
    requires { count ≡ count_of part (B.rows base.now) }
    ensures count { IfOk result (λ deltas. length deltas ≡ count) }
    ensures rows { IfOk result (AreAllAdded (rows_of part (B.rows base.now))) }
{
    let mut deltas = List::new(alloc);
    for n in 0..count {
        let rows = rows_at(alloc, base, part, n, steps)?;
        deltas.add(all_added(alloc, rows))?;
    }
    Ok(deltas)
}

// The difference, made with a counter of a ledger that nobody has opened.
fn counted<L: Ledger>(alloc: Global, store: &Store, blank: Blank) -> Result<BaseDelta, NoMemory>
    requires name { blank.name ≡ L.name }
    requires parts { blank.parts ≡ L.parts }
    requires some { blank.parts ≡ 1 }
    ensures { IfOk result (λ delta. IsFromEmpty (base_of store.now.meta store.now.model) delta) }
{
    let mut steps = Steps::<L>::new(blank);
    let meta = store.meta();
    let classes = deltas_of(alloc, store, Part::Classes, meta.class_count(), &mut steps)?;
    let attributes = deltas_of(
        alloc,
        store,
        Part::Attributes,
        meta.attr_count(),
        &mut steps,
    )?;
    let references = deltas_of(alloc, store, Part::References, meta.ref_count(), &mut steps)?;
    Ok(BaseDelta::new(classes, attributes, references))
}

/// The difference of a model from the empty one: all its rows are added.
pub(crate) fn from_empty(alloc: Global, store: &Store) -> Result<BaseDelta, NoMemory>
    ensures { IfOk result (λ delta. IsFromEmpty (base_of store.now.meta store.now.model) delta) }
{
    counted::<Brand>(alloc, store, Blank::new(1))
}
