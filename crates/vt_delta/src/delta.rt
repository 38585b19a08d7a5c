// How rows changed, and how all rows of a model did.
ghost use Rattle.std.specs.Prelude.{◌≡◌, ◌<◌, ◌↔◌, fold, length, replicate, Some, slice_get, IfOk, OnOk, OnErr, IsTrue};
ghost use Rattle.vt_sorted.specs.Ascending.{with_item};
ghost use Rattle.vt_base.specs.Order.{tuple_cmp};
ghost use Rattle.vt_delta.specs.Changes.{after_coming, after_going, applied, change_of, changes_of, net, no_change, without};

use crate::Deltas;
use std::alloc::Global;
use vt_base::{AttrId, ClassId, List, NoMemory, Plain, RefId, Rows, Tuple};

/// A change of rows: what was added and what was removed.
#[derive(Debug, Drop)]
pub struct Delta {
    pub added: Rows,
    pub removed: Rows,
}

impl Delta {
    /// Nothing came, and nothing went. It takes no memory.
    pub fn new(alloc: Global) -> Delta
        ensures { change_of result ≡ no_change }
    {
        Delta {
            added: Rows::new(alloc),
            removed: Rows::new(alloc),
        }
    }

    /// How the second rows came from the first.
    pub fn net(alloc: Global, before: &Rows, after: &Rows) -> Result<Delta, NoMemory>
        ensures { IfOk result (λ delta. change_of delta ≡ net before.now.items after.now.items) }
    {
        let added = rows_without(alloc, before, after)?;
        let removed = rows_without(alloc, after, before)?;
        Ok(Delta { added, removed })
    }

    /// The rows to which this change leads from the given ones.
    pub fn apply(&self, alloc: Global, rows: &Rows) -> Result<Rows, NoMemory>
        ensures { IfOk result (λ out. out.items ≡ applied (change_of self.now) rows.now.items) }
    {
        let mut out = rows.copy(alloc)?;
        remove_all(&mut out, &self.removed);
        insert_all(alloc, &mut out, &self.added)?;
        Ok(out)
    }

    /// The same change again. The texts in it are shared with the copy.
    pub fn copy(&self, alloc: Global) -> Result<Delta, NoMemory>
        ensures { IfOk result (λ copy. change_of copy ≡ change_of self.now) }
    {
        let added = self.added.copy(alloc)?;
        let removed = self.removed.copy(alloc)?;
        Ok(Delta { added, removed })
    }

    /// Whether nothing came and nothing went.
    pub fn is_empty(&self) -> bool
        ensures { IsTrue result ↔ (change_of self.now ≡ no_change) }
    {
        self.added.is_empty() && self.removed.is_empty()
    }

    /// A row comes. A net change stays net: see `a_net_delta_stays_net`.
    pub fn row_comes(&mut self, row: Tuple) -> Result<(), NoMemory>
        ensures came { OnOk result (change_of self.new ≡ after_coming (change_of self.old) row) }
        ensures unchanged { OnErr result (change_of self.new ≡ change_of self.old) }
    {
        if self.removed.contains(&row) {
            self.removed.remove(&row);
            return Ok(());
        }
        match self.added.insert(row) {
            Ok(_) => Ok(()),
            Err(_) => Err(NoMemory),
        }
    }

    /// A row goes. A net change stays net: see `a_net_delta_stays_net`.
    pub fn row_goes(&mut self, row: Tuple) -> Result<(), NoMemory>
        ensures went { OnOk result (change_of self.new ≡ after_going (change_of self.old) row) }
        ensures unchanged { OnErr result (change_of self.new ≡ change_of self.old) }
    {
        if self.added.contains(&row) {
            self.added.remove(&row);
            return Ok(());
        }
        match self.removed.insert(row) {
            Ok(_) => Ok(()),
            Err(_) => Err(NoMemory),
        }
    }
}

// The rows that the first set lacks.
fn rows_without(alloc: Global, others: &Rows, rows: &Rows) -> Result<Rows, NoMemory>
    ensures { IfOk result (λ rest. rest.items ≡ without others.now.items rows.now.items) }
{
    let mut rest = Vec::new(alloc);
    let mut walk = rows.walk();
    while let Some(row) = walk.next() {
        if !others.contains(row) {
            rest.push(row.copy(alloc)?)?;
        }
    }
    Rows::from_ascending(alloc, rest)
}

fn remove_all(rows: &mut Rows, gone: &Rows)
    ensures { rows.new.items ≡ without gone.now.items rows.old.items }
{
    let mut walk = gone.walk();
    while let Some(row) = walk.next() {
        rows.remove(row);
    }
}

fn insert_all(alloc: Global, rows: &mut Rows, added: &Rows) -> Result<(), NoMemory>
    ensures { OnOk result (rows.new.items ≡ fold (with_item tuple_cmp) rows.old.items added.now.items) }
{
    let mut walk = added.walk();
    while let Some(row) = walk.next() {
        if rows.insert(row.copy(alloc)?).is_err() {
            return Err(NoMemory);
        }
    }
    Ok(())
}

/// A change of the rows of a model: the delta of each class, of each attribute and of each
/// reference, at its number.
#[derive(Debug, Drop)]
pub struct BaseDelta {
    pub classes: Deltas,
    pub attributes: Deltas,
    pub references: Deltas,
}

impl BaseDelta {
    /// The change that has these deltas. It takes no memory.
    pub fn new(classes: List<Delta>, attributes: List<Delta>, references: List<Delta>) -> BaseDelta
        ensures classes { result.classes ≡ classes }
        ensures attributes { result.attributes ≡ attributes }
        ensures references { result.references ≡ references }
    {
        BaseDelta {
            classes: Deltas::from_list(classes),
            attributes: Deltas::from_list(attributes),
            references: Deltas::from_list(references),
        }
    }

    /// No change, where there are so many classes, attributes and references. It takes no memory.
    pub fn none(alloc: Global, classes: usize, attributes: usize, references: usize) -> BaseDelta
        ensures classes { changes_of result.classes ≡ replicate classes no_change }
        ensures attributes { changes_of result.attributes ≡ replicate attributes no_change }
        ensures references { changes_of result.references ≡ replicate references no_change }
    {
        BaseDelta {
            classes: Deltas::new(alloc, classes),
            attributes: Deltas::new(alloc, attributes),
            references: Deltas::new(alloc, references),
        }
    }

    /// How the objects of a class, and of the classes below it, changed.
    pub fn class(&self, c: ClassId) -> &Delta
        requires there { c.0 < length self.now.classes }
        ensures { slice_get self.now.classes c.0 ≡ Some result.now }
    {
        self.classes.get(c.0)
    }

    /// How the objects with a value for an attribute, or these values, changed.
    pub fn attr(&self, a: AttrId) -> &Delta
        requires there { a.0 < length self.now.attributes }
        ensures { slice_get self.now.attributes a.0 ≡ Some result.now }
    {
        self.attributes.get(a.0)
    }

    /// How the sources and targets of a reference changed.
    pub fn reference(&self, r: RefId) -> &Delta
        requires there { r.0 < length self.now.references }
        ensures { slice_get self.now.references r.0 ≡ Some result.now }
    {
        self.references.get(r.0)
    }
}
