// Rows: a set of tuples in ascending order.
ghost use Rattle.std.specs.Prelude.{◌≡◌, ◌↔◌, ◌≤◌, ◌+◌, [], IfOk, IfErr, OnOk, OnErr, IsOk, IsTrue, length, not, slice_get};
ghost use Rattle.std.specs.Option.{option_copied};
ghost use Rattle.vt_sorted.specs.Ascending.{items_from, with_item, without_item};
ghost use Rattle.vt_base.specs.Order.{tuple_cmp};
ghost use Rattle.vt_base.specs.Rows.{Ascends, has_row, IsSetOf};

use crate::{NoMemory, Tuple};
use std::alloc::Global;
use std::marker::Model;
use vt_sorted::{Sorted, Walk};

/// A set of tuples. Contracts see its `items` in ascending order, and as `spare` how many more
/// tuples it takes with no memory. It is the ordered set of `vt_sorted`: a vector while it is
/// small, chunks when it is large.
#[derive(Debug, Drop)]
pub struct Rows {
    set: Sorted<Tuple>,
}

impl Model for Rows {
    ghost use Rattle.std.specs.Prelude.{List};
    ghost use Rattle.vt_facts.specs.Room.{Room};
    ghost use Rattle.vt_base.specs.declared.value.Value.{Value as Item};

    ghost Value = { Room (List Item) };

    ghost view = { λ r. r.set };
}

impl Rows {
    /// No rows. It takes no memory.
    pub fn new(alloc: Global) -> Rows
        ensures { result.items ≡ [] }
    {
        Rows {
            set: Sorted::new(alloc),
        }
    }

    /// The set of these tuples. It needs memory to sort them.
    pub fn from_vec(alloc: Global, rows: Vec<Tuple>) -> Result<Rows, NoMemory>
        ensures { IfOk result (λ set. IsSetOf rows.items set.items) }
    {
        let set = Sorted::from_vec(alloc, rows)?;
        Ok(Rows { set })
    }

    /// The set of tuples that ascend already. More than a few need memory.
    pub fn from_ascending(alloc: Global, rows: Vec<Tuple>) -> Result<Rows, NoMemory>
        requires ascends { Ascends rows.items }
        ensures { IfOk result (λ set. set.items ≡ rows.items) }
    {
        let set = Sorted::from_ascending(alloc, rows)?;
        Ok(Rows { set })
    }

    /// The same rows again. The texts in them are shared with the copy.
    pub fn copy(&self, alloc: Global) -> Result<Rows, NoMemory>
        ensures { IfOk result (λ copy. copy.items ≡ self.now.items) }
    {
        let set = self.set.copy(alloc)?;
        Ok(Rows { set })
    }

    /// Whether the tuple is one of the rows.
    pub fn contains(&self, row: &Tuple) -> bool
        ensures { result ≡ has_row self.now.items row.now }
    {
        self.set.contains(row)
    }

    /// The row at a place in ascending order, counted from 0. `None` is of a place past the end
    /// alone. It steps over chunks: to read all rows, walk.
    pub fn get(&self, i: usize) -> Option<&Tuple>
        ensures { option_copied result ≡ slice_get self.now.items i }
    {
        self.set.get(i)
    }

    pub fn len(&self) -> usize
        ensures { result ≡ length self.now.items }
    {
        self.set.len()
    }

    pub fn is_empty(&self) -> bool
        ensures { IsTrue result ↔ (self.now.items ≡ []) }
    {
        self.set.is_empty()
    }

    /// The rows in order.
    pub fn walk(&self) -> Walk<'_, Tuple>
        ensures items { result ≡ self.now.items }
        ensures ascends { Ascends self.now.items }
    {
        self.set.walk()
    }

    /// The rows from a given tuple on, in order.
    pub fn walk_from(&self, row: &Tuple) -> Walk<'_, Tuple>
        ensures { result ≡ items_from tuple_cmp self.now.items row.now }
    {
        self.set.walk_from(row)
    }

    /// Makes room for so many more rows.
    pub fn reserve(&mut self, more: usize) -> Result<(), NoMemory>
        ensures items { self.new.items ≡ self.old.items }
        ensures room { OnOk result (more ≤ self.new.spare) }
        ensures grows { self.old.spare ≤ self.new.spare }
    {
        self.set.reserve(more)
    }

    /// Adds the row. It answers false where it stood, and hands it back for want of memory.
    pub fn insert(&mut self, row: Tuple) -> Result<bool, Tuple>
        ensures items { OnOk result (self.new.items ≡ with_item tuple_cmp self.old.items row) }
        ensures added { IfOk result (λ added. added ≡ not (has_row self.old.items row)) }
        ensures unchanged { OnErr result (self.new.items ≡ self.old.items) }
        ensures comes_back { IfErr result (λ back. back ≡ row) }
        ensures succeeds { 1 ≤ self.old.spare → IsOk result }
        ensures room { self.old.spare ≤ self.new.spare + 1 }
    {
        self.set.insert(row)
    }

    /// Takes the row out, and answers whether it stood.
    pub fn remove(&mut self, row: &Tuple) -> bool
        ensures items { self.new.items ≡ without_item tuple_cmp self.old.items row.now }
        ensures stood { result ≡ has_row self.old.items row.now }
        ensures room { self.old.spare ≤ self.new.spare }
    {
        self.set.remove(row)
    }
}
