// A set of rows with buckets.
ghost use Rattle.std.specs.Prelude.{◌≡◌, ◌+◌, ◌^◌, ◌≤◌, ◌<◌, [], length, map, not, true, false, IfOk, IfErr, IfNone, IfSome, IsOk, List, OnOk, OnErr};
ghost use Rattle.std.specs.List.{filter};
ghost use Rattle.slab.specs.Slab.{slab_len};
ghost use Rattle.vt_sorted.specs.Ascending.{with_item, without_item};
ghost use Rattle.vt_base.specs.Order.{tuple_cmp};
ghost use Rattle.vt_base.specs.Rows.{Ascends, has_row};
ghost use Rattle.vt_base.specs.declared.value.Value.{Value as Item};
ghost use Rattle.vt_memory.specs.Keyed.{columns_at, bucket_of};
ghost use Rattle.vt_memory.specs.Inside.Indexed.{IsAlone, rows_of};

use crate::beyond::first_beyond;
use crate::bucket::rows_with;
use crate::chains::Chains;
use crate::index::{Index, empty_indexes, put_all, take_all};
use crate::numbers::number_of;
use crate::search::key_of;
use slab::Slab;
use std::alloc::Global;
use std::marker::Model;
use std::mem;
use std::sync::ledger::Ledger;
use vt_base::{List, NoMemory, Plain, Rows, Steps, Tuple, Value};

/// A set of rows with keys, each a list of columns. The rows that have given values in the columns
/// of a key are its bucket, and are found with no walk over the others. Contracts see the `rows` in
/// ascending order, the `keys`, and as `spare` how many more rows it takes with no memory.
#[derive(Drop)]
pub struct Memory {
    slab: Slab<Tuple>,
    // By the whole row, and by the columns of each key.
    whole: Chains,
    indexes: Vec<Index>,
    alloc: Global,
}

impl Model for Memory {
    ghost use Rattle.std.specs.Prelude.{◌-◌, map};
    ghost use Rattle.slab.specs.Slab.{slab_len};
    ghost use Rattle.vt_memory.specs.Keyed.{Keyed};
    ghost use Rattle.vt_memory.specs.Inside.Indexed.{IsSound, rows_of};

    ghost Value = { Keyed };

    ghost view = { λ m. record { rows = rows_of m.slab; keys = map (λ index. index.columns) m.indexes.items; spare = m.slab.capacity - slab_len m.slab } };

    ghost invariant = { λ m. IsSound m.slab m.whole m.indexes.items };
}

impl Memory {
    /// A memory with these keys and no rows.
    pub fn new(alloc: Global, keys: List<List<u16>>) -> Result<Memory, NoMemory>
        ensures rows { IfOk result (λ memory. memory.rows ≡ []) }
        ensures keys { IfOk result (λ memory. memory.keys ≡ keys) }
    {
        Memory::with_places(alloc, keys.into_vec(), 0, 1)
    }

    /// A memory with no rows that has room for so many, and in each index so many places.
    pub(crate) fn with_places(
        alloc: Global,
        keys: Vec<List<u16>>,
        room: usize,
        places: usize,
    ) -> Result<Memory, NoMemory>
        requires { 0 < places }
        ensures rows { IfOk result (λ memory. memory.rows ≡ []) }
        ensures keys { IfOk result (λ memory. memory.keys ≡ keys.items) }
        ensures room { IfOk result (λ memory. room ≤ memory.spare) }
    {
        let slab = Slab::with_capacity(alloc, room)?;
        let reach = slab.capacity();
        if reach >= u32::MAX as usize {
            return Err(NoMemory);
        }
        let whole = Chains::new(alloc, places, reach)?;
        let indexes = empty_indexes(alloc, keys, places, reach)?;
        Ok(Memory {
            slab,
            whole,
            indexes,
            alloc,
        })
    }

    /// Adds a row, and answers whether it is new. Where there is no memory for it, it comes back.
    pub fn insert<L: Ledger>(&mut self, row: Tuple, steps: &mut Steps<L>) -> Result<bool, Tuple>
        ensures rows { OnOk result (self.new.rows ≡ with_item tuple_cmp self.old.rows row) }
        ensures added { IfOk result (λ added. added ≡ not (has_row self.old.rows row)) }
        ensures unchanged { OnErr result (self.new.rows ≡ self.old.rows) }
        ensures comes_back { IfErr result (λ back. back ≡ row) }
        ensures succeeds { 1 ≤ self.old.spare → IsOk result }
        ensures keys { self.new.keys ≡ self.old.keys }
        ensures room { self.old.spare ≤ self.new.spare + 1 }
        ensures ticks { steps.new ≡ steps.old + 1 }
    {
        steps.tick();
        if self.has(&row) {
            return Ok(false);
        }
        if self.spare() == 0 && self.grow(1).is_err() {
            return Err(row);
        }
        self.add(row);
        Ok(true)
    }

    /// Takes a row out, and answers whether it stood.
    pub fn remove<L: Ledger>(&mut self, row: &Tuple, steps: &mut Steps<L>) -> bool
        ensures rows { self.new.rows ≡ without_item tuple_cmp self.old.rows row.now }
        ensures stood { result ≡ has_row self.old.rows row.now }
        ensures keys { self.new.keys ≡ self.old.keys }
        ensures room { self.old.spare ≤ self.new.spare }
        ensures ticks { steps.new ≡ steps.old + 1 }
    {
        steps.tick();
        match key_of(&self.slab, &self.whole, row) {
            Some(key) => {
                self.whole.take(number_of(row.as_slice()), key);
                take_all(&mut self.indexes, key, row);
                let _ = self.slab.remove(key);
                true
            }
            None => false,
        }
    }

    /// Whether a row stands.
    pub fn contains<L: Ledger>(&self, row: &Tuple, steps: &mut Steps<L>) -> bool
        ensures stands { result ≡ has_row self.now.rows row.now }
        ensures ticks { steps.new ≡ steps.old + 1 }
    {
        steps.tick();
        self.has(row)
    }

    /// The rows that have these values in the columns of a key. Each is one step.
    pub fn bucket<L: Ledger>(
        &self,
        alloc: Global,
        key: usize,
        values: &[Value],
        steps: &mut Steps<L>,
    ) -> Result<Rows, NoMemory>
        requires key { key < length self.now.keys }
        requires values { length (columns_at self.now.keys key) ≡ length values.now }
        ensures rows { IfOk result (λ found. found.items ≡ bucket_of self.now key values.now) }
        ensures few { steps.new ≤ steps.old + length (bucket_of self.now key values.now) }
        ensures ticks { OnOk result (steps.new ≡ steps.old + length (bucket_of self.now key values.now)) }
    {
        let found = rows_with(alloc, &self.slab, &self.indexes[key], values, steps)?;
        Rows::from_vec(alloc, found)
    }

    /// A row of a bucket that isn't among given rows. It stops at the first that it meets. Each row
    /// that it looks at is one step, so at most one step is of a row that isn't given.
    pub fn beyond<L: Ledger>(
        &self,
        key: usize,
        values: &[Value],
        given: &Rows,
        steps: &mut Steps<L>,
    ) -> Option<&Tuple>
        requires key { key < length self.now.keys }
        requires values { length (columns_at self.now.keys key) ≡ length values.now }
        ensures stands { IfSome result (λ row. has_row (bucket_of self.now key values.now) row.now ≡ true) }
        ensures beyond { IfSome result (λ row. has_row given.now.items row.now ≡ false) }
        ensures none { IfNone result ((row : List Item) → has_row (bucket_of self.now key values.now) row ≡ true → has_row given.now.items row ≡ true) }
        ensures few { steps.new ≤ steps.old + length (bucket_of self.now key values.now) }
        ensures ticks { steps.new ≤ steps.old + length (filter (λ row. has_row given.now.items row) (bucket_of self.now key values.now)) + 1 }
    {
        first_beyond(&self.slab, &self.indexes[key], values, given, steps)
    }

    /// The rows ascend.
    pub fn ascending(&self)
        ensures { Ascends self.now.rows }
    {
        let _ = &self.slab;
    }

    /// Makes room for so many more rows. It ticks nothing, as it has no counter.
    pub fn reserve(&mut self, rows: usize) -> Result<(), NoMemory>
        ensures rows { self.new.rows ≡ self.old.rows }
        ensures keys { self.new.keys ≡ self.old.keys }
        ensures room { OnOk result (rows ≤ self.new.spare) }
        ensures grows { self.old.spare ≤ self.new.spare }
    {
        if self.spare() >= rows {
            return Ok(());
        }
        self.grow(rows)
    }

    /// How many more rows need no memory.
    pub fn spare(&self) -> usize
        ensures { result ≡ self.now.spare }
    {
        self.slab.capacity() - self.slab.len()
    }

    fn has(&self, row: &Tuple) -> bool
        ensures { result ≡ has_row self.now.rows row.now }
    {
        key_of(&self.slab, &self.whole, row).is_some()
    }

    // Adds a row that doesn't stand, and for which there is room.
    fn add(&mut self, row: Tuple)
        requires absent { has_row self.old.rows row ≡ false }
        requires room { 1 ≤ self.old.spare }
        ensures rows { self.new.rows ≡ with_item tuple_cmp self.old.rows row }
        ensures keys { self.new.keys ≡ self.old.keys }
        ensures room { self.new.spare + 1 ≡ self.old.spare }
    {
        let number = number_of(row.as_slice());
        let key = self.slab.insert_reserved(row);
        self.whole.push(number, key);
        put_all(&mut self.indexes, key, &self.slab[key]);
    }

    // Makes room by a larger memory, to which all rows move. All memory is taken first, so where
    // there is none this memory stays.
    fn grow(&mut self, more: usize) -> Result<(), NoMemory>
        ensures rows { self.new.rows ≡ self.old.rows }
        ensures keys { self.new.keys ≡ self.old.keys }
        ensures room { OnOk result (more ≤ self.new.spare) }
        ensures grows { self.old.spare ≤ self.new.spare }
    {
        let len = self.slab.len();
        let more = more.max(len).max(self.spare());
        let Some(room) = len.checked_add(more) else {
            return Err(NoMemory);
        };
        let keys = self.copied_keys()?;
        let larger = Memory::with_places(self.alloc, keys, room, room.max(1))?;
        let Memory {
            slab,
            whole,
            indexes,
            alloc: _,
        } = larger;
        let rows = mem::replace(&mut self.slab, slab);
        self.whole = whole;
        self.indexes = indexes;
        self.fill(rows);
        Ok(())
    }

    // The columns of each key, once more.
    fn copied_keys(&self) -> Result<Vec<List<u16>>, NoMemory>
        ensures { IfOk result (λ keys. keys.items ≡ self.now.keys) }
    {
        let mut keys = Vec::new(self.alloc);
        for index in &self.indexes {
            keys.push(index.columns.copy(self.alloc)?)?;
        }
        Ok(keys)
    }

    // Takes over the rows of a slab, for which there is room.
    fn fill(&mut self, slab: Slab<Tuple>)
        requires empty { self.old.rows ≡ [] }
        requires alone { IsAlone slab }
        requires room { slab_len slab ≤ self.old.spare }
        ensures rows { self.new.rows ≡ rows_of slab }
        ensures keys { self.new.keys ≡ self.old.keys }
        ensures room { self.new.spare + slab_len slab ≡ self.old.spare }
    {
        for (_, row) in slab {
            self.add(row);
        }
    }
}
