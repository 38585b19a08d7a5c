// A delta for each of some numbers, kept for those alone that have got a row.
ghost use Rattle.std.specs.Prelude.{◌≡◌, ◌≢◌, ◌<◌, ℕ, length, Some, slice_get, OnOk, OnErr, replicate};
ghost use Rattle.vt_delta.specs.Changes.{after_coming, after_going, change_of, changes_of, no_change, turned_at};
ghost use Rattle.vt_delta.specs.Inside.Kept.{change_at, moved};

use crate::Delta;
use std::alloc::Global;
use std::collections::BTreeMap;
use std::marker::Model;
use vt_base::{List, NoMemory, Tuple};

/// A delta for each number below a count. Contracts see the list of them. A delta is made when a
/// row first comes or goes at its number; one empty delta stands for all others.
#[derive(Debug, Drop)]
pub struct Deltas {
    // The deltas that were handed over, of the first numbers.
    given: Vec<Delta>,
    // Those of the numbers above that have got a row.
    kept: BTreeMap<u16, Delta>,
    // How many numbers are above those of the deltas that were handed over.
    above: usize,
    empty: Delta,
    alloc: Global,
}

impl Model for Deltas {
    ghost use Rattle.std.specs.Prelude.{◌≡◌, ◌++◌, List, length};
    ghost use Rattle.vt_delta.specs.declared.delta.Delta.{Delta as Item};
    ghost use Rattle.vt_delta.specs.Changes.{change_of, no_change};
    ghost use Rattle.vt_delta.specs.Inside.Kept.{deltas_from};

    ghost Value = { List Item };

    ghost view = { λ d. d.given.items ++ deltas_from d.kept d.empty (length d.given.items) d.above };

    ghost invariant = { λ d. change_of d.empty ≡ no_change };
}

// Whether a row comes or goes.
#[derive(Clone, Copy)]
enum Way {
    Coming,
    Going,
}

impl Deltas {
    /// So many empty deltas. It takes no memory.
    pub fn new(alloc: Global, count: usize) -> Deltas
        ensures { changes_of result ≡ replicate count no_change }
    {
        Deltas {
            given: Vec::new(alloc),
            kept: BTreeMap::new(alloc),
            above: count,
            empty: Delta::new(alloc),
            alloc,
        }
    }

    /// These deltas. It takes no memory.
    pub fn from_list(deltas: List<Delta>) -> Deltas
        ensures { result ≡ deltas }
    {
        let given = deltas.into_vec();
        let alloc = *given.allocator();
        Deltas {
            given,
            kept: BTreeMap::new(alloc),
            above: 0,
            empty: Delta::new(alloc),
            alloc,
        }
    }

    /// The delta at a number.
    pub fn get(&self, n: u16) -> &Delta
        requires there { n < length self.now }
        ensures { slice_get self.now n ≡ Some result.now }
    {
        if (n as usize) < self.given.len() {
            return &self.given[n as usize];
        }
        match self.kept.get(&n) {
            Some(delta) => delta,
            None => &self.empty,
        }
    }

    /// A row comes to the rows with a number.
    pub fn row_comes(&mut self, n: u16, row: Tuple) -> Result<(), NoMemory>
        requires there { n < length self.old }
        ensures came { OnOk result (changes_of self.new ≡
            turned_at (λ change. after_coming change row) (changes_of self.old) n) }
        ensures unchanged { OnErr result (changes_of self.new ≡ changes_of self.old) }
    {
        self.row_moves(Way::Coming, n, row)
    }

    /// A row goes from the rows with a number.
    pub fn row_goes(&mut self, n: u16, row: Tuple) -> Result<(), NoMemory>
        requires there { n < length self.old }
        ensures went { OnOk result (changes_of self.new ≡
            turned_at (λ change. after_going change row) (changes_of self.old) n) }
        ensures unchanged { OnErr result (changes_of self.new ≡ changes_of self.old) }
    {
        self.row_moves(Way::Going, n, row)
    }

    fn row_moves(&mut self, way: Way, n: u16, row: Tuple) -> Result<(), NoMemory>
        requires there { n < length self.old }
        ensures moved { OnOk result (changes_of self.new ≡ turned_at (moved way row) (changes_of self.old) n) }
        ensures unchanged { OnErr result (changes_of self.new ≡ changes_of self.old) }
    {
        if (n as usize) < self.given.len() {
            move_one(&mut self.given[n as usize], way, row)
        } else {
            move_kept(self.alloc, &mut self.kept, way, n, row)
        }
    }
}

fn move_one(delta: &mut Delta, way: Way, row: Tuple) -> Result<(), NoMemory>
    ensures moved { OnOk result (change_of delta.new ≡ moved way row (change_of delta.old)) }
    ensures unchanged { OnErr result (change_of delta.new ≡ change_of delta.old) }
{
    match way {
        Way::Coming => delta.row_comes(row),
        Way::Going => delta.row_goes(row),
    }
}

// A row comes or goes at a number. Where none is kept there, the row has the first delta of it.
fn move_kept(
    alloc: Global,
    kept: &mut BTreeMap<u16, Delta>,
    way: Way,
    n: u16,
    row: Tuple,
) -> Result<(), NoMemory>
    ensures moved { OnOk result (change_at kept.new n ≡ moved way row (change_at kept.old n)) }
    ensures unchanged { OnErr result (change_at kept.new n ≡ change_at kept.old n) }
    ensures others { (q : ℕ) → q ≢ n → change_at kept.new q ≡ change_at kept.old q }
{
    let delta = kept.entry(n)?.or_insert(Delta::new(alloc));
    move_one(delta, way, row)
}
