// Indexes: the keys of a slab's rows, by the values of some columns.
ghost use Rattle.std.specs.Prelude.{◌≡◌, ◌+◌, ◌^◌, ◌<◌, IfOk, map};
ghost use Rattle.std.specs.List.{AllByRecursion};
ghost use Rattle.vt_memory.specs.Inside.Indexed.{CanTake, HasEntry, empty_index, with_entry, without_entry};

use crate::chains::Chains;
use crate::numbers::number_in;
use std::alloc::Global;
use vt_base::{List, NoMemory, Tuple};

/// The columns of a key, and the keys of rows in the chain that takes the number of their values
/// there.
#[derive(Drop)]
pub(crate) struct Index {
    pub columns: List<u16>,
    pub chains: Chains,
}

/// Empty indexes, one for the columns of each key.
pub(crate) fn empty_indexes(
    alloc: Global,
    keys: Vec<List<u16>>,
    places: usize,
    reach: usize,
) -> Result<Vec<Index>, NoMemory>
    requires some { 0 < places }
    requires small { reach < 2 ^ 32 }
    ensures { IfOk result (λ indexes. indexes.items ≡ map (empty_index places reach) keys.items) }
{
    let mut indexes = Vec::new(alloc);
    for columns in keys {
        let chains = Chains::new(alloc, places, reach)?;
        indexes.push(Index { columns, chains })?;
    }
    Ok(indexes)
}

/// Puts the key of a row into each index.
pub(crate) fn put_all(indexes: &mut Vec<Index>, key: usize, row: &Tuple)
    requires { AllByRecursion (CanTake key) indexes.old.items }
    ensures { indexes.new.items ≡ map (with_entry key row.now) indexes.old.items }
{
    for i in 0..indexes.len() {
        put(&mut indexes[i], key, row);
    }
}

fn put(index: &mut Index, key: usize, row: &Tuple)
    requires { CanTake key index.old }
    ensures { index.new ≡ with_entry key row.now index.old }
{
    let number = number_in(index.columns.as_slice(), row);
    index.chains.push(number, key);
}

/// Takes the key of a row out of each index.
pub(crate) fn take_all(indexes: &mut Vec<Index>, key: usize, row: &Tuple)
    requires { AllByRecursion (HasEntry key row.now) indexes.old.items }
    ensures { indexes.new.items ≡ map (without_entry key row.now) indexes.old.items }
{
    for i in 0..indexes.len() {
        take(&mut indexes[i], key, row);
    }
}

fn take(index: &mut Index, key: usize, row: &Tuple)
    requires { HasEntry key row.now index.old }
    ensures { index.new ≡ without_entry key row.now index.old }
{
    let number = number_in(index.columns.as_slice(), row);
    index.chains.take(number, key);
}
