// How rows are found in a slab along a chain of its keys.
ghost use Rattle.std.specs.Prelude.{◌≡◌};
ghost use Rattle.std.specs.Option.{option_copied};
ghost use Rattle.slab.specs.Slab.{get};
ghost use Rattle.vt_memory.specs.Keyed.{has_value, has_values};
ghost use Rattle.vt_memory.specs.Inside.Chains.{chain_at};
ghost use Rattle.vt_memory.specs.Inside.Numbers.{number_of};
ghost use Rattle.vt_memory.specs.Inside.Indexed.{if_fits, is_row, key_among};

use crate::chains::Chains;
use crate::numbers::number_of;
use slab::Slab;
use vt_base::{Tuple, Value};

/// The key of a row.
pub(crate) fn key_of(slab: &Slab<Tuple>, whole: &Chains, row: &Tuple) -> Option<usize>
    ensures { result ≡ key_among slab.now row.now (chain_at whole.now.chains (number_of row.now)) }
{
    let mut keys = whole.walk(number_of(row.as_slice()));
    while let Some(key) = keys.next() {
        if has_row(slab, key, row) {
            return Some(key);
        }
    }
    None
}

// Whether this row stands under a key.
fn has_row(slab: &Slab<Tuple>, key: usize, row: &Tuple) -> bool
    ensures { result ≡ is_row row.now (get slab.now key) }
{
    match slab.get(key) {
        Some(other) => row == other,
        None => false,
    }
}

/// The row under a key, if it has these values in these columns.
pub(crate) fn row_with<'a>(
    slab: &'a Slab<Tuple>,
    key: usize,
    columns: &[u16],
    values: &[Value],
) -> Option<&'a Tuple>
    ensures { option_copied result ≡ if_fits columns.now values.now (get slab.now key) }
{
    match slab.get(key) {
        Some(row) => {
            if fits(columns, values, row) {
                Some(row)
            } else {
                None
            }
        }
        None => None,
    }
}

// Whether a row has these values in these columns.
fn fits(columns: &[u16], values: &[Value], row: &Tuple) -> bool
    ensures { result ≡ has_values columns.now values.now row.now }
{
    let mut columns = columns;
    let mut values = values;
    'pairs: while let (Some((c, cs)), Some((v, vs))) = (
        columns.split_first(),
        values.split_first(),
    ) {
        if !is_value(v, row.get(*c as usize)) {
            return false;
        }
        columns = cs;
        values = vs;
    }
    true
}

// Whether a cell is there and has this value.
fn is_value(value: &Value, cell: Option<&Value>) -> bool
    ensures { result ≡ has_value value.now (option_copied cell.entry) }
{
    match cell {
        Some(other) => value.compare(other).is_eq(),
        None => false,
    }
}
