// A row of a bucket that isn't among given rows.
ghost use Rattle.std.specs.Prelude.{◌≡◌, ◌+◌, ◌≤◌, length, not};
ghost use Rattle.std.specs.List.{filter, find};
ghost use Rattle.std.specs.Option.{option_copied};
ghost use Rattle.vt_base.specs.Rows.{has_row};
ghost use Rattle.vt_memory.specs.Inside.Indexed.{found_by};

use crate::index::Index;
use crate::numbers::number_of;
use crate::search::row_with;
use slab::Slab;
use std::sync::ledger::Ledger;
use vt_base::{Rows, Steps, Tuple, Value};

/// A row of an index that has these values in its columns, and isn't given. Each that is looked at
/// is one step.
pub(crate) fn first_beyond<'a, L: Ledger>(
    slab: &'a Slab<Tuple>,
    index: &Index,
    values: &[Value],
    given: &Rows,
    steps: &mut Steps<L>,
) -> Option<&'a Tuple>
    ensures row { option_copied result ≡ find (λ row. not (has_row given.now.items row)) (found_by slab.now index.now values.now) }
    ensures few { steps.new ≤ steps.old + length (found_by slab.now index.now values.now) }
    ensures ticks { steps.new ≤ steps.old + length (filter (λ row. has_row given.now.items row) (found_by slab.now index.now values.now)) + 1 }
{
    let mut keys = index.chains.walk(number_of(values));
    while let Some(key) = keys.next() {
        if let Some(row) = row_with(slab, key, index.columns.as_slice(), values) {
            steps.tick();
            if !given.contains(row) {
                return Some(row);
            }
        }
    }
    None
}
