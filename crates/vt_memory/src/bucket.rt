// The rows of a bucket.
ghost use Rattle.std.specs.Prelude.{◌≡◌, ◌+◌, ◌≤◌, length, IfOk};
ghost use Rattle.vt_memory.specs.Inside.Indexed.{found_by};

use crate::index::Index;
use crate::numbers::number_of;
use crate::search::row_with;
use slab::Slab;
use std::alloc::Global;
use std::sync::ledger::Ledger;
use vt_base::{NoMemory, Plain, Steps, Tuple, Value};

/// The rows of an index that have these values in its columns. Each is one step.
pub(crate) fn rows_with<L: Ledger>(
    alloc: Global,
    slab: &Slab<Tuple>,
    index: &Index,
    values: &[Value],
    steps: &mut Steps<L>,
) -> Result<Vec<Tuple>, NoMemory>
    ensures rows { IfOk result (λ out. out.items ≡ found_by slab.now index.now values.now) }
    ensures few { steps.new ≤ steps.old + length (found_by slab.now index.now values.now) }
    ensures ticks { IfOk result (λ out. steps.new ≡ steps.old + length (found_by slab.now index.now values.now)) }
{
    let mut out = Vec::new(alloc);
    let mut keys = index.chains.walk(number_of(values));
    while let Some(key) = keys.next() {
        if let Some(row) = row_with(slab, key, index.columns.as_slice(), values) {
            steps.tick();
            out.push(row.copy(alloc)?)?;
        }
    }
    Ok(out)
}
