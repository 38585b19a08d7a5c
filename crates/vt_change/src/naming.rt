// The objects that rows name, of those that lived before and live still.
ghost use Rattle.std.specs.Prelude.{◌≡◌, ◌++◌, OnOk, IfOk};
ghost use Rattle.std.specs.List.{filter_map};
ghost use Rattle.vt_delta.specs.Changes.{change_of};
ghost use Rattle.vt_change.specs.Inside.Naming.{object_named, all_named, IsInOrder};

use std::alloc::Global;
use vt_base::{List, NoMemory, ObjId, Rows, Tuple, Value};
use vt_delta::Delta;
use vt_store::Store;

// The object that a row names first, if it is live and its number was given away before.
fn object_named(store: &Store, next: u32, row: &Tuple) -> Option<ObjId>
    ensures { result ≡ object_named next store.now.model row.now }
{
    match row.get(0) {
        Some(Value::Obj(o)) if o.0 < next && store.class_of(*o).is_some() => Some(*o),
        _ => None,
    }
}

// Adds the objects that rows name.
fn add_named(found: &mut Vec<ObjId>, store: &Store, next: u32, rows: &Rows) -> Result<(), NoMemory>
    ensures { OnOk result (found.new.items ≡ found.old.items ++ filter_map (object_named next store.now.model) rows.now.items) }
{
    let mut walk = rows.walk();
    while let Some(row) = walk.next() {
        if let Some(o) = object_named(store, next, row) {
            found.push(o)?;
        }
    }
    Ok(())
}

// Puts numbers in rising order, and none twice.
fn arrange(found: &mut Vec<ObjId>)
    ensures { IsInOrder found.old.items found.new.items }
{
    found.sort_unstable();
    found.dedup();
}

// The objects that the rows of a change name, in rising order.
pub(crate) fn named(
    alloc: Global,
    store: &Store,
    next: u32,
    delta: &Delta,
) -> Result<List<ObjId>, NoMemory>
    ensures { IfOk result (λ found. IsInOrder (all_named next store.now.model (change_of delta.now)) found) }
{
    let mut found = Vec::new(alloc);
    add_named(&mut found, store, next, &delta.added)?;
    add_named(&mut found, store, next, &delta.removed)?;
    arrange(&mut found);
    Ok(List::from_vec(found))
}
