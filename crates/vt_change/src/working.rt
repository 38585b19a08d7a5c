// Changes that are made one after the other.
ghost use Rattle.std.specs.Prelude.{◌≡◌, ◌<◌, ◌^◌, ℕ, length, reverse, Ok, Err, OnOk};
ghost use Rattle.vt_delta.specs.Deltas.{HasCounts};
ghost use Rattle.vt_model.specs.Base.{counts_of};
ghost use Rattle.vt_model.specs.Effect.{effect};
ghost use Rattle.vt_model.specs.Transaction.{transaction};
ghost use Rattle.vt_model.specs.declared.change.Refusal.{Refusal};
ghost use Rattle.vt_graph.specs.Held.{Held};
ghost use Rattle.vt_store.specs.declared.fault.StoreFault.TheVariants as store_fault;
ghost use Rattle.vt_change.specs.Leading.{LeadBack};
ghost use Rattle.vt_change.specs.Inside.Working.{IsUnderWay, StillLeadBack, fault_at};
ghost use Rattle.vt_change.specs.declared.fault.ApplyFault.TheVariants as apply_fault;

use crate::ApplyFault;
use crate::returning::keep;
use crate::telling::{Told, tell};
use std::alloc::Global;
use vt_base::List;
use vt_model::Change;
use vt_store::{Edit, Store, StoreFault};

// Makes a change, tells what it did, and keeps its edit.
fn make(
    alloc: Global,
    store: &mut Store,
    told: &mut Told,
    edits: &mut List<Edit>,
    change: &Change,
) -> Result<(), StoreFault>
    requires counts { HasCounts (counts_of store.old.meta) told.old.delta }
    ensures meta { store.new.meta ≡ store.old.meta }
    ensures made { OnOk result (effect store.old.meta store.old.model change.now ≡ Ok store.new.model) }
    ensures refused { (why : Refusal) → result ≡ Err (store_fault.Refused why)
        → effect store.old.meta store.old.model change.now ≡ Err why }
    ensures goes { (before : Held) → IsUnderWay before store.old told.old edits.old
        → OnOk result (IsUnderWay before store.new told.new edits.new) }
    ensures back { StillLeadBack edits.old store.old edits.new store.new }
{
    // They tell that the model is valid, and that what is given can be held.
    store.meta();
    change.gives_storable();
    let edit = store.apply(alloc, change)?;
    let answer = tell(told, alloc, store.meta(), &edit);
    keep(store, edits, edit)?;
    answer?;
    Ok(())
}

fn fault_at(at: u32, fault: StoreFault) -> ApplyFault
    ensures { result ≡ fault_at at fault }
{
    match fault {
        StoreFault::Refused(why) => ApplyFault::Refused { at, why },
        StoreFault::NoMemory => ApplyFault::NoMemory,
    }
}

// Makes the changes, up to the first that isn't made.
pub(crate) fn make_all(
    alloc: Global,
    store: &mut Store,
    told: &mut Told,
    edits: &mut List<Edit>,
    changes: &[Change],
) -> Result<(), ApplyFault>
    requires few { length changes.now < 2 ^ 32 }
    requires begins { IsUnderWay store.old store.old told.old edits.old }
    ensures made { OnOk result (transaction store.old.meta store.old.model changes.now ≡ Ok store.new.model) }
    ensures refused { (at : ℕ) (why : Refusal) → result ≡ Err (apply_fault.Refused at why)
        → transaction store.old.meta store.old.model changes.now ≡ Err (record { at = at; why = why }) }
    ensures goes { OnOk result (IsUnderWay store.old store.new told.new edits.new) }
    ensures back { LeadBack store.old (reverse edits.new) store.new }
{
    for (at, change) in changes.iter().enumerate() {
        if let Err(fault) = make(alloc, store, told, edits, change) {
            return Err(fault_at(at as u32, fault));
        }
    }
    Ok(())
}
