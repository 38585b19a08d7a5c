// The way back.
ghost use Rattle.std.specs.Prelude.{◌≡◌, ◌∷◌, ◌++◌, [], reverse, OnOk, OnErr};
ghost use Rattle.vt_graph.specs.Held.{Held};
ghost use Rattle.vt_store.specs.Undoing.{Fits};
ghost use Rattle.vt_change.specs.Leading.{IsBack, IsReverted, LeadBack};

use vt_base::{List, NoMemory};
use vt_store::{Edit, Store};

// Keeps an edit, or takes it back where there is no memory for that.
pub(crate) fn keep(store: &mut Store, edits: &mut List<Edit>, edit: Edit) -> Result<(), NoMemory>
    requires fits { Fits edit store.old }
    ensures kept { OnOk result ((edits.new ≡ edits.old ++ edit ∷ []) × (store.new ≡ store.old)) }
    ensures back { OnErr result ((edits.new ≡ edits.old) × IsReverted edit store.old store.new) }
{
    if let Err(edit) = edits.push(edit) {
        store.revert(edit);
        return Err(NoMemory);
    }
    Ok(())
}

// Takes edits back, the last one first.
pub(crate) fn take_back(store: &mut Store, edits: List<Edit>)
    requires fits { (before : Held) × LeadBack before (reverse edits) store.old }
    ensures { (before : Held) → LeadBack before (reverse edits) store.old → IsBack before store.new }
{
    let mut left = edits;
    while let Some(edit) = left.pop() {
        store.revert(edit);
    }
}
