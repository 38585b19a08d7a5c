// What a transaction did, and the way back.
ghost use Rattle.std.specs.Prelude.{◌≡◌};
ghost use Rattle.vt_graph.specs.Held.{Held};
ghost use Rattle.vt_change.specs.Leading.{IsBack, LeadsBack, CanUndo};

use crate::returning::take_back;
use vt_base::{List, ObjId};
use vt_delta::BaseDelta;
use vt_store::{Edit, Store};

/// What a transaction did to a store.
#[derive(Drop)]
pub struct Applied {
    pub(crate) delta: BaseDelta,
    pub(crate) touched: List<ObjId>,
    // In the order in which the changes were made.
    pub(crate) edits: List<Edit>,
}

impl Applied {
    /// The net change of the model's rows: what was made and unmade leaves nothing in it.
    pub fn delta(&self) -> &BaseDelta
        ensures { result.now ≡ self.now.delta }
    {
        &self.delta
    }

    /// The objects that live before and after with other values, in rising order.
    pub fn touched(&self) -> &[ObjId]
        ensures { result.now ≡ self.now.touched }
    {
        self.touched.as_slice()
    }

    /// Takes the transaction back: the store is as before it. It takes no memory and can't fail. It
    /// can be called as long as nothing else changed the store.
    pub fn undo(self, store: &mut Store)
        requires fits { CanUndo self store.old }
        ensures { (before : Held) → LeadsBack before self store.old → IsBack before store.new }
    {
        take_back(store, self.edits);
    }
}
