// A transaction that is made as a whole, or not at all.
ghost use Rattle.std.specs.Prelude.{◌≡◌, ◌<◌, ◌^◌, ℕ, [], length, reverse, Ok, Err, OnOk, IfOk};
ghost use Rattle.vt_delta.specs.Deltas.{IsNet};
ghost use Rattle.vt_model.specs.Base.{base_of};
ghost use Rattle.vt_model.specs.Touched.{AreTouched};
ghost use Rattle.vt_model.specs.Transaction.{transaction};
ghost use Rattle.vt_model.specs.declared.change.Refusal.{Refusal};
ghost use Rattle.vt_change.specs.Applying.{Applies};
ghost use Rattle.vt_change.specs.Leading.{LeadBack};
ghost use Rattle.vt_change.specs.declared.fault.ApplyFault.TheVariants as fault;

use crate::naming::named;
use crate::returning::take_back;
use crate::telling::Told;
use crate::working::make_all;
use crate::{Applied, ApplyFault};
use std::alloc::Global;
use vt_base::{List, ObjId};
use vt_delta::BaseDelta;
use vt_model::Change;
use vt_store::{Edit, Store};

// What a transaction changed.
#[derive(Drop)]
struct Difference {
    delta: BaseDelta,
    touched: List<ObjId>,
}

// Makes the changes, up to the first that isn't made, and keeps their edits.
fn make_told(
    alloc: Global,
    store: &mut Store,
    edits: &mut List<Edit>,
    changes: &[Change],
) -> Result<Difference, ApplyFault>
    requires few { length changes.now < 2 ^ 32 }
    requires begins { edits.old ≡ [] }
    ensures meta { OnOk result (store.new.meta ≡ store.old.meta) }
    ensures made { OnOk result (transaction store.old.meta store.old.model changes.now ≡ Ok store.new.model) }
    ensures refused { (at : ℕ) (why : Refusal) → result ≡ Err (fault.Refused at why)
        → transaction store.old.meta store.old.model changes.now ≡ Err (record { at = at; why = why }) }
    ensures delta { IfOk result (λ d. IsNet (base_of store.old.meta store.old.model) (base_of store.old.meta store.new.model) d.delta) }
    ensures touched { IfOk result (λ d. AreTouched store.old.model store.new.model d.touched) }
    ensures back { LeadBack store.old (reverse edits.new) store.new }
{
    let mut told = Told::new(alloc, store.meta());
    let next = store.next_number();
    make_all(alloc, store, &mut told, edits, changes)?;
    // It tells that the model is valid.
    store.meta();
    let touched = named(alloc, store, next, &told.values)?;
    Ok(Difference {
        delta: told.delta,
        touched,
    })
}

/// Makes the changes one after the other, or none of them: where one is refused or memory runs out,
/// those before it are taken back.
pub fn try_apply(
    alloc: Global,
    store: &mut Store,
    changes: &[Change],
) -> Result<Applied, ApplyFault>
    requires few { length changes.now < 2 ^ 32 }
    ensures { Applies changes.now store.old store.new result }
{
    let mut edits = List::new(alloc);
    match make_told(alloc, store, &mut edits, changes) {
        Ok(Difference { delta, touched }) => Ok(Applied {
            delta,
            touched,
            edits,
        }),
        Err(fault) => {
            take_back(store, edits);
            Err(fault)
        }
    }
}
