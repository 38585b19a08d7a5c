// A model by its slots.
ghost use Rattle.std.specs.Prelude.{◌≡◌, Some};
ghost use Rattle.vt_graph.specs.Asked.{class_at};
ghost use Rattle.vt_graph.specs.Room.{HasRoom, class_kept};

use crate::plan::ClassPlan;
use std::marker::Model;
use vt_base::{ClassId, List, ObjId};
use vt_model::Metamodel;
use vt_slots::Slots;

/// A model by its slots: objects are found by number and by name, links stand at both their ends,
/// and each class has a listing of its objects.
#[derive(Drop)]
pub struct Graph {
    pub(crate) meta: Metamodel,
    // A plan and a listing for each class.
    pub(crate) plans: Vec<ClassPlan>,
    // A deleted object's place in a listing stays.
    pub(crate) listings: Vec<List<ObjId>>,
    pub(crate) next: u32,
    pub(crate) slots: Slots,
}

impl Model for Graph {
    ghost use Rattle.vt_graph.specs.Held.{Held};
    ghost use Rattle.vt_graph.specs.Inside.Stored.{model_of, places_of};
    ghost use Rattle.vt_graph.specs.Inside.Planned.{ArePlans, AreListings};
    ghost use Rattle.vt_graph.specs.Inside.Indexed.{IsIndexed};

    ghost Value = { Held };

    ghost view = { λ g. record { meta = g.meta; model = model_of g.next g.slots; places = places_of g.slots } };

    ghost invariant = { λ g. IsIndexed g.meta g.next g.slots
        × ArePlans g.meta g.plans.items
        × AreListings g.meta g.slots g.listings.items };
}

impl Graph {
    /// The metamodel of the model. Of every graph it is known that its links fit in the room that is
    /// kept, and that the classes of its objects are kept.
    pub fn meta(&self) -> &Metamodel
        ensures value { result.now ≡ self.now.meta }
        ensures room { HasRoom self.now.places self.now.model }
        ensures classes { (o : ObjId) (c : ClassId) → class_at self.now.model o ≡ Some c → class_kept self.now.places o ≡ Some c }
    {
        &self.meta
    }

    /// The number that the next object gets.
    pub fn next(&self) -> u32
        ensures { result ≡ self.now.model.next }
    {
        self.next
    }
}
