// A typed model that takes changes, and takes them back.
ghost use Rattle.std.specs.Prelude.{◌≡◌, ◌≤◌, ◌++◌, [], IfOk};
ghost use Rattle.std.specs.Option.{option_copied};
ghost use Rattle.vt_model.specs.Model.{empty_model};
ghost use Rattle.vt_model.specs.Sound.{IsSound};
ghost use Rattle.vt_model.specs.Valid.{IsValid};
ghost use Rattle.vt_base.specs.declared.numbers.AttrId.{AttrId};
ghost use Rattle.vt_slots.specs.Values.{AttributesRise, value_in};
ghost use Rattle.vt_slots.specs.declared.slot.Side.TheVariants.{Outgoing, Incoming};
ghost use Rattle.vt_graph.specs.Asked.{seen_of, name_at, class_at, value_at, others_at};
ghost use Rattle.vt_store.specs.Edits.{undone};
ghost use Rattle.vt_store.specs.Undoing.{KeepsRoomOf, Fits};

use crate::edit::Edit;
use crate::reverting::revert;
use std::alloc::Global;
use std::marker::Model;
use vt_base::{AttrId, ClassId, NoMemory, ObjId, RefId, Text, Value};
use vt_graph::{Graph, Seen};
use vt_model::Metamodel;
use vt_slots::{Held, Side};

/// A typed model. It takes one change at a time, refuses each that would break it, and takes back
/// what a change did.
#[derive(Drop)]
pub struct Store {
    pub(crate) graph: Graph,
}

impl Model for Store {
    ghost use Rattle.vt_model.specs.Sound.{IsSound};
    ghost use Rattle.vt_model.specs.Valid.{IsValid};
    ghost use Rattle.vt_graph.specs.Held.{Held};

    ghost Value = { Held };

    ghost view = { λ s. s.graph };

    ghost invariant = { λ s. IsSound s.graph.meta × IsValid s.graph.meta s.graph.model };
}

// ---- the store, and what it answers

impl Store {
    /// The empty model of a metamodel. Its next number is 0.
    #[tactic(auto, using(crate::proofs::StoreLemmas::valid_empty))]
    pub fn new(alloc: Global, meta: &Metamodel) -> Result<Store, NoMemory>
        ensures { IfOk result (λ s. s ≡ record { meta = meta.now; model = empty_model; places = [] }) }
    {
        // A metamodel tells that it is sound, as a store's has to be.
        meta.is_sound();
        let graph = Graph::new(alloc, meta)?;
        Ok(Store { graph })
    }

    /// The metamodel of the model. Of every store it is known that its model is valid.
    pub fn meta(&self) -> &Metamodel
        ensures value { result.now ≡ self.now.meta }
        ensures sound { IsSound self.now.meta }
        ensures valid { IsValid self.now.meta self.now.model }
    {
        self.graph.meta()
    }

    /// The number that the next object gets.
    pub fn next_number(&self) -> u32
        ensures { result ≡ self.now.model.next }
    {
        self.graph.next()
    }

    /// What became of a name.
    pub fn find_name(&self, name: &str) -> Seen
        ensures { result ≡ seen_of self.now.model name.now }
    {
        self.graph.seen(name)
    }

    /// The name of an object, live or deleted.
    pub fn name_of(&self, o: ObjId) -> Option<&Text>
        ensures { option_copied result ≡ name_at self.now.model o }
    {
        self.graph.name_of(o)
    }

    /// The class of a live object.
    pub fn class_of(&self, o: ObjId) -> Option<ClassId>
        ensures { result ≡ class_at self.now.model o }
    {
        self.graph.class_of(o)
    }

    /// The value that an object has for an attribute.
    pub fn attrs(&self, o: ObjId, a: AttrId) -> Option<&Value>
        ensures { option_copied result ≡ value_at self.now.model o a }
    {
        self.graph.value(o, a)
    }

    /// The places of an object's values, one for each attribute that its class has, in rising order.
    /// None of an object that isn't live.
    pub fn values(&self, o: ObjId) -> &[Held]
        ensures value { (a : AttrId) → value_in result.now a ≡ value_at self.now.model o a }
        ensures rises { AttributesRise result.now }
    {
        self.graph.values(o)
    }

    /// The targets of the links of a reference that lead from an object, in rising number.
    pub fn targets(&self, o: ObjId, r: RefId) -> &[ObjId]
        ensures { result.now ≡ others_at self.now.model o Outgoing r }
    {
        self.graph.others(o, Side::Outgoing, r)
    }

    /// The sources of the links of a reference that lead to an object, in rising number.
    pub fn sources(&self, o: ObjId, r: RefId) -> &[ObjId]
        ensures { result.now ≡ others_at self.now.model o Incoming r }
    {
        self.graph.others(o, Side::Incoming, r)
    }

    /// The numbers below this one are given to no new object.
    #[tactic(auto, using(crate::proofs::StoreLemmas::valid_next))]
    pub fn skip_to(&mut self, number: u32)
        requires above { self.old.model.next ≤ number }
        requires in_range { number ≤ 1048576 }
        ensures next { self.new.model ≡ record self.old.model { next = number } }
        ensures meta { self.new.meta ≡ self.old.meta }
        ensures places { self.new.places ≡ self.old.places }
    {
        self.graph.set_next(number);
    }
}

// ---- taking back

impl Store {
    /// Takes back what a change did: the model is as it would be without it. It takes no memory and
    /// can't fail.
    pub fn revert(&mut self, edit: Edit)
        requires fits { Fits edit self.old }
        ensures made { self.new.model ≡ undone edit.edit self.old.model }
        ensures meta { self.new.meta ≡ self.old.meta }
        ensures room { KeepsRoomOf self.new.model (edit.waiting ++ self.old.places) self.new.places }
    {
        revert(&mut self.graph, edit);
    }
}
