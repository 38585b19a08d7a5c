// Objects that come and go.
ghost use Rattle.std.specs.Prelude.{◌≡◌, ◌<◌, ◌≤◌, length, Contains, IsSome, OnOk, OnErr, Some};
ghost use Rattle.vt_model.specs.Creating.{created};
ghost use Rattle.vt_graph.specs.Asked.{live_at};
ghost use Rattle.vt_graph.specs.Room.{KeepsRoom, KeepsOthersRoom, capacity_at, capacity_in, class_kept};
ghost use Rattle.vt_graph.specs.Passing.{HasNoLinks, HasNoValues, IsLast, IsNew, HasBuried, with_retracted, with_buried, with_raised};

use crate::made::{list, new_body, unlist};
use crate::{Buried, Graph};
use std::alloc::Global;
use vt_base::{ClassId, NoMemory, ObjId, RefId, Text};
use vt_model::Object;
use vt_slots::Side;

impl Graph {
    /// Adds an object after all others, with its attributes at their defaults.
    pub fn append(
        &mut self,
        alloc: Global,
        name: &Text,
        class: ClassId,
        number: u32,
    ) -> Result<(), NoMemory>
        requires fresh { IsNew self.old.model name.now number }
        requires there { class.0 < length self.old.meta.classes }
        ensures added { OnOk result (self.new.model ≡ created self.old.meta self.old.model name.now class number) }
        ensures unchanged { OnErr result (self.new.model ≡ self.old.model) }
        ensures meta { self.new.meta ≡ self.old.meta }
        ensures room { KeepsRoom self.old.places self.new.places }
        ensures class { OnOk result (class_kept self.new.places (record { 0 = number }) ≡ Some class) }
    {
        let plan = &self.plans[usize::from(class.0)];
        let body = new_body(alloc, plan.attributes.as_slice())?;
        self.slots.push(ObjId(number), name.share(), class, body)?;
        let listed = list(&mut self.listings, plan.above.as_slice(), ObjId(number));
        if listed.is_err() {
            self.slots.pop();
            return listed;
        }
        self.next = number + 1;
        Ok(())
    }

    /// Takes out the object with the greatest number, as if it had never been made.
    pub fn retract(&mut self, o: ObjId, next: u32)
        requires live { IsSome (live_at self.old.model o) }
        requires last { IsLast self.old.model o next }
        requires next { next ≤ o.0 }
        requires no_links { HasNoLinks self.old.model o }
        ensures retracted { self.new.model ≡ with_retracted self.old.model o next }
        ensures meta { self.new.meta ≡ self.old.meta }
        ensures room { KeepsOthersRoom o self.old.places self.new.places }
    {
        let slot = self.slots.pop().unwrap();
        let plan = &self.plans[usize::from(slot.class.0)];
        unlist(&mut self.listings, plan.above.as_slice());
        self.next = next;
    }

    /// Takes a live object's body out, which its room goes with. Its number and its name stay taken.
    pub fn bury(&mut self, o: ObjId) -> Buried
        requires live { IsSome (live_at self.old.model o) }
        requires no_links { HasNoLinks self.old.model o }
        requires no_values { HasNoValues self.old.model o }
        ensures was { HasBuried self.old o result }
        ensures buried { self.new.model ≡ with_buried self.old.model result.object }
        ensures meta { self.new.meta ≡ self.old.meta }
        ensures room { KeepsOthersRoom o self.old.places self.new.places }
        ensures class { class_kept self.new.places o ≡ Some result.object.class }
    {
        let slot = self.slots.at(o).unwrap();
        let object = Object {
            number: slot.number,
            name: slot.name.share(),
            class: slot.class,
        };
        let body = self.slots.take_body(o).unwrap();
        Buried {
            meta: self.meta.share(),
            object,
            body,
        }
    }

    /// Lets an object live again that was buried. It takes no memory.
    pub fn raise(&mut self, buried: Buried)
        requires of_meta { buried.meta ≡ self.old.meta }
        requires gone { Contains self.old.model.gone (record { number = buried.object.number; name = buried.object.name }) }
        requires class { class_kept self.old.places buried.object.number ≡ Some buried.object.class }
        ensures raised { self.new.model ≡ with_raised self.old.model buried.object }
        ensures meta { self.new.meta ≡ self.old.meta }
        ensures own_room { (side : Side) (r : RefId) → capacity_at self.new.places buried.object.number side r ≡ capacity_in buried side r }
        ensures room { KeepsRoom self.old.places self.new.places }
    {
        let Buried { object, body, .. } = buried;
        self.slots.give_body(object.number, body);
    }
}
