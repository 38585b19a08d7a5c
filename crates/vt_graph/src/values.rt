// The values of objects, and the next number.
ghost use Rattle.std.specs.Prelude.{◌≡◌, ◌<◌, ◌≤◌, All};
ghost use Rattle.std.specs.Option.{option_copied};
ghost use Rattle.vt_base.specs.declared.numbers.AttrId.{AttrId};
ghost use Rattle.vt_model.specs.Assigning.{with_default_value};
ghost use Rattle.vt_slots.specs.Values.{AttributesRise, value_in};
ghost use Rattle.vt_slots.specs.Slots.{slot_value};
ghost use Rattle.vt_graph.specs.Asked.{value_at};
ghost use Rattle.vt_graph.specs.Having.{HasAttribute};

use crate::Graph;
use vt_base::{AttrId, ObjId, Value};
use vt_slots::{Held, Slots};

impl Graph {
    /// The value that an object has for an attribute. `None` is of an attribute without a value, and
    /// of an object that isn't live.
    pub fn value(&self, o: ObjId, a: AttrId) -> Option<&Value>
        ensures { option_copied result ≡ value_at self.now.model o a }
    {
        value_of(&self.slots, o, a)
    }

    /// The places of an object's values, one for each attribute that its class has, in rising order.
    /// None of an object that isn't live.
    pub fn values(&self, o: ObjId) -> &[Held]
        ensures value { (a : AttrId) → value_in result.now a ≡ value_at self.now.model o a }
        ensures rises { AttributesRise result.now }
    {
        values_of(&self.slots, o)
    }

    /// Gives a live object a value for an attribute, or takes the value out. The answer is what it
    /// had.
    pub fn put_value(&mut self, o: ObjId, a: AttrId, value: Option<Value>) -> Option<Value>
        requires had { HasAttribute self.old.meta self.old.model o a }
        ensures taken { result ≡ value_at self.old.model o a }
        ensures put { self.new.model ≡ with_default_value self.old.model o a value }
        ensures meta { self.new.meta ≡ self.old.meta }
        ensures places { self.new.places ≡ self.old.places }
    {
        self.slots.put_value(o, a, value)
    }

    /// Sets the number that the next object gets. It is above those of all objects.
    pub fn set_next(&mut self, n: u32)
        requires live { All (λ o. o.number.0 < n) self.old.model.live }
        requires gone { All (λ o. o.number.0 < n) self.old.model.gone }
        requires in_range { n ≤ 1048576 }
        ensures next { self.new.model ≡ record self.old.model { next = n } }
        ensures meta { self.new.meta ≡ self.old.meta }
        ensures places { self.new.places ≡ self.old.places }
    {
        self.next = n;
    }
}

// The value that an object has, by its slot.
pub(crate) fn value_of(slots: &Slots, o: ObjId, a: AttrId) -> Option<&Value>
    ensures { option_copied result ≡ slot_value slots.now o a }
{
    let slot = slots.at(o)?;
    match &slot.body {
        Some(body) => body.values.get(a),
        None => None,
    }
}

// The places of an object's values, by its slot.
fn values_of(slots: &Slots, o: ObjId) -> &[Held]
    ensures value { (a : AttrId) → value_in result.now a ≡ slot_value slots.now o a }
    ensures rises { AttributesRise result.now }
{
    match slots.at(o) {
        Some(slot) => match &slot.body {
            Some(body) => body.values.as_slice(),
            None => &[],
        },
        None => &[],
    }
}
