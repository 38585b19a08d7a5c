// One object.
ghost use Rattle.std.specs.Prelude.{◌≡◌, IsOk, OnOk, OnErr, IsSome, IsSomeAnd, option_map, option_and_then};
ghost use Rattle.vt_slots.specs.Values.{HasPlace, value_in};
ghost use Rattle.vt_slots.specs.Ends.{AddsEnd, DropsEnd, SameEnds, KeepsRoom, SameRoom, HasSpace, HaveShape};
ghost use Rattle.vt_slots.specs.Slots.{ends_on, bare, bare_body, with_value_at};
ghost use Rattle.vt_slots.specs.Inside.Shape.{slot_ends};

use crate::{Ends, Values};
use vt_base::{AttrId, ClassId, NoMemory, ObjId, RefId, Text, Value};

/// An end of a link: the object stands at its source, or at its target.
#[derive(Clone, Copy, Debug, PartialEq, Eq)]
pub enum Side {
    /// The object is the source of the links.
    Outgoing,
    /// The object is the target of the links.
    Incoming,
}

/// What a live object has.
#[derive(Debug, Drop)]
pub struct Body {
    pub values: Values,
    pub outgoing: Ends,
    pub incoming: Ends,
}

/// What is kept of an object. Where it has no body, it was deleted.
#[derive(Debug, Drop)]
pub struct Slot {
    pub number: ObjId,
    pub name: Text,
    pub class: ClassId,
    pub body: Option<Body>,
}

impl Body {
    /// The ends on a side.
    pub fn ends(&self, side: Side) -> &Ends
        ensures { result.now ≡ ends_on side self.now }
    {
        match side {
            Side::Outgoing => &self.outgoing,
            Side::Incoming => &self.incoming,
        }
    }

    // Adds an object to those of a reference on a side. Where it stands already, nothing changes.
    fn insert_end(&mut self, side: Side, r: RefId, o: ObjId) -> Result<(), NoMemory>
        ensures bare { bare_body self.new ≡ bare_body self.old }
        ensures there { OnOk result (AddsEnd (ends_on side self.old) (ends_on side self.new) r o) }
        ensures unchanged { OnErr result (SameEnds (ends_on side self.old) (ends_on side self.new)) }
        ensures others { (t : Side) → (t ≡ side → ⊥) → ends_on t self.new ≡ ends_on t self.old }
        ensures room { KeepsRoom (ends_on side self.old) (ends_on side self.new) }
        ensures succeeds { HasSpace (ends_on side self.old) r → IsOk result }
        ensures shape { HaveShape (ends_on side self.new) }
    {
        match side {
            Side::Outgoing => self.outgoing.insert(r, o),
            Side::Incoming => self.incoming.insert(r, o),
        }
    }

    // Takes an object out of those of a reference on a side, where it stands there.
    fn remove_end(&mut self, side: Side, r: RefId, o: ObjId)
        ensures bare { bare_body self.new ≡ bare_body self.old }
        ensures there { DropsEnd (ends_on side self.old) (ends_on side self.new) r o }
        ensures others { (t : Side) → (t ≡ side → ⊥) → ends_on t self.new ≡ ends_on t self.old }
        ensures room { SameRoom (ends_on side self.old) (ends_on side self.new) }
        ensures shape { HaveShape (ends_on side self.new) }
    {
        match side {
            Side::Outgoing => self.outgoing.remove(r, o),
            Side::Incoming => self.incoming.remove(r, o),
        }
    }
}

impl Slot {
    // Puts a value, or none, at an attribute's place. The answer is what was there.
    pub(crate) fn put_value(&mut self, a: AttrId, value: Option<Value>) -> Option<Value>
        requires there { IsSomeAnd self.old.body (λ body. HasPlace body.values a) }
        ensures taken { result ≡ option_and_then (λ body. value_in body.values a) self.old.body }
        ensures put { self.new ≡ record self.old { body = option_map (with_value_at a value) self.old.body } }
    {
        match &mut self.body {
            Some(body) => body.values.put(a, value),
            None => None,
        }
    }

    // Adds an object to those of a reference on a side. Where it stands already, nothing changes.
    pub(crate) fn insert_end(&mut self, side: Side, r: RefId, o: ObjId) -> Result<(), NoMemory>
        requires live { IsSome self.old.body }
        ensures bare { bare self.new ≡ bare self.old }
        ensures there { OnOk result (AddsEnd (slot_ends side self.old) (slot_ends side self.new) r o) }
        ensures unchanged { OnErr result (SameEnds (slot_ends side self.old) (slot_ends side self.new)) }
        ensures others { (t : Side) → (t ≡ side → ⊥) → slot_ends t self.new ≡ slot_ends t self.old }
        ensures room { KeepsRoom (slot_ends side self.old) (slot_ends side self.new) }
        ensures succeeds { HasSpace (slot_ends side self.old) r → IsOk result }
        ensures shape { HaveShape (slot_ends side self.new) }
    {
        match &mut self.body {
            Some(body) => body.insert_end(side, r, o),
            None => Ok(()),
        }
    }

    // Takes an object out of those of a reference on a side, where it stands there.
    pub(crate) fn remove_end(&mut self, side: Side, r: RefId, o: ObjId)
        ensures bare { bare self.new ≡ bare self.old }
        ensures there { DropsEnd (slot_ends side self.old) (slot_ends side self.new) r o }
        ensures others { (t : Side) → (t ≡ side → ⊥) → slot_ends t self.new ≡ slot_ends t self.old }
        ensures room { SameRoom (slot_ends side self.old) (slot_ends side self.new) }
        ensures shape { HaveShape (slot_ends side self.new) }
    {
        match &mut self.body {
            Some(body) => body.remove_end(side, r, o),
            None => {}
        }
    }
}
