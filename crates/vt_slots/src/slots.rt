// All objects that ever were, by number and by name.
ghost use Rattle.std.specs.Prelude.{◌≡◌, ◌<◌, [], ◌∷◌, ◌++◌, All, map, length, None, Some, slice_get, IsSome, IsSomeAnd, IsOk, OnOk, OnErr, MatchOption};
ghost use Rattle.std.specs.Option.{option_copied};
ghost use Rattle.vt_slots.specs.Values.{HasPlace};
ghost use Rattle.vt_slots.specs.Ends.{AddsEnd, DropsEnd, SameEnds, KeepsRoom, SameRoom, HasSpace, HaveShape};
ghost use Rattle.vt_slots.specs.Slots.{NumbersRise, NamesDiffer, live_slot, slot_at, slot_named, body_at, ends_at, slot_value, with_body, with_slot_value, bare, OtherEndsStay};
ghost use Rattle.vt_slots.specs.Inside.Place.{IsPlace, StandsAt};

use crate::name::Name;
use crate::{Body, Side, Slot};
use indexmap::IndexSet;
use std::alloc::Global;
use std::marker::Model;
use vt_base::{AttrId, ClassId, NoMemory, ObjId, RefId, Text, Value};

/// A slot for each object that ever was, in rising order of number.
#[derive(Drop)]
pub struct Slots {
    slots: Vec<Slot>,
    // The names of the slots, in their sequence.
    names: IndexSet<Name>,
}

impl Model for Slots {
    ghost use Rattle.std.specs.Prelude.{◌≡◌, List, map};
    ghost use Rattle.vt_slots.specs.declared.slot.Slot.{Slot};
    ghost use Rattle.vt_slots.specs.Slots.{NumbersRise, NamesDiffer};

    ghost Value = { List Slot };

    ghost view = { λ s. s.slots.items };

    ghost invariant = { λ s. NumbersRise s.slots.items
        × NamesDiffer s.slots.items
        × (s.names.keys ≡ map (λ slot. slot.name) s.slots.items) };
}

impl Slots {
    /// No slots. It takes no memory.
    pub fn new(alloc: Global) -> Slots
        ensures { result ≡ [] }
    {
        Slots {
            slots: Vec::new(alloc),
            names: IndexSet::new(alloc),
        }
    }

    pub fn len(&self) -> usize
        ensures { result ≡ length self.now }
    {
        self.slots.len()
    }

    pub fn as_slice(&self) -> &[Slot]
        ensures value { result.now ≡ self.now }
        ensures numbers_rise { NumbersRise result.now }
        ensures names_differ { NamesDiffer result.now }
    {
        self.slots.as_slice()
    }

    /// The slot with a number. `None` is of a number that no slot has.
    pub fn at(&self, o: ObjId) -> Option<&Slot>
        ensures { option_copied result ≡ slot_at self.now o }
    {
        match place_of(self.slots.as_slice(), o) {
            Ok(i) => slot_in(self.slots.as_slice(), i),
            Err(_) => None,
        }
    }

    /// The slot with a name. `None` is of a name that no slot has.
    pub fn named(&self, name: &str) -> Option<&Slot>
        ensures { option_copied result ≡ slot_named self.now name.now }
    {
        match self.names.get_index_of(name) {
            Some(i) => slot_in(self.slots.as_slice(), i),
            None => None,
        }
    }

    /// Adds the slot of a new object at the end.
    pub fn push(
        &mut self,
        number: ObjId,
        name: Text,
        class: ClassId,
        body: Body,
    ) -> Result<(), NoMemory>
        requires above { All (λ s. s.number.0 < number.0) self.old }
        requires fresh { slot_named self.old name ≡ None }
        ensures added { OnOk result (self.new ≡ self.old ++ live_slot number name class body ∷ []) }
        ensures unchanged { OnErr result (self.new ≡ self.old) }
    {
        self.slots.reserve(1)?;
        self.names.insert(Name { text: name.share() })?;
        self.slots.push(Slot {
            number,
            name,
            class,
            body: Some(body),
        })?;
        Ok(())
    }

    /// Takes the last slot out, and its name with it.
    pub fn pop(&mut self) -> Option<Slot>
        ensures { MatchOption result
            ((self.old ≡ []) × (self.new ≡ []))
            (λ last. self.old ≡ self.new ++ last ∷ []) }
    {
        let slot = self.slots.pop()?;
        self.names.pop();
        Some(slot)
    }

    /// Takes the body of an object out. `None` is of an object that isn't live.
    #[tactic(auto, using(crate::proofs::PlaceLemmas::inside_stands))]
    pub fn take_body(&mut self, o: ObjId) -> Option<Body>
        ensures taken { result ≡ body_at self.old o }
        ensures left { self.new ≡ with_body self.old o None }
    {
        match place_of(self.slots.as_slice(), o) {
            Ok(i) => self.slots[i].body.take(),
            Err(_) => None,
        }
    }

    /// Gives an object a body. One that it has already is dropped.
    #[tactic(auto, using(crate::proofs::PlaceLemmas::inside_stands))]
    pub fn give_body(&mut self, o: ObjId, body: Body)
        requires there { IsSome (slot_at self.old o) }
        ensures { self.new ≡ with_body self.old o (Some body) }
    {
        let i = place_there(self.slots.as_slice(), o);
        self.slots[i].body = Some(body);
    }

    /// Puts a value, or none, at the place of an object's attribute. The answer is what was there.
    #[tactic(auto, using(crate::proofs::PlaceLemmas::inside_stands))]
    pub fn put_value(&mut self, o: ObjId, a: AttrId, value: Option<Value>) -> Option<Value>
        requires there { IsSomeAnd (body_at self.old o) (λ body. HasPlace body.values a) }
        ensures taken { result ≡ slot_value self.old o a }
        ensures put { self.new ≡ with_slot_value self.old o a value }
    {
        let i = place_there(self.slots.as_slice(), o);
        self.slots[i].put_value(a, value)
    }

    /// Adds an object to those at the ends of an object's links of a reference, on a side. Where it
    /// stands there already, nothing changes. It never fails where there is room.
    #[tactic(auto, using(crate::proofs::PlaceLemmas::inside_stands))]
    pub fn insert_end(
        &mut self,
        o: ObjId,
        side: Side,
        r: RefId,
        other: ObjId,
    ) -> Result<(), NoMemory>
        requires live { IsSome (body_at self.old o) }
        ensures bare { map bare self.new ≡ map bare self.old }
        ensures there { OnOk result (AddsEnd (ends_at self.old o side) (ends_at self.new o side) r other) }
        ensures unchanged { OnErr result (SameEnds (ends_at self.old o side) (ends_at self.new o side)) }
        ensures others { OtherEndsStay self.old self.new o side }
        ensures room { KeepsRoom (ends_at self.old o side) (ends_at self.new o side) }
        ensures succeeds { HasSpace (ends_at self.old o side) r → IsOk result }
        ensures shape { HaveShape (ends_at self.new o side) }
    {
        let i = place_there(self.slots.as_slice(), o);
        self.slots[i].insert_end(side, r, other)
    }

    /// Takes an object out of those at the ends of an object's links of a reference, on a side. The
    /// room stays.
    #[tactic(auto, using(crate::proofs::PlaceLemmas::inside_stands))]
    pub fn remove_end(&mut self, o: ObjId, side: Side, r: RefId, other: ObjId)
        ensures bare { map bare self.new ≡ map bare self.old }
        ensures there { DropsEnd (ends_at self.old o side) (ends_at self.new o side) r other }
        ensures others { OtherEndsStay self.old self.new o side }
        ensures room { SameRoom (ends_at self.old o side) (ends_at self.new o side) }
        ensures shape { HaveShape (ends_at self.new o side) }
    {
        match place_of(self.slots.as_slice(), o) {
            Ok(i) => self.slots[i].remove_end(side, r, other),
            Err(_) => {}
        }
    }
}

// The slot at a place.
fn slot_in(slots: &[Slot], i: usize) -> Option<&Slot>
    ensures { option_copied result ≡ slice_get slots.now i }
{
    slots.get(i)
}

// Where the slot of an object stands, or else where it would.
fn place_of(slots: &[Slot], o: ObjId) -> Result<usize, usize>
    requires { NumbersRise slots.now }
    ensures { IsPlace (λ s. s.number.0) o.0 slots.now result }
{
    slots.binary_search_by_key(&o.0, |slot| slot.number.0)
}

// Where the slot of an object stands that has one.
fn place_there(slots: &[Slot], o: ObjId) -> usize
    requires rises { NumbersRise slots.now }
    requires there { IsSome (slot_at slots.now o) }
    ensures { StandsAt (λ s. s.number.0) o.0 slots.now result }
{
    match place_of(slots, o) {
        Ok(i) => i,
        Err(_) => 0,
    }
}
