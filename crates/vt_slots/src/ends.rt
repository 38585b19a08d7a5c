// The ends of one object on one side.
ghost use Rattle.std.specs.Prelude.{◌≡◌, ◌≤◌, ◌<◌, ◌==◌, [], ◌∷◌, not, All, length, filter, IfOk, IsOk, OnOk, OnErr};
ghost use Rattle.std.specs.BTreeSet.{insert_key};
ghost use Rattle.vt_slots.specs.Ends.{number_order, ObjectsRise, ReferencesRise, objects_of, capacity_of, AddsEnd, DropsEnd, SameEnds, KeepsRoom, SameRoom, HasSpace};
ghost use Rattle.vt_slots.specs.Inside.Place.{IsPlace};

use std::alloc::Global;
use std::marker::Model;
use vt_base::{NoMemory, ObjId, RefId};

/// The objects at the other end of the links of a reference, in rising order. Contracts see beside
/// them how many it holds before it needs memory.
#[derive(Debug, Drop)]
pub struct EndList {
    reference: RefId,
    objects: Vec<ObjId>,
}

impl Model for EndList {
    ghost use Rattle.std.specs.Prelude.{vec_capacity};
    ghost use Rattle.vt_slots.specs.Ends.{EndList, ObjectsRise};

    ghost Value = { EndList };

    ghost view = { λ l. record { reference = l.reference; objects = l.objects.items; capacity = vec_capacity l.objects } };

    ghost invariant = { λ l. ObjectsRise l.objects.items };
}

impl EndList {
    pub fn reference(&self) -> RefId
        ensures { result ≡ self.now.reference }
    {
        self.reference
    }

    pub fn objects(&self) -> &[ObjId]
        ensures value { result.now ≡ self.now.objects }
        ensures rises { ObjectsRise result.now }
        ensures room { length result.now ≤ self.now.capacity }
    {
        self.objects.as_slice()
    }

    // The list of one object.
    fn single(alloc: Global, reference: RefId, o: ObjId) -> Result<EndList, NoMemory>
        ensures reference { IfOk result (λ list. list.reference ≡ reference) }
        ensures objects { IfOk result (λ list. list.objects ≡ o ∷ []) }
        ensures room { IfOk result (λ list. 1 ≤ list.capacity) }
    {
        let mut objects = Vec::new(alloc);
        objects.push(o)?;
        Ok(EndList { reference, objects })
    }

    // Adds an object. Where it stands already, nothing changes.
    #[tactic(auto, using(crate::proofs::PlaceLemmas::inside_goes))]
    fn insert(&mut self, o: ObjId) -> Result<(), NoMemory>
        ensures reference { self.new.reference ≡ self.old.reference }
        ensures added { OnOk result (self.new.objects ≡ insert_key number_order self.old.objects o) }
        ensures unchanged { OnErr result (self.new.objects ≡ self.old.objects) }
        ensures room { self.old.capacity ≤ self.new.capacity }
        ensures succeeds { length self.old.objects < self.old.capacity → IsOk result }
        ensures rises { ObjectsRise self.new.objects }
        ensures fits { length self.new.objects ≤ self.new.capacity }
    {
        match place_of_object(self.objects.as_slice(), o) {
            Ok(_) => Ok(()),
            Err(i) => {
                self.objects.insert(i, o)?;
                Ok(())
            }
        }
    }

    // Takes an object out, where it stands.
    #[tactic(auto, using(crate::proofs::PlaceLemmas::inside_stands))]
    fn remove(&mut self, o: ObjId)
        ensures reference { self.new.reference ≡ self.old.reference }
        ensures taken { self.new.objects ≡ filter (λ x. not (x.0 == o.0)) self.old.objects }
        ensures room { self.new.capacity ≡ self.old.capacity }
        ensures rises { ObjectsRise self.new.objects }
        ensures fits { length self.new.objects ≤ self.new.capacity }
    {
        match place_of_object(self.objects.as_slice(), o) {
            Ok(i) => {
                self.objects.remove(i);
            }
            Err(_) => {}
        }
    }
}

/// The ends of an object on one side, a list for each reference. A list that became empty stays,
/// with its room.
#[derive(Debug, Drop)]
pub struct Ends {
    lists: Vec<EndList>,
}

impl Model for Ends {
    ghost use Rattle.std.specs.Prelude.{◌≤◌, List, All, length};
    ghost use Rattle.vt_slots.specs.Ends.{EndList, ObjectsRise, ReferencesRise};

    ghost Value = { List EndList };

    ghost view = { λ e. e.lists.items };

    ghost invariant = { λ e. ReferencesRise e.lists.items
        × All (λ l. ObjectsRise l.objects) e.lists.items
        × All (λ l. length l.objects ≤ l.capacity) e.lists.items };
}

impl Ends {
    /// No ends. It takes no memory.
    pub fn new(alloc: Global) -> Ends
        ensures { result ≡ [] }
    {
        Ends {
            lists: Vec::new(alloc),
        }
    }

    pub fn as_slice(&self) -> &[EndList]
        ensures value { result.now ≡ self.now }
        ensures rises { ReferencesRise result.now }
        ensures objects_rise { All (λ l. ObjectsRise l.objects) result.now }
        ensures room { All (λ l. length l.objects ≤ l.capacity) result.now }
    {
        self.lists.as_slice()
    }

    /// The objects at the other end of the links of a reference.
    #[tactic(auto, using(crate::proofs::PlaceLemmas::inside_stands))]
    pub fn objects(&self, r: RefId) -> &[ObjId]
        ensures value { result.now ≡ objects_of self.now r }
        ensures rises { ObjectsRise result.now }
        ensures room { length result.now ≤ capacity_of self.now r }
    {
        match place_of_list(self.lists.as_slice(), r) {
            Ok(i) => self.lists[i].objects(),
            Err(_) => &[],
        }
    }

    /// Adds an object to those of a reference. Where it stands already, nothing changes. It never
    /// fails where there is room.
    #[tactic(auto, using(crate::proofs::PlaceLemmas::inside_stands, crate::proofs::PlaceLemmas::inside_goes))]
    pub fn insert(&mut self, r: RefId, o: ObjId) -> Result<(), NoMemory>
        ensures added { OnOk result (AddsEnd self.old self.new r o) }
        ensures unchanged { OnErr result (SameEnds self.old self.new) }
        ensures room { KeepsRoom self.old self.new }
        ensures succeeds { HasSpace self.old r → IsOk result }
        ensures references_rise { ReferencesRise self.new }
        ensures objects_rise { All (λ l. ObjectsRise l.objects) self.new }
        ensures fits { All (λ l. length l.objects ≤ l.capacity) self.new }
    {
        match place_of_list(self.lists.as_slice(), r) {
            Ok(i) => self.lists[i].insert(o),
            Err(i) => {
                let list = EndList::single(*self.lists.allocator(), r, o)?;
                self.lists.insert(i, list)?;
                Ok(())
            }
        }
    }

    /// Takes an object out of those of a reference, where it stands there. The room stays.
    #[tactic(auto, using(crate::proofs::PlaceLemmas::inside_stands))]
    pub fn remove(&mut self, r: RefId, o: ObjId)
        ensures dropped { DropsEnd self.old self.new r o }
        ensures room { SameRoom self.old self.new }
        ensures references_rise { ReferencesRise self.new }
        ensures objects_rise { All (λ l. ObjectsRise l.objects) self.new }
        ensures fits { All (λ l. length l.objects ≤ l.capacity) self.new }
    {
        match place_of_list(self.lists.as_slice(), r) {
            Ok(i) => self.lists[i].remove(o),
            Err(_) => {}
        }
    }
}

// Where an object stands, or else where it would.
fn place_of_object(objects: &[ObjId], o: ObjId) -> Result<usize, usize>
    requires { ObjectsRise objects.now }
    ensures { IsPlace (λ p. p.0) o.0 objects.now result }
{
    objects.binary_search_by_key(&o.0, |p| p.0)
}

// Where the list of a reference stands, or else where it would.
fn place_of_list(lists: &[EndList], r: RefId) -> Result<usize, usize>
    requires { ReferencesRise lists.now }
    ensures { IsPlace (λ l. l.reference.0) r.0 lists.now result }
{
    lists.binary_search_by_key(&r.0, |list| list.reference().0)
}
