// Links, at both ends of each.
ghost use Rattle.std.specs.Prelude.{◌≡◌, not, All, Contains, filter, option_map, IsSome, IsOk, OnOk, OnErr};
ghost use Rattle.std.specs.BTreeSet.{insert_key};
ghost use Rattle.std.specs.Option.{option_copied};
ghost use Rattle.vt_model.specs.Linking.{link_order, is_link};
ghost use Rattle.vt_slots.specs.Ends.{ReferencesRise, ObjectsRise, objects_of};
ghost use Rattle.vt_slots.specs.Slots.{body_at, ends_on, ends_at};
ghost use Rattle.vt_slots.specs.declared.slot.Side.TheVariants.{Outgoing, Incoming};
ghost use Rattle.vt_graph.specs.Asked.{live_at, others_at};
ghost use Rattle.vt_graph.specs.Room.{KeepsRoom, HasRoomFor};
ghost use Rattle.vt_graph.specs.Inside.Ended.{AreInShape, ChangesOnlyEnds, AddsLink, DropsLink, SameObjects, HasRoomAt};

use crate::graph::Graph;
use vt_base::{NoMemory, ObjId, RefId};
use vt_model::Link;
use vt_slots::{EndList, Ends, Side, Slots};

impl Graph {
    /// The objects at the other ends of an object's links of a reference, in rising order. None of
    /// one that isn't live.
    pub fn others(&self, o: ObjId, side: Side, r: RefId) -> &[ObjId]
        ensures value { result.now ≡ others_at self.now.model o side r }
        ensures rises { ObjectsRise result.now }
    {
        match ends_of(&self.slots, o, side) {
            Some(ends) => ends.objects(r),
            None => &[],
        }
    }

    /// The ends of an object's links on a side, a list for each reference.
    pub fn ends(&self, o: ObjId, side: Side) -> &[EndList]
        ensures objects { (r : RefId) → objects_of result.now r ≡ others_at self.now.model o side r }
        ensures references_rise { ReferencesRise result.now }
        ensures objects_rise { All (λ l. ObjectsRise l.objects) result.now }
    {
        match ends_of(&self.slots, o, side) {
            Some(ends) => ends.as_slice(),
            None => &[],
        }
    }

    /// Adds a link that doesn't stand. It never fails where both its ends have room.
    pub fn add_link(&mut self, link: Link) -> Result<(), NoMemory>
        requires source { IsSome (live_at self.old.model link.source) }
        requires target { IsSome (live_at self.old.model link.target) }
        requires fresh { Contains self.old.model.links link → ⊥ }
        ensures meta { self.new.meta ≡ self.old.meta }
        ensures added { OnOk result (self.new.model ≡ record self.old.model { links = insert_key link_order self.old.model.links link }) }
        ensures unchanged { OnErr result (self.new.model ≡ self.old.model) }
        ensures room { KeepsRoom self.old.places self.new.places }
        ensures succeeds { HasRoomFor self.old link.source Outgoing link.reference → HasRoomFor self.old link.target Incoming link.reference → IsOk result }
    {
        add_ends(&mut self.slots, link)
    }

    /// Drops a link, where it stands. The room at its ends stays.
    pub fn drop_link(&mut self, link: Link)
        ensures meta { self.new.meta ≡ self.old.meta }
        ensures dropped { self.new.model ≡ record self.old.model { links = filter (λ l. not (is_link link l)) self.old.model.links } }
        ensures room { KeepsRoom self.old.places self.new.places }
    {
        drop_ends(&mut self.slots, link);
    }
}

// The ends of an object on a side. `None` is of one that isn't live.
fn ends_of(slots: &Slots, o: ObjId, side: Side) -> Option<&Ends>
    ensures { option_copied result ≡ option_map (ends_on side) (body_at slots.now o) }
{
    match slots.at(o) {
        Some(slot) => match &slot.body {
            Some(body) => Some(body.ends(side)),
            None => None,
        },
        None => None,
    }
}

// Adds a link at both its ends, where it doesn't stand. Where the second end can't be added, the
// first is taken back.
fn add_ends(slots: &mut Slots, link: Link) -> Result<(), NoMemory>
    requires source { IsSome (body_at slots.old link.source) }
    requires target { IsSome (body_at slots.old link.target) }
    requires shape { AreInShape slots.old }
    requires fresh { Contains (objects_of (ends_at slots.old link.source Outgoing) link.reference) link.target → ⊥ }
    ensures ends { ChangesOnlyEnds slots.old slots.new }
    ensures added { OnOk result (AddsLink slots.old slots.new link) }
    ensures unchanged { OnErr result (SameObjects slots.old slots.new) }
    ensures succeeds { HasRoomAt slots.old link.source Outgoing link.reference → HasRoomAt slots.old link.target Incoming link.reference → IsOk result }
{
    slots.insert_end(link.source, Side::Outgoing, link.reference, link.target)?;
    match slots.insert_end(link.target, Side::Incoming, link.reference, link.source) {
        Ok(()) => Ok(()),
        Err(error) => {
            slots.remove_end(link.source, Side::Outgoing, link.reference, link.target);
            Err(error)
        }
    }
}

// Drops a link from both its ends.
fn drop_ends(slots: &mut Slots, link: Link)
    requires shape { AreInShape slots.old }
    ensures ends { ChangesOnlyEnds slots.old slots.new }
    ensures dropped { DropsLink slots.old slots.new link }
{
    slots.remove_end(link.source, Side::Outgoing, link.reference, link.target);
    slots.remove_end(link.target, Side::Incoming, link.reference, link.source);
}
