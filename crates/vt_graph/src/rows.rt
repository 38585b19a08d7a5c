// A graph as queries see it: the rows of its classes, attributes and references.
ghost use Rattle.std.specs.Prelude.{◌≡◌, ◌+◌, ◌≤◌, ◌∷◌, ◌++◌, [], IfOk, OnOk, length, map, slice_get, is_some};
ghost use Rattle.std.specs.Option.{option_copied};
ghost use Rattle.vt_base.specs.declared.value.Value.TheVariants.{Obj};
ghost use Rattle.vt_slots.specs.Slots.{body_at};
ghost use Rattle.vt_graph.specs.Listing.{rows_of, CanList};
ghost use Rattle.vt_graph.specs.Inside.Rowed.{class_listed, listed, targets_in, target_rows, object_rows, rows_listed};

use crate::Graph;
use crate::values::value_of;
use std::alloc::Global;
use std::sync::ledger::Ledger;
use vt_base::{AttrId, ClassId, List, NoMemory, ObjId, Plain, RefId, Rows, Steps, Tuple, Value};
use vt_model::Metamodel;
use vt_slots::{Slot, Slots};

/// What rows are listed of.
#[derive(Clone, Copy, Debug)]
pub enum Listed {
    /// A row for each object of a class and of the classes below it.
    Class(ClassId),
    /// A row for each object with the value that it has for an attribute.
    Attribute(AttrId),
    /// A row for each source with each of its targets for a reference.
    Reference(RefId),
}

// ---- what a slot tells

fn is_live(slots: &Slots, o: ObjId) -> bool
    ensures { result ≡ is_some (body_at slots.now o) }
{
    match slots.at(o) {
        Some(slot) => slot.body.is_some(),
        None => false,
    }
}

fn targets_of(slots: &Slots, o: ObjId, r: RefId) -> &[ObjId]
    ensures { result.now ≡ targets_in r (body_at slots.now o) }
{
    match slots.at(o) {
        Some(slot) => match &slot.body {
            Some(body) => body.outgoing.objects(r),
            None => &[],
        },
        None => &[],
    }
}

fn pair(alloc: Global, object: ObjId, value: Value) -> Result<Tuple, NoMemory>
    ensures { IfOk result (λ row. row ≡ Obj object ∷ value ∷ []) }
{
    Tuple::from_slice(alloc, &[Value::Obj(object), value])
}

// ---- listings

// The class over whose objects the rows go. `None` is of an attribute or a reference that isn't there.
fn class_listed(meta: &Metamodel, of: Listed) -> Option<ClassId>
    ensures { result ≡ class_listed meta.now of }
{
    match of {
        Listed::Class(c) => Some(c),
        Listed::Attribute(a) => Some(meta.attribute(a)?.class),
        Listed::Reference(r) => Some(meta.reference(r)?.class),
    }
}

// The listing of a class. `None` is of a class that isn't there.
fn listing_of(listings: &[List<ObjId>], c: ClassId) -> Option<&[ObjId]>
    ensures { option_copied result ≡ slice_get listings.now c.0 }
{
    let listing = listings.get(c.0 as usize)?;
    Some(listing.as_slice())
}

// The numbers of all objects that were ever made.
fn all_numbers(alloc: Global, slots: &[Slot]) -> Result<List<ObjId>, NoMemory>
    ensures { IfOk result (λ numbers. numbers ≡ map (λ s. s.number) slots.now) }
{
    let mut numbers = List::new(alloc);
    for slot in slots {
        numbers.add(slot.number)?;
    }
    Ok(numbers)
}

// ---- rows over a listing

fn add_targets<L: Ledger>(
    alloc: Global,
    rows: &mut Vec<Tuple>,
    o: ObjId,
    targets: &[ObjId],
    steps: &mut Steps<L>,
) -> Result<(), NoMemory>
    ensures added { OnOk result (rows.new.items ≡ rows.old.items ++ target_rows o targets.now) }
    ensures ticks { OnOk result (steps.new ≡ steps.old + length (target_rows o targets.now)) }
    ensures bound { steps.new ≤ steps.old + length (target_rows o targets.now) }
{
    for target in targets {
        rows.push(pair(alloc, o, Value::Obj(*target))?)?;
        steps.tick();
    }
    Ok(())
}

// Adds the rows that an object gives. A deleted one has none, and its place in a listing stays.
fn add_rows<L: Ledger>(
    alloc: Global,
    rows: &mut Vec<Tuple>,
    slots: &Slots,
    of: Listed,
    o: ObjId,
    steps: &mut Steps<L>,
) -> Result<(), NoMemory>
    ensures added { OnOk result (rows.new.items ≡ rows.old.items ++ object_rows slots.now of o) }
    ensures ticks { OnOk result (steps.new ≡ steps.old + length (object_rows slots.now of o)) }
    ensures bound { steps.new ≤ steps.old + length (object_rows slots.now of o) }
{
    match of {
        Listed::Class(_) => {
            if is_live(slots, o) {
                rows.push(Tuple::from_slice(alloc, &[Value::Obj(o)])?)?;
                steps.tick();
            }
        }
        Listed::Attribute(a) => {
            if let Some(value) = value_of(slots, o, a) {
                rows.push(pair(alloc, o, value.copy(alloc)?)?)?;
                steps.tick();
            }
        }
        Listed::Reference(r) => add_targets(alloc, rows, o, targets_of(slots, o, r), steps)?,
    }
    Ok(())
}

fn rows_over<L: Ledger>(
    alloc: Global,
    slots: &Slots,
    of: Listed,
    listing: &[ObjId],
    steps: &mut Steps<L>,
) -> Result<Vec<Tuple>, NoMemory>
    ensures value { IfOk result (λ rows. rows.items ≡ rows_listed slots.now of listing.now) }
    ensures ticks { IfOk result (λ rows. steps.new ≡ steps.old + length rows.items) }
    ensures bound { steps.new ≤ steps.old + length (rows_listed slots.now of listing.now) }
{
    let mut rows = Vec::new(alloc);
    for o in listing {
        add_rows(alloc, &mut rows, slots, of, *o, steps)?;
    }
    Ok(rows)
}

// The rows over the listing of a class, or over all objects where the class isn't there.
fn rows_of_class<L: Ledger>(
    alloc: Global,
    slots: &Slots,
    listings: &[List<ObjId>],
    of: Listed,
    c: ClassId,
    steps: &mut Steps<L>,
) -> Result<Vec<Tuple>, NoMemory>
    ensures value { IfOk result (λ rows. rows.items ≡ rows_listed slots.now of (listed slots.now listings.now c)) }
    ensures ticks { IfOk result (λ rows. steps.new ≡ steps.old + length rows.items) }
    ensures bound { steps.new ≤ steps.old + length (rows_listed slots.now of (listed slots.now listings.now c)) }
{
    match listing_of(listings, c) {
        Some(listing) => rows_over(alloc, slots, of, listing, steps),
        None => {
            let numbers = all_numbers(alloc, slots.as_slice())?;
            rows_over(alloc, slots, of, numbers.as_slice(), steps)
        }
    }
}

// ---- what is answered

impl Graph {
    /// The rows of a class, an attribute or a reference. Each row ticks once. Links are listed where
    /// each fits its reference.
    pub fn rows<L: Ledger>(
        &self,
        alloc: Global,
        of: Listed,
        steps: &mut Steps<L>,
    ) -> Result<Rows, NoMemory>
        requires there { CanList self.now.meta self.now.model of }
        ensures value { IfOk result (λ found. found.items ≡ rows_of self.now.meta self.now.model of) }
        ensures ticks { IfOk result (λ found. steps.new ≡ steps.old + length found.items) }
        ensures bound { steps.new ≤ steps.old + length (rows_of self.now.meta self.now.model of) }
    {
        match class_listed(&self.meta, of) {
            Some(class) => {
                let listings = self.listings.as_slice();
                let rows = rows_of_class(alloc, &self.slots, listings, of, class, steps)?;
                Rows::from_ascending(alloc, rows)
            }
            None => Ok(Rows::new(alloc)),
        }
    }
}
