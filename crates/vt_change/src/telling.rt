// The net change of a model's rows, kept while edits are made one after the other.
ghost use Rattle.std.specs.Prelude.{◌≡◌, ◌<◌, [], ◌∷◌, length, map, fold, All, OnOk};
ghost use Rattle.vt_delta.specs.Changes.{change_of, changes_of, turned_at};
ghost use Rattle.vt_model.specs.Model.{Model};
ghost use Rattle.vt_change.specs.Inside.Telling.{object_rows, value_rows, link_rows, whole_rows, moved, Moves, Turns, HasPlaces, Tells, IsTold};

use std::alloc::Global;
use vt_base::{ClassId, NoMemory, Tuple, Value};
use vt_delta::{BaseDelta, Delta, Deltas};
use vt_graph::Buried;
use vt_model::{AttributeValue, Link, Metamodel, Object};
use vt_store::Edit;

/// Whether rows come or go.
#[derive(Clone, Copy)]
pub(crate) enum Way {
    Coming,
    Going,
}

/// What edits have told so far.
#[derive(Drop)]
pub(crate) struct Told {
    pub(crate) delta: BaseDelta,
    // Of all values, each behind its object and its attribute.
    pub(crate) values: Delta,
}

impl Told {
    // Nothing yet. It takes no memory.
    pub(crate) fn new(alloc: Global, meta: &Metamodel) -> Told
        ensures { (g : Model) → IsTold meta.now g g result }
    {
        let delta = BaseDelta::none(
            alloc,
            usize::from(meta.class_count()),
            usize::from(meta.attr_count()),
            usize::from(meta.ref_count()),
        );
        Told {
            delta,
            values: Delta::new(alloc),
        }
    }
}

// ---- one row

// A row comes to those of a number, or goes from them.
fn tell_at(deltas: &mut Deltas, way: Way, n: u16, row: Tuple) -> Result<(), NoMemory>
    requires there { n < length deltas.old }
    ensures { OnOk result (changes_of deltas.new ≡ turned_at (λ change. moved way change row) (changes_of deltas.old) n) }
{
    match way {
        Way::Coming => deltas.row_comes(n, row),
        Way::Going => deltas.row_goes(n, row),
    }
}

fn tell_row(delta: &mut Delta, way: Way, row: Tuple) -> Result<(), NoMemory>
    ensures { OnOk result (change_of delta.new ≡ moved way (change_of delta.old) row) }
{
    match way {
        Way::Coming => delta.row_comes(row),
        Way::Going => delta.row_goes(row),
    }
}

// ---- objects

// An object comes to its class and to each class above it, or goes from them.
fn tell_object(
    classes: &mut Deltas,
    alloc: Global,
    meta: &Metamodel,
    way: Way,
    object: &Object,
) -> Result<(), NoMemory>
    requires count { length classes.old ≡ length meta.now.classes }
    ensures { OnOk result (Moves way (object_rows meta.now (object.now ∷ [])) classes.old classes.new) }
{
    for c in 0..meta.class_count() {
        if meta.isa(object.class, ClassId(c)) {
            let row = Tuple::from_slice(alloc, &[Value::Obj(object.number)])?;
            tell_at(classes, way, c, row)?;
        }
    }
    Ok(())
}

// Deleted objects go.
fn tell_deleted(
    classes: &mut Deltas,
    alloc: Global,
    meta: &Metamodel,
    deleted: &[Buried],
) -> Result<(), NoMemory>
    requires count { length classes.old ≡ length meta.now.classes }
    ensures { OnOk result (Moves Way.Going (object_rows meta.now (map (λ b. b.object) deleted.now)) classes.old classes.new) }
{
    for buried in deleted {
        tell_object(classes, alloc, meta, Way::Going, buried.object())?;
    }
    Ok(())
}

fn tell_objects(
    classes: &mut Deltas,
    alloc: Global,
    meta: &Metamodel,
    edit: &Edit,
) -> Result<(), NoMemory>
    requires count { length classes.old ≡ length meta.now.classes }
    ensures { OnOk result (Turns (object_rows meta.now edit.now.edit.live.removed)
        (object_rows meta.now edit.now.edit.live.added) classes.old classes.new) }
{
    tell_deleted(classes, alloc, meta, edit.deleted())?;
    if let Some(object) = edit.created() {
        tell_object(classes, alloc, meta, Way::Coming, object)?;
    }
    Ok(())
}

// ---- values

fn tell_values(
    attributes: &mut Deltas,
    alloc: Global,
    way: Way,
    values: &[AttributeValue],
) -> Result<(), NoMemory>
    requires there { All (λ t. t.attribute.0 < length attributes.old) values.now }
    ensures { OnOk result (Moves way (value_rows values.now) attributes.old attributes.new) }
{
    for held in values {
        let row = Tuple::from_slice(alloc, &[Value::Obj(held.object), held.value.share()])?;
        tell_at(attributes, way, held.attribute.0, row)?;
    }
    Ok(())
}

// Values, each behind its object and its attribute.
fn tell_whole(
    delta: &mut Delta,
    alloc: Global,
    way: Way,
    values: &[AttributeValue],
) -> Result<(), NoMemory>
    ensures { OnOk result (change_of delta.new ≡ fold (moved way) (change_of delta.old) (whole_rows values.now)) }
{
    for held in values {
        let attribute = Value::Int(i64::from(held.attribute.0));
        let row = Tuple::from_slice(
            alloc,
            &[Value::Obj(held.object), attribute, held.value.share()],
        )?;
        tell_row(delta, way, row)?;
    }
    Ok(())
}

// ---- links

fn tell_links(
    references: &mut Deltas,
    alloc: Global,
    way: Way,
    links: &[Link],
) -> Result<(), NoMemory>
    requires there { All (λ l. l.reference.0 < length references.old) links.now }
    ensures { OnOk result (Moves way (link_rows links.now) references.old references.new) }
{
    for link in links {
        let row = Tuple::from_slice(alloc, &[Value::Obj(link.source), Value::Obj(link.target)])?;
        tell_at(references, way, link.reference.0, row)?;
    }
    Ok(())
}

// ---- an edit

// What went goes first: a value may come where the object had another.
pub(crate) fn tell(
    told: &mut Told,
    alloc: Global,
    meta: &Metamodel,
    edit: &Edit,
) -> Result<(), NoMemory>
    requires there { HasPlaces meta.now edit.now.edit told.old }
    ensures { OnOk result (Tells meta.now edit.now.edit told.old told.new) }
{
    let delta = &mut told.delta;
    tell_objects(&mut delta.classes, alloc, meta, edit)?;
    let (came, went) = edit.values();
    tell_values(&mut delta.attributes, alloc, Way::Going, went)?;
    tell_values(&mut delta.attributes, alloc, Way::Coming, came)?;
    tell_whole(&mut told.values, alloc, Way::Going, went)?;
    tell_whole(&mut told.values, alloc, Way::Coming, came)?;
    let (came, went) = edit.links();
    tell_links(&mut delta.references, alloc, Way::Going, went)?;
    tell_links(&mut delta.references, alloc, Way::Coming, came)
}
