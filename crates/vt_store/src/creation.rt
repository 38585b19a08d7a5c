// What Create does.
ghost use Rattle.std.specs.Prelude.{◌≡◌, ◌<◌, ◌≤◌, [], false, length, IfOk, IfErr, OnOk, OnErr, Ok, Err};
ghost use Rattle.vt_model.specs.Creating.{is_abstract, is_taken, is_reserved, begins_with_underscore, defaults_from, created};
ghost use Rattle.vt_model.specs.Effect.{effect};
ghost use Rattle.vt_model.specs.Sound.{IsSound};
ghost use Rattle.vt_model.specs.Valid.{IsValid};
ghost use Rattle.vt_model.specs.declared.change.Change.TheVariants as change;
ghost use Rattle.vt_model.specs.declared.change.Refusal.{Refusal};
ghost use Rattle.vt_graph.specs.Passing.{IsNew};
ghost use Rattle.vt_graph.specs.Room.{KeepsRoom};
ghost use Rattle.vt_store.specs.Changing.{Makes};
ghost use Rattle.vt_store.specs.Inside.Kept.{creation};
ghost use Rattle.vt_store.specs.declared.fault.StoreFault.TheVariants as fault;

use crate::edit::Edit;
use crate::fault::StoreFault;
use std::alloc::Global;
use vt_base::{AttrId, ClassId, List, NoMemory, ObjId, Text};
use vt_graph::{Graph, Seen, default_value};
use vt_model::{AttrInfo, AttributeValue, Metamodel, Object, Refusal};

/// A number that no object can have, nor any above it.
const OBJECT_LIMIT: u32 = 1_048_576;

/// The class of a new object, and its number.
#[derive(Clone, Copy, Debug)]
pub(crate) struct NewObject {
    pub(crate) class: ClassId,
    pub(crate) number: u32,
}

// ---- what is asked for

fn is_abstract(meta: &Metamodel, class: ClassId) -> bool
    ensures { result ≡ is_abstract meta.now (Some class) }
{
    match meta.class(class) {
        Some(info) => info.is_abstract,
        None => false,
    }
}

fn is_taken(graph: &Graph, name: &Text) -> bool
    ensures { result ≡ is_taken graph.now.model name.now }
{
    match graph.seen(name.as_str()) {
        Seen::Live(_) | Seen::Gone(_) => true,
        Seen::Never => false,
    }
}

fn begins_with_underscore(name: &str) -> bool
    ensures { result ≡ begins_with_underscore name.now }
{
    match name.as_bytes() {
        [first, ..] => *first == b'_',
        [] => false,
    }
}

// Whether the name is kept for an object with another number.
fn is_reserved(alloc: Global, name: &Text, number: u32) -> Result<bool, NoMemory>
    ensures { IfOk result (λ reserved. reserved ≡ is_reserved name.now number) }
{
    if !begins_with_underscore(name.as_str()) {
        return Ok(false);
    }
    let own = format!(in alloc; "_{number}")?;
    Ok(!name.is(own.as_str()))
}

// The object that is asked for.
#[tactic(auto, using(crate::proofs::CreateLemmas::class_in_range))]
fn creation_asked(
    graph: &Graph,
    alloc: Global,
    name: &Text,
    class: &Text,
    number: Option<u32>,
) -> Result<NewObject, StoreFault>
    ensures made { IfOk result (λ object.
        effect graph.now.meta graph.now.model (change.Create name.now class.now number)
        ≡ Ok (created graph.now.meta graph.now.model name.now object.class object.number)) }
    ensures fresh { IfOk result (λ object. IsNew graph.now.model name.now object.number) }
    ensures there { IfOk result (λ object. object.class.0 < length graph.now.meta.classes) }
    ensures refused { IfErr result (λ e. (why : Refusal) → e ≡ fault.Refused why
        → effect graph.now.meta graph.now.model (change.Create name.now class.now number) ≡ Err why) }
{
    let Some(class) = graph.meta().class_named(class.as_str()) else {
        return Err(StoreFault::Refused(Refusal::UnknownClass));
    };
    if is_abstract(graph.meta(), class) {
        return Err(StoreFault::Refused(Refusal::AbstractClass));
    }
    if is_taken(graph, name) {
        return Err(StoreFault::Refused(Refusal::NameTaken));
    }
    let number = number.unwrap_or(0).max(graph.next());
    if is_reserved(alloc, name, number)? {
        return Err(StoreFault::Refused(Refusal::ReservedName));
    }
    if number >= OBJECT_LIMIT {
        return Err(StoreFault::Refused(Refusal::TooManyObjects));
    }
    Ok(NewObject { class, number })
}

// ---- what changes

// The attributes of a new object, at their defaults.
fn defaults(
    alloc: Global,
    meta: &Metamodel,
    class: ClassId,
    object: ObjId,
    attributes: &[AttrInfo],
) -> Result<List<AttributeValue>, NoMemory>
    requires { length attributes.now ≤ 4096 }
    ensures { IfOk result (λ values. values ≡ defaults_from meta.now class object 0 attributes.now) }
{
    let mut values = List::new(alloc);
    for (a, info) in attributes.iter().enumerate() {
        if meta.isa(class, info.class)
            && let Some(value) = default_value(info.kind)
        {
            values.add(AttributeValue {
                object,
                attribute: AttrId(a as u16),
                value,
            })?;
        }
    }
    Ok(values)
}

// Adds an object, with its attributes at their defaults.
fn add_object(
    graph: &mut Graph,
    alloc: Global,
    name: &Text,
    asked: NewObject,
) -> Result<Edit, NoMemory>
    requires fresh { IsNew graph.old.model name.now asked.number }
    requires there { asked.class.0 < length graph.old.meta.classes }
    ensures meta { graph.new.meta ≡ graph.old.meta }
    ensures made { OnOk result (graph.new.model ≡ created graph.old.meta graph.old.model name.now asked.class asked.number) }
    ensures edit { IfOk result (λ edit. edit ≡ record {
      meta = graph.old.meta;
      edit = creation graph.old.model.next
          (record { number = record { 0 = asked.number }; name = name.now; class = asked.class })
          (defaults_from graph.old.meta asked.class (record { 0 = asked.number }) 0 graph.old.meta.attributes);
      waiting = [];
    }) }
    ensures unchanged { OnErr result (graph.new.model ≡ graph.old.model) }
    ensures room { KeepsRoom graph.old.places graph.new.places }
{
    let NewObject { class, number } = asked;
    let next = graph.next();
    let meta = graph.meta().share();
    let values = defaults(alloc, &meta, class, ObjId(number), meta.attributes())?;
    graph.append(alloc, name, class, number)?;
    let object = Object {
        number: ObjId(number),
        name: name.share(),
        class,
    };
    Ok(Edit::of_creation(alloc, meta, next, object, values))
}

// Makes a Create.
#[tactic(auto, using(crate::proofs::CreateLemmas::makes_no_creation))]
pub(crate) fn create(
    graph: &mut Graph,
    alloc: Global,
    name: &Text,
    class: &Text,
    number: Option<u32>,
) -> Result<Edit, StoreFault>
    requires sound { IsSound graph.old.meta }
    requires valid { IsValid graph.old.meta graph.old.model }
    ensures { Makes (change.Create name.now class.now number) graph.old graph.new result }
{
    // It tells that the links fit in their room.
    graph.meta();
    let asked = creation_asked(graph, alloc, name, class, number)?;
    match add_object(graph, alloc, name, asked) {
        Ok(edit) => Ok(edit),
        Err(NoMemory) => Err(StoreFault::NoMemory),
    }
}
