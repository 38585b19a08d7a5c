// From bytes to a model: the changes of the document, made one after the other.
ghost use Rattle.std.specs.Prelude.{◌≡◌, ◌+◌, ◌++◌, ◌≤◌, IfOk, IfErr, OnOk, Some, None, Ok, Err, map, flat_map, true};
ghost use Rattle.vt_model.specs.Metamodel.{Metamodel};
ghost use Rattle.vt_model.specs.Model.{empty_model};
ghost use Rattle.vt_model.specs.declared.change.Change.TheVariants as change;
ghost use Rattle.vt_model.specs.Effect.{effect};
ghost use Rattle.vt_model.specs.Transaction.{stopped_at, transaction};
ghost use Rattle.vt_model.specs.Base.{base_of};
ghost use Rattle.vt_model_json.specs.ModelDocument.{rise, above_all};
ghost use Rattle.vt_model_json.specs.Loading.{creations, assignment, assignments, linkings, changes_of, loaded, judged, IsFaultOf};
ghost use Rattle.vt_model_json.specs.Difference.{IsFromEmpty};
ghost use Rattle.vt_model_json.specs.Inside.Stops.{IsStopOf};
ghost use Rattle.vt_model_json.specs.declared.loading.ModelFault.TheVariants as fault;

use crate::difference::from_empty;
use crate::document::{Entry, ModelDocument, ObjectDocument};
use std::alloc::{AllocError, AllocFailed, Global};
use thiserror::Error;
use vt_base::{List, NoMemory, Text};
use vt_delta::BaseDelta;
use vt_json::{JsonFault, ObjectName, Shape, ShapeFault, parse};
use vt_meta::{Change, Metamodel, Refusal};
use vt_store::{Store, StoreFault};

/// Why a model document is refused.
#[derive(Clone, Copy, Debug, PartialEq, Eq, Error)]
pub enum ModelFault {
    /// The bytes are no JSON text, as `[1,]`.
    #[error("the bytes are no JSON text, as `[1,]` is none")]
    NotJson,
    /// A key that isn't listed, a key that is missing, a value of another form, or numbers that
    /// don't rise.
    #[error("a key is missing or is none of a model's, a value has another form, as `1` where a text belongs, or the numbers don't rise")]
    BadShape,
    /// The document has its shape, and the change with this place in its list, counted from 0, is
    /// the first that is refused.
    #[error("of the document's changes, counted from 0, the one at {index} is the first that is refused: {why}")]
    Item { index: u64, why: Refusal },
    /// Memory ran out. It may stand for any other answer.
    #[error("memory ran out before the model was made")]
    NoMemory,
}

impl From<NoMemory> for ModelFault {
    ghost from_gives = { λ _ e. e ≡ fault.NoMemory };

    fn from(_: NoMemory) -> ModelFault {
        ModelFault::NoMemory
    }
}

impl From<AllocError> for ModelFault {
    ghost from_gives = { λ _ e. e ≡ fault.NoMemory };

    fn from(_: AllocError) -> ModelFault {
        ModelFault::NoMemory
    }
}

impl<T: Drop> From<AllocFailed<T>> for ModelFault {
    ghost from_gives = { λ _ e. e ≡ fault.NoMemory };

    fn from(_: AllocFailed<T>) -> ModelFault {
        ModelFault::NoMemory
    }
}

// ---- the document

// The document that bytes spell. The tree of their JSON values goes with the call.
#[tactic(auto, using(crate::proofs::LoadingLemmas::document_rises, crate::proofs::LoadingLemmas::document_covers, crate::proofs::LoadingLemmas::document_few), unfolding(crate::specs::Loading::loaded))]
fn document_of(alloc: Global, bytes: &[u8]) -> Result<ModelDocument, ModelFault>
    ensures spelled { IfOk result (λ document.
        (meta : Metamodel) → loaded meta bytes.now ≡ judged meta (Some document)) }
    ensures rises { IfOk result (λ document. rise 0 document.objects ≡ true) }
    ensures covers { IfOk result (λ document. above_all 0 document.objects ≤ document.next) }
    ensures few { IfOk result (λ document. document.next ≤ 1048576) }
    ensures refused { IfErr result (λ fault.
        (meta : Metamodel) → IsFaultOf fault (loaded meta bytes.now)) }
{
    let value = match parse(alloc, bytes) {
        Ok(value) => value,
        Err(JsonFault::NotJson) => return Err(ModelFault::NotJson),
        Err(JsonFault::NoMemory) => return Err(ModelFault::NoMemory),
    };
    match ModelDocument::read(alloc, &value) {
        Ok(document) => Ok(document),
        Err(ShapeFault::BadShape) => Err(ModelFault::BadShape),
        Err(ShapeFault::NoMemory) => Err(ModelFault::NoMemory),
    }
}

// ---- the changes of a document

fn add_creations(changes: &mut List<Change>, objects: &[ObjectDocument]) -> Result<(), NoMemory>
    requires { rise 0 objects.now ≡ true }
    ensures { OnOk result (changes.new ≡ changes.old ++ creations 0 objects.now) }
{
    let mut above = 0;
    for object in objects {
        let number = object.number.unwrap_or(above);
        changes.add(Change::Create {
            name: object.name.as_text().share(),
            class: object.class.share(),
            number: Some(number as u32),
        })?;
        above = number + 1;
    }
    Ok(())
}

fn assignment(name: &ObjectName, attribute: &Text, entry: &Entry) -> Change
    ensures { result ≡ assignment name.now attribute.now entry.now.given }
{
    let name = name.as_text().share();
    let attr = attribute.share();
    match &entry.given {
        Some(value) => Change::Set {
            name,
            attr,
            value: value.share(),
        },
        None => Change::Unset { name, attr },
    }
}

fn add_entries(
    changes: &mut List<Change>,
    name: &ObjectName,
    entries: &[(Text, Entry)],
) -> Result<(), NoMemory>
    ensures { OnOk result (changes.new
        ≡ changes.old ++ map (λ e. assignment name.now e.0 e.1.given) entries.now) }
{
    for (attribute, entry) in entries {
        changes.add(assignment(name, attribute, entry))?;
    }
    Ok(())
}

fn add_assignments(changes: &mut List<Change>, objects: &[ObjectDocument]) -> Result<(), NoMemory>
    ensures { OnOk result (changes.new ≡ changes.old ++ flat_map assignments objects.now) }
{
    for object in objects {
        add_entries(changes, &object.name, object.attributes.as_slice())?;
    }
    Ok(())
}

fn add_targets(
    changes: &mut List<Change>,
    name: &ObjectName,
    reference: &Text,
    targets: &[ObjectName],
) -> Result<(), NoMemory>
    ensures { OnOk result (changes.new
        ≡ changes.old ++ map (λ target. change.Link name.now reference.now target) targets.now) }
{
    for target in targets {
        changes.add(Change::Link {
            name: name.as_text().share(),
            reference: reference.share(),
            target: target.as_text().share(),
        })?;
    }
    Ok(())
}

fn add_object_links(
    changes: &mut List<Change>,
    name: &ObjectName,
    links: &[(Text, List<ObjectName>)],
) -> Result<(), NoMemory>
    ensures { OnOk result (changes.new ≡ changes.old
        ++ flat_map (λ e. map (λ target. change.Link name.now e.0 target) e.1) links.now) }
{
    for (reference, targets) in links {
        add_targets(changes, name, reference, targets.as_slice())?;
    }
    Ok(())
}

fn add_linkings(changes: &mut List<Change>, objects: &[ObjectDocument]) -> Result<(), NoMemory>
    ensures { OnOk result (changes.new ≡ changes.old ++ flat_map linkings objects.now) }
{
    for object in objects {
        add_object_links(changes, &object.name, object.links.as_slice())?;
    }
    Ok(())
}

// The changes of a document, which goes with the call.
fn changes_of(alloc: Global, document: ModelDocument) -> Result<List<Change>, NoMemory>
    requires { rise 0 document.objects ≡ true }
    ensures { IfOk result (λ changes. changes ≡ changes_of document) }
{
    let mut changes = List::new(alloc);
    let objects = document.objects.as_slice();
    add_creations(&mut changes, objects)?;
    add_assignments(&mut changes, objects)?;
    add_linkings(&mut changes, objects)?;
    Ok(changes)
}

// ---- the model

// Makes the change at a place.
fn apply_at(
    store: &mut Store,
    alloc: Global,
    place: usize,
    change: &Change,
) -> Result<(), ModelFault>
    ensures made { OnOk result (stopped_at place (effect store.old.meta store.old.model change.now)
        ≡ Ok store.new.model) }
    ensures of { store.new.meta ≡ store.old.meta }
    ensures refused { IfErr result (λ fault.
        IsStopOf fault (stopped_at place (effect store.old.meta store.old.model change.now))) }
{
    match store.apply(alloc, change) {
        Ok(_) => Ok(()),
        Err(StoreFault::Refused(why)) => Err(ModelFault::Item {
            index: place as u64,
            why,
        }),
        Err(StoreFault::NoMemory) => Err(ModelFault::NoMemory),
    }
}

// Makes all changes, up to the first that is refused.
#[tactic(auto, using(crate::proofs::StopLemmas::stop_after))]
fn apply_all(store: &mut Store, alloc: Global, changes: &[Change]) -> Result<(), ModelFault>
    ensures made { OnOk result (transaction store.old.meta store.old.model changes.now
        ≡ Ok store.new.model) }
    ensures of { store.new.meta ≡ store.old.meta }
    ensures refused { IfErr result (λ fault.
        IsStopOf fault (transaction store.old.meta store.old.model changes.now)) }
{
    for (place, change) in changes.iter().enumerate() {
        apply_at(store, alloc, place, change)?;
    }
    Ok(())
}

// The model after all changes, or the first that is refused.
fn transact(alloc: Global, meta: &Metamodel, changes: &[Change]) -> Result<Store, ModelFault>
    ensures made { IfOk result (λ store.
        transaction meta.now empty_model changes.now ≡ Ok store.model) }
    ensures of { IfOk result (λ store. store.meta ≡ meta.now) }
    ensures refused { IfErr result (λ fault.
        IsStopOf fault (transaction meta.now empty_model changes.now)) }
{
    let mut store = Store::new(alloc, meta)?;
    apply_all(&mut store, alloc, changes)?;
    Ok(store)
}

// The model that the changes of a document make, or the first that is refused.
#[tactic(auto, using(crate::proofs::NextLemmas::next_covered))]
fn make(alloc: Global, meta: &Metamodel, document: ModelDocument) -> Result<Store, ModelFault>
    requires rises { rise 0 document.objects ≡ true }
    requires covers { above_all 0 document.objects ≤ document.next }
    ensures made { IfOk result (λ store.
        transaction meta.now empty_model (changes_of document) ≡ Ok store.model) }
    ensures covered { IfOk result (λ store. store.model.next ≤ document.next) }
    ensures of { IfOk result (λ store. store.meta ≡ meta.now) }
    ensures refused { IfErr result (λ fault.
        IsStopOf fault (transaction meta.now empty_model (changes_of document))) }
{
    let changes = changes_of(alloc, document)?;
    transact(alloc, meta, changes.as_slice())
}

// The model of a document that has its shape.
#[tactic(auto, using(crate::proofs::StopLemmas::fault_of_stop))]
fn build(alloc: Global, meta: &Metamodel, document: ModelDocument) -> Result<Store, ModelFault>
    requires rises { rise 0 document.objects ≡ true }
    requires covers { above_all 0 document.objects ≤ document.next }
    requires few { document.next ≤ 1048576 }
    ensures accepted { IfOk result (λ store. judged meta.now (Some document) ≡ Ok store.model) }
    ensures of { IfOk result (λ store. store.meta ≡ meta.now) }
    ensures refused { IfErr result (λ fault.
        IsFaultOf fault (judged meta.now (Some document))) }
{
    let next = document.next;
    let mut store = make(alloc, meta, document)?;
    store.skip_to(next as u32);
    Ok(store)
}

/// The model that bytes spell over a metamodel, or the document's first fault.
pub fn read_store(alloc: Global, meta: &Metamodel, bytes: &[u8]) -> Result<Store, ModelFault>
    ensures accepted { IfOk result (λ store. loaded meta.now bytes.now ≡ Ok store.model) }
    ensures of { IfOk result (λ store. store.meta ≡ meta.now) }
    ensures refused { IfErr result (λ fault. IsFaultOf fault (loaded meta.now bytes.now)) }
{
    let document = document_of(alloc, bytes)?;
    build(alloc, meta, document)
}

/// The same, with the model's difference from the empty one.
pub fn read_model(
    alloc: Global,
    meta: &Metamodel,
    bytes: &[u8],
) -> Result<(Store, BaseDelta), ModelFault>
    ensures accepted { IfOk result (λ read. loaded meta.now bytes.now ≡ Ok read.0.model) }
    ensures of { IfOk result (λ read. read.0.meta ≡ meta.now) }
    ensures delta { IfOk result (λ read. IsFromEmpty (base_of read.0.meta read.0.model) read.1) }
    ensures refused { IfErr result (λ fault. IsFaultOf fault (loaded meta.now bytes.now)) }
{
    let store = read_store(alloc, meta, bytes)?;
    let delta = from_empty(alloc, &store)?;
    Ok((store, delta))
}
