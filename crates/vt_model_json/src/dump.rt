// The text of a model: its document, with all keys, written token by token.
ghost use Rattle.std.specs.Prelude.{◌≡◌, ◌++◌, Some, length, IfOk, OnOk};
ghost use Rattle.json.specs.Tree.{json_tokens, items_tokens, members_tokens};
ghost use Rattle.serde_json.specs.Data.{object, no_members};
ghost use Rattle.serde_json.specs.Written.{outline, items_outline, members_outline};
ghost use Rattle.vt_graph.specs.Asked.{class_at};
ghost use Rattle.vt_model.specs.Model.{Model};
ghost use Rattle.vt_model_json.specs.Dump.{values_of, value_data, attribute_members, links_of, target_names, texts, with_targets, link_members, object_data, objects_data, model_data, dump};
ghost use Rattle.vt_model_json.specs.Inside.Entries.{entry_members, names_data, from_name, from_links, from_class};
ghost use Rattle.vt_model_json.specs.Inside.Plan.{IsPlan, reference_name, members_by};
ghost use Rattle.vt_model_json.specs.Inside.Shown.{shown_name, shown_names};

use crate::entries::add_entry;
use crate::naming::{attribute_name, class_name, literal_name, reference_name, shown_name};
use crate::plan;
use json::Writer;
use std::alloc::{AllocError, Global};
use std::collections::BTreeMap;
use vt_base::{ClassId, List, NoMemory, ObjId, RefId, Value};
use vt_meta::Metamodel;
use vt_store::Store;

// ---- attributes

fn write_value(out: &mut Writer, meta: &Metamodel, value: &Value) -> Result<(), AllocError>
    ensures value { OnOk result (out.new.tokens
        ≡ out.old.tokens ++ json_tokens (outline (value_data meta.now value.now))) }
    ensures before { out.new.before ≡ out.old.before }
{
    match value {
        Value::Bool(b) => out.boolean(*b),
        Value::Int(n) => out.i64(*n),
        Value::Text(text) => out.string(text.as_str()),
        Value::Enum(e, l) => out.string(literal_name(meta, *e, *l)),
        Value::Obj(_) => out.null(),
    }
}

// Each value of an object under its attribute's name.
fn values_by_name<'a>(
    alloc: Global,
    store: &'a Store,
    owner: ObjId,
) -> Result<BTreeMap<&'a str, &'a Value>, NoMemory>
    ensures { IfOk result (λ values.
        entry_members (λ k. k.now) (λ v. value_data store.now.meta v.now) values.entries
        ≡ attribute_members store.now.meta no_members (values_of store.now.model owner)) }
{
    let meta = store.meta();
    let mut values = BTreeMap::new(alloc);
    for place in store.values(owner) {
        if let Some(value) = &place.value {
            add_entry(&mut values, attribute_name(meta, place.attribute), value)?;
        }
    }
    Ok(values)
}

// Values by their names, with the bracket that ends them.
fn write_values(
    out: &mut Writer,
    meta: &Metamodel,
    values: &BTreeMap<&str, &Value>,
) -> Result<(), AllocError>
    ensures values { OnOk result (out.new.tokens ≡ out.old.tokens ++ members_tokens (members_outline
        (entry_members (λ k. k.now) (λ v. value_data meta.now v.now) values.now.entries))) }
    ensures before { out.new.before ≡ out.old.before }
{
    for (name, value) in values {
        out.key(*name)?;
        write_value(out, meta, *value)?;
    }
    out.end_object()
}

fn write_attributes(
    alloc: Global,
    out: &mut Writer,
    store: &Store,
    owner: ObjId,
) -> Result<(), NoMemory>
    ensures attributes { OnOk result (out.new.tokens ≡ out.old.tokens ++ json_tokens (outline (object
        (attribute_members store.now.meta no_members (values_of store.now.model owner))))) }
    ensures before { out.new.before ≡ out.old.before }
{
    let values = values_by_name(alloc, store, owner)?;
    out.begin_object()?;
    write_values(out, store.meta(), &values)?;
    Ok(())
}

// ---- links

// The names of objects, with the bracket that ends them.
fn write_names(out: &mut Writer, store: &Store, objects: &[ObjId]) -> Result<(), AllocError>
    ensures names { OnOk result (out.new.tokens ≡ out.old.tokens ++ items_tokens (items_outline
        (texts (shown_names store.now.model objects.now)))) }
    ensures before { out.new.before ≡ out.old.before }
{
    for number in objects {
        out.string(shown_name(store, *number))?;
    }
    out.end_array()
}

// Puts in the targets of a reference, where there are some.
#[tactic(auto, using(crate::proofs::EntryLemmas::targets_put))]
fn put_targets<'a>(
    targets: &mut BTreeMap<&'a str, &'a [ObjId]>,
    key: &'a str,
    objects: &'a [ObjId],
) -> Result<(), NoMemory>
    ensures { OnOk result ((g : Model) → entry_members (λ k. k.now) (λ os. names_data g os.now) targets.new.entries
        ≡ with_targets key.now (texts (shown_names g objects.now)) (entry_members (λ k. k.now) (λ os. names_data g os.now) targets.old.entries)) }
{
    if objects.is_empty() {
        return Ok(());
    }
    add_entry(targets, key, objects)?;
    Ok(())
}

fn add_targets<'a>(
    targets: &mut BTreeMap<&'a str, &'a [ObjId]>,
    store: &'a Store,
    owner: ObjId,
    reference: RefId,
) -> Result<(), NoMemory>
    ensures { OnOk result (entry_members (λ k. k.now) (λ os. names_data store.now.model os.now) targets.new.entries
        ≡ with_targets (reference_name store.now.meta reference) (texts (target_names store.now.model reference.0 (links_of store.now.model owner)))
        (entry_members (λ k. k.now) (λ os. names_data store.now.model os.now) targets.old.entries)) }
{
    // A store's metamodel tells that its model is valid, so all targets are live.
    let meta = store.meta();
    let objects = store.targets(owner, reference);
    put_targets(targets, reference_name(meta, reference), objects)?;
    Ok(())
}

// The targets of an object by some references, each reference with a target under its name.
fn targets_by_name<'a>(
    alloc: Global,
    store: &'a Store,
    owner: ObjId,
    references: &[RefId],
) -> Result<BTreeMap<&'a str, &'a [ObjId]>, NoMemory>
    ensures { IfOk result (λ targets. entry_members (λ k. k.now) (λ os. names_data store.now.model os.now) targets.entries
        ≡ members_by store.now.meta store.now.model (links_of store.now.model owner) no_members references.now) }
{
    let mut targets = BTreeMap::new(alloc);
    for r in references {
        add_targets(&mut targets, store, owner, *r)?;
    }
    Ok(targets)
}

// Targets by the names of their references, with the bracket that ends them.
fn write_targets(
    out: &mut Writer,
    store: &Store,
    targets: &BTreeMap<&str, &[ObjId]>,
) -> Result<(), AllocError>
    ensures targets { OnOk result (out.new.tokens ≡ out.old.tokens ++ members_tokens (members_outline
        (entry_members (λ k. k.now) (λ os. names_data store.now.model os.now) targets.now.entries))) }
    ensures before { out.new.before ≡ out.old.before }
{
    for (name, objects) in targets {
        out.key(*name)?;
        out.begin_array()?;
        write_names(out, store, *objects)?;
    }
    out.end_object()
}

// The targets of an object of a class, by all references.
#[tactic(auto, using(crate::proofs::PlanLemmas::links_planned))]
fn all_targets<'a>(
    alloc: Global,
    store: &'a Store,
    plan: &[List<RefId>],
    owner: ObjId,
    class: ClassId,
) -> Result<BTreeMap<&'a str, &'a [ObjId]>, NoMemory>
    requires plan { IsPlan store.now.meta (length store.now.meta.classes) plan.now }
    requires live { class_at store.now.model owner ≡ Some class }
    ensures { IfOk result (λ targets. entry_members (λ k. k.now) (λ os. names_data store.now.model os.now) targets.entries
        ≡ link_members store.now.model (links_of store.now.model owner) no_members 0 store.now.meta.references) }
{
    // A store's metamodel tells that its model is valid, so each link is of a reference of the class.
    store.meta();
    let targets = targets_by_name(alloc, store, owner, plan::at(plan, class))?;
    Ok(targets)
}

fn write_links(
    alloc: Global,
    out: &mut Writer,
    store: &Store,
    plan: &[List<RefId>],
    owner: ObjId,
    class: ClassId,
) -> Result<(), NoMemory>
    requires plan { IsPlan store.now.meta (length store.now.meta.classes) plan.now }
    requires live { class_at store.now.model owner ≡ Some class }
    ensures links { OnOk result (out.new.tokens ≡ out.old.tokens ++ json_tokens (outline (object
        (link_members store.now.model (links_of store.now.model owner) no_members 0 store.now.meta.references)))) }
    ensures before { out.new.before ≡ out.old.before }
{
    let targets = all_targets(alloc, store, plan, owner, class)?;
    out.begin_object()?;
    write_targets(out, store, &targets)?;
    Ok(())
}

// ---- the document

// The members of an object from its name on, with the bracket that ends them.
fn write_from_name(out: &mut Writer, store: &Store, owner: ObjId) -> Result<(), AllocError>
    ensures members { OnOk result (out.new.tokens
        ≡ out.old.tokens ++ members_tokens (members_outline (from_name store.now.model owner))) }
    ensures before { out.new.before ≡ out.old.before }
{
    out.key("name")?;
    out.string(shown_name(store, owner))?;
    out.key("number")?;
    out.u64(u64::from(owner.0))?;
    out.end_object()
}

// The members of an object from its links on.
fn write_from_links(
    alloc: Global,
    out: &mut Writer,
    store: &Store,
    plan: &[List<RefId>],
    owner: ObjId,
    class: ClassId,
) -> Result<(), NoMemory>
    requires plan { IsPlan store.now.meta (length store.now.meta.classes) plan.now }
    requires live { class_at store.now.model owner ≡ Some class }
    ensures members { OnOk result (out.new.tokens ≡ out.old.tokens
        ++ members_tokens (members_outline (from_links store.now.meta store.now.model owner))) }
    ensures before { out.new.before ≡ out.old.before }
{
    out.key("links")?;
    write_links(alloc, out, store, plan, owner, class)?;
    write_from_name(out, store, owner)?;
    Ok(())
}

// The members of an object from its class on.
fn write_from_class(
    alloc: Global,
    out: &mut Writer,
    store: &Store,
    plan: &[List<RefId>],
    owner: ObjId,
    class: ClassId,
) -> Result<(), NoMemory>
    requires plan { IsPlan store.now.meta (length store.now.meta.classes) plan.now }
    requires live { class_at store.now.model owner ≡ Some class }
    ensures members { OnOk result (out.new.tokens ≡ out.old.tokens
        ++ members_tokens (members_outline (from_class store.now.meta store.now.model owner class))) }
    ensures before { out.new.before ≡ out.old.before }
{
    out.key("class")?;
    out.string(class_name(store.meta(), class))?;
    write_from_links(alloc, out, store, plan, owner, class)
}

// A live object with all its keys.
fn write_object(
    alloc: Global,
    out: &mut Writer,
    store: &Store,
    plan: &[List<RefId>],
    number: ObjId,
    class: ClassId,
) -> Result<(), NoMemory>
    requires plan { IsPlan store.now.meta (length store.now.meta.classes) plan.now }
    requires live { class_at store.now.model number ≡ Some class }
    ensures object { OnOk result (out.new.tokens ≡ out.old.tokens ++ json_tokens (outline
        (object_data store.now.meta store.now.model
        (record { number = number; name = shown_name store.now.model number; class = class })))) }
    ensures before { out.new.before ≡ out.old.before }
{
    out.begin_object()?;
    out.key("attributes")?;
    write_attributes(alloc, out, store, number)?;
    write_from_class(alloc, out, store, plan, number, class)?;
    Ok(())
}

// The live objects, in rising number, with the bracket that ends them.
#[tactic(auto, using(crate::proofs::Dumped::Objects::items_first, crate::proofs::Dumped::Objects::items_last, crate::proofs::Dumped::Objects::item_absent, crate::proofs::EntryLemmas::tokens_there))]
fn write_objects(
    alloc: Global,
    out: &mut Writer,
    store: &Store,
    plan: &[List<RefId>],
) -> Result<(), NoMemory>
    requires plan { IsPlan store.now.meta (length store.now.meta.classes) plan.now }
    ensures objects { OnOk result (out.new.tokens ≡ out.old.tokens ++ items_tokens (items_outline
        (objects_data store.now.meta store.now.model store.now.model.live))) }
    ensures before { out.new.before ≡ out.old.before }
{
    // It tells too that objects rise, up to below the next number.
    store.meta();
    for number in 0..store.next_number() {
        let Some(class) = store.class_of(ObjId(number)) else {
            continue;
        };
        write_object(alloc, out, store, plan, ObjId(number), class)?;
    }
    out.end_array()?;
    Ok(())
}

#[tactic(auto, unfolding(crate::specs::Dump::model_data))]
fn write_document(
    alloc: Global,
    out: &mut Writer,
    store: &Store,
    plan: &[List<RefId>],
) -> Result<(), NoMemory>
    requires plan { IsPlan store.now.meta (length store.now.meta.classes) plan.now }
    ensures document { OnOk result (out.new.tokens
        ≡ out.old.tokens ++ json_tokens (outline (model_data store.now.meta store.now.model))) }
    ensures before { out.new.before ≡ out.old.before }
{
    out.begin_object()?;
    out.key("format")?;
    out.u64(1)?;
    out.key("next")?;
    out.u64(u64::from(store.next_number()))?;
    out.key("objects")?;
    out.begin_array()?;
    write_objects(alloc, out, store, plan)?;
    out.end_object()?;
    Ok(())
}

/// The text of a model. It is written token by token, so no tree of it stands anywhere.
#[tactic(auto, using(crate::proofs::EntryLemmas::dump_printed))]
pub fn write_model(alloc: Global, store: &Store) -> Result<List<u8>, NoMemory>
    ensures { IfOk result (λ text. text ≡ dump store.now.meta store.now.model) }
{
    let plan = plan::by_class(alloc, store.meta())?;
    let mut out = Writer::new(Vec::new(alloc));
    write_document(alloc, &mut out, store, plan.as_slice())?;
    Ok(List::from_vec(out.into_inner()))
}
