// What Delete does: an object goes with all that is in it, their values, and the links that touch
// them.
ghost use Rattle.std.specs.Prelude.{◌≡◌, ◌≤◌, ◌+◌, ◌++◌, ◌∷◌, [], IfOk, IsSome, OnOk, OnErr, filter, length, map};
ghost use Rattle.std.specs.List.{filter_map, flat_map};
ghost use Rattle.vt_model.specs.Containing.{is_inside};
ghost use Rattle.vt_model.specs.Deleting.{deleted};
ghost use Rattle.vt_model.specs.Sound.{IsSound};
ghost use Rattle.vt_model.specs.Valid.{IsValid};
ghost use Rattle.vt_model.specs.declared.change.Change.TheVariants as change;
ghost use Rattle.vt_graph.specs.Asked.{live_at};
ghost use Rattle.vt_store.specs.Changing.{Makes};
ghost use Rattle.vt_store.specs.Inside.Levels.{contained_in, children, level_below, levels_from, numbers, objects_inside, IsArranged, link_on, links_of, touches, AddsLinksAt, CollectsLinks, value_of, values_of, IsBare, CanBury};
ghost use Rattle.vt_slots.specs.Ends.{number_order};
ghost use Rattle.vt_store.specs.Inside.Waiting.{AddsBuried, BuriesAll};
ghost use Rattle.vt_store.specs.Inside.Leaving.{Deletes};

use crate::displaced::{arrange, link_on};
use crate::edit::Edit;
use crate::fault::StoreFault;
use crate::relinking::drop_back;
use crate::reverting::take_values;
use std::alloc::Global;
use vt_asked::{is_containment, live_named};
use vt_base::{List, NoMemory, ObjId, Plain, RefId, Roomy, Text};
use vt_graph::{Buried, Graph};
use vt_model::{AttributeValue, Link, Metamodel};
use vt_slots::{EndList, Held, Side};

// ---- the objects inside

fn add_contained(
    found: &mut Vec<ObjId>,
    meta: &Metamodel,
    lists: &[EndList],
) -> Result<(), NoMemory>
    ensures { OnOk result (found.new.items ≡ found.old.items ++ flat_map (contained_in meta.now) lists.now) }
{
    for list in lists {
        if is_containment(meta, list.reference()) {
            found.extend_from_slice(list.objects())?;
        }
    }
    Ok(())
}

// Adds what an object contains directly.
fn add_children(found: &mut Vec<ObjId>, graph: &Graph, p: ObjId) -> Result<(), NoMemory>
    requires valid { IsValid graph.now.meta graph.now.model }
    ensures { OnOk result (found.new.items ≡ found.old.items ++ children graph.now.meta graph.now.model p) }
{
    add_contained(found, graph.meta(), graph.ends(p, Side::Outgoing))
}

fn level_below(graph: &Graph, alloc: Global, level: &[ObjId]) -> Result<Vec<ObjId>, NoMemory>
    requires valid { IsValid graph.now.meta graph.now.model }
    ensures { IfOk result (λ below. below.items ≡ level_below graph.now.meta graph.now.model level.now) }
{
    let mut below = Vec::new(alloc);
    for p in level {
        add_children(&mut below, graph, *p)?;
    }
    Ok(below)
}

// An object and so many levels below it, of which each has what the one above contains.
fn levels(graph: &Graph, alloc: Global, o: ObjId, count: u32) -> Result<Vec<ObjId>, NoMemory>
    requires valid { IsValid graph.now.meta graph.now.model }
    ensures { IfOk result (λ found. found.items ≡ levels_from graph.now.meta graph.now.model count (o ∷ [])) }
{
    let mut found = Vec::new(alloc);
    let mut level = vec![in alloc; o]?;
    for _ in 0..count {
        if level.is_empty() {
            return Ok(found);
        }
        let below = level_below(graph, alloc, level.as_slice())?;
        found.append(&mut level)?;
        level = below;
    }
    Ok(found)
}

fn arrange_numbers(found: &mut Vec<ObjId>)
    ensures { IsArranged number_order found.old.items found.new.items }
{
    found.sort_unstable();
    found.dedup();
}

// An object and all that is in it, in rising order.
fn objects_inside(graph: &Graph, alloc: Global, o: ObjId) -> Result<Vec<ObjId>, NoMemory>
    requires valid { IsValid graph.now.meta graph.now.model }
    requires live { IsSome (live_at graph.now.model o) }
    ensures { IfOk result (λ found. found.items ≡ numbers (objects_inside graph.now.meta graph.now.model o)) }
{
    // There are no more levels than there are numbers.
    let mut found = levels(graph, alloc, o, graph.next())?;
    arrange_numbers(&mut found);
    Ok(found)
}

// ---- the links that touch them

fn add_ends(
    links: &mut Vec<Link>,
    side: Side,
    x: ObjId,
    reference: RefId,
    others: &[ObjId],
) -> Result<(), NoMemory>
    ensures { OnOk result (links.new.items ≡ links.old.items ++ map (link_on side x reference) others.now) }
{
    for other in others {
        links.push(link_on(side, x, reference, *other))?;
    }
    Ok(())
}

fn add_all_ends(
    links: &mut Vec<Link>,
    side: Side,
    x: ObjId,
    lists: &[EndList],
) -> Result<(), NoMemory>
    ensures { OnOk result (links.new.items ≡ links.old.items ++ links_of (link_on side x) lists.now) }
{
    for list in lists {
        add_ends(links, side, x, list.reference(), list.objects())?;
    }
    Ok(())
}

// Adds the links from an object and those to it.
fn add_links_at(links: &mut Vec<Link>, graph: &Graph, x: ObjId) -> Result<(), NoMemory>
    ensures { OnOk result (AddsLinksAt graph.now.model x links.old.items links.new.items) }
{
    add_all_ends(links, Side::Outgoing, x, graph.ends(x, Side::Outgoing))?;
    add_all_ends(links, Side::Incoming, x, graph.ends(x, Side::Incoming))?;
    Ok(())
}

fn collect_links(graph: &Graph, alloc: Global, found: &[ObjId]) -> Result<Vec<Link>, NoMemory>
    ensures { IfOk result (λ links. CollectsLinks graph.now.model found.now links.items) }
{
    let mut links = Vec::new(alloc);
    for x in found {
        add_links_at(&mut links, graph, *x)?;
    }
    Ok(links)
}

// The links that touch what is in an object, in rising order.
fn links_touched(
    graph: &Graph,
    alloc: Global,
    o: ObjId,
    found: &[ObjId],
) -> Result<Vec<Link>, NoMemory>
    requires valid { IsValid graph.now.meta graph.now.model }
    requires found { found.now ≡ numbers (objects_inside graph.now.meta graph.now.model o) }
    ensures { IfOk result (λ links. links.items ≡ filter (touches graph.now.meta graph.now.model o) graph.now.model.links) }
{
    let mut links = collect_links(graph, alloc, found)?;
    arrange(&mut links);
    Ok(links)
}

// ---- their values

fn add_places(
    values: &mut Vec<AttributeValue>,
    alloc: Global,
    x: ObjId,
    places: &[Held],
) -> Result<(), NoMemory>
    ensures { OnOk result (values.new.items ≡ values.old.items ++ filter_map (value_of x) places.now) }
{
    for place in places {
        if let Some(value) = &place.value {
            values.push(AttributeValue {
                object: x,
                attribute: place.attribute,
                value: value.copy(alloc)?,
            })?;
        }
    }
    Ok(())
}

// Adds the values of an object.
fn add_values(
    values: &mut Vec<AttributeValue>,
    graph: &Graph,
    alloc: Global,
    x: ObjId,
) -> Result<(), NoMemory>
    requires valid { IsValid graph.now.meta graph.now.model }
    ensures { OnOk result (values.new.items ≡ values.old.items ++ values_of graph.now.model x) }
{
    add_places(values, alloc, x, graph.values(x))
}

fn collect_values(
    graph: &Graph,
    alloc: Global,
    found: &[ObjId],
) -> Result<Vec<AttributeValue>, NoMemory>
    requires valid { IsValid graph.now.meta graph.now.model }
    ensures { IfOk result (λ values. values.items ≡ flat_map (values_of graph.now.model) found.now) }
{
    let mut values = Vec::new(alloc);
    for x in found {
        add_values(&mut values, graph, alloc, *x)?;
    }
    Ok(values)
}

// The values of what is in an object, in their order.
fn values_inside(
    graph: &Graph,
    alloc: Global,
    o: ObjId,
    found: &[ObjId],
) -> Result<Vec<AttributeValue>, NoMemory>
    requires valid { IsValid graph.now.meta graph.now.model }
    requires found { found.now ≡ numbers (objects_inside graph.now.meta graph.now.model o) }
    ensures { IfOk result (λ values. values.items ≡ filter (λ t. is_inside graph.now.meta graph.now.model t.object o) graph.now.model.values) }
{
    let values = collect_values(graph, alloc, found)?;
    Ok(values)
}

// ---- the steps

// Buries an object, which then waits with the others.
fn bury(graph: &mut Graph, x: ObjId, waiting: &mut Roomy<Buried>)
    requires bare { IsBare graph.old.model x }
    requires room { 1 ≤ waiting.old.spare }
    ensures added { AddsBuried graph.old x waiting.old.items graph.new waiting.new.items }
    ensures room { waiting.old.spare ≤ waiting.new.spare + 1 }
{
    waiting.push(graph.bury(x)).unwrap();
}

// Buries objects, for which there is room to wait.
fn bury_all(graph: &mut Graph, found: &[ObjId], waiting: &mut Roomy<Buried>)
    requires bare { CanBury graph.old.model found.now }
    requires room { length found.now ≤ waiting.old.spare }
    requires none { waiting.old.items ≡ [] }
    ensures { BuriesAll graph.old found.now waiting.new.items graph.new }
{
    for x in found {
        bury(graph, *x, waiting);
    }
}

// A live object goes with all that is in it.
fn remove(graph: &mut Graph, alloc: Global, o: ObjId) -> Result<Edit, NoMemory>
    requires valid { IsValid graph.old.meta graph.old.model }
    requires live { IsSome (live_at graph.old.model o) }
    ensures meta { graph.new.meta ≡ graph.old.meta }
    ensures deleted { IfOk result (λ edit. Deletes o graph.old graph.new edit) }
    ensures unchanged { OnErr result (graph.new ≡ graph.old) }
{
    let found = objects_inside(graph, alloc, o)?;
    let links = links_touched(graph, alloc, o, found.as_slice())?;
    let values = values_inside(graph, alloc, o, found.as_slice())?;
    let mut waiting = Roomy::new(alloc);
    waiting.reserve(found.len())?;
    drop_back(graph, links.as_slice());
    take_values(graph, values.as_slice());
    bury_all(graph, found.as_slice(), &mut waiting);
    Ok(Edit::of_deletion(
        alloc,
        graph.meta(),
        graph.next(),
        waiting.into_list(),
        List::from_vec(values),
        List::from_vec(links),
    ))
}

// Makes a Delete.
#[tactic(auto, using(crate::proofs::Deleting::Fitting::delete_refused, crate::proofs::MakesLemmas::makes_refusal, crate::proofs::Deleting::Fitting::makes_no_deletion))]
pub(crate) fn delete(graph: &mut Graph, alloc: Global, name: &Text) -> Result<Edit, StoreFault>
    requires sound { IsSound graph.old.meta }
    requires valid { IsValid graph.old.meta graph.old.model }
    ensures { Makes (change.Delete name.now) graph.old graph.new result }
{
    // It tells that the links fit in their room.
    graph.meta();
    let object = live_named(graph, name)?;
    let edit = remove(graph, alloc, object.number)?;
    Ok(edit)
}
