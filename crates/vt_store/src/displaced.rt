// What a new link displaces, and what contains an object: found at the ends of their links.
ghost use Rattle.std.specs.Prelude.{◌≡◌, ◌==◌, ◌++◌, IfOk, OnOk, filter};
ghost use Rattle.std.specs.List.{flat_map, list_any};
ghost use Rattle.vt_model.specs.Linking.{is_dropped, stands};
ghost use Rattle.vt_model.specs.Containing.{holder, is_inside};
ghost use Rattle.vt_model.specs.Sound.{IsSound};
ghost use Rattle.vt_model.specs.Valid.{IsValid};
ghost use Rattle.vt_slots.specs.Ends.{EndList, ObjectsRise};
ghost use Rattle.vt_store.specs.Inside.Displaced.{IsArranged, with_opposite, to_others, held_from, candidates, holder_in};
ghost use Rattle.vt_store.specs.Inside.Levels.{link_on};

use std::alloc::Global;
use vt_asked::{has_single_opposite, is_containment, is_many, link_back};
use vt_base::{NoMemory, ObjId, RefId};
use vt_graph::Graph;
use vt_model::{Link, Metamodel};
use vt_slots::{EndList, Side};

// ---- what is displaced

// Puts links in order and leaves out repeats.
pub(crate) fn arrange(links: &mut Vec<Link>)
    ensures { IsArranged links.old.items links.new.items }
{
    links.sort_unstable();
    links.dedup();
}

// Adds a link and its opposite.
pub(crate) fn add_both(found: &mut Vec<Link>, meta: &Metamodel, link: Link) -> Result<(), NoMemory>
    ensures { OnOk result (found.new.items ≡ found.old.items ++ with_opposite meta.now link) }
{
    found.push(link)?;
    if let Some(back) = link_back(meta, &link) {
        found.push(back)?;
    }
    Ok(())
}

// A link at an object, on either side of it.
pub(crate) fn link_on(side: Side, o: ObjId, reference: RefId, other: ObjId) -> Link
    ensures { result ≡ link_on side o reference other }
{
    let (source, target) = match side {
        Side::Outgoing => (o, other),
        Side::Incoming => (other, o),
    };
    Link {
        source,
        reference,
        target,
    }
}

// Adds the links between an object and others, with their opposites.
fn add_others(
    found: &mut Vec<Link>,
    meta: &Metamodel,
    side: Side,
    o: ObjId,
    reference: RefId,
    others: &[ObjId],
) -> Result<(), NoMemory>
    ensures { OnOk result (found.new.items ≡ found.old.items ++ to_others side meta.now o reference others.now) }
{
    for other in others {
        add_both(found, meta, link_on(side, o, reference, *other))?;
    }
    Ok(())
}

fn add_held(
    found: &mut Vec<Link>,
    meta: &Metamodel,
    target: ObjId,
    list: &EndList,
) -> Result<(), NoMemory>
    ensures { OnOk result (found.new.items ≡ found.old.items ++ held_from (λ (e : EndList). e.reference) (λ e. e.objects) meta.now target list.now) }
{
    if is_containment(meta, list.reference()) {
        add_others(
            found,
            meta,
            Side::Incoming,
            target,
            list.reference(),
            list.objects(),
        )?;
    }
    Ok(())
}

fn add_containers(
    found: &mut Vec<Link>,
    meta: &Metamodel,
    target: ObjId,
    lists: &[EndList],
) -> Result<(), NoMemory>
    ensures { OnOk result (found.new.items ≡ found.old.items ++ flat_map (held_from (λ (e : EndList). e.reference) (λ e. e.objects) meta.now target) lists.now) }
{
    for list in lists {
        add_held(found, meta, target, list)?;
    }
    Ok(())
}

// All that a new link displaces, with their opposites.
fn find_candidates(
    alloc: Global,
    meta: &Metamodel,
    made: &Link,
    targets: &[ObjId],
    sources: &[ObjId],
    lists: &[EndList],
) -> Result<Vec<Link>, NoMemory>
    ensures { IfOk result (λ found. found.items ≡ candidates (λ (e : EndList). e.reference) (λ e. e.objects) meta.now made.now targets.now sources.now lists.now) }
{
    let mut found = Vec::new(alloc);
    if !is_many(meta, made.reference) {
        add_others(
            &mut found,
            meta,
            Side::Outgoing,
            made.source,
            made.reference,
            targets,
        )?;
    }
    if has_single_opposite(meta, made.reference) {
        add_others(
            &mut found,
            meta,
            Side::Incoming,
            made.target,
            made.reference,
            sources,
        )?;
    }
    if is_containment(meta, made.reference) {
        add_containers(&mut found, meta, made.target, lists)?;
    }
    Ok(found)
}

// The links that a new link displaces, in rising order.
#[tactic(auto, using(crate::proofs::Linking::Both::displaced_is))]
pub(crate) fn displaced(graph: &Graph, alloc: Global, made: &Link) -> Result<Vec<Link>, NoMemory>
    requires sound { IsSound graph.now.meta }
    requires valid { IsValid graph.now.meta graph.now.model }
    ensures { IfOk result (λ gone. gone.items ≡ filter (is_dropped graph.now.meta made.now) graph.now.model.links) }
{
    let mut found = find_candidates(
        alloc,
        graph.meta(),
        made,
        graph.others(made.source, Side::Outgoing, made.reference),
        graph.others(made.target, Side::Incoming, made.reference),
        graph.ends(made.target, Side::Incoming),
    )?;
    arrange(&mut found);
    Ok(found)
}

// ---- what stands, and what contains what

fn is_found(objects: &[ObjId], o: ObjId) -> bool
    requires { ObjectsRise objects.now }
    ensures { result ≡ list_any (λ t. o.0 == t.0) objects.now }
{
    objects.binary_search(&o).is_ok()
}

#[tactic(auto, using(crate::proofs::Linking::Ends::stands_targets_of))]
pub(crate) fn stands(graph: &Graph, link: &Link) -> bool
    ensures { result ≡ stands graph.now.model link.now }
{
    is_found(
        graph.others(link.source, Side::Outgoing, link.reference),
        link.target,
    )
}

// The first object of the first list of a containment that isn't empty.
pub(crate) fn holder_in(meta: &Metamodel, lists: &[EndList]) -> Option<ObjId>
    ensures { result ≡ holder_in (λ (e : EndList). e.reference) (λ e. e.objects) meta.now lists.now }
{
    for list in lists {
        if is_containment(meta, list.reference())
            && let Some(first) = list.objects().first()
        {
            return Some(*first);
        }
    }
    None
}

// What an object is in directly.
#[tactic(auto, using(crate::proofs::Linking::Inside::holder_in_is))]
fn holder(graph: &Graph, o: ObjId) -> Option<ObjId>
    requires valid { IsValid graph.now.meta graph.now.model }
    ensures { result ≡ holder graph.now.meta graph.now.model o }
{
    holder_in(graph.meta(), graph.ends(o, Side::Incoming))
}

// Whether an object is another one or in it, directly or indirectly.
#[tactic(auto, using(crate::proofs::Linking::Inside::within_step, crate::proofs::Linking::Inside::within_none, crate::proofs::Linking::Inside::within_itself, crate::proofs::Linking::Inside::within_end))]
pub(crate) fn is_inside(graph: &Graph, o: ObjId, outer: ObjId) -> bool
    requires valid { IsValid graph.now.meta graph.now.model }
    ensures { result ≡ is_inside graph.now.meta graph.now.model o outer }
{
    let mut object = o;
    // No object is deeper than there are numbers.
    for _ in 0..graph.next() {
        if object == outer {
            return true;
        }
        let Some(holder) = holder(graph, object) else {
            return false;
        };
        object = holder;
    }
    object == outer
}
