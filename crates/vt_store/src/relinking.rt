// What Link, Unlink and Move do.
ghost use Rattle.std.specs.Prelude.{◌≡◌, [], fold, reverse, IfOk, OnOk, OnErr, Some, Ok, Err, filter};
ghost use Rattle.vt_model.specs.Linking.{is_dropped, with_link, relinked, unlinked};
ghost use Rattle.vt_model.specs.Containing.{is_circular};
ghost use Rattle.vt_model.specs.declared.change.Refusal.{Refusal};
ghost use Rattle.vt_store.specs.Edits.{edit_of};
ghost use Rattle.vt_asked.specs.Asking.{link_effect};
ghost use Rattle.vt_store.specs.declared.fault.StoreFault.TheVariants as fault;
ghost use Rattle.vt_model.specs.Fits.{FitsReference};
ghost use Rattle.vt_model.specs.Sound.{IsSound};
ghost use Rattle.vt_model.specs.Valid.{IsValid};
ghost use Rattle.vt_graph.specs.Room.{KeepsRoom};
ghost use Rattle.vt_store.specs.Inside.Displaced.{NoneStands, links_edit, without_link, EndsLive};
ghost use Rattle.vt_store.specs.Inside.Leaving.{LeavesRoom};

use crate::displaced::{add_both, arrange, displaced, holder_in, is_inside, stands};
use crate::edit::Edit;
use crate::fault::StoreFault;
use std::alloc::Global;
use vt_asked::{is_containment, link_back, oriented};
use vt_base::{List, NoMemory};
use vt_graph::Graph;
use vt_model::{Link, Metamodel, Refusal};
use vt_slots::Side;

// A link and its opposite, in order.
#[tactic(auto, using(crate::proofs::Linking::Both::arranged_both))]
fn both(alloc: Global, meta: &Metamodel, link: Link) -> Result<Vec<Link>, NoMemory>
    ensures { IfOk result (λ links. links.items ≡ with_link meta.now [] link) }
{
    let mut links = Vec::new(alloc);
    add_both(&mut links, meta, link)?;
    arrange(&mut links);
    Ok(links)
}

// Drops links, the last first, so that a long list loses its end.
pub(crate) fn drop_back(graph: &mut Graph, gone: &[Link])
    ensures meta { graph.new.meta ≡ graph.old.meta }
    ensures dropped { graph.new.model ≡ fold without_link graph.old.model (reverse gone.now) }
    ensures room { KeepsRoom graph.old.places graph.new.places }
{
    for link in gone.iter().rev() {
        graph.drop_link(*link);
    }
}

// A link comes with its opposite, or neither does.
fn add_with_back(graph: &mut Graph, link: Link) -> Result<(), NoMemory>
    requires live { EndsLive graph.old.model link }
    requires fresh { NoneStands graph.old.meta graph.old.model link }
    requires sound { IsSound graph.old.meta }
    requires valid { IsValid graph.old.meta graph.old.model }
    ensures meta { graph.new.meta ≡ graph.old.meta }
    ensures added { OnOk result (graph.new.model ≡ record graph.old.model { links = with_link graph.old.meta graph.old.model.links link }) }
    ensures unchanged { OnErr result (graph.new.model ≡ graph.old.model) }
    ensures room { KeepsRoom graph.old.places graph.new.places }
{
    graph.add_link(link)?;
    let Some(back) = link_back(graph.meta(), &link) else {
        return Ok(());
    };
    match graph.add_link(back) {
        Ok(()) => Ok(()),
        Err(error) => {
            graph.drop_link(link);
            Err(error)
        }
    }
}

// What is displaced goes, and the link comes with its opposite.
fn relink(graph: &mut Graph, alloc: Global, link: Link) -> Result<Edit, NoMemory>
    requires sound { IsSound graph.old.meta }
    requires valid { IsValid graph.old.meta graph.old.model }
    requires fits { FitsReference graph.old.meta graph.old.model.live link }
    requires fresh { NoneStands graph.old.meta graph.old.model link }
    ensures leaves { LeavesRoom graph.old graph.new }
    ensures made { OnOk result (graph.new.model ≡ relinked graph.old.meta graph.old.model link) }
    ensures edit { IfOk result (λ edit. edit ≡ record {
      meta = graph.old.meta;
      edit = links_edit graph.old.model.next (with_link graph.old.meta [] link) (filter (is_dropped graph.old.meta link) graph.old.model.links);
      waiting = [];
    }) }
    ensures unchanged { OnErr result (graph.new.model ≡ graph.old.model) }
{
    let dropped = displaced(graph, alloc, &link)?;
    let added = both(alloc, graph.meta(), link)?;
    add_with_back(graph, link)?;
    drop_back(graph, dropped.as_slice());
    Ok(Edit::of_links(
        alloc,
        graph.meta(),
        graph.next(),
        List::from_vec(added),
        List::from_vec(dropped),
    ))
}

// Whether a new containment would put an object into itself.
fn is_circular(graph: &Graph, link: &Link) -> bool
    requires valid { IsValid graph.now.meta graph.now.model }
    ensures { result ≡ is_circular graph.now.meta graph.now.model link.now }
{
    if !is_containment(graph.meta(), link.reference) {
        return false;
    }
    // Nothing is in what contains nothing, so a chain that is made from the top down takes no walks.
    if holder_in(graph.meta(), graph.ends(link.target, Side::Outgoing)).is_none() {
        return link.source == link.target;
    }
    is_inside(graph, link.source, link.target)
}

// An edit that changes nothing.
fn no_edit(graph: &Graph, alloc: Global) -> Edit
    ensures { result ≡ record { meta = graph.now.meta; edit = links_edit graph.now.model.next [] []; waiting = [] } }
{
    Edit::of_links(
        alloc,
        graph.meta(),
        graph.next(),
        List::new(alloc),
        List::new(alloc),
    )
}

// Makes a link that is asked for, unless it would close a cycle.
#[tactic(auto, using(crate::proofs::Linking::Coming::linked_new, crate::proofs::Linking::Coming::linked_stands, crate::proofs::Linking::Coming::none_stands_oriented, crate::proofs::Linking::Coming::fits_oriented, crate::proofs::Linking::LinkEdits::edit_of_itself))]
pub(crate) fn make_link(graph: &mut Graph, alloc: Global, asked: Link) -> Result<Edit, StoreFault>
    requires sound { IsSound graph.old.meta }
    requires valid { IsValid graph.old.meta graph.old.model }
    requires fits { FitsReference graph.old.meta graph.old.model.live asked }
    ensures leaves { LeavesRoom graph.old graph.new }
    ensures made { OnOk result (link_effect graph.old.meta graph.old.model asked ≡ Ok graph.new.model) }
    ensures refused { (why : Refusal) → result ≡ Err (fault.Refused why)
        → link_effect graph.old.meta graph.old.model asked ≡ Err why }
    ensures edit { IfOk result (λ edit. edit ≡ record { meta = graph.old.meta; edit = edit_of graph.old.model graph.new.model; waiting = [] }) }
    ensures unchanged { OnErr result (graph.new.model ≡ graph.old.model) }
{
    if stands(graph, &asked) {
        return Ok(no_edit(graph, alloc));
    }
    let link = oriented(graph.meta(), asked);
    if is_circular(graph, &link) {
        return Err(StoreFault::Refused(Refusal::ContainmentCycle));
    }
    Ok(relink(graph, alloc, link)?)
}

// Drops a link and its opposite.
#[tactic(auto, using(crate::proofs::Linking::Unlinking::unlinked_alone, crate::proofs::Linking::Unlinking::unlinked_both))]
fn drop_with_back(graph: &mut Graph, link: Link)
    requires sound { IsSound graph.old.meta }
    ensures meta { graph.new.meta ≡ graph.old.meta }
    ensures dropped { graph.new.model ≡ unlinked graph.old.meta graph.old.model link }
    ensures room { KeepsRoom graph.old.places graph.new.places }
{
    graph.drop_link(link);
    if let Some(back) = link_back(graph.meta(), &link) {
        graph.drop_link(back);
    }
}

// Takes a link away that is asked for, with its opposite.
#[tactic(auto, using(crate::proofs::Linking::Unlinking::unlinked_none, crate::proofs::Linking::LinkEdits::edit_of_itself))]
pub(crate) fn unmake_link(graph: &mut Graph, alloc: Global, asked: Link) -> Result<Edit, NoMemory>
    requires sound { IsSound graph.old.meta }
    requires valid { IsValid graph.old.meta graph.old.model }
    ensures leaves { LeavesRoom graph.old graph.new }
    ensures made { OnOk result (graph.new.model ≡ unlinked graph.old.meta graph.old.model asked) }
    ensures edit { IfOk result (λ edit. edit ≡ record { meta = graph.old.meta; edit = edit_of graph.old.model graph.new.model; waiting = [] }) }
    ensures unchanged { OnErr result (graph.new.model ≡ graph.old.model) }
{
    if !stands(graph, &asked) {
        return Ok(no_edit(graph, alloc));
    }
    let removed = both(alloc, graph.meta(), asked)?;
    drop_with_back(graph, asked);
    Ok(Edit::of_links(
        alloc,
        graph.meta(),
        graph.next(),
        List::new(alloc),
        List::from_vec(removed),
    ))
}
