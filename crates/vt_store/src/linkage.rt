// The changes of links: Link, Unlink and Move.
ghost use Rattle.vt_model.specs.Sound.{IsSound};
ghost use Rattle.vt_model.specs.Valid.{IsValid};
ghost use Rattle.vt_model.specs.declared.change.Change.TheVariants as change;
ghost use Rattle.vt_store.specs.Changing.{Makes};

use crate::edit::Edit;
use crate::fault::StoreFault;
use crate::relinking::{make_link, unmake_link};
use std::alloc::Global;
use vt_asked::{containment_named, link_named};
use vt_base::{NoMemory, Text};
use vt_graph::Graph;

// Makes a Link.
#[tactic(auto, using(crate::proofs::MakesLemmas::makes_refusal, crate::proofs::LinkageLemmas::link_refused))]
pub(crate) fn link(
    graph: &mut Graph,
    alloc: Global,
    name: &Text,
    reference: &Text,
    target: &Text,
) -> Result<Edit, StoreFault>
    requires sound { IsSound graph.old.meta }
    requires valid { IsValid graph.old.meta graph.old.model }
    ensures { Makes (change.Link name.now reference.now target.now) graph.old graph.new result }
{
    // It tells that the links fit in their room.
    graph.meta();
    let asked = link_named(graph, name, reference, target)?;
    make_link(graph, alloc, asked)
}

// Makes an Unlink.
#[tactic(auto, using(crate::proofs::MakesLemmas::makes_refusal, crate::proofs::LinkageLemmas::unlink_refused))]
pub(crate) fn unlink(
    graph: &mut Graph,
    alloc: Global,
    name: &Text,
    reference: &Text,
    target: &Text,
) -> Result<Edit, StoreFault>
    requires sound { IsSound graph.old.meta }
    requires valid { IsValid graph.old.meta graph.old.model }
    ensures { Makes (change.Unlink name.now reference.now target.now) graph.old graph.new result }
{
    graph.meta();
    let asked = link_named(graph, name, reference, target)?;
    match unmake_link(graph, alloc, asked) {
        Ok(edit) => Ok(edit),
        Err(NoMemory) => Err(StoreFault::NoMemory),
    }
}

// Makes a Move.
#[tactic(auto, using(crate::proofs::MakesLemmas::makes_refusal, crate::proofs::LinkageLemmas::move_refused))]
pub(crate) fn move_to(
    graph: &mut Graph,
    alloc: Global,
    child: &Text,
    parent: &Text,
    reference: &Text,
) -> Result<Edit, StoreFault>
    requires sound { IsSound graph.old.meta }
    requires valid { IsValid graph.old.meta graph.old.model }
    ensures { Makes (change.Move child.now parent.now reference.now) graph.old graph.new result }
{
    graph.meta();
    let asked = containment_named(graph, child, parent, reference)?;
    make_link(graph, alloc, asked)
}
