// A change of any kind.
ghost use Rattle.vt_model.specs.Sound.{IsSound};
ghost use Rattle.vt_model.specs.Valid.{IsValid};
ghost use Rattle.vt_store.specs.Changing.{Makes};

use crate::Store;
use crate::assignment::{set, unset};
use crate::creation::create;
use crate::deletion::delete;
use crate::edit::Edit;
use crate::fault::StoreFault;
use crate::linkage::{link, move_to, unlink};
use std::alloc::Global;
use vt_graph::Graph;
use vt_model::Change;

fn make(graph: &mut Graph, alloc: Global, change: &Change) -> Result<Edit, StoreFault>
    requires sound { IsSound graph.old.meta }
    requires valid { IsValid graph.old.meta graph.old.model }
    ensures { Makes change.now graph.old graph.new result }
{
    match change {
        Change::Create {
            name,
            class,
            number,
        } => create(graph, alloc, name, class, *number),
        Change::Delete { name } => delete(graph, alloc, name),
        Change::Set { name, attr, value } => set(graph, alloc, name, attr, value),
        Change::Unset { name, attr } => unset(graph, alloc, name, attr),
        Change::Link {
            name,
            reference,
            target,
        } => link(graph, alloc, name, reference, target),
        Change::Unlink {
            name,
            reference,
            target,
        } => unlink(graph, alloc, name, reference, target),
        Change::Move {
            child,
            parent,
            reference,
        } => move_to(graph, alloc, child, parent, reference),
    }
}

impl Store {
    /// Makes a change, or says why it isn't made.
    pub fn apply(&mut self, alloc: Global, change: &Change) -> Result<Edit, StoreFault>
        ensures { Makes change.now self.old self.new result }
    {
        // It tells that what is given can be held.
        change.gives_storable();
        make(&mut self.graph, alloc, change)
    }
}
