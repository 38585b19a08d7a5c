// Taking back what a change did.
ghost use Rattle.std.specs.Prelude.{◌≡◌, ◌<◌, ◌++◌, map, All, Contains};
ghost use Rattle.vt_graph.specs.Having.{HasAttribute};
ghost use Rattle.vt_graph.specs.Room.{KeepsRoom, HasRoom, HasRoomFor};
ghost use Rattle.vt_slots.specs.declared.slot.Side.TheVariants.{Outgoing, Incoming};
ghost use Rattle.vt_model.specs.Valid.{IsValid};
ghost use Rattle.vt_store.specs.Edits.{undone};
ghost use Rattle.vt_store.specs.Undoing.{KeepsRoomOf, Fits};
ghost use Rattle.vt_store.specs.Inside.Assigned.{without_values, with_values};
ghost use Rattle.vt_store.specs.Inside.Displaced.{EndsLive, IsReturning, with_one, with_each};
ghost use Rattle.vt_store.specs.Inside.Kept.{waiting_place, raised_back, settled, CanRaise, CanSettle};

use crate::edit::Edit;
use crate::relinking::drop_back;
use vt_base::{List, Value};
use vt_graph::{Buried, Graph};
use vt_model::{AttributeValue, Link, Object};

// ---- values

fn share(value: &Value) -> Value
    ensures { result ≡ value.now }
{
    match value {
        Value::Bool(b) => Value::Bool(*b),
        Value::Int(n) => Value::Int(*n),
        Value::Text(text) => Value::Text(text.share()),
        Value::Enum(e, l) => Value::Enum(*e, *l),
        Value::Obj(o) => Value::Obj(*o),
    }
}

// Takes values of live objects away.
pub(crate) fn take_values(graph: &mut Graph, values: &[AttributeValue])
    requires had { All (λ t. HasAttribute graph.old.meta graph.old.model t.object t.attribute) values.now }
    ensures meta { graph.new.meta ≡ graph.old.meta }
    ensures taken { graph.new.model ≡ without_values graph.old.model values.now }
    ensures places { graph.new.places ≡ graph.old.places }
{
    for held in values {
        graph.put_value(held.object, held.attribute, None);
    }
}

// Puts values back.
fn put_values(graph: &mut Graph, values: &[AttributeValue])
    requires had { All (λ t. HasAttribute graph.old.meta graph.old.model t.object t.attribute) values.now }
    ensures meta { graph.new.meta ≡ graph.old.meta }
    ensures put { graph.new.model ≡ with_values graph.old.model values.now }
    ensures places { graph.new.places ≡ graph.old.places }
{
    for held in values {
        graph.put_value(held.object, held.attribute, Some(share(&held.value)));
    }
}

// ---- objects

// Lets deleted objects live again, the last first.
fn raise_all(graph: &mut Graph, deleted: List<Buried>)
    requires can { CanRaise graph.old deleted }
    ensures meta { graph.new.meta ≡ graph.old.meta }
    ensures raised { graph.new.model ≡ raised_back graph.old.model deleted }
    ensures room { KeepsRoom (map waiting_place deleted ++ graph.old.places) graph.new.places }
{
    let mut waiting = deleted;
    while let Some(buried) = waiting.pop() {
        graph.raise(buried);
    }
}

// A created object was never made, or else deleted ones live again.
#[tactic(auto, using(crate::proofs::Reverted::Settled::retracted_room, crate::proofs::Reverted::Settled::returned_room))]
fn settle(graph: &mut Graph, next: u32, created: Option<Object>, deleted: List<Buried>)
    requires can { CanSettle graph.old next created deleted }
    ensures meta { graph.new.meta ≡ graph.old.meta }
    ensures settled { graph.new.model ≡ settled next created deleted graph.old.model }
    ensures room { KeepsRoomOf graph.new.model (map waiting_place deleted ++ graph.old.places) graph.new.places }
{
    match created {
        Some(object) => graph.retract(object.number, next),
        None => {
            raise_all(graph, deleted);
            graph.set_next(next);
        }
    }
}

// ---- links

// Adds a link for which there is room.
fn put_link(graph: &mut Graph, link: Link)
    requires live { EndsLive graph.old.model link }
    requires fresh { Contains graph.old.model.links link → ⊥ }
    requires out { HasRoomFor graph.old link.source Outgoing link.reference }
    requires into { HasRoomFor graph.old link.target Incoming link.reference }
    ensures meta { graph.new.meta ≡ graph.old.meta }
    ensures put { graph.new.model ≡ with_one graph.old.model link }
    ensures room { KeepsRoom graph.old.places graph.new.places }
{
    let _ = graph.add_link(link);
}

// Adds links for which there is room.
fn put_links(graph: &mut Graph, links: &[Link])
    requires returning { IsReturning (with_each graph.old.model links.now) graph.old.model links.now }
    requires live { All (EndsLive graph.old.model) links.now }
    requires room { HasRoom graph.old.places (with_each graph.old.model links.now) }
    ensures meta { graph.new.meta ≡ graph.old.meta }
    ensures put { graph.new.model ≡ with_each graph.old.model links.now }
    ensures room { KeepsRoom graph.old.places graph.new.places }
{
    for link in links {
        put_link(graph, *link);
    }
}

// ---- all

// Takes back what a change did.
pub(crate) fn revert(graph: &mut Graph, edit: Edit)
    requires fits { Fits edit graph.old }
    requires valid { IsValid graph.old.meta graph.old.model }
    ensures meta { graph.new.meta ≡ graph.old.meta }
    ensures made { graph.new.model ≡ undone edit.edit graph.old.model }
    ensures room { KeepsRoomOf graph.new.model (edit.waiting ++ graph.old.places) graph.new.places }
{
    let Edit {
        next,
        created,
        deleted,
        values_added,
        values_removed,
        links_added,
        links_removed,
        ..
    } = edit;
    drop_back(graph, links_added.as_slice());
    take_values(graph, values_added.as_slice());
    settle(graph, next, created, deleted);
    put_values(graph, values_removed.as_slice());
    put_links(graph, links_removed.as_slice());
}
