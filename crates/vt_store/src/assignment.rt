// What Set and Unset do.
ghost use Rattle.std.specs.Prelude.{◌≡◌, [], IfOk, OnOk, OnErr};
ghost use Rattle.std.specs.Option.{option_copied};
ghost use Rattle.vt_model.specs.Assigning.{with_default_value};
ghost use Rattle.vt_model.specs.Sound.{IsSound};
ghost use Rattle.vt_model.specs.Valid.{IsValid};
ghost use Rattle.vt_model.specs.declared.change.Change.TheVariants as change;
ghost use Rattle.vt_graph.specs.Asked.{value_at};
ghost use Rattle.vt_graph.specs.Having.{HasAttribute};
ghost use Rattle.vt_store.specs.Changing.{Makes};
ghost use Rattle.vt_store.specs.Inside.Assigned.{same_given, held_value, value_change, values_edit};

use crate::edit::Edit;
use crate::fault::StoreFault;
use std::alloc::Global;
use vt_asked::{Assignment, set_asked, unset_asked};
use vt_base::{AttrId, List, NoMemory, ObjId, Plain, Text, Value};
use vt_graph::Graph;
use vt_model::{AttributeValue, Given};

// Whether two values that may be missing are the same.
fn same_given(one: Option<&Value>, other: Option<&Value>) -> bool
    ensures { result ≡ same_given (option_copied one.entry) (option_copied other.entry) }
{
    match (one, other) {
        (None, None) => true,
        (Some(v), Some(w)) => v.compare(w).is_eq(),
        _ => false,
    }
}

// The value that is held, as a list of one, where there is one.
fn held(
    alloc: Global,
    object: ObjId,
    attribute: AttrId,
    value: Option<&Value>,
) -> Result<List<AttributeValue>, NoMemory>
    ensures { IfOk result (λ values. values ≡ held_value object attribute (option_copied value.entry)) }
{
    let mut values = List::new(alloc);
    if let Some(value) = value {
        values.add(AttributeValue {
            object,
            attribute,
            value: value.copy(alloc)?,
        })?;
    }
    Ok(values)
}

// The values that come and those that go where one value takes the place of another.
fn value_change(
    alloc: Global,
    object: ObjId,
    attribute: AttrId,
    before: Option<&Value>,
    after: Option<&Value>,
) -> Result<(List<AttributeValue>, List<AttributeValue>), NoMemory>
    ensures { IfOk result (λ p. record { added = p.0; removed = p.1 }
        ≡ value_change object attribute (option_copied before.entry) (option_copied after.entry)) }
{
    if same_given(before, after) {
        return Ok((List::new(alloc), List::new(alloc)));
    }
    let added = held(alloc, object, attribute, after)?;
    let removed = held(alloc, object, attribute, before)?;
    Ok((added, removed))
}

// Gives an attribute its value, or none.
fn assign(graph: &mut Graph, alloc: Global, asked: Assignment) -> Result<Edit, NoMemory>
    requires had { HasAttribute graph.old.meta graph.old.model asked.object asked.attribute }
    ensures meta { graph.new.meta ≡ graph.old.meta }
    ensures made { OnOk result (graph.new.model ≡ with_default_value graph.old.model asked.object asked.attribute asked.value) }
    ensures edit { IfOk result (λ edit. edit ≡ record {
      meta = graph.old.meta;
      edit = values_edit graph.old.model.next
          (value_change asked.object asked.attribute (value_at graph.old.model asked.object asked.attribute) asked.value);
      waiting = [];
    }) }
    ensures unchanged { OnErr result (graph.new.model ≡ graph.old.model) }
    ensures places { graph.new.places ≡ graph.old.places }
{
    let Assignment {
        object,
        attribute,
        value,
    } = asked;
    let (added, removed) = value_change(
        alloc,
        object,
        attribute,
        graph.value(object, attribute),
        value.as_ref(),
    )?;
    graph.put_value(object, attribute, value);
    Ok(Edit::of_values(alloc, graph.meta(), graph.next(), added, removed))
}

// Makes a Set.
#[tactic(auto, using(crate::proofs::MakesLemmas::makes_refusal, crate::proofs::AssignmentLemmas::makes_no_assignment))]
pub(crate) fn set(
    graph: &mut Graph,
    alloc: Global,
    name: &Text,
    attribute: &Text,
    given: &Given,
) -> Result<Edit, StoreFault>
    requires sound { IsSound graph.old.meta }
    requires valid { IsValid graph.old.meta graph.old.model }
    ensures { Makes (change.Set name.now attribute.now given.now) graph.old graph.new result }
{
    // They tell that the links fit in their room, and that the value can be held.
    graph.meta();
    given.is_givable();
    let asked = set_asked(graph, name, attribute, given)?;
    let edit = assign(graph, alloc, asked)?;
    Ok(edit)
}

// Makes an Unset.
#[tactic(auto, using(crate::proofs::MakesLemmas::makes_refusal, crate::proofs::AssignmentLemmas::makes_no_assignment))]
pub(crate) fn unset(
    graph: &mut Graph,
    alloc: Global,
    name: &Text,
    attribute: &Text,
) -> Result<Edit, StoreFault>
    requires sound { IsSound graph.old.meta }
    requires valid { IsValid graph.old.meta graph.old.model }
    ensures { Makes (change.Unset name.now attribute.now) graph.old graph.new result }
{
    graph.meta();
    let asked = unset_asked(graph, name, attribute)?;
    let edit = assign(graph, alloc, asked)?;
    Ok(edit)
}
