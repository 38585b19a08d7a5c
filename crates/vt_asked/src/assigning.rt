// What Set and Unset ask for.
ghost use Rattle.std.specs.Prelude.{◌≡◌, IfOk, IfErr, Ok, Err};
ghost use Rattle.vt_model.specs.Assigning.{with_default_value};
ghost use Rattle.vt_model.specs.Effect.{effect};
ghost use Rattle.vt_model.specs.Valid.{IsValid};
ghost use Rattle.vt_model.specs.declared.change.Change.TheVariants as change;
ghost use Rattle.vt_graph.specs.Having.{HasAttribute};

use crate::naming::live_named;
use crate::valuing::{attribute_asked, value_asked};
use vt_base::{AttrId, ObjId, Text, Value};
use vt_graph::{Graph, default_value};
use vt_model::{Given, Refusal};

/// An attribute of a live object, and the value that it gets, if any.
#[derive(Debug, Drop)]
pub struct Assignment {
    pub object: ObjId,
    pub attribute: AttrId,
    pub value: Option<Value>,
}

/// The assignment that a Set is.
#[tactic(auto, using(crate::proofs::AssigningLemmas::set_not_live, crate::proofs::AssigningLemmas::set_no_feature, crate::proofs::AssigningLemmas::set_no_attribute, crate::proofs::AssigningLemmas::set_refused, crate::proofs::AssigningLemmas::set_made, crate::proofs::AssigningLemmas::has_attribute))]
pub fn set_asked(
    graph: &Graph,
    name: &Text,
    attribute: &Text,
    given: &Given,
) -> Result<Assignment, Refusal>
    requires valid { IsValid graph.now.meta graph.now.model }
    ensures made { IfOk result (λ a.
        effect graph.now.meta graph.now.model (change.Set name.now attribute.now given.now)
        ≡ Ok (with_default_value graph.now.model a.object a.attribute a.value)) }
    ensures had { IfOk result (λ a. HasAttribute graph.now.meta graph.now.model a.object a.attribute) }
    ensures refused { IfErr result (λ why.
        effect graph.now.meta graph.now.model (change.Set name.now attribute.now given.now) ≡ Err why) }
{
    let object = live_named(graph, name)?;
    let Some(feature) = graph.meta().feature(object.class, attribute.as_str()) else {
        return Err(Refusal::UnknownFeature);
    };
    let Some((attribute, kind)) = attribute_asked(graph.meta(), feature) else {
        return Err(Refusal::WrongKind);
    };
    let value = value_asked(graph.meta(), given, kind)?;
    Ok(Assignment {
        object: object.number,
        attribute,
        value: Some(value),
    })
}

/// The assignment that an Unset is.
#[tactic(auto, using(crate::proofs::AssigningLemmas::unset_not_live, crate::proofs::AssigningLemmas::unset_no_feature, crate::proofs::AssigningLemmas::unset_no_attribute, crate::proofs::AssigningLemmas::unset_made, crate::proofs::AssigningLemmas::has_attribute))]
pub fn unset_asked(graph: &Graph, name: &Text, attribute: &Text) -> Result<Assignment, Refusal>
    requires valid { IsValid graph.now.meta graph.now.model }
    ensures made { IfOk result (λ a.
        effect graph.now.meta graph.now.model (change.Unset name.now attribute.now)
        ≡ Ok (with_default_value graph.now.model a.object a.attribute a.value)) }
    ensures had { IfOk result (λ a. HasAttribute graph.now.meta graph.now.model a.object a.attribute) }
    ensures refused { IfErr result (λ why.
        effect graph.now.meta graph.now.model (change.Unset name.now attribute.now) ≡ Err why) }
{
    let object = live_named(graph, name)?;
    let Some(feature) = graph.meta().feature(object.class, attribute.as_str()) else {
        return Err(Refusal::UnknownFeature);
    };
    let Some((attribute, kind)) = attribute_asked(graph.meta(), feature) else {
        return Err(Refusal::WrongKind);
    };
    Ok(Assignment {
        object: object.number,
        attribute,
        value: default_value(kind),
    })
}
