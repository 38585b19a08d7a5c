// The links that changes ask for.
ghost use Rattle.std.specs.Prelude.{◌≡◌, [], ◌∷◌, IfOk, IfErr, Some, None, is_none};
ghost use Rattle.vt_model.specs.Metamodel.{feature};
ghost use Rattle.vt_model.specs.Linking.{reference_of, is_target};
ghost use Rattle.vt_model.specs.Effect.{link_asked};
ghost use Rattle.vt_model.specs.Fits.{FitsReference};
ghost use Rattle.vt_model.specs.Valid.{IsValid};
ghost use Rattle.vt_model.specs.declared.change.Refusal.TheVariants as refusal;
ghost use Rattle.vt_asked.specs.Asking.{link_tests, move_tests};
ghost use Rattle.vt_facts.specs.Firsts.{first_of};

use crate::naming::{Named, both_live};
use crate::references::is_containment;
use vt_base::{ClassId, RefId, Text};
use vt_graph::Graph;
use vt_model::{Feature, Link, Metamodel, Refusal};

fn reference_of(feature: Feature) -> Option<RefId>
    ensures { result ≡ reference_of (Some feature) }
{
    match feature {
        Feature::Ref(r) => Some(r),
        Feature::Attr(_) => None,
    }
}

// The reference of this name that a class has.
fn reference_asked(meta: &Metamodel, class: ClassId, name: &Text) -> Result<RefId, Refusal>
    ensures found { IfOk result (λ r. reference_of (feature meta.now class name.now) ≡ Some r) }
    ensures refused { IfErr result (λ why. first_of ((is_none (feature meta.now class name.now), refusal.UnknownFeature)
        ∷ (is_none (reference_of (feature meta.now class name.now)), refusal.WrongKind)
        ∷ []) ≡ Some why) }
{
    let Some(feature) = meta.feature(class, name.as_str()) else {
        return Err(Refusal::UnknownFeature);
    };
    match reference_of(feature) {
        Some(r) => Ok(r),
        None => Err(Refusal::WrongKind),
    }
}

fn is_target(meta: &Metamodel, r: RefId, object: Named) -> bool
    ensures { (name : _) → result ≡ is_target meta.now (Some r) (Some (record { number = object.number; name = name; class = object.class })) }
{
    match meta.reference(r) {
        Some(info) => meta.isa(object.class, info.target),
        None => false,
    }
}

fn link_of(source: Named, reference: RefId, target: Named) -> Link
    ensures { result ≡ record { source = source.number; reference = reference; target = target.number } }
{
    Link {
        source: source.number,
        reference,
        target: target.number,
    }
}

// The link that three names ask for.
pub fn link_named(
    graph: &Graph,
    name: &Text,
    reference: &Text,
    target: &Text,
) -> Result<Link, Refusal>
    requires valid { IsValid graph.now.meta graph.now.model }
    ensures passes { IfOk result (λ _. first_of (link_tests graph.now.meta graph.now.model name.now reference.now target.now) ≡ None) }
    ensures asked { IfOk result (λ link. link_asked graph.now.meta graph.now.model name.now reference.now target.now ≡ Some link) }
    ensures fits { IfOk result (FitsReference graph.now.meta graph.now.model.live) }
    ensures refused { IfErr result (λ why. first_of (link_tests graph.now.meta graph.now.model name.now reference.now target.now) ≡ Some why) }
{
    let (source, end) = both_live(graph, name, target)?;
    let r = reference_asked(graph.meta(), source.class, reference)?;
    if !is_target(graph.meta(), r, end) {
        return Err(Refusal::WrongTarget);
    }
    Ok(link_of(source, r, end))
}

// The containment by which a child goes into a parent.
pub fn containment_named(
    graph: &Graph,
    child: &Text,
    parent: &Text,
    reference: &Text,
) -> Result<Link, Refusal>
    requires valid { IsValid graph.now.meta graph.now.model }
    ensures passes { IfOk result (λ _. first_of (move_tests graph.now.meta graph.now.model child.now parent.now reference.now) ≡ None) }
    ensures asked { IfOk result (λ link. link_asked graph.now.meta graph.now.model parent.now reference.now child.now ≡ Some link) }
    ensures fits { IfOk result (FitsReference graph.now.meta graph.now.model.live) }
    ensures refused { IfErr result (λ why. first_of (move_tests graph.now.meta graph.now.model child.now parent.now reference.now) ≡ Some why) }
{
    let (end, source) = both_live(graph, child, parent)?;
    let r = reference_asked(graph.meta(), source.class, reference)?;
    if !is_containment(graph.meta(), r) {
        return Err(Refusal::WrongKind);
    }
    if !is_target(graph.meta(), r, end) {
        return Err(Refusal::WrongTarget);
    }
    Ok(link_of(source, r, end))
}
