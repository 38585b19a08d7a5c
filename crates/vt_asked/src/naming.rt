// The live objects that a change names.
ghost use Rattle.std.specs.Prelude.{◌≡◌, ◌||◌, [], ◌∷◌, IfOk, IfErr, IsOk, Some};
ghost use Rattle.vt_model.specs.Model.{never_existed, was_deleted};
ghost use Rattle.vt_facts.specs.Firsts.{first_of};
ghost use Rattle.vt_model.specs.Valid.{IsValid};
ghost use Rattle.vt_model.specs.declared.change.Refusal.TheVariants as refusal;
ghost use Rattle.vt_asked.specs.Named.{IsNamed};
ghost use Rattle.vt_graph.specs.Asked.{seen_of};
ghost use Rattle.vt_graph.specs.declared.seen.Seen.TheVariants as seen;

use vt_base::{ClassId, ObjId, Text};
use vt_graph::{Graph, Seen};
use vt_model::Refusal;

/// A live object that a change names.
#[derive(Clone, Copy, Debug)]
pub struct Named {
    pub number: ObjId,
    pub class: ClassId,
}

// The live object that has a name, with its class.
fn with_class(graph: &Graph, name: &Text, number: ObjId) -> Result<Named, Refusal>
    requires valid { IsValid graph.now.meta graph.now.model }
    requires seen { seen_of graph.now.model name.now ≡ seen.Live number }
    ensures live { IfOk result (IsNamed graph.now.model name.now) }
    ensures there { IsOk result }
{
    match graph.class_of(number) {
        Some(class) => Ok(Named { number, class }),
        None => Err(Refusal::UnknownObject),
    }
}

// The live object of a name.
pub fn live_named(graph: &Graph, name: &Text) -> Result<Named, Refusal>
    requires valid { IsValid graph.now.meta graph.now.model }
    ensures live { IfOk result (IsNamed graph.now.model name.now) }
    ensures refused { IfErr result (λ why. first_of ((never_existed graph.now.model name.now, refusal.UnknownObject)
        ∷ (was_deleted graph.now.model name.now, refusal.Gone)
        ∷ []) ≡ Some why) }
{
    match graph.seen(name.as_str()) {
        Seen::Live(number) => with_class(graph, name, number),
        Seen::Gone(_) => Err(Refusal::Gone),
        Seen::Never => Err(Refusal::UnknownObject),
    }
}

// The live objects of two names.
pub(crate) fn both_live(graph: &Graph, one: &Text, other: &Text) -> Result<(Named, Named), Refusal>
    requires valid { IsValid graph.now.meta graph.now.model }
    ensures one { IfOk result (λ objects. IsNamed graph.now.model one.now objects.0) }
    ensures other { IfOk result (λ objects. IsNamed graph.now.model other.now objects.1) }
    ensures refused { IfErr result (λ why. first_of
        ((never_existed graph.now.model one.now || never_existed graph.now.model other.now, refusal.UnknownObject)
        ∷ (was_deleted graph.now.model one.now || was_deleted graph.now.model other.now, refusal.Gone)
        ∷ []) ≡ Some why) }
{
    match (graph.seen(one.as_str()), graph.seen(other.as_str())) {
        (Seen::Never, _) | (_, Seen::Never) => Err(Refusal::UnknownObject),
        (Seen::Gone(_), _) | (_, Seen::Gone(_)) => Err(Refusal::Gone),
        (Seen::Live(a), Seen::Live(b)) => {
            let a = with_class(graph, one, a)?;
            let b = with_class(graph, other, b)?;
            Ok((a, b))
        }
    }
}
