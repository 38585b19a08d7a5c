// Which references the objects of each class have.
ghost use Rattle.std.specs.Prelude.{◌≡◌, ◌<◌, [], length, IfOk, slice_get, unwrap_or};
ghost use Rattle.vt_model_json.specs.Inside.Plan.{owned_by, IsPlan};

use std::alloc::Global;
use vt_base::{ClassId, List, NoMemory, RefId};
use vt_meta::Metamodel;

// The references that a class has, its own and those of the classes above it.
fn references_of(alloc: Global, meta: &Metamodel, class: ClassId) -> Result<List<RefId>, NoMemory>
    ensures { IfOk result (λ numbers. numbers ≡ owned_by meta.now class) }
{
    let mut numbers = List::new(alloc);
    for (r, info) in meta.references().iter().enumerate() {
        if meta.isa(class, info.class) {
            numbers.add(RefId(r as u16))?;
        }
    }
    Ok(numbers)
}

/// The references of each class, at its number.
#[tactic(auto, using(crate::proofs::PlanLemmas::add_class))]
pub(crate) fn by_class(alloc: Global, meta: &Metamodel) -> Result<List<List<RefId>>, NoMemory>
    ensures { IfOk result (IsPlan meta.now (length meta.now.classes)) }
{
    let mut plan = List::new(alloc);
    for c in 0..meta.class_count() {
        plan.add(references_of(alloc, meta, ClassId(c))?)?;
    }
    Ok(plan)
}

/// The references of one class.
pub(crate) fn at(plan: &[List<RefId>], class: ClassId) -> &[RefId]
    ensures { result.now ≡ unwrap_or (slice_get plan.now class.0) [] }
{
    match plan.get(class.0 as usize) {
        Some(numbers) => numbers.as_slice(),
        None => &[],
    }
}
