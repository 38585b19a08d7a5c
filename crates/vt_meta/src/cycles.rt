// Classes that are their own supertypes.
ghost use Rattle.std.specs.Prelude.{◌≡◌, IfOk, map};
ghost use Rattle.vt_meta.specs.Faults.{is_above_itself, at_class};
ghost use Rattle.vt_meta.specs.Inside.Above.{class_places, supers_places};
ghost use Rattle.vt_model.specs.Above.{class_id, supers_at, is_above_any, AreThere};

use crate::document::{ClassDocument, MetamodelDocument};
use crate::resolved::Resolved;
use std::alloc::Global;
use vt_base::{List, NoMemory};
use vt_json::Identifier;
use vt_model::classes_above;

fn class_places(
    alloc: Global,
    resolved: &Resolved,
    names: &[Identifier],
) -> Result<List<usize>, NoMemory>
    ensures { IfOk result (λ places. places ≡ class_places resolved.now.document names.now) }
{
    let mut places = List::new(alloc);
    for name in names {
        places.add(resolved.class_place(name.as_text()).unwrap_or(0))?;
    }
    Ok(places)
}

fn all_supers(
    alloc: Global,
    resolved: &Resolved,
    classes: &[ClassDocument],
) -> Result<List<List<usize>>, NoMemory>
    ensures { IfOk result (λ places. places ≡ map (λ c. class_places resolved.now.document c.supers) classes.now) }
{
    let mut places = List::new(alloc);
    for class in classes {
        places.add(class_places(alloc, resolved, class.supers.as_slice())?)?;
    }
    Ok(places)
}

/// The places of the supertypes of each class.
pub(crate) fn supers_places(
    alloc: Global,
    resolved: &Resolved,
) -> Result<List<List<usize>>, NoMemory>
    ensures { IfOk result (λ places. places ≡ supers_places resolved.now.document) }
{
    all_supers(alloc, resolved, resolved.document.classes.as_slice())
}

fn direct_supers(supers: &[List<usize>], class: usize) -> &[usize]
    ensures { result.now ≡ supers_at supers.now class }
{
    match supers.get(class) {
        Some(direct) => direct.as_slice(),
        None => &[],
    }
}

#[tactic(auto, using(crate::proofs::SupersLemmas::supers_below))]
fn is_above_itself(alloc: Global, supers: &[List<usize>], class: usize) -> Result<bool, NoMemory>
    requires { AreThere supers.now }
    ensures { IfOk result (λ itself. itself ≡ is_above_any supers.now (supers_at supers.now class) class) }
{
    let above = classes_above(alloc, supers, direct_supers(supers, class))?;
    Ok(above.contains(&class))
}

/// The first class that is its own supertype.
pub(crate) fn super_cycle_place(
    alloc: Global,
    document: &MetamodelDocument,
    supers: &[List<usize>],
) -> Result<Option<usize>, NoMemory>
    requires { supers.now ≡ supers_places document.now }
    ensures { IfOk result (λ place. place ≡ at_class document.now (λ n c. is_above_itself document.now (class_id n))) }
{
    for i in 0..supers.len() {
        if is_above_itself(alloc, supers, i)? {
            return Ok(Some(document.place_of_class(i)));
        }
    }
    Ok(None)
}
