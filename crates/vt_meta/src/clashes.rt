// Classes with two different features of one name.
ghost use Rattle.std.specs.Prelude.{◌≡◌, ◌++◌, ◌<◌, IfOk, OnOk, length, not};
ghost use Rattle.vt_facts.specs.Names.{is_distinct};
ghost use Rattle.vt_meta.specs.Faults.{has_clash, at_class};
ghost use Rattle.vt_meta.specs.Inside.Above.{supers_places};
ghost use Rattle.vt_model.specs.Above.{class_id};
ghost use Rattle.vt_meta.specs.Inside.Features.{names_at, names_at_each};

use crate::document::{ClassDocument, MetamodelDocument};
use crate::duplicates::{add_declared_names, is_distinct};
use std::alloc::Global;
use vt_base::{List, NoMemory, Text};
use vt_model::classes_above;

fn add_names_at(
    names: &mut List<Text>,
    classes: &[ClassDocument],
    place: usize,
) -> Result<(), NoMemory>
    ensures { OnOk result (names.new ≡ names.old ++ names_at classes.now place) }
{
    match classes.get(place) {
        Some(class) => add_declared_names(names, class),
        None => Ok(()),
    }
}

// The names of the features that the classes at some places declare.
fn names_at_each(
    alloc: Global,
    classes: &[ClassDocument],
    places: &[usize],
) -> Result<List<Text>, NoMemory>
    ensures { IfOk result (λ names. names ≡ names_at_each classes.now places.now) }
{
    let mut names = List::new(alloc);
    for place in places {
        add_names_at(&mut names, classes, *place)?;
    }
    Ok(names)
}

// The names of the features that a class has, its own and those of the classes above it.
fn names_above(
    alloc: Global,
    document: &MetamodelDocument,
    supers: &[List<usize>],
    class: usize,
) -> Result<List<Text>, NoMemory>
    requires supers { supers.now ≡ supers_places document.now }
    requires class { class < length supers.now }
    ensures { IfOk result (λ names. not (is_distinct names) ≡ has_clash document.now (class_id class)) }
{
    let above = classes_above(alloc, supers, &[class])?;
    names_at_each(alloc, document.classes.as_slice(), above.as_slice())
}

fn has_clash(
    alloc: Global,
    document: &MetamodelDocument,
    supers: &[List<usize>],
    class: usize,
) -> Result<bool, NoMemory>
    requires supers { supers.now ≡ supers_places document.now }
    requires class { class < length supers.now }
    ensures { IfOk result (λ clash. clash ≡ has_clash document.now (class_id class)) }
{
    let names = names_above(alloc, document, supers, class)?;
    Ok(!is_distinct(alloc, names.as_slice())?)
}

/// The first class with two different features of one name.
pub(crate) fn feature_clash_place(
    alloc: Global,
    document: &MetamodelDocument,
    supers: &[List<usize>],
) -> Result<Option<usize>, NoMemory>
    requires { supers.now ≡ supers_places document.now }
    ensures { IfOk result (λ place. place ≡ at_class document.now (λ n c. has_clash document.now (class_id n))) }
{
    for i in 0..supers.len() {
        if has_clash(alloc, document, supers, i)? {
            return Ok(Some(document.place_of_class(i)));
        }
    }
    Ok(None)
}
