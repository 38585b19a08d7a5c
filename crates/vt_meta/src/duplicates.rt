// Names that stand twice: of items, of an enum's literals, of a class's own features.
ghost use Rattle.std.specs.Prelude.{◌≡◌, ◌++◌, ◌||◌, [], IfOk, OnOk, map, take, length, is_some, not, false, None};
ghost use Rattle.vt_meta.specs.Declarations.{is_kind_name, item_names, declared_names};
ghost use Rattle.vt_facts.specs.Names.{is_distinct};
ghost use Rattle.vt_meta.specs.Faults.{first_place, is_bad_enum, is_bad_class, duplicate_place};
ghost use Rattle.vt_model.specs.Places.{place_in, FindsIn, AddsPlace};

use crate::document::{
    AttributeDocument, ClassDocument, EnumDocument, MetamodelDocument, ReferenceDocument,
};
use std::alloc::Global;
use vt_base::{List, NoMemory, Text};
use vt_json::Identifier;
use vt_model::Places;

/// The texts of some names.
pub(crate) fn texts(alloc: Global, names: &[Identifier]) -> Result<List<Text>, NoMemory>
    ensures { IfOk result (λ texts. texts ≡ names.now) }
{
    let mut texts = List::new(alloc);
    for name in names {
        texts.add(name.as_text().share())?;
    }
    Ok(texts)
}

fn add_attribute_names(
    names: &mut List<Text>,
    attributes: &[AttributeDocument],
) -> Result<(), NoMemory>
    ensures { OnOk result (names.new ≡ names.old ++ map (λ a. a.name) attributes.now) }
{
    for attribute in attributes {
        names.add(attribute.name.as_text().share())?;
    }
    Ok(())
}

/// Adds the names of references.
pub(crate) fn add_reference_names(
    names: &mut List<Text>,
    references: &[ReferenceDocument],
) -> Result<(), NoMemory>
    ensures { OnOk result (names.new ≡ names.old ++ map (λ r. r.name) references.now) }
{
    for reference in references {
        names.add(reference.name.as_text().share())?;
    }
    Ok(())
}

/// Adds the names of the features that a class declares.
pub(crate) fn add_declared_names(
    names: &mut List<Text>,
    class: &ClassDocument,
) -> Result<(), NoMemory>
    ensures { OnOk result (names.new ≡ names.old ++ declared_names class.now) }
{
    add_attribute_names(names, class.attributes.as_slice())?;
    add_reference_names(names, class.references.as_slice())
}

/// Whether no name stands twice.
pub(crate) fn is_distinct(alloc: Global, names: &[Text]) -> Result<bool, NoMemory>
    ensures { IfOk result (λ distinct. distinct ≡ is_distinct names.now) }
{
    let mut seen = Places::new(alloc);
    for (place, name) in names.iter().enumerate() {
        if !seen.add(alloc, name, place)? {
            return Ok(false);
        }
    }
    Ok(true)
}

fn is_kind_name(name: &Text) -> bool
    ensures { result ≡ is_kind_name name.now }
{
    name.is("int") || name.is("boolean") || name.is("string")
}

// Whether a name is a kind's or was seen; if not, it is seen now.
fn is_taken(alloc: Global, seen: &mut Places, name: &Text, place: usize) -> Result<bool, NoMemory>
    ensures taken { IfOk result (λ taken. taken ≡ (is_kind_name name.now || is_some (place_in seen.old name.now))) }
    ensures added { IfOk result (λ taken. taken ≡ false → AddsPlace seen.old seen.new name.now place) }
{
    if is_kind_name(name) {
        return Ok(true);
    }
    Ok(!seen.add(alloc, name, place)?)
}

fn has_equal_literals(alloc: Global, info: &EnumDocument) -> Result<bool, NoMemory>
    ensures { IfOk result (λ equal. equal ≡ not (is_distinct info.now.literals)) }
{
    let literals = texts(alloc, info.literals.as_slice())?;
    Ok(!is_distinct(alloc, literals.as_slice())?)
}

fn has_equal_features(alloc: Global, class: &ClassDocument) -> Result<bool, NoMemory>
    ensures { IfOk result (λ equal. equal ≡ not (is_distinct (declared_names class.now))) }
{
    let mut names = List::new(alloc);
    add_declared_names(&mut names, class)?;
    Ok(!is_distinct(alloc, names.as_slice())?)
}

// Whether an enum has the name of an earlier item or of a kind, or two equal literals.
fn is_bad_enum(
    alloc: Global,
    seen: &mut Places,
    info: &EnumDocument,
    place: usize,
) -> Result<bool, NoMemory>
    ensures bad { IfOk result (λ bad. bad ≡ (is_kind_name info.now.name || is_some (place_in seen.old info.now.name) || not (is_distinct info.now.literals))) }
    ensures added { IfOk result (λ bad. bad ≡ false → AddsPlace seen.old seen.new info.now.name place) }
{
    if is_taken(alloc, seen, info.name.as_text(), place)? {
        return Ok(true);
    }
    has_equal_literals(alloc, info)
}

// Whether a class has the name of an earlier item or of a kind, or two features of one name.
fn is_bad_class(
    alloc: Global,
    seen: &mut Places,
    class: &ClassDocument,
    place: usize,
) -> Result<bool, NoMemory>
    ensures bad { IfOk result (λ bad. bad ≡ (is_kind_name class.now.name || is_some (place_in seen.old class.now.name) || not (is_distinct (declared_names class.now)))) }
    ensures added { IfOk result (λ bad. bad ≡ false → AddsPlace seen.old seen.new class.now.name place) }
{
    if is_taken(alloc, seen, class.name.as_text(), place)? {
        return Ok(true);
    }
    has_equal_features(alloc, class)
}

fn bad_enum_place(
    alloc: Global,
    document: &MetamodelDocument,
    seen: &mut Places,
) -> Result<Option<usize>, NoMemory>
    requires { FindsIn [] seen.old }
    ensures place { IfOk result (λ place. place ≡ first_place (is_bad_enum document.now) 0 document.now.enums) }
    ensures seen { IfOk result (λ place. place ≡ None → FindsIn (take (length document.now.enums) (item_names document.now)) seen.new) }
{
    for (place, info) in document.enums.as_slice().iter().enumerate() {
        if is_bad_enum(alloc, seen, info, place)? {
            return Ok(Some(place));
        }
    }
    Ok(None)
}

fn bad_class_place(
    alloc: Global,
    document: &MetamodelDocument,
    seen: &mut Places,
) -> Result<Option<usize>, NoMemory>
    requires { FindsIn (take (length document.now.enums) (item_names document.now)) seen.old }
    ensures { IfOk result (λ place. place ≡ first_place (is_bad_class document.now) (length document.now.enums) document.now.classes) }
{
    for (i, class) in document.classes.as_slice().iter().enumerate() {
        let place = document.place_of_class(i);
        if is_bad_class(alloc, seen, class, place)? {
            return Ok(Some(place));
        }
    }
    Ok(None)
}

/// The first item with a name that stands twice.
pub(crate) fn duplicate_place(
    alloc: Global,
    document: &MetamodelDocument,
) -> Result<Option<usize>, NoMemory>
    ensures { IfOk result (λ place. place ≡ duplicate_place document.now) }
{
    let mut seen = Places::new(alloc);
    if let Some(place) = bad_enum_place(alloc, document, &mut seen)? {
        return Ok(Some(place));
    }
    bad_class_place(alloc, document, &mut seen)
}
