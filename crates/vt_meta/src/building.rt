// The metamodel that a document makes.
ghost use Rattle.std.specs.Prelude.{◌≡◌, ◌++◌, ◌≤◌, ◌<◌, ◌&&◌, ◌==◌, IfOk, OnOk, All, None, map, length, position, unwrap_or, option_and_then};
ghost use Rattle.vt_base.specs.declared.value.Kind.TheVariants.{Int};
ghost use Rattle.vt_meta.specs.Declarations.{kind_named, class_number};
ghost use Rattle.vt_meta.specs.Built.{declared_by, attributes_from, references_from, reference_number, enum_info, class_info, attr_info, ref_info, metamodel_of};
ghost use Rattle.vt_meta.specs.Faults.{too_great};
ghost use Rattle.vt_meta.specs.Inside.Above.{supers_places};
ghost use Rattle.vt_model.specs.Above.{class_id, ids};
ghost use Rattle.vt_model.specs.Metamodel.{as_metamodel};
ghost use Rattle.vt_model.specs.Sound.{IsSound};
ghost use Rattle.vt_meta.specs.Inside.Building.{declaration, declarations_from, is_declaration, number_in};

use crate::document::{AttributeDocument, ClassDocument, EnumDocument, ReferenceDocument};
use crate::duplicates::texts;
use crate::resolved::Resolved;
use std::alloc::Global;
use vt_base::{ClassId, Kind, List, NoMemory, RefId, Text};
use vt_json::Identifier;
use vt_model::{AttrInfo, ClassInfo, EnumInfo, Lists, Metamodel, RefInfo};

// A reference by its class and its name.
#[derive(Drop)]
struct Declaration {
    class: ClassId,
    name: Text,
}

fn enum_info(alloc: Global, info: &EnumDocument) -> Result<EnumInfo, NoMemory>
    ensures { IfOk result (λ made. made ≡ enum_info info.now) }
{
    Ok(EnumInfo {
        name: info.name.as_text().share(),
        literals: texts(alloc, info.literals.as_slice())?,
    })
}

fn enum_infos(alloc: Global, enums: &[EnumDocument]) -> Result<List<EnumInfo>, NoMemory>
    ensures { IfOk result (λ infos. infos ≡ map enum_info enums.now) }
{
    let mut infos = List::new(alloc);
    for info in enums {
        infos.add(enum_info(alloc, info)?)?;
    }
    Ok(infos)
}

fn class_infos(alloc: Global, classes: &[ClassDocument]) -> Result<List<ClassInfo>, NoMemory>
    ensures { IfOk result (λ infos. infos ≡ map class_info classes.now) }
{
    let mut infos = List::new(alloc);
    for class in classes {
        infos.add(ClassInfo {
            name: class.name.as_text().share(),
            is_abstract: class.is_abstract,
        })?;
    }
    Ok(infos)
}

fn class_ids(alloc: Global, places: &[usize]) -> Result<List<ClassId>, NoMemory>
    requires { All (λ place. place < 1024) places.now }
    ensures { IfOk result (λ numbers. numbers ≡ map class_id places.now) }
{
    let mut numbers = List::new(alloc);
    for place in places {
        numbers.add(ClassId(*place as u16))?;
    }
    Ok(numbers)
}

fn all_class_ids(alloc: Global, supers: &[List<usize>]) -> Result<List<List<ClassId>>, NoMemory>
    requires { All (All (λ place. place < 1024)) supers.now }
    ensures { IfOk result (λ numbers. numbers ≡ ids supers.now) }
{
    let mut numbers = List::new(alloc);
    for places in supers {
        numbers.add(class_ids(alloc, places.as_slice())?)?;
    }
    Ok(numbers)
}

fn kind_of(resolved: &Resolved, name: &Text) -> Kind
    requires { length resolved.now.document.enums ≤ 1024 }
    ensures { result ≡ unwrap_or (kind_named resolved.now.document name.now) Int }
{
    if name.is("int") {
        return Kind::Int;
    }
    if name.is("boolean") {
        return Kind::Bool;
    }
    if name.is("string") {
        return Kind::Text;
    }
    match resolved.enum_place(name) {
        Some(place) => Kind::Enum(place as u16),
        None => Kind::Int,
    }
}

fn add_attributes(
    infos: &mut List<AttrInfo>,
    resolved: &Resolved,
    class: ClassId,
    attributes: &[AttributeDocument],
) -> Result<(), NoMemory>
    requires { length resolved.now.document.enums ≤ 1024 }
    ensures { OnOk result (infos.new ≡ infos.old ++ map (attr_info resolved.now.document) (declared_by class.0 attributes.now)) }
{
    for attribute in attributes {
        infos.add(AttrInfo {
            name: attribute.name.as_text().share(),
            class,
            kind: kind_of(resolved, &attribute.kind),
        })?;
    }
    Ok(())
}

fn attr_infos(
    alloc: Global,
    resolved: &Resolved,
    classes: &[ClassDocument],
) -> Result<List<AttrInfo>, NoMemory>
    requires few_enums { length resolved.now.document.enums ≤ 1024 }
    requires few_classes { length classes.now ≤ 1024 }
    ensures { IfOk result (λ infos. infos ≡ map (attr_info resolved.now.document) (attributes_from 0 classes.now)) }
{
    let mut infos = List::new(alloc);
    for (i, class) in classes.iter().enumerate() {
        add_attributes(
            &mut infos,
            resolved,
            ClassId(i as u16),
            class.attributes.as_slice(),
        )?;
    }
    Ok(infos)
}

fn add_declarations(
    declarations: &mut List<Declaration>,
    class: ClassId,
    references: &[ReferenceDocument],
) -> Result<(), NoMemory>
    ensures { OnOk result (declarations.new ≡ declarations.old ++ map declaration (declared_by class.0 references.now)) }
{
    for reference in references {
        declarations.add(Declaration {
            class,
            name: reference.name.as_text().share(),
        })?;
    }
    Ok(())
}

fn declarations(alloc: Global, classes: &[ClassDocument]) -> Result<List<Declaration>, NoMemory>
    requires { length classes.now ≤ 1024 }
    ensures { IfOk result (λ declarations. declarations ≡ declarations_from 0 classes.now) }
{
    let mut declarations = List::new(alloc);
    for (i, class) in classes.iter().enumerate() {
        add_declarations(
            &mut declarations,
            ClassId(i as u16),
            class.references.as_slice(),
        )?;
    }
    Ok(declarations)
}

fn class_number(resolved: &Resolved, name: &Text) -> ClassId
    requires { length resolved.now.document.classes ≤ 1024 }
    ensures { result ≡ class_number resolved.now.document name.now }
{
    match resolved.class_place(name) {
        Some(place) => ClassId(place as u16),
        None => ClassId(0),
    }
}

fn declaration_place(declarations: &[Declaration], class: ClassId, name: &Text) -> Option<usize>
    ensures { result ≡ position (is_declaration class name.now) declarations.now }
{
    declarations
        .iter()
        .position(|d| d.class.0 == class.0 && d.name == *name)
}

// The number of the reference of a name that a class declares.
fn reference_number(declarations: &[Declaration], class: ClassId, name: &Text) -> Option<RefId>
    requires { length declarations.now ≤ 4096 }
    ensures { result ≡ number_in declarations.now class name.now }
{
    let place = declaration_place(declarations, class, name)?;
    Some(RefId(place as u16))
}

fn opposite_number(
    declarations: &[Declaration],
    class: ClassId,
    opposite: &Option<Identifier>,
) -> Option<RefId>
    requires { length declarations.now ≤ 4096 }
    ensures { result ≡ option_and_then (number_in declarations.now class) opposite.now }
{
    match opposite {
        Some(name) => reference_number(declarations, class, name.as_text()),
        None => None,
    }
}

#[tactic(auto, using(crate::proofs::BuildingLemmas::opposite_is))]
fn ref_info(
    resolved: &Resolved,
    declarations: &[Declaration],
    class: ClassId,
    reference: &ReferenceDocument,
) -> RefInfo
    requires few_classes { length resolved.now.document.classes ≤ 1024 }
    requires few_references { length declarations.now ≤ 4096 }
    requires declarations { declarations.now ≡ declarations_from 0 resolved.now.document.classes }
    ensures { result ≡ ref_info resolved.now.document (record { class = class; feature = reference.now }) }
{
    let target = class_number(resolved, &reference.target);
    RefInfo {
        name: reference.name.as_text().share(),
        class,
        target,
        many: reference.many,
        containment: reference.containment,
        opposite: opposite_number(declarations, target, &reference.opposite),
    }
}

fn add_references(
    infos: &mut List<RefInfo>,
    resolved: &Resolved,
    declarations: &[Declaration],
    class: ClassId,
    references: &[ReferenceDocument],
) -> Result<(), NoMemory>
    requires few_classes { length resolved.now.document.classes ≤ 1024 }
    requires few_references { length declarations.now ≤ 4096 }
    requires declarations { declarations.now ≡ declarations_from 0 resolved.now.document.classes }
    ensures { OnOk result (infos.new ≡ infos.old ++ map (ref_info resolved.now.document) (declared_by class.0 references.now)) }
{
    for reference in references {
        infos.add(ref_info(resolved, declarations, class, reference))?;
    }
    Ok(())
}

fn ref_infos(
    alloc: Global,
    resolved: &Resolved,
    declarations: &[Declaration],
    classes: &[ClassDocument],
) -> Result<List<RefInfo>, NoMemory>
    requires few_classes { length resolved.now.document.classes ≤ 1024 }
    requires few_numbers { length classes.now ≤ 1024 }
    requires few_references { length declarations.now ≤ 4096 }
    requires declarations { declarations.now ≡ declarations_from 0 resolved.now.document.classes }
    ensures { IfOk result (λ infos. infos ≡ map (ref_info resolved.now.document) (references_from 0 classes.now)) }
{
    let mut infos = List::new(alloc);
    for (i, class) in classes.iter().enumerate() {
        add_references(
            &mut infos,
            resolved,
            declarations,
            ClassId(i as u16),
            class.references.as_slice(),
        )?;
    }
    Ok(infos)
}

// The lists of the metamodel of a document.
#[tactic(auto, using(crate::proofs::BuildingLemmas::few_classes, crate::proofs::BuildingLemmas::few_enums, crate::proofs::BuildingLemmas::few_declarations, crate::proofs::BuildingLemmas::few_supers, crate::proofs::SupersLemmas::ids_supers_places))]
fn lists(alloc: Global, resolved: &Resolved, supers: &[List<usize>]) -> Result<Lists, NoMemory>
    requires limits { too_great resolved.now.document ≡ None }
    requires supers { supers.now ≡ supers_places resolved.now.document }
    ensures { IfOk result (λ lists. as_metamodel lists ≡ metamodel_of resolved.now.document) }
{
    let classes = resolved.document.classes.as_slice();
    let declarations = declarations(alloc, classes)?;
    Ok(Lists {
        uri: resolved.document.uri.share(),
        enums: enum_infos(alloc, resolved.document.enums.as_slice())?,
        classes: class_infos(alloc, classes)?,
        supers: all_class_ids(alloc, supers)?,
        attributes: attr_infos(alloc, resolved, classes)?,
        references: ref_infos(alloc, resolved, declarations.as_slice(), classes)?,
    })
}

/// The metamodel of a document whose counts are within the limits.
#[tactic(auto, using(crate::proofs::BuildingLemmas::few_classes, crate::proofs::BuildingLemmas::few_enums, crate::proofs::BuildingLemmas::few_literals, crate::proofs::BuildingLemmas::few_infos, crate::proofs::BuildingLemmas::sound_lists))]
pub(crate) fn build(
    alloc: Global,
    resolved: &Resolved,
    supers: &[List<usize>],
) -> Result<Metamodel, NoMemory>
    requires limits { too_great resolved.now.document ≡ None }
    requires supers { supers.now ≡ supers_places resolved.now.document }
    requires sound { IsSound (metamodel_of resolved.now.document) }
    ensures { IfOk result (λ meta. meta ≡ metamodel_of resolved.now.document) }
{
    let lists = lists(alloc, resolved, supers)?;
    Metamodel::new(alloc, lists)
}
