// A metamodel, and what it answers.
ghost use Rattle.std.specs.Prelude.{◌≡◌, ◌+◌, ◌≤◌, IfOk, All, nat_eq, length, map, slice_get, position, IfSome};
ghost use Rattle.std.specs.Cmp.Lexicographic.{pointwise};
ghost use Rattle.std.specs.Option.{option_copied};
ghost use Rattle.vt_model.specs.Inside.Tables.{literal_place, FindsEnumInfo, FindsClassInfo};
ghost use Rattle.vt_model.specs.Inside.FeatureTable.{AreTablesOf};
ghost use Rattle.vt_model.specs.Metamodel.{as_metamodel, isa, class_named, enum_named, feature};
ghost use Rattle.vt_model.specs.Sound.{IsSound};

use crate::above::{is_marked, marks_above};
use crate::features::Features;
use crate::places::{Places, places_of};
use std::alloc::Global;
use std::marker::Model;
use vt_base::{AttrId, ClassId, Kind, List, Names, NoMemory, ObjId, RefId, Text};
use vt_shared::Shared;

/// An enum, with its literals. Their numbers are their places.
#[derive(Debug, Drop)]
pub struct EnumInfo {
    pub name: Text,
    pub literals: List<Text>,
}

/// A class. Its number is its place among the classes.
#[derive(Debug, Drop)]
pub struct ClassInfo {
    pub name: Text,
    pub is_abstract: bool,
}

/// An attribute. Its number is its place among the attributes of all classes.
#[derive(Debug, Drop)]
pub struct AttrInfo {
    pub name: Text,
    /// The class that declares it.
    pub class: ClassId,
    pub kind: Kind,
}

/// A reference. Its number is its place among the references of all classes.
#[derive(Debug, Drop)]
pub struct RefInfo {
    pub name: Text,
    /// The class that declares it.
    pub class: ClassId,
    pub target: ClassId,
    pub many: bool,
    pub containment: bool,
    pub opposite: Option<RefId>,
}

/// What a name stands for in a class.
#[derive(Clone, Copy, Debug, PartialEq, Eq)]
pub enum Feature {
    Attr(AttrId),
    Ref(RefId),
}

/// The lists of a metamodel.
#[derive(Drop)]
pub struct Lists {
    pub uri: Text,
    pub enums: List<EnumInfo>,
    pub classes: List<ClassInfo>,
    /// The supertypes of each class.
    pub supers: List<List<ClassId>>,
    pub attributes: List<AttrInfo>,
    pub references: List<RefInfo>,
}

// The lists and what is looked up in them, which all owners share.
#[derive(Drop)]
struct Tables {
    lists: Lists,
    enums: Places,
    classes: Places,
    // For each class, which classes are above it.
    above: List<List<bool>>,
    features: Features,
}

/// A metamodel with any number of owners, which nobody changes. Contracts see its lists.
#[derive(Drop)]
pub struct Metamodel {
    tables: Shared<Tables, Global>,
}

impl Model for Metamodel {
    ghost use Rattle.std.specs.Prelude.{◌+◌, ◌≤◌, All, length};
    ghost use Rattle.vt_model.specs.Metamodel.{Metamodel, as_metamodel};
    ghost use Rattle.vt_model.specs.Sound.{IsSound};

    ghost Value = { Metamodel };

    ghost use Rattle.vt_model.specs.Inside.FeatureTable.{AreTablesOf};

    ghost view = { λ m. as_metamodel m.tables.value.lists };

    // It is sound. Each number of an enum, a literal, a class, an attribute or a reference is that of a `u16`.
    // The tables hold what the definitions say of the lists.
    ghost invariant = { λ m. (length m.tables.value.lists.enums ≤ 1024)
        × (All (λ e. length e.literals ≤ 1024) m.tables.value.lists.enums)
        × (length m.tables.value.lists.classes ≤ 1024)
        × (length m.tables.value.lists.attributes + length m.tables.value.lists.references ≤ 4096)
        × IsSound (as_metamodel m.tables.value.lists)
        × AreTablesOf m.tables.value.lists m.tables.value.enums m.tables.value.classes m.tables.value.above m.tables.value.features };
}

impl Metamodel {
    // The metamodel with some lists, where the tables hold what the definitions say of them.
    fn with_tables(alloc: Global, tables: Tables) -> Result<Metamodel, NoMemory>
        requires few_enums { length tables.lists.enums ≤ 1024 }
        requires few_literals { All (λ e. length e.literals ≤ 1024) tables.lists.enums }
        requires few_classes { length tables.lists.classes ≤ 1024 }
        requires few_features { length tables.lists.attributes + length tables.lists.references ≤ 4096 }
        requires sound { IsSound (as_metamodel tables.lists) }
        requires tables { AreTablesOf tables.lists tables.enums tables.classes tables.above tables.features }
        ensures { IfOk result (λ meta. meta ≡ as_metamodel tables.lists) }
    {
        let tables = Shared::new(alloc, tables)?;
        Ok(Metamodel { tables })
    }

    /// The metamodel with some lists.
    #[tactic(auto, using(crate::proofs::FeatureLemmas::supers_there, crate::proofs::FeatureLemmas::marks_classes, crate::proofs::FeatureLemmas::features_found))]
    pub fn new(alloc: Global, lists: Lists) -> Result<Metamodel, NoMemory>
        requires few_enums { length lists.enums ≤ 1024 }
        requires few_literals { All (λ e. length e.literals ≤ 1024) lists.enums }
        requires few_classes { length lists.classes ≤ 1024 }
        requires few_features { length lists.attributes + length lists.references ≤ 4096 }
        requires sound { IsSound (as_metamodel lists) }
        ensures { IfOk result (λ meta. meta ≡ as_metamodel lists) }
    {
        let enums = enum_places(alloc, lists.enums.as_slice())?;
        let classes = class_places(alloc, lists.classes.as_slice())?;
        let above = marks_above(alloc, lists.supers.as_slice())?;
        let features = Features::of(
            alloc,
            lists.attributes.as_slice(),
            lists.references.as_slice(),
            above.as_slice(),
            lists.classes.len(),
        )?;
        let tables = Tables {
            lists,
            enums,
            classes,
            above,
            features,
        };
        Metamodel::with_tables(alloc, tables)
    }

    /// A metamodel is sound.
    pub fn is_sound(&self)
        ensures { IsSound self.now }
    {
        let _ = &self.tables;
    }

    /// The same metamodel, for one more owner. It takes no memory and can't fail.
    pub fn share(&self) -> Metamodel
        ensures { result ≡ self.now }
    {
        Metamodel {
            tables: self.tables.share(),
        }
    }

    /// The text by which query files name the metamodel.
    pub fn uri(&self) -> &str
        ensures { result.now ≡ self.now.uri }
    {
        self.tables.get().lists.uri.as_str()
    }

    pub fn class_count(&self) -> u16
        ensures { result ≡ length self.now.classes }
    {
        self.tables.get().lists.classes.len() as u16
    }

    pub fn attr_count(&self) -> u16
        ensures { result ≡ length self.now.attributes }
    {
        self.tables.get().lists.attributes.len() as u16
    }

    pub fn ref_count(&self) -> u16
        ensures { result ≡ length self.now.references }
    {
        self.tables.get().lists.references.len() as u16
    }

    /// The class with a number. `None` is of a number that no class has.
    pub fn class(&self, c: ClassId) -> Option<&ClassInfo>
        ensures { option_copied result ≡ slice_get self.now.classes c.0 }
    {
        self.tables.get().lists.classes.get(c.0 as usize)
    }

    /// The enum with a number. `None` is of a number that no enum has.
    pub fn enum_at(&self, e: u16) -> Option<&EnumInfo>
        ensures value { option_copied result ≡ slice_get self.now.enums e }
        ensures few { IfSome result (λ info. length info.now.literals ≤ 1024) }
    {
        self.tables.get().lists.enums.get(e as usize)
    }

    /// The attribute with a number. `None` is of a number that no attribute has.
    pub fn attribute(&self, a: AttrId) -> Option<&AttrInfo>
        ensures { option_copied result ≡ slice_get self.now.attributes a.0 }
    {
        self.tables.get().lists.attributes.get(a.0 as usize)
    }

    /// The reference with a number. `None` is of a number that no reference has.
    pub fn reference(&self, r: RefId) -> Option<&RefInfo>
        ensures { option_copied result ≡ slice_get self.now.references r.0 }
    {
        self.tables.get().lists.references.get(r.0 as usize)
    }

    /// Whether a class is another one or below it.
    pub fn isa(&self, c: ClassId, d: ClassId) -> bool
        ensures { result ≡ isa self.now c d }
    {
        is_marked(
            self.tables.get().above.as_slice(),
            c.0 as usize,
            d.0 as usize,
        )
    }

    /// All attributes, by their numbers.
    pub fn attributes(&self) -> &[AttrInfo]
        ensures value { result.now ≡ self.now.attributes }
        ensures few { length self.now.attributes ≤ 4096 }
    {
        self.tables.get().lists.attributes.as_slice()
    }

    /// All references, by their numbers.
    pub fn references(&self) -> &[RefInfo]
        ensures value { result.now ≡ self.now.references }
        ensures few { length self.now.references ≤ 4096 }
    {
        self.tables.get().lists.references.as_slice()
    }

    /// The class of this name. `None` is of a name that no class has.
    pub fn class_named(&self, name: &str) -> Option<ClassId>
        ensures { result ≡ class_named self.now name.now }
    {
        let place = self.tables.get().classes.place_of(name)?;
        Some(ClassId(place as u16))
    }

    /// The enum of this name. `None` is of a name that no enum has.
    pub fn enum_named(&self, name: &str) -> Option<u16>
        ensures { result ≡ enum_named self.now name.now }
    {
        let place = self.tables.get().enums.place_of(name)?;
        Some(place as u16)
    }

    /// The feature of this name that a class has, its own or of a class above it. `None` is of a
    /// name that none has.
    pub fn feature(&self, c: ClassId, name: &str) -> Option<Feature>
        ensures { result ≡ feature self.now c name.now }
    {
        self.tables.get().features.feature(c, name)
    }
}

impl Names for Metamodel {
    ghost use Rattle.std.specs.Prelude.{[]};
    ghost use Rattle.vt_model.specs.Metamodel.{enum_names};

    ghost enums = { enum_names };

    ghost objects = { λ _. [] };

    #[tactic(auto, using(crate::proofs::PositionLemmas::literal_numbers_names_of))]
    fn literal_named(&self, enum_name: &str, literal: &str) -> Option<(u16, u16)> {
        let tables = self.tables.get();
        let e = tables.enums.place_of(enum_name)?;
        let l = place_of_literal(tables.lists.enums.as_slice(), e, literal)?;
        Some((e as u16, l as u16))
    }

    fn literal_text(&self, e: u16, l: u16) -> Option<(&Text, &Text)> {
        let info = self.tables.get().lists.enums.get(e as usize)?;
        let literal = info.literals.get(l as usize)?;
        Some((&info.name, literal))
    }

    fn object_text(&self, _: ObjId) -> Option<&Text> {
        None
    }
}

// The place of a literal among those of the enum at a place.
fn place_of_literal(enums: &[EnumInfo], e: usize, name: &str) -> Option<usize>
    ensures { result ≡ literal_place enums.now e name.now }
{
    let info = enums.get(e)?;
    place_of_text(info.literals.as_slice(), name)
}

fn place_of_text(texts: &[Text], name: &str) -> Option<usize>
    ensures { result ≡ position (pointwise nat_eq name.now) texts.now }
{
    texts.iter().position(|text| name == text.as_str())
}

// The places of enums by their names.
#[tactic(auto, using(crate::proofs::PlacesLemmas::finds_enum_infos))]
fn enum_places(alloc: Global, enums: &[EnumInfo]) -> Result<Places, NoMemory>
    ensures { IfOk result (FindsEnumInfo enums.now) }
{
    let names = enum_names(alloc, enums)?;
    places_of(alloc, names.as_slice())
}

fn enum_names(alloc: Global, enums: &[EnumInfo]) -> Result<List<Text>, NoMemory>
    ensures { IfOk result (λ names. names ≡ map (λ e. e.name) enums.now) }
{
    let mut names = List::new(alloc);
    for info in enums {
        names.add(info.name.share())?;
    }
    Ok(names)
}

// The places of classes by their names.
#[tactic(auto, using(crate::proofs::PlacesLemmas::finds_class_infos))]
fn class_places(alloc: Global, classes: &[ClassInfo]) -> Result<Places, NoMemory>
    ensures { IfOk result (FindsClassInfo classes.now) }
{
    let names = class_names(alloc, classes)?;
    places_of(alloc, names.as_slice())
}

fn class_names(alloc: Global, classes: &[ClassInfo]) -> Result<List<Text>, NoMemory>
    ensures { IfOk result (λ names. names ≡ map (λ c. c.name) classes.now) }
{
    let mut names = List::new(alloc);
    for class in classes {
        names.add(class.name.share())?;
    }
    Ok(names)
}
