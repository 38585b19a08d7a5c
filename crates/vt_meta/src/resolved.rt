// A document with the places of its names.
ghost use Rattle.std.specs.Prelude.{◌≡◌, IfOk, map, position, slice_get, is_some, option_and_then};
ghost use Rattle.std.specs.Option.{option_copied};
ghost use Rattle.vt_meta.specs.Declarations.{class_place, kind_named, declared_there, opposite_in};
ghost use Rattle.vt_facts.specs.Names.{is_name};
ghost use Rattle.vt_meta.specs.Inside.Places.{declared_at, FindsEnum, FindsClass, FindEachReference, FindReferences};
ghost use Rattle.vt_model.specs.Places.{place_in, FindsIn};

use crate::document::{ClassDocument, EnumDocument, MetamodelDocument, ReferenceDocument};
use crate::duplicates::add_reference_names;
use std::alloc::Global;
use vt_base::{List, NoMemory, Text};
use vt_model::{Places, places_of};

/// A document with the places of its enums, of its classes, and of the references of each class.
#[derive(Drop)]
pub(crate) struct Resolved {
    pub(crate) document: MetamodelDocument,
    pub(crate) enums: Places,
    pub(crate) classes: Places,
    pub(crate) references: List<Places>,
    ghost enums_found: { FindsEnum document.enums enums },
    ghost classes_found: { FindsClass document.classes classes },
    ghost references_found: { FindReferences document.classes references },
}

impl Resolved {
    /// The place of a class among the classes.
    pub(crate) fn class_place(&self, name: &Text) -> Option<usize>
        ensures { result ≡ class_place self.now.document name.now }
    {
        self.classes.place_of(name.as_str())
    }

    /// The place of an enum among the enums.
    pub(crate) fn enum_place(&self, name: &Text) -> Option<usize>
        ensures { result ≡ position (λ e. is_name e.name name.now) self.now.document.enums }
    {
        self.enums.place_of(name.as_str())
    }

    /// Whether a name is that of a kind or of an enum.
    pub(crate) fn is_kind(&self, name: &Text) -> bool
        ensures { result ≡ is_some (kind_named self.now.document name.now) }
    {
        name.is("int") || name.is("boolean") || name.is("string") || self.enum_place(name).is_some()
    }

    // The place of a reference among those that the class at a place declares.
    fn reference_place(&self, class: usize, name: &Text) -> Option<usize>
        ensures { result ≡ option_and_then (λ c. position (λ r. is_name r.name name.now) c.references) (slice_get self.now.document.classes class) }
    {
        place_in_list(self.references.as_slice(), class, name)
    }

    // The reference of a name that the class at a place declares.
    #[tactic(auto, using(crate::proofs::ResolvedLemmas::declared_none, crate::proofs::ResolvedLemmas::declared_some))]
    fn declared_by(&self, class: usize, name: &Text) -> Option<&ReferenceDocument>
        ensures { option_copied result ≡ declared_at self.now.document class name.now }
    {
        let place = self.reference_place(class, name)?;
        self.document.classes.get(class)?.references.get(place)
    }

    // The reference of a name that the target of a reference declares.
    #[tactic(auto, using(crate::proofs::ResolvedLemmas::there_none, crate::proofs::ResolvedLemmas::there_some))]
    fn declared_there(
        &self,
        reference: &ReferenceDocument,
        name: &Text,
    ) -> Option<&ReferenceDocument>
        ensures { option_copied result ≡ declared_there self.now.document reference.now name.now }
    {
        let class = self.class_place(&reference.target)?;
        self.declared_by(class, name)
    }

    /// The reference that a reference names as its opposite.
    pub(crate) fn opposite(&self, reference: &ReferenceDocument) -> Option<&ReferenceDocument>
        ensures { option_copied result ≡ opposite_in self.now.document reference.now }
    {
        let name = reference.opposite.as_ref()?;
        self.declared_there(reference, name.as_text())
    }
}

// The places of enums.
#[tactic(auto, using(crate::proofs::PlacesLemmas::finds_enums))]
fn enum_places(alloc: Global, enums: &[EnumDocument]) -> Result<Places, NoMemory>
    ensures { IfOk result (FindsEnum enums.now) }
{
    let names = enum_names(alloc, enums)?;
    places_of(alloc, names.as_slice())
}

fn enum_names(alloc: Global, enums: &[EnumDocument]) -> Result<List<Text>, NoMemory>
    ensures { IfOk result (λ names. names ≡ map (λ e. e.name) enums.now) }
{
    let mut names = List::new(alloc);
    for info in enums {
        names.add(info.name.as_text().share())?;
    }
    Ok(names)
}

// The places of classes.
#[tactic(auto, using(crate::proofs::PlacesLemmas::finds_classes))]
fn class_places(alloc: Global, classes: &[ClassDocument]) -> Result<Places, NoMemory>
    ensures { IfOk result (FindsClass classes.now) }
{
    let names = class_names(alloc, classes)?;
    places_of(alloc, names.as_slice())
}

fn class_names(alloc: Global, classes: &[ClassDocument]) -> Result<List<Text>, NoMemory>
    ensures { IfOk result (λ names. names ≡ map (λ c. c.name) classes.now) }
{
    let mut names = List::new(alloc);
    for class in classes {
        names.add(class.name.as_text().share())?;
    }
    Ok(names)
}

// The places of the references that a class declares.
fn reference_places(alloc: Global, class: &ClassDocument) -> Result<Places, NoMemory>
    ensures { IfOk result (FindsIn (map (λ r. r.name) class.now.references)) }
{
    let mut names = List::new(alloc);
    add_reference_names(&mut names, class.references.as_slice())?;
    places_of(alloc, names.as_slice())
}

// The same of each class.
fn all_reference_places(alloc: Global, classes: &[ClassDocument]) -> Result<List<Places>, NoMemory>
    ensures { IfOk result (FindEachReference classes.now) }
{
    let mut places = List::new(alloc);
    for class in classes {
        places.add(reference_places(alloc, class)?)?;
    }
    Ok(places)
}

/// A document with the places of its names.
#[tactic(auto, using(crate::proofs::PlacesLemmas::finds_references))]
pub(crate) fn resolve(alloc: Global, document: MetamodelDocument) -> Result<Resolved, NoMemory>
    ensures { IfOk result (λ resolved. resolved.document ≡ document) }
{
    let enums = enum_places(alloc, document.enums.as_slice())?;
    let classes = class_places(alloc, document.classes.as_slice())?;
    let references = all_reference_places(alloc, document.classes.as_slice())?;
    Ok(Resolved {
        document,
        enums,
        classes,
        references,
    })
}

// What is found in a list of the places of names.
fn place_in_list(lists: &[Places], i: usize, name: &Text) -> Option<usize>
    ensures { result ≡ option_and_then (λ p. place_in p name.now) (slice_get lists.now i) }
{
    lists.get(i)?.place_of(name.as_str())
}
