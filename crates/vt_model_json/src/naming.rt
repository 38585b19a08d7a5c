// The names that a dump shows.
ghost use Rattle.std.specs.Prelude.{◌≡◌, option_and_then, slice_get};
ghost use Rattle.std.specs.Option.{option_copied};
ghost use Rattle.vt_model_json.specs.Dump.{class_name, attribute_name, literal_name};
ghost use Rattle.vt_model_json.specs.Inside.Plan.{reference_name};
ghost use Rattle.vt_model_json.specs.Inside.Shown.{shown_name};

use vt_base::{AttrId, ClassId, ObjId, RefId, Text};
use vt_meta::Metamodel;
use vt_store::Store;

pub(crate) fn class_name(meta: &Metamodel, class: ClassId) -> &str
    ensures { result.now ≡ class_name meta.now class }
{
    match meta.class(class) {
        Some(info) => info.name.as_str(),
        None => "",
    }
}

pub(crate) fn attribute_name(meta: &Metamodel, attribute: AttrId) -> &str
    ensures { result.now ≡ attribute_name meta.now attribute }
{
    match meta.attribute(attribute) {
        Some(info) => info.name.as_str(),
        None => "",
    }
}

pub(crate) fn reference_name(meta: &Metamodel, reference: RefId) -> &str
    ensures { result.now ≡ reference_name meta.now reference }
{
    match meta.reference(reference) {
        Some(info) => info.name.as_str(),
        None => "",
    }
}

pub(crate) fn literal_name(meta: &Metamodel, e: u16, l: u16) -> &str
    ensures { result.now ≡ literal_name meta.now e l }
{
    match literal_at(meta, e, l) {
        Some(name) => name.as_str(),
        None => "",
    }
}

fn literal_at(meta: &Metamodel, e: u16, l: u16) -> Option<&Text>
    ensures { option_copied result
        ≡ option_and_then (λ enum. slice_get enum.literals l) (slice_get meta.now.enums e) }
{
    meta.enum_at(e)?.literals.get(l as usize)
}

/// The name of an object, live or deleted.
pub(crate) fn shown_name(store: &Store, number: ObjId) -> &str
    ensures { result.now ≡ shown_name store.now.model number }
{
    match store.name_of(number) {
        Some(name) => name.as_str(),
        None => "",
    }
}
