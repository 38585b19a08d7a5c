// From bytes to a metamodel, or the first fault.
ghost use Rattle.std.specs.Prelude.{◌≡◌, IfOk, OnOk, IfErr, Ok, Some, None};
ghost use Rattle.vt_meta.specs.Faults.{duplicate_place, too_great, first_fault};
ghost use Rattle.vt_model.specs.Sound.{IsSound};
ghost use Rattle.vt_meta.specs.Reading.{judged, meta_of, IsFaultOf};
ghost use Rattle.vt_meta.specs.Inside.Above.{supers_places};
ghost use Rattle.vt_meta.specs.Inside.Literals.{HasLiterals};
ghost use Rattle.vt_meta.specs.Inside.Refused.{IsFaultIn};

use crate::building::build;
use crate::clashes::feature_clash_place;
use crate::cycles::{super_cycle_place, supers_places};
use crate::document::MetamodelDocument;
use crate::duplicates::duplicate_place;
use crate::fault::MetaFault;
use crate::laws::read_is_sound;
use crate::limits::too_great;
use crate::opposites::{bad_containment_place, bad_opposite_place};
use crate::resolved::{Resolved, resolve};
use crate::types::unknown_type_place;
use std::alloc::Global;
use vt_base::List;
use vt_json::{JsonFault, Shape, ShapeFault, parse};
use vt_model::Metamodel;

// The first fault of a document, by what its names stand for and by its supertypes.
#[tactic(auto, unfolding(crate::specs::Faults::first_fault))]
fn check(alloc: Global, resolved: &Resolved, supers: &[List<usize>]) -> Result<(), MetaFault>
    requires names { duplicate_place resolved.now.document ≡ None }
    requires supers { supers.now ≡ supers_places resolved.now.document }
    ensures passes { OnOk result (first_fault resolved.now.document ≡ None) }
    ensures limits { OnOk result (too_great resolved.now.document ≡ None) }
    ensures refused { IfErr result (λ fault. IsFaultIn fault (first_fault resolved.now.document)) }
{
    let document = &resolved.document;
    if let Some(place) = unknown_type_place(resolved) {
        return Err(MetaFault::UnknownType {
            place: place as u64,
        });
    }
    if let Some(place) = super_cycle_place(alloc, document, supers)? {
        return Err(MetaFault::SuperCycle {
            place: place as u64,
        });
    }
    if let Some(place) = bad_opposite_place(resolved) {
        return Err(MetaFault::BadOpposite {
            place: place as u64,
        });
    }
    if let Some(place) = bad_containment_place(resolved) {
        return Err(MetaFault::BadContainment {
            place: place as u64,
        });
    }
    if let Some(place) = feature_clash_place(alloc, document, supers)? {
        return Err(MetaFault::FeatureClash {
            place: place as u64,
        });
    }
    if let Some(count) = too_great(document)? {
        return Err(MetaFault::TooMany {
            place: count as u64,
        });
    }
    Ok(())
}

// The metamodel of a document that has its shape.
#[tactic(auto, unfolding(crate::specs::Faults::first_fault), using(crate::proofs::Sound::sound_document))]
fn judge(alloc: Global, document: MetamodelDocument) -> Result<Metamodel, MetaFault>
    requires literals { HasLiterals document }
    ensures accepted { IfOk result (λ meta. judged (Some document) ≡ Ok meta) }
    ensures refused { IfErr result (λ fault. IsFaultOf fault (judged (Some document))) }
{
    if let Some(place) = duplicate_place(alloc, &document)? {
        return Err(MetaFault::DuplicateName {
            place: place as u64,
        });
    }
    let resolved = resolve(alloc, document)?;
    let supers = supers_places(alloc, &resolved)?;
    check(alloc, &resolved, supers.as_slice())?;
    Ok(build(alloc, &resolved, supers.as_slice())?)
}

// The metamodel of bytes, or the first fault.
#[tactic(auto, unfolding(crate::specs::Reading::meta_of), using(crate::proofs::Sound::Shapes::literals_of_shape))]
fn read(alloc: Global, bytes: &[u8]) -> Result<Metamodel, MetaFault>
    ensures accepted { IfOk result (λ meta. meta_of bytes.now ≡ Ok meta) }
    ensures refused { IfErr result (λ fault. IsFaultOf fault (meta_of bytes.now)) }
{
    let value = match parse(alloc, bytes) {
        Ok(value) => value,
        Err(JsonFault::NotJson) => return Err(MetaFault::NotJson { place: 0 }),
        Err(JsonFault::NoMemory) => return Err(MetaFault::NoMemory),
    };
    match MetamodelDocument::read(alloc, &value) {
        Ok(document) => judge(alloc, document),
        Err(ShapeFault::BadShape) => Err(MetaFault::BadShape { place: 0 }),
        Err(ShapeFault::NoMemory) => Err(MetaFault::NoMemory),
    }
}

/// The metamodel that bytes spell, or the document's first fault.
pub fn read_meta(alloc: Global, bytes: &[u8]) -> Result<Metamodel, MetaFault>
    // What is accepted is what the bytes spell.
    ensures accepted { IfOk result (λ meta. meta_of bytes.now ≡ Ok meta) }

    // Its opposites answer each other, its enums have literals, its features different names.
    ensures sound { IfOk result (λ meta. IsSound meta) }

    // The fault is the document's first. Want of memory may stand for any answer.
    ensures refused { IfErr result (λ fault. IsFaultOf fault (meta_of bytes.now)) }
{
    read_is_sound();
    let meta = read(alloc, bytes)?;
    Ok(meta)
}
