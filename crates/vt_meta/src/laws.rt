// What holds of every metamodel that is read, and of documents.
ghost use Rattle.std.specs.Prelude.{ℕ, ◌≡◌, ◌↔◌, List, true, Ok};
ghost use Rattle.vt_base.specs.declared.numbers.ClassId.{ClassId};
ghost use Rattle.vt_model.specs.Metamodel.{Metamodel};
ghost use Rattle.vt_model.specs.Sound.{IsSound};
ghost use Rattle.vt_meta.specs.Faults.{is_above_itself, IsOnCycle};
ghost use Rattle.vt_meta.specs.Reading.{meta_of};
ghost use Rattle.vt_meta.specs.declared.document.MetamodelDocument.{MetamodelDocument};

/// What bytes spell is sound.
pub fn read_is_sound()
    ensures { (bytes : List ℕ) (meta : Metamodel) → meta_of bytes ≡ Ok meta → IsSound meta }
{}

/// A class that a document is refused for as its own supertype is one from which a path of
/// supertypes leads back to it, and the other way.
pub fn super_cycle_is_a_path()
    ensures { (document : MetamodelDocument) (c : ClassId)
        → (is_above_itself document c ≡ true) ↔ IsOnCycle document c }
{}
