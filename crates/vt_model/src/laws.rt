// What holds of every metamodel, and of every model that changes make.
ghost use Rattle.std.specs.Prelude.{◌≡◌, ◌⊎◌, ◌↔◌, All, List, length, true, Ok};
ghost use Rattle.std.specs.List.Sorted.{IsStrictlySortedBy};
ghost use Rattle.vt_base.specs.Rows.{Ascends};
ghost use Rattle.vt_base.specs.declared.numbers.ObjId.{ObjId};
ghost use Rattle.vt_base.specs.declared.numbers.ClassId.{ClassId};
ghost use Rattle.vt_base.specs.declared.numbers.AttrId.{AttrId};
ghost use Rattle.vt_base.specs.declared.numbers.RefId.{RefId};
ghost use Rattle.vt_model.specs.Metamodel.{Metamodel, Isa, isa};
ghost use Rattle.vt_model.specs.Model.{Model, empty_model};
ghost use Rattle.vt_model.specs.Assigning.{value_order};
ghost use Rattle.vt_model.specs.Linking.{link_order};
ghost use Rattle.vt_model.specs.Containing.{IsIn, is_inside};
ghost use Rattle.vt_model.specs.Effect.{effect};
ghost use Rattle.vt_model.specs.Transaction.{transaction};
ghost use Rattle.vt_model.specs.Kept.{Keeps};
ghost use Rattle.vt_model.specs.Sound.{IsSound};
ghost use Rattle.vt_model.specs.Storable.{GivesStorable};
ghost use Rattle.vt_model.specs.Valid.{IsValid, object_order};
ghost use Rattle.vt_model.specs.Base.{class_rows, attribute_rows, reference_rows};
ghost use Rattle.vt_model.specs.declared.change.Change.{Change};

use crate::metamodel::Metamodel;

/// One class is another or below it exactly where a path of supertypes leads there. So each class is
/// itself, and what is above a class above is above.
pub fn isa_is_a_path(meta: &Metamodel)
    ensures path { (c d : ClassId) → (isa meta.now c d ≡ true) ↔ Isa meta.now c d }
    ensures reflexive { (c : ClassId) → isa meta.now c c ≡ true }
    ensures transitive { (c d e : ClassId) → isa meta.now c d ≡ true → isa meta.now d e ≡ true → isa meta.now c e ≡ true }
{
    meta.is_sound();
}

/// The empty model is valid.
pub fn empty_is_valid()
    ensures { (meta : Metamodel) → IsValid meta empty_model }
{}

/// A change that isn't refused leaves a valid model valid.
pub fn effect_keeps_valid()
    ensures { (meta : Metamodel) (g after : Model) (change : Change)
        → IsSound meta → IsValid meta g → GivesStorable change → effect meta g change ≡ Ok after → IsValid meta after }
{}

/// A transaction that isn't refused leaves a valid model valid.
pub fn transaction_keeps_valid()
    ensures { (meta : Metamodel) (g after : Model) (changes : List Change)
        → IsSound meta → IsValid meta g → All GivesStorable changes → transaction meta g changes ≡ Ok after → IsValid meta after }
{}

/// A change that isn't refused leaves each number with its name, live or deleted.
pub fn effect_keeps_names()
    ensures { (meta : Metamodel) (g after : Model) (change : Change)
        → IsValid meta g → effect meta g change ≡ Ok after → Keeps g after }
{}

/// So does a transaction that isn't refused.
pub fn transaction_keeps_names()
    ensures { (meta : Metamodel) (g after : Model) (changes : List Change)
        → IsSound meta → IsValid meta g → All GivesStorable changes → transaction meta g changes ≡ Ok after → Keeps g after }
{}

/// In a valid model the test for containment is the fact: the objects are the same, or a path of
/// containments leads from the outer one to the other.
pub fn inside_is_a_path()
    ensures { (meta : Metamodel) (g : Model) (o outer : ObjId)
        → IsValid meta g → (is_inside meta g o outer ≡ true) ↔ ((o ≡ outer) ⊎ IsIn meta g o outer) }
{}

/// The rows of a model whose lists rise, as those of a valid model do, ascend.
pub fn base_ascends()
    ensures of_class { (meta : Metamodel) (g : Model) (c : ClassId)
        → IsStrictlySortedBy object_order g.live → Ascends (class_rows meta g c) }
    ensures of_attribute { (g : Model) (a : AttrId)
        → IsStrictlySortedBy value_order g.values → Ascends (attribute_rows g a) }
    ensures of_reference { (g : Model) (r : RefId)
        → IsStrictlySortedBy link_order g.links → Ascends (reference_rows g r) }
{}

/// The row of an object of a class has one column, that of a value or a link two.
pub fn base_has_columns()
    ensures of_class { (meta : Metamodel) (g : Model) (c : ClassId) → All (λ row. length row ≡ 1) (class_rows meta g c) }
    ensures of_attribute { (g : Model) (a : AttrId) → All (λ row. length row ≡ 2) (attribute_rows g a) }
    ensures of_reference { (g : Model) (r : RefId) → All (λ row. length row ≡ 2) (reference_rows g r) }
{}
