// What holds of what changes put in and take out.
ghost use Rattle.std.specs.Prelude.{◌≡◌};
ghost use Rattle.vt_model.specs.Metamodel.{Metamodel};
ghost use Rattle.vt_model.specs.Model.{Model};
ghost use Rattle.vt_model.specs.Valid.{IsValid};
ghost use Rattle.vt_graph.specs.Held.{Held};
ghost use Rattle.vt_store.specs.Edits.{edit_of, TellsApart, undone};
ghost use Rattle.vt_store.specs.Undoing.{HeldEdit, KeepsRoomOf, Fits};

/// What changed from one valid model to another, taken back, gives the first one.
pub fn undoing_gives_back()
    ensures { (meta : Metamodel) (before after : Model)
        → IsValid meta before → IsValid meta after → undone (edit_of before after) after ≡ before }
{}

/// What changed from one model to another stands in the one and not in the other.
pub fn edit_tells_apart()
    ensures live { (before after : Model)
        → TellsApart before.live after.live (edit_of before after).live }
    ensures gone { (before after : Model)
        → TellsApart before.gone after.gone (edit_of before after).gone }
    ensures values { (before after : Model)
        → TellsApart before.values after.values (edit_of before after).values }
    ensures links { (before after : Model)
        → TellsApart before.links after.links (edit_of before after).links }
{}

/// An edit that can be taken back of a store can be taken back of each store with the same model
/// and no less room.
pub fn fits_with_more_room()
    ensures { (e : HeldEdit) (s t : Held)
        → Fits e s → t.meta ≡ s.meta → t.model ≡ s.model
        → KeepsRoomOf s.model s.places t.places → Fits e t }
{}
