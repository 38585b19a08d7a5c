// What holds of the dump of every valid model.
ghost use Rattle.std.specs.Prelude.{ℕ, ◌≡◌, List, [], Ok};
ghost use Rattle.vt_model.specs.Metamodel.{Metamodel};
ghost use Rattle.vt_model.specs.Model.{Model};
ghost use Rattle.vt_meta.specs.Reading.{meta_of};
ghost use Rattle.vt_model.specs.Valid.{IsValid};
ghost use Rattle.vt_model_json.specs.Dump.{dump};
ghost use Rattle.vt_model_json.specs.Loading.{loaded};
ghost use Rattle.vt_dump_law.specs.ObjectNames.{HasObjectNames};

/// The dump of a valid model loads to the model, but for the objects that were deleted.
pub fn dump_loads_back()
    ensures { (bytes : List ℕ) (meta : Metamodel) (g : Model)
        → meta_of bytes ≡ Ok meta → IsValid meta g → HasObjectNames g
        → loaded meta (dump meta g) ≡ Ok (record g { gone = [] }) }
{}
