// What holds of every script.
ghost use Rattle.std.specs.Prelude.{◌≡◌, ◌≤◌, List, ℕ, length, Ok};
ghost use Rattle.std.specs.List.{AllByRecursion};
ghost use Rattle.vt_script.specs.Script.{script_of};
ghost use Rattle.vt_script.specs.Formed.{IsFormed};
ghost use Rattle.vt_script.specs.declared.line.Line.{Line};

/// The names and numbers of the commands that bytes spell have their forms, and the commands are
/// 100,000 at most.
pub fn accepted_is_formed()
    ensures formed { (bytes : List ℕ) (lines : List Line) → script_of bytes ≡ Ok lines
        → AllByRecursion IsFormed lines }
    ensures few { (bytes : List ℕ) (lines : List Line) → script_of bytes ≡ Ok lines
        → length lines ≤ 100000 }
{}
