// What holds of every file.
ghost use Rattle.std.specs.Prelude.{◌≡◌, ◌≢◌, List, ℕ};
ghost use Rattle.vt_model.specs.Base.{counts_of};
ghost use Rattle.vt_model.specs.Metamodel.{Metamodel};
ghost use Rattle.vt_query.specs.Narrow.{IsNarrow};
ghost use Rattle.vt_query.specs.declared.program.Program.{Program};
ghost use Rattle.vt_vql.specs.Queries.{Accepts, IsFaultOf};
ghost use Rattle.vt_vql.specs.declared.fault.QueryFault.{QueryFault};
ghost use Rattle.vt_vql.specs.declared.fault.QueryFault.TheVariants.{NoMemory};

use crate::FileTree;
use vt_grammar::one_tree;
use vt_tokens::{bad_spells_nothing, one_bad_line, one_list};

/// Bytes make at most one program.
pub fn one_program()
    ensures { (meta : Metamodel) (bytes : List ℕ) (program other : Program)
        → Accepts meta bytes program → Accepts meta bytes other → program ≡ other }
{
    one_list();
    one_tree::<FileTree>();
}

/// A program that bytes make is narrow.
pub fn accepted_is_narrow()
    ensures { (meta : Metamodel) (bytes : List ℕ) (program : Program)
        → Accepts meta bytes program → IsNarrow (counts_of meta) program }
{}

/// Bytes that make a program have no fault.
pub fn accepted_has_no_fault()
    ensures { (meta : Metamodel) (bytes : List ℕ) (program : Program) (fault : QueryFault)
        → Accepts meta bytes program → fault ≢ NoMemory → IsFaultOf meta bytes fault → ⊥ }
{
    one_list();
    bad_spells_nothing();
}

/// Bytes have at most one first fault.
pub fn one_fault()
    ensures { (meta : Metamodel) (bytes : List ℕ) (fault other : QueryFault)
        → fault ≢ NoMemory → other ≢ NoMemory
        → IsFaultOf meta bytes fault → IsFaultOf meta bytes other → fault ≡ other }
{
    one_bad_line();
    bad_spells_nothing();
}
