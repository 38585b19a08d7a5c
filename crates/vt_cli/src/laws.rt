// What holds of every run.
ghost use Rattle.std.specs.Prelude.{◌≡◌, List, ℕ};
ghost use Rattle.vt_outside.specs.Shelf.{NamedFiles};
ghost use Rattle.vt_cli.specs.Result.{IsDue};
ghost use Rattle.vt_cli.specs.declared.ending.Outcome.{Outcome};

use vt_query::{at_most_one_list_of_tables, narrow_is_acyclic};
use vt_vql::{accepted_has_no_fault, accepted_is_narrow, one_fault, one_program};

/// At most one outcome is due to words and files.
pub fn one_outcome_is_due()
    ensures { (words : List (List ℕ)) (files : NamedFiles) (outcome other : Outcome)
        → IsDue words files outcome → IsDue words files other → outcome ≡ other }
{
    one_program();
    accepted_has_no_fault();
    one_fault();
    accepted_is_narrow();
    narrow_is_acyclic();
    at_most_one_list_of_tables();
}
