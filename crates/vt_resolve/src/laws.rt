// Laws of choices, and the policy of each resolver.
ghost use Rattle.std.specs.Prelude.{◌≡◌, List, []};
ghost use Rattle.std.specs.declared.option.Option.{Option as Maybe};
ghost use Rattle.std.specs.declared.option.Option.TheVariants.{None};
ghost use Rattle.vt_base.specs.declared.agenda.Policy.{Policy as Kind};
ghost use Rattle.vt_base.specs.declared.agenda.Policy.TheVariants.{Fixed as FixedKind, Inverted as InvertedKind, Oldest as OldestKind, Turns as TurnsKind};
ghost use Rattle.vt_base.specs.declared.numbers.RuleId.{RuleId as Rule};
ghost use Rattle.vt_resolve.specs.Choice.{Keeping, choose};
ghost use Rattle.vt_resolve.specs.declared.entry.Entry.{Entry as Item};

use crate::{Fixed, Inverted, Oldest, Resolver, Turns};

/// Where there are entries, one of them is chosen.
pub fn one_of_some_is_chosen()
    ensures { (policy : Kind) (last : Maybe Rule) (entries : List Item) →
        choose policy last entries ≡ None → entries ≡ [] }
{}

/// Each resolver has the policy of its name.
pub fn each_has_its_policy()
    ensures fixed { (it : Keeping) → (⟦<Fixed as Resolver>⟧.seen it).policy ≡ FixedKind }
    ensures inverted { (it : Keeping) → (⟦<Inverted as Resolver>⟧.seen it).policy ≡ InvertedKind }
    ensures oldest { (it : Keeping) → (⟦<Oldest as Resolver>⟧.seen it).policy ≡ OldestKind }
    ensures turns { (it : Keeping) → (⟦<Turns as Resolver>⟧.seen it).policy ≡ TurnsKind }
{}
