// The resolver by age.
ghost use Rattle.std.specs.Prelude.{refl};
ghost use Rattle.vt_base.specs.declared.agenda.Policy.TheVariants.{Oldest as OldestKind};
ghost use Rattle.vt_resolve.specs.Entries.{by_age};
ghost use Rattle.vt_resolve.specs.Inside.EntryLaws.{age_total, age_exact};

use crate::fixed::ByPriority;
use crate::least::Least;
use crate::ranking::Ranking;
use crate::{Entry, LeastBy};
use std::cmp::Ordering;
use vt_base::Policy;

/// Picks what has been enabled for longest, and of these the least by priority, rule and match.
pub type Oldest = LeastBy<ByAge>;

/// By the step at which they came to be enabled, priority, rule and match.
pub struct ByAge;

impl Ranking for ByAge {
    ghost rank = { by_age };

    fn compare(a: &Entry, b: &Entry) -> Ordering {
        a.since.cmp(&b.since).then(ByPriority::compare(a, b))
    }

    ghost total = { age_total };

    ghost exact = { age_exact };
}

impl Least for ByAge {
    ghost policy = { OldestKind };

    fn policy() -> Policy {
        Policy::Oldest
    }

    ghost orders = { λ _. refl };
}
