// The resolver by priority.
ghost use Rattle.std.specs.Prelude.{refl};
ghost use Rattle.vt_base.specs.declared.agenda.Policy.TheVariants.{Fixed as FixedKind};
ghost use Rattle.vt_resolve.specs.Entries.{by_priority};
ghost use Rattle.vt_resolve.specs.Inside.EntryLaws.{priority_total, priority_exact};

use crate::entry::compare_match;
use crate::least::Least;
use crate::ranking::Ranking;
use crate::{Entry, LeastBy};
use std::cmp::Ordering;
use vt_base::Policy;

/// Picks the least by priority, rule and match.
pub type Fixed = LeastBy<ByPriority>;

/// By priority, rule and match.
pub struct ByPriority;

impl Ranking for ByPriority {
    ghost rank = { by_priority };

    fn compare(a: &Entry, b: &Entry) -> Ordering {
        a.priority.cmp(&b.priority).then(compare_match(a, b))
    }

    ghost total = { priority_total };

    ghost exact = { priority_exact };
}

impl Least for ByPriority {
    ghost policy = { FixedKind };

    fn policy() -> Policy {
        Policy::Fixed
    }

    ghost orders = { λ _. refl };
}
