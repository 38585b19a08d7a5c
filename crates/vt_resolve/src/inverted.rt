// The resolver by signed priority.
ghost use Rattle.std.specs.Prelude.{◌≡◌, refl};
ghost use Rattle.vt_base.specs.declared.agenda.Policy.TheVariants.{Inverted as InvertedKind};
ghost use Rattle.vt_resolve.specs.Entries.{by_signed, signed};
ghost use Rattle.vt_resolve.specs.Inside.EntryLaws.{signed_total, signed_exact};

use crate::entry::compare_match;
use crate::least::Least;
use crate::ranking::Ranking;
use crate::{Entry, LeastBy};
use std::cmp::Ordering;
use vt_base::{Policy, State};

/// Picks the least by priority, rule and match, with the priority negated for entries in state
/// `Deleted`.
pub type Inverted = LeastBy<BySigned>;

/// By signed priority, rule and match.
pub struct BySigned;

// Wider than the priority, so that each has its negative.
fn signed_priority(entry: &Entry) -> i128
    ensures { result ≡ signed entry.now.state entry.now.priority }
{
    let priority = entry.priority as i128;
    match entry.state {
        State::Deleted => -priority,
        _ => priority,
    }
}

impl Ranking for BySigned {
    ghost rank = { by_signed };

    fn compare(a: &Entry, b: &Entry) -> Ordering {
        signed_priority(a)
            .cmp(&signed_priority(b))
            .then(compare_match(a, b))
    }

    ghost total = { signed_total };

    ghost exact = { signed_exact };
}

impl Least for BySigned {
    ghost policy = { InvertedKind };

    fn policy() -> Policy {
        Policy::Inverted
    }

    ghost orders = { λ _. refl };
}
