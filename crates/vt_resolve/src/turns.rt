// The resolver that gives each rule its turn.
ghost use Rattle.std.specs.Prelude.{◌≡◌, ◌+◌, ◌≤◌, [], slice_get};
ghost use Rattle.std.specs.Option.{option_copied};
ghost use Rattle.std.specs.declared.option.Option.TheVariants.{None, Some};
ghost use Rattle.vt_sorted.specs.Ascending.{items_after};
ghost use Rattle.vt_base.specs.declared.agenda.Policy.TheVariants.{Turns as TurnsKind};
ghost use Rattle.vt_resolve.specs.Entries.{by_match};
ghost use Rattle.vt_resolve.specs.Choice.{choose, is_passed};
ghost use Rattle.vt_resolve.specs.Inside.EntryLaws.{match_total, match_exact, passed_closed};

use crate::entry::compare_match;
use crate::ranking::{Ranked, Ranking, first, put};
use crate::{Entry, Resolver};
use std::alloc::Global;
use std::cmp::Ordering;
use std::marker::Model;
use vt_base::{NoMemory, Policy, RuleId};
use vt_sorted::{Front, Sorted};

/// By rule and match.
pub struct ByMatch;

impl Ranking for ByMatch {
    ghost rank = { by_match };

    fn compare(a: &Entry, b: &Entry) -> Ordering {
        compare_match(a, b)
    }

    ghost total = { match_total };

    ghost exact = { match_exact };
}

// The entries of the rules up to one.
#[derive(Drop)]
struct Passed {
    last: RuleId,
}

impl Front<Ranked<ByMatch>> for Passed {
    ghost holds = { λ passed e. is_passed (Some passed.last) e };

    ghost closed = { λ passed x y l e. passed_closed passed.last x y l e };

    fn holds(&self, item: &Ranked<ByMatch>) -> bool {
        item.entry().rule.0 <= self.last.0
    }
}

/// Picks the least match of the first rule after the one that fired last, in cyclic order.
#[derive(Drop)]
pub struct Turns {
    held: Sorted<Ranked<ByMatch>>,
    last: Option<RuleId>,
    alloc: Global,
}

impl Model for Turns {
    ghost use Rattle.vt_resolve.specs.Choice.{Keeping};

    ghost Value = { Keeping };

    ghost view = { λ it. record { last = it.last; held = it.held.items; spare = it.held.spare } };
}

impl Turns {
    /// It holds nothing, and no rule has fired.
    pub fn new(alloc: Global) -> Turns
        ensures held { result.held ≡ [] }
        ensures last { result.last ≡ None }
    {
        Turns {
            held: Sorted::new(alloc),
            last: None,
            alloc,
        }
    }
}

impl Resolver for Turns {
    ghost seen = { λ it. record { policy = TurnsKind; last = it.last; held = it.held; spare = it.spare } };

    fn kind(&self) -> Policy {
        Policy::Turns
    }

    fn reserve(&mut self, more: usize) -> Result<(), NoMemory> {
        self.held.reserve(more)
    }

    fn add(&mut self, entry: Entry) -> Result<(), Entry> {
        put(&mut self.held, entry)?;
        Ok(())
    }

    fn remove(&mut self, entry: &Entry) -> bool {
        self.held.remove_like(entry)
    }

    fn pick(&self) -> Option<&Entry> {
        match self.last {
            Some(last) => in_turn(&self.held, last),
            None => first(&self.held),
        }
    }

    fn fired(&mut self, rule: RuleId) {
        self.last = Some(rule);
    }

    fn clear(&mut self) {
        self.held = Sorted::new(self.alloc);
        self.last = None;
    }
}

// The first entry of a rule after this one, or else the first of all.
fn in_turn(held: &Sorted<Ranked<ByMatch>>, last: RuleId) -> Option<&Entry>
    ensures { option_copied result ≡ choose TurnsKind (Some last) held.now.items }
{
    held.ascend();
    match first_after(held, last) {
        Some(entry) => Some(entry),
        None => first(held),
    }
}

// The first entry of a rule after this one.
fn first_after(held: &Sorted<Ranked<ByMatch>>, last: RuleId) -> Option<&Entry>
    ensures { option_copied result ≡
        slice_get (items_after (is_passed (Some last)) held.now.items) 0 }
{
    let mut later = held.walk_after(&Passed { last });
    match later.next() {
        Some(ranked) => Some(ranked.entry()),
        None => None,
    }
}
