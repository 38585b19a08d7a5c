// Resolvers that pick the least entry under an order that nothing but the entries decides.
ghost use Rattle.std.specs.Prelude.{◌≡◌, ◌+◌, ◌≤◌, []};
ghost use Rattle.std.specs.declared.option.Option.{Option as Maybe};
ghost use Rattle.std.specs.declared.option.Option.TheVariants.{None};
ghost use Rattle.vt_resolve.specs.Choice.{order_of};
ghost use Rattle.vt_base.specs.declared.agenda.Policy.{Policy as Kind};
ghost use Rattle.vt_base.specs.declared.numbers.RuleId.{RuleId as Rule};

use crate::ranking::{Ranked, Ranking, first, put};
use crate::{Entry, Resolver};
use std::alloc::Global;
use std::marker::Model;
use vt_base::{NoMemory, Policy, RuleId};
use vt_sorted::Sorted;

/// The order of a policy, whichever rule fired last.
pub trait Least: Ranking {
    /// The policy.
    ghost policy: { Kind };

    fn policy() -> Policy
        ensures { result ≡ Self.policy };

    ghost orders: { (last : Maybe Rule) → order_of Self.policy last ≡ Self.rank };
}

/// Picks the least entry under its order.
#[derive(Drop)]
pub struct LeastBy<O: Least> {
    held: Sorted<Ranked<O>>,
    last: Option<RuleId>,
    alloc: Global,
}

impl<O: Least> Model for LeastBy<O> {
    ghost use Rattle.vt_resolve.specs.Inside.InOrder.{in_order};
    ghost use Rattle.vt_resolve.specs.Entries.{by_match};
    ghost use Rattle.vt_resolve.specs.Choice.{Keeping};

    ghost Value = { Keeping };

    ghost view = { λ it. record { last = it.last; held = in_order by_match it.held.items; spare = it.held.spare } };
}

impl<O: Least> LeastBy<O> {
    /// It holds nothing, and no rule has fired.
    pub fn new(alloc: Global) -> LeastBy<O>
        ensures held { result.held ≡ [] }
        ensures last { result.last ≡ None }
    {
        LeastBy {
            held: Sorted::new(alloc),
            last: None,
            alloc,
        }
    }
}

impl<O: Least> Resolver for LeastBy<O> {
    ghost seen = { λ it. record { policy = O.policy; last = it.last; held = it.held; spare = it.spare } };

    fn kind(&self) -> Policy {
        O::policy()
    }

    fn reserve(&mut self, more: usize) -> Result<(), NoMemory> {
        self.held.reserve(more)
    }

    fn add(&mut self, entry: Entry) -> Result<(), Entry> {
        put(&mut self.held, entry)?;
        Ok(())
    }

    fn remove(&mut self, entry: &Entry) -> bool {
        self.held.remove_like(entry)
    }

    fn pick(&self) -> Option<&Entry> {
        first(&self.held)
    }

    fn fired(&mut self, rule: RuleId) {
        self.last = Some(rule);
    }

    fn clear(&mut self) {
        self.held = Sorted::new(self.alloc);
        self.last = None;
    }
}
