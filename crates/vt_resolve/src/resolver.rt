// What a resolver owes.
ghost use Rattle.std.specs.Prelude.{◌≡◌, ◌+◌, ◌≤◌, [], false, OnOk, OnErr, IfErr, IsOk};
ghost use Rattle.std.specs.declared.option.Option.TheVariants.{None, Some};
ghost use Rattle.std.specs.Option.{option_copied};
ghost use Rattle.vt_sorted.specs.Ascending.{has, with_item, without_item};
ghost use Rattle.vt_resolve.specs.Entries.{by_match};
ghost use Rattle.vt_resolve.specs.Choice.{Resolving, choose, holds_match};

use crate::Entry;
use vt_base::{NoMemory, Policy, RuleId};

/// Holds the enabled entries of an agenda, and picks among them by its policy.
pub trait Resolver: Drop {
    /// Its policy, the rule that fired last, the entries that it holds, by rule and match, and how
    /// many more it takes with no memory.
    ghost seen: { Self → Resolving };

    /// Its policy.
    fn kind(&self) -> Policy
        ensures { result ≡ (seen self.now).policy };

    /// Makes room for so many more entries.
    fn reserve(&mut self, more: usize) -> Result<(), NoMemory>
        ensures policy { (seen self.new).policy ≡ (seen self.old).policy }
        ensures last { (seen self.new).last ≡ (seen self.old).last }
        ensures held { (seen self.new).held ≡ (seen self.old).held }
        ensures room { OnOk result (more ≤ (seen self.new).spare) }
        ensures grows { (seen self.old).spare ≤ (seen self.new).spare };

    /// Holds one entry more, of a rule and match of which none is held. It fails for want of memory
    /// alone, never where there is room, and then hands the entry back.
    fn add(&mut self, entry: Entry) -> Result<(), Entry>
        requires fresh { holds_match (seen self.old).held entry ≡ false }
        ensures policy { (seen self.new).policy ≡ (seen self.old).policy }
        ensures last { (seen self.new).last ≡ (seen self.old).last }
        ensures held { OnOk result
            ((seen self.new).held ≡ with_item by_match (seen self.old).held entry) }
        ensures unchanged { OnErr result ((seen self.new).held ≡ (seen self.old).held) }
        ensures comes_back { IfErr result (λ back. back ≡ entry) }
        ensures succeeds { 1 ≤ (seen self.old).spare → IsOk result }
        ensures room { (seen self.old).spare ≤ (seen self.new).spare + 1 };

    /// Drops the entry, and answers whether it was held.
    fn remove(&mut self, entry: &Entry) -> bool
        ensures policy { (seen self.new).policy ≡ (seen self.old).policy }
        ensures last { (seen self.new).last ≡ (seen self.old).last }
        ensures held { (seen self.new).held ≡ without_item by_match (seen self.old).held entry.now }
        ensures stood { result ≡ has by_match (seen self.old).held entry.now }
        ensures room { (seen self.old).spare ≤ (seen self.new).spare };

    /// The entry that its policy picks. `None` is of a resolver that holds none.
    fn pick(&self) -> Option<&Entry>
        ensures { option_copied result ≡
            choose (seen self.now).policy (seen self.now).last (seen self.now).held };

    /// Keeps the rule as the one that fired last.
    fn fired(&mut self, rule: RuleId)
        ensures policy { (seen self.new).policy ≡ (seen self.old).policy }
        ensures last { (seen self.new).last ≡ Some rule }
        ensures held { (seen self.new).held ≡ (seen self.old).held }
        ensures room { (seen self.old).spare ≤ (seen self.new).spare };

    /// Holds nothing, and no rule has fired.
    fn clear(&mut self)
        ensures policy { (seen self.new).policy ≡ (seen self.old).policy }
        ensures last { (seen self.new).last ≡ None }
        ensures held { (seen self.new).held ≡ [] };
}
