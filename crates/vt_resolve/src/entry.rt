// Entries: what a resolver chooses among.
ghost use Rattle.std.specs.Prelude.{◌≡◌};
ghost use Rattle.vt_resolve.specs.Entries.{by_match, state_place};

use std::alloc::Global;
use std::cmp::Ordering;
use vt_base::{NoMemory, Plain, RuleId, State, Tuple};

/// An enabled activation: a rule with a match of its pattern.
#[derive(Debug, Drop)]
pub struct Entry {
    pub rule: RuleId,
    pub tuple: Tuple,
    /// The state, for which the rule has a job.
    pub state: State,
    /// The rule's priority. The least comes first.
    pub priority: i64,
    /// The step at which it last came to be enabled.
    pub since: u64,
}

impl Plain for Entry {
    fn copy(&self, alloc: Global) -> Result<Entry, NoMemory> {
        let tuple = self.tuple.copy(alloc)?;
        Ok(Entry {
            rule: self.rule,
            tuple,
            state: self.state,
            priority: self.priority,
            since: self.since,
        })
    }
}

/// By rule and match; entries of one rule and match by what is left.
pub(crate) fn compare_match(a: &Entry, b: &Entry) -> Ordering
    ensures { result ≡ by_match a.now b.now }
{
    let rest = a.priority.cmp(&b.priority).then(a.since.cmp(&b.since));
    let rest = place_of(a.state).cmp(&place_of(b.state)).then(rest);
    let rest = a.tuple.compare(&b.tuple).then(rest);
    a.rule.0.cmp(&b.rule.0).then(rest)
}

// The place of a state in the sequence of states.
fn place_of(state: State) -> u8
    ensures { result ≡ state_place state }
{
    match state {
        State::Inactive => 0,
        State::Created => 1,
        State::Updated => 2,
        State::Fired => 3,
        State::Deleted => 4,
    }
}
