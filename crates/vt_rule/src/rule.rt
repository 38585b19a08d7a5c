// Rules: for each match of a pattern, the jobs that may be run for it.
ghost use Rattle.std.specs.Prelude.{◌≡◌};
ghost use Rattle.std.specs.Option.{option_copied};
ghost use Rattle.vt_rule.specs.Jobs.{is_state, job_for, has_job};

use vt_base::{List, PatternId, Policy, State, Text};
use vt_text::Expr;

/// The rules of a file, and the agendas that they are on. The number of a rule is its place among
/// the rules, and that of an agenda its place among the agendas.
#[derive(Debug, Drop)]
pub struct Rules {
    pub agendas: List<AgendaSpec>,
    pub rules: List<Rule>,
}

/// An agenda, and how it picks what fires next.
#[derive(Debug, Drop)]
pub struct AgendaSpec {
    pub name: Text,
    pub kind: Policy,
}

/// A rule: the pattern whose matches it answers, and how.
#[derive(Debug, Drop)]
pub struct Rule {
    pub name: Text,
    /// The number of the agenda that fires it.
    pub agenda: u16,
    pub pattern: PatternId,
    /// Where several activations may fire, the policy of the agenda looks at this. Less is sooner.
    pub priority: i64,
    /// Whether a match that changed after a firing is answered again.
    pub update: bool,
    /// Whether a match that went after a firing is answered.
    pub delete: bool,
    pub jobs: List<Job>,
}

/// What is done for an activation in a state.
#[derive(Debug, Drop)]
pub struct Job {
    pub state: State,
    pub statements: List<Statement>,
}

/// An object that a statement names.
#[derive(Clone, Copy, Debug, PartialEq, Eq)]
pub enum Who {
    /// The value that the match gives a parameter of the pattern.
    Param(u16),
    /// The object that a `Create` of the same job made: the first of them is 0.
    Made(u16),
}

/// What an expression takes its value from: the parameter of a pattern, or an attribute of the object
/// that it gives.
#[derive(Debug, Drop)]
pub enum Read {
    Param(u16),
    Attr(u16, Text),
}

/// One change that a job makes. Features and classes stand by their names.
#[derive(Debug, Drop)]
pub enum Statement {
    Create {
        class: Text,
    },
    Set {
        who: Who,
        attr: Text,
        expr: Expr,
        /// Where the value of each slot of the expression comes from.
        reads: List<Read>,
    },
    Unset {
        who: Who,
        attr: Text,
    },
    Link {
        who: Who,
        reference: Text,
        target: Who,
    },
    Unlink {
        who: Who,
        reference: Text,
        target: Who,
    },
    Move {
        child: Who,
        parent: Who,
        reference: Text,
    },
    Delete {
        who: Who,
    },
}

impl Rule {
    /// The job for a state. `None` where the rule has none.
    pub fn job(&self, state: State) -> Option<&Job>
        ensures { option_copied result ≡ job_for self.now.jobs state }
    {
        self.jobs
            .as_slice()
            .iter()
            .find(|job| is_state(job.state, state))
    }

    /// Whether the rule has a job for the state.
    pub fn has_job(&self, state: State) -> bool
        ensures { result ≡ has_job self.now.jobs state }
    {
        self.job(state).is_some()
    }
}

// Whether a state is this one.
fn is_state(state: State, which: State) -> bool
    ensures { result ≡ is_state state which }
{
    match (state, which) {
        (State::Inactive, State::Inactive) => true,
        (State::Created, State::Created) => true,
        (State::Updated, State::Updated) => true,
        (State::Fired, State::Fired) => true,
        (State::Deleted, State::Deleted) => true,
        _ => false,
    }
}
