// The commands of a script.
use vt_base::{Policy, Text};
use vt_model::Change;

/// A command, in the order of docs/SCRIPTS.md.
#[derive(Debug, Drop)]
pub enum Line {
    /// A client opens a transaction.
    Begin(Text),
    /// A client's transaction is to be done as one step.
    Commit(Text),
    /// A client's transaction is dropped.
    Abort(Text),
    /// A change goes into a client's transaction.
    Change {
        client: Text,
        change: Change,
    },
    /// An agenda fires at most so many times.
    Fire {
        agenda: Text,
        n: u32,
    },
    /// An agenda is to pick by another policy.
    Swap {
        agenda: Text,
        kind: Policy,
    },
    /// The rows of a pattern are told.
    Matches(Text),
    /// The activations of an agenda are told.
    Activations(Text),
    /// The rows of a pattern are told whose column prints as this text.
    Group {
        pattern: Text,
        column: u16,
        rest: Text,
    },
    /// The model is told.
    Dump,
}
