// The states of an activation, and the policies of an agenda.

/// The state of an activation: a rule together with a match of its pattern.
#[derive(Clone, Copy, Debug, PartialEq, Eq)]
pub enum State {
    /// Nothing is to be done. Each activation starts here.
    Inactive,
    /// The match came, and no firing answered it yet.
    Created,
    /// The match changed after a firing, and no firing answered that yet.
    Updated,
    /// A firing answered the match.
    Fired,
    /// The match went after a firing, and no firing answered that yet.
    Deleted,
}

/// How an agenda picks the activation that fires next.
#[derive(Clone, Copy, Debug, PartialEq, Eq)]
pub enum Policy {
    /// The least by priority, rule and match.
    Fixed,
    /// The same, with the priority negated for activations that are `Deleted`.
    Inverted,
    /// The one that has been enabled for longest, and of these the least by priority, rule and match.
    Oldest,
    /// The least match of the next rule in turn.
    Turns,
}
