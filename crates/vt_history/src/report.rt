// What is told of a step.
use vt_base::{List, ObjId, PatternId, Rows, RuleId, Tuple};

/// What a step did to the matches of a pattern. No tuple is in two of the sets.
#[derive(Debug, Drop)]
pub struct PatternEvents {
    pub pattern: PatternId,
    /// What is a match and was none.
    pub added: Rows,
    /// What was a match and is none.
    pub removed: Rows,
    /// What was a match and is one, of an object that has other values than before.
    pub updated: Rows,
}

/// What a step did.
#[derive(Debug, Drop)]
pub struct StepReport {
    /// The number of the step. The load is step 0.
    pub step: u64,
    /// What happened to each pattern's matches, in the order of the patterns.
    pub events: List<PatternEvents>,
    /// The objects that live before and after with other values, in rising order.
    pub touched: List<ObjId>,
    /// The rule that fired, and the match that it fired for.
    pub fired: Option<(RuleId, Tuple)>,
}
