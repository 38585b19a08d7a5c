// Aggregates over a column of rows.

/// What the values in a column come to.
#[derive(Clone, Copy, Debug, PartialEq, Eq)]
pub enum AggKind {
    /// The sum of the whole numbers.
    Sum,
    /// The least value.
    Min,
    /// The greatest value.
    Max,
}
