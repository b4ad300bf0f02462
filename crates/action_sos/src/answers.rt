//! What a performer answers to a step.

/// How a performance has ended.
#[derive(Clone, Copy, Debug, PartialEq, Eq)]
pub enum Outcome {
    /// It completed.
    Completed,
    /// It failed.
    Failed,
    /// It escaped.
    Escaped,
}

/// Whether a step has led to an end.
#[derive(Clone, Copy, Debug, PartialEq, Eq)]
pub enum Moved {
    /// The performance goes on.
    Went,
    /// It has ended.
    Ended(Outcome),
}
