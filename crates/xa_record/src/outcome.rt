//! The ends of judging a record.

/// How judging a record ends.
#[derive(Clone, Copy, Debug, PartialEq, Eq)]
pub enum Outcome {
    /// Some order explains it.
    Legal,
    /// No order explains it.
    Illegal,
    /// More different configurations than allowed have to be kept before one of its events.
    Undecided,
    /// Lines of it are faulty, so there is no verdict.
    Faulty,
    /// It has no event, so there is nothing to judge.
    Empty,
}
