//! How exploring a script ends.

/// How exploring a script ends.
#[derive(Clone, Copy, Debug, PartialEq, Eq)]
pub enum Ended {
    /// All outcomes are written.
    Done,
    /// More ways that have carried out equally many lines are known to differ than are allowed, so not all outcomes are
    /// known.
    Undecided,
    /// The script has faulty lines, which are written instead.
    Faulty,
}
