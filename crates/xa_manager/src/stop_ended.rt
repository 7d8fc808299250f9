//! How a script of calls ends.

/// How a script of calls ends.
#[derive(Clone, Copy, Debug, PartialEq, Eq)]
pub enum Ended {
    /// All stops are written.
    Done,
    /// Lines are refused, and only these are written.
    Faulty,
}
