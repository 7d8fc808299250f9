//! How much of the history a session of an unbounded store has seen.

/// How much of the history a session has seen, and how often it has looked.
#[derive(Clone, Copy, Debug, PartialEq, Eq)]
pub struct Watch {
    /// How many entries it has seen, from the first on.
    pub seen: u64,
    /// How often it has looked.
    pub looks: u64,
}
