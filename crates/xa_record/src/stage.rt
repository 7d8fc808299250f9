//! What is left out together.

/// What is left out together of a record, in the order in which it is tried.
#[derive(Clone, Copy, Debug, PartialEq, Eq)]
pub enum Stage {
    /// All of it.
    Everything,
    /// Calls that are refused. Nothing depends on them.
    Refused,
    /// Calls that read. What they show depends on much, and only locks depend on them.
    Reads,
    /// Branches, each as a whole, and calls that belong to none.
    Branches,
    /// Calls.
    Calls,
}

impl Stage {
    /// Returns what is tried after this; None if this is the last.
    pub fn next(self) -> Option<Stage> {
        match self {
            Stage::Everything => Some(Stage::Refused),
            Stage::Refused => Some(Stage::Reads),
            Stage::Reads => Some(Stage::Branches),
            Stage::Branches => Some(Stage::Calls),
            Stage::Calls => None,
        }
    }

    /// Tells whether branches stay or go as a whole. They do so too when everything goes.
    pub fn takes_branches(self) -> bool {
        self == Stage::Everything || self == Stage::Branches
    }
}
