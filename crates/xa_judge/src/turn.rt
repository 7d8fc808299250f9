//! To which part of a record the open call of a session belongs, where free statements are judged apart.

/// To which part the open call of a session belongs, and whether the session may have a branch.
#[derive(Clone, Copy, Debug)]
pub enum Turn {
    /// It has no open call and no branch.
    Nobody,
    /// Its open call is a free statement on a chosen row. It has no branch.
    Chosen,
    /// Its open call belongs to the rest, and leaves it without a branch.
    Other,
    /// It has no open call, and may have a branch; or its client is gone.
    Within,
    /// Its open call belongs to the rest, and it may have a branch.
    Rest,
    /// Its open call belongs to the rest. It may have a branch, and has none once the call is answered `OK`.
    Ending,
}
