//! What the lines of a record say of a session.

/// What the lines so far say of a session.
#[derive(Clone, Copy, Debug, PartialEq, Eq)]
pub enum Presence {
    /// It has no open call.
    Idle,
    /// It has an open call.
    Open,
    /// Its client is gone.
    Lost,
}
