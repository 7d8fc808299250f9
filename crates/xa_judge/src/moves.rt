//! The moves of an order that explains a record.

use xa_xid::SessionNo;

/// What of a session can take effect.
#[derive(Clone, Copy, Debug, PartialEq, Eq)]
pub enum Act {
    /// The request that it called for.
    Statement,
    /// Its `DISCONNECT`, after its client is gone.
    Disconnect,
}

/// A move of an order that explains a record.
#[derive(Clone, Copy, Debug, PartialEq, Eq)]
pub enum Move {
    /// The next event is seen.
    Event,
    /// The session's act takes effect.
    Effect(SessionNo, Act),
}
