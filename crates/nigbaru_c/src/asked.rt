//! What a call asks of a session by values.
use xa_xid::Statement;

/// What a call asks of a session by its arguments, other than a text.
#[derive(Drop)]
pub enum Asked {
    /// To answer this statement.
    For(Statement),
    /// Nothing: an argument is out of its range.
    Unfit,
}
