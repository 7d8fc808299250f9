//! The answer to a statement.

use xa_server::Reply;

/// The reply to a statement, and the place in the history at which the reply was found.
#[derive(Debug, Drop)]
pub struct Answer {
    /// How many entries come before the place, in `[0, capacity]` of the log. The reply is the server's
    /// after these entries.
    pub place: u64,
    /// The server's reply at that place.
    pub reply: Reply,
}
