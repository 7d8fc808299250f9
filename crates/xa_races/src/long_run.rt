//! A run of a race over a store without an end.

use xa_endless::EndlessSession;
use xa_xid::Statement;

/// The statements that one session of a store without an end gives in a race.
#[derive(Drop)]
pub struct LongRun {
    /// The session.
    pub session: EndlessSession,
    /// Its statements, in order.
    pub lines: Vec<Statement>,
}
