//! A run: the statements that one session gives in a race.

use crate::Pass;
use xa_xid::Statement;

/// The statements that one session gives in a race.
#[derive(Drop)]
pub struct Run {
    /// The session's pass.
    pub pass: Pass,
    /// Its statements, in order.
    pub lines: Vec<Statement>,
}
