//! What a server carried out.

use crate::shared_statement::SharedStatement;
use xa_xid::SessionNo;

/// A statement that a server carried out.
#[derive(Drop)]
pub struct Done {
    /// The session that gave it.
    pub session: SessionNo,
    /// The statement.
    pub statement: SharedStatement,
}
