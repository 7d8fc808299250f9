//! A branch that is to be made.

use xa_server::Phase;
use xa_xid::{SessionNo, Xid};

/// A branch that is to be made, without its rows.
#[derive(Drop)]
pub struct OpenBranch {
    /// Its identifier.
    pub xid: Xid,
    /// The phase to which it comes.
    pub phase: Phase,
    /// The session that starts it, and owns it until it is prepared.
    pub session: SessionNo,
}
