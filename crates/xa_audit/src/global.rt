//! The names of global transactions.
ghost use Rattle.std.specs.Prelude.{◌≡◌};
ghost use Rattle.xa_audit.specs.Globals.{global_of};

use xa_xid::{Bytes, Xid, copy_of};

/// The name of a global transaction: its branches' identifiers have both parts. Names are ordered by formatID,
/// then gtrid.
#[derive(Debug, Drop, PartialEq, Eq, PartialOrd, Ord)]
pub struct GlobalName {
    /// The formatID.
    pub format_id: u64,
    /// The gtrid, 0 to 64 bytes.
    pub gtrid: Bytes,
}

impl GlobalName {
    /// Returns the global transaction of the branch of this identifier.
    pub fn of(xid: &Xid) -> GlobalName
        ensures { result ≡ global_of xid.now }
    {
        GlobalName {
            format_id: xid.format_id,
            gtrid: copy_of(&xid.gtrid),
        }
    }
}
