//! The branch that a session has open.
ghost use Rattle.std.specs.{Prelude.◌≡◌, Ordering.eq_by_cmp};
ghost use Rattle.xa_xid.specs.Xid.{bytes_cmp, same_xid};

use crate::shared_xid::SharedXid;
use std::alloc::AllocError;
use xa_xid::Xid;

/// The branch that a session has open. A session that owns no branch is free.
///
/// Source: MySQL 8.0 Reference Manual, 'XA Transaction States'.
#[derive(Drop)]
pub enum Association {
    /// No branch: the session is free, also right after its own `XA PREPARE`.
    Free,
    /// The ACTIVE branch of this identifier.
    Active(SharedXid),
    /// The IDLE branch of this identifier.
    Idle(SharedXid),
}

impl Clone for Association {
    ghost is_clone = { λ association copy. copy ≡ association };

    fn clone(&self) -> Result<Association, AllocError> {
        match self {
            Association::Free => Ok(Association::Free),
            Association::Active(own) => Ok(Association::Active(own.try_clone()?)),
            Association::Idle(own) => Ok(Association::Idle(own.try_clone()?)),
        }
    }
}

/// Returns whether two texts have the same bytes.
fn is_same_bytes(left: &[u8], right: &[u8]) -> bool
    ensures { result ≡ eq_by_cmp bytes_cmp left.now right.now }
{
    left == right
}

/// Returns whether two identifiers are equal. This is quicker than to compare their order.
pub fn is_same(left: &Xid, right: &Xid) -> bool
    ensures { result ≡ same_xid left.now right.now }
{
    left.format_id == right.format_id
        && is_same_bytes(&left.gtrid, &right.gtrid)
        && is_same_bytes(&left.bqual, &right.bqual)
}

impl Association {
    ghost use Rattle.xa_server.specs.{Locks.is_another as is_another_of, Tables.idle_of};

    /// Returns the association after the branch's work has ended: IDLE if it was ACTIVE, else as it was.
    pub fn ended(self) -> Association
        ensures { result ≡ idle_of self }
    {
        match self {
            Association::Free => Association::Free,
            Association::Active(own) => Association::Idle(own),
            Association::Idle(own) => Association::Idle(own),
        }
    }

    /// Returns whether the branch of this identifier is another than the one that the session has open. A free session
    /// has none open, so to it each is another.
    pub fn is_another(&self, xid: &Xid) -> bool
        ensures { result ≡ is_another_of self.now xid.now }
    {
        match self {
            Association::Free => true,
            Association::Active(own) => !is_same(xid, own.xid()),
            Association::Idle(own) => !is_same(xid, own.xid()),
        }
    }
}
