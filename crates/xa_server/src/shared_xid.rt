//! An identifier with several owners.
ghost use Rattle.std.specs.Prelude.{◌≡◌, IfOk};

use std::alloc::{AllocError, Global};
use std::marker::Model;
use std::sync::Arc;
use xa_xid::{NoMemory, Xid};

/// An identifier that several own together.
///
/// Its owners are the session that has the branch open, and the rows that the branch holds exclusively, or
/// was among the first to share. A contract sees the identifier.
#[derive(Debug, Drop)]
pub struct SharedXid {
    /// The identifier, in one place in memory for all its owners.
    shared: Arc<Xid>,
}

impl Model for SharedXid {
    ghost use Rattle.xa_xid.specs.{declared.xid.Xid.Xid as XidSeen, Xid.coded_xid};

    ghost Value = { XidSeen };

    ghost coded = { coded_xid };

    ghost view = { λ name. name.shared.value };
}

impl Clone for SharedXid {
    ghost is_clone = { λ name copy. copy ≡ name };

    fn clone(&self) -> Result<SharedXid, AllocError> {
        self.try_clone()
    }
}

impl SharedXid {
    /// Copies an identifier; the copy has one owner.
    ///
    /// May return `NoMemory`. Doesn't wait.
    pub fn of(alloc: Global, xid: &Xid) -> Result<SharedXid, NoMemory>
        ensures { IfOk result (λ name. name ≡ xid.now) }
    {
        Ok(SharedXid {
            shared: Arc::new(alloc, xid.copy())?,
        })
    }

    /// Adds an owner.
    ///
    /// Takes no memory, but returns `NoMemory` if there are too many owners to be counted. Doesn't wait.
    pub fn try_clone(&self) -> Result<SharedXid, NoMemory>
        ensures { IfOk result (λ name. name ≡ self.now) }
    {
        Ok(SharedXid {
            shared: Arc::try_clone(&self.shared)?,
        })
    }

    /// Returns the identifier.
    ///
    /// Takes no memory. Doesn't wait.
    pub fn xid(&self) -> &Xid
        ensures { result.now ≡ self.now }
    {
        &self.shared
    }
}
