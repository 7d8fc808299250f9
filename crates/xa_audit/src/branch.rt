//! A branch, with the ends of its lives.
ghost use Rattle.std.specs.Prelude.{◌≡◌, IfOk};
ghost use Rattle.xa_audit.specs.Branches.{branch_in};

use crate::ends::Ends;
use crate::lives::Lives;
use std::alloc::Global;
use xa_xid::{NoMemory, Xid};

/// A branch of a store, with the ends of its lives.
#[derive(Drop)]
pub struct Branch {
    /// The number of the store, from 1.
    pub store: u64,
    /// The identifier.
    pub xid: Xid,
    /// How its lives end, in order.
    pub ends: Ends,
}

impl Branch {
    /// Returns the branch of a store that has these lives.
    ///
    /// May return `NoMemory`.
    pub fn of(alloc: Global, store: u64, xid: &Xid, lives: &Lives) -> Result<Branch, NoMemory>
        ensures { IfOk result (λ branch. branch ≡ branch_in store (xid.now, lives.now)) }
    {
        Ok(Branch {
            store,
            xid: xid.copy(),
            ends: lives.ends(alloc)?,
        })
    }

    /// Returns a copy.
    ///
    /// May return `NoMemory`.
    pub fn copy(&self, alloc: Global) -> Result<Branch, NoMemory>
        ensures { IfOk result (λ copy. copy ≡ self.now) }
    {
        Ok(Branch {
            store: self.store,
            xid: self.xid.copy(),
            ends: self.ends.copy(alloc)?,
        })
    }
}
