//! The branches that hold a row.
ghost use Rattle.std.specs.FinSet as set;
ghost use Rattle.std.specs.{Prelude.{◌≡◌, true, is_some, IfOk, OnOk, OnErr}, Option.option_map};
ghost use Rattle.xa_server.specs.Rows.{write_of, write_in, mode_in, held_beside, locked_beside, with_sharer};
ghost use Rattle.xa_server.specs.Rows.{freed_lock};

use crate::association::{Association, is_same};
use crate::shared_text::SharedText;
use crate::shared_xid::SharedXid;
use crate::sharers::Sharers;
use std::alloc::Global;
use xa_xid::{Bytes, NoMemory, Xid};

/// What a branch that holds a row exclusively does to the row at its commit.
#[derive(Drop)]
pub enum Change {
    /// The row gets this value.
    Put(SharedText),
    /// The row loses its value.
    Delete,
}

/// The branches that hold a row.
#[derive(Drop)]
pub enum Lock {
    /// One branch holds it exclusively.
    Exclusive {
        /// The branch.
        holder: SharedXid,
        /// Its newest write of the row.
        change: Change,
    },
    /// These branches share it. If there are none, no branch holds the row.
    Shared(Sharers),
}

/// Returns true only if two identifiers are equal.
pub fn is_same_xid(left: &Xid, right: &Xid) -> bool
    ensures { result ≡ true → left.now ≡ right.now }
{
    is_same(left, right)
}

/// Returns true only if two texts have the same bytes.
pub fn is_same_text(left: &Bytes, right: &Bytes) -> bool
    ensures { result ≡ true → left.now ≡ right.now }
{
    left.as_slice() == right.as_slice()
}

impl Change {
    /// Copies the change.
    fn copy(&self) -> Result<Change, NoMemory>
        ensures { IfOk result (λ copy. copy ≡ self.now) }
    {
        match self {
            Change::Put(value) => Ok(Change::Put(value.try_clone()?)),
            Change::Delete => Ok(Change::Delete),
        }
    }

    /// Returns true only if both do the same to a row.
    pub fn is_same(&self, other: &Change) -> bool
        ensures { result ≡ true → self.now ≡ other.now }
    {
        match self {
            Change::Put(value) => match other {
                Change::Put(another) => is_same_text(value.text(), another.text()),
                Change::Delete => false,
            },
            Change::Delete => matches!(other, Change::Delete),
        }
    }

    /// Returns the value that the row has after the change, or `None` if it has none.
    pub fn into_value(self) -> Option<SharedText>
        ensures { result ≡ write_of self }
    {
        match self {
            Change::Put(value) => Some(value),
            Change::Delete => None,
        }
    }
}

impl Lock {
    /// Makes the lock of a row that no branch holds.
    pub fn nobodys(alloc: Global) -> Lock
        ensures { result ≡ Lock.Shared set.empty }
    {
        Lock::Shared(Sharers::new(alloc))
    }

    /// Copies the lock.
    pub fn copy(&self) -> Result<Lock, NoMemory>
        ensures { IfOk result (λ copy. copy ≡ self.now) }
    {
        match self {
            Lock::Exclusive { holder, change } => Ok(Lock::Exclusive {
                holder: holder.try_clone()?,
                change: change.copy()?,
            }),
            Lock::Shared(sharers) => Ok(Lock::Shared(sharers.copy()?)),
        }
    }

    /// Returns true only if the same branches hold both in the same way, with the same change.
    pub fn is_same(&self, other: &Lock) -> bool
        ensures { result ≡ true → self.now ≡ other.now }
    {
        match self {
            Lock::Exclusive { holder, change } => match other {
                Lock::Exclusive {
                    holder: another,
                    change: other_change,
                } => is_same_xid(holder.xid(), another.xid()) && change.is_same(other_change),
                Lock::Shared(_) => false,
            },
            Lock::Shared(sharers) => match other {
                Lock::Exclusive {
                    holder: _,
                    change: _,
                } => false,
                Lock::Shared(others) => sharers.is_same(others),
            },
        }
    }

    /// Returns whether a branch holds the row, in share or exclusively, that isn't the one that the session has open,
    /// its `association`.
    pub fn is_held_beside(&self, association: &Association) -> bool
        ensures { result ≡ held_beside association.now self.now }
    {
        match self {
            Lock::Exclusive { holder, change: _ } => association.is_another(holder.xid()),
            Lock::Shared(sharers) => sharers.has_another(association),
        }
    }

    /// Returns whether a branch holds the row exclusively that isn't the one that the session has open, its
    /// `association`.
    pub fn is_locked_beside(&self, association: &Association) -> bool
        ensures { result ≡ locked_beside association.now self.now }
    {
        match self {
            Lock::Exclusive { holder, change: _ } => association.is_another(holder.xid()),
            Lock::Shared(_) => false,
        }
    }

    /// Returns whether this branch holds the row, in share or exclusively.
    pub fn is_held_by(&self, xid: &Xid) -> bool
        ensures { result ≡ is_some (mode_in xid.now self.now) }
    {
        match self {
            Lock::Exclusive { holder, change: _ } => is_same(holder.xid(), xid),
            Lock::Shared(sharers) => sharers.contains(xid),
        }
    }

    /// Makes this branch share the row. An exclusive lock stays as it is. After `NoMemory` the lock is
    /// unchanged.
    pub fn share(&mut self, xid: &SharedXid) -> Result<(), NoMemory>
        ensures ok { OnOk result (self.new ≡ with_sharer xid.now self.old) }
        ensures err { OnErr result (self.new ≡ self.old) }
    {
        match self {
            // The server shares no row that is held exclusively, so this doesn't come.
            Lock::Exclusive {
                holder: _,
                change: _,
            } => Ok(()),
            Lock::Shared(sharers) => sharers.add(xid),
        }
    }

    /// Returns the lock without this branch, and the branch's change of the row if the branch held it exclusively, else
    /// None. The lock of a row that the branch doesn't hold stays as it is.
    pub fn without(self, alloc: Global, xid: &Xid) -> (Lock, Option<Change>)
        ensures lock { result.0 ≡ freed_lock xid.now self }
        ensures change { option_map write_of result.1 ≡ write_in xid.now self }
    {
        match self {
            Lock::Exclusive { holder, change } => {
                if is_same(holder.xid(), xid) {
                    (Lock::nobodys(alloc), Some(change))
                } else {
                    (Lock::Exclusive { holder, change }, None)
                }
            }
            Lock::Shared(mut sharers) => {
                sharers.remove(xid);
                (Lock::Shared(sharers), None)
            }
        }
    }
}
