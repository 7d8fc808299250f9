//! The ways in which a branch holds a row.
ghost use Rattle.std.specs.BTreeMap as tree;
ghost use Rattle.std.specs.Prelude.{◌≡◌, ◌≢◌, [], IfOk, OnErr};
ghost use Rattle.xa_xid.specs.Xid.{bytes_cmp};
ghost use Rattle.xa_server.specs.Held.{hold_in as hold_in_lock, held_recently};

use crate::association::is_same;
use crate::lock::{Change, Lock};
use crate::row::RecentRow;
use std::alloc::Global;
use std::collections::BTreeMap;
use xa_xid::{Bytes, Key, NoMemory, Xid, copy_of};

/// How a branch holds a row, until it ends.
///
/// Own rule: docs/STATEMENTS.md#rows-and-locks.
#[derive(Debug, Drop, PartialEq, Eq)]
pub enum Hold {
    /// In share: other branches may share the row too.
    Shared,
    /// Exclusively: at the branch's commit the row gets this value.
    Put(Bytes),
    /// Exclusively: at the branch's commit the row loses its value.
    Delete,
}

/// A row that a branch holds.
#[derive(Debug, Drop, PartialEq, Eq)]
pub struct HeldRow {
    /// The row's key.
    pub key: Key,
    /// How the branch holds it.
    pub hold: Hold,
}

/// Returns how this branch holds the row that has this lock; None if it doesn't hold it.
fn hold_in(xid: &Xid, lock: &Lock) -> Option<Hold>
    ensures { result ≡ hold_in_lock xid.now lock.now }
{
    match lock {
        Lock::Exclusive { holder, change } => {
            if !is_same(holder.xid(), xid) {
                return None;
            }
            match change {
                Change::Put(value) => Some(Hold::Put(copy_of(value.text()))),
                Change::Delete => Some(Hold::Delete),
            }
        }
        Lock::Shared(sharers) => {
            if sharers.contains(xid) {
                Some(Hold::Shared)
            } else {
                None
            }
        }
    }
}

/// Lists the rows that this branch holds, ascending by key. `recent` has the records of all rows that branches hold.
/// Returns `NoMemory` only if the branch holds a row.
pub fn held_in(
    alloc: Global,
    recent: &BTreeMap<Key, RecentRow>,
    xid: &Xid,
) -> Result<Vec<HeldRow>, NoMemory>
    ensures listed { IfOk result (λ rows. rows.items ≡ held_recently xid.now recent.now.entries) }
    ensures memory { OnErr result (held_recently xid.now recent.now.entries ≢ []) }
    ensures ordered { tree.IsOrdered bytes_cmp recent.now }
{
    let mut rows = Vec::new(alloc);
    for (key, row) in recent {
        if let Some(hold) = hold_in(xid, &row.lock) {
            rows.push(HeldRow {
                key: key.copy(),
                hold,
            })?;
        }
    }
    Ok(rows)
}
