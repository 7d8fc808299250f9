//! The records of the rows that were touched lately.
ghost use Rattle.std.specs.{Prelude.{◌≡◌, true, is_some, IfOk}, Option.option_copied};
ghost use Rattle.xa_server.specs.{Rows.{held_beside, locked_beside, mode_in, write_in}, Layers.recent_lock};
ghost use Rattle.xa_server.specs.Layers.{change_of, change_at, value_of, hides_below, freed_recent, is_needed_over};
ghost use Rattle.xa_server.specs.Layers.{held_as_below};

use crate::association::{Association, is_same};
use crate::lock::{Change, Lock, is_same_text};
use crate::shared_text::SharedText;
use std::alloc::{AllocError, Global};
use xa_xid::{Bytes, NoMemory, Xid, copy_of};

/// The committed value of a row that has a record.
#[derive(Drop)]
pub enum RecentValue {
    /// What the runs below the record have: a value, or none.
    AsBelow,
    /// This value, whatever the runs have.
    Value(SharedText),
    /// No value, whatever the runs have.
    Gone,
}

/// The record of a row that was written or held lately. Each row that a branch holds has one.
#[derive(Drop)]
pub struct RecentRow {
    /// The value that all sessions see.
    pub value: RecentValue,
    /// The branches that hold the row.
    pub lock: Lock,
}

impl RecentValue {
    /// Copies the value.
    fn copy(&self) -> Result<RecentValue, NoMemory>
        ensures { IfOk result (λ copy. copy ≡ self.now) }
    {
        match self {
            RecentValue::AsBelow => Ok(RecentValue::AsBelow),
            RecentValue::Value(text) => Ok(RecentValue::Value(text.try_clone()?)),
            RecentValue::Gone => Ok(RecentValue::Gone),
        }
    }

    /// Returns true only if both say the same of the value below.
    fn is_same(&self, other: &RecentValue) -> bool
        ensures { result ≡ true → self.now ≡ other.now }
    {
        match self {
            RecentValue::AsBelow => matches!(other, RecentValue::AsBelow),
            RecentValue::Value(text) => match other {
                RecentValue::Value(another) => is_same_text(text.text(), another.text()),
                _ => false,
            },
            RecentValue::Gone => matches!(other, RecentValue::Gone),
        }
    }

    /// Makes the value of a row that has this one, or none, whatever the runs have.
    pub fn of(value: Option<SharedText>) -> RecentValue
        ensures { result ≡ value_of value }
    {
        match value {
            Some(text) => RecentValue::Value(text),
            None => RecentValue::Gone,
        }
    }

    /// Returns whether it says more than no record would. A deletion does only if there are runs below: not if the
    /// record `is_alone`.
    fn hides(&self, is_alone: bool) -> bool
        ensures { result ≡ hides_below is_alone self.now }
    {
        match self {
            RecentValue::AsBelow => false,
            RecentValue::Value(_) => true,
            RecentValue::Gone => !is_alone,
        }
    }

    /// Returns what the record makes of the value below it: a value, or none. `None` if it leaves that as it is.
    pub fn change(&self) -> Result<Option<Option<SharedText>>, NoMemory>
        ensures { IfOk result (λ change. change ≡ change_of self.now) }
    {
        match self {
            RecentValue::AsBelow => Ok(None),
            RecentValue::Value(text) => Ok(Some(Some(text.try_clone()?))),
            RecentValue::Gone => Ok(Some(None)),
        }
    }
}

impl Clone for RecentRow {
    ghost is_clone = { λ row copy. copy ≡ row };

    fn clone(&self) -> Result<RecentRow, AllocError> {
        Ok(RecentRow {
            value: self.value.copy()?,
            lock: self.lock.copy()?,
        })
    }
}

impl RecentRow {
    /// Returns true only if both records are the same.
    pub fn is_same(&self, other: &RecentRow) -> bool
        ensures { result ≡ true → self.now ≡ other.now }
    {
        self.value.is_same(&other.value) && self.lock.is_same(&other.lock)
    }

    /// Copies the record of a row that a branch holds, over runs that have its value. `None` if no branch holds it.
    pub fn held(&self) -> Result<Option<RecentRow>, NoMemory>
        ensures { IfOk result (λ row. row ≡ held_as_below self.now) }
    {
        if !self.lock.is_held_beside(&Association::Free) {
            return Ok(None);
        }
        Ok(Some(RecentRow {
            value: RecentValue::AsBelow,
            lock: self.lock.copy()?,
        }))
    }
}

/// Returns whether a branch holds the row, in share or exclusively, that isn't the one that the session has open, its
/// `association`. A row without a record is held by nobody.
pub fn is_held_against(association: &Association, row: Option<&RecentRow>) -> bool
    ensures { result ≡ held_beside association.now (recent_lock (option_copied row.entry)) }
{
    match row {
        None => false,
        Some(record) => record.lock.is_held_beside(association),
    }
}

/// Returns whether a branch holds the row exclusively that isn't the one that the session has open, its `association`.
/// A row without a record is held by nobody.
pub fn is_locked_against(association: &Association, row: Option<&RecentRow>) -> bool
    ensures { result ≡ locked_beside association.now (recent_lock (option_copied row.entry)) }
{
    match row {
        None => false,
        Some(record) => record.lock.is_locked_beside(association),
    }
}

/// Returns whether this branch holds the row, in share or exclusively. A row without a record is held by nobody.
pub fn is_held_by(own: &Xid, row: Option<&RecentRow>) -> bool
    ensures { result ≡ is_some (mode_in own.now (recent_lock (option_copied row.entry))) }
{
    match row {
        None => false,
        Some(record) => record.lock.is_held_by(own),
    }
}

/// Returns what this branch wrote to the row last, a value or a deletion, if it holds the row exclusively. A row
/// without a record is held by nobody.
pub fn written_by(own: &Xid, row: Option<&RecentRow>) -> Option<Option<Bytes>>
    ensures { result ≡ write_in own.now (recent_lock (option_copied row.entry)) }
{
    // A branch writes a row only while it holds it exclusively.
    let Lock::Exclusive { holder, change } = &row?.lock else {
        return None;
    };
    // What another branch wrote isn't seen before its commit.
    if !is_same(holder.xid(), own) {
        return None;
    }
    match change {
        Change::Put(value) => Some(Some(copy_of(value.text()))),
        Change::Delete => Some(None),
    }
}

/// Returns what the row's record makes of the value below it: a value, or none. `None` if it leaves that as it is, or
/// if there is no record.
pub fn changed_value(row: Option<&RecentRow>) -> Option<Option<Bytes>>
    ensures { result ≡ change_at (option_copied row.entry) }
{
    match &row?.value {
        RecentValue::AsBelow => None,
        RecentValue::Value(text) => Some(Some(copy_of(text.text()))),
        RecentValue::Gone => Some(None),
    }
}

/// Ends the branch's hold of a row, if the branch holds it. If the branch `commits`, and held the row exclusively, its
/// change becomes the row's value. Returns whether the record is still needed: a branch holds the row, or the record
/// says more than no record would. `is_alone` says that there are no runs below.
pub fn free(row: &mut RecentRow, alloc: Global, xid: &Xid, commits: bool, is_alone: bool) -> bool
    ensures row { row.new ≡ freed_recent commits xid.now row.old }
    ensures needed { result ≡ is_needed_over is_alone row.new }
{
    // `without` takes the lock itself, so an empty one stands in for it meanwhile.
    let held = std::mem::replace(&mut row.lock, Lock::nobodys(alloc));
    let (lock, change) = held.without(alloc, xid);
    row.lock = lock;
    if let Some(change) = change {
        // A branch that is rolled back leaves the value as it was.
        if commits {
            row.value = RecentValue::of(change.into_value());
        }
    }
    // A free session has no branch, so any branch that holds the row holds it beside such a session.
    row.lock.is_held_beside(&Association::Free) || row.value.hides(is_alone)
}
