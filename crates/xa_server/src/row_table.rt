//! All rows: the records of those that were touched lately, and runs of the others.
ghost use Rattle.std.specs.BTreeMap as tree;
ghost use Rattle.std.specs.FinMap as map;
ghost use Rattle.std.specs.FinSet as set;
ghost use Rattle.std.specs.Prelude.{◌≡◌, ◌≢◌, true, false, is_some, Some, None, [], ◌∷◌, ◌++◌, List, ℕ, IfOk, OnOk};
ghost use Rattle.std.specs.{Prelude.{OnErr, MatchOption, IfSome, IsTrue}, Option.{option_copied, option_and_then}};
ghost use Rattle.xa_xid.specs.Xid.{bytes_cmp};
ghost use Rattle.xa_server.specs.{Held.held_among, Rows.{held_row, shared_row, with_sharer, Frees, committed_of}};
ghost use Rattle.xa_server.specs.Rows.{value_seen, lock_by, held_against, locked_against};
ghost use Rattle.xa_server.specs.Layers.{freed_recent, is_needed_over, change_of, held_as_below, put_at, gathered};

use crate::association::Association;
use crate::hold::{HeldRow, held_in};
use crate::keys::Keys;
use crate::lock::{Change, Lock};
use crate::row::{self, RecentRow, RecentValue};
use crate::runs::Runs;
use crate::shared_text::SharedText;
use crate::shared_xid::SharedXid;
use std::alloc::Global;
use std::collections::BTreeMap;
use std::marker::Model;
use xa_xid::{Bytes, Key, NoMemory, Xid};

/// If more rows than these have a record, a copy puts their values into a run.
const MOST_RECENT: usize = 256;

/// All rows. A row that was written or held since the last copies has a record, and so has each row that a branch
/// holds; below the records are runs, which copies share. So a copy takes time and memory for the records, never for
/// all rows. A contract sees the rows by key.
///
/// Only what reads a value looks below a record, or where there is none.
#[derive(Drop)]
pub struct RowTable {
    /// The records of recent rows, by their keys.
    recent: BTreeMap<Key, RecentRow>,
    /// The values of rows, where no record says otherwise.
    runs: Runs,
    /// Where memory for records, values and sharers is taken from.
    alloc: Global,
}

impl Model for RowTable {
    ghost use Rattle.std.specs.FinMap as map;
    ghost use Rattle.xa_xid.specs.Xid.{bytes_cmp};
    ghost use Rattle.xa_server.specs.{Coding.coded_rows, Rows.RowMap, Layers.layered};

    ghost Value = { RowMap };

    ghost coded = { coded_rows };

    ghost view = { λ table. layered (map.from_entries {R = bytes_cmp} table.recent.entries) table.runs };
}

/// Sets the lock of a row's record, and returns None. If the row has no record, returns the lock.
fn set_lock(recent: &mut BTreeMap<Key, RecentRow>, key: &Key, lock: Lock) -> Option<Lock>
    ensures changed { MatchOption (tree.get bytes_cmp recent.old key.now) (recent.new ≡ recent.old)
        (λ row. tree.Updates bytes_cmp recent.old recent.new key.now (Some (record row { lock = lock }))) }
    ensures back { MatchOption (tree.get bytes_cmp recent.old key.now) (result ≡ Some lock) (λ row. result ≡ None) }
{
    match recent.get_mut(key) {
        None => Some(lock),
        Some(row) => {
            row.lock = lock;
            None
        }
    }
}

/// Adds a branch to the sharers in a row's record, if the row has one. If the row is held exclusively, its record stays
/// as it is. Returns whether the row has a record. After `NoMemory` the records are unchanged.
fn share_in(
    recent: &mut BTreeMap<Key, RecentRow>,
    key: &Key,
    xid: &SharedXid,
) -> Result<bool, NoMemory>
    ensures ok { OnOk result (MatchOption (tree.get bytes_cmp recent.old key.now) (recent.new ≡ recent.old)
        (λ row. tree.Updates bytes_cmp recent.old recent.new key.now
        (Some (record row { lock = with_sharer xid.now row.lock })))) }
    ensures found { IfOk result (λ found. found ≡ is_some (tree.get bytes_cmp recent.old key.now)) }
    ensures err { OnErr result (MatchOption (tree.get bytes_cmp recent.old key.now) (recent.new ≡ recent.old)
        (λ row. tree.Updates bytes_cmp recent.old recent.new key.now (Some row))) }
{
    match recent.get_mut(key) {
        None => Ok(false),
        Some(row) => {
            row.lock.share(xid)?;
            Ok(true)
        }
    }
}

/// Ends a branch's hold of a row in the row's record (`row::free`). Returns whether the record is still needed; `true`
/// also if the row has no record, so that the caller removes nothing. `is_alone` says that there are no runs.
fn free_in(
    recent: &mut BTreeMap<Key, RecentRow>,
    alloc: Global,
    key: &Key,
    xid: &Xid,
    commits: bool,
    is_alone: bool,
) -> bool
    ensures changed { MatchOption (tree.get bytes_cmp recent.old key.now) (recent.new ≡ recent.old)
        (λ row. tree.Updates bytes_cmp recent.old recent.new key.now (Some (freed_recent commits xid.now row))) }
    ensures needed { MatchOption (tree.get bytes_cmp recent.old key.now) (result ≡ true)
        (λ row. result ≡ is_needed_over is_alone (freed_recent commits xid.now row)) }
{
    match recent.get_mut(key) {
        None => true,
        Some(row) => row::free(row, alloc, xid, commits, is_alone),
    }
}

/// Removes a row's record, if there is one.
fn take_out(recent: &mut BTreeMap<Key, RecentRow>, key: &Key)
    ensures { tree.Updates bytes_cmp recent.old recent.new key.now None }
{
    let _row = recent.remove(key);
}

/// Returns true only if both have the same records.
fn has_same_records(recent: &BTreeMap<Key, RecentRow>, others: &BTreeMap<Key, RecentRow>) -> bool
    ensures { result ≡ true → recent.now.entries ≡ others.now.entries }
{
    // Both are ascending, so each record is compared with the one at the same place.
    let mut rest = others.iter();
    for (key, row) in recent {
        match rest.next() {
            Some((other, record)) if key == other && row.is_same(record) => {}
            // Another one is there, or none: `others` has fewer records.
            _ => return false,
        }
    }
    // `others` may have more records.
    rest.next().is_none()
}

/// Copies the records.
fn copy_of_records(recent: &BTreeMap<Key, RecentRow>) -> Result<BTreeMap<Key, RecentRow>, NoMemory>
    ensures { IfOk result (λ copy. copy.entries ≡ recent.now.entries) }
{
    recent.clone()
}

/// Adds a copy of a row's record, over runs that have its value, if a branch holds the row.
fn add_held(held: &mut BTreeMap<Key, RecentRow>, key: &Key, row: &RecentRow) -> Result<(), NoMemory>
    ensures { OnOk result ((q : List ℕ) → tree.get bytes_cmp held.new q
        ≡ put_at (held_as_below row.now) key.now (tree.get bytes_cmp held.old q) q) }
{
    let Some(copy) = row.held()? else {
        return Ok(());
    };
    held.insert(key.copy(), copy)?;
    Ok(())
}

/// Copies the records of the rows that branches hold, over runs that have the values of these rows.
fn held_records(
    alloc: Global,
    recent: &BTreeMap<Key, RecentRow>,
) -> Result<BTreeMap<Key, RecentRow>, NoMemory>
    ensures held { IfOk result (λ copy. (key : List ℕ)
        → tree.get bytes_cmp copy key ≡ option_and_then held_as_below (tree.get bytes_cmp recent.now key)) }
    ensures ordered { tree.IsOrdered bytes_cmp recent.now }
{
    let mut held = BTreeMap::new(alloc);
    for (key, row) in recent {
        add_held(&mut held, key, row)?;
    }
    Ok(held)
}

/// Lists what the records make of the values below them, ascending by key. Records that leave these as they are aren't
/// in the list.
fn changes_in(
    alloc: Global,
    recent: &BTreeMap<Key, RecentRow>,
) -> Result<Vec<(Key, Option<SharedText>)>, NoMemory>
    ensures listed { IfOk result (λ changes. changes.items
        ≡ gathered (λ row. change_of row.value) recent.now.entries) }
    ensures ordered { tree.IsOrdered bytes_cmp recent.now }
{
    let mut changes = Vec::new(alloc);
    for (key, row) in recent {
        if let Some(change) = row.value.change()? {
            changes.push((key.copy(), change))?;
        }
    }
    Ok(changes)
}

impl RowTable {
    /// Makes a table without rows.
    pub fn new(alloc: Global) -> RowTable
        ensures { result ≡ map.empty }
    {
        RowTable {
            recent: BTreeMap::new(alloc),
            runs: Runs::new(alloc),
            alloc,
        }
    }

    /// Returns the allocator.
    pub fn alloc(&self) -> Global {
        self.alloc
    }

    /// Returns true only if both have the same rows.
    pub fn is_same(&self, other: &RowTable) -> bool
        ensures { result ≡ true → self.now ≡ other.now }
    {
        has_same_records(&self.recent, &other.recent) && self.runs.is_same(&other.runs)
    }

    /// Copies the rows. If many have records, the copy has the values of these in a run, which its own copies share.
    pub fn copy(&self) -> Result<RowTable, NoMemory>
        ensures { IfOk result (λ copy. copy ≡ self.now) }
    {
        if self.recent.len() <= MOST_RECENT {
            return self.same_layers();
        }
        let changes = changes_in(self.alloc, &self.recent)?;
        // Records that only say who holds a row stay as they are.
        if changes.is_empty() {
            return self.same_layers();
        }
        Ok(RowTable {
            recent: held_records(self.alloc, &self.recent)?,
            runs: self.runs.with(changes)?,
            alloc: self.alloc,
        })
    }

    /// Copies the rows: the records and the runs as they are.
    fn same_layers(&self) -> Result<RowTable, NoMemory>
        ensures { IfOk result (λ copy. copy ≡ self.now) }
    {
        Ok(RowTable {
            recent: copy_of_records(&self.recent)?,
            runs: self.runs.share()?,
            alloc: self.alloc,
        })
    }

    /// Returns the value of a row that all sessions see; None if it has none.
    pub fn committed(&self, key: &Key) -> Option<Bytes>
        ensures { result ≡ committed_of (map.get self.now key.now) }
    {
        match row::changed_value(self.recent.get(key)) {
            Some(value) => value,
            // No record says otherwise.
            None => self.runs.get(key),
        }
    }

    /// Returns the value of a row that this branch sees: by its own newest write of the row, and else the committed
    /// one. None if the row has no value for the branch.
    pub fn value_within(&self, own: &Xid, key: &Key) -> Option<Bytes>
        ensures { result ≡ value_seen own.now (map.get self.now key.now) }
    {
        match row::written_by(own, self.recent.get(key)) {
            Some(write) => write,
            None => self.committed(key),
        }
    }

    /// Returns whether a branch holds the row, in share or exclusively, that isn't the one that the session has open,
    /// its `association`.
    pub fn is_held_against(&self, association: &Association, key: &Key) -> bool
        ensures { result ≡ held_against association.now (map.get self.now key.now) }
    {
        row::is_held_against(association, self.recent.get(key))
    }

    /// Returns whether a branch holds the row exclusively that isn't the one that the session has open, its
    /// `association`.
    pub fn is_locked_against(&self, association: &Association, key: &Key) -> bool
        ensures { result ≡ locked_against association.now (map.get self.now key.now) }
    {
        row::is_locked_against(association, self.recent.get(key))
    }

    /// Returns whether this branch holds the row, in share or exclusively.
    pub fn is_held_by(&self, own: &Xid, key: &Key) -> bool
        ensures { result ≡ is_some (option_and_then (lock_by own.now) (map.get self.now key.now)) }
    {
        row::is_held_by(own, self.recent.get(key))
    }

    /// Lists the rows that this branch holds, ascending by key.
    pub fn held_by(&self, alloc: Global, xid: &Xid) -> Result<Vec<HeldRow>, NoMemory>
        ensures listed { IfOk result (λ rows. rows.items ≡ held_among xid.now (map.entries self.now)) }
        ensures memory { OnErr result (held_among xid.now (map.entries self.now) ≢ []) }
    {
        held_in(alloc, &self.recent, xid)
    }

    /// Makes the branch `holder` hold a row exclusively, with this change, whatever lock the row had. After `NoMemory`
    /// the rows are unchanged.
    pub fn hold(&mut self, key: &Key, holder: SharedXid, change: Change) -> Result<(), NoMemory>
        ensures ok { OnOk result (self.new ≡ map.insert self.old key.now
            (held_row holder change (map.get self.old key.now))) }
        ensures err { OnErr result (self.new ≡ self.old) }
    {
        let lock = Lock::Exclusive { holder, change };
        // A record takes the lock. If the row has none, the lock comes back, for a new record.
        let Some(lock) = set_lock(&mut self.recent, key, lock) else {
            return Ok(());
        };
        // The row's value, if it has one, is in the runs.
        let row = RecentRow {
            value: RecentValue::AsBelow,
            lock,
        };
        self.recent.insert(key.copy(), row)?;
        Ok(())
    }

    /// Makes a branch share a row that no branch holds exclusively. After `NoMemory` the rows are
    /// unchanged.
    pub fn share(&mut self, key: &Key, xid: &SharedXid) -> Result<(), NoMemory>
        ensures ok { OnOk result (self.new ≡ map.insert self.old key.now
            (shared_row xid.now (map.get self.old key.now))) }
        ensures err { OnErr result (self.new ≡ self.old) }
    {
        // If the row has a record, that one takes the sharer, and no new one is needed.
        if share_in(&mut self.recent, key, xid)? {
            return Ok(());
        }
        // The row has no record, so nobody holds it. Its value, if it has one, is in the runs.
        let mut lock = Lock::nobodys(self.alloc);
        lock.share(xid)?;
        let row = RecentRow {
            value: RecentValue::AsBelow,
            lock,
        };
        self.recent.insert(key.copy(), row)?;
        Ok(())
    }

    /// Gives a value to a row that no branch holds: its record says so, and names no holder. After
    /// `NoMemory` the rows are unchanged.
    pub fn put(&mut self, key: &Key, value: &Bytes) -> Result<(), NoMemory>
        ensures ok { OnOk result (self.new ≡ map.insert self.old key.now
            (record { committed = Some value.now; lock = Lock.Shared set.empty })) }
        ensures err { OnErr result (self.new ≡ self.old) }
    {
        let row = RecentRow {
            value: RecentValue::Value(SharedText::of(self.alloc, value)?),
            lock: Lock::nobodys(self.alloc),
        };
        self.recent.insert(key.copy(), row)?;
        Ok(())
    }

    /// Removes the value of a row that no branch holds. After `NoMemory` the rows are unchanged.
    pub fn delete(&mut self, key: &Key) -> Result<(), NoMemory>
        ensures ok { OnOk result (self.new ≡ map.remove self.old key.now) }
        ensures err { OnErr result (self.new ≡ self.old) }
    {
        // Without runs a row that has no value and no holder needs no record.
        if self.runs.is_empty() {
            take_out(&mut self.recent, key);
            return Ok(());
        }
        let row = RecentRow {
            value: RecentValue::Gone,
            lock: Lock::nobodys(self.alloc),
        };
        self.recent.insert(key.copy(), row)?;
        Ok(())
    }

    /// Ends the branch's hold of a row, if the branch holds it. If the branch `commits`, and held the row exclusively,
    /// its change becomes the row's value.
    pub fn free(&mut self, key: &Key, xid: &Xid, commits: bool)
        ensures { Frees commits xid.now (key.now ∷ []) self.old self.new }
    {
        let is_alone = self.runs.is_empty();
        // A record that says no more than none would isn't kept.
        if !free_in(&mut self.recent, self.alloc, key, xid, commits, is_alone) {
            take_out(&mut self.recent, key);
        }
    }

    /// Ends the branch's hold of the rows of these keys. If the branch `commits`, its changes become the values of the
    /// rows that it held exclusively.
    pub fn free_all(&mut self, mut keys: Keys, xid: &Xid, commits: bool)
        ensures { Frees commits xid.now keys self.old self.new }
    {
        // From the last key to the first: each row is freed on its own, so the order doesn't matter.
        while let Some(key) = keys.pop() {
            self.free(&key, xid, commits);
        }
    }
}
