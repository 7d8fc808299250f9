//! Rows that never change, in the order of their keys.
ghost use Rattle.std.specs.FinMap as map;
ghost use Rattle.std.specs.{Prelude.{◌≡◌, ℕ, true, List, ◌++◌, IfOk, OnOk, take, drop}, FinMap.is_sorted};
ghost use Rattle.xa_xid.specs.Xid.{bytes_cmp};
ghost use Rattle.xa_server.specs.{Layers.{merged_at, kept_write, gathered}, Merging.{merged, least_of}};

use crate::packed::{Packed, Row, Rows, copy_of_value};
use crate::shared_text::SharedText;
use std::alloc::{AllocError, Global};
use std::cmp::Ordering;
use std::marker::Model;
use std::sync::Arc;
use xa_xid::{Bytes, Key, NoMemory};

/// Rows that never change: for each key a value, or that the row was deleted. Copies share them.
///
/// A row is found in logarithmic time.
#[derive(Drop)]
pub struct Run {
    /// The rows, ascending by key. A row without a value was deleted.
    rows: Arc<Packed>,
}

impl Model for Run {
    ghost use Rattle.std.specs.FinMap as map;
    ghost use Rattle.std.specs.{Prelude.{◌≡◌, true}, Coded.coded_option, FinMap.is_sorted};
    ghost use Rattle.xa_xid.specs.Xid.{bytes_cmp, coded_text};
    ghost use Rattle.xa_server.specs.{Coding.coded_key, State.Write};

    ghost Value = { map.FinMap bytes_cmp Write };

    ghost coded = { map.code coded_key (coded_option coded_text) };

    ghost view = { λ run. map.from_sorted {R = bytes_cmp} run.rows.value };

    ghost invariant = { λ run. is_sorted bytes_cmp run.rows.value ≡ true };
}

/// Returns true only if both lists have the same rows.
fn has_same_rows(rows: Rows<'_>, others: Rows<'_>) -> bool
    ensures { result ≡ true → rows.entry ≡ others.entry }
{
    let mut left = rows;
    let mut rest = others;
    while let Some((row, later)) = left.split_first() {
        match rest.split_first() {
            Some((other, last)) if row.is_same(other) => {
                left = later;
                rest = last;
            }
            _ => return false,
        }
    }
    rest.is_empty()
}

/// Finds a row by its key among rows that ascend by key: its value, or that it was deleted. `None` if it isn't there.
fn find_in(rows: Rows<'_>, key: &Key) -> Option<Option<Bytes>>
    requires { is_sorted bytes_cmp rows ≡ true }
    ensures { result ≡ map.find bytes_cmp key.now rows.entry }
{
    let mut left = rows;
    while !left.is_empty() {
        let half = left.len() / 2;
        let (front, back) = left.split_at(half);
        // Half of some rows, rounded down, leaves at least one.
        let Some((row, rest)) = back.split_first() else {
            return None;
        };
        match key.as_slice().cmp(row.key) {
            Ordering::Less => left = front,
            Ordering::Equal => return Some(copy_of_value(row.value)),
            Ordering::Greater => left = rest,
        }
    }
    None
}

/// Returns which of two lists of rows has the row with the least key: the first (`Less`), the second (`Greater`), or
/// both. An empty list hasn't.
fn least(newer: &Rows<'_>, older: &Rows<'_>) -> Ordering
    ensures { result ≡ least_of bytes_cmp newer.now older.now }
{
    let Some(row) = newer.first() else {
        return Ordering::Greater;
    };
    match older.first() {
        None => Ordering::Less,
        Some(other) => row.key.cmp(other.key),
    }
}

/// Adds the first row of `from` to a list, unless `is_last` and the row was deleted, and returns the others of `from`.
/// An empty `from` adds nothing.
fn push_first<'a>(rows: &mut Packed, from: Rows<'a>, is_last: bool) -> Result<Rows<'a>, NoMemory>
    ensures pushed { OnOk result (rows.new ≡ rows.old ++ gathered (kept_write is_last) (take 1 from.entry)) }
    ensures rest { IfOk result (λ rest. rest ≡ drop 1 from.entry) }
{
    let Some(row) = from.first() else {
        return Ok(from);
    };
    // In the last run a deletion hides nothing.
    if row.value.is_some() || !is_last {
        rows.push(row)?;
    }
    Ok(skip_first(from))
}

/// Returns the rows after the first.
fn skip_first(rows: Rows<'_>) -> Rows<'_>
    ensures { result ≡ drop 1 rows.entry }
{
    if rows.is_empty() {
        return rows;
    }
    rows.split_at(1).1
}

/// Merges two lists of rows, each ascending by key. For a row that both have, the one of `newer` counts. If the result
/// `is_last`, rows that were deleted aren't kept.
fn merge(alloc: Global, newer: Rows<'_>, older: Rows<'_>, is_last: bool) -> Result<Packed, NoMemory>
    ensures { IfOk result (λ rows. rows ≡ gathered (kept_write is_last) (merged bytes_cmp newer.entry older.entry)) }
{
    let mut rows = Packed::new(alloc);
    let mut newer = newer;
    let mut older = older;
    while !newer.is_empty() || !older.is_empty() {
        match least(&newer, &older) {
            Ordering::Less => newer = push_first(&mut rows, newer, is_last)?,
            Ordering::Equal => {
                newer = push_first(&mut rows, newer, is_last)?;
                older = skip_first(older);
            }
            Ordering::Greater => older = push_first(&mut rows, older, is_last)?,
        }
    }
    Ok(rows)
}

/// Packs rows.
fn packed(alloc: Global, list: Vec<(Key, Option<SharedText>)>) -> Result<Packed, NoMemory>
    ensures { IfOk result (λ rows. rows ≡ list.items) }
{
    let mut rows = Packed::new(alloc);
    for (key, value) in &list {
        let row = Row {
            key: key.as_slice(),
            value: match value {
                None => None,
                Some(text) => Some(text.text().as_slice()),
            },
        };
        rows.push(row)?;
    }
    Ok(rows)
}

impl Clone for Run {
    ghost is_clone = { λ run copy. copy ≡ run };

    // Takes no memory, but returns an error if there are too many owners to be counted.
    fn clone(&self) -> Result<Run, AllocError> {
        Ok(Run {
            rows: Arc::try_clone(&self.rows)?,
        })
    }
}

impl Run {
    /// Makes a run of rows, which ascend by key.
    fn of_packed(alloc: Global, rows: Packed) -> Result<Run, NoMemory>
        requires { is_sorted bytes_cmp rows ≡ true }
        ensures { IfOk result (λ run. run ≡ map.from_sorted {R = bytes_cmp} rows) }
    {
        Ok(Run {
            rows: Arc::new(alloc, rows)?,
        })
    }

    /// Makes a run of these rows, which ascend by key.
    pub fn of(alloc: Global, rows: Vec<(Key, Option<SharedText>)>) -> Result<Run, NoMemory>
        requires { is_sorted bytes_cmp rows.items ≡ true }
        ensures { IfOk result (λ run. run ≡ map.from_sorted {R = bytes_cmp} rows.items) }
    {
        Run::of_packed(alloc, packed(alloc, rows)?)
    }

    /// Returns how many rows it has, those that were deleted among them.
    pub fn len(&self) -> usize {
        self.rows.rows().len()
    }

    /// Returns the rows, ascending by key.
    fn rows(&self) -> Rows<'_>
        ensures seen { map.from_sorted {R = bytes_cmp} result ≡ self.now }
        ensures ordered { is_sorted bytes_cmp result ≡ true }
    {
        self.rows.rows()
    }

    /// Returns true only if both have the same rows.
    pub fn is_same(&self, other: &Run) -> bool
        ensures { result ≡ true → self.now ≡ other.now }
    {
        has_same_rows(self.rows(), other.rows())
    }

    /// Finds a row: its value, or that it was deleted. `None` if the run hasn't the row.
    pub fn find(&self, key: &Key) -> Option<Option<Bytes>>
        ensures { result ≡ map.get self.now key.now }
    {
        find_in(self.rows(), key)
    }

    /// Merges this run with an older one. For a row that both have, this one's counts. If the result is the last run,
    /// rows that were deleted aren't kept.
    pub fn over(&self, alloc: Global, older: &Run, is_last: bool) -> Result<Run, NoMemory>
        ensures { IfOk result (λ run. (key : List ℕ) → map.get run key
            ≡ merged_at is_last (map.get self.now key) (map.get older.now key)) }
    {
        Run::of_packed(alloc, merge(alloc, self.rows(), older.rows(), is_last)?)
    }
}
