//! The values below the recent rows, in parts.
ghost use Rattle.std.specs.FinMap as map;
ghost use Rattle.std.specs.Prelude.{◌≡◌, ◌<◌, ℕ, true, [], List, replicate, fold, IfOk, map as each};
ghost use Rattle.std.specs.{Option.unwrap_or, FinMap.is_sorted};
ghost use Rattle.xa_xid.specs.Xid.{bytes_cmp};
ghost use Rattle.xa_server.specs.{Step.with_writes, Parts.{with_byte, part_of, sorted_out, parted, first_part}};
ghost use Rattle.xa_server.specs.Parts.{other_parts, all_rewritten, AllAscend};

use crate::part::Part;
use crate::run::Run;
use crate::shared_text::SharedText;
use std::alloc::Global;
use std::marker::Model;
use std::sync::Arc;
use xa_xid::{Bytes, Key, NoMemory};

/// In how many parts the values are kept.
const PARTS: usize = 64;

/// By how much the growth of a part (`Part::with`) is more than that of the part before, so that the parts' largest
/// merges don't all come in the same copy.
const STEP: u64 = 4;

/// The values of rows, where no record says otherwise. They are in parts by a number made of the key, so that a merge
/// goes over one part at a time. Copies share them. A contract sees the values by key.
#[derive(Drop)]
pub struct Runs {
    /// The parts, in the order of their numbers; none, if there is no value.
    parts: Option<Arc<Vec<Part>>>,
    /// Where memory for runs is taken from.
    alloc: Global,
}

impl Model for Runs {
    ghost use Rattle.std.specs.FinMap as map;
    ghost use Rattle.xa_xid.specs.Xid.{Text, bytes_cmp, coded_text};
    ghost use Rattle.xa_server.specs.{Coding.coded_key, Parts.parted};
    ghost use Rattle.std.specs.{Prelude.[], Option.option_map_or};

    ghost Value = { map.FinMap bytes_cmp Text };

    ghost coded = { map.code coded_key coded_text };

    ghost view = { λ runs. parted (option_map_or (λ list. list.value.items) runs.parts []) };
}

/// Returns the number after one more byte.
#[tactic(auto, unfolding(crate::specs::Parts::with_byte))]
fn with_byte(number: u32, byte: u8) -> u32
    ensures { result ≡ with_byte number byte }
{
    number.wrapping_mul(2_654_435_769).wrapping_add(byte as u32)
}

/// Returns a number made of bytes, one after another.
fn number_of(bytes: &[u8]) -> u32
    ensures { result ≡ fold with_byte 0 bytes.now }
{
    let mut number = 0;
    for byte in bytes {
        number = with_byte(number, *byte);
    }
    number
}

/// Returns the number of a key's part, below `PARTS`.
#[tactic(auto, unfolding(crate::specs::Parts::part_of))]
fn part_of(key: &Key) -> usize
    ensures which { result ≡ part_of key.now }
    ensures below { result < 64 }
{
    (number_of(key.as_slice()) / 65_536 % 64) as usize
}

/// Makes an empty list for each part.
fn empty_lists(alloc: Global) -> Result<Vec<Vec<(Key, Option<SharedText>)>>, NoMemory>
    ensures { IfOk result (λ lists. each (λ list. list.items) lists.items ≡ replicate 64 []) }
{
    let mut lists = Vec::new(alloc);
    for _ in 0..PARTS {
        lists.push(Vec::new(alloc))?;
    }
    Ok(lists)
}

/// Sorts rows out by their parts, each part's in the order of the rows.
fn sorted_out(
    alloc: Global,
    rows: Vec<(Key, Option<SharedText>)>,
) -> Result<Vec<Vec<(Key, Option<SharedText>)>>, NoMemory>
    ensures { IfOk result (λ lists. each (λ list. list.items) lists.items ≡ sorted_out 64 0 rows.items) }
{
    let mut lists = empty_lists(alloc)?;
    for row in rows {
        // There is a list for each part.
        if let Some(list) = lists.get_mut(part_of(&row.0)) {
            list.push(row)?;
        }
    }
    Ok(lists)
}

/// Returns a part after writes to its rows, which ascend by key.
fn rewritten(
    alloc: Global,
    part: &Part,
    rows: Vec<(Key, Option<SharedText>)>,
    growth: u64,
) -> Result<Part, NoMemory>
    requires { is_sorted bytes_cmp rows.items ≡ true }
    ensures { IfOk result (λ made. made ≡ with_writes rows.items part.now) }
{
    if rows.is_empty() {
        return part.share();
    }
    part.with(Run::of(alloc, rows)?, growth)
}

/// Returns the first of some parts after writes to its rows, which ascend by key. If there is none, it has no rows yet.
fn first_rewritten(
    alloc: Global,
    parts: &[Part],
    rows: Vec<(Key, Option<SharedText>)>,
    growth: u64,
) -> Result<Part, NoMemory>
    requires { is_sorted bytes_cmp rows.items ≡ true }
    ensures { IfOk result (λ made. made ≡ with_writes rows.items (first_part parts.now)) }
{
    match parts.split_first() {
        None => rewritten(alloc, &Part::new(alloc), rows, growth),
        Some((part, _)) => rewritten(alloc, part, rows, growth),
    }
}

/// Returns the parts after the first.
fn other_parts(parts: &[Part]) -> &[Part]
    ensures { result.now ≡ other_parts parts.now }
{
    match parts.split_first() {
        None => parts,
        Some((_, others)) => others,
    }
}

/// Returns the parts after writes to the rows of each, which ascend by key.
fn all_rewritten(
    alloc: Global,
    parts: &[Part],
    lists: Vec<Vec<(Key, Option<SharedText>)>>,
) -> Result<Vec<Part>, NoMemory>
    requires { AllAscend (each (λ list. list.items) lists.items) }
    ensures { IfOk result (λ made. made.items ≡ all_rewritten (each (λ list. list.items) lists.items) parts.now) }
{
    let mut made = Vec::with_capacity(alloc, lists.len())?;
    let mut left = parts;
    let mut growth = 128;
    for rows in lists {
        made.push(first_rewritten(alloc, left, rows, growth)?)?;
        left = other_parts(left);
        growth = growth.saturating_add(STEP);
    }
    Ok(made)
}

/// Returns true only if both lists have the same parts.
fn has_same_parts(parts: &[Part], others: &[Part]) -> bool
    ensures { result ≡ true → parts.now ≡ others.now }
{
    let mut left = parts;
    let mut rest = others;
    while let Some((part, later)) = left.split_first() {
        match rest.split_first() {
            Some((other, last)) if part.is_same(other) => {
                left = later;
                rest = last;
            }
            _ => return false,
        }
    }
    rest.is_empty()
}

impl Runs {
    /// Makes runs without rows.
    pub fn new(alloc: Global) -> Runs
        ensures { result ≡ map.empty }
    {
        Runs { parts: None, alloc }
    }

    /// Returns whether there is no run.
    pub fn is_empty(&self) -> bool
        ensures { result ≡ true → self.now ≡ map.empty }
    {
        self.parts.is_none()
    }

    /// The parts, in the order of their numbers.
    fn parts(&self) -> &[Part]
        ensures { parted result.now ≡ self.now }
    {
        match &self.parts {
            None => &[],
            Some(parts) => parts.as_slice(),
        }
    }

    /// Returns true only if both have the same runs.
    pub fn is_same(&self, other: &Runs) -> bool
        ensures { result ≡ true → self.now ≡ other.now }
    {
        has_same_parts(self.parts(), other.parts())
    }

    /// Returns the value of a row; None if it has none.
    pub fn get(&self, key: &Key) -> Option<Bytes>
        ensures { result ≡ map.get self.now key.now }
    {
        match self.parts().get(part_of(key)) {
            None => None,
            Some(part) => part.get(key),
        }
    }

    /// Adds an owner to the runs.
    pub fn share(&self) -> Result<Runs, NoMemory>
        ensures { IfOk result (λ runs. runs ≡ self.now) }
    {
        let parts = match &self.parts {
            None => None,
            Some(parts) => Some(Arc::try_clone(parts)?),
        };
        Ok(Runs {
            parts,
            alloc: self.alloc,
        })
    }

    /// Shares the runs, with writes to rows over them, which ascend by key. Of each part, runs may be merged
    /// (`Part::with`).
    pub fn with(&self, rows: Vec<(Key, Option<SharedText>)>) -> Result<Runs, NoMemory>
        requires { is_sorted bytes_cmp rows.items ≡ true }
        ensures { IfOk result (λ runs. (key : List ℕ) → map.get runs key
            ≡ unwrap_or (map.find bytes_cmp key rows.items) (map.get self.now key)) }
    {
        let lists = sorted_out(self.alloc, rows)?;
        let parts = all_rewritten(self.alloc, self.parts(), lists)?;
        Ok(Runs {
            parts: Some(Arc::new(self.alloc, parts)?),
            alloc: self.alloc,
        })
    }
}
