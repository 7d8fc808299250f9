//! The runs of one part of the rows.
ghost use Rattle.std.specs.FinMap as map;
ghost use Rattle.std.specs.{Prelude.{◌≡◌, ℕ, true, List, ◌∷◌, IfOk}, Option.unwrap_or};

use crate::run::Run;
use std::alloc::Global;
use std::marker::Model;
use xa_xid::{Bytes, Key, NoMemory};

/// The values of one part of the rows, in runs, which never change: what a run has of a row hides what older ones have.
/// A contract sees the values by key.
#[derive(Drop)]
pub struct Part {
    /// The runs, the newest first, the larger ones last (`with`).
    list: Vec<Run>,
    /// Where memory for runs is taken from.
    alloc: Global,
}

impl Model for Part {
    ghost use Rattle.std.specs.FinMap as map;
    ghost use Rattle.xa_xid.specs.Xid.{Text, bytes_cmp, coded_text};
    ghost use Rattle.xa_server.specs.{Coding.coded_key, Layers.under};

    ghost Value = { map.FinMap bytes_cmp Text };

    ghost coded = { map.code coded_key coded_text };

    ghost view = { λ part. under part.list.items };
}

/// Makes a list of a run and older ones, which are shared.
fn in_front(alloc: Global, run: Run, older: &[Run]) -> Result<Vec<Run>, NoMemory>
    ensures { IfOk result (λ list. list.items ≡ run ∷ older.now) }
{
    let mut list = Vec::new(alloc);
    list.push(run)?;
    for shared in older {
        list.push(shared.clone()?)?;
    }
    Ok(list)
}

/// Returns true only if both lists have the same runs.
fn has_same_runs(list: &[Run], others: &[Run]) -> bool
    ensures { result ≡ true → list.now ≡ others.now }
{
    let mut left = list;
    let mut rest = others;
    while let Some((run, older)) = left.split_first() {
        match rest.split_first() {
            Some((other, oldest)) if run.is_same(other) => {
                left = older;
                rest = oldest;
            }
            _ => return false,
        }
    }
    rest.is_empty()
}

impl Part {
    /// Makes a list without runs.
    pub fn new(alloc: Global) -> Part
        ensures { result ≡ map.empty }
    {
        Part {
            list: Vec::new(alloc),
            alloc,
        }
    }

    /// Returns true only if both have the same runs.
    pub fn is_same(&self, other: &Part) -> bool
        ensures { result ≡ true → self.now ≡ other.now }
    {
        has_same_runs(self.list.as_slice(), other.list.as_slice())
    }

    /// Returns the value of a row; None if it has none.
    pub fn get(&self, key: &Key) -> Option<Bytes>
        ensures { result ≡ map.get self.now key.now }
    {
        let mut left = self.list.as_slice();
        while let Some((run, older)) = left.split_first() {
            // What the first run that has the row says of it counts.
            if let Some(write) = run.find(key) {
                return write;
            }
            left = older;
        }
        None
    }

    /// Adds an owner to each run.
    pub fn share(&self) -> Result<Part, NoMemory>
        ensures { IfOk result (λ part. part ≡ self.now) }
    {
        Ok(Part {
            list: self.list.clone()?,
            alloc: self.alloc,
        })
    }

    /// Shares the runs, with a newer one over them. While the next run has less than `growth` / 64 times as many rows,
    /// the two are merged. So there are few runs, and a row is seldom written again.
    pub fn with(&self, run: Run, growth: u64) -> Result<Part, NoMemory>
        ensures { IfOk result (λ part. (key : List ℕ) → map.get part key
            ≡ unwrap_or (map.get run key) (map.get self.now key)) }
    {
        let mut run = run;
        let mut left = self.list.as_slice();
        while let Some((next, older)) = left.split_first() {
            if (next.len() as u64).saturating_mul(64) >= (run.len() as u64).saturating_mul(growth) {
                break;
            }
            run = run.over(self.alloc, next, older.is_empty())?;
            left = older;
        }
        Ok(Part {
            list: in_front(self.alloc, run, left)?,
            alloc: self.alloc,
        })
    }
}
