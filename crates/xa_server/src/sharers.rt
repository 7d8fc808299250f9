//! The branches that share a row.
ghost use Rattle.std.specs.FinSet as set;
ghost use Rattle.std.specs.{Prelude.{◌≡◌, true, IfOk, OnOk, OnErr, MatchOption}, List.list_any, Option.option_map_or};
ghost use Rattle.xa_server.specs.{Locks.is_another as is_another_of, Sharers.set_of};

use crate::association::{Association, is_same};
use crate::several_sharers::SeveralSharers;
use crate::shared_xid::SharedXid;
use std::alloc::Global;
use std::marker::Model;
use xa_xid::{NoMemory, Xid};

/// The branches that share a row.
///
/// Finding, adding and removing one takes logarithmic time. Removing takes no memory. Neither does adding
/// the first: its identifier is the one that its session has open.
#[derive(Drop)]
pub struct Sharers {
    /// The branches.
    branches: Branches,
    /// Where memory for several branches is taken from.
    alloc: Global,
}

/// The branches, by how many there are.
#[derive(Drop)]
enum Branches {
    /// No branch.
    Nobody,
    /// One branch.
    One(SharedXid),
    /// Several branches, at a place of their own in memory.
    Several(Box<SeveralSharers>),
}

impl Model for Sharers {
    ghost use Rattle.std.specs.FinSet as set;
    ghost use Rattle.xa_xid.specs.Xid.{xid_cmp, coded_xid};

    ghost Value = { set.FinSet xid_cmp };

    ghost coded = { set.code coded_xid };

    ghost use Rattle.xa_server.specs.Sharers.{set_of};

    ghost view = { λ sharers. set_of sharers.branches };
}

/// Copies the branches.
fn copy_of_branches(alloc: Global, branches: &Branches) -> Result<Branches, NoMemory>
    ensures { IfOk result (λ copy. set_of copy ≡ set_of branches.now) }
{
    match branches {
        Branches::Nobody => Ok(Branches::Nobody),
        Branches::One(own) => Ok(Branches::One(own.try_clone()?)),
        Branches::Several(several) => Ok(Branches::Several(Box::new(alloc, several.copy()?)?)),
    }
}

/// Makes a set of two branches.
fn both(alloc: Global, one: &SharedXid, other: &SharedXid) -> Result<Branches, NoMemory>
    ensures { IfOk result (λ both. set_of both ≡ set.insert (set.insert set.empty one.now) other.now) }
{
    let mut several = SeveralSharers::new(alloc);
    several.add(one)?;
    several.add(other)?;
    Ok(Branches::Several(Box::new(alloc, several)?))
}

/// Returns what takes the place of `several` after a removal: nobody if it is empty, or its only branch, which is taken
/// out, if that is in the list. `None` if more are left, or the only one is in the set: then `several` stays.
fn left_of(several: &mut SeveralSharers) -> Option<Branches>
    ensures { MatchOption result (several.new ≡ several.old) (λ left. set_of left ≡ several.old) }
{
    if several.is_empty() {
        return Some(Branches::Nobody);
    }
    match several.take_only() {
        None => None,
        Some(only) => Some(Branches::One(only)),
    }
}

/// Removes a branch from the sharers, if it is one of them. Returns the sharers that are to take their place;
/// `None` if those that are left stay where they are.
fn leave(branches: &mut Branches, xid: &Xid) -> Option<Branches>
    ensures { option_map_or set_of result (set_of branches.new) ≡ set.remove (set_of branches.old) xid.now }
{
    match branches {
        Branches::Nobody => None,
        Branches::One(own) => {
            if is_same(own.xid(), xid) {
                Some(Branches::Nobody)
            } else {
                None
            }
        }
        Branches::Several(several) => {
            several.remove(xid);
            left_of(several)
        }
    }
}

impl Sharers {
    /// Makes an empty set.
    pub fn new(alloc: Global) -> Sharers
        ensures { result ≡ set.empty }
    {
        Sharers {
            branches: Branches::Nobody,
            alloc,
        }
    }

    /// Returns true only if both are the same set, in whatever order the branches were added.
    pub fn is_same(&self, other: &Sharers) -> bool
        ensures { result ≡ true → self.now ≡ other.now }
    {
        self.has_all_of(other) && other.has_all_of(self)
    }

    /// Returns true only if each branch of `other` is one of this set.
    fn has_all_of(&self, other: &Sharers) -> bool
        ensures { result ≡ true → set.is_subset other.now self.now ≡ true }
    {
        match &other.branches {
            Branches::Nobody => true,
            Branches::One(own) => self.contains(own.xid()),
            Branches::Several(several) => several.is_within(self),
        }
    }

    /// Copies the set.
    pub fn copy(&self) -> Result<Sharers, NoMemory>
        ensures { IfOk result (λ copy. copy ≡ self.now) }
    {
        Ok(Sharers {
            branches: copy_of_branches(self.alloc, &self.branches)?,
            alloc: self.alloc,
        })
    }

    /// Returns whether the branch is one of the sharers.
    pub fn contains(&self, xid: &Xid) -> bool
        ensures { result ≡ set.contains self.now xid.now }
    {
        match &self.branches {
            Branches::Nobody => false,
            Branches::One(own) => is_same(xid, own.xid()),
            Branches::Several(several) => several.contains(xid),
        }
    }

    /// Returns whether a branch that isn't the session's own is one of the sharers. Tests two of them at most, since at
    /// most one is the session's own.
    pub fn has_another(&self, association: &Association) -> bool
        ensures { result ≡ list_any (is_another_of association.now) (set.items self.now) }
    {
        match &self.branches {
            Branches::Nobody => false,
            Branches::One(own) => association.is_another(own.xid()),
            Branches::Several(several) => several.has_another(association),
        }
    }

    /// Adds a branch. After `NoMemory` the set is unchanged.
    pub fn add(&mut self, xid: &SharedXid) -> Result<(), NoMemory>
        ensures ok { OnOk result (self.new ≡ set.insert self.old xid.now) }
        ensures err { OnErr result (self.new ≡ self.old) }
    {
        match &mut self.branches {
            Branches::Nobody => {
                self.branches = Branches::One(xid.try_clone()?);
                Ok(())
            }
            // A second branch: from now on both are in a place of their own in memory.
            Branches::One(own) => {
                self.branches = both(self.alloc, own, xid)?;
                Ok(())
            }
            Branches::Several(several) => several.add(xid),
        }
    }

    /// Removes a branch, if it is one of the sharers.
    pub fn remove(&mut self, xid: &Xid)
        ensures { self.new ≡ set.remove self.old xid.now }
    {
        if let Some(left) = leave(&mut self.branches, xid) {
            self.branches = left;
        }
    }
}
