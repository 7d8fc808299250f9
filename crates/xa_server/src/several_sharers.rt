//! Several branches that share a row.
ghost use Rattle.std.specs.FinSet as set;
ghost use Rattle.std.specs.Prelude.{◌≡◌, ◌↔◌, IsTrue, true, false, not, filter, IfOk, OnOk, OnErr, MatchOption};
ghost use Rattle.std.specs.{BTreeSet.{keys, Updates}, List.{list_all, list_any}};
ghost use Rattle.xa_xid.specs.Xid.{same_xid, xid_cmp};
ghost use Rattle.xa_server.specs.Locks.{is_another as is_another_of};

use crate::association::{Association, is_same};
use crate::shared_xid::SharedXid;
use crate::sharers::Sharers;
use std::alloc::Global;
use std::collections::BTreeSet;
use std::marker::Model;
use xa_xid::{NoMemory, Xid};

/// How many branches the list of a row has room for: few, since a look-up passes all of them. Eight take 64 bytes.
const FEW: usize = 8;

/// Several branches that share a row.
///
/// The first few take eight bytes each: a branch's session and the rows that it shares own the identifier
/// together.
#[derive(Drop)]
pub struct SeveralSharers {
    /// Those that were added while the list had room.
    few: Vec<SharedXid>,
    /// Those that were added while it was full. A tree's first node has room for fifteen identifiers.
    many: BTreeSet<Xid>,
}

impl Model for SeveralSharers {
    ghost use Rattle.std.specs.FinSet as set;
    ghost use Rattle.std.specs.Prelude.{◌++◌};
    ghost use Rattle.xa_xid.specs.Xid.{xid_cmp, coded_xid};

    ghost Value = { set.FinSet xid_cmp };

    ghost coded = { set.code coded_xid };

    ghost view = { λ sharers. set.from_list {R = xid_cmp} (sharers.few.items ++ sharers.many.keys) };
}

/// Returns whether the branch is in the list.
fn is_in_list(few: &[SharedXid], xid: &Xid) -> bool
    ensures { result ≡ list_any (same_xid xid.now) few.now }
{
    few.iter().any(|own| is_same(xid, own.xid()))
}

/// Returns whether a branch is in the list that isn't the session's own, its `association`. For a free session that is
/// any branch.
fn has_another_in_list(few: &[SharedXid], association: &Association) -> bool
    ensures { result ≡ list_any (is_another_of association.now) few.now }
{
    few.iter().any(|own| association.is_another(own.xid()))
}

/// Returns whether a branch is in the set that isn't the session's own, its `association`. For a free session that is
/// any branch.
fn has_another_in(many: &BTreeSet<Xid>, association: &Association) -> bool
    ensures { result ≡ list_any (is_another_of association.now) (keys many.now) }
{
    for xid in many {
        if association.is_another(xid) {
            return true;
        }
    }
    false
}

/// Returns whether each branch of the list `few` is one of `sharers`.
fn has_all_in_list(sharers: &Sharers, few: &[SharedXid]) -> bool
    ensures { result ≡ list_all (set.contains sharers.now) few.now }
{
    few.iter().all(|own| sharers.contains(own.xid()))
}

/// Returns whether each branch of the set `many` is one of `sharers`.
fn has_all_in(sharers: &Sharers, many: &BTreeSet<Xid>) -> bool
    ensures { result ≡ list_all (set.contains sharers.now) (keys many.now) }
{
    for xid in many {
        if !sharers.contains(xid) {
            return false;
        }
    }
    true
}

/// Copies a set.
fn copy_of_set(many: &BTreeSet<Xid>) -> Result<BTreeSet<Xid>, NoMemory>
    ensures { IfOk result (λ copy. keys copy ≡ keys many.now) }
{
    many.clone()
}

/// Removes a branch from a list.
fn take_out_of_list(few: &mut Vec<SharedXid>, xid: &Xid)
    ensures { few.new.items ≡ filter (λ own. not (same_xid own xid.now)) few.old.items }
{
    few.retain(|own| !is_same(own.xid(), xid));
}

/// Removes a branch from a set, if it is there. An empty tree would keep its last node, so that is freed
/// too.
fn take_out(many: &mut BTreeSet<Xid>, xid: &Xid)
    ensures { Updates xid_cmp many.old many.new xid.now false }
{
    // Whether it was there doesn't matter: it isn't afterwards.
    let _was_there = many.remove(xid);
    if many.is_empty() {
        many.clear();
    }
}

impl SeveralSharers {
    /// Makes an empty set.
    pub fn new(alloc: Global) -> SeveralSharers
        ensures { result ≡ set.empty }
    {
        SeveralSharers {
            few: Vec::new(alloc),
            many: BTreeSet::new(alloc),
        }
    }

    /// Returns whether no branch shares the row.
    pub fn is_empty(&self) -> bool
        ensures { IsTrue result ↔ (self.now ≡ set.empty) }
    {
        self.few.is_empty() && self.many.is_empty()
    }

    /// Returns true only if each of these branches is one of `sharers`.
    pub fn is_within(&self, sharers: &Sharers) -> bool
        ensures { result ≡ true → set.is_subset self.now sharers.now ≡ true }
    {
        has_all_in_list(sharers, &self.few) && has_all_in(sharers, &self.many)
    }

    /// Copies the branches that share the row.
    pub fn copy(&self) -> Result<SeveralSharers, NoMemory>
        ensures { IfOk result (λ copy. copy ≡ self.now) }
    {
        Ok(SeveralSharers {
            few: self.few.clone()?,
            many: copy_of_set(&self.many)?,
        })
    }

    /// Returns whether the branch is one of the sharers.
    pub fn contains(&self, xid: &Xid) -> bool
        ensures { result ≡ set.contains self.now xid.now }
    {
        is_in_list(&self.few, xid) || self.many.contains(xid)
    }

    /// Returns whether a branch that isn't the session's own is one of the sharers. Tests two of them at most, since at
    /// most one is the session's own.
    pub fn has_another(&self, association: &Association) -> bool
        ensures { result ≡ list_any (is_another_of association.now) (set.items self.now) }
    {
        has_another_in_list(&self.few, association) || has_another_in(&self.many, association)
    }

    /// Adds a branch. After `NoMemory` the sharers are unchanged.
    pub fn add(&mut self, xid: &SharedXid) -> Result<(), NoMemory>
        ensures ok { OnOk result (self.new ≡ set.insert self.old xid.now) }
        ensures err { OnErr result (self.new ≡ self.old) }
    {
        // The list may have room again after a removal: the set isn't moved into it. The list isn't searched for the
        // branch first: the server adds a branch only if it doesn't hold the row yet.
        if self.few.len() < FEW {
            self.few.push(xid.try_clone()?)?;
        } else {
            // A set, so adding one that is there changes nothing.
            let _is_new = self.many.insert(xid.xid().copy())?;
        }
        Ok(())
    }

    /// Removes a branch, if it is one of the sharers.
    pub fn remove(&mut self, xid: &Xid)
        ensures { self.new ≡ set.remove self.old xid.now }
    {
        take_out_of_list(&mut self.few, xid);
        take_out(&mut self.many, xid);
    }

    /// If there is only one branch, and it is in the list, removes and returns it. Else returns `None`, and changes
    /// nothing.
    pub fn take_only(&mut self) -> Option<SharedXid>
        ensures { MatchOption result (self.new ≡ self.old) (λ only. self.old ≡ set.insert set.empty only) }
    {
        // An identifier of the set would have to be copied, and removing a branch takes no memory.
        if self.few.len() != 1 || !self.many.is_empty() {
            return None;
        }
        self.few.pop()
    }
}
