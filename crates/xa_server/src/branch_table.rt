//! The records of all branches, found by identifier and by session.
ghost use Rattle.std.specs.BTreeMap as tree;
ghost use Rattle.std.specs.FinMap as map;
ghost use Rattle.std.specs.Prelude.{◌≡◌, true, ◌≢◌, ℕ, [], ◌∷◌, ◌++◌, OnOk, OnErr, IfOk, MatchOption, ◌<◌, length};
ghost use Rattle.std.specs.{Prelude.slice_set, Option.{option_map, option_and_then}};
ghost use Rattle.xa_xid.specs.{declared.xid.Xid.Xid as XidSeen, Xid.xid_cmp};
ghost use Rattle.xa_server.specs.State.{association_in};
ghost use Rattle.xa_server.specs.Tables.{opened_at as opened_in, idle_of, prepared_keys, without_last};

use crate::association::Association;
use crate::branch::{self, BranchRecord, Phase};
use crate::keys::Keys;
use crate::lock::is_same_xid;
use crate::overview::{BranchEntry, entries_in};
use crate::shared_xid::SharedXid;
use std::alloc::Global;
use std::collections::BTreeMap;
use std::marker::Model;
use xa_xid::{Key, NoMemory, SessionNo, Xid};

/// The records of all branches: by identifier in logarithmic time, by session in constant time.
#[derive(Drop)]
pub struct BranchTable {
    /// The record of each branch, by its identifier.
    by_xid: BTreeMap<Xid, BranchRecord>,
    /// The index by session: what each has open, at its number. A session past the end has nothing open.
    opened: Vec<Association>,
    /// Returned for a session past the end of `opened`: nothing open.
    nothing: Association,
    /// Where memory for keys and lists is taken from.
    alloc: Global,
}

impl Model for BranchTable {
    ghost use Rattle.std.specs.FinMap as map;
    ghost use Rattle.xa_xid.specs.Xid.{xid_cmp};
    ghost use Rattle.xa_server.specs.{Coding.coded_branches, Tables.{BranchMap, IsIndexed}};

    ghost Value = { BranchMap };

    ghost coded = { coded_branches };

    ghost view = { λ table. map.from_entries {R = xid_cmp} table.by_xid.entries };

    ghost invariant = { λ table. IsIndexed table.opened.items table.nothing
        (map.from_entries {R = xid_cmp} table.by_xid.entries) };
}

/// Returns the place of a session in the index, `opened`.
fn place_of(session: SessionNo) -> usize
    ensures { result ≡ session }
{
    session.get() as usize
}

/// Returns what a session has open, by the index. Past its end it is `nothing`.
fn opened_at<'a>(
    opened: &'a [Association],
    nothing: &'a Association,
    session: SessionNo,
) -> &'a Association
    requires { nothing.now ≡ Association.Free }
    ensures { result.now ≡ opened_in opened.now session }
{
    match opened.get(place_of(session)) {
        Some(association) => association,
        None => nothing,
    }
}

/// Makes a place in the index for a session. Each session has open what it had, also after `NoMemory`.
fn make_place(opened: &mut Vec<Association>, session: SessionNo) -> Result<(), NoMemory>
    ensures same { (at : ℕ) → opened_in opened.new.items at ≡ opened_in opened.old.items at }
    ensures there { OnOk result (session < length opened.new.items) }
{
    // The index only grows, and not beyond the greatest session number that was used.
    while opened.len() <= place_of(session) {
        opened.push(Association::Free)?;
    }
    Ok(())
}

/// Sets what a session has open. The session has a place in the index.
fn set_place(opened: &mut Vec<Association>, session: SessionNo, association: Association)
    requires { session < length opened.old.items }
    ensures { opened.new.items ≡ slice_set opened.old.items session association }
{
    opened[place_of(session)] = association;
}

/// Marks the branch that a session has open as IDLE, if it has one. The session has a place in the index.
fn end_place(opened: &mut Vec<Association>, session: SessionNo)
    requires { session < length opened.old.items }
    ensures { opened.new.items ≡ slice_set opened.old.items session (idle_of (opened_in opened.old.items session)) }
{
    // `ended` takes the association itself, so another stands in for it meanwhile.
    let open = &mut opened[place_of(session)];
    *open = std::mem::replace(open, Association::Free).ended();
}

/// Sets the phase of a branch to IDLE, if there is such a branch. Returns its owner; None if it has none, or if there
/// is no such branch.
fn set_idle(by_xid: &mut BTreeMap<Xid, BranchRecord>, xid: &Xid) -> Option<SessionNo>
    ensures changed { MatchOption (tree.get xid_cmp by_xid.old xid.now) (by_xid.new ≡ by_xid.old)
        (λ branch. tree.Updates xid_cmp by_xid.old by_xid.new xid.now (Some (record branch { phase = Phase.Idle }))) }
    ensures owner { result ≡ option_and_then (λ branch. branch.owner) (tree.get xid_cmp by_xid.old xid.now) }
{
    let branch = by_xid.get_mut(xid)?;
    branch.phase = Phase::Idle;
    branch.owner
}

/// Sets the phase of a branch to PREPARED and removes its owner, if there is such a branch. Returns the owner; None if
/// it had none, or if there is no such branch.
fn set_prepared(by_xid: &mut BTreeMap<Xid, BranchRecord>, xid: &Xid) -> Option<SessionNo>
    ensures changed { MatchOption (tree.get xid_cmp by_xid.old xid.now) (by_xid.new ≡ by_xid.old)
        (λ branch. tree.Updates xid_cmp by_xid.old by_xid.new xid.now
        (Some (record branch { phase = Phase.Prepared; owner = None }))) }
    ensures owner { result ≡ option_and_then (λ branch. branch.owner) (tree.get xid_cmp by_xid.old xid.now) }
{
    let branch = by_xid.get_mut(xid)?;
    branch.phase = Phase::Prepared;
    branch.owner.take()
}

/// Adds a key to those that a branch holds, if there is such a branch. After `NoMemory` the records are
/// unchanged.
fn list_key(by_xid: &mut BTreeMap<Xid, BranchRecord>, xid: &Xid, key: &Key) -> Result<(), NoMemory>
    ensures ok { OnOk result (MatchOption (tree.get xid_cmp by_xid.old xid.now) (by_xid.new ≡ by_xid.old)
        (λ branch. tree.Updates xid_cmp by_xid.old by_xid.new xid.now
        (Some (record branch { held = branch.held ++ key.now ∷ [] })))) }
    ensures err { OnErr result (MatchOption (tree.get xid_cmp by_xid.old xid.now) (by_xid.new ≡ by_xid.old)
        (λ branch. tree.Updates xid_cmp by_xid.old by_xid.new xid.now (Some branch))) }
{
    match by_xid.get_mut(xid) {
        Some(branch) => branch.held.push(key),
        None => Ok(()),
    }
}

/// Removes the last key of those that a branch holds, if there is such a branch.
fn unlist_key(by_xid: &mut BTreeMap<Xid, BranchRecord>, xid: &Xid)
    ensures { MatchOption (tree.get xid_cmp by_xid.old xid.now) (by_xid.new ≡ by_xid.old)
        (λ branch. tree.Updates xid_cmp by_xid.old by_xid.new xid.now
        (Some (record branch { held = without_last branch.held }))) }
{
    if let Some(branch) = by_xid.get_mut(xid) {
        let _last = branch.held.pop();
    }
}

/// Lists the identifiers of the PREPARED branches among these records, ascending.
fn prepared_in(alloc: Global, by_xid: &BTreeMap<Xid, BranchRecord>) -> Result<Vec<Xid>, NoMemory>
    ensures listed { IfOk result (λ xids. xids.items ≡ prepared_keys by_xid.now.entries) }
    ensures ordered { tree.IsOrdered xid_cmp by_xid.now }
{
    let mut xids = Vec::new(alloc);
    for (xid, branch) in by_xid {
        if branch::is_prepared(Some(branch.phase)) {
            xids.push(xid.copy())?;
        }
    }
    Ok(xids)
}

/// Returns true only if both have the same branches with the same records.
fn has_same_records(
    by_xid: &BTreeMap<Xid, BranchRecord>,
    others: &BTreeMap<Xid, BranchRecord>,
) -> bool
    ensures { result ≡ true → by_xid.now.entries ≡ others.now.entries }
{
    // Both are ascending, so each record is compared with the one at the same place.
    let mut rest = others.iter();
    for (xid, branch) in by_xid {
        match rest.next() {
            Some((other, record)) if is_same_xid(xid, other) && branch.is_same(record) => {}
            // Another one is there, or none: `others` has fewer records.
            _ => return false,
        }
    }
    // `others` may have more records.
    rest.next().is_none()
}

/// Copies the records.
fn copy_of_records(
    by_xid: &BTreeMap<Xid, BranchRecord>,
) -> Result<BTreeMap<Xid, BranchRecord>, NoMemory>
    ensures { IfOk result (λ copy. copy.entries ≡ by_xid.now.entries) }
{
    by_xid.clone()
}

/// Copies an index.
fn copy_of_places(opened: &Vec<Association>) -> Result<Vec<Association>, NoMemory>
    ensures { IfOk result (λ copy. copy.items ≡ opened.now.items) }
{
    opened.clone()
}

impl BranchTable {
    ghost use Rattle.xa_server.specs.Held.{recorded_entries};
    ghost use Rattle.xa_server.specs.Tables.{named_in, owner_of, phase_in, prepared_among, with_record};

    /// Makes a table without branches.
    pub fn new(alloc: Global) -> BranchTable
        ensures { result ≡ map.empty }
    {
        BranchTable {
            by_xid: BTreeMap::new(alloc),
            opened: Vec::new(alloc),
            nothing: Association::Free,
            alloc,
        }
    }

    /// Returns true only if both have the same branches with the same records.
    pub fn is_same(&self, other: &BranchTable) -> bool
        ensures { result ≡ true → self.now ≡ other.now }
    {
        has_same_records(&self.by_xid, &other.by_xid)
    }

    /// Copies the records, and what each session has open.
    pub fn copy(&self) -> Result<BranchTable, NoMemory>
        ensures { IfOk result (λ copy. copy ≡ self.now) }
    {
        Ok(BranchTable {
            by_xid: copy_of_records(&self.by_xid)?,
            opened: copy_of_places(&self.opened)?,
            nothing: Association::Free,
            alloc: self.alloc,
        })
    }

    /// Returns the phase of the branch of this identifier, if there is one.
    pub fn phase_of(&self, xid: &Xid) -> Option<Phase>
        ensures { result ≡ option_map (λ branch. branch.phase) (map.get self.now xid.now) }
    {
        match self.by_xid.get(xid) {
            Some(branch) => Some(branch.phase),
            None => None,
        }
    }

    /// Returns what the session has open.
    pub fn opened(&self, session: SessionNo) -> &Association
        ensures named { (xid : XidSeen) → named_in result.now ≡ Some xid → owner_of self.now xid ≡ Some session }
        ensures owned { (xid : XidSeen) → owner_of self.now xid ≡ Some session
            → result.now ≡ association_in (phase_in self.now xid) xid }
    {
        opened_at(self.opened.as_slice(), &self.nothing, session)
    }

    /// Lists the identifiers of the PREPARED branches, ascending.
    pub fn prepared(&self) -> Result<Vec<Xid>, NoMemory>
        ensures { IfOk result (λ xids. xids.items ≡ prepared_among self.now) }
    {
        prepared_in(self.alloc, &self.by_xid)
    }

    /// Lists every branch without its rows, ascending by identifier.
    pub fn entries(&self, alloc: Global) -> Result<Vec<BranchEntry>, NoMemory>
        ensures listed { IfOk result (λ branches. branches.items ≡ recorded_entries self.now) }
        ensures memory { OnErr result (recorded_entries self.now ≢ []) }
    {
        entries_in(alloc, &self.by_xid)
    }

    /// Starts an ACTIVE branch, under an identifier that no branch has, for a session that owns none. After `NoMemory`
    /// the records are unchanged.
    pub fn start(&mut self, session: SessionNo, xid: &Xid) -> Result<(), NoMemory>
        requires unknown { map.get self.old xid.now ≡ None }
        requires free { (other : XidSeen) → owner_of self.old other ≢ Some session }
        ensures ok { OnOk result (self.new ≡ map.insert self.old xid.now
            (record { phase = Phase.Active; owner = Some session; held = [] })) }
        ensures err { OnErr result (self.new ≡ self.old) }
    {
        // What may fail comes first. A longer index changes nothing, as a new place has nothing open.
        let own = SharedXid::of(self.alloc, xid)?;
        make_place(&mut self.opened, session)?;
        let branch = BranchRecord {
            phase: Phase::Active,
            owner: Some(session),
            held: Keys::new(self.alloc),
        };
        self.by_xid.insert(xid.copy(), branch)?;
        set_place(&mut self.opened, session, Association::Active(own));
        Ok(())
    }

    /// Sets the phase of a branch to IDLE, in its record and in the index, if there is such a branch.
    pub fn end_work(&mut self, xid: &Xid)
        ensures { self.new ≡ with_record self.old xid.now (λ branch. record branch { phase = Phase.Idle }) }
    {
        // If there is no owner, no session has the branch open.
        if let Some(owner) = set_idle(&mut self.by_xid, xid) {
            end_place(&mut self.opened, owner);
        }
    }

    /// Removes the owner of a branch and sets its phase to PREPARED, if there is such a branch. The session that
    /// owned it has nothing open afterwards.
    pub fn detach(&mut self, xid: &Xid)
        ensures { self.new ≡ with_record self.old xid.now (λ branch. record branch
            { phase = Phase.Prepared; owner = None }) }
    {
        // If there was no owner, no session had the branch open.
        if let Some(owner) = set_prepared(&mut self.by_xid, xid) {
            set_place(&mut self.opened, owner, Association::Free);
        }
    }

    /// Adds a key to those that a branch holds, if there is such a branch. After `NoMemory` the records are
    /// unchanged.
    pub fn list(&mut self, xid: &Xid, key: &Key) -> Result<(), NoMemory>
        ensures ok { OnOk result (self.new ≡ with_record self.old xid.now
            (λ branch. record branch { held = branch.held ++ key.now ∷ [] })) }
        ensures err { OnErr result (self.new ≡ self.old) }
    {
        list_key(&mut self.by_xid, xid, key)
    }

    /// Removes the last key of those that a branch holds, if there is such a branch.
    pub fn unlist(&mut self, xid: &Xid)
        ensures { self.new ≡ with_record self.old xid.now (λ branch. record branch
            { held = without_last branch.held }) }
    {
        unlist_key(&mut self.by_xid, xid);
    }

    /// Removes the record of a branch, and returns the keys of the rows that it held; `None` if there is no such
    /// branch. The session that owned it has nothing open afterwards.
    pub fn remove(&mut self, xid: &Xid) -> Option<Keys>
        ensures removed { self.new ≡ map.remove self.old xid.now }
        ensures held { result ≡ option_map (λ branch. branch.held) (map.get self.old xid.now) }
    {
        let BranchRecord {
            phase: _,
            owner,
            held,
        } = self.by_xid.remove(xid)?;
        // If there is no owner, no session has the branch open.
        if let Some(owner) = owner {
            set_place(&mut self.opened, owner, Association::Free);
        }
        Some(held)
    }
}
