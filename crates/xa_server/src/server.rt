//! The server: its records, and the state that they stand for.
ghost use Rattle.std.specs.FinMap as map;
ghost use Rattle.std.specs.Prelude.{◌≡◌, ◌≢◌, ◌≤◌, [], true, false, cond, is_some, Some, None, OnOk, OnErr, IfOk};
ghost use Rattle.xa_server.specs.Tables.{with_record, without_last};

use crate::association::Association;
use crate::branch;
use crate::branch_table::BranchTable;
use crate::hold::HeldRow;
use crate::lock::Change;
use crate::overview::BranchEntry;
use crate::reply::XidList;
use crate::row_table::RowTable;
use crate::shared_xid::SharedXid;
use std::alloc::Global;
use std::marker::Model;
use xa_xid::{Bytes, Key, NoMemory, SessionNo, Xid};

/// A resource manager: transaction branches over rows, one statement after another. A contract sees it as a
/// `State`.
///
/// It finds a branch by identifier, and a row by key, in logarithmic time, and a session's branch in
/// constant time. Ending a branch takes no memory, and time only for what the branch did.
#[derive(Drop)]
pub struct Server {
    /// The branches, and what each session has open.
    branches: BranchTable,
    /// The rows, with their values and locks.
    rows: RowTable,
}

impl Model for Server {
    ghost use Rattle.xa_server.specs.{State.State, Coding.coded_state, View.{state_of, IsWhole}};

    ghost Value = { State };

    ghost coded = { coded_state };

    ghost view = { λ server. state_of server.branches server.rows };

    // Proved (server, rows-listed-once): A server's record of a branch lists exactly the rows that the
    //   branch holds, each once (`listed_once` of `IsWhole`). So no row stays listed after a failed
    //   allocation.
    ghost invariant = { λ server. IsWhole server.branches server.rows };
}

/// Removes the key that the branch `own` listed last if `held`, the result of taking the row's lock, is `NoMemory`.
/// Else changes nothing.
fn unlist_refused(branches: &mut BranchTable, own: &Xid, held: &Result<(), NoMemory>)
    ensures held { OnOk held.now (branches.new ≡ branches.old) }
    ensures refused { OnErr held.now (branches.new ≡ with_record branches.old own.now
        (λ branch. record branch { held = without_last branch.held })) }
{
    // A branch lists exactly the rows that it holds.
    if held.is_err() {
        branches.unlist(own);
    }
}

impl Server {
    ghost use Rattle.xa_server.specs.State.{no_state, is_known, is_prepared, association_of};
    ghost use Rattle.xa_server.specs.State.{prepared_xids as prepared_xids_of, committed_value as committed_value_of};
    ghost use Rattle.xa_server.specs.{State.value_within as value_within_of, Locks.{LockLaw, holds as holds_of}};
    ghost use Rattle.xa_server.specs.{Locks.is_held_against as is_held_against_of, Overview.{branches_of, rows_of}};
    ghost use Rattle.xa_server.specs.{Locks.is_locked_against as is_locked_against_of, Step.{started_by, with_branch}};
    ghost use Rattle.xa_server.specs.Step.{with_changed, with_lock, with_write, without_branch, committed};
    ghost use Rattle.xa_server.specs.{Rows.with_change, declared.association.Association.TheVariants.{Free, Active}};
    ghost use Rattle.xa_server.specs.declared.branch.Phase.TheVariants.{Idle as PhaseIdle, Prepared as PhasePrepared};

    /// Makes a server with no branches and no rows.
    ///
    /// Takes no memory. Doesn't wait.
    pub fn new(alloc: Global) -> Server
        // Proved (server, new-server): A new server has no branches and no rows.
        ensures { result ≡ no_state }
    {
        Server::over_empty(BranchTable::new(alloc), RowTable::new(alloc))
    }

    /// Makes a server over tables without records.
    fn over_empty(branches: BranchTable, rows: RowTable) -> Server
        requires no_branch { branches ≡ map.empty }
        requires no_row { rows ≡ map.empty }
        ensures { result ≡ no_state }
    {
        Server { branches, rows }
    }

    /// Copies the server: the copy has the same branches and rows.
    ///
    /// May return `NoMemory`. Doesn't wait.
    pub fn copy(&self) -> Result<Server, NoMemory>
        // Proved (server, copies): A copy of a server has the same branches and rows.
        ensures { IfOk result (λ copy. copy ≡ self.now) }
    {
        Ok(Server {
            branches: self.branches.copy()?,
            rows: self.rows.copy()?,
        })
    }

    /// Returns whether both servers are known to have the same branches and rows.
    ///
    /// `true` means that they have. `false` is also returned for two servers that have the same, if a
    /// branch came to hold its rows in another order. Takes no memory. Doesn't wait.
    pub fn is_same(&self, other: &Server) -> bool
        // Proved (server, same-servers): Two servers that `is_same` calls the same have the same branches
        //   and rows.
        ensures { result ≡ true → self.now ≡ other.now }
    {
        self.branches.is_same(&other.branches) && self.rows.is_same(&other.rows)
    }

    /// States that every server keeps the lock law.
    ///
    /// The lock law: a row that one branch holds exclusively is held by no other branch; a session owns at
    /// most one branch; exactly the PREPARED branches have no owner; and a branch writes only rows that it
    /// holds exclusively. Takes no memory. Doesn't wait.
    /// Own rule: docs/STATEMENTS.md#rows-and-locks.
    pub fn keeps_lock_law(&self)
        // Proved (server, lock-law)
        ensures { LockLaw self.now }
    {
        // The law is part of what every server keeps (`IsWhole`), so there is nothing to do.
        let _branches = &self.branches;
    }

    /// Returns the allocator.
    pub(crate) fn alloc(&self) -> Global {
        self.rows.alloc()
    }

    /// Returns what the session has open. Every server keeps the lock law.
    pub(crate) fn association(&self, session: SessionNo) -> &Association
        ensures association { result.now ≡ association_of self.now session }
        ensures lock_law { LockLaw self.now }
    {
        self.branches.opened(session)
    }

    /// Returns whether a branch has this identifier.
    pub(crate) fn knows(&self, xid: &Xid) -> bool
        ensures { result ≡ is_known self.now xid.now }
    {
        self.branches.phase_of(xid).is_some()
    }

    /// Returns whether the branch of this identifier is PREPARED.
    pub(crate) fn has_prepared(&self, xid: &Xid) -> bool
        ensures { result ≡ is_prepared self.now xid.now }
    {
        branch::is_prepared(self.branches.phase_of(xid))
    }

    /// Returns the value of a row that all sessions see; None if the row has none.
    pub(crate) fn committed_value(&self, key: &Key) -> Option<Bytes>
        ensures { result ≡ committed_value_of self.now key.now }
    {
        self.rows.committed(key)
    }

    /// Returns the value of a row that the branch `own` sees: by its own newest write of the row, and else the
    /// committed one; None if that is no value.
    pub(crate) fn value_within(&self, own: &Xid, key: &Key) -> Option<Bytes>
        ensures { result ≡ value_within_of self.now own.now key.now }
    {
        self.rows.value_within(own, key)
    }

    /// Returns whether a branch holds the row, in share or exclusively, that isn't the one that the session has open,
    /// its `association`.
    pub(crate) fn is_held_against(&self, association: &Association, key: &Key) -> bool
        ensures { result ≡ is_held_against_of self.now association.now key.now }
    {
        self.rows.is_held_against(association, key)
    }

    /// Returns whether a branch holds the row exclusively that isn't the one that the session has open, its
    /// `association`.
    pub(crate) fn is_locked_against(&self, association: &Association, key: &Key) -> bool
        ensures { result ≡ is_locked_against_of self.now association.now key.now }
    {
        self.rows.is_locked_against(association, key)
    }

    /// Returns whether the branch holds the row, in share or exclusively.
    pub(crate) fn holds(&self, own: &Xid, key: &Key) -> bool
        ensures { result ≡ holds_of self.now own.now key.now }
    {
        self.rows.is_held_by(own, key)
    }

    /// Lists the identifiers of the PREPARED branches, ascending.
    pub(crate) fn prepared_xids(&self) -> Result<XidList, NoMemory>
        ensures { IfOk result (λ xids. xids ≡ prepared_xids_of self.now) }
    {
        Ok(XidList::of(self.branches.prepared()?))
    }

    /// Lists every branch without its rows, ascending by identifier.
    pub(crate) fn branch_entries(&self, alloc: Global) -> Result<Vec<BranchEntry>, NoMemory>
        ensures listed { IfOk result (λ branches. branches.items ≡ branches_of self.now) }
        ensures memory { OnErr result (branches_of self.now ≢ []) }
    {
        self.branches.entries(alloc)
    }

    /// Lists the rows that a branch holds, ascending by key.
    pub(crate) fn held_rows(&self, alloc: Global, xid: &Xid) -> Result<Vec<HeldRow>, NoMemory>
        requires { is_known self.now xid.now ≡ true }
        ensures listed { IfOk result (λ rows. rows.items ≡ rows_of self.now xid.now) }
        ensures memory { OnErr result (rows_of self.now xid.now ≢ []) }
    {
        self.rows.held_by(alloc, xid)
    }

    /// Starts a branch for a free session, under an identifier that no branch has. After `NoMemory` the
    /// server is unchanged.
    pub(crate) fn start_branch(&mut self, session: SessionNo, xid: &Xid) -> Result<(), NoMemory>
        requires unknown { is_known self.old xid.now ≡ false }
        requires free { association_of self.old session ≡ Free }
        ensures ok { OnOk result (self.new ≡ with_branch self.old xid.now (started_by session)) }
        ensures err { OnErr result (self.new ≡ self.old) }
    {
        self.branches.start(session, xid)
    }

    /// Ends the work of a branch that isn't PREPARED.
    pub(crate) fn end_work(&mut self, xid: &Xid)
        requires { is_prepared self.old xid.now ≡ false }
        ensures { self.new ≡ with_changed self.old xid.now (λ branch. record branch { phase = PhaseIdle }) }
    {
        self.branches.end_work(xid);
    }

    /// Prepares a branch, and detaches it from its session.
    pub(crate) fn detach(&mut self, xid: &Xid)
        ensures { self.new ≡ with_changed self.old xid.now (λ branch. record branch
            { phase = PhasePrepared; owner = None }) }
    {
        self.branches.detach(xid);
    }

    /// Makes the branch `own` hold a row exclusively, with this change at its commit. No other branch holds the row. A
    /// share or an older change of the branch's own gives way to this. After `NoMemory` the server is unchanged.
    pub(crate) fn hold(
        &mut self,
        own: &SharedXid,
        key: &Key,
        change: Change,
    ) -> Result<(), NoMemory>
        requires known { is_known self.old own.now ≡ true }
        requires unheld { is_held_against_of self.old (Active own.now) key.now ≡ false }
        ensures ok { OnOk result (self.new ≡ with_changed self.old own.now (with_change key.now change)) }
        ensures err { OnErr result (self.new ≡ self.old) }
    {
        let xid = own.xid();
        let holder = own.try_clone()?;
        // A branch that holds the row has listed the key already.
        if self.rows.is_held_by(xid, key) {
            return self.rows.hold(key, holder, change);
        }
        // The key is listed first: if there is no memory for the row's record, taking it off the list needs none.
        self.branches.list(xid, key)?;
        let held = self.rows.hold(key, holder, change);
        unlist_refused(&mut self.branches, xid, &held);
        held
    }

    /// Makes the branch `own` share a row that it doesn't hold yet. No other branch holds the row exclusively.
    /// After `NoMemory` the server is unchanged.
    pub(crate) fn share(&mut self, own: &SharedXid, key: &Key) -> Result<(), NoMemory>
        requires known { is_known self.old own.now ≡ true }
        requires unlocked { is_locked_against_of self.old (Active own.now) key.now ≡ false }
        requires new_lock { holds_of self.old own.now key.now ≡ false }
        ensures ok { OnOk result (self.new ≡ with_changed self.old own.now (with_lock key.now)) }
        ensures err { OnErr result (self.new ≡ self.old) }
    {
        let xid = own.xid();
        // The key is listed first: if there is no memory for the row's record, taking it off the list needs none.
        self.branches.list(xid, key)?;
        let shared = self.rows.share(key, own);
        unlist_refused(&mut self.branches, xid, &shared);
        shared
    }

    /// Gives a value to a row that no branch holds. After `NoMemory` the server is unchanged.
    pub(crate) fn put_row(&mut self, key: &Key, value: &Bytes) -> Result<(), NoMemory>
        requires { is_held_against_of self.old Free key.now ≡ false }
        ensures ok { OnOk result (self.new ≡ record self.old
            { rows = with_write key.now (Some value.now) self.old.rows }) }
        ensures err { OnErr result (self.new ≡ self.old) }
    {
        self.rows.put(key, value)
    }

    /// Removes the value of a row that no branch holds. After `NoMemory` the server is unchanged.
    pub(crate) fn delete_row(&mut self, key: &Key) -> Result<(), NoMemory>
        requires { is_held_against_of self.old Free key.now ≡ false }
        ensures ok { OnOk result (self.new ≡ record self.old { rows = with_write key.now None self.old.rows }) }
        ensures err { OnErr result (self.new ≡ self.old) }
    {
        self.rows.delete(key)
    }

    /// Ends a branch. If it `commits`, its writes become the committed values; otherwise they are dropped.
    /// The branch holds no row any more; others may go on sharing rows that it shared.
    pub(crate) fn end_branch(&mut self, xid: &Xid, commits: bool)
        requires { is_known self.old xid.now ≡ true }
        ensures { self.new ≡ cond commits (committed self.old xid.now) (without_branch self.old xid.now) }
    {
        // There is such a branch, so its keys are found.
        if let Some(keys) = self.branches.remove(xid) {
            self.rows.free_all(keys, xid, commits);
        }
    }
}
