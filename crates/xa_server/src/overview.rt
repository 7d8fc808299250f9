//! What a server holds, for a person to read: its branches, the rows that they hold, and values.
ghost use Rattle.std.specs.BTreeMap as tree;
ghost use Rattle.std.specs.Prelude.{◌≡◌, ◌≢◌, [], ◌∷◌, IfOk, OnErr, map};
ghost use Rattle.xa_xid.specs.Xid.{xid_cmp};
ghost use Rattle.xa_server.specs.{Held.recorded_entry, Overview.keys_of as keys_of_rows};

use crate::association::Association;
use crate::branch::{BranchRecord, Phase};
use crate::{HeldRow, Server};
use std::alloc::Global;
use std::collections::BTreeMap;
use xa_xid::{Bytes, Key, NoMemory, SessionNo, Statement, Xid};

/// A branch, without its rows.
#[derive(Debug, Drop, PartialEq, Eq)]
pub struct BranchEntry {
    /// The branch's identifier.
    pub xid: Xid,
    /// Its phase.
    pub phase: Phase,
    /// The session that owns it; `None` after it is prepared.
    pub owner: Option<SessionNo>,
}

/// Lists the branches of these records without their rows, ascending by identifier. Returns `NoMemory` only if there
/// is a branch.
pub fn entries_in(
    alloc: Global,
    by_xid: &BTreeMap<Xid, BranchRecord>,
) -> Result<Vec<BranchEntry>, NoMemory>
    ensures listed { IfOk result (λ branches. branches.items ≡ map recorded_entry by_xid.now.entries) }
    ensures memory { OnErr result (map recorded_entry by_xid.now.entries ≢ []) }
    ensures ordered { tree.IsOrdered xid_cmp by_xid.now }
{
    let mut branches = Vec::new(alloc);
    for (xid, branch) in by_xid {
        branches.push(BranchEntry {
            xid: xid.copy(),
            phase: branch.phase,
            owner: branch.owner,
        })?;
    }
    Ok(branches)
}

/// Lists the keys of these rows, in the order of the rows. Returns `NoMemory` only if there is a row.
fn keys_of(alloc: Global, rows: &[HeldRow]) -> Result<Vec<Key>, NoMemory>
    ensures listed { IfOk result (λ keys. keys.items ≡ keys_of_rows rows.now) }
    ensures memory { OnErr result (keys_of_rows rows.now ≢ []) }
{
    let mut keys = Vec::new(alloc);
    for row in rows {
        keys.push(row.key.copy())?;
    }
    Ok(keys)
}

/// Makes a list of one key.
fn one_key(alloc: Global, key: &Key) -> Result<Vec<Key>, NoMemory>
    ensures { IfOk result (λ keys. keys.items ≡ key.now ∷ []) }
{
    let mut keys = Vec::new(alloc);
    keys.push(key.copy())?;
    Ok(keys)
}

impl Server {
    ghost use Rattle.xa_server.specs.State.{committed_value as committed_value_of, association_of};
    ghost use Rattle.xa_server.specs.Overview.{branches_of, rows_of as rows_of_branch, keys_open as keys_open_at};
    ghost use Rattle.xa_server.specs.Overview.{keys_about as keys_about_statement};

    /// Lists every branch, once, ascending by identifier.
    ///
    /// May return `NoMemory`, only if there is a branch. Doesn't wait.
    /// Own rule: docs/COMMANDS.md#show.
    pub fn branches(&self, alloc: Global) -> Result<Vec<BranchEntry>, NoMemory>
        // Proved (server, listing): A server lists every branch once, ascending, with its phase and owner.
        //   It lists the rows that a branch holds, each once, ascending, with what the branch writes to
        //   each. It returns a row's committed value, and the rows that a statement is about.
        ensures listed { IfOk result (λ branches. branches.items ≡ branches_of self.now) }
        // Proved (server, memory-for-lists)
        ensures memory { OnErr result (branches_of self.now ≢ []) }
    {
        self.branch_entries(alloc)
    }

    /// Lists the rows that the branch of this identifier holds, each once, ascending by key.
    ///
    /// The list is empty if there is no such branch. Else the call visits every row of the server. May return
    /// `NoMemory`, only if the branch holds a row. Doesn't wait.
    /// Own rule: docs/COMMANDS.md#show.
    pub fn rows_of(&self, alloc: Global, xid: &Xid) -> Result<Vec<HeldRow>, NoMemory>
        // Proved (server, listing)
        ensures listed { IfOk result (λ rows. rows.items ≡ rows_of_branch self.now xid.now) }
        // Proved (server, memory-for-lists): `NoMemory` is returned only for a list that isn't empty, and
        //   for a copy of a reply only if that is a list.
        ensures memory { OnErr result (rows_of_branch self.now xid.now ≢ []) }
    {
        if !self.knows(xid) {
            return Ok(Vec::new(alloc));
        }
        self.held_rows(alloc, xid)
    }

    /// Returns the value of a row that all sessions see, or `None` if the row has none.
    ///
    /// Takes no memory. Doesn't wait.
    /// Own rule: docs/STATEMENTS.md#rows-and-locks.
    pub fn value_of(&self, key: &Key) -> Option<Bytes>
        // Proved (server, listing)
        ensures { result ≡ committed_value_of self.now key.now }
    {
        self.committed_value(key)
    }

    /// Lists the keys of the rows that the session's branch holds, ascending; none if the session is free.
    fn keys_open(&self, alloc: Global, session: SessionNo) -> Result<Vec<Key>, NoMemory>
        ensures listed { IfOk result (λ keys. keys.items ≡ keys_open_at self.now (association_of self.now session)) }
        ensures memory { OnErr result (keys_open_at self.now (association_of self.now session) ≢ []) }
    {
        match self.association(session) {
            Association::Free => Ok(Vec::new(alloc)),
            Association::Active(own) => self.keys_held(alloc, own.xid()),
            Association::Idle(own) => self.keys_held(alloc, own.xid()),
        }
    }

    /// Lists the keys of the rows that the branch of this identifier holds, ascending; none if there is no such branch.
    fn keys_held(&self, alloc: Global, xid: &Xid) -> Result<Vec<Key>, NoMemory>
        ensures listed { IfOk result (λ keys. keys.items ≡ keys_of_rows (rows_of_branch self.now xid.now)) }
        ensures memory { OnErr result (keys_of_rows (rows_of_branch self.now xid.now) ≢ []) }
    {
        let rows = self.rows_of(alloc, xid)?;
        keys_of(alloc, rows.as_slice())
    }

    /// Lists the keys of the rows that a session's statement is about, ascending.
    ///
    /// For `GET`, `PUT` and `DEL` this is the row that they name. For `XA COMMIT` and `XA ROLLBACK` these
    /// are all rows that the branch holds; for `DISCONNECT`, all rows that the session's branch holds. For
    /// other statements the list is empty. It doesn't matter whether the statement would be refused. May
    /// return `NoMemory`, only if there is such a row. Doesn't wait.
    /// Own rule: docs/COMMANDS.md#show.
    #[tactic(auto, unfolding(crate::specs::Overview::keys_about))]
    pub fn keys_about(
        &self,
        alloc: Global,
        session: SessionNo,
        statement: &Statement,
    ) -> Result<Vec<Key>, NoMemory>
        // Proved (server, listing)
        ensures listed { IfOk result (λ keys. keys.items ≡ keys_about_statement self.now session statement.now) }
        // Proved (server, memory-for-lists)
        ensures memory { OnErr result (keys_about_statement self.now session statement.now ≢ []) }
    {
        match statement {
            Statement::Get(key) => one_key(alloc, key),
            Statement::Put(key, _) => one_key(alloc, key),
            Statement::Del(key) => one_key(alloc, key),
            Statement::Commit { xid, one_phase: _ } => self.keys_held(alloc, xid),
            Statement::Rollback(xid) => self.keys_held(alloc, xid),
            Statement::Disconnect => self.keys_open(alloc, session),
            Statement::Start(_) => Ok(Vec::new(alloc)),
            Statement::End(_) => Ok(Vec::new(alloc)),
            Statement::Prepare(_) => Ok(Vec::new(alloc)),
            Statement::Recover { convert: _ } => Ok(Vec::new(alloc)),
            Statement::Unsupported => Ok(Vec::new(alloc)),
        }
    }
}
