//! A statement of a session.
ghost use Rattle.std.specs.Prelude.{◌≡◌};
ghost use Rattle.xa_xid.specs.declared.statement.Statement.TheVariants.{Start, End, Prepare, Commit, Rollback, Get};
ghost use Rattle.xa_xid.specs.declared.statement.Statement.TheVariants.{Put, Del};

use crate::{Bytes, Key, Xid, copy_of};

/// A statement that a session gives to a server.
///
/// Source: MySQL 8.0 Reference Manual, 'XA Transaction SQL Statements', for the statements that begin with
/// `XA`.
/// The others are our own: docs/STATEMENTS.md#rows-and-locks and docs/STATEMENTS.md#branches.
#[derive(Clone, Debug, Drop, PartialEq, Eq)]
pub enum Statement {
    /// `XA START xid` or `XA BEGIN xid`: starts a branch.
    Start(Xid),
    /// `XA END xid`: ends the work of the session's branch.
    End(Xid),
    /// `XA PREPARE xid`: makes the branch ready to commit, and detaches it from its session.
    Prepare(Xid),
    /// `XA COMMIT xid`, and with `one_phase` also `ONE PHASE`.
    Commit {
        /// The branch.
        xid: Xid,
        /// Whether the branch is committed without having been prepared.
        one_phase: bool,
    },
    /// `XA ROLLBACK xid`.
    Rollback(Xid),
    /// `XA RECOVER`, and with `convert` also `CONVERT XID`: lists the prepared branches.
    Recover {
        /// Whether the identifiers are printed in hexadecimal digits.
        convert: bool,
    },
    /// A statement of the manual that is recognised but not supported: one with `JOIN`, `RESUME` or
    /// `SUSPEND`.
    Unsupported,
    /// `GET key`: reads a row.
    Get(Key),
    /// `PUT key,value`: gives a row a value.
    Put(Key, Bytes),
    /// `DEL key`: removes a row's value.
    Del(Key),
    /// `DISCONNECT`: ends the session.
    Disconnect,
}

// An arm of `copy` with a large value is a function of its own, so that memory for one is filled only in the arm that
// is taken.

/// Copies `XA START`.
fn start_of(xid: &Xid) -> Statement
    ensures { result ≡ Start xid.now }
{
    Statement::Start(xid.copy())
}

/// Copies `XA END`.
fn end_of(xid: &Xid) -> Statement
    ensures { result ≡ End xid.now }
{
    Statement::End(xid.copy())
}

/// Copies `XA PREPARE`.
fn prepare_of(xid: &Xid) -> Statement
    ensures { result ≡ Prepare xid.now }
{
    Statement::Prepare(xid.copy())
}

/// Copies `XA COMMIT`.
fn commit_of(xid: &Xid, one_phase: bool) -> Statement
    ensures { result ≡ Commit xid.now one_phase }
{
    Statement::Commit {
        xid: xid.copy(),
        one_phase,
    }
}

/// Copies `XA ROLLBACK`.
fn rollback_of(xid: &Xid) -> Statement
    ensures { result ≡ Rollback xid.now }
{
    Statement::Rollback(xid.copy())
}

/// Copies `GET`.
fn get_of(key: &Key) -> Statement
    ensures { result ≡ Get key.now }
{
    Statement::Get(key.copy())
}

/// Copies `PUT`.
fn put_of(key: &Key, value: &Bytes) -> Statement
    ensures { result ≡ Put key.now value.now }
{
    Statement::Put(key.copy(), copy_of(value))
}

/// Copies `DEL`.
fn del_of(key: &Key) -> Statement
    ensures { result ≡ Del key.now }
{
    Statement::Del(key.copy())
}

impl Statement {
    /// Returns a copy of the statement.
    ///
    /// Takes no memory. Doesn't wait.
    pub fn copy(&self) -> Statement
        // Proved (statements, copies)
        ensures { result ≡ self.now }
    {
        match self {
            Statement::Start(xid) => start_of(xid),
            Statement::End(xid) => end_of(xid),
            Statement::Prepare(xid) => prepare_of(xid),
            Statement::Commit { xid, one_phase } => commit_of(xid, *one_phase),
            Statement::Rollback(xid) => rollback_of(xid),
            Statement::Recover { convert } => Statement::Recover { convert: *convert },
            Statement::Unsupported => Statement::Unsupported,
            Statement::Get(key) => get_of(key),
            Statement::Put(key, value) => put_of(key, value),
            Statement::Del(key) => del_of(key),
            Statement::Disconnect => Statement::Disconnect,
        }
    }
}
