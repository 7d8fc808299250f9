//! What a statement is to do.

use xa_server::{HeldRow, Hold};
use xa_xid::{Bytes, Key, Statement, Xid};

/// What a statement is to do that helps to lead to a server (`Packing`).
#[derive(Clone, Copy)]
pub enum Wanted<'a> {
    /// Give a row this value.
    Value(&'a Key, &'a Bytes),
    /// Take a row's value away.
    NoValue(&'a Key),
    /// Read a row.
    Read(&'a Key),
    /// Start a branch.
    Start(&'a Xid),
    /// End a branch's work.
    End(&'a Xid),
    /// Prepare a branch.
    Prepare(&'a Xid),
}

impl<'a> Wanted<'a> {
    /// Returns what gives a row this value, or takes its value away if `value` is None.
    pub fn value(key: &'a Key, value: &'a Option<Bytes>) -> Wanted<'a> {
        match value {
            Some(text) => Wanted::Value(key, text),
            None => Wanted::NoValue(key),
        }
    }

    /// Returns what gives a branch this hold on a row: to read the row, to give it the value, or to take its value
    /// away.
    pub fn hold(row: &'a HeldRow) -> Wanted<'a> {
        match &row.hold {
            Hold::Shared => Wanted::Read(&row.key),
            Hold::Put(text) => Wanted::Value(&row.key, text),
            Hold::Delete => Wanted::NoValue(&row.key),
        }
    }

    /// Tells whether the statement does what is wanted: it is of the wanted kind, and all that is named here (key,
    /// value, xid) is the same.
    pub fn is_done_by(&self, statement: &Statement) -> bool {
        match self {
            Wanted::Value(row, text) => {
                matches!(statement, Statement::Put(key, value) if key == *row && value.as_slice() == text.as_slice())
            }
            Wanted::NoValue(row) => matches!(statement, Statement::Del(key) if key == *row),
            Wanted::Read(row) => matches!(statement, Statement::Get(key) if key == *row),
            Wanted::Start(branch) => matches!(statement, Statement::Start(xid) if xid == *branch),
            Wanted::End(branch) => matches!(statement, Statement::End(xid) if xid == *branch),
            Wanted::Prepare(branch) => {
                matches!(statement, Statement::Prepare(xid) if xid == *branch)
            }
        }
    }
}
