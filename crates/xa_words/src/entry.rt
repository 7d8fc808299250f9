//! A log entry.
ghost use Rattle.std.specs.Prelude.{◌≡◌, if◌then◌else◌, Some, None, IsTrue};
ghost use Rattle.xa_words.specs.Entry.{IsEntry, may_be_entry};

use crate::limits;
use std::marker::Model;
use xa_xid::{SessionNo, Statement};

/// A log entry: a session, and a statement of it that can be logged.
///
/// A contract sees it as the record of a session's number and a statement.
/// Own rule: docs/INTERNALS.md#entries.
#[derive(Debug, Drop, PartialEq, Eq)]
pub struct Entry {
    /// Whose statement it is.
    session: SessionNo,
    /// The statement, one that may be logged.
    statement: Statement,
}

impl Model for Entry {
    ghost use Rattle.xa_words.specs.Entry.{Entry, IsEntry};

    ghost Value = { Entry };

    ghost view = { λ e. record { session = e.session; statement = e.statement } };

    ghost invariant = { λ e. IsEntry (record { session = e.session; statement = e.statement }) };

    ghost inverse = { λ e. record { session = e.session; statement = e.statement } };
}

impl Entry {
    /// Makes an entry of a session and a statement.
    ///
    /// Returns `None` only for `XA RECOVER` and for an unsupported statement. Takes no memory. Doesn't
    /// wait.
    pub fn of(session: SessionNo, statement: &Statement) -> Option<Entry>
        // Proved (log, entries): Every session and every statement make an entry, except `XA RECOVER` and
        //   an unsupported statement.
        ensures { result ≡ (if may_be_entry statement.now then Some
            (record { session = session; statement = statement.now }) else None) }
    {
        match statement {
            Statement::Recover { .. } | Statement::Unsupported => None,
            _ => {
                // The proof needs that the statement's parts are within their limits, and the number in `[1, 16]`.
                limits::of_statement(statement);
                let _number = session.get();
                Some(Entry {
                    session,
                    statement: statement.copy(),
                })
            }
        }
    }

    /// Makes an entry of a session and a statement that can be logged: any but `XA RECOVER` and an
    /// unsupported one.
    ///
    /// Takes no memory. Doesn't wait.
    pub fn entering(session: SessionNo, statement: Statement) -> Entry
        requires { IsTrue (may_be_entry statement) }
        ensures { result ≡ record { session = session; statement = statement } }
    {
        // The proof needs that the statement's parts are within their limits, and the number in `[1, 16]`.
        limits::of_statement(&statement);
        let _number = session.get();
        Entry { session, statement }
    }

    /// Returns the session.
    ///
    /// Takes no memory. Doesn't wait.
    pub fn session(&self) -> SessionNo
        ensures value { result ≡ self.now.session }
        ensures entry { IsEntry self.now }
    {
        self.session
    }

    /// Returns the statement.
    ///
    /// Takes no memory. Doesn't wait.
    pub fn statement(&self) -> &Statement
        ensures value { result.now ≡ self.now.statement }
        ensures entry { IsEntry self.now }
    {
        &self.statement
    }

    /// Returns a copy of the entry.
    ///
    /// Takes no memory. Doesn't wait.
    pub fn copy(&self) -> Entry
        ensures { result ≡ self.now }
    {
        Entry {
            session: self.session,
            statement: self.statement.copy(),
        }
    }
}
