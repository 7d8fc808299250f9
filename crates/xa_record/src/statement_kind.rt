//! Kinds of statements.
ghost use Rattle.std.specs.Prelude.{◌≡◌};
ghost use Rattle.xa_record.specs.Allowances.{words_of, kind_of_statement, kind_of as kind_of_request};

use xa_judge::Request;
use xa_xid::Statement;

/// A kind of statement: the words of its canonical form without identifiers, keys and values, and without
/// `CONVERT XID`.
///
/// Own rule: docs/HISTORIES.md#allowances.
#[derive(Clone, Copy, Debug, PartialEq, Eq)]
pub enum StatementKind {
    Start,
    End,
    Prepare,
    /// `XA COMMIT` without `ONE PHASE`.
    Commit,
    CommitOnePhase,
    Rollback,
    Recover,
    Get,
    Put,
    Del,
    Disconnect,
}

impl StatementKind {
    /// Returns the words of this kind, with a blank between them.
    pub fn words(self) -> &'static [u8]
        ensures { result.now ≡ words_of self }
    {
        match self {
            StatementKind::Start => b"XA START",
            StatementKind::End => b"XA END",
            StatementKind::Prepare => b"XA PREPARE",
            StatementKind::Commit => b"XA COMMIT",
            StatementKind::CommitOnePhase => b"XA COMMIT ONE PHASE",
            StatementKind::Rollback => b"XA ROLLBACK",
            StatementKind::Recover => b"XA RECOVER",
            StatementKind::Get => b"GET",
            StatementKind::Put => b"PUT",
            StatementKind::Del => b"DEL",
            StatementKind::Disconnect => b"DISCONNECT",
        }
    }

    /// The kind of a statement; an unsupported one has none.
    fn of_statement(statement: &Statement) -> Option<StatementKind>
        ensures { result ≡ kind_of_statement statement.now }
    {
        match statement {
            Statement::Start(_) => Some(StatementKind::Start),
            Statement::End(_) => Some(StatementKind::End),
            Statement::Prepare(_) => Some(StatementKind::Prepare),
            Statement::Commit {
                xid: _,
                one_phase: false,
            } => Some(StatementKind::Commit),
            Statement::Commit {
                xid: _,
                one_phase: true,
            } => Some(StatementKind::CommitOnePhase),
            Statement::Rollback(_) => Some(StatementKind::Rollback),
            Statement::Recover { .. } => Some(StatementKind::Recover),
            Statement::Unsupported => None,
            Statement::Get(_) => Some(StatementKind::Get),
            Statement::Put(_, _) => Some(StatementKind::Put),
            Statement::Del(_) => Some(StatementKind::Del),
            Statement::Disconnect => Some(StatementKind::Disconnect),
        }
    }

    /// Returns the kind of a request, if it has one. A text that isn't a statement has none.
    pub fn of(request: &Request) -> Option<StatementKind>
        ensures { result ≡ kind_of_request request.now }
    {
        match request {
            Request::Statement(statement) => StatementKind::of_statement(statement),
            Request::Unread => None,
        }
    }
}
