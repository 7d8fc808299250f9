//! What sessions call for.
ghost use Rattle.std.specs.Prelude.{◌≡◌, true, IfOk, OnOk};
ghost use Rattle.xa_judge.specs.Explained.{answer_to, next_state};

use crate::answer::Answer;
use xa_server::Server;
use xa_xid::{NoMemory, SessionNo, Statement};

/// What a session calls for.
#[derive(Debug, Drop)]
pub enum Request {
    /// A statement.
    Statement(Statement),
    /// A text that isn't a statement. It is answered 1064, and does nothing.
    Unread,
}

/// Whether two statements are known to be the same.
fn is_same_statement(left: &Statement, right: &Statement) -> bool
    ensures { result ≡ true → left.now ≡ right.now }
{
    *left == *right
}

impl Request {
    /// Tells whether both are known to be the same.
    pub(crate) fn is_same(&self, other: &Request) -> bool
        ensures { result ≡ true → self.now ≡ other.now }
    {
        match self {
            Request::Statement(statement) => match other {
                Request::Statement(another) => is_same_statement(statement, another),
                Request::Unread => false,
            },
            Request::Unread => matches!(other, Request::Unread),
        }
    }

    /// Returns what the server would answer the session's request. Nothing takes effect.
    ///
    /// May return `NoMemory`.
    pub(crate) fn answer(&self, server: &Server, session: SessionNo) -> Result<Answer, NoMemory>
        ensures { IfOk result (λ answer. answer ≡ answer_to server.now session self.now) }
    {
        match self {
            Request::Statement(statement) => {
                // The other part, whether it would be logged, says nothing of the answer.
                Ok(Answer::Reply(server.reply(session, statement)?.0))
            }
            Request::Unread => Ok(Answer::Unread),
        }
    }

    /// Has the session's request take effect on the server, and returns its answer.
    ///
    /// May return `NoMemory`.
    pub(crate) fn carry_out(
        &self,
        server: &mut Server,
        session: SessionNo,
    ) -> Result<Answer, NoMemory>
        ensures answer { IfOk result (λ answer. answer ≡ answer_to server.old session self.now) }
        ensures state { OnOk result (server.new ≡ next_state server.old session self.now) }
    {
        match self {
            Request::Statement(statement) => Ok(Answer::Reply(server.apply(session, statement)?)),
            Request::Unread => Ok(Answer::Unread),
        }
    }
}
