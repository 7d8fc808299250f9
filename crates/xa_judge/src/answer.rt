//! Answers to requests.
ghost use Rattle.std.specs.Prelude.{◌≡◌, true, IfOk};

use crate::same::{is_same_rows, is_same_value};
use xa_server::Reply;
use xa_xid::NoMemory;

/// The answer to a request.
#[derive(Debug, Drop)]
pub enum Answer {
    /// The server's reply to a statement.
    Reply(Reply),
    /// 1064: the text isn't a statement.
    Unread,
}

/// Whether two replies are known to be the same.
fn is_same_reply(left: &Reply, right: &Reply) -> bool
    ensures { result ≡ true → left.now ≡ right.now }
{
    match left {
        Reply::Ok => matches!(right, Reply::Ok),
        Reply::Value(value) => match right {
            Reply::Value(other) => is_same_value(value, other),
            _ => false,
        },
        Reply::Recovered(xids) => match right {
            Reply::Recovered(others) => is_same_rows(xids.as_slice(), others.as_slice()),
            _ => false,
        },
        Reply::Refused(error) => match right {
            Reply::Refused(other) => *error == *other,
            _ => false,
        },
    }
}

impl Answer {
    /// Returns a copy of the answer.
    ///
    /// Errors: `NoMemory`, only for a list of identifiers.
    /// May return `NoMemory`. Doesn't wait.
    pub fn copy(&self) -> Result<Answer, NoMemory>
        ensures { IfOk result (λ copy. copy ≡ self.now) }
    {
        match self {
            Answer::Reply(reply) => Ok(Answer::Reply(reply.copy()?)),
            Answer::Unread => Ok(Answer::Unread),
        }
    }

    /// Tells whether both are known to be the same.
    pub(crate) fn is_same(&self, other: &Answer) -> bool
        ensures { result ≡ true → self.now ≡ other.now }
    {
        match self {
            Answer::Reply(reply) => match other {
                Answer::Reply(another) => is_same_reply(reply, another),
                Answer::Unread => false,
            },
            Answer::Unread => matches!(other, Answer::Unread),
        }
    }
}
