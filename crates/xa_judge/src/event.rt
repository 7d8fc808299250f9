//! Events: what was seen at clients.
ghost use Rattle.std.specs.Prelude.{◌≡◌};
ghost use Rattle.xa_judge.specs.{Answers.answer_kept, Explained.shows_answer};

use crate::answer::Answer;
use crate::error_numbers::ErrorNumbers;
use crate::kept_answer::KeptAnswer;
use crate::same::{is_same_listed, is_same_rows, is_same_value};
use crate::shared_request::SharedRequest;
use crate::shared_seen::SharedSeen;
use xa_server::{Reply, SharedXid};
use xa_xid::{Bytes, SessionNo, Xid};

/// What a call was seen to return.
#[derive(Debug, Drop)]
pub enum Seen {
    /// The statement was carried out.
    Ok,
    /// The value of a row, or none.
    Value(Option<Bytes>),
    /// Identifiers of prepared branches. They have to be in ascending order, as the server's lists are.
    Rows(Vec<Xid>),
    /// A refusal. It stands for each of these numbers.
    Error(ErrorNumbers),
}

/// An event at a client.
#[derive(Debug, Drop)]
pub enum Event {
    /// The session calls.
    Call(SessionNo, SharedRequest),
    /// The session's call returns this.
    Return(SessionNo, SharedSeen),
    /// The session's client is gone. Its open call may still take effect, and its `DISCONNECT` after that or in place
    /// of it; each of them may also never do so.
    Lost(SessionNo),
    /// The session's call is over, with an answer that isn't known. It took effect before this event or never
    /// will.
    Unknown(SessionNo),
}

impl Seen {
    /// Whether this is what a return shows if `reply` is the server's answer to the call.
    fn shows_reply(&self, reply: &Reply) -> bool
        ensures { result ≡ shows_answer self.now (Answer.Reply reply.now) }
    {
        match self {
            Seen::Ok => match reply {
                Reply::Ok => true,
                Reply::Value(_) => false,
                Reply::Recovered(_) => false,
                Reply::Refused(_) => false,
            },
            Seen::Value(seen) => match reply {
                Reply::Ok => false,
                Reply::Value(value) => is_same_value(seen, value),
                Reply::Recovered(_) => false,
                Reply::Refused(_) => false,
            },
            Seen::Rows(rows) => match reply {
                Reply::Ok => false,
                Reply::Value(_) => false,
                Reply::Recovered(xids) => is_same_rows(rows.as_slice(), xids.as_slice()),
                Reply::Refused(_) => false,
            },
            Seen::Error(numbers) => match reply {
                Reply::Ok => false,
                Reply::Value(_) => false,
                Reply::Recovered(_) => false,
                Reply::Refused(error) => numbers.stand_for(error.number()),
            },
        }
    }

    /// Whether this is what a return shows if the answer is the list of these identifiers.
    fn shows_listed(&self, xids: &[SharedXid]) -> bool
        ensures { result ≡ shows_answer self.now (Answer.Reply (Reply.Recovered xids.now)) }
    {
        match self {
            Seen::Ok => false,
            Seen::Value(_) => false,
            Seen::Rows(rows) => is_same_listed(rows.as_slice(), xids),
            Seen::Error(_) => false,
        }
    }

    /// Tells whether a return shows this for the answer, as it is kept.
    pub(crate) fn shows_kept(&self, answer: &KeptAnswer) -> bool
        ensures { result ≡ shows_answer self.now (answer_kept answer.now) }
    {
        match answer {
            KeptAnswer::Whole(answer) => self.shows(answer),
            KeptAnswer::Listed(xids) => self.shows_listed(xids.as_slice()),
        }
    }

    /// Tells whether a return shows this for the answer.
    pub(crate) fn shows(&self, answer: &Answer) -> bool
        ensures { result ≡ shows_answer self.now answer.now }
    {
        match answer {
            Answer::Reply(reply) => self.shows_reply(reply),
            // A text that isn't a statement is answered 1064.
            Answer::Unread => match self {
                Seen::Ok => false,
                Seen::Value(_) => false,
                Seen::Rows(_) => false,
                Seen::Error(numbers) => numbers.stand_for(1064),
            },
        }
    }
}
