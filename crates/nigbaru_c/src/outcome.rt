//! The result of a text that C gives to a session.
ghost use Rattle.std.specs.Prelude.{◌≡◌};
ghost use Rattle.nigbaru_c.specs.Outcome.{status_of, status_of_reply, status_of_fault};

use crate::status;
use xa_endless::EndlessFault;
use xa_server::Reply;
use xa_session::Answer;
use xa_statement::SyntaxFault;

/// The result of a text that C gives to a session.
#[derive(Drop)]
pub enum Outcome {
    /// The handle holds no session.
    Vacant,
    /// The text spells no statement.
    Misspelled(SyntaxFault),
    /// The formatID is above 2^63-1.
    OutOfRange,
    /// The statement was answered.
    Answered(Answer),
    /// The statement wasn't answered.
    Unanswered(EndlessFault),
}

/// The status of a reply.
fn number_of_reply(reply: &Reply) -> u32
    ensures { result ≡ status_of_reply reply.now }
{
    match reply {
        Reply::Ok => status::OK,
        Reply::Value(Some(_)) => status::VALUE,
        Reply::Value(None) => status::NONE,
        Reply::Recovered(_) => status::LIST,
        Reply::Refused(_) => status::REFUSED,
    }
}

/// The status of a fault.
fn number_of_fault(fault: &EndlessFault) -> u32
    ensures { result ≡ status_of_fault fault.now }
{
    match fault {
        EndlessFault::Overtaken { .. } => status::OVERTAKEN,
        EndlessFault::NoMemory => status::NO_MEMORY,
        EndlessFault::Behind => status::BEHIND,
    }
}

impl Outcome {
    /// The status that C gets.
    pub(crate) fn number(&self) -> u32
        ensures { result ≡ status_of self.now }
    {
        match self {
            Outcome::Vacant => status::NO_HANDLE,
            Outcome::Misspelled(_) => status::SYNTAX,
            Outcome::OutOfRange => status::OUT_OF_RANGE,
            Outcome::Answered(answer) => number_of_reply(&answer.reply),
            Outcome::Unanswered(fault) => number_of_fault(fault),
        }
    }
}
