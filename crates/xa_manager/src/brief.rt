//! Answers of few words, which take no memory.
ghost use Rattle.std.specs.Prelude.{◌≡◌, ◌≤◌, ◌++◌, Bool, List, None, IfSome, false, length, codes, decimal};
ghost use Rattle.xa_lines.specs.{Printed.reply_text, Answer.bytes_of};
ghost use Rattle.xa_manager.specs.{Served.{has_few_words, is_word}, Texts.{answer_text, ending_text, vote_text}};

use crate::{Response, VoteAnswer};
use arrayvec::ArrayVec;
use itoa::Buffer;
use xa_coordinator::{Decision, Ending, WorkFault};
use xa_lines::Answer;
use xa_server::Reply;

/// An answer of fixed words, with its line feed. Each has at most 64 bytes; `Answer::Short` has room for 160.
pub(crate) fn short_answer(text: &[u8]) -> Answer
    requires { length text.now ≤ 64 }
    ensures { bytes_of result ≡ text.now }
{
    let mut bytes = ArrayVec::new();
    // 64 bytes fit, so this never fails.
    let _ = bytes.try_extend_from_slice(text);
    Answer::Short(bytes)
}

/// The answer after a transaction began.
fn begun(number: u64) -> Answer
    ensures { bytes_of result ≡ (codes "TRANSACTION " ++ decimal number) ++ codes "\n" }
{
    let mut buffer = Buffer::new();
    let mut bytes = ArrayVec::new();
    // 12 bytes, at most 20 digits and a line feed: all of it fits.
    let _ = bytes.try_extend_from_slice(b"TRANSACTION ");
    let _ = bytes.try_extend_from_slice(buffer.format(number).as_bytes());
    let _ = bytes.try_extend_from_slice(b"\n");
    Answer::Short(bytes)
}

/// The answer for a reply of one word, `OK` or `NONE`. None if the reply has more.
fn word_of(reply: &Reply) -> Option<Answer>
    ensures words { IfSome result (λ answer. (convert : Bool)
        → bytes_of answer ≡ reply_text convert reply.now ++ codes "\n") }
    ensures none { result ≡ None → is_word reply.now ≡ false }
{
    match reply {
        Reply::Ok => Some(short_answer(b"OK\n")),
        Reply::Value(None) => Some(short_answer(b"NONE\n")),
        _ => None,
    }
}

/// The answer after a vote. None if it is a No, which has a cause.
fn vote_of(vote: &VoteAnswer) -> Option<Answer>
    ensures words { IfSome result (λ answer. bytes_of answer ≡ vote_text vote.now ++ codes "\n") }
    ensures none { result ≡ None → has_few_words (Response.Voted vote.now) ≡ false }
{
    match vote {
        VoteAnswer::Ready => Some(short_answer(b"READY\n")),
        VoteAnswer::OnePhase => Some(short_answer(b"ONE PHASE\n")),
        VoteAnswer::Nothing => Some(short_answer(b"NOTHING\n")),
        VoteAnswer::No { .. } => None,
    }
}

/// The answer after an ending. None if it lists stores or has a cause.
fn ending_of(ending: &Ending) -> Option<Answer>
    ensures words { IfSome result (λ answer. bytes_of answer ≡ ending_text ending.now ++ codes "\n") }
    ensures none { result ≡ None → has_few_words (Response.Ended ending.now) ≡ false }
{
    match ending {
        Ending::Committed => Some(short_answer(b"COMMITTED\n")),
        Ending::RolledBack => Some(short_answer(b"ROLLED BACK\n")),
        _ => None,
    }
}

/// The answer to a call that was carried out, if its words are few: it takes no memory then. None if they aren't, and
/// for a refused call and a line that is no call.
pub(crate) fn few_words(response: &Response) -> Option<Answer>
    ensures words { IfSome result (λ answer. (decisions : List Decision)
        → bytes_of answer ≡ answer_text decisions response.now) }
    ensures none { result ≡ None → has_few_words response.now ≡ false }
{
    match response {
        Response::Begun(number) => Some(begun(*number)),
        Response::NumbersSpent => Some(short_answer(b"NUMBERS SPENT\n")),
        Response::Worked(Ok(reply)) => word_of(reply),
        Response::Worked(Err(WorkFault::Lost)) => Some(short_answer(b"LOST\n")),
        Response::Voted(vote) => vote_of(vote),
        Response::Decided => Some(short_answer(b"DECIDED\n")),
        Response::Closed => Some(short_answer(b"CLOSED\n")),
        Response::Ended(ending) => ending_of(ending),
        Response::Limited => Some(short_answer(b"OK\n")),
        Response::Stopped => Some(short_answer(b"STOPPED\n")),
        Response::Replied {
            answer: Ok(reply),
            ..
        } => word_of(reply),
        _ => None,
    }
}
