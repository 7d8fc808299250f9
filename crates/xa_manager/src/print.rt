//! Writing responses as text.
ghost use Rattle.std.specs.Prelude.{◌≡◌, [], ◌++◌, false, OnOk, OnErr, IfOk, codes, decimal};
ghost use Rattle.xa_lines.specs.{Answer.bytes_of, Printed.error_text};
ghost use Rattle.xa_manager.specs.{Served.has_few_words, Texts.{fault_text, cause_text, stores_text, worked_text}};
ghost use Rattle.xa_manager.specs.Texts.{vote_text, ending_text, recover_fault_text, report_text, replied_text};
ghost use Rattle.xa_manager.specs.Texts.{store_text, stores_shown_text, stands_as, numbers_text, decisions_text};
ghost use Rattle.xa_manager.specs.Texts.{response_text, answer_text};

use crate::brief::few_words;
use crate::{Response, VoteAnswer};
use std::alloc::{AllocError, Global};
use std::io::Write;
use xa_coordinator::{Cause, Decision, Decisions, Ending, RecoverFault, Report, WorkFault};
use xa_lines::{Answer, push_number, push_reply, push_syntax_fault};
use xa_server::{Reply, XaError};
use xa_session::Fault;
use xa_xid::NoMemory;

/// Appends a word as it is, its space included, and a number in decimal digits.
fn push_numbered(text: &mut Vec<u8>, word: &[u8], number: u64) -> Result<(), NoMemory>
    ensures { OnOk result (text.new.items ≡ text.old.items ++ (word.now ++ decimal number)) }
{
    text.extend_from_slice(word)?;
    push_number(text, number)
}

/// Appends a word as it is, its spaces included, and a count of a recovery's report in decimal digits.
fn push_count(text: &mut Vec<u8>, word: &[u8], count: u128) -> Result<(), NoMemory>
    ensures { OnOk result (text.new.items ≡ text.old.items ++ (word.now ++ decimal count)) }
{
    text.extend_from_slice(word)?;
    // To write into a text fails only if memory is refused.
    write!(text, "{count}").map_err(|_| AllocError)
}

/// Appends why a session didn't answer.
fn push_fault(text: &mut Vec<u8>, fault: &Fault) -> Result<(), NoMemory>
    ensures { OnOk result (text.new.items ≡ text.old.items ++ fault_text fault.now) }
{
    match fault {
        Fault::Full => text.extend_from_slice(b"log full"),
        Fault::NoMemory => text.extend_from_slice(b"out of memory"),
        // `execute` tries again after these two, so no call of a manager ends with them.
        Fault::Overtaken { .. } => text.extend_from_slice(b"overtaken"),
        Fault::Busy => text.extend_from_slice(b"busy"),
    }
}

/// Appends a refusal.
fn push_refusal(alloc: Global, text: &mut Vec<u8>, error: XaError) -> Result<(), NoMemory>
    ensures { OnOk result (text.new.items ≡ text.old.items ++ error_text error) }
{
    // A refusal has no identifiers that could be written in hexadecimal digits.
    push_reply(alloc, text, false, &Reply::Refused(error))
}

/// Appends why a store didn't carry a statement out.
fn push_cause(alloc: Global, text: &mut Vec<u8>, cause: &Cause) -> Result<(), NoMemory>
    ensures { OnOk result (text.new.items ≡ text.old.items ++ cause_text cause.now) }
{
    match cause {
        Cause::Session(fault) => push_fault(text, fault),
        Cause::Refused(error) => push_refusal(alloc, text, *error),
    }
}

/// Appends a word, a store's number, and why the store didn't carry a statement out.
fn push_store_cause(
    alloc: Global,
    text: &mut Vec<u8>,
    word: &[u8],
    store: u8,
    cause: &Cause,
) -> Result<(), NoMemory>
    ensures { OnOk result (text.new.items ≡ text.old.items
        ++ (word.now ++ decimal store ++ codes ": " ++ cause_text cause.now)) }
{
    push_numbered(text, word, u64::from(store))?;
    text.extend_from_slice(b": ")?;
    push_cause(alloc, text, cause)
}

/// Appends the result of work. LOST and replies of one word are of few words, so they don't come here.
fn push_worked(
    alloc: Global,
    text: &mut Vec<u8>,
    worked: &Result<Reply, WorkFault>,
) -> Result<(), NoMemory>
    requires { has_few_words (Response.Worked worked.now) ≡ false }
    ensures { OnOk result (text.new.items ≡ text.old.items ++ worked_text worked.now) }
{
    match worked {
        // The reply to a row statement has no identifiers that could be written in hexadecimal digits.
        Ok(reply) => push_reply(alloc, text, false, reply),
        Err(WorkFault::Session(fault)) => {
            text.extend_from_slice(b"FAULT: ")?;
            push_fault(text, fault)
        }
        // `XA START` was refused, so no branch was started.
        Err(WorkFault::Refused(error)) => {
            text.extend_from_slice(b"NOT STARTED: ")?;
            push_refusal(alloc, text, *error)
        }
        Err(WorkFault::Lost) => Ok(()),
    }
}

/// Appends a No with its cause. The other votes are of few words, so they don't come here.
fn push_vote(alloc: Global, text: &mut Vec<u8>, vote: &VoteAnswer) -> Result<(), NoMemory>
    requires { has_few_words (Response.Voted vote.now) ≡ false }
    ensures { OnOk result (text.new.items ≡ text.old.items ++ vote_text vote.now) }
{
    match vote {
        VoteAnswer::No { store, cause } => push_store_cause(alloc, text, b"NO ", *store, cause),
        VoteAnswer::Ready | VoteAnswer::OnePhase | VoteAnswer::Nothing => Ok(()),
    }
}

/// Appends the numbers of stores, each after a space.
fn push_stores(text: &mut Vec<u8>, stores: &[u8]) -> Result<(), NoMemory>
    ensures { OnOk result (text.new.items ≡ text.old.items ++ stores_text stores.now) }
{
    for store in stores {
        push_numbered(text, b" ", u64::from(*store))?;
    }
    Ok(())
}

/// Appends an ending with its stores or its cause. The others are of few words, so they don't come here.
fn push_ending(alloc: Global, text: &mut Vec<u8>, ending: &Ending) -> Result<(), NoMemory>
    requires { has_few_words (Response.Ended ending.now) ≡ false }
    ensures { OnOk result (text.new.items ≡ text.old.items ++ ending_text ending.now) }
{
    match ending {
        Ending::Committed | Ending::RolledBack => Ok(()),
        Ending::Hazard { stores } => {
            text.extend_from_slice(b"HAZARD")?;
            push_stores(text, stores.as_slice())
        }
        Ending::Unfinished { store, cause } => {
            push_store_cause(alloc, text, b"UNFINISHED ", *store, cause)
        }
    }
}

/// Appends the counts of a recovery's report. Its places (`fronts`) aren't written.
fn push_report(text: &mut Vec<u8>, report: &Report) -> Result<(), NoMemory>
    ensures { OnOk result (text.new.items ≡ text.old.items ++ report_text report.now) }
{
    push_count(text, b"RECOVERED committed ", report.committed)?;
    push_count(text, b" rolled back ", report.rolled_back)?;
    push_count(text, b" missing ", report.missing)
}

/// Appends why a recovery failed.
fn push_recover_fault(
    alloc: Global,
    text: &mut Vec<u8>,
    fault: &RecoverFault,
) -> Result<(), NoMemory>
    ensures { OnOk result (text.new.items ≡ text.old.items ++ recover_fault_text fault.now) }
{
    match fault {
        RecoverFault::Session { store, fault } => {
            let cause = Cause::Session(*fault);
            push_store_cause(alloc, text, b"UNRECOVERED ", *store, &cause)
        }
        RecoverFault::StillPrepared { store } => {
            push_numbered(text, b"STILL PREPARED ", u64::from(*store))
        }
        RecoverFault::NoMemory => text.extend_from_slice(b"UNRECOVERED: out of memory"),
        RecoverFault::Refused { store, error } => {
            let cause = Cause::Refused(*error);
            push_store_cause(alloc, text, b"UNRECOVERED ", *store, &cause)
        }
    }
}

/// Appends another client's answer, with recovered identifiers in hexadecimal digits if `convert`.
fn push_replied(
    alloc: Global,
    text: &mut Vec<u8>,
    convert: bool,
    answer: &Result<Reply, Fault>,
) -> Result<(), NoMemory>
    ensures { OnOk result (text.new.items ≡ text.old.items ++ replied_text convert answer.now) }
{
    match answer {
        Ok(reply) => push_reply(alloc, text, convert, reply),
        Err(fault) => {
            text.extend_from_slice(b"FAULT: ")?;
            push_fault(text, fault)
        }
    }
}

/// Appends a line with a store's number, and below it the answer of its other client, with a line feed.
fn push_store(
    alloc: Global,
    text: &mut Vec<u8>,
    store: u64,
    answer: &Result<Reply, Fault>,
) -> Result<(), NoMemory>
    ensures { OnOk result (text.new.items ≡ text.old.items ++ store_text store answer.now) }
{
    push_numbered(text, b"STORE ", store)?;
    text.extend_from_slice(b"\n")?;
    // It is the answer to `XA RECOVER CONVERT XID`, so identifiers are written in hexadecimal digits.
    push_replied(alloc, text, true, answer)?;
    text.extend_from_slice(b"\n")
}

/// Appends each store's number and answer, from store 0 on.
fn push_each_store(
    alloc: Global,
    text: &mut Vec<u8>,
    answers: &[Result<Reply, Fault>],
) -> Result<(), NoMemory>
    ensures { OnOk result (text.new.items ≡ text.old.items ++ stores_shown_text 0 answers.now) }
{
    for (store, answer) in answers.iter().enumerate() {
        push_store(alloc, text, store as u64, answer)?;
    }
    Ok(())
}

/// Whether a number has the wanted state.
fn stands(decision: &Decision, wanted: Decision) -> bool
    ensures { result ≡ stands_as wanted decision.now }
{
    match (wanted, decision) {
        (Decision::Undecided, Decision::Undecided) => true,
        (Decision::Decided, Decision::Decided) => true,
        (Decision::Closed, Decision::Closed) => true,
        _ => false,
    }
}

/// Appends the numbers that have the wanted state, ascending, each after a space.
fn push_numbers(
    text: &mut Vec<u8>,
    wanted: Decision,
    decisions: &[Decision],
) -> Result<(), NoMemory>
    ensures { OnOk result (text.new.items ≡ text.old.items ++ numbers_text wanted 1 decisions.now) }
{
    for (place, decision) in decisions.iter().enumerate() {
        if stands(decision, wanted) {
            // The number at place 0 is 1.
            push_numbered(text, b" ", place as u64 + 1)?;
        }
    }
    Ok(())
}

/// Appends the lines `UNDECIDED`, `DECIDED` and `CLOSED`, each with the numbers of the transactions in that state. The
/// last line has no line feed: `write_into` adds it.
fn push_decisions(text: &mut Vec<u8>, decisions: &[Decision]) -> Result<(), NoMemory>
    ensures { OnOk result (text.new.items ≡ text.old.items ++ decisions_text decisions.now) }
{
    text.extend_from_slice(b"UNDECIDED")?;
    push_numbers(text, Decision::Undecided, decisions)?;
    text.extend_from_slice(b"\nDECIDED")?;
    push_numbers(text, Decision::Decided, decisions)?;
    text.extend_from_slice(b"\nCLOSED")?;
    push_numbers(text, Decision::Closed, decisions)
}

/// Appends a response of more than few words, without the line feed at its end; nothing for `Silent`. Those of few
/// words don't come here: `few_words` has their answers.
fn push_response(
    alloc: Global,
    text: &mut Vec<u8>,
    decisions: &Decisions,
    response: &Response,
) -> Result<(), NoMemory>
    requires { has_few_words response.now ≡ false }
    ensures { OnOk result (text.new.items ≡ text.old.items ++ response_text decisions.now response.now) }
{
    match response {
        Response::Silent => Ok(()),
        Response::Unread(place) => push_syntax_fault(text, *place),
        Response::UnknownStore(store) => push_numbered(text, b"UNKNOWN STORE ", *store),
        Response::UnknownTransaction(number) => {
            push_numbered(text, b"UNKNOWN TRANSACTION ", *number)
        }
        Response::WrongStage(number) => push_numbered(text, b"WRONG STAGE ", *number),
        Response::Worked(worked) => push_worked(alloc, text, worked),
        Response::Voted(vote) => push_vote(alloc, text, vote),
        Response::Ended(ending) => push_ending(alloc, text, ending),
        Response::Recovered(Ok(report)) => push_report(text, report),
        Response::Recovered(Err(fault)) => push_recover_fault(alloc, text, fault),
        Response::Replied { convert, answer } => push_replied(alloc, text, *convert, answer),
        Response::Shown(listing) => {
            push_each_store(alloc, text, listing.answers.as_slice())?;
            push_decisions(text, decisions.as_slice())
        }
        Response::Begun(_) | Response::NumbersSpent | Response::Limited => Ok(()),
        Response::Decided | Response::Closed | Response::Stopped => Ok(()),
    }
}

/// Writes a response of more than few words into an empty text, with its line feed; nothing for a line that is no call.
fn write_into(
    alloc: Global,
    mut text: Vec<u8>,
    decisions: &Decisions,
    response: &Response,
) -> Result<Vec<u8>, NoMemory>
    requires empty { text.items ≡ [] }
    requires words { has_few_words response.now ≡ false }
    ensures { IfOk result (λ written. written.items ≡ answer_text decisions.now response.now) }
{
    // A line that is no call has no answer, not even a line feed.
    if matches!(response, Response::Silent) {
        return Ok(text);
    }
    push_response(alloc, &mut text, decisions, response)?;
    text.extend_from_slice(b"\n")?;
    Ok(text)
}

/// Writes the text of a response, each of its lines with a line feed. `Silent`, the response to no call, has an empty
/// text.
///
/// `room`: an empty text, which may have room already. `decisions`: as they are after the call.
/// Errors: `NoMemory` if the text has no room, but never for a response of few words, which takes no memory.
/// May return `NoMemory`. Doesn't wait.
/// Own rule: docs/COORDINATOR.md#calls.
pub fn write_response(
    alloc: Global,
    room: Vec<u8>,
    decisions: &Decisions,
    response: &Response,
) -> Result<Answer, NoMemory>
    requires { room.items ≡ [] }
    // Proved (manager, response-text): What is written for a response is its text, with its line feed, and
    //   nothing for a line without an answer.
    ensures text { IfOk result (λ answer. bytes_of answer ≡ answer_text decisions.now response.now) }
    // Proved (manager, response-memory): Memory is never refused for a response of few words.
    ensures few { OnErr result (has_few_words response.now ≡ false) }
{
    match few_words(response) {
        Some(answer) => Ok(answer),
        None => {
            let text = write_into(alloc, room, decisions, response)?;
            Ok(Answer::Text(text))
        }
    }
}
