//! Writes what was seen at an ILLEGAL line, and its call.
ghost use Rattle.std.specs.{Prelude.{◌≡◌, ◌++◌, ◌<◌, None, OnOk, IfOk, map, length}, Option.option_map};
ghost use Rattle.xa_record.specs.{Events.AreCalls, Exchanges.{shown_text, seen_line, is_call_by, last_call, call_line}};
ghost use Rattle.xa_record.specs.Exchanges.{exchange_with as exchange_of, exchange_at, exchange_sought};
ghost use Rattle.xa_record.specs.{Kept.{told_kept, shown_kept, numbered_kept, exchange_kept}, Reading.notes_by};

use crate::asked::Asked;
use crate::events::{request_of, rows_in};
use crate::exchange::Exchange;
use crate::line_event::{LineEvent, NumberedEvent};
use crate::lines_again::numbered_in;
use crate::order::push_call;
use crate::shown::Shown;
use std::alloc::Global;
use xa_judge::Event;
use xa_lines::{push_number, push_reply};
use xa_server::{Reply, XidList};
use xa_xid::{NoMemory, SessionNo, copy_of};

/// Appends what a return shows, as a reply, with rows as `CONVERT XID` prints them. A refusal is only `ERROR` and its
/// number.
fn push_shown(alloc: Global, out: &mut Vec<u8>, shown: &Shown) -> Result<(), NoMemory>
    ensures { OnOk result (out.new.items ≡ out.old.items ++ shown_text (shown_kept shown.now)) }
{
    match shown {
        Shown::Ok => out.extend_from_slice(b"OK"),
        Shown::None => out.extend_from_slice(b"NONE"),
        Shown::Value(value) => push_reply(alloc, out, true, &Reply::Value(Some(copy_of(value)))),
        Shown::Rows(rows) => {
            let xids = XidList::of(rows_in(alloc, rows.as_slice())?);
            push_reply(alloc, out, true, &Reply::Recovered(xids))
        }
        Shown::Error(number) => {
            out.extend_from_slice(b"ERROR ")?;
            push_number(out, u64::from(*number))
        }
    }
}

/// What was seen, as a line of a record in canonical form. It is empty unless this is a return with a known answer.
fn seen_text(alloc: Global, line_event: &LineEvent) -> Result<Vec<u8>, NoMemory>
    ensures { IfOk result (λ text. text.items ≡ seen_line (told_kept line_event.now)) }
{
    let mut text = Vec::new(alloc);
    match line_event {
        LineEvent::Return(session, shown) => {
            push_number(&mut text, session.get())?;
            text.extend_from_slice(b" < ")?;
            push_shown(alloc, &mut text, shown)?;
            Ok(text)
        }
        LineEvent::Call(_, _) => Ok(text),
        LineEvent::Unknown(_) => Ok(text),
        LineEvent::Lost(_) => Ok(text),
    }
}

/// Tells whether this is a call by the session.
fn calls(line_event: &LineEvent, session: SessionNo) -> bool
    ensures { result ≡ is_call_by session (told_kept line_event.now) }
{
    match line_event {
        LineEvent::Call(other, _) => other.get() == session.get(),
        LineEvent::Return(_, _) => false,
        LineEvent::Unknown(_) => false,
        LineEvent::Lost(_) => false,
    }
}

/// Returns the session's last call in `numbered`; None if it has no call there.
#[tactic(auto, using(crate::proofs::Exchanged::call_found, crate::proofs::Exchanged::call_other, crate::proofs::Exchanged::call_last))]
pub fn last_call_in<'n, 'a>(
    numbered: &'n [NumberedEvent<'a>],
    session: SessionNo,
) -> Option<&'n NumberedEvent<'a>>
    ensures { last_call session None (map numbered_kept numbered.now)
        ≡ option_map (λ one. numbered_kept one.now) result }
{
    let mut found = None;
    for one in numbered {
        if calls(&one.line_event, session) {
            found = Some(one);
        }
    }
    found
}

/// A call, as a line of a record, with its text as `push_call` writes it. It is empty if this is no call.
fn call_text_of(alloc: Global, line_event: &LineEvent) -> Result<Vec<u8>, NoMemory>
    ensures { IfOk result (λ text. text.items ≡ call_line (told_kept line_event.now)) }
{
    let mut text = Vec::new(alloc);
    match line_event {
        LineEvent::Call(session, called) => {
            push_number(&mut text, session.get())?;
            text.extend_from_slice(b" > ")?;
            push_call(alloc, &mut text, called, &request_of(called))?;
            Ok(text)
        }
        LineEvent::Return(_, _) => Ok(text),
        LineEvent::Unknown(_) => Ok(text),
        LineEvent::Lost(_) => Ok(text),
    }
}

/// What was seen, with its call, if there is one: else the line is 0 and the call is empty.
fn exchange_with(
    alloc: Global,
    line_event: &LineEvent,
    call: Option<&NumberedEvent>,
) -> Result<Exchange, NoMemory>
    ensures { IfOk result (λ exchange. exchange_kept exchange
        ≡ exchange_of (told_kept line_event.now) (option_map (λ one. numbered_kept one.now) call.entry)) }
{
    let seen = seen_text(alloc, line_event)?;
    match call {
        None => Ok(Exchange {
            seen,
            line: 0,
            call: Vec::new(alloc),
        }),
        Some(one) => Ok(Exchange {
            seen,
            line: one.number,
            call: call_text_of(alloc, &one.line_event)?,
        }),
    }
}

/// What was seen at `place`, an index in `numbered`, and the last call of its session before that.
#[tactic(auto, using(crate::proofs::Exchanged::exchange_there))]
fn exchange_in(
    alloc: Global,
    numbered: &[NumberedEvent],
    place: usize,
) -> Result<Exchange, NoMemory>
    requires { place < length numbered.now }
    ensures { IfOk result (λ exchange. exchange_kept exchange
        ≡ exchange_at (map numbered_kept numbered.now) place) }
{
    let line_event = &numbered[place].line_event;
    let call = last_call_in(&numbered[..place], line_event.session());
    exchange_with(alloc, line_event, call)
}

/// What `exchange_in` returns. Only the contract needs `events`, those of `numbered`: there is one for each entry, so
/// `place` is an index in both.
fn exchange_again(
    alloc: Global,
    numbered: &[NumberedEvent],
    events: &[Event],
    place: usize,
) -> Result<Exchange, NoMemory>
    requires are { AreCalls (map numbered_kept numbered.now) events.now }
    requires within { place < length events.now }
    ensures { IfOk result (λ exchange. exchange_kept exchange
        ≡ exchange_at (map numbered_kept numbered.now) place) }
{
    exchange_in(alloc, numbered, place)
}

/// Returns what was seen at `place` in the record of this text, and its call, the last one of the session before that
/// place; None if `asked` asks for no explanation. `place` is an index in the record's events. Only the contract needs
/// these, as `events`.
///
/// May return `NoMemory`.
pub fn exchange_for(
    alloc: Global,
    asked: Asked,
    text: &[u8],
    events: &[Event],
    place: usize,
) -> Result<Option<Exchange>, NoMemory>
    requires are { AreCalls (notes_by asked.strict_calls text.now).told events.now }
    requires within { place < length events.now }
    // Proved (records, illegal-exchange): What an explained ILLEGAL verdict says was seen is what the return at its
    //   place shows, and its call is the last one of the session before that, both in canonical form.
    ensures { IfOk result (λ exchange. option_map exchange_kept exchange
        ≡ exchange_sought asked.explains (notes_by asked.strict_calls text.now).told place) }
{
    if !asked.explains {
        return Ok(None);
    }
    let numbered = numbered_in(alloc, asked.strict_calls, text)?;
    Ok(Some(exchange_again(alloc, numbered.as_slice(), events, place)?))
}
