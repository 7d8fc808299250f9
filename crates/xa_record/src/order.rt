//! Writes an order that explains a record, as a script.
ghost use Rattle.std.specs.Prelude.{◌≡◌, ◌++◌, ◌∷◌, List, OnOk, IfOk, map, drop, slice_get};
ghost use Rattle.xa_judge.specs.declared.moves.Move.{Move as MoveSeen};
ghost use Rattle.xa_record.specs.Events.{request_called, IsCallOf, AreCalls};
ghost use Rattle.xa_record.specs.Kept.{told_kept, text_told, text_at, numbered_kept, calls_kept};
ghost use Rattle.xa_record.specs.VerdictText.{canonical_text, call_text, act_text, effect_text, order_text, no_calls};

use crate::last_calls::LastCalls;
use crate::line_event::{LineEvent, NumberedEvent};
use std::alloc::Global;
use xa_judge::{Act, Event, Move, Request};
use xa_lines::push_number;
use xa_statement::write_statement;
use xa_xid::{NoMemory, SessionNo, Statement};

/// Appends the canonical form of a statement, or its text if it has none.
fn push_canonical(
    alloc: Global,
    out: &mut Vec<u8>,
    statement: &Statement,
    text: &[u8],
) -> Result<(), NoMemory>
    ensures { OnOk result (out.new.items ≡ out.old.items ++ canonical_text statement.now text.now) }
{
    match statement {
        Statement::Unsupported => out.extend_from_slice(text),
        Statement::Start(_)
        | Statement::End(_)
        | Statement::Prepare(_)
        | Statement::Commit { .. }
        | Statement::Rollback(_)
        | Statement::Recover { .. }
        | Statement::Get(_)
        | Statement::Put(_, _)
        | Statement::Del(_)
        | Statement::Disconnect => {
            let canonical = write_statement(alloc, statement)?;
            out.extend_from_slice(canonical.as_slice())
        }
    }
}

/// Appends what is written for a text that a session called for, and that was read as this request: the canonical form
/// of its statement, or the text itself if it isn't a statement or has no such form.
///
/// May return `NoMemory`.
pub fn push_call(
    alloc: Global,
    out: &mut Vec<u8>,
    text: &[u8],
    request: &Request,
) -> Result<(), NoMemory>
    requires { request.now ≡ request_called text.now }
    ensures { OnOk result (out.new.items ≡ out.old.items ++ call_text text.now) }
{
    match request {
        Request::Statement(statement) => push_canonical(alloc, out, statement, text),
        Request::Unread => out.extend_from_slice(text),
    }
}

/// Appends what is called for, as `push_call` writes it, if this is a call; else nothing. `event` is that of
/// `line_event`.
fn push_called(
    alloc: Global,
    out: &mut Vec<u8>,
    line_event: &LineEvent,
    event: &Event,
) -> Result<(), NoMemory>
    requires { IsCallOf (told_kept line_event.now) event.now }
    ensures { OnOk result (out.new.items ≡ out.old.items ++ call_text (text_told (told_kept line_event.now))) }
{
    match line_event {
        LineEvent::Call(_, text) => match event {
            Event::Call(_, request) => push_call(alloc, out, text, request.request()),
            // A line of a call gives a call and nothing else, as the first clause requires.
            Event::Return(_, _) => unreachable!(),
            Event::Lost(_) => unreachable!(),
            Event::Unknown(_) => unreachable!(),
        },
        LineEvent::Return(_, _) => Ok(()),
        LineEvent::Unknown(_) => Ok(()),
        LineEvent::Lost(_) => Ok(()),
    }
}

/// Appends what is called for at `place`, an index in `numbered`. Appends nothing if `place` is None or past the end,
/// or if no call is there. `events` are those of `numbered`, one for each.
fn push_called_at(
    alloc: Global,
    out: &mut Vec<u8>,
    numbered: &[NumberedEvent],
    events: &[Event],
    place: Option<usize>,
) -> Result<(), NoMemory>
    requires { AreCalls (map numbered_kept numbered.now) events.now }
    ensures { OnOk result (out.new.items ≡ out.old.items ++ call_text
        (text_at (map numbered_kept numbered.now) place)) }
{
    match place {
        None => Ok(()),
        Some(place) => {
            if place < events.len() {
                push_called(alloc, out, &numbered[place].line_event, &events[place])
            } else {
                Ok(())
            }
        }
    }
}

/// Appends what the session's act carries out: the statement that the session called for last, at the place that
/// `calls` has for it, or `DISCONNECT`, after its client is gone. `events` are those of `numbered`.
#[tactic(auto, using(crate::proofs::Effects::text_of_last))]
fn push_act(
    alloc: Global,
    out: &mut Vec<u8>,
    numbered: &[NumberedEvent],
    events: &[Event],
    calls: &LastCalls,
    session: SessionNo,
    act: Act,
) -> Result<(), NoMemory>
    requires { AreCalls (map numbered_kept numbered.now) events.now }
    ensures { OnOk result (out.new.items ≡ out.old.items ++ act_text act
        (slice_get (calls_kept (map numbered_kept numbered.now) calls.now) session)) }
{
    match act {
        Act::Statement => push_called_at(alloc, out, numbered, events, calls.place_of(session)),
        Act::Disconnect => out.extend_from_slice(b"DISCONNECT"),
    }
}

/// Appends the line of an effect: the session's number, a blank, and what its act carries out, as `push_act` writes
/// it.
fn push_effect(
    alloc: Global,
    out: &mut Vec<u8>,
    numbered: &[NumberedEvent],
    events: &[Event],
    calls: &LastCalls,
    session: SessionNo,
    act: Act,
) -> Result<(), NoMemory>
    requires { AreCalls (map numbered_kept numbered.now) events.now }
    ensures { OnOk result (out.new.items ≡ out.old.items ++ effect_text
        (calls_kept (map numbered_kept numbered.now) calls.now) session act) }
{
    push_number(out, session.get())?;
    out.extend_from_slice(b" ")?;
    push_act(alloc, out, numbered, events, calls, session, act)?;
    out.extend_from_slice(b"\n")
}

/// Appends the line of a move, if it is an effect. A move that goes over the event at `place` has `calls` note it
/// instead, if it is a call; past the end that move does nothing. Returns the place of the next event: one more than
/// `place` if the move went over an event, and else `place`. `events` are those of `numbered`.
fn push_move(
    alloc: Global,
    out: &mut Vec<u8>,
    numbered: &[NumberedEvent],
    events: &[Event],
    calls: &mut LastCalls,
    place: usize,
    step: &Move,
) -> Result<usize, NoMemory>
    requires { AreCalls (map numbered_kept numbered.now) events.now }
    ensures { let all = map numbered_kept numbered.now in IfOk result (λ next. (moves : List MoveSeen) →
        out.old.items ++ order_text (calls_kept all calls.old) (drop place all) (step.now ∷ moves)
        ≡ out.new.items ++ order_text (calls_kept all calls.new) (drop next all) moves) }
{
    match step {
        Move::Effect(session, act) => {
            push_effect(alloc, out, numbered, events, calls, *session, *act)?;
            Ok(place)
        }
        Move::Event => {
            if place < numbered.len() {
                calls.follow(place, &numbered[place].line_event);
                Ok(place + 1)
            } else {
                Ok(place)
            }
        }
    }
}

/// Appends the effects of an order, each on a line as in a script: the session, and what its act carries out, as
/// `push_act` writes it. `moves` begin before the first event. `events` are those of `numbered`.
fn push_order(
    alloc: Global,
    out: &mut Vec<u8>,
    numbered: &[NumberedEvent],
    events: &[Event],
    moves: &[Move],
) -> Result<(), NoMemory>
    requires { AreCalls (map numbered_kept numbered.now) events.now }
    ensures { OnOk result (out.new.items ≡ out.old.items ++ order_text no_calls
        (map numbered_kept numbered.now) moves.now) }
{
    let mut calls = LastCalls::none();
    let mut place = 0;
    for step in moves {
        place = push_move(alloc, out, numbered, events, &mut calls, place, step)?;
    }
    Ok(())
}

/// Returns the lines of the order of these moves: each effect as a line of a script. `events` are those of `numbered`,
/// and the moves begin before the first of them.
///
/// May return `NoMemory`.
/// Own rule: docs/HISTORIES.md#verdicts.
pub fn order_lines(
    alloc: Global,
    numbered: &[NumberedEvent],
    events: &[Event],
    moves: &[Move],
) -> Result<Vec<u8>, NoMemory>
    requires { AreCalls (map numbered_kept numbered.now) events.now }
    // Proved (records, order-text): An order is written from the lines and their events as its definition
    //   says: statements in canonical form, and the text of the call only if there is no canonical form.
    ensures { IfOk result (λ text. text.items ≡ order_text no_calls (map numbered_kept numbered.now) moves.now) }
{
    let mut text = Vec::new(alloc);
    push_order(alloc, &mut text, numbered, events, moves)?;
    Ok(text)
}
