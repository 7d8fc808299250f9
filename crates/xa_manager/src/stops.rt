//! Every stop of a coordinator: what a recovery leaves if the coordinator was stopped there.
//!
//! It is a client of the manager that `coordinate` speaks to. For each stop a new manager gets the lines before it,
//! then a `FAIL` for each store, the line that is cut, `STOP` and `RECOVER`. What the text says of a stop isn't proved
//! (docs/PROOF.md#known-gaps): `scripts/stopped` has `coordinate` answer the same calls, and compares. What such calls
//! leave is proved, in `src/stop_laws.rt`.
ghost use Rattle.std.specs.Prelude.{◌≡◌, ◌≤◌, ◌<◌, All, length, IfOk, IfErr, IfSome, OnOk, Err};
ghost use Rattle.std.specs.Io.KnownBytes.{IsAtEnd};
ghost use Rattle.xa_lines.specs.{Calls.{Completes, Stops}, Limits.{script_bytes, script_reads}};
ghost use Rattle.xa_lines.specs.Transcript.{ConsumesMoreThan};
ghost use Rattle.xa_manager.specs.{Calls.IsWritten, Scripts.{taken as taken_of, AfterStopsFault, AppendsText}};
ghost use Rattle.xa_manager.specs.Scripts.{IsAnyText, IsFaultOfStops};

use crate::{
    Call, Ended, Manager, Response, VoteAnswer, lasting_manager, read_call, write_response,
};
use std::alloc::{AllocError, Global};
use std::collections::BTreeSet;
use std::sync::Wait;
use xa_coordinator::{Cause, Ending, Fused, LastingStore, RecoverFault, WorkFault};
use xa_lines::{
    LINE_BYTES, PieceReader, PieceWriter, ScriptFault, push_number, read_all, split_line,
    write_whole,
};
use xa_xid::{Bytes, Key, NoMemory, Statement, with_part};

/// A manager over unbounded stores.
type Lasting = Manager<Fused<LastingStore>, LastingStore>;

/// How a script of calls ended, and the text that is written for it.
#[derive(Drop)]
struct Told {
    /// How it ended.
    ended: Ended,
    /// The text.
    text: Vec<u8>,
}

/// The call, but `Unread` if it is `FAIL`, `STOP`, `RECOVER` or `SHOW`: a script whose stops are shown has none of
/// these, since at each stop a coordinator is stopped and recovers anyway. 0: no statement is wrong.
fn taken(call: Call) -> Call
    requires { IsWritten call }
    ensures call { result ≡ taken_of call }
    ensures written { IsWritten result }
{
    match call {
        Call::Fail { .. } => Call::Unread(0),
        Call::Stop => Call::Unread(0),
        Call::Recover => Call::Unread(0),
        Call::Show => Call::Unread(0),
        call => call,
    }
}

/// The call of a line of a script. `Unread` also for a line of more than 65,536 bytes, as in `coordinate`.
fn call_in(line: &[u8]) -> Call
    ensures { IsWritten result }
{
    if LINE_BYTES < line.len() {
        return Call::Unread(0);
    }
    taken(read_call(line))
}

/// The calls of a script, one of each line.
fn read_calls(alloc: Global, text: &[u8]) -> Result<Vec<Call>, NoMemory>
    ensures { IfOk result (λ calls. All IsWritten calls.items) }
{
    let mut calls = Vec::new(alloc);
    let mut rest = text;
    while !rest.is_empty() {
        let (line, lines) = split_line(rest);
        calls.push(call_in(line))?;
        rest = lines;
    }
    Ok(calls)
}

/// Whether the response tells that a session didn't answer a statement, or that memory was refused for a recovery's
/// report.
fn is_unanswered(response: &Response) -> bool {
    match response {
        Response::Worked(Err(WorkFault::Session(_))) => true,
        Response::Voted(VoteAnswer::No { cause, .. }) => matches!(cause, Cause::Session(_)),
        Response::Ended(Ending::Unfinished { cause, .. }) => matches!(cause, Cause::Session(_)),
        Response::Recovered(Err(RecoverFault::Session { .. })) => true,
        Response::Recovered(Err(RecoverFault::NoMemory)) => true,
        Response::Replied { answer: Err(_), .. } => true,
        _ => false,
    }
}

/// Has the manager, none of whose sessions reaches a limit, answer a call. Errors: `NoMemory`, also if a session didn't
/// answer a statement, since these sessions have no other fault.
fn answered<R: Wait>(
    rt: &R,
    alloc: Global,
    manager: &mut Lasting,
    call: &Call,
) -> Result<Response, NoMemory>
    requires { IsWritten call.now }
{
    let response = manager.answer_beside(rt, alloc, call)?;
    if is_unanswered(&response) {
        return Err(AllocError);
    }
    Ok(response)
}

/// A manager over `stores` new stores that has answered these calls. Errors: as for `answered`.
fn manager_after<R: Wait>(
    rt: &R,
    alloc: Global,
    calls: &[Call],
    stores: u64,
) -> Result<Lasting, NoMemory>
    requires some { 1 ≤ stores }
    requires most { stores ≤ 16 }
    requires written { All IsWritten calls.now }
{
    let mut manager = lasting_manager(alloc, stores)?;
    for call in calls {
        answered(rt, alloc, &mut manager, call)?;
    }
    Ok(manager)
}

/// Whether a call was refused: it can't be read, or there is no such store or transaction, or the transaction's stage
/// doesn't allow it. A refusal by a store isn't meant.
fn is_refusal(response: &Response) -> bool {
    match response {
        Response::Unread(_) => true,
        Response::UnknownStore(_) => true,
        Response::UnknownTransaction(_) => true,
        Response::WrongStage(_) => true,
        _ => false,
    }
}

/// A line `LINE n: CAUSE` for each call that is refused if all are carried out on new stores; an empty text if none is.
fn faulty_lines<R: Wait>(
    rt: &R,
    alloc: Global,
    calls: &[Call],
    stores: u64,
) -> Result<Vec<u8>, NoMemory>
    requires some { 1 ≤ stores }
    requires most { stores ≤ 16 }
    requires written { All IsWritten calls.now }
{
    let mut manager = lasting_manager(alloc, stores)?;
    let mut faults = Vec::new(alloc);
    for place in 0..calls.len() {
        let response = answered(rt, alloc, &mut manager, &calls[place])?;
        if is_refusal(&response) {
            faults.extend_from_slice(b"LINE ")?;
            // Lines are numbered from 1.
            push_number(&mut faults, place as u64 + 1)?;
            faults.extend_from_slice(b": ")?;
            let cause = write_response(alloc, Vec::new(alloc), manager.decisions(), &response)?;
            faults.extend_from_slice(cause.as_slice())?;
        }
    }
    Ok(faults)
}

/// How many statements the coordinator's session of each store is given if these calls are carried out on new stores.
fn given_after<R: Wait>(
    rt: &R,
    alloc: Global,
    calls: &[Call],
    stores: u64,
) -> Result<Vec<u64>, NoMemory>
    requires some { 1 ≤ stores }
    requires most { stores ≤ 16 }
    requires written { All IsWritten calls.now }
{
    let mut given = Vec::new(alloc);
    for session in manager_after(rt, alloc, calls, stores)?.into_sessions() {
        given.push(u64::MAX - session.left())?;
    }
    Ok(given)
}

/// How many more statements each session was given after a line than before it.
fn made_between(alloc: Global, before: &[u64], after: &[u64]) -> Result<Vec<u64>, NoMemory> {
    let mut made = Vec::new(alloc);
    for (was, is) in before.iter().zip(after) {
        // The lines before go alike each time, so nothing is cut off.
        made.push(is.saturating_sub(*was))?;
    }
    Ok(made)
}

/// How many calls of sessions a line makes in all stores. `NoMemory` if they are 2^64 or more: as many stops couldn't
/// be kept.
fn total(made: &[u64]) -> Result<u64, NoMemory> {
    let mut sum: u64 = 0;
    for there in made {
        sum = sum.checked_add(*there).ok_or(AllocError)?;
    }
    Ok(sum)
}

/// The key that a statement names. None if it isn't `GET`, `PUT` or `DEL`.
fn key_in(statement: &Statement) -> Option<Key> {
    match statement {
        Statement::Get(key) => Some(key.copy()),
        Statement::Put(key, _) => Some(key.copy()),
        Statement::Del(key) => Some(key.copy()),
        _ => None,
    }
}

/// The store and the key that a call names. None if it names no row.
fn row_named(call: &Call) -> Option<(u64, Key)> {
    match call {
        Call::Work {
            store,
            statement,
            ..
        } => Some((*store, key_in(statement)?)),
        Call::At { store, statement } => Some((*store, key_in(statement)?)),
        _ => None,
    }
}

/// The rows that calls name, as a store and a key, each once, ascending.
fn rows_named(alloc: Global, calls: &[Call], stores: u64) -> Result<Vec<(u64, Key)>, NoMemory> {
    let mut rows = Vec::new(alloc);
    for store in 0..stores {
        let mut keys = BTreeSet::new(alloc);
        for call in calls {
            if let Some((there, key)) = row_named(call) {
                if there == store {
                    keys.insert(key)?;
                }
            }
        }
        for key in &keys {
            rows.push((store, key.copy()))?;
        }
    }
    Ok(rows)
}

/// Appends the line `ROW k KEY VALUE` to a text; the value is `NONE` if there is none.
fn with_row(
    mut text: Vec<u8>,
    store: u64,
    key: &Key,
    value: Option<Bytes>,
) -> Result<Vec<u8>, NoMemory> {
    text.extend_from_slice(b"ROW ")?;
    push_number(&mut text, store)?;
    text.extend_from_slice(b" ")?;
    let mut text = with_part(text, key.as_slice())?;
    text.extend_from_slice(b" ")?;
    match value {
        None => text.extend_from_slice(b"NONE")?,
        Some(value) => text = with_part(text, value.as_slice())?,
    }
    text.extend_from_slice(b"\n")?;
    Ok(text)
}

/// Stops the coordinator, has a new one recover, and appends to a text what the new one answers and the committed
/// values of these rows.
fn with_recovery<R: Wait>(
    rt: &R,
    alloc: Global,
    mut manager: Lasting,
    mut text: Vec<u8>,
    rows: &[(u64, Key)],
) -> Result<Vec<u8>, NoMemory> {
    // A limit that the sessions had ends with the stop.
    manager.answer_beside(rt, alloc, &Call::Stop)?;
    let response = answered(rt, alloc, &mut manager, &Call::Recover)?;
    let answer = write_response(alloc, Vec::new(alloc), manager.decisions(), &response)?;
    text.extend_from_slice(answer.as_slice())?;
    let sessions = manager.into_sessions();
    let mut stores = Vec::new(alloc);
    for session in sessions {
        stores.push(session.into_inner())?;
    }
    for (store, key) in rows {
        // A row is named only in a store that there is.
        if let Some(kept) = stores.get(*store as usize) {
            text = with_row(text, *store, key, kept.server().value_of(key))?;
        }
    }
    Ok(text)
}

/// Lets each session pass on only so many calls that of the line's calls, of which `made` has how many go to each
/// store, just the first `calls` are made.
fn limit_each<R: Wait>(
    rt: &R,
    alloc: Global,
    manager: &mut Lasting,
    made: &[u64],
    calls: u64,
) -> Result<(), NoMemory> {
    let mut left = calls;
    for store in 0..made.len() {
        // Calls go to the stores in ascending order: one gets all of its own before the next one gets any.
        let limit = made[store].min(left);
        let fail = Call::Fail {
            store: store as u64,
            calls: limit,
        };
        manager.answer_beside(rt, alloc, &fail)?;
        left -= limit;
    }
    Ok(())
}

/// The text of a stop: `STOP l j`, where l is the number of the stopped line, from 1, and `calls`, j, says how many
/// calls of sessions were made in it; then what a recovery leaves. `made` has how many the line makes in each store.
fn stop_text<R: Wait>(
    rt: &R,
    alloc: Global,
    script: &[Call],
    stores: u64,
    place: usize,
    made: &[u64],
    calls: u64,
    rows: &[(u64, Key)],
) -> Result<Vec<u8>, NoMemory>
    requires some { 1 ≤ stores }
    requires most { stores ≤ 16 }
    requires written { All IsWritten script.now }
    requires within { place < length script.now }
{
    let mut text = Vec::from_slice(alloc, b"STOP ")?;
    push_number(&mut text, place as u64 + 1)?;
    text.extend_from_slice(b" ")?;
    push_number(&mut text, calls)?;
    text.extend_from_slice(b"\n")?;
    let mut manager = manager_after(rt, alloc, &script[..place], stores)?;
    // Without a call the line isn't begun.
    if 0 < calls {
        limit_each(rt, alloc, &mut manager, made, calls)?;
        // A session doesn't answer now, that is the stop. If memory were refused for the one statement that takes some
        // here, an XA START, a recovery would leave the same.
        manager.answer_beside(rt, alloc, &script[place])?;
    }
    with_recovery(rt, alloc, manager, text, rows)
}

/// Whether the coordinator carries the call out: it isn't another client's, nor a blank line or a comment.
fn is_own(call: &Call) -> bool {
    !matches!(call, Call::Silent | Call::At { .. })
}

/// The text of each stop: one before each call of a session that a line makes, or one if it makes none.
fn stop_texts<R: Wait>(
    rt: &R,
    alloc: Global,
    calls: &[Call],
    stores: u64,
    rows: &[(u64, Key)],
) -> Result<Vec<Vec<u8>>, NoMemory>
    requires some { 1 ≤ stores }
    requires most { stores ≤ 16 }
    requires written { All IsWritten calls.now }
{
    let mut texts = Vec::new(alloc);
    let mut before = given_after(rt, alloc, &calls[..0], stores)?;
    for place in 0..calls.len() {
        let after = given_after(rt, alloc, &calls[..place + 1], stores)?;
        let made = made_between(alloc, before.as_slice(), after.as_slice())?;
        // A coordinator stops only in lines that it carries out, also before one that makes no call.
        if is_own(&calls[place]) {
            for cut in 0..total(made.as_slice())?.max(1) {
                texts.push(stop_text(
                    rt,
                    alloc,
                    calls,
                    stores,
                    place,
                    made.as_slice(),
                    cut,
                    rows,
                )?)?;
            }
        }
        before = after;
    }
    Ok(texts)
}

/// The text for calls of which none is faulty: how many stops there are, each stop, and behind `STOP END` what a
/// recovery leaves after all calls.
fn shown_stops<R: Wait>(
    rt: &R,
    alloc: Global,
    calls: &[Call],
    stores: u64,
) -> Result<Vec<u8>, NoMemory>
    requires some { 1 ≤ stores }
    requires most { stores ≤ 16 }
    requires written { All IsWritten calls.now }
{
    let rows = rows_named(alloc, calls, stores)?;
    let stops = stop_texts(rt, alloc, calls, stores, rows.as_slice())?;
    let mut text = Vec::from_slice(alloc, b"STOPS ")?;
    push_number(&mut text, stops.len() as u64)?;
    text.extend_from_slice(b"\n")?;
    for stop in &stops {
        text.extend_from_slice(stop.as_slice())?;
    }
    text.extend_from_slice(b"STOP END\n")?;
    let manager = manager_after(rt, alloc, calls, stores)?;
    with_recovery(rt, alloc, manager, text, rows.as_slice())
}

/// Makes the text of every stop of a script, or, if calls are refused, only of these faulty lines.
fn stops_text<R: Wait>(rt: &R, alloc: Global, script: &[u8], stores: u64) -> Result<Told, NoMemory>
    requires some { 1 ≤ stores }
    requires most { stores ≤ 16 }
{
    let calls = read_calls(alloc, script)?;
    let faults = faulty_lines(rt, alloc, calls.as_slice(), stores)?;
    if !faults.is_empty() {
        return Ok(Told {
            ended: Ended::Faulty,
            text: faults,
        });
    }
    Ok(Told {
        ended: Ended::Done,
        text: shown_stops(rt, alloc, calls.as_slice(), stores)?,
    })
}

/// Shows every stop of a script of calls, or only its faulty lines: reads all of it, and writes the text.
///
/// The script has at most 1,048,576 bytes, and takes at most 2,097,152 reads. `stores`: how many unbounded
/// stores there are, in `[1, 16]`, which hold nothing at first. Nothing is written before all stops were
/// tried; the writer isn't flushed.
/// Errors: `Read` if a read failed, or too many reads were needed; `TooLong` if the script is longer;
/// `NoMemory` if an allocation failed; `Write` if a write failed or took nothing.
/// After an error: after `Write` a prefix of the text was written, after any other nothing. A reader or
/// writer that failed isn't called again.
/// May return `NoMemory`. Doesn't wait, unless the reader or the writer does.
/// Own rule: docs/COORDINATOR.md#stops.
pub fn stops_script<H: Wait, R: PieceReader, W: PieceWriter>(
    rt: &H,
    alloc: Global,
    reader: &mut R,
    writer: &mut W,
    stores: u64,
) -> Result<Ended, ScriptFault>
    requires some { 1 ≤ stores }
    requires most { stores ≤ 16 }
    // Proved (scripts, stops-read): After Ok all of a coordinator's script was read, and a whole text was written.
    //   A script had at most 1,048,576 bytes.
    ensures read { OnOk result (IsAtEnd (R.remaining reader.new)) }
    // Proved (scripts, stops-read)
    ensures written { OnOk result (AppendsText (W.contents writer.old) (W.contents writer.new)) }
    // Proved (scripts, stops-read)
    ensures short { OnOk result (IfSome (R.remaining reader.old) (λ script. length script ≤ script_bytes)) }

    // Proved (scripts, stops-fault): If showing stops fails with `Write`, a prefix of a text was written, after any
    //   other fault nothing. The fault is `Read`, `TooLong`, `Write` or `NoMemory`. `TooLong` is returned only if
    //   more than 1,048,576 bytes were read.
    ensures fault { IfErr result (λ fault. AfterStopsFault fault (W.contents writer.old) (W.contents writer.new)) }
    // Proved (scripts, stops-fault)
    ensures too_long { result ≡ Err ScriptFault.TooLong → ConsumesMoreThan script_bytes (R.remaining reader.old)
        (R.remaining reader.new) }

    // Proved (scripts, stops-streams): If stops were shown, no call on the reader or the writer failed.
    //   `Read` is returned only if the last read failed or no more reads are allowed, `Write` only if the
    //   last write failed or took nothing; a stream that failed isn't called again.
    ensures calls { OnOk result (Completes R.gives W.takes script_reads IsAnyText reader.old reader.new writer.old
        writer.new) }
    // Proved (scripts, stops-streams)
    ensures cause { IfErr result
        (λ fault. Stops R.gives R.fails W.takes W.refuses script_reads script_bytes IsAnyText IsFaultOfStops fault
        reader.old reader.new writer.old writer.new) }
{
    let script = read_all(alloc, reader)?;
    let told = stops_text(rt, alloc, script.as_slice(), stores)?;
    write_whole(writer, told.text.as_slice())?;
    Ok(told.ended)
}
