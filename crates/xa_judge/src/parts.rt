//! Cuts a record in two: free statements on some rows, and the rest.
//!
//! A session that has no branch reads and writes a row at once. If all calls that name a row are of sessions that have
//! none then, nothing else depends on the row.
ghost use Rattle.std.specs.Prelude.{◌≡◌, ◌≤◌, true, take, length, slice_get, IfOk, IfSome, option_copied};
ghost use Rattle.xa_judge.specs.Keys.{is_chosen as is_chosen_turn, is_start as is_start_of, is_ending as is_ending_of};
ghost use Rattle.xa_judge.specs.Keys.{turn_called as called_turn, turn_returned as returned_turn, turn_unknown};
ghost use Rattle.xa_judge.specs.Keys.{turn_after, FitsRow, FitsTurn, first_turns, IsCut, picked, count_in};
ghost use Rattle.xa_judge.specs.Near.{named_in};

use crate::event::{Event, Seen};
use crate::hints::session_of;
use crate::moves::Move;
use crate::request::Request;
use crate::turn::Turn;
use std::alloc::Global;
use std::collections::BTreeSet;
use xa_xid::{Key, NoMemory, SessionNo, Statement};

/// Whether a session with this turn has an open call that belongs to the chosen part.
fn is_chosen(turn: Turn) -> bool
    ensures { result ≡ is_chosen_turn turn }
{
    match turn {
        Turn::Nobody => false,
        Turn::Chosen => true,
        Turn::Other => false,
        Turn::Within => false,
        Turn::Rest => false,
        Turn::Ending => false,
    }
}

/// Returns whether a session with this turn has no open call and no branch.
pub fn is_nobody(turn: Turn) -> bool
    ensures { result ≡ true → turn ≡ Turn.Nobody }
{
    match turn {
        Turn::Nobody => true,
        Turn::Chosen => false,
        Turn::Other => false,
        Turn::Within => false,
        Turn::Rest => false,
        Turn::Ending => false,
    }
}

/// The part of a statement on a row: `true` for the chosen one, `false` for the rest. `keys` has the chosen rows, and
/// `turn` is the session's before it calls. None if the statement may stand in neither.
fn part_of_row(keys: &BTreeSet<Key>, turn: Turn, key: &Key) -> Option<bool>
    ensures { IfSome result (λ side. FitsRow (named_in keys.now) turn key.now side) }
{
    if keys.contains(key) {
        // Only a session that has no open call and no branch may call for a chosen row.
        if is_nobody(turn) { Some(true) } else { None }
    } else if is_chosen(turn) {
        // Its open call has to end in the chosen part first.
        None
    } else {
        Some(false)
    }
}

/// The part of a call: `true` for the chosen one, `false` for the rest. `keys` has the chosen rows, and `turn` is the
/// session's before it calls. None if the call may stand in neither.
fn part_of_call(
    keys: &BTreeSet<Key>,
    turn: Turn,
    session: SessionNo,
    request: &Request,
) -> Option<bool>
    ensures { IfSome result (λ side. FitsTurn (named_in keys.now) turn (Event.Call session request.now) side) }
{
    // Only the contract needs the session.
    let _session = session;
    match request {
        Request::Statement(Statement::Get(key)) => part_of_row(keys, turn, key),
        Request::Statement(Statement::Put(key, _)) => part_of_row(keys, turn, key),
        Request::Statement(Statement::Del(key)) => part_of_row(keys, turn, key),
        // The request names no row, so it is of the rest. An open call in the chosen part would have to end there
        // first.
        _ => { if is_chosen(turn) { None } else { Some(false) } }
    }
}

/// The part of an event: `true` for the chosen one, `false` for the rest. `keys` has the chosen rows, and `turn` is
/// that of the event's session before it. None if the event may stand in neither: a call as `part_of_call` says, and
/// the loss of a client with an open call in the chosen part, as that call may take effect at any time later.
fn part_of(keys: &BTreeSet<Key>, turn: Turn, event: &Event) -> Option<bool>
    ensures { IfSome result (λ side. FitsTurn (named_in keys.now) turn event.now side) }
{
    match event {
        Event::Call(session, request) => part_of_call(keys, turn, *session, request.request()),
        // What ends a call stands where the call does.
        Event::Return(_, _) => Some(is_chosen(turn)),
        Event::Lost(_) => { if is_chosen(turn) { None } else { Some(false) } }
        Event::Unknown(_) => Some(is_chosen(turn)),
    }
}

/// Whether the request may start a branch.
fn is_start(request: &Request) -> bool
    ensures { result ≡ is_start_of request.now }
{
    matches!(request, Request::Statement(Statement::Start(_)))
}

/// Whether the request, if it is accepted, leaves its session without a branch, also one that had a branch.
fn is_ending(request: &Request) -> bool
    ensures { result ≡ is_ending_of request.now }
{
    match request {
        Request::Statement(Statement::Prepare(_)) => true,
        Request::Statement(Statement::Commit { .. }) => true,
        Request::Statement(Statement::Rollback(_)) => true,
        Request::Statement(Statement::Disconnect) => true,
        _ => false,
    }
}

/// The turn of a session that may have a branch, once it has called for this request, which belongs to the rest.
fn turn_within(request: &Request) -> Turn
    ensures { result ≡ called_turn Turn.Within request.now }
{
    if is_ending(request) {
        Turn::Ending
    } else {
        Turn::Rest
    }
}

/// The turn of a session after a call that belongs to the rest; `turn` is the one before it. A session without a branch
/// may have one only after an `XA START`.
fn turn_called(turn: Turn, request: &Request) -> Turn
    ensures { result ≡ called_turn turn request.now }
{
    // After a call that hasn't ended (`Chosen`, `Other`, `Rest`, `Ending`) this one can be seen only if the client is
    // gone. It counts as one of a session that may have a branch.
    match turn {
        Turn::Nobody => {
            if is_start(request) {
                Turn::Rest
            } else {
                Turn::Other
            }
        }
        Turn::Chosen => turn_within(request),
        Turn::Other => turn_within(request),
        Turn::Within => turn_within(request),
        Turn::Rest => turn_within(request),
        Turn::Ending => turn_within(request),
    }
}

/// The turn of a session whose call has returned `seen`; `turn` is the one before. The session has no branch after a
/// call that leaves it without one (`Chosen`, `Other`), and after an `OK` to an ending request; else it may have one.
fn turn_returned(turn: Turn, seen: &Seen) -> Turn
    ensures { result ≡ returned_turn turn seen.now }
{
    // Without an open call (`Nobody`, `Within`) no return can be seen. It counts as one to a session that may have a
    // branch.
    match turn {
        Turn::Nobody => Turn::Within,
        Turn::Chosen => Turn::Nobody,
        Turn::Other => Turn::Nobody,
        Turn::Within => Turn::Within,
        Turn::Rest => Turn::Within,
        Turn::Ending => {
            // Only `OK` says that the ending request was accepted.
            match seen {
                Seen::Ok => Turn::Nobody,
                Seen::Value(_) => Turn::Within,
                Seen::Rows(_) => Turn::Within,
                Seen::Error(_) => Turn::Within,
            }
        }
    }
}

/// The turn of a session whose call is over with an answer that isn't known: without a branch after a call that leaves
/// it without one (`Chosen`, `Other`); else it may have one, as an ending request may have been refused.
fn turn_unheard(turn: Turn) -> Turn
    ensures { result ≡ turn_unknown turn }
{
    // Without an open call (`Nobody`, `Within`) such an answer can't be seen. It counts as one to a session that may
    // have a branch.
    match turn {
        Turn::Nobody => Turn::Within,
        Turn::Chosen => Turn::Nobody,
        Turn::Other => Turn::Nobody,
        Turn::Within => Turn::Within,
        Turn::Rest => Turn::Within,
        Turn::Ending => Turn::Within,
    }
}

/// Returns the turn of the event's session after the event; `turn` is the one before it. `side` is the event's part:
/// `true` for the chosen one.
pub fn turn_past(turn: Turn, event: &Event, side: bool) -> Turn
    ensures { result ≡ turn_after turn event.now side }
{
    match event {
        Event::Call(_, request) => {
            if side {
                Turn::Chosen
            } else {
                turn_called(turn, request.request())
            }
        }
        Event::Return(_, seen) => turn_returned(turn, seen.seen()),
        // An open call may still take effect. So from here on the session counts as one that may have a branch.
        Event::Lost(_) => Turn::Within,
        Event::Unknown(_) => turn_unheard(turn),
    }
}

/// Returns the turns before all events, 17 of them: one at the place of each session's number, from 1 to 16, and one
/// at place 0, which no session has. No session has an open call or a branch.
///
/// May return `NoMemory`.
#[tactic(auto, unfolding(crate::specs::Keys::first_turns))]
pub fn nobody(alloc: Global) -> Result<Vec<Turn>, NoMemory>
    ensures { IfOk result (λ turns. turns.items ≡ first_turns) }
{
    let mut turns = Vec::new(alloc);
    for _ in 0..17usize {
        turns.push(Turn::Nobody)?;
    }
    Ok(turns)
}

/// Returns the part of each event: `true` for calls for rows with these keys, by sessions that have no branch then,
/// and for the events that end these calls; `false` for the others. None if the record can't be cut like this: some
/// event may stand in neither part (`part_of`).
///
/// May return `NoMemory`.
pub fn sides_of(
    alloc: Global,
    keys: &BTreeSet<Key>,
    events: &[Event],
) -> Result<Option<Vec<bool>>, NoMemory>
    ensures { IfOk result (λ found. IfSome found
        (λ sides. IsCut (named_in keys.now) first_turns sides.items events.now)) }
{
    let mut turns = nobody(alloc)?;
    let mut sides = Vec::new(alloc);
    for event in events {
        let place = session_of(event).get() as usize;
        // There is a turn for each session's number, so it isn't missing.
        let Some(turn) = turns.get(place) else {
            return Ok(None);
        };
        let Some(side) = part_of(keys, *turn, event) else {
            return Ok(None);
        };
        turns[place] = turn_past(*turn, event, side);
        sides.push(side)?;
    }
    Ok(Some(sides))
}

/// Returns the same event, as one more owner of its request or of what was seen.
///
/// May return `NoMemory`.
pub fn copy_of(event: &Event) -> Result<Event, NoMemory>
    ensures { IfOk result (λ copy. copy ≡ event.now) }
{
    match event {
        Event::Call(session, request) => Ok(Event::Call(*session, request.try_clone()?)),
        Event::Return(session, seen) => Ok(Event::Return(*session, seen.try_clone()?)),
        Event::Lost(session) => Ok(Event::Lost(*session)),
        Event::Unknown(session) => Ok(Event::Unknown(*session)),
    }
}

/// Returns the events of one part, in their order; `wanted` is `true` for the chosen one. `sides` has the part of each
/// event.
///
/// May return `NoMemory`.
pub fn pick(
    alloc: Global,
    wanted: bool,
    sides: &[bool],
    events: &[Event],
) -> Result<Vec<Event>, NoMemory>
    ensures { IfOk result (λ part. part.items ≡ picked wanted sides.now events.now) }
{
    let mut part = Vec::new(alloc);
    // There are as many sides as events, but no contract says so. What only one list has is left out.
    for place in 0..sides.len().min(events.len()) {
        if sides[place] == wanted {
            part.push(copy_of(&events[place])?)?;
        }
    }
    Ok(part)
}

/// Returns how many events of one part come before this place: all of that part, if the place is past the end. `wanted`
/// is `true` for the chosen one.
pub fn count_before(sides: &[bool], wanted: bool, place: usize) -> usize
    ensures count { result ≡ count_in wanted (take place sides.now) }
    ensures few { result ≤ length sides.now }
{
    let mut count = 0;
    for index in 0..place.min(sides.len()) {
        if sides[index] == wanted {
            count += 1;
        }
    }
    count
}

/// Returns the place in the record of the event that has the place `index`, counted from 0, in one part; None if that
/// part has no more than `index` events. `wanted` is `true` for the chosen part.
pub fn place_in(sides: &[bool], wanted: bool, index: usize) -> Option<usize>
    ensures at { IfSome result (λ place. slice_get sides.now place ≡ Some wanted) }
    ensures count { IfSome result (λ place. count_in wanted (take place sides.now) ≡ index) }
{
    let mut count = 0;
    for place in 0..sides.len() {
        if sides[place] == wanted {
            if count == index {
                return Some(place);
            }
            count += 1;
        }
    }
    None
}

/// Adds to `all` the moves of one part from the place `from` on, up to its next event and with it, or all if no event
/// follows. Returns the place after the moves that were added, from which the next ones of this part are to be taken.
fn take_step(moves: &[Move], from: usize, all: &mut Vec<Move>) -> Result<usize, NoMemory> {
    for place in from..moves.len() {
        let by = moves[place];
        all.push(by)?;
        if by == Move::Event {
            // This doesn't saturate: there is a move at `place`.
            return Ok(place.saturating_add(1));
        }
    }
    Ok(moves.len())
}

/// Returns moves that may lead through the record, made of `chosen` and `rest`, moves through its parts; the caller
/// has to check them. `sides` has the part of each event, `true` for the chosen one. Acts come directly before the
/// next event of their part, or at the end, if their part has no more events.
///
/// May return `NoMemory`.
pub fn merge(
    alloc: Global,
    sides: &[bool],
    chosen: &[Move],
    rest: &[Move],
) -> Result<Vec<Move>, NoMemory> {
    let mut all = Vec::new(alloc);
    let mut in_chosen = 0;
    let mut in_rest = 0;
    for side in sides {
        if *side {
            in_chosen = take_step(chosen, in_chosen, &mut all)?;
        } else {
            in_rest = take_step(rest, in_rest, &mut all)?;
        }
    }
    // Only acts are left, so the places after them aren't needed.
    let _chosen = take_step(chosen, in_chosen, &mut all)?;
    let _rest = take_step(rest, in_rest, &mut all)?;
    Ok(all)
}
