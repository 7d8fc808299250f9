//! What is known of open calls: where each returns, or that it isn't heard of any more. In these functions `places` has
//! that of each session, at the session's number.
ghost use Rattle.std.specs.Prelude.{◌≡◌, true, false, ℕ, Some, None, List, slice_get, slice_set, length, IfOk, IfSome};
ghost use Rattle.std.specs.Option.{option_copied};
ghost use Rattle.xa_judge.specs.Foreseen.{hint_in, hint_of, hints_of, fact_of, seen_in, FitsHints, GoesOn};
ghost use Rattle.xa_judge.specs.declared.configuration.Configuration.{Configuration as Found};
ghost use Rattle.xa_judge.specs.{declared.event.Event.Event as EventSeen, Explained.Config, Found.Has};
ghost use Rattle.xa_judge.specs.Keys.{session_of as session_in};

use crate::event::{Event, Seen};
use crate::open_call::OpenCall;
use std::alloc::Global;
use xa_xid::{NoMemory, SessionNo};

/// Returns the session of the event.
pub fn session_of(event: &Event) -> SessionNo
    ensures { result ≡ session_in event.now }
{
    match event {
        Event::Call(session, _) => *session,
        Event::Return(session, _) => *session,
        Event::Lost(session) => *session,
        Event::Unknown(session) => *session,
    }
}

/// Returns the place of the session's last call; the number of events, if it has none.
pub fn last_call(events: &[Event], session: SessionNo) -> usize {
    let mut last = events.len();
    for place in 0..events.len() {
        if let Some(Event::Call(other, _)) = events.get(place)
            && *other == session
        {
            last = place;
        }
    }
    last
}

/// Returns what is known while no call is open: 17 entries, one for each session's number from 1 to 16, and entry 0,
/// which no session has.
///
/// May return `NoMemory`.
pub fn no_places(alloc: Global) -> Result<Vec<OpenCall>, NoMemory>
    ensures { IfOk result (λ places. length places.items ≡ 17) }
{
    let mut places = Vec::new(alloc);
    for _ in 0..17usize {
        places.push(OpenCall { returns: None })?;
    }
    Ok(places)
}

/// Whether it isn't known what the call of this entry returns: no place is noted, or no return stands there.
fn is_no_return(events: &[Event], entry: &OpenCall) -> bool
    ensures { result ≡ true → (hint_in events.now entry.now).seen ≡ None }
{
    match entry.returns {
        None => true,
        Some(at) => seen_at(events, at).is_none(),
    }
}

/// Whether it isn't known what the open call of the session of this number returns; true also if `places` has no such
/// entry.
fn is_no_return_at(events: &[Event], places: &[OpenCall], number: usize) -> bool
    ensures { result ≡ true → (entry : _) → slice_get places.now number ≡ Some entry
        → (hint_in events.now entry).seen ≡ None }
{
    match places.get(number) {
        None => true,
        Some(entry) => is_no_return(events, entry),
    }
}

/// Tells whether there is no open call of which it is known what it returns.
pub fn are_unknown(events: &[Event], places: &[OpenCall]) -> bool
    ensures { result ≡ true → (session : ℕ) → hint_of (hints_of events.now places.now) session ≡ None }
{
    for number in 0..places.len() {
        if !is_no_return_at(events, places, number) {
            return false;
        }
    }
    true
}

/// Tells whether nothing is known of how the session's open call ends: neither where it returns, nor that it isn't
/// heard of any more. True also if it has no open call.
pub fn is_blank(events: &[Event], places: &[OpenCall], session: SessionNo) -> bool
    ensures { result ≡ true → (fact_of (hints_of events.now places.now) session).never ≡ false }
{
    // Only the contract needs the events.
    let _events = events;
    match places.get(session.get() as usize) {
        None => true,
        Some(open) => open.returns.is_none(),
    }
}

/// Tells whether it is known that the session's open call isn't heard of any more: no event shows its answer. A place
/// after all events notes that.
pub fn is_never_heard(events: &[Event], places: &[OpenCall], session: SessionNo) -> bool
    ensures { result ≡ true → (fact_of (hints_of events.now places.now) session).never ≡ true }
{
    match places.get(session.get() as usize) {
        None => false,
        Some(open) => match open.returns {
            None => false,
            Some(place) => events.get(place).is_none(),
        },
    }
}

/// What the return at this place shows; None if no return stands there.
fn seen_at(events: &[Event], place: usize) -> Option<&Seen>
    ensures { option_copied result ≡ seen_in (slice_get events.now place) }
{
    match events.get(place) {
        None => None,
        Some(Event::Call(_, _)) => None,
        Some(Event::Return(_, seen)) => Some(seen.seen()),
        Some(Event::Lost(_)) => None,
        Some(Event::Unknown(_)) => None,
    }
}

/// Returns what the session's open call returns, as the return shows whose place `places` has; None if that isn't
/// known.
pub fn hint_at<'a>(events: &'a [Event], places: &[OpenCall], session: SessionNo) -> Option<&'a Seen>
    ensures { option_copied result ≡ hint_of (hints_of events.now places.now) session }
{
    match places.get(session.get() as usize) {
        None => None,
        Some(open) => match open.returns {
            None => None,
            Some(place) => seen_at(events, place),
        },
    }
}

/// Whether nothing is known of what the session's open call returns.
fn is_unknown(events: &[Event], places: &[OpenCall], session: SessionNo) -> bool
    ensures { result ≡ true → hint_of (hints_of events.now places.now) session ≡ None }
{
    match hint_at(events, places, session) {
        None => true,
        Some(_) => false,
    }
}

/// Whether the session's call is known to return at this place.
fn is_known_at(places: &[OpenCall], place: usize, session: SessionNo) -> bool
    ensures { result ≡ true → (entry : _) × (slice_get places.now session ≡ Some entry)
        × (entry.returns ≡ Some place) }
{
    match places.get(session.get() as usize) {
        None => false,
        Some(open) => match open.returns {
            None => false,
            Some(known) => known == place,
        },
    }
}

/// Tells whether `event`, which is at this place, fits what is known of its session's open call. A call fits always; a
/// return, if it is known to stand here or nothing is known; the loss of a client, only if nothing is known; an answer
/// that stays unknown, only if no return is known.
pub fn fits(events: &[Event], places: &[OpenCall], place: usize, event: &Event) -> bool
    requires { slice_get events.now place ≡ Some event.now }
    ensures { result ≡ true → FitsHints (hints_of events.now places.now) event.now }
{
    match event {
        // What may be known of its session is of an earlier call, and nothing of this one.
        Event::Call(_, _) => true,
        Event::Return(session, _) => {
            // If `is_blank` holds, so does `is_unknown`. Each of them promises a part of what `fits` does.
            is_known_at(places, place, *session)
                || (is_unknown(events, places, *session) && is_blank(events, places, *session))
        }
        Event::Lost(session) => {
            is_unknown(events, places, *session) && is_blank(events, places, *session)
        }
        Event::Unknown(session) => is_unknown(events, places, *session),
    }
}

/// The place of the next event of the session whose call stands at this place; None if there is none, or no call
/// stands there.
fn next_own(events: &[Event], place: usize) -> Option<usize> {
    let Some(Event::Call(session, _)) = events.get(place) else {
        return None;
    };
    for later in place.saturating_add(1)..events.len() {
        if let Some(event) = events.get(later)
            && session_of(event) == *session
        {
            return Some(later);
        }
    }
    None
}

/// Returns the place where the call at this place returns; None if no call is there, or no event shows what it is
/// answered. None also if the place is `asked`, since all answers of that call are looked for.
pub fn next_return(events: &[Event], place: usize, asked: usize) -> Option<usize> {
    if place == asked {
        return None;
    }
    let later = next_own(events, place)?;
    match events.get(later) {
        Some(Event::Return(_, _)) => Some(later),
        _ => None,
    }
}

/// Whether the call at this place isn't heard of any more: its session has no later event, or the next one is an answer
/// that stays unknown. True also if no call is there.
fn is_unheard(events: &[Event], place: usize) -> bool {
    match next_own(events, place) {
        None => true,
        Some(later) => matches!(events.get(later), Some(Event::Unknown(_))),
    }
}

/// Makes `entry` what is known of the open call of the session of this number; does nothing if `places` has no entry
/// for it.
pub fn put_open(places: &mut Vec<OpenCall>, number: usize, entry: OpenCall)
    ensures { places.new.items ≡ slice_set places.old.items number entry }
{
    if number < places.len() {
        places[number] = entry;
    }
}

/// What is known of the open call of the event's session after `event`, which is at `place`. Of the call at the place
/// `asked` it isn't known what it returns.
fn open_after(events: &[Event], place: usize, event: &Event, asked: usize) -> OpenCall {
    let returns = match event {
        Event::Call(_, _) => next_return(events, place, asked),
        // No call is open any more, or nobody hears its answer.
        _ => None,
    };
    OpenCall { returns }
}

/// Returns what is known of open calls after `event`, which is at this place; `places` has what is known of them
/// before it. Of the call at the place `asked` it isn't known what it returns.
///
/// May return `NoMemory`.
pub fn later_places(
    events: &[Event],
    places: &Vec<OpenCall>,
    place: usize,
    event: &Event,
    asked: usize,
) -> Result<Vec<OpenCall>, NoMemory>
    ensures { IfOk result (λ later. (entry : _)
        × (later.items ≡ slice_set places.now.items (session_in event.now) entry)) }
{
    let open = open_after(events, place, event, asked);
    let mut later = places.clone()?;
    put_open(&mut later, session_of(event).get() as usize, open);
    Ok(later)
}

/// Returns the last place at which one of these open calls is known to return, or `least`, if that is later. `count`
/// is the number of events. Only returns up to that place can have refuted what was kept.
pub fn last_place(places: &[OpenCall], least: usize, count: usize) -> usize {
    let mut last = least;
    for place in places {
        // A call that isn't heard of any more has a place from `count` on. It refutes nothing.
        if let Some(at) = place.returns
            && at < count
        {
            last = last.max(at);
        }
    }
    last
}

/// The entry of the session of this number, noting now that its open call isn't heard of any more; None if there is
/// no entry, or if it is known how the call ends.
fn never_heard(events: &[Event], places: &[OpenCall], number: usize) -> Option<OpenCall>
    ensures { IfSome result (λ entry. (old : _) × (slice_get places.now number ≡ Some old) × (old.returns ≡ None)) }
{
    match places.get(number) {
        None => None,
        Some(open) => match open.returns {
            Some(_) => None,
            // A place after all events notes that.
            None => Some(OpenCall {
                returns: Some(events.len()),
            }),
        },
    }
}

/// If `event`, which is at this place, is a call that isn't heard of any more (`is_unheard`), notes that in `places`.
/// Of the call at the place `asked` nothing is noted.
pub fn note_unheard(
    events: &[Event],
    places: &mut Vec<OpenCall>,
    place: usize,
    event: &Event,
    asked: usize,
)
    ensures { (known : List Found) (more : List EventSeen) (end : Config)
        → GoesOn (hints_of events.now places.old.items) (Has known) more end
        → GoesOn (hints_of events.now places.new.items) (Has known) more end }
{
    let Event::Call(session, _) = event else {
        return;
    };
    // Of the call at `asked` all answers are looked for, also one that changes nothing.
    if place == asked || !is_unheard(events, place) {
        return;
    }
    let number = session.get() as usize;
    match never_heard(events, places.as_slice(), number) {
        None => {}
        Some(entry) => put_open(places, number, entry),
    }
}
