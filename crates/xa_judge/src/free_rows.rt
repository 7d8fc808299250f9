//! Finds the free rows: those that only sessions without a branch call for, and of which no lost client leaves a call
//! open.

use crate::event::Event;
use crate::hints::{last_call, session_of};
use crate::loading::key_called;
use crate::parts::{is_nobody, nobody, turn_past};
use crate::turn::Turn;
use std::alloc::Global;
use std::collections::BTreeSet;
use xa_xid::{Key, NoMemory, SessionNo};

/// The row that the session's last call before this place names, if it names one.
fn key_before(events: &[Event], place: usize, session: SessionNo) -> Option<&Key> {
    // The place is that of an event, but nothing promises that, and `split_at` requires it.
    let (first, _) = events.split_at(place.min(events.len()));
    // If the session hasn't called, `last_call` is a place after these events.
    match first.get(last_call(first, session)) {
        None => None,
        Some(call) => key_called(call),
    }
}

/// The row for which a lost client leaves a call open, if the event at this place is the loss of that client. `turn` is
/// its session's before the event. Such a call may take effect at any time later, so the row isn't free. None if there
/// is no such row, or if it isn't free for another reason.
fn key_left(events: &[Event], place: usize, turn: Turn) -> Option<&Key> {
    match events.get(place) {
        Some(Event::Lost(session)) => {
            // With another turn no call is open, or the open call names no row that is free.
            if matches!(turn, Turn::Other) {
                key_before(events, place, *session)
            } else {
                None
            }
        }
        _ => None,
    }
}

/// Returns the keys of the rows that only sessions without a branch call for, and of which no lost client leaves a call
/// open; ascending.
///
/// May return `NoMemory`.
pub fn free_keys(alloc: Global, events: &[Event]) -> Result<Vec<Key>, NoMemory> {
    let mut turns = nobody(alloc)?;
    // `called` has the rows that are called for, and `bound` those of them that aren't free.
    let mut called = BTreeSet::new(alloc);
    let mut bound = BTreeSet::new(alloc);
    for place in 0..events.len() {
        let event = &events[place];
        let number = session_of(event).get() as usize;
        // There is a turn for each session's number, so it isn't missing.
        let Some(turn) = turns.get(number) else {
            return Ok(Vec::new(alloc));
        };
        let turn = *turn;
        if let Some(key) = key_called(event) {
            called.insert(key.copy())?;
            if !is_nobody(turn) {
                bound.insert(key.copy())?;
            }
        }
        if let Some(key) = key_left(events, place, turn) {
            bound.insert(key.copy())?;
        }
        // No row is chosen yet, so every event counts as one of the rest.
        turns[number] = turn_past(turn, event, false);
    }
    let mut keys = Vec::new(alloc);
    for key in &called {
        if !bound.contains(key) {
            keys.push(key.copy())?;
        }
    }
    Ok(keys)
}
