//! How a record begins, before calls overlap.
//!
//! A test bench often fills its tables first, one call after another. A search for an order needs none of the
//! rows that no later call names. Without them each copy of its server is small.

use crate::event::Event;
use crate::fingerprints::mark_of_key;
use crate::moves::{Act, Move};
use crate::request::Request;
use std::alloc::Global;
use std::collections::BTreeSet;
use xa_server::Server;
use xa_xid::{Key, NoMemory, Statement};

/// The row that the statement names, if it names one.
fn key_of(statement: &Statement) -> Option<&Key> {
    match statement {
        Statement::Get(key) => Some(key),
        Statement::Put(key, _) => Some(key),
        Statement::Del(key) => Some(key),
        _ => None,
    }
}

/// Returns the row that the event's call reads or writes; None if the event is no call, or its call names no row.
pub fn key_called(event: &Event) -> Option<&Key> {
    match event {
        Event::Call(_, request) => match request.request() {
            Request::Statement(statement) => key_of(statement),
            Request::Unread => None,
        },
        _ => None,
    }
}

/// Whether a call stands at this place, and the return to the same session directly after it.
fn is_alone(events: &[Event], place: usize) -> bool {
    match events.get(place) {
        // This doesn't saturate: there is an event at `place`.
        Some(Event::Call(session, _)) => match events.get(place.saturating_add(1)) {
            Some(Event::Return(other, _)) => *session == *other,
            _ => false,
        },
        _ => false,
    }
}

/// Returns how many events come before calls overlap: the record begins with so many that are pairs of a call and its
/// return directly after it. The count is even. The counted events end before the first one that begins no such pair:
/// also before a lost client, a call whose answer stays unknown, or a call that is the last event.
pub fn count_alone(events: &[Event]) -> usize {
    for pair in 0..events.len() / 2 {
        let place = pair.saturating_mul(2);
        if !is_alone(events, place) {
            return place;
        }
    }
    // All are pairs. If the number of events is odd, the last one has no partner.
    events.len() / 2 * 2
}

/// The fingerprints of the rows that the events call for.
fn rows_called(alloc: Global, events: &[Event]) -> Result<BTreeSet<u64>, NoMemory> {
    let mut rows = BTreeSet::new(alloc);
    for event in events {
        if let Some(key) = key_called(event) {
            rows.insert(mark_of_key(key))?;
        }
    }
    Ok(rows)
}

/// Returns a copy of the base, with all of its rows, that has carried out those calls of the `first` events that name
/// no row, or a row for which one of the `later` events calls. The calls of `first` don't overlap. Rows are compared
/// by their fingerprints, so a call for another row with the same fingerprint is carried out too.
///
/// May return `NoMemory`.
pub fn server_for(
    alloc: Global,
    base: &Server,
    first: &[Event],
    later: &[Event],
) -> Result<Server, NoMemory> {
    let rows = rows_called(alloc, later)?;
    let mut server = base.copy()?;
    for event in first {
        if let Event::Call(session, request) = event {
            let is_needed = match key_called(event) {
                None => true,
                Some(key) => rows.contains(&mark_of_key(key)),
            };
            if is_needed {
                // Only the state is wanted: the answers are checked with the moves that the search finds (`follows`).
                let _answer = request.request().carry_out(&mut server, *session)?;
            }
        }
    }
    Ok(server)
}

/// Returns the moves through events in which calls don't overlap: each call takes effect directly after it is seen.
///
/// May return `NoMemory`.
pub fn moves_alone(alloc: Global, first: &[Event]) -> Result<Vec<Move>, NoMemory> {
    let mut moves = Vec::new(alloc);
    for event in first {
        moves.push(Move::Event)?;
        if let Event::Call(session, _) = event {
            moves.push(Move::Effect(*session, Act::Statement))?;
        }
    }
    Ok(moves)
}
