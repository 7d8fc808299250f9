//! Reads a record once more, after it was judged.
//!
//! The lines of a long record take more memory than anything else that is read of it. So they aren't kept
//! while it is judged. Everywhere here `strict` says whether the texts of calls are tested, as when it was read first.
ghost use Rattle.std.specs.Prelude.{◌≡◌, ◌≤◌, length, map, take, IfOk};
ghost use Rattle.xa_record.specs.{Events.AreCalls, Kept.numbered_kept, Reading.notes_by};
ghost use Rattle.xa_record.specs.VerdictText.{order_text, no_calls, line_number_at};

use crate::line_event::NumberedEvent;
use crate::order::order_lines;
use crate::reading::read_notes;
use std::alloc::Global;
use xa_judge::{Event, Move};
use xa_xid::NoMemory;

/// Returns the events of the record of this text, each with the number of its line.
///
/// May return `NoMemory`.
pub fn numbered_in(
    alloc: Global,
    strict: bool,
    text: &[u8],
) -> Result<Vec<NumberedEvent<'_>>, NoMemory>
    ensures { IfOk result (λ numbered. map numbered_kept numbered.items ≡ (notes_by strict text.now).told) }
{
    Ok(read_notes(alloc, strict, text)?.numbered)
}

/// The number of the line of the event at `place`, an index in `numbered`. 0 past the end: lines are counted from 1.
fn number_of(numbered: &[NumberedEvent], place: usize) -> u64
    ensures { result ≡ line_number_at (map numbered_kept numbered.now) place }
{
    if place < numbered.len() {
        numbered[place].number
    } else {
        0
    }
}

/// Returns the number, from 1, of the line of this text that says the event at `place`, counted from 0; 0 past the end.
///
/// May return `NoMemory`.
pub fn number_in(alloc: Global, strict: bool, text: &[u8], place: usize) -> Result<u64, NoMemory>
    ensures { IfOk result (λ number. number ≡ line_number_at (notes_by strict text.now).told place) }
{
    let numbered = numbered_in(alloc, strict, text)?;
    Ok(number_of(numbered.as_slice(), place))
}

/// Returns the lines of the order of these moves, which go through the record of this text. The events are the
/// record's.
///
/// May return `NoMemory`.
pub fn order_in(
    alloc: Global,
    strict: bool,
    text: &[u8],
    events: &[Event],
    moves: &[Move],
) -> Result<Vec<u8>, NoMemory>
    requires { AreCalls (notes_by strict text.now).told events.now }
    ensures { IfOk result (λ order. order.items ≡ order_text no_calls (notes_by strict text.now).told moves.now) }
{
    let numbered = numbered_in(alloc, strict, text)?;
    order_lines(alloc, numbered.as_slice(), events, moves)
}

/// The lines of the order of these moves, which go through the first `place` events of `numbered`: `place` isn't more
/// than there are. `events` are those of `numbered`, also from the place on.
fn order_up_to(
    alloc: Global,
    numbered: &[NumberedEvent],
    events: &[Event],
    place: usize,
    moves: &[Move],
) -> Result<Vec<u8>, NoMemory>
    requires are { AreCalls (map numbered_kept numbered.now) events.now }
    requires within { place ≤ length events.now }
    ensures { IfOk result (λ order. order.items ≡ order_text no_calls
        (take place (map numbered_kept numbered.now)) moves.now) }
{
    order_lines(alloc, &numbered[..place], &events[..place], moves)
}

/// Returns the lines of the order of these moves, which go through the events before this place, counted from 0, of the
/// record of this text. `events` are those of the whole record.
///
/// May return `NoMemory`.
pub fn order_before(
    alloc: Global,
    strict: bool,
    text: &[u8],
    events: &[Event],
    place: usize,
    moves: &[Move],
) -> Result<Vec<u8>, NoMemory>
    requires are { AreCalls (notes_by strict text.now).told events.now }
    requires within { place ≤ length events.now }
    ensures { IfOk result (λ order. order.items ≡ order_text no_calls (take place (notes_by strict text.now).told)
        moves.now) }
{
    let numbered = numbered_in(alloc, strict, text)?;
    order_up_to(alloc, numbered.as_slice(), events, place, moves)
}
