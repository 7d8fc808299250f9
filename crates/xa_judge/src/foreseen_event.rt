//! What one more event does to the configurations that are kept where later returns are known.
//!
//! In these functions `event` is the next one of `events`. `places` has what is known of open calls before it, and
//! `later` what is known of them after it.
ghost use Rattle.std.specs.Prelude.{◌≡◌, slice_set, IfOk, IfSome};
ghost use Rattle.xa_judge.specs.{Foreseen.{hints_of, FitsHints, IsAdvanceFor, NeedsNone}, Advances.IsCallOf};
ghost use Rattle.xa_judge.specs.Keys.{session_of as session_in};

use crate::advance::none_unheard;
use crate::configuration::Configuration;
use crate::effort::Effort;
use crate::event::Event;
use crate::fingerprint_index::FingerprintIndex;
use crate::foreseeing::{close, see_all};
use crate::hints::session_of;
use crate::open_call::OpenCall;
use std::alloc::Global;
use xa_xid::{NoMemory, SessionNo};

/// The configurations after an event before which acts may have to take effect: a return, or an answer that stays
/// unknown. Those acts are tried first (`close`). None if that takes more than `effort` allows.
fn see_closed(
    alloc: Global,
    mut known: Vec<Configuration>,
    index: &mut FingerprintIndex,
    event: &Event,
    events: &[Event],
    places: &[OpenCall],
    later: &[OpenCall],
    effort: &Effort,
) -> Result<Option<Vec<Configuration>>, NoMemory>
    requires fits { FitsHints (hints_of events.now places.now) event.now }
    requires later { (entry : _) × (later.now ≡ slice_set places.now (session_in event.now) entry) }
    ensures { IfOk result (λ found. IfSome found (λ list. IsAdvanceFor (hints_of events.now places.now)
        (hints_of events.now later.now) event.now known.items list.items)) }
{
    let session = session_of(event);
    let is_closed = close(&mut known, index, events, places, session, effort)?;
    if !is_closed {
        return Ok(None);
    }
    let list = see_all(alloc, known, index, event, events, later)?;
    Ok(Some(list))
}

/// The configurations after an event that no act has to precede. Never None: it is an `Option` as in `see_closed`.
fn see_open(
    alloc: Global,
    known: Vec<Configuration>,
    index: &mut FingerprintIndex,
    event: &Event,
    events: &[Event],
    places: &[OpenCall],
    later: &[OpenCall],
) -> Result<Option<Vec<Configuration>>, NoMemory>
    requires fits { FitsHints (hints_of events.now places.now) event.now }
    requires later { (entry : _) × (later.now ≡ slice_set places.now (session_in event.now) entry) }
    requires needs { NeedsNone known.items event.now }
    ensures { IfOk result (λ found. IfSome found (λ list. IsAdvanceFor (hints_of events.now places.now)
        (hints_of events.now later.now) event.now known.items list.items)) }
{
    // Only the contract names them.
    let _places = places;
    let list = see_all(alloc, known, index, event, events, later)?;
    Ok(Some(list))
}

/// The configurations after `event`, a call of the session. None if in one of `known` the session's client is gone with
/// an open call that may still take effect: acts would have to come before the new call, and that isn't tried here.
fn see_call(
    alloc: Global,
    known: Vec<Configuration>,
    index: &mut FingerprintIndex,
    session: SessionNo,
    event: &Event,
    events: &[Event],
    places: &[OpenCall],
    later: &[OpenCall],
) -> Result<Option<Vec<Configuration>>, NoMemory>
    requires call { IsCallOf session event.now }
    requires fits { FitsHints (hints_of events.now places.now) event.now }
    requires later { (entry : _) × (later.now ≡ slice_set places.now (session_in event.now) entry) }
    ensures { IfOk result (λ found. IfSome found (λ list. IsAdvanceFor (hints_of events.now places.now)
        (hints_of events.now later.now) event.now known.items list.items)) }
{
    if !none_unheard(known.as_slice(), session) {
        return Ok(None);
    }
    see_open(alloc, known, index, event, events, places, later)
}

/// Returns the configurations after `event`, one of `events`; `places` has what is known of open calls before it,
/// `later` after it. Or None, if to find them takes more than `effort` allows, or if a session calls whose client is
/// gone with an open call.
///
/// May return `NoMemory`.
pub fn see_one(
    alloc: Global,
    known: Vec<Configuration>,
    index: &mut FingerprintIndex,
    event: &Event,
    events: &[Event],
    places: &[OpenCall],
    later: &[OpenCall],
    effort: &Effort,
) -> Result<Option<Vec<Configuration>>, NoMemory>
    requires fits { FitsHints (hints_of events.now places.now) event.now }
    requires later { (entry : _) × (later.now ≡ slice_set places.now (session_in event.now) entry) }
    ensures { IfOk result (λ found. IfSome found (λ list. IsAdvanceFor (hints_of events.now places.now)
        (hints_of events.now later.now) event.now known.items list.items)) }
{
    match event {
        Event::Call(session, _) => {
            see_call(alloc, known, index, *session, event, events, places, later)
        }
        Event::Return(_, _) => see_closed(
            alloc, known, index, event, events, places, later, effort,
        ),
        // What the session has called for may take effect after it too.
        Event::Lost(_) => see_open(alloc, known, index, event, events, places, later),
        // What the session has called for took effect before it or never will.
        Event::Unknown(_) => see_closed(alloc, known, index, event, events, places, later, effort),
    }
}
