//! Looks for the event at which a record is refuted, where later returns are known. Nothing proved is taken from it.

use crate::effort::Effort;
use crate::event::Event;
use crate::fingerprint_index::FingerprintIndex;
use crate::foreseen::{opened, sweep_on};
use crate::frontier::Frontier;
use crate::hints::next_return;
use crate::swept::Swept;
use std::alloc::Global;
use xa_server::Server;
use xa_xid::NoMemory;

/// The place of the first call that stands before `place` and is known to return after `place`; `place` itself, if
/// there is none.
fn first_open(events: &[Event], place: usize) -> usize {
    for early in 0..place {
        // The last argument names a call whose return is to be unknown. No call is at `events.len()`, so each return
        // is known.
        if let Some(later) = next_return(events, early, events.len())
            && later > place
        {
            return early;
        }
    }
    place
}

/// A copy of `front`, which is what is kept before the event at the place `from`. Its index is a new one that has seen
/// the events before `from`.
fn copy_of(
    alloc: Global,
    front: &Frontier,
    events: &[Event],
    from: usize,
) -> Result<Frontier, NoMemory> {
    let mut index = FingerprintIndex::new(alloc);
    // `from` is at most `events.len()`, but no clause says so, and each `events[place]` must exist.
    for place in 0..from.min(events.len()) {
        index.go_on(&events[place])?;
    }
    // The index of `front` may have forgotten written rows at an earlier event. The new one may still list them: that
    // costs time, and changes nothing else.
    index.settle(front.known.len());
    let mut known = Vec::new(alloc);
    for one in front.known.iter() {
        known.push(one.copy()?)?;
    }
    Ok(Frontier {
        known,
        trunk: front.trunk.clone()?,
        places: front.places.clone()?,
        index,
    })
}

/// Of the events from `least` to `most`, the place of the first one after which nothing is left if the record ends
/// there; found by halving. Each sweep begins with `front`, what is kept before the event at the place `from`. None
/// if a sweep was given up. `most` isn't tried: it is returned if something is left after each event before it.
fn halved(
    alloc: Global,
    front: &Frontier,
    events: &[Event],
    from: usize,
    least: usize,
    most: usize,
    effort: &mut Effort,
) -> Result<Option<usize>, NoMemory> {
    let mut low = least;
    let mut high = most;
    // Each round at least halves `high - low`, a number of 64 bits, so 64 rounds make it 0.
    for _ in 0..64usize {
        if low >= high {
            break;
        }
        let middle = low + (high - low) / 2;
        // As if the record ended with the event at `middle`: no later return is known. `middle` is the place of an
        // event, but nothing promises that, and `split_at` requires it.
        let (upto, _) = events.split_at((middle + 1).min(events.len()));
        let count = upto.len();
        // Never the case, as `from` is at most `least`, and so at most `middle`. `sweep_on` requires it.
        if from > count {
            break;
        }
        let start = copy_of(alloc, front, events, from)?;
        // No call is at the place `count`, so no return up to `middle` is left out (`asked`).
        match sweep_on(alloc, start, upto, from, count, count, effort)? {
            Swept::Unknown => return Ok(None),
            Swept::Nothing(place, _) => {
                // Something was left after each event before `place`. If the record ends earlier, fewer returns are
                // known, and no less is left: none of those events is the one sought.
                low = low.max(place);
                high = middle;
            }
            Swept::Kept(_) => low = middle + 1,
        }
    }
    Ok(Some(high))
}

/// Returns the place of the first event after which no configuration is left, if only the events up to it are known,
/// and so no later return. The caller expects it among the places from `least` to `most`. None if a sweep through the
/// events was given up, as when `effort` allows no more, or if nothing is left after one of those gone through first.
///
/// If a call returns at `least` or before, its return is known whichever of these places is tried. So the events
/// before the first call that returns later are gone through first, and only once.
///
/// May return `NoMemory`.
pub fn first_refuted(
    alloc: Global,
    base: &Server,
    events: &[Event],
    least: usize,
    most: usize,
    effort: &mut Effort,
) -> Result<Option<usize>, NoMemory> {
    let from = first_open(events, least);
    // Never the case, as `least` is the place of an event. `sweep_on` requires it.
    if from > events.len() {
        return Ok(None);
    }
    let first = opened(alloc, base)?;
    match sweep_on(alloc, first, events, 0, from, events.len(), effort)? {
        Swept::Unknown => Ok(None),
        Swept::Nothing(_, _) => Ok(None),
        Swept::Kept(front) => halved(alloc, &front, events, from, least, most, effort),
    }
}
