//! The ways to a verdict that tell how far they are, each by itself; and the telling afterwards for a way that
//! doesn't.
ghost use Rattle.std.specs.Prelude.{◌+◌, ◌^◌, ◌<◌, length, IfOk, IfSome};
ghost use Rattle.xa_judge.specs.{Told.{AreReports, IsToldOf, IsSizeOfKept, seen_for}, Verdicts.IsVerdict};

use crate::advance::{Advance, see_event};
use crate::event::Event;
use crate::fingerprint_index::FingerprintIndex;
use crate::following::follows;
use crate::known::opening;
use crate::progress::{Progress, tell, tell_first};
use crate::search_size::SearchSize;
use crate::searching::moves_through;
use crate::trunk::{path_of, share};
use crate::verdict::Verdict;
use std::alloc::Global;
use xa_server::Server;
use xa_xid::NoMemory;

/// How many configurations are kept at first: most records need no more, and one that does is known soon.
const NARROW: usize = 8;

/// Judges the events by all configurations to which they can lead with acts as late as they can be. If acts that may
/// have to come before an event are found to lead to more than `limit` different configurations, the verdict is
/// UNDECIDED. `before` other events were judged already; that number matters only for `progress`.
///
/// May return `NoMemory`.
pub fn judge_in_breadth<P: Progress>(
    alloc: Global,
    base: &Server,
    before: usize,
    events: &[Event],
    limit: usize,
    progress: &mut P,
) -> Result<Verdict, NoMemory>
    requires { before + length events.now < 2 ^ 64 }
    ensures verdict { IfOk result (IsVerdict base.now events.now limit) }
    // Proved (records, progress-kept): While all configurations are kept, the number that `progress` is told is the
    //   length of a list. What was seen before the event leads to each of the list, by acts as late as they can be, and
    //   every order that goes on goes on from one of them.
    ensures told { IfOk result (λ verdict. AreReports P.judged_gives (IsSizeOfKept base.now events.now) before
        (before + length events.now) progress.old (seen_for events.now verdict) progress.new) }
{
    let mut trunk = Vec::new(alloc);
    let mut known = opening(alloc, base)?;
    let mut index = FingerprintIndex::new(alloc);
    for place in 0..events.len() {
        tell(progress, before, events, place, known.as_slice());
        known = match see_event(alloc, known, &mut index, &events[place], limit)? {
            Advance::Known(next) => next,
            Advance::Impossible(answers) => return Ok(Verdict::Illegal(place, answers)),
            Advance::TooMany => return Ok(Verdict::Undecided(place)),
        };
        share(alloc, place, &mut trunk, &mut known)?;
    }
    Ok(Verdict::Legal(path_of(trunk, known.as_slice())?))
}

/// Returns the verdict with at most `width` configurations, and at most `limit`; or None, if these aren't enough.
///
/// May return `NoMemory`.
pub fn judge_kept<P: Progress>(
    alloc: Global,
    base: &Server,
    events: &[Event],
    width: usize,
    limit: usize,
    progress: &mut P,
) -> Result<Option<Verdict>, NoMemory>
    ensures verdict { IfOk result (λ found. IfSome found (IsVerdict base.now events.now limit)) }
    ensures told { IfOk result (λ found. IsToldOf P.judged_gives events.now found progress.old progress.new) }
{
    match judge_in_breadth(alloc, base, 0, events, width.min(limit), progress)? {
        Verdict::Legal(moves) => Ok(Some(Verdict::Legal(moves))),
        Verdict::Illegal(place, answers) => Ok(Some(Verdict::Illegal(place, answers))),
        Verdict::Undecided(_) => Ok(None),
    }
}

/// Returns the verdict with at most `NARROW` configurations, and at most `limit`; or None, if these aren't enough.
///
/// May return `NoMemory`.
pub fn judge_narrow<P: Progress>(
    alloc: Global,
    base: &Server,
    events: &[Event],
    limit: usize,
    progress: &mut P,
) -> Result<Option<Verdict>, NoMemory>
    ensures verdict { IfOk result (λ found. IfSome found (IsVerdict base.now events.now limit)) }
    ensures told { IfOk result (λ found. IsToldOf P.judged_gives events.now found progress.old progress.new) }
{
    judge_kept(alloc, base, events, NARROW, limit, progress)
}

/// Returns the verdict LEGAL, if a search of this size for one order finds moves that lead through all of the events;
/// or None, which says nothing about the events. Only the contract names `limit`.
///
/// May return `NoMemory`.
pub fn judge_by_search<P: Progress>(
    alloc: Global,
    base: &Server,
    events: &[Event],
    limit: usize,
    size: SearchSize,
    progress: &mut P,
) -> Result<Option<Verdict>, NoMemory>
    ensures verdict { IfOk result (λ found. IfSome found (IsVerdict base.now events.now limit)) }
    ensures told { IfOk result (λ found. IsToldOf P.judged_gives events.now found progress.old progress.new) }
{
    match moves_through(alloc, base, events, size, progress)? {
        None => Ok(None),
        Some(moves) => {
            // Nothing is promised of the search, so its moves are checked.
            if follows(alloc, base, events, moves.as_slice())? {
                Ok(Some(Verdict::Legal(moves)))
            } else {
                Ok(None)
            }
        }
    }
}

/// Returns what was found, if it is LEGAL or ILLEGAL, else None. It was found without telling how far judging was, so
/// each event up to what decides is told here.
pub fn tell_verdict<P: Progress>(
    base: &Server,
    events: &[Event],
    found: Option<Verdict>,
    limit: usize,
    progress: &mut P,
) -> Option<Verdict>
    requires verdict { IfSome found (IsVerdict base.now events.now limit) }
    ensures verdict { IfSome result (IsVerdict base.now events.now limit) }
    ensures told { IsToldOf P.judged_gives events.now result progress.old progress.new }
{
    // Only the contract names them.
    let (_base, _limit) = (base, limit);
    match found {
        None => None,
        Some(Verdict::Legal(moves)) => {
            tell_first(progress, events, events.len());
            Some(Verdict::Legal(moves))
        }
        Some(Verdict::Illegal(place, answers)) => {
            // The event at the place was judged too: it decides.
            tell_first(progress, events, place + 1);
            Some(Verdict::Illegal(place, answers))
        }
        // Another way may decide.
        Some(Verdict::Undecided(_)) => None,
    }
}
