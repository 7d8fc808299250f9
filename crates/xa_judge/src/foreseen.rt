//! Judges events by configurations that are kept where later returns are known.
ghost use Rattle.std.specs.Prelude.{◌≡◌, ◌<◌, ◌≤◌, [], true, Some, List, length, drop, slice_get, IfOk, IfSome, OnOk};
ghost use Rattle.std.specs.List.{Contains};
ghost use Rattle.xa_judge.specs.declared.{answer.Answer.Answer as AnswerSeen, event.Event.Event as EventSeen};
ghost use Rattle.xa_judge.specs.{declared.moves.Move.Move as Moved, Explained.{Config, opening_config, LeadsThrough}};
ghost use Rattle.xa_judge.specs.{Found.{Has, IsAnsweredIn}, Foreseen.{hints_of, GoesOn}};
ghost use Rattle.xa_judge.specs.Verdicts.{IsAnswerAfter, IsVerdict};

use crate::client_state::ClientState;
use crate::closing::answers_in;
use crate::effort::Effort;
use crate::event::{Event, Seen};
use crate::fingerprint_index::FingerprintIndex;
use crate::following::follows;
use crate::foreseeing::close;
use crate::foreseen_event::see_one;
use crate::frontier::Frontier;
use crate::halving::first_refuted;
use crate::hints::{
    are_unknown, fits, is_blank, last_call, last_place, later_places, no_places, note_unheard,
};
use crate::known::opening;
use crate::refuting::refuted;
use crate::shared_answer::SharedAnswer;
use crate::swept::Swept;
use crate::trunk::{path_of, share};
use crate::verdict::Verdict;
use std::alloc::Global;
use xa_server::Server;
use xa_xid::{NoMemory, SessionNo};

/// Goes on from `front`, what is kept before the event at the place `from`, through the events before the place
/// `until`. Returns what is kept then, or after which event nothing is left, or that it gave up (`Swept`). What the
/// call at the place `asked` returns is taken as unknown; if there is no such call, `asked` is a place after all
/// events. Gives up if `effort` allows no more, if a session calls whose client is gone with an open call, or if an
/// event doesn't fit what was known of its call. What is done is taken off `effort`.
///
/// May return `NoMemory`.
pub fn sweep_on(
    alloc: Global,
    front: Frontier,
    events: &[Event],
    from: usize,
    until: usize,
    asked: usize,
    effort: &mut Effort,
) -> Result<Swept, NoMemory>
    requires order { from ≤ until }
    requires within { until ≤ length events.now }
    ensures { IfOk result (λ swept. (last : _) (end : Config) → swept ≡ Swept.Kept last
        → GoesOn (hints_of events.now front.places.items) (Has front.known.items) (drop from events.now) end
        → GoesOn (hints_of events.now last.places.items) (Has last.known.items) (drop until events.now) end) }
{
    let Frontier {
        mut known,
        mut trunk,
        mut places,
        mut index,
    } = front;
    for place in from..until {
        let event = &events[place];
        // Orders that don't fit what was known were left out. So if the event itself doesn't fit that, nothing follows
        // from what is kept.
        if !fits(events, places.as_slice(), place, event) {
            return Ok(Swept::Unknown);
        }
        let later = later_places(events, &places, place, event, asked)?;
        let before = places.as_slice();
        let after = later.as_slice();
        known = match see_one(
            alloc, known, &mut index, event, events, before, after, effort,
        )? {
            None => return Ok(Swept::Unknown),
            Some(list) => list,
        };
        effort.spend(&mut index);
        if known.is_empty() {
            let count = events.len();
            // The returns of the calls that are open before the event, and of those that are open after it: each may
            // have refuted what was kept.
            let last = last_place(before, place, count).max(last_place(after, place, count));
            return Ok(Swept::Nothing(place, last));
        }
        places = later;
        note_unheard(events, &mut places, place, event, asked);
        share(alloc, place, &mut trunk, &mut known)?;
    }
    Ok(Swept::Kept(Frontier {
        known,
        trunk,
        places,
        index,
    }))
}

/// Returns what is kept before all events.
///
/// May return `NoMemory`.
pub fn opened(alloc: Global, base: &Server) -> Result<Frontier, NoMemory>
    ensures { IfOk result (λ front. (events : List EventSeen) (moves : List Moved) (end : Config)
        → LeadsThrough (opening_config base.now) events moves end
        → GoesOn (hints_of events front.places.items) (Has front.known.items) events end) }
{
    // This does nothing at run time. The proof needs it: what is kept stands only for states with the lock law.
    base.keeps_lock_law();
    Ok(Frontier {
        known: opening(alloc, base)?,
        trunk: Vec::new(alloc),
        places: no_places(alloc)?,
        index: FingerprintIndex::new(alloc),
    })
}

/// Goes through all events, from the opening on, as `sweep_on` does; `asked` has the same role.
fn sweep(
    alloc: Global,
    base: &Server,
    events: &[Event],
    asked: usize,
    effort: &mut Effort,
) -> Result<Swept, NoMemory>
    ensures { IfOk result (λ swept. (front : _) (moves : List Moved) (end : Config) → swept ≡ Swept.Kept front
        → LeadsThrough (opening_config base.now) events.now moves end
        → GoesOn (hints_of events.now front.places.items) (Has front.known.items) [] end) }
{
    let first = opened(alloc, base)?;
    let swept = sweep_on(alloc, first, events, 0, events.len(), asked, effort)?;
    Ok(swept)
}

/// `front`, what is kept after the events, with what allowed acts lead to from there before the session is answered: so
/// each answer that the session can have is among the configurations. None if finding them takes more than `effort`
/// allows, if it is known what some open call returns, or if it is known how the session's call ends.
fn closed_front(
    front: Frontier,
    events: &[Event],
    session: SessionNo,
    effort: &mut Effort,
) -> Result<Option<Frontier>, NoMemory>
    ensures { IfOk result (λ found. IfSome found (λ closed. (end : Config) (answer : AnswerSeen)
        → GoesOn (hints_of events.now front.places.items) (Has front.known.items) [] end
        → slice_get end.clients session ≡ Some (ClientState.Answered answer)
        → IsAnsweredIn closed.known.items session answer)) }
{
    let Frontier {
        known,
        trunk,
        places,
        mut index,
    } = front;
    let mut all = known;
    let at = places.as_slice();
    let is_closed = close(&mut all, &mut index, events, at, session, effort)?;
    // If it is known what a call returns, orders that answer it otherwise are left out. If the session's call isn't
    // heard of any more, it is tried only where it changes something.
    if !is_closed || !are_unknown(events, at) || !is_blank(events, at, session) {
        return Ok(None);
    }
    Ok(Some(Frontier {
        known: all,
        trunk,
        places,
        index,
    }))
}

/// Configurations after the events that have every answer which the session can have then. What the session's last
/// call returns is taken as unknown. None if going through the events was given up, if nothing is left, or if
/// `closed_front` has none.
fn front_after(
    alloc: Global,
    base: &Server,
    events: &[Event],
    session: SessionNo,
    effort: &mut Effort,
) -> Result<Option<Frontier>, NoMemory>
    ensures { IfOk result (λ found. IfSome found (λ front. (answer : AnswerSeen)
        → IsAnswerAfter base.now events.now session answer
        → IsAnsweredIn front.known.items session answer)) }
{
    match sweep(alloc, base, events, last_call(events, session), effort)? {
        Swept::Unknown => Ok(None),
        Swept::Nothing(_, _) => Ok(None),
        Swept::Kept(front) => {
            let closed = closed_front(front, events, session, effort)?;
            Ok(closed)
        }
    }
}

/// Whether one of the answers is known to be the same as this one.
fn is_among(answers: &[SharedAnswer], answer: &SharedAnswer) -> bool
    ensures { result ≡ true → Contains answers.now answer.now }
{
    for other in answers {
        if other.is_same(answer) {
            return true;
        }
    }
    false
}

/// Adds the answer, unless one of `answers` is known to be the same.
fn add_answer(answers: &mut Vec<SharedAnswer>, answer: &SharedAnswer) -> Result<(), NoMemory>
    ensures keeps { OnOk result ((other : AnswerSeen) → Contains answers.old.items other
        → Contains answers.new.items other) }
    ensures has { OnOk result (Contains answers.new.items answer.now) }
{
    if is_among(answers.as_slice(), answer) {
        return Ok(());
    }
    answers.push(answer.try_clone()?)?;
    Ok(())
}

/// The answers, without those that are known to be the same as an earlier one.
fn distinct(alloc: Global, answers: &[SharedAnswer]) -> Result<Vec<SharedAnswer>, NoMemory>
    ensures { IfOk result (λ once. (answer : AnswerSeen) → Contains answers.now answer
        → Contains once.items answer) }
{
    let mut once = Vec::new(alloc);
    for answer in answers {
        add_answer(&mut once, answer)?;
    }
    Ok(once)
}

/// The verdict ILLEGAL at this place, at which a return shows `seen` to the session, if that is none of the answers
/// which can be given there. None if it is one of them, if there are none, if not all of them are found, or if for one
/// no order that gives it is found (`refuted`). Looking for the answers is bounded by `effort`; only the contract names
/// `limit`.
fn illegal_at(
    alloc: Global,
    base: &Server,
    events: &[Event],
    place: usize,
    session: SessionNo,
    seen: &Seen,
    limit: usize,
    effort: &mut Effort,
) -> Result<Option<Verdict>, NoMemory>
    requires within { place < length events.now }
    requires returns { slice_get events.now place ≡ Some (Event.Return session seen.now) }
    ensures { IfOk result (λ found. IfSome found (IsVerdict base.now events.now limit)) }
{
    // Which answers can be given depends on the events before the return alone.
    let (first, _) = events.split_at(place);
    match front_after(alloc, base, first, session, effort)? {
        None => Ok(None),
        Some(front) => {
            let all = answers_in(alloc, front.known.as_slice(), session)?;
            let once = distinct(alloc, all.as_slice())?;
            refuted(
                alloc, base, events, place, first, session, seen, once, &front, limit,
            )
        }
    }
}

/// The verdict ILLEGAL at the event at this place; None if there is no event, if it is no return, or if it isn't found
/// to be refuted.
fn illegal_on(
    alloc: Global,
    base: &Server,
    events: &[Event],
    place: usize,
    limit: usize,
    effort: &mut Effort,
) -> Result<Option<Verdict>, NoMemory>
    ensures { IfOk result (λ found. IfSome found (IsVerdict base.now events.now limit)) }
{
    match events.get(place) {
        Some(Event::Return(session, seen)) => {
            illegal_at(
                alloc,
                base,
                events,
                place,
                *session,
                seen.seen(),
                limit,
                effort,
            )
        }
        _ => Ok(None),
    }
}

/// The verdict LEGAL, if the moves to the first of the kept configurations lead through the events; else None.
fn legal_by(
    alloc: Global,
    base: &Server,
    events: &[Event],
    front: Frontier,
    limit: usize,
) -> Result<Option<Verdict>, NoMemory>
    ensures { IfOk result (λ found. IfSome found (IsVerdict base.now events.now limit)) }
{
    // Only the contract names the limit: LEGAL doesn't depend on it.
    let _limit = limit;
    // Never empty after `sweep_on`, but no clause says so, and `path_of` requires a configuration.
    if front.known.is_empty() {
        return Ok(None);
    }
    let moves = path_of(front.trunk, front.known.as_slice())?;
    if follows(alloc, base, events, moves.as_slice())? {
        Ok(Some(Verdict::Legal(moves)))
    } else {
        Ok(None)
    }
}

/// The verdict ILLEGAL at one of the places from `least` to `most`, both included; None if that isn't found.
fn illegal_within(
    alloc: Global,
    base: &Server,
    events: &[Event],
    least: usize,
    most: usize,
    limit: usize,
) -> Result<Option<Verdict>, NoMemory>
    ensures { IfOk result (λ found. IfSome found (IsVerdict base.now events.now limit)) }
{
    // The sweep that found the two places was allowed an `Effort` of its own. All sweeps that look for the refuted
    // place are together allowed as much again, and so is the sweep that finds the answers there.
    let mut effort = Effort::new(limit, events.len());
    match first_refuted(alloc, base, events, least, most, &mut effort)? {
        None => Ok(None),
        Some(first) => {
            let mut effort = Effort::new(limit, events.len());
            illegal_on(alloc, base, events, first, limit, &mut effort)
        }
    }
}

/// Returns the verdict on the events, if it is found by sweeps (`sweep_on`) that each keep at most `limit`
/// configurations, where later returns are known; else None. All sweeps together may do three times what one `Effort`
/// allows (`illegal_within`).
///
/// May return `NoMemory`.
pub fn judge_ahead(
    alloc: Global,
    base: &Server,
    events: &[Event],
    limit: usize,
) -> Result<Option<Verdict>, NoMemory>
    // Proved (records, later-returns): A verdict that is found by the configurations that later returns allow is
    //   right for the whole record.
    ensures { IfOk result (λ found. IfSome found (IsVerdict base.now events.now limit)) }
{
    let mut effort = Effort::new(limit, events.len());
    // The place `asked` is after all events: no call is there, so no call's return is taken as unknown.
    match sweep(alloc, base, events, events.len(), &mut effort)? {
        Swept::Unknown => Ok(None),
        Swept::Kept(front) => legal_by(alloc, base, events, front, limit),
        // Something was left before the event at `place`, and returns up to the place `last` refute it: the refuted
        // event is at a place from `place` to `last`.
        Swept::Nothing(place, last) => illegal_within(alloc, base, events, place, last, limit),
    }
}
