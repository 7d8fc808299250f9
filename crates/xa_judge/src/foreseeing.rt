//! Configurations that are kept where later returns are known.
//!
//! In these functions `known` is the list of configurations, and `place` one of its places. `events` are those of the
//! record, or of its beginning, and `places` has what is known of the open call of each session, at the session's
//! number: where it returns, or that it isn't heard of any more.
ghost use Rattle.std.specs.Prelude.{◌≡◌, ◌<◌, true, false, None, Some, slice_get, vec_len, length, IfOk, OnOk};
ghost use Rattle.xa_judge.specs.{declared.configuration.Configuration.Configuration as Found, Found.{config_of, Has}};
ghost use Rattle.xa_judge.specs.Explained.{Config, answer_to, effect_of, observed, shows_answer, IsSession};
ghost use Rattle.xa_judge.specs.Foreseen.{hints_of, IsAllowed, ReplacesFor, ExtendsBy, HasNextFor, HasSeenFor};
ghost use Rattle.xa_judge.specs.{Persistent.{IsIn, IsExpandedFor, IsTriedFor, AreClosedFor}, Late.call_is_answered};

use crate::client_state::ClientState;
use crate::configuration::Configuration;
use crate::effort::Effort;
use crate::event::{Event, Seen};
use crate::fingerprint_index::FingerprintIndex;
use crate::hints::{hint_at, is_never_heard};
use crate::known::{add, fit};
use crate::moves::Act;
use crate::open_call::OpenCall;
use crate::persistent::persistent;
use crate::quiet::{is_still_now, settled_one};
use crate::request::Request;
use crate::shared_lists::SharedLists;
use std::alloc::Global;
use xa_xid::{NoMemory, SessionNo};

/// The configuration `one` after the open call of the session of this number has taken effect, if the call can do so at
/// once: what it returns is known, it would now be answered that, and it changes nothing (`settled_one`). Else `one`
/// itself, also if no session has this number.
fn settled_at(
    one: Configuration,
    events: &[Event],
    places: &[OpenCall],
    number: u64,
    lists: &mut SharedLists,
) -> Result<Configuration, NoMemory>
    ensures { IfOk result
        (λ new. ReplacesFor (hints_of events.now places.now) (config_of one) (config_of new)) }
{
    match SessionNo::of(number) {
        None => Ok(one),
        Some(session) => match hint_at(events, places, session) {
            None => Ok(one),
            Some(seen) => {
                let new = settled_one(one, session, seen, lists)?;
                Ok(new)
            }
        },
    }
}

/// The configuration `one` after all calls that can take effect at once have done so (`settled_at`).
fn settled(
    one: Configuration,
    events: &[Event],
    places: &[OpenCall],
    lists: &mut SharedLists,
) -> Result<Configuration, NoMemory>
    ensures { IfOk result
        (λ new. ReplacesFor (hints_of events.now places.now) (config_of one) (config_of new)) }
{
    let mut here = one;
    // The numbers of sessions are those from 1 to 16. Their order doesn't matter, since none of these calls changes the
    // state.
    for number in 1..17 {
        here = settled_at(here, events, places, number, lists)?;
    }
    Ok(here)
}

/// Whether the session's request, if it takes effect now, is answered what `seen` shows.
fn fits_now(
    one: &Configuration,
    session: SessionNo,
    request: &Request,
    seen: &Seen,
) -> Result<bool, NoMemory>
    ensures { IfOk result (λ fits. fits ≡ shows_answer seen.now (answer_to one.now.server session request.now)) }
{
    let answer = one.server.answer(session, request)?;
    Ok(seen.shows(&answer))
}

/// Whether acts of the session have to be tried in the configuration `one`. False only if the session's open call would
/// now be answered otherwise than it is known to return, or if no event shows its answer any more and the call is known
/// to change nothing now.
fn is_allowed(
    one: &Configuration,
    events: &[Event],
    places: &[OpenCall],
    session: SessionNo,
) -> Result<bool, NoMemory>
    ensures { IfOk result (λ yes. yes ≡ false
        → IsAllowed (hints_of events.now places.now) (config_of one.now) session
        → ⊥) }
{
    match one.client(session) {
        // Only the act of a client that waits for its answer is ruled out. Others are tried, which does no harm if none
        // can take effect.
        None => Ok(true),
        Some(ClientState::Idle) => Ok(true),
        Some(ClientState::Called(request)) => match hint_at(events, places, session) {
            Some(seen) => fits_now(one, session, request.request(), seen),
            None => {
                // Nothing is known of how the call ends, so any answer may be the right one.
                if !is_never_heard(events, places, session) {
                    return Ok(true);
                }
                let still = is_still_now(&one.server, session, request.request())?;
                Ok(!still)
            }
        },
        Some(ClientState::Answered(_)) => Ok(true),
        Some(ClientState::Gone(_)) => Ok(true),
        Some(ClientState::Left) => Ok(true),
    }
}

/// Adds the configuration to which the session's act leads from the one at this place, if the act can take effect.
/// Calls that can take effect at once do so after the act (`settled`). Nothing is added if one of the list is known to
/// be the same as the configuration after that.
fn add_effect(
    known: &mut Vec<Configuration>,
    index: &mut FingerprintIndex,
    place: usize,
    events: &[Event],
    places: &[OpenCall],
    session: SessionNo,
    act: Act,
) -> Result<(), NoMemory>
    requires { place < vec_len known.old }
    ensures grows { OnOk result (ExtendsBy known.old.items known.new.items) }
    ensures has { OnOk result
        ((one : Found) (new : Config)
        → slice_get known.old.items place ≡ Some one
        → effect_of (config_of one) session act ≡ Some new
        → (other : Config) × Has known.new.items other
        × ReplacesFor (hints_of events.now places.now) new other) }
{
    match known[place].effected(session, act, &mut index.lists)? {
        None => Ok(()),
        Some(next) => {
            let new = settled(next, events, places, &mut index.lists)?;
            add(known, index, new)?;
            Ok(())
        }
    }
}

/// Adds what acts of the session lead to from the configuration at this place, if `is_allowed` says that they have to
/// be tried there.
fn add_allowed(
    known: &mut Vec<Configuration>,
    index: &mut FingerprintIndex,
    place: usize,
    events: &[Event],
    places: &[OpenCall],
    session: SessionNo,
) -> Result<(), NoMemory>
    requires { place < vec_len known.old }
    ensures grows { OnOk result (ExtendsBy known.old.items known.new.items) }
    ensures has { OnOk result ((one : Found) → slice_get known.old.items place ≡ Some one
        → HasNextFor (hints_of events.now places.now) (config_of one) session known.new.items) }
{
    let allowed = is_allowed(&known[place], events, places, session)?;
    if !allowed {
        return Ok(());
    }
    add_effect(known, index, place, events, places, session, Act::Statement)?;
    add_effect(
        known,
        index,
        place,
        events,
        places,
        session,
        Act::Disconnect,
    )?;
    Ok(())
}

/// Adds what allowed acts (`is_allowed`) of the sessions in `all` lead to from the configuration at this place. `all`
/// has `true` at the places of their numbers.
fn add_all(
    known: &mut Vec<Configuration>,
    index: &mut FingerprintIndex,
    place: usize,
    events: &[Event],
    places: &[OpenCall],
    all: &[bool; 17],
) -> Result<(), NoMemory>
    requires { place < vec_len known.old }
    ensures grows { OnOk result (ExtendsBy known.old.items known.new.items) }
    ensures all { OnOk result ((one : Found) → slice_get known.old.items place ≡ Some one
        → IsExpandedFor (hints_of events.now places.now) all.now 17 (config_of one) known.new.items) }
{
    // The numbers of sessions are those from 1 to 16.
    for number in 1..17 {
        add_number(known, index, place, events, places, all, number)?;
    }
    Ok(())
}

/// Adds what allowed acts lead to from the configuration at this place, unless `session` is answered there: acts of
/// those sessions that have to be tried before it is (`persistent`).
fn expand(
    known: &mut Vec<Configuration>,
    index: &mut FingerprintIndex,
    place: usize,
    events: &[Event],
    places: &[OpenCall],
    session: SessionNo,
) -> Result<(), NoMemory>
    requires { place < vec_len known.old }
    ensures grows { OnOk result (ExtendsBy known.old.items known.new.items) }
    ensures all { OnOk result ((one : Found) → slice_get known.old.items place ≡ Some one
        → call_is_answered (config_of one) session ≡ false
        → IsTriedFor (hints_of events.now places.now) session (config_of one) known.new.items) }
{
    // Acts after that answer can as well come after the event.
    if known[place].is_answered(session) {
        return Ok(());
    }
    let all = persistent(&known[place], session)?;
    add_all(known, index, place, events, places, &all)?;
    Ok(())
}

/// Adds what allowed acts of the session of this number lead to from the configuration at this place; nothing if no
/// session has this number, or if it isn't in `all`, which has `true` at the places of the numbers of its sessions.
fn add_number(
    known: &mut Vec<Configuration>,
    index: &mut FingerprintIndex,
    place: usize,
    events: &[Event],
    places: &[OpenCall],
    all: &[bool; 17],
    number: u64,
) -> Result<(), NoMemory>
    requires place { place < vec_len known.old }
    requires number { number < 17 }
    ensures grows { OnOk result (ExtendsBy known.old.items known.new.items) }
    ensures has { OnOk result ((one : Found) → slice_get known.old.items place ≡ Some one → IsSession number
        → IsIn all.now number → HasNextFor (hints_of events.now places.now) (config_of one) number known.new.items) }
{
    if !all[number as usize] {
        return Ok(());
    }
    match SessionNo::of(number) {
        None => Ok(()),
        Some(session) => {
            add_allowed(known, index, place, events, places, session)?;
            Ok(())
        }
    }
}

/// Adds to `known` configurations to which allowed acts (`is_allowed`) lead from those in it, each after the calls that
/// can take effect at once: all that have to be tried before the session's call ends. Where the session is answered, no
/// act is tried; else acts of those sessions that `persistent` says. Returns true; or false, with perhaps not all of
/// them added, if `effort` doesn't allow more.
///
/// May return `NoMemory`.
pub fn close(
    known: &mut Vec<Configuration>,
    index: &mut FingerprintIndex,
    events: &[Event],
    places: &[OpenCall],
    session: SessionNo,
    effort: &Effort,
) -> Result<bool, NoMemory>
    ensures grows { OnOk result (ExtendsBy known.old.items known.new.items) }
    ensures closed { IfOk result (λ done. done ≡ true
        → AreClosedFor (hints_of events.now places.now) session (length known.new.items) known.new.items) }
{
    // The index begins anew: what a fingerprint reads may have changed since places were taken up (`settle`).
    index.clear();
    let mut place = 0;
    // `expand` adds at the end, so what it adds is expanded later too.
    while place < known.len() {
        if !effort.allows(known.len(), index) {
            return Ok(false);
        }
        expand(known, index, place, events, places, session)?;
        place += 1;
    }
    Ok(true)
}

/// Adds to `list` the configuration to which the event leads from `one`, if the event can be seen there. Calls that can
/// take effect at once do so after the event (`settled`). Nothing is added if one of the list is known to be the same
/// as the configuration after that.
fn add_seen(
    list: &mut Vec<Configuration>,
    index: &mut FingerprintIndex,
    one: Configuration,
    event: &Event,
    events: &[Event],
    places: &[OpenCall],
) -> Result<(), NoMemory>
    ensures grows { OnOk result (ExtendsBy list.old.items list.new.items) }
    ensures has { OnOk result ((next : Config) → observed (config_of one) event.now ≡ Some next
        → (other : Config) × Has list.new.items other × ReplacesFor (hints_of events.now places.now) next other) }
{
    match one.observed(event)? {
        None => Ok(()),
        Some(next) => {
            let new = settled(next, events, places, &mut index.lists)?;
            add(list, index, new)?;
            Ok(())
        }
    }
}

/// Returns the configurations to which the event leads from those of `known` in which it can be seen, in reverse order,
/// each after the calls that can take effect at once. Of those that are known to be the same only one is kept. `places`
/// has what is known of open calls after the event.
///
/// May return `NoMemory`.
pub fn see_all(
    alloc: Global,
    mut known: Vec<Configuration>,
    index: &mut FingerprintIndex,
    event: &Event,
    events: &[Event],
    places: &[OpenCall],
) -> Result<Vec<Configuration>, NoMemory>
    ensures { IfOk result
        (λ list. HasSeenFor (hints_of events.now places.now) event.now (Has known.items) (Has list.items)) }
{
    index.go_on(event)?;
    let count = known.len();
    let mut list = Vec::new(alloc);
    while let Some(one) = known.pop() {
        // How each keeps its server depends on how many there are.
        let one = fit(one, count, index.records())?;
        add_seen(&mut list, index, one, event, events, places)?;
    }
    // If one configuration is left, the rows written so far may be forgotten.
    index.settle(list.len());
    Ok(list)
}
