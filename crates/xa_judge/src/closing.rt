//! All that can have come before an event: what acts lead to, what the event then leads to, and which answers were
//! given.
ghost use Rattle.std.specs.Prelude.{◌≡◌, ◌<◌, ℕ, List, Some, true, false, slice_get, vec_len, length, IfOk, OnOk};
ghost use Rattle.std.specs.List.{All, Contains};
ghost use Rattle.xa_judge.specs.{Explained.{Config, observed}, declared.answer.Answer.Answer, Found.{Has, IsSpread}};
ghost use Rattle.xa_judge.specs.Found.{Grows, KeepsReach, ReachesPast, IsClosedBelow, IsSettledIn, IsAnsweredIn};
ghost use Rattle.xa_judge.specs.{Found.{IsAnswerAdded, IsSeenAdded, IsSeenIn}, Late.{after_settling, IsReachedFrom}};

use crate::client_state::ClientState;
use crate::configuration::Configuration;
use crate::event::Event;
use crate::fingerprint_index::FingerprintIndex;
use crate::known::{add, expand, fit};
use crate::shared_answer::SharedAnswer;
use crate::shared_lists::SharedLists;
use std::alloc::Global;
use xa_xid::{NoMemory, SessionNo};

/// Whether the list is found to have more than `limit` configurations of which no two are the same. They are counted
/// only if the list is longer than `uncounted`, which then becomes twice its length.
fn is_too_wide(
    known: &[Configuration],
    index: &FingerprintIndex,
    limit: usize,
    uncounted: &mut usize,
) -> Result<bool, NoMemory>
    ensures { IfOk result (λ wide. wide ≡ true → IsSpread limit known.now) }
{
    // Counting takes long, so it is done only when the list has doubled since it was done last.
    if known.len() <= *uncounted {
        return Ok(false);
    }
    *uncounted = known.len().saturating_mul(2);
    index.is_spread(known, limit)
}

/// Adds to `known` all configurations to which acts lead from those in it, except acts of the session `returning`,
/// and any acts where that session is answered; if `returning` is None, no acts are left out. Returns true; or false,
/// with perhaps not all of them added, if the list is found to have more than `limit` configurations of which no two
/// are the same.
///
/// May return `NoMemory`.
pub fn close(
    known: &mut Vec<Configuration>,
    index: &mut FingerprintIndex,
    returning: &Option<SessionNo>,
    limit: usize,
) -> Result<bool, NoMemory>
    ensures grows { OnOk result (Grows known.old.items known.new.items) }
    ensures closed { IfOk result (λ done. done ≡ true → IsClosedBelow
        (length known.new.items) returning.now known.new.items) }
    ensures wide { IfOk result (λ done. done ≡ false → IsSpread limit known.new.items) }
    ensures only { OnOk result ((config : Config) → Has known.new.items config
        → IsReachedFrom (Has known.old.items) returning.now config) }
{
    // The index begins anew: what a fingerprint reads may have changed since places were taken up (`settle`).
    index.clear();
    // A list that isn't longer than the limit can't have too many.
    let mut uncounted = limit;
    let mut place = 0;
    // `expand` adds at the end, so what it adds is expanded later too.
    while place < known.len() {
        if is_too_wide(known.as_slice(), index, limit, &mut uncounted)? {
            return Ok(false);
        }
        expand(known, index, place, returning)?;
        place += 1;
    }
    Ok(true)
}

/// Returns the configurations after what the session has called for takes effect, in reverse order. A configuration
/// stays as it is if that took effect before, if the session has called for nothing, or if its client is gone.
///
/// May return `NoMemory`.
pub fn settle_all(
    alloc: Global,
    mut known: Vec<Configuration>,
    session: SessionNo,
    lists: &mut SharedLists,
) -> Result<Vec<Configuration>, NoMemory>
    ensures has { IfOk result (λ list. (one : Config) → Has known.items one
        → Has list.items (after_settling one session)) }
    ensures reach { IfOk result (λ list. KeepsReach known.items list.items) }
    ensures only { IfOk result (λ list. (config : Config) → Has list.items config
        → IsSettledIn known.items session config) }
{
    let mut list = Vec::new(alloc);
    while let Some(one) = known.pop() {
        list.push(one.settled(session, lists)?)?;
    }
    Ok(list)
}

/// Adds to `list` the configuration to which the event leads from `one`. Adds nothing if the event can't be seen in
/// `one`, or if a configuration of the list is known to be the same as the new one.
fn add_seen(
    list: &mut Vec<Configuration>,
    index: &mut FingerprintIndex,
    one: Configuration,
    event: &Event,
) -> Result<(), NoMemory>
    ensures { OnOk result (IsSeenAdded event.now one list.old.items list.new.items) }
{
    match one.observed(event)? {
        None => Ok(()),
        Some(next) => {
            add(list, index, next)?;
            Ok(())
        }
    }
}

/// Returns the configurations to which the event leads from those of `known` in which it can be seen, in reverse order.
/// Of those that are known to be the same only one is kept. After that `index` serves the new list.
///
/// May return `NoMemory`.
pub fn observe_all(
    alloc: Global,
    mut known: Vec<Configuration>,
    index: &mut FingerprintIndex,
    event: &Event,
) -> Result<Vec<Configuration>, NoMemory>
    ensures has { IfOk result (λ list. (one new : Config) → Has known.items one → observed one event.now ≡ Some new
        → Has list.items new) }
    ensures reach { IfOk result (λ list. ReachesPast event.now known.items list.items) }
    ensures only { IfOk result (λ list. (config : Config) → Has list.items config
        → IsSeenIn known.items event.now config) }
{
    index.go_on(event)?;
    let count = known.len();
    let mut list = Vec::new(alloc);
    while let Some(one) = known.pop() {
        // How each keeps its server depends on how many there are.
        let one = fit(one, count, index.records())?;
        add_seen(&mut list, index, one, event)?;
    }
    // If one configuration is left, the rows written so far may be forgotten.
    index.settle(list.len());
    Ok(list)
}

/// Adds the answer that the session has in the configuration `one`, if it has one there.
fn add_answer(
    answers: &mut Vec<SharedAnswer>,
    one: &Configuration,
    session: SessionNo,
) -> Result<(), NoMemory>
    ensures { OnOk result (IsAnswerAdded (slice_get one.now.clients.items session) answers.old.items
        answers.new.items) }
{
    match one.client(session) {
        None => Ok(()),
        Some(ClientState::Idle) => Ok(()),
        Some(ClientState::Called(_)) => Ok(()),
        Some(ClientState::Answered(answer)) => {
            answers.push(answer.try_clone()?)?;
            Ok(())
        }
        Some(ClientState::Gone(_)) => Ok(()),
        Some(ClientState::Left) => Ok(()),
    }
}

/// Returns the answers that the session has in these configurations: one for each in which it has one, so the same
/// answer may come more than once.
///
/// May return `NoMemory`.
pub fn answers_in(
    alloc: Global,
    known: &[Configuration],
    session: SessionNo,
) -> Result<Vec<SharedAnswer>, NoMemory>
    // Proved (records, answers-in): The answers listed before a return are exactly those that the kept
    //   configurations have for its session.
    ensures each { IfOk result (λ answers. All (IsAnsweredIn known.now session) answers.items) }
    // Proved (records, answers-in)
    ensures all { IfOk result
        (λ answers. (one : Config) (answer : Answer)
        → Has known.now one
        → slice_get one.clients session ≡ Some (ClientState.Answered answer)
        → Contains answers.items answer) }
{
    let mut answers = Vec::new(alloc);
    for one in known {
        add_answer(&mut answers, one, session)?;
    }
    Ok(answers)
}
