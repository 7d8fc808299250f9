//! What one more event does to the configurations that are kept.
ghost use Rattle.std.specs.Prelude.{◌≡◌, ◌<◌, true, false, vec_len, IfOk};
ghost use Rattle.xa_judge.specs.{Explained.Config, Found.Has, Late.{has_unheard, IsAnyUnheard, Widens}};
ghost use Rattle.xa_judge.specs.Advances.{IsAdvance, IsSeenFrom, IsCallOf, IsReturnOf, IsNoReturn};

use crate::closing::{answers_in, close, observe_all, settle_all};
use crate::configuration::Configuration;
use crate::event::Event;
use crate::fingerprint_index::FingerprintIndex;
use crate::shared_answer::SharedAnswer;
use std::alloc::Global;
use xa_xid::{NoMemory, SessionNo};

/// What one more event leads to.
#[derive(Drop)]
pub enum Advance {
    /// These configurations, at least one.
    Known(Vec<Configuration>),
    /// The event can't be seen, whatever acts come before it. If the event is a return, these are the answers that
    /// its call could have had; else there are none.
    Impossible(Vec<SharedAnswer>),
    /// Acts that may have to come before the event lead to more configurations than are allowed.
    TooMany,
}

/// What is left of the configurations `ready` after the event is seen in them. If nothing is left, `answers` are given
/// back. The caller takes care that these are, at a return, those that its session has in `ready`, and else none.
fn seen(
    alloc: Global,
    ready: Vec<Configuration>,
    index: &mut FingerprintIndex,
    answers: Vec<SharedAnswer>,
    event: &Event,
) -> Result<Advance, NoMemory>
    ensures { IfOk result (IsSeenFrom ready.items answers.items event.now) }
{
    let next = observe_all(alloc, ready, index, event)?;
    if next.is_empty() {
        Ok(Advance::Impossible(answers))
    } else {
        Ok(Advance::Known(next))
    }
}

/// What `event`, a return to the session `returning`, leads to. Before the return, the request of `returning` takes
/// effect, unless it has already; and before that, any acts of other sessions. The result is `TooMany` only if these
/// acts are found to lead to more than `limit` different configurations.
fn return_seen(
    alloc: Global,
    mut known: Vec<Configuration>,
    index: &mut FingerprintIndex,
    returning: SessionNo,
    event: &Event,
    limit: usize,
) -> Result<Advance, NoMemory>
    requires { IsReturnOf returning event.now }
    ensures { IfOk result (IsAdvance known.items event.now limit) }
{
    let is_closed = close(&mut known, index, &Some(returning), limit)?;
    if !is_closed {
        return Ok(Advance::TooMany);
    }
    let settled = settle_all(alloc, known, returning, &mut index.lists)?;
    let answers = answers_in(alloc, settled.as_slice(), returning)?;
    let next = seen(alloc, settled, index, answers, event)?;
    Ok(next)
}

/// What an event other than a return leads to, if the open request of its session can't take effect after the event any
/// more. So all that acts lead to is looked at before the event. The result is `TooMany` only if that is found to be
/// more than `limit` different configurations.
fn closed_seen(
    alloc: Global,
    mut known: Vec<Configuration>,
    index: &mut FingerprintIndex,
    event: &Event,
    limit: usize,
) -> Result<Advance, NoMemory>
    requires no_return { IsNoReturn event.now }
    requires widens { Widens (Has known.items) event.now }
    ensures { IfOk result (IsAdvance known.items event.now limit) }
{
    let is_closed = close(&mut known, index, &None, limit)?;
    if !is_closed {
        return Ok(Advance::TooMany);
    }
    let next = seen(alloc, known, index, Vec::new(alloc), event)?;
    Ok(next)
}

/// Tells whether in none of these configurations the session's client is gone with a call that may still take
/// effect.
pub fn none_unheard(known: &[Configuration], session: SessionNo) -> bool
    ensures none { result ≡ true → (one : Config) → Has known.now one → has_unheard one session ≡ false }
    ensures some { result ≡ false → IsAnyUnheard (Has known.now) session }
{
    for one in known {
        if one.has_unheard(session) {
            return false;
        }
    }
    true
}

/// What `event`, a call of the session `calling`, leads to. Acts have to come before it only if in some configuration
/// the session's client is gone with an earlier call that may still take effect. That is rare. Only then does `limit`
/// matter, as in `closed_seen`.
fn call_seen(
    alloc: Global,
    known: Vec<Configuration>,
    index: &mut FingerprintIndex,
    calling: SessionNo,
    event: &Event,
    limit: usize,
) -> Result<Advance, NoMemory>
    requires { IsCallOf calling event.now }
    ensures { IfOk result (IsAdvance known.items event.now limit) }
{
    if none_unheard(known.as_slice(), calling) {
        seen(alloc, known, index, Vec::new(alloc), event)
    } else {
        closed_seen(alloc, known, index, event, limit)
    }
}

/// Returns what one more event leads to from the configurations `known`; `TooMany` only if acts that may have to come
/// before the event are found to lead to more than `limit` different ones.
///
/// May return `NoMemory`.
pub fn see_event(
    alloc: Global,
    known: Vec<Configuration>,
    index: &mut FingerprintIndex,
    event: &Event,
    limit: usize,
) -> Result<Advance, NoMemory>
    // Proved (records, one-event): Every order that goes on past an event from the configurations before it also goes
    //   on from those that are kept after it. To each that is kept there are acts that lead, and they take effect as
    //   late as they can. If none is kept, no order goes on; then the listed answers are all that the session of a
    //   return could get. Otherwise acts had to take effect before this event, and led to more than `limit` different
    //   configurations.
    ensures { IfOk result (IsAdvance known.items event.now limit) }
{
    match event {
        Event::Call(session, _) => call_seen(alloc, known, index, *session, event, limit),
        Event::Return(session, _) => return_seen(alloc, known, index, *session, event, limit),
        // No act has to come before this event: what the session has called for may take effect after it too.
        Event::Lost(_) => seen(alloc, known, index, Vec::new(alloc), event),
        // What the session has called for took effect before this event, or never will.
        Event::Unknown(_) => closed_seen(alloc, known, index, event, limit),
    }
}
