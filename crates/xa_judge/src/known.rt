//! Adds a configuration to a list, unless one of the list is known to be the same; adds so what acts lead to; and
//! decides which configurations have a server of their own.
ghost use Rattle.std.specs.Prelude.{◌≡◌, ◌∷◌, ◌++◌, ◌≢◌, ◌<◌, ℕ, true, false, Option, Some, slice_get, length, vec_len};
ghost use Rattle.std.specs.Prelude.{IfOk, OnOk};
ghost use Rattle.xa_judge.specs.declared.configuration.Configuration.{Configuration as Found};
ghost use Rattle.xa_judge.specs.{Explained.{Config, IsSession, effect_of}, Found.{config_of, IsOpening, Has, Grows}};
ghost use Rattle.xa_judge.specs.Found.{AddsUnlessThere, IsEffectAt, IsExpandedBelow, AddsOnly};
ghost use Rattle.xa_judge.specs.Late.{call_is_answered, is_over};

use crate::configuration::Configuration;
use crate::fingerprint_index::FingerprintIndex;
use crate::moves::Act;
use crate::room::has_room;
use std::alloc::Global;
use xa_server::Server;
use xa_xid::{NoMemory, SessionNo};

/// Shorter lists are looked through place by place: a fingerprint costs more than a few comparisons.
const LONG: usize = 16;

/// In lists shorter than this, so of up to 255, each configuration has a server of its own, if there is room. A longer
/// list would take too many copies.
const WIDE: usize = 256;

/// Returns the list with the only configuration before all events.
///
/// May return `NoMemory`.
pub fn opening(alloc: Global, base: &Server) -> Result<Vec<Configuration>, NoMemory>
    ensures { IfOk result (λ known. IsOpening base.now known.items) }
{
    let mut known = Vec::new(alloc);
    known.push(Configuration::opening(alloc, base)?)?;
    Ok(known)
}

/// Whether a configuration of the list is known to be the same as this one.
fn is_among(known: &[Configuration], one: &Configuration) -> Result<bool, NoMemory>
    ensures { IfOk result (λ found. found ≡ true → Has known.now (config_of one.now)) }
{
    for other in known {
        if one.is_same(other)? {
            return Ok(true);
        }
    }
    Ok(false)
}

/// Whether the list has this place, and the configuration there is known to be the same as this one.
fn is_at(known: &[Configuration], place: usize, one: &Configuration) -> Result<bool, NoMemory>
    ensures { IfOk result (λ found. found ≡ true → Has known.now (config_of one.now)) }
{
    match known.get(place) {
        None => Ok(false),
        Some(other) => {
            let same = one.is_same(other)?;
            Ok(same)
        }
    }
}

/// Whether one of the places that have the fingerprint of `one` has a configuration known to be the same as `one`.
/// `index` has the places of `known`.
fn is_marked(
    known: &[Configuration],
    index: &mut FingerprintIndex,
    one: &Configuration,
) -> Result<bool, NoMemory>
    ensures { IfOk result (λ found. found ≡ true → Has known.now (config_of one.now)) }
{
    let mut next = index.last_of(one)?;
    // A fingerprint has no more places than the list, so all of them are looked at.
    for _ in 0..known.len() {
        match next {
            None => return Ok(false),
            Some(place) => {
                if is_at(known, place, one)? {
                    return Ok(true);
                }
                next = index.before(place);
            }
        }
    }
    Ok(false)
}

/// Whether a configuration of the list is known to be the same as `one`. In a list of `LONG` or more, only those with
/// the fingerprint of `one` are looked at.
fn is_known(
    known: &[Configuration],
    index: &mut FingerprintIndex,
    one: &Configuration,
) -> Result<bool, NoMemory>
    ensures { IfOk result (λ found. found ≡ true → Has known.now (config_of one.now)) }
{
    if known.len() < LONG {
        return is_among(known, one);
    }
    // The index lacks the places that were added while the list was short.
    index.catch_up(known)?;
    is_marked(known, index, one)
}

/// Adds the configuration `one` at the end, unless one of the list is known to be the same.
///
/// May return `NoMemory`.
pub fn add(
    known: &mut Vec<Configuration>,
    index: &mut FingerprintIndex,
    one: Configuration,
) -> Result<(), NoMemory>
    ensures { OnOk result (AddsUnlessThere known.old.items one known.new.items) }
{
    if is_known(known.as_slice(), index, &one)? {
        return Ok(());
    }
    known.push(one)?;
    index.note(known.len())
}

/// Returns the same configuration, one of a list of `count`. It gets a server of its own if memory has room for
/// `count` such servers with `records` records each by the estimate, and `count` is less than `WIDE` or its server
/// takes long to make again (`did_much`). Else its server stays as it is kept.
///
/// May return `NoMemory`.
pub fn fit(one: Configuration, count: usize, records: usize) -> Result<Configuration, NoMemory>
    // Proved (records, kept-server)
    ensures { IfOk result (λ same. same ≡ one) }
{
    // A server of its own is quick to look at and takes memory. In a long list only those get one that are slow
    // without.
    if has_room(count, records) && (count < WIDE || one.server.did_much()) {
        one.whole()
    } else {
        Ok(one)
    }
}

/// The configuration `next`, to which the session's act leads from the one at this place. It keeps its own server if
/// the list is shorter than `WIDE` and there is room for a server of so many `records` for each in it. Else its server
/// is kept as that of the configuration at the place, with one request more.
fn fitting(
    known: &[Configuration],
    records: usize,
    place: usize,
    session: SessionNo,
    act: Act,
    next: Configuration,
) -> Result<Configuration, NoMemory>
    requires place { place < length known.now }
    requires leads { IsEffectAt known.now place session act next }
    ensures { IfOk result (λ new. new ≡ next) }
{
    // `next` comes with a server of its own (`effected`).
    if known.len() < WIDE && has_room(known.len(), records) {
        return Ok(next);
    }
    // Its own server is dropped, which saves memory: requests take less than a copy.
    next.over(&known[place], session, act)
}

/// Adds `next`, the configuration to which the session's act leads from the one at this place, unless one of the list
/// is known to be the same.
fn add_next(
    known: &mut Vec<Configuration>,
    index: &mut FingerprintIndex,
    place: usize,
    session: SessionNo,
    act: Act,
    next: Configuration,
) -> Result<(), NoMemory>
    requires place { place < vec_len known.old }
    requires leads { IsEffectAt known.old.items place session act next }
    ensures { OnOk result (AddsUnlessThere known.old.items next known.new.items) }
{
    if is_known(known.as_slice(), index, &next)? {
        return Ok(());
    }
    let new = fitting(known.as_slice(), index.records(), place, session, act, next)?;
    known.push(new)?;
    index.note(known.len())
}

/// Adds what the session's act leads to from the configuration at this place, if it can take effect there, and unless
/// one of the list is known to be the same.
fn add_effect(
    known: &mut Vec<Configuration>,
    index: &mut FingerprintIndex,
    place: usize,
    session: SessionNo,
    act: Act,
) -> Result<(), NoMemory>
    requires { place < vec_len known.old }
    ensures grows { OnOk result (Grows known.old.items known.new.items) }
    ensures has { OnOk result
        ((one : Found) (new : Config)
        → slice_get known.old.items place ≡ Some one
        → effect_of (config_of one) session act ≡ Some new
        → Has known.new.items new) }
    ensures only { OnOk result
        ((one : Found) (returning : Option ℕ)
        → slice_get known.old.items place ≡ Some one
        → returning ≢ Some session
        → is_over returning (config_of one) ≡ false
        → AddsOnly returning (config_of one) known.old.items known.new.items) }
{
    match known[place].effected(session, act, &mut index.lists)? {
        None => Ok(()),
        Some(next) => {
            add_next(known, index, place, session, act, next)?;
            Ok(())
        }
    }
}

/// Adds what the two acts of the session, its statement and its `DISCONNECT`, lead to from the configuration at this
/// place.
fn add_effects(
    known: &mut Vec<Configuration>,
    index: &mut FingerprintIndex,
    place: usize,
    session: SessionNo,
) -> Result<(), NoMemory>
    requires { place < vec_len known.old }
    ensures grows { OnOk result (Grows known.old.items known.new.items) }
    ensures has { OnOk result
        ((one : Found) (act : _) (new : Config)
        → slice_get known.old.items place ≡ Some one
        → effect_of (config_of one) session act ≡ Some new
        → Has known.new.items new) }
    ensures only { OnOk result
        ((one : Found) (returning : Option ℕ)
        → slice_get known.old.items place ≡ Some one
        → returning ≢ Some session
        → is_over returning (config_of one) ≡ false
        → AddsOnly returning (config_of one) known.old.items known.new.items) }
{
    add_effect(known, index, place, session, Act::Statement)?;
    add_effect(known, index, place, session, Act::Disconnect)?;
    Ok(())
}

/// Whether the session of this number is `returning`; false if that is None.
fn is_returning(returning: &Option<SessionNo>, number: u64) -> bool
    ensures yes { result ≡ true → returning.now ≡ Some number }
    ensures no { result ≡ false → returning.now ≢ Some number }
{
    match returning {
        None => false,
        Some(session) => number == session.get(),
    }
}

/// Adds what the acts of the session of this number lead to from the configuration at this place, unless that session
/// is `returning`; nothing if no session has this number.
fn add_others(
    known: &mut Vec<Configuration>,
    index: &mut FingerprintIndex,
    place: usize,
    number: u64,
    returning: &Option<SessionNo>,
) -> Result<(), NoMemory>
    requires { place < vec_len known.old }
    ensures grows { OnOk result (Grows known.old.items known.new.items) }
    ensures has { OnOk result
        ((one : Found) (act : _) (new : Config)
        → slice_get known.old.items place ≡ Some one
        → IsSession number
        → returning.now ≢ Some number
        → effect_of (config_of one) number act ≡ Some new
        → Has known.new.items new) }
    ensures only { OnOk result
        ((one : Found)
        → slice_get known.old.items place ≡ Some one
        → is_over returning.now (config_of one) ≡ false
        → AddsOnly returning.now (config_of one) known.old.items known.new.items) }
{
    if is_returning(returning, number) {
        return Ok(());
    }
    match SessionNo::of(number) {
        // No session has this number: those of sessions are from 1 to 16.
        None => Ok(()),
        Some(session) => {
            add_effects(known, index, place, session)?;
            Ok(())
        }
    }
}

/// Adds what acts of other sessions than `returning` lead to from the configuration at this place.
fn add_all(
    known: &mut Vec<Configuration>,
    index: &mut FingerprintIndex,
    place: usize,
    returning: &Option<SessionNo>,
) -> Result<(), NoMemory>
    requires { place < vec_len known.old }
    ensures grows { OnOk result (Grows known.old.items known.new.items) }
    ensures all { OnOk result ((one : Found) → slice_get known.old.items place ≡ Some one
        → IsExpandedBelow 17 one returning.now known.new.items) }
    ensures only { OnOk result
        ((one : Found)
        → slice_get known.old.items place ≡ Some one
        → is_over returning.now (config_of one) ≡ false
        → AddsOnly returning.now (config_of one) known.old.items known.new.items) }
{
    // These are the numbers of all sessions.
    for number in 1..17 {
        add_others(known, index, place, number, returning)?;
    }
    Ok(())
}

/// Adds what acts of sessions other than `returning` lead to from the configuration at this place, unless the call of
/// `returning` was answered there. `returning` is the session whose return comes next; None if no return does, and
/// then acts of all sessions are tried.
///
/// May return `NoMemory`.
pub fn expand(
    known: &mut Vec<Configuration>,
    index: &mut FingerprintIndex,
    place: usize,
    returning: &Option<SessionNo>,
) -> Result<(), NoMemory>
    requires { place < vec_len known.old }
    ensures grows { OnOk result (Grows known.old.items known.new.items) }
    ensures all { OnOk result ((one : Found) → slice_get known.old.items place ≡ Some one
        → IsExpandedBelow 17 one returning.now known.new.items) }
    ensures only { OnOk result ((one : Found) → slice_get known.old.items place ≡ Some one
        → AddsOnly returning.now (config_of one) known.old.items known.new.items) }
{
    // Acts after that answer can as well come after the return.
    if known[place].is_over(returning) {
        return Ok(());
    }
    add_all(known, index, place, returning)?;
    Ok(())
}
