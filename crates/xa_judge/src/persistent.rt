//! The sessions of which acts have to be tried before a session's call ends.
//!
//! These are the session itself, and each session with something open that isn't known to be apart from one of them.
//! Acts of all others can as well come later. In these functions `all` is such a set, with `true` at the places of
//! their numbers.
ghost use Rattle.std.specs.Prelude.{◌≡◌, ◌≢◌, ◌<◌, false, None, Some, IfOk, OnOk, length, slice_get};
ghost use Rattle.xa_judge.specs.{Apart.IsApartAt, Explained.IsSession, Found.config_of};
ghost use Rattle.xa_judge.specs.Persistent.{IsIn, IsWithin, AreApartFrom, IsPersistent};

use crate::apart::is_apart;
use crate::configuration::Configuration;
use xa_server::Server;
use xa_xid::{NoMemory, SessionNo};

/// Adds the session of this number to the set, if there is one, unless it is in it or what it has open is known to be
/// apart from what `session` has open.
fn add_number(
    all: &mut [bool; 17],
    server: &Server,
    one: &Configuration,
    session: SessionNo,
    number: u64,
) -> Result<(), NoMemory>
    requires within { number < 17 }
    requires same { server.now ≡ one.now.server }
    ensures grows { OnOk result (IsWithin all.old all.new) }
    ensures apart { OnOk result (IsSession number → (IsIn all.new number → ⊥)
        → IsApartAt (config_of one.now) number session) }
{
    if all[number as usize] {
        return Ok(());
    }
    match SessionNo::of(number) {
        None => Ok(()),
        Some(other) => {
            if !is_apart(server, one, other, session)? {
                all[other.get() as usize] = true;
            }
            Ok(())
        }
    }
}

/// Adds each session to the set, unless what it has open is known to be apart from what `session` has open.
fn add_all(
    all: &mut [bool; 17],
    server: &Server,
    one: &Configuration,
    session: SessionNo,
) -> Result<(), NoMemory>
    requires same { server.now ≡ one.now.server }
    ensures grows { OnOk result (IsWithin all.old all.new) }
    ensures apart { OnOk result (AreApartFrom (config_of one.now) all.new session 17) }
{
    // The numbers of sessions are those from 1 to 16.
    for number in 1..17 {
        add_number(all, server, one, session, number)?;
    }
    Ok(())
}

/// The session of this number, if it is in the set and not in `done`.
fn next_at(all: &[bool; 17], done: &[bool; 17], number: u64) -> Option<SessionNo>
    requires { number < 17 }
    ensures { result ≡ None → IsSession number → IsIn all.now number → IsIn done.now number }
{
    if all[number as usize] && !done[number as usize] {
        SessionNo::of(number)
    } else {
        None
    }
}

/// A session of the set that isn't in `done`.
fn next_of(all: &[bool; 17], done: &[bool; 17]) -> Option<SessionNo>
    ensures { result ≡ None → (session : _) → IsSession session → IsIn all.now session → IsIn done.now session }
{
    for number in 1..17 {
        if let Some(session) = next_at(all, done, number) {
            return Some(session);
        }
    }
    None
}

/// The set that `persistent` returns for the configuration `one`, whose server this is.
fn persistent_on(
    server: &Server,
    one: &Configuration,
    session: SessionNo,
) -> Result<[bool; 17], NoMemory>
    requires same { server.now ≡ one.now.server }
    ensures { IfOk result (IsPersistent (config_of one.now) session) }
{
    let mut all = [false; 17];
    all[session.get() as usize] = true;
    // Those of the set to which all that isn't apart from them was added.
    let mut done = [false; 17];
    for _ in 0..17 {
        match next_of(&all, &done) {
            None => return Ok(all),
            Some(next) => {
                add_all(&mut all, server, one, next)?;
                done[next.get() as usize] = true;
            }
        }
    }
    // Never reached, since there are only 16 sessions. The set of all of them does in any case.
    Ok([true; 17])
}

/// Returns a set of sessions, with `true` at the places of their numbers. It has `session`, and what other sessions
/// have open is known to be apart from what those of the set have open. So until the session is answered, only acts of
/// the set have to be tried.
///
/// May return `NoMemory`.
pub fn persistent(one: &Configuration, session: SessionNo) -> Result<[bool; 17], NoMemory>
    ensures { IfOk result (IsPersistent (config_of one.now) session) }
{
    match one.server.own() {
        Some(server) => persistent_on(server, one, session),
        None => persistent_on(&one.server.made()?, one, session),
    }
}
