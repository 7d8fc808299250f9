//! A store, its sessions, and what one has seen of the other.
ghost use Rattle.std.specs.Prelude.{◌≡◌, IfOk};
ghost use Rattle.nigbaru.specs.store.Passes.{log_of, identity_of};

use crate::speech::say;
use anyhow::{Result, bail};
use nigbaru::history::Entry;
use nigbaru::{Log, Pass, Reply, Session, Store};
use std::alloc::Global;
use std::sync::Wait;

/// A store with room for 64 entries, and the passes of its two sessions.
pub fn opened(alloc: Global) -> Result<(Store, Pass, Pass)>
    ensures first { IfOk result (λ opened. log_of opened.1 ≡ identity_of opened.0.log) }
    ensures second { IfOk result (λ opened. log_of opened.2 ≡ identity_of opened.0.log) }
{
    let (store, mut passes) = Store::open(alloc, 64, 2)?;
    let (Some(second), Some(first)) = (passes.pop(), passes.pop()) else {
        bail!("a pass is missing");
    };
    Ok((store, first, second))
}

/// A store with room for 64 entries, and the pass of its first session.
pub fn opened_for_one(alloc: Global) -> Result<(Store, Pass)>
    ensures { IfOk result (λ opened. log_of opened.1 ≡ identity_of opened.0.log) }
{
    let (store, first, _) = opened(alloc)?;
    Ok((store, first))
}

/// A session of a store, of one of its passes.
pub fn connected(store: &Store, pass: Pass) -> Result<Session<'_, Log>>
    requires { log_of pass ≡ identity_of store.now.log }
    ensures { IfOk result (λ session. log_of session.pass ≡ log_of pass) }
{
    match store.connect(pass) {
        Ok(session) => Ok(session),
        Err((_, error)) => Err(error.into()),
    }
}

/// A session of a store, of each of two passes.
pub fn both_connected(
    store: &Store,
    first: Pass,
    second: Pass,
) -> Result<(Session<'_, Log>, Session<'_, Log>)>
    requires first { log_of first ≡ identity_of store.now.log }
    requires second { log_of second ≡ identity_of store.now.log }
    ensures { IfOk result (λ sessions. log_of sessions.0.pass ≡ log_of sessions.1.pass) }
{
    let first = connected(store, first)?;
    let second = connected(store, second)?;
    Ok((first, second))
}

/// Has a session write a row and meet another session, which then reads the row.
fn read_by_second<R: Wait>(
    rt: &R,
    first: &mut Session<'_, Log>,
    second: &mut Session<'_, Log>,
) -> Result<Reply>
    requires { log_of first.old.pass ≡ log_of second.old.pass }
{
    say(rt, first, "PUT 'k','v'")?;
    first.meet(second);
    say(rt, second, "GET 'k'")
}

/// What one session of a store reads after the other has written.
pub fn read_elsewhere<R: Wait>(rt: &R, alloc: Global) -> Result<Reply> {
    let (store, first, second) = opened(alloc)?;
    let (mut first, mut second) = both_connected(&store, first, second)?;
    read_by_second(rt, &mut first, &mut second)
}

/// A session of a pass that has written a row.
fn written<'a, R: Wait>(
    rt: &R,
    store: &'a Store,
    pass: Pass,
    text: &str,
) -> Result<Session<'a, Log>>
    requires { log_of pass ≡ identity_of store.now.log }
    ensures { IfOk result (λ session. log_of session.pass ≡ log_of pass) }
{
    let mut session = connected(store, pass)?;
    say(rt, &mut session, text)?;
    Ok(session)
}

/// The history of a store after each of its sessions has written a row.
pub fn written_down<R: Wait>(rt: &R, alloc: Global) -> Result<Vec<Entry>> {
    let (store, first, second) = opened(alloc)?;
    let first = written(rt, &store, first, "PUT 'k','v'")?;
    let second = written(rt, &store, second, "PUT 'm','w'")?;
    let mut sessions = vec![in alloc; first, second]?;
    Ok(store.history(alloc, &mut sessions)?)
}
