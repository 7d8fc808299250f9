//! The history of a store, asked for; and what a session that is dropped leaves. A step that is refused
//! memory is repeated once.
ghost use Rattle.std.specs.{Prelude.◌≡◌, List.All};
ghost use Rattle.xa_store.specs.Passes.{identity_of, log_of};

use crate::playing::has_history;
use crate::renewal::play;
use crate::stores::{both, next_session, opened, pushed};
use std::alloc::Global;
use std::process::Abort;
use std::sync::Wait;
use xa_session::Session;
use xa_store::{Log, Pass, Store};
use xa_words::Entry;

/// The history of a store, asked of its sessions, which stay; `None` if there was no memory.
fn asked(alloc: Global, store: &Store, sessions: &mut Vec<Session<'_, Log>>) -> Option<Vec<Entry>>
    requires { All (λ session. log_of session.pass ≡ identity_of store.now.log) sessions.old.items }
    ensures { All (λ session. log_of session.pass ≡ identity_of store.now.log) sessions.new.items }
{
    store.history(alloc, sessions).ok()
}

/// The history of a store, asked for again if there was no memory.
fn history_of(
    rt: &impl Abort,
    alloc: Global,
    store: &Store,
    sessions: &mut Vec<Session<'_, Log>>,
) -> Vec<Entry>
    requires { All (λ session. log_of session.pass ≡ identity_of store.now.log) sessions.old.items }
{
    if let Some(history) = asked(alloc, store, sessions) {
        return history;
    }
    let Some(history) = asked(alloc, store, sessions) else {
        panic!(rt; "refused twice")
    };
    history
}

/// What two sessions add.
const ADDED: &[u8] = b"1 XA START 'a' = 0 OK
1 XA END 'a' = 1 OK
1 XA PREPARE 'a' = 2 OK
2 PUT 'k','v' = 3 OK
";

/// The history of it.
const HISTORY: &[u8] = b"1 XA START 'a'
1 XA END 'a'
1 XA PREPARE 'a'
2 PUT 'k','v'
";

/// Whether a history has four entries, of which session 2 has added one.
fn is_added(history: &[Entry]) -> bool {
    let mut of_second = 0u64;
    for entry in history {
        if entry.session().get() == 2 {
            of_second = of_second.saturating_add(1);
        }
    }
    history.len() == 4 && of_second == 1
}

/// The second session of a store and the first, which have added to its history.
fn added<'s, R: Abort + Wait>(
    rt: &R,
    alloc: Global,
    store: &'s Store,
    mut passes: Vec<Pass>,
) -> Vec<Session<'s, Log>>
    requires { All (λ pass. log_of pass ≡ identity_of store.now.log) passes.items }
    ensures { All (λ session. log_of session.pass ≡ identity_of store.now.log) result.items }
{
    let (mut first, mut second) = both(rt, store, &mut passes);
    play(rt, alloc, &mut first, &mut second, ADDED);
    let mut sessions = Vec::new(alloc);
    pushed(rt, &mut sessions, second);
    pushed(rt, &mut sessions, first);
    sessions
}

/// Whether each session has seen four entries before it looks, and these are `HISTORY`.
fn have_seen_all(sessions: &mut Vec<Session<'_, Log>>) -> bool {
    for session in sessions.iter_mut() {
        if session.seen() != 4 || !has_history(session, HISTORY) {
            return false;
        }
    }
    true
}

/// Whether the history of a store is handed out to which its sessions have added, and each of them has all of it.
fn is_handed_out<R: Abort + Wait>(rt: &R, alloc: Global, store: &Store, passes: Vec<Pass>) -> bool
    requires { All (λ pass. log_of pass ≡ identity_of store.now.log) passes.items }
{
    let mut sessions = added(rt, alloc, store, passes);
    let history = history_of(rt, alloc, store, &mut sessions);
    let is_so = is_added(history.as_slice()) && have_seen_all(&mut sessions);
    drop(sessions);
    is_so
}

/// Two sessions add to a store's history; it is asked for, and each of them has all of it.
#[test]
fn store_survives(rt: HostRuntime) {
    let (store, passes) = opened(&rt, rt.alloc(), 8, 2);
    let is_so = is_handed_out(&rt, rt.alloc(), &store, passes);
    drop(store);
    assert!(rt; is_so);
}

/// What sessions 2 and 3 are answered once session 1 was dropped: its branch is there, and holds its row.
const LEFT: &[u8] = b"2 PUT 'k','x' = 2 ERROR 3572 (HY000): row locked by another branch
2 XA START 'a' = 2 ERROR 1440 (XAE08): XAER_DUPID xid already exists
3 XA RECOVER = 2 ROWS 0
";

/// Session 2, once session 1 has started a branch and was dropped.
fn left_alone<'s, R: Abort + Wait>(
    rt: &R,
    alloc: Global,
    store: &'s Store,
    passes: &mut Vec<Pass>,
) -> Session<'s, Log>
    requires { All (λ pass. log_of pass ≡ identity_of store.now.log) passes.old.items }
{
    let (mut first, mut second) = both(rt, store, passes);
    let script = b"1 XA START 'a' = 0 OK\n1 PUT 'k','v' = 1 OK\n";
    play(rt, alloc, &mut first, &mut second, script);
    drop(first);
    second
}

/// Whether session 1's branch stays when it is dropped, as sessions 2 and 3 find.
fn leaves_its_branch<R: Abort + Wait>(
    rt: &R,
    alloc: Global,
    store: &Store,
    mut passes: Vec<Pass>,
) -> bool
    requires { All (λ pass. log_of pass ≡ identity_of store.now.log) passes.items }
{
    let mut third = next_session(rt, store, &mut passes);
    let mut second = left_alone(rt, alloc, store, &mut passes);
    drop(passes);
    play(rt, alloc, &mut second, &mut third, LEFT);
    drop(third);
    let is_so = has_history(&mut second, b"1 XA START 'a'\n1 PUT 'k','v'\n");
    drop(second);
    is_so
}

#[test]
fn dropped_session_leaves_its_branch(rt: HostRuntime) {
    let (store, passes) = opened(&rt, rt.alloc(), 8, 3);
    let is_so = leaves_its_branch(&rt, rt.alloc(), &store, passes);
    drop(store);
    assert!(rt; is_so);
}
