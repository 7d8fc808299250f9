//! Stores that go on once their history is full, or once a session was dropped, and what becomes of open
//! branches. A step that is refused memory is repeated once.
ghost use Rattle.std.specs.{Prelude.{◌≡◌, ◌<◌, length, IfOk, IfErr}, List.All};
ghost use Rattle.xa_store.specs.{Passes.{identity_of, log_of}, Renewal.AreGathered};

use crate::playing::first_difference;
use crate::stores::{both, opened, pushed};
use std::alloc::Global;
use std::process::Abort;
use std::sync::Wait;
use xa_server::Reply;
use xa_session::Session;
use xa_statement::read_statement;
use xa_store::{Log, Pass, Store};
use xa_words::Entry;

/// Asks the sessions to leave together; they are back if there was no memory.
fn leaving<'s>(
    alloc: Global,
    store: &Store,
    sessions: Vec<Session<'s, Log>>,
) -> Result<(Vec<Entry>, Vec<Pass>), Vec<Session<'s, Log>>>
    requires some { 0 < length sessions.items }
    requires belongs { All (λ session. log_of session.pass ≡ identity_of store.now.log) sessions.items }
    ensures gathered { IfOk result (λ ended. AreGathered (identity_of store.now.log) ended.1.items) }
    ensures some { IfErr result (λ kept. 0 < length kept.items) }
    ensures belongs { IfErr result (λ kept. All (λ session. log_of session.pass ≡ identity_of store.now.log)
        kept.items) }
{
    match store.close(alloc, sessions) {
        Ok(ended) => Ok(ended),
        Err(refused) => Err(refused.0),
    }
}

/// The passes of sessions, which leave a store.
fn left(rt: &impl Abort, alloc: Global, store: &Store, sessions: Vec<Session<'_, Log>>) -> Vec<Pass>
    requires some { 0 < length sessions.items }
    requires belongs { All (λ session. log_of session.pass ≡ identity_of store.now.log) sessions.items }
    ensures { AreGathered (identity_of store.now.log) result.items }
{
    match leaving(alloc, store, sessions) {
        Ok(ended) => ended.1,
        Err(sessions) => {
            let Ok(ended) = leaving(alloc, store, sessions) else {
                panic!(rt; "refused twice")
            };
            ended.1
        }
    }
}

/// How a store goes on.
#[derive(Clone, Copy)]
pub(crate) enum Way {
    /// It is renewed: open branches are rolled back.
    Renew,
    /// It is renewed, once session 1 was dropped.
    Drop,
}

/// Asks for the store to be renewed; it is back with its passes if there was no memory.
fn renewing(
    alloc: Global,
    store: Store,
    passes: Vec<Pass>,
) -> Result<(Store, Vec<Pass>), (Store, Vec<Pass>)>
    requires { AreGathered (identity_of store.log) passes.items }
    ensures opened { IfOk result (λ opened. All (λ pass. log_of pass ≡ identity_of opened.0.log) opened.1.items) }
    ensures kept { IfErr result (λ kept. All (λ pass. log_of pass ≡ identity_of kept.0.log) kept.1.items) }
{
    match store.renew(alloc, passes) {
        Ok(opened) => Ok(opened),
        Err(refused) => Err((refused.0, refused.1)),
    }
}

/// Two sessions play a script.
pub(crate) fn play<R: Abort + Wait>(
    rt: &R,
    alloc: Global,
    first: &mut Session<'_, Log>,
    second: &mut Session<'_, Log>,
    script: &[u8],
)
    ensures first { log_of first.new.pass ≡ log_of first.old.pass }
    ensures second { log_of second.new.pass ≡ log_of second.old.pass }
{
    let found = first_difference(rt, alloc, first, second, script);
    assert!(rt; found.is_none(), "{found:?}");
}

/// Sessions 1 and 2 of a store play a script. With `Way::Drop` session 1 is dropped then. Returns the rest in order.
fn played<'s, R: Abort + Wait>(
    rt: &R,
    alloc: Global,
    way: Way,
    store: &'s Store,
    mut passes: Vec<Pass>,
    script: &[u8],
) -> Vec<Session<'s, Log>>
    requires { All (λ pass. log_of pass ≡ identity_of store.now.log) passes.items }
    ensures some { 0 < length result.items }
    ensures belongs { All (λ session. log_of session.pass ≡ identity_of store.now.log) result.items }
{
    let (mut first, mut second) = both(rt, store, &mut passes);
    assert!(rt; first.number().get() == 1 && second.number().get() == 2);
    play(rt, alloc, &mut first, &mut second, script);
    let mut sessions = Vec::new(alloc);
    if let Way::Drop = way {
        drop(first);
    } else {
        pushed(rt, &mut sessions, first);
    }
    pushed(rt, &mut sessions, second);
    sessions
}

/// Sessions 1 and 2 play a script and leave. With `Way::Drop` session 1 is dropped before session 2 leaves.
fn generation<R: Abort + Wait>(
    rt: &R,
    alloc: Global,
    way: Way,
    store: &Store,
    passes: Vec<Pass>,
    script: &[u8],
) -> Vec<Pass>
    requires { All (λ pass. log_of pass ≡ identity_of store.now.log) passes.items }
    ensures { AreGathered (identity_of store.now.log) result.items }
{
    assert_eq!(rt; passes.len(), 2);
    let sessions = played(rt, alloc, way, store, passes, script);
    left(rt, alloc, store, sessions)
}

/// The store as it goes on, and its new passes. If there was no memory for that at first, the store plays `still`
/// in the history that it has, and is then asked again.
fn gone_on<R: Abort + Wait>(
    rt: &R,
    alloc: Global,
    way: Way,
    store: Store,
    passes: Vec<Pass>,
    still: &[u8],
) -> (Store, Vec<Pass>)
    requires { AreGathered (identity_of store.log) passes.items }
    ensures { All (λ pass. log_of pass ≡ identity_of result.0.log) result.1.items }
{
    match renewing(alloc, store, passes) {
        Ok(opened) => opened,
        Err((store, passes)) => {
            let passes = generation(rt, alloc, way, &store, passes, still);
            let Ok(opened) = renewing(alloc, store, passes) else {
                panic!(rt; "refused twice")
            };
            opened
        }
    }
}

/// A store plays a script, and goes on. If it can't at first for lack of memory, it plays `still` in the
/// history that it has.
pub(crate) fn next_history<R: Abort + Wait>(
    rt: &R,
    alloc: Global,
    way: Way,
    opened: (Store, Vec<Pass>),
    script: &[u8],
    still: &[u8],
) -> (Store, Vec<Pass>)
    requires { All (λ pass. log_of pass ≡ identity_of opened.0.log) opened.1.items }
    ensures { All (λ pass. log_of pass ≡ identity_of result.0.log) result.1.items }
{
    let (store, passes) = opened;
    let passes = generation(rt, alloc, way, &store, passes, script);
    gone_on(rt, alloc, way, store, passes, still)
}

/// A store with so much room plays each script in a history of its own, and goes on between them. If it can't go on
/// from the first for lack of memory, it plays `still` there before it tries again.
fn goes_on<R: Abort + Wait>(
    rt: &R,
    alloc: Global,
    capacity: u64,
    way: Way,
    scripts: [&[u8]; 3],
    still: &[u8],
) {
    let [first, second, third] = scripts;
    let opened = opened(rt, alloc, capacity, 2);
    let opened = next_history(rt, alloc, way, opened, first, still);
    let (store, passes) = next_history(rt, alloc, way, opened, second, b"");
    drop(generation(rt, alloc, way, &store, passes, third));
    drop(store);
}

/// Session 1 fills a history of four entries with a branch that it prepares. Nobody can commit it.
const FILLS: &[u8] = b"1 XA START 'a' = 0 OK
1 PUT 'k','v' = 1 OK
1 XA END 'a' = 2 OK
1 XA PREPARE 'a' = 3 OK
2 XA COMMIT 'a' = FULL
";

/// What the full history answers still.
const STILL: &[u8] = b"2 XA COMMIT 'a' = FULL
2 GET 'k' = 4 NONE
1 XA RECOVER = 4 ROWS 1|1 1 0 a
";

/// Session 2 commits the branch in the next history.
const COMMITS: &[u8] = b"1 XA RECOVER = 0 ROWS 1|1 1 0 a
2 XA COMMIT 'a' = 0 OK
2 GET 'k' = 1 VALUE 0x76
1 XA RECOVER = 1 ROWS 0
";

/// The row is there in the last one.
const COMMITTED: &[u8] = b"2 GET 'k' = 0 VALUE 0x76
1 XA RECOVER = 0 ROWS 0
";

#[test]
fn renewal_survives(rt: HostRuntime) {
    let scripts = [FILLS, COMMITS, COMMITTED];
    goes_on(&rt, rt.alloc(), 4, Way::Renew, scripts, STILL);
}

/// Session 1 prepares one branch, and has another open.
const BOTH: &[u8] = b"1 XA START 'a' = 0 OK
1 PUT 'k','v' = 1 OK
1 XA END 'a' = 2 OK
1 XA PREPARE 'a' = 3 OK
1 XA START 'b' = 4 OK
1 PUT 'm','w' = 5 OK
";

/// The prepared branch stays, and the open one is rolled back.
const ONE: &[u8] = b"2 XA RECOVER = 0 ROWS 1|1 1 0 a
2 PUT 'k','x' = 0 ERROR 3572 (HY000): row locked by another branch
2 PUT 'm','x' = 0 OK
2 GET 'm' = 1 VALUE 0x78
";

#[test]
fn prepared_branch_stays_and_an_open_one_is_rolled_back(rt: HostRuntime) {
    goes_on(&rt, rt.alloc(), 16, Way::Renew, [BOTH, ONE, b""], b"");
}

/// Session 1 prepares a branch, before it is dropped.
const DROPPED: &[u8] = b"1 XA START 'a' = 0 OK
1 XA END 'a' = 1 OK
1 XA PREPARE 'a' = 2 OK
";

/// Its branch is there, for anybody to end.
const ENDS: &[u8] = b"1 XA RECOVER CONVERT XID = 0 ROWS 1|1 1 0 0x61
2 XA ROLLBACK 'a' = 0 OK
";

#[test]
fn what_a_dropped_session_prepared_stays(rt: HostRuntime) {
    goes_on(&rt, rt.alloc(), 16, Way::Drop, [DROPPED, ENDS, b""], b"");
}

/// Has a session write a row as often as the greatest history has room.
fn fills<R: Abort + Wait>(rt: &R, session: &mut Session<'_, Log>)
    ensures { log_of session.new.pass ≡ log_of session.old.pass }
{
    let Ok(put) = read_statement(b"PUT 'k','v'") else {
        panic!(rt; "not a statement")
    };
    for place in 0..1024u64 {
        let is_done = match session.execute(rt, &put) {
            Ok(answer) => answer.place == place && matches!(answer.reply, Reply::Ok),
            Err(_) => false,
        };
        assert!(rt; is_done, "{place}");
    }
}

/// The passes of a store's sessions, after session 1 has filled its history.
fn filled<R: Abort + Wait>(rt: &R, alloc: Global, store: &Store, mut passes: Vec<Pass>) -> Vec<Pass>
    requires { All (λ pass. log_of pass ≡ identity_of store.now.log) passes.items }
    ensures { AreGathered (identity_of store.now.log) result.items }
{
    let (mut first, second) = both(rt, store, &mut passes);
    fills(rt, &mut first);
    let mut sessions = Vec::new(alloc);
    pushed(rt, &mut sessions, first);
    pushed(rt, &mut sessions, second);
    left(rt, alloc, store, sessions)
}

/// The row is there after the renewal, and the history has room again.
const THERE: &[u8] = b"1 GET 'k' = 0 VALUE 0x76\n2 DEL 'k' = 0 OK\n1 GET 'k' = 1 NONE\n";

#[test]
fn greatest_history_is_renewed(rt: HostRuntime) {
    let alloc = rt.alloc();
    let (store, passes) = opened(&rt, alloc, 1024, 2);
    let passes = filled(&rt, alloc, &store, passes);
    let (store, passes) = gone_on(&rt, alloc, Way::Renew, store, passes, b"");
    drop(generation(&rt, alloc, Way::Renew, &store, passes, THERE));
    drop(store);
}
