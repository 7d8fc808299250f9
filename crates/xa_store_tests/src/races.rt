//! Races of runs, and the gates that let them pass.
ghost use Rattle.std.specs.Prelude.{◌≡◌};
ghost use Rattle.xa_store.specs.Passes.{identity_of, log_of};

use crate::gates::{CountsQuestions, ShutsFirst, Watches};
use crate::runs::two_runs;
use crate::stores::{joined, opened, three_passes, two_passes};
use std::alloc::Global;
use std::process::Abort;
use std::sync::Wait;
use std::sync::atomic::{AtomicU64, Ordering};
use std::thread::Threads;
use xa_server::Reply;
use xa_session::{Answer, Session};
use xa_store::{
    Gate, Log, OpenGate, Outcome, Pass, RaceFault, ShuffledGate, Store, TogetherGate, race,
};
use xa_xid::{SessionNo, Statement};

/// What a race gives of this script by two sessions, in a store with so much room.
fn raced<G: Gate + Sync, R: Abort + Threads + Wait + Sync>(
    rt: &R,
    alloc: Global,
    capacity: u64,
    script: &[u8],
    gate: &G,
) -> Result<Outcome, RaceFault> {
    let (store, first, second) = two_passes(rt, alloc, capacity);
    let runs = two_runs(rt, alloc, &store, first, second, script);
    let outcome = race(rt, alloc, &store, runs, gate);
    drop(store);
    outcome
}

/// Whether a race gave no history, no answers and no passes.
fn is_nothing(outcome: &Outcome) -> bool {
    outcome.history.is_empty() && outcome.answers.is_empty() && outcome.passes.is_empty()
}

#[test]
fn race_without_runs_gives_nothing(rt: HostRuntime) {
    let (store, passes) = opened(&rt, rt.alloc(), 4, 2);
    drop(passes);
    let raced = race(&rt, rt.alloc(), &store, Vec::new(rt.alloc()), &OpenGate);
    drop(store);
    let is_so = match &raced {
        Ok(outcome) => is_nothing(outcome),
        Err(_) => false,
    };
    drop(raced);
    assert!(rt; is_so);
}

/// One session, of whose statements all but the third are logged.
const THREE_LOGGED: &[u8] = b"1 XA START 'a'\n1 XA END 'a'\n1 XA RECOVER\n1 XA PREPARE 'a'\n";

/// With room for one entry, and for two, at which line a race stops, from 0, and how often its gate is asked.
const STOPS: [(u64, u64, u64); 2] = [(1, 1, 2), (2, 3, 4)];

#[test]
fn full_history_stops_a_run_and_its_gate_is_asked_once_for_each_line(rt: HostRuntime) {
    let session = SessionNo::of(1).unwrap();
    for (capacity, line, asked) in STOPS {
        let gate = CountsQuestions {
            asked: AtomicU64::new(0),
        };
        let fault = raced(&rt, rt.alloc(), capacity, THREE_LOGGED, &gate).err();
        assert!(rt; fault == Some(RaceFault::Full { session, line }));
        assert_eq!(rt; gate.asked.load(Ordering::SeqCst), asked);
    }
}

/// Whether a fault is that the gate shut session 1 out before its second statement.
fn is_first_shut(fault: Option<RaceFault>) -> bool {
    let session = SessionNo::of(1).unwrap();
    fault == Some(RaceFault::GateShut { session, line: 1 })
}

/// Whether a session is answered, at place 4, with only the branch 'b'.
fn lists_the_branch(session: &mut Session<'_, Log>) -> bool {
    match session.attempt(&Statement::Recover { convert: false }) {
        Ok(
            Answer {
                place: 4,
                reply: Reply::Recovered(xids),
            },
        ) => match xids.as_slice() {
            [xid] => xid.gtrid.as_slice() == b"b".as_slice(),
            _ => false,
        },
        _ => false,
    }
}

/// Sessions 1 and 2, each with a branch.
const EACH_A_BRANCH: &[u8] =
    b"1 XA START 'a'\n1 XA END 'a'\n2 XA START 'b'\n2 XA END 'b'\n2 XA PREPARE 'b'\n";

/// Whether session 1 is shut out of a store before its second statement, and session 2 prepares a branch, which
/// session 3 then lists.
fn stops_the_first<R: Abort + Threads + Wait + Sync>(
    rt: &R,
    alloc: Global,
    store: &Store,
    first: Pass,
    second: Pass,
    third: Pass,
) -> bool
    requires first { log_of first ≡ identity_of store.now.log }
    requires second { log_of second ≡ identity_of store.now.log }
    requires third { log_of third ≡ identity_of store.now.log }
{
    let gate = ShutsFirst { others: 3 };
    let runs = two_runs(rt, alloc, store, first, second, EACH_A_BRANCH);
    let fault = race(rt, alloc, store, runs, &gate).err();
    is_first_shut(fault) && lists_the_branch(&mut joined(rt, store, third))
}

#[test]
fn gate_stops_one_run_and_no_other(rt: HostRuntime) {
    let (store, first, second, third) = three_passes(&rt, rt.alloc(), 8);
    assert!(rt; stops_the_first(&rt, rt.alloc(), &store, first, second, third));
}

/// Two sessions, the first with two statements.
const SHUT: &[u8] = b"1 XA START 'a'\n1 XA END 'a'\n2 XA START 'b'\n";

#[test]
fn fault_of_the_lowest_session_is_told(rt: HostRuntime) {
    let gate = ShutsFirst { others: 0 };
    let fault = raced(&rt, rt.alloc(), 8, SHUT, &gate).err();
    assert!(rt; is_first_shut(fault));
}

/// Both sessions come to the gate before either is let past its first line, in one race and in another one
/// after it.
fn meet_first<G: Gate + Sync + Drop, R: Abort + Threads + Wait + Sync>(
    rt: &R,
    alloc: Global,
    gate: G,
) {
    let watched = Watches::new(gate);
    for _ in 0..2 {
        let is_raced = raced(rt, alloc, 2, b"1 DEL 'k'\n2 DEL 'k'\n", &watched).is_ok();
        assert!(rt; is_raced && watched.have_met());
    }
}

#[test]
fn sessions_meet_at_their_first_lines(rt: HostRuntime) {
    meet_first(&rt, rt.alloc(), TogetherGate::new());
    meet_first(&rt, rt.alloc(), ShuffledGate::new(7));
}

#[test]
fn gate_of_which_nobody_is_told_is_open(rt: HostRuntime) {
    let session = SessionNo::of(16).unwrap();
    assert!(rt; TogetherGate::new().enter(session, 0));
    assert!(rt; ShuffledGate::new(7).enter(session, u64::MAX));
}

/// Sessions 1 and 2 start one branch.
const ONE_BRANCH: &[u8] = b"1 XA START 'a'\n2 XA START 'a'\n";

/// Whether a race of two sessions, one of which starts the branch, found memory and threads.
fn is_raced<R: Abort + Threads + Wait + Sync>(
    rt: &R,
    alloc: Global,
    store: &Store,
    first: Pass,
    second: Pass,
) -> bool
    requires first { log_of first ≡ identity_of store.now.log }
    requires second { log_of second ≡ identity_of store.now.log }
{
    let runs = two_runs(rt, alloc, store, first, second, ONE_BRANCH);
    match race(rt, alloc, store, runs, &OpenGate) {
        Ok(outcome) => {
            let is_so = outcome.history.len() == 1 && outcome.answers.len() == 2;
            drop(outcome);
            assert!(rt; is_so);
            true
        }
        Err(RaceFault::NoMemory) | Err(RaceFault::ThreadRefused) => false,
        Err(fault) => panic!(rt; "fault {}", fault.number()),
    }
}

/// Whether a third session sees one entry after two have raced to start a branch; or at most one, if the race lacked
/// memory or a thread.
fn is_found<R: Abort + Threads + Wait + Sync>(
    rt: &R,
    alloc: Global,
    store: &Store,
    first: Pass,
    second: Pass,
    third: Pass,
) -> bool
    requires first { log_of first ≡ identity_of store.now.log }
    requires second { log_of second ≡ identity_of store.now.log }
    requires third { log_of third ≡ identity_of store.now.log }
{
    let is_raced = is_raced(rt, alloc, store, first, second);
    let count = joined(rt, store, third).look();
    count <= 1 && (!is_raced || count == 1)
}

/// Two sessions start one branch at once, in a store of three. A third then sees one entry, or at most one if the
/// race lacked memory or a thread.
#[test]
fn race_survives(rt: HostRuntime) {
    let (store, first, second, third) = three_passes(&rt, rt.alloc(), 1024);
    assert!(rt; is_found(&rt, rt.alloc(), &store, first, second, third));
}
