//! Races that are counted, and races that stop, at gates of these tests' own.
//!
//! If all races come to the same outcome, the counts don't show whether each race was counted for its own. So a gate
//! here has the races come to two outcomes in turn.
ghost use Rattle.decision_log.specs.Opens.{IsCapacity};

use std::alloc::{Alloc, Global};
use std::process::Abort;
use std::sync::Wait;
use std::sync::atomic::{AtomicU64, Ordering};
use std::thread::{Threads, yield_now};
use xa_lines::ScriptFault;
use xa_races::runs_script;
use xa_store::Gate;
use xa_xid::SessionNo;

/// A gate that lets session 1 be first in the first race, session 2 in the next one, and so on in turn. The other
/// session is let in when the first one's second line comes, behind the answer to its first line.
#[derive(Drop)]
struct TakesTurns {
    /// How many races were announced.
    races: AtomicU64,
    /// 1 if the session that comes first has the answer to its first line, else 0.
    has_answer: AtomicU64,
}

impl TakesTurns {
    /// Whether the session is the first one of this race.
    fn is_first(&self, session: SessionNo) -> bool {
        let is_odd = self.races.load(Ordering::SeqCst) % 2 == 1;
        (session.get() == 1) == is_odd
    }
}

impl Gate for TakesTurns {
    fn announce(&self, _runs: u64) {
        self.has_answer.store(0, Ordering::SeqCst);
        let _before = self.races.fetch_add(1, Ordering::SeqCst);
    }

    fn enter(&self, session: SessionNo, line: u64) -> bool {
        if self.is_first(session) {
            if line == 1 {
                self.has_answer.store(1, Ordering::SeqCst);
            }
            return true;
        }
        // After so many tries the race ends with a fault, so a test of it ends in any case.
        for _ in 0..100_000_000u64 {
            if self.has_answer.load(Ordering::SeqCst) == 1 {
                return true;
            }
            yield_now();
        }
        false
    }
}

/// A gate that stops each session before its second line.
struct LetsOne;

impl Gate for LetsOne {
    fn enter(&self, _session: SessionNo, line: u64) -> bool {
        line == 0
    }
}

/// Races a script `runs` times, in logs with room for `capacity` entries, or if `renews` over rings of as many slots.
/// Returns the fault, if there is one, and what is written.
fn raced<G: Gate + Sync, R: Threads + Wait + Sync + Alloc<A = Global>>(
    rt: &R,
    script: &[u8],
    capacity: u64,
    renews: bool,
    runs: u64,
    gate: &G,
) -> (Option<ScriptFault>, Vec<u8>)
    requires { IsCapacity capacity }
{
    let mut input = script;
    let mut output = Vec::new(rt.alloc());
    let fault = runs_script(
        rt,
        rt.alloc(),
        &mut input,
        &mut output,
        capacity,
        renews,
        runs,
        gate,
    )
    .err();
    (fault, output)
}

/// Asks for races that end in no fault, with this text written.
fn is_written(rt: &impl Abort, raced: (Option<ScriptFault>, Vec<u8>), text: &[u8]) {
    let (fault, output) = raced;
    assert_eq!(rt; fault, None);
    assert_eq!(rt; output.as_slice(), text);
}

/// Asks for races that end in this fault, with nothing written.
fn is_refused(rt: &impl Abort, raced: (Option<ScriptFault>, Vec<u8>), wanted: ScriptFault) {
    let (fault, output) = raced;
    assert_eq!(rt; fault, Some(wanted));
    assert!(rt; output.is_empty());
}

/// Two sessions that start the same branch.
const BOTH_START: &[u8] = b"1 XA START 'a'\n2 XA START 'a'\n1 XA RECOVER\n2 XA RECOVER\n";

/// Session 1 was first three times, and session 2 twice.
const BOTH_CAME: &[u8] = b"OUTCOME 1 CAME 3
1 OK
2 ERROR 1440 (XAE08): XAER_DUPID xid already exists
1 ROWS 0
2 ROWS 0
OUTCOME 2 CAME 2
1 ERROR 1440 (XAE08): XAER_DUPID xid already exists
2 OK
1 ROWS 0
2 ROWS 0
SEEN 2 OF 2 OUTCOMES
";

#[test]
fn each_race_is_counted_for_what_it_came_to(rt: HostRuntime) {
    let gate = TakesTurns {
        races: AtomicU64::new(0),
        has_answer: AtomicU64::new(0),
    };
    is_written(&rt, raced(&rt, BOTH_START, 8, false, 5, &gate), BOTH_CAME);
}

#[test]
fn shut_gate_is_told_of_counted_races(rt: HostRuntime) {
    is_refused(
        &rt,
        raced(&rt, BOTH_START, 8, true, 3, &LetsOne),
        ScriptFault::GateShut,
    );
}
