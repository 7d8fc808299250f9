//! Recoveries that the program can't show: another client comes between two calls of one, or the store is renewed just
//! before. All else that coordinators do is in cases/coordinate and cases/stops.
ghost use Rattle.std.specs.Prelude.{◌≡◌, ◌∷◌, []};

use crate::renewal::{Way, next_history};
use crate::stores::{both, opened, pushed};
use std::alloc::Global;
use std::process::Abort;
use std::sync::Wait;
use xa_coordinator::{Coordinator, Decision, Decisions, RecoverFault, Speak};
use xa_session::{Answer, Fault};
use xa_statement::read_statement;
use xa_xid::{Bytes, Statement};

/// A coordinator's session, and another client's of the same store, which speaks just before one of the calls.
#[derive(Drop)]
struct Met<S: Speak> {
    inner: S,
    other_client: S,
    /// How many calls go by before it speaks.
    left: u64,
    /// What it says, line by line.
    lines: &'static str,
}

/// Has a session execute statements, one in each line.
fn says<S: Speak>(rt: &impl Wait, session: &mut S, lines: &str) {
    for line in lines.lines() {
        if let Ok(statement) = read_statement(line.as_bytes()) {
            let _ = session.execute(rt, &statement).is_ok();
        }
    }
}

impl<S: Speak> Met<S> {
    /// Has the other client speak if it is to do so before this call.
    fn meet(&mut self, rt: &impl Wait)
        ensures { self.new.inner ≡ self.old.inner }
    {
        if self.left == 0 {
            says(rt, &mut self.other_client, self.lines);
        }
        self.left = self.left.wrapping_sub(1);
    }
}

impl<S: Speak> Speak for Met<S> {
    ghost use Rattle.std.specs.Prelude.{None, true};

    // it has no limit of its own, and may be out of memory at any time
    ghost view = { λ session. record (S.view session.inner) { left = None; starved = true } };

    ghost own_part = { λ session. S.own_part session.inner };

    ghost lawful = { λ session. S.lawful session.inner };

    fn attempt(&mut self, statement: &Statement) -> Result<Answer, Fault> {
        self.inner.attempt(statement)
    }

    fn execute<R: Wait>(&mut self, rt: &R, statement: &Statement) -> Result<Answer, Fault> {
        self.meet(rt);
        self.inner.execute(rt, statement)
    }
}

/// The name of one letter.
fn name(letter: u8) -> Bytes
    ensures { result.items ≡ letter ∷ [] }
{
    let mut name = Bytes::new();
    name.push(letter);
    name
}

/// How many branches a recovery commits, how many it rolls back, and how many are missing, over one store by the
/// coordinator `c`.
fn recovered<S: Speak + Drop, R: Abort + Wait>(
    rt: &R,
    alloc: Global,
    session: S,
    decisions: &[Decision],
) -> Result<[u128; 3], RecoverFault> {
    let mut sessions = Vec::new(alloc);
    pushed(rt, &mut sessions, session);
    let mut coordinator = Coordinator::new(name(b'c'), sessions);
    let Ok(mut decisions) = Decisions::of(alloc, decisions) else {
        panic!(rt; "no decisions")
    };
    let told = coordinator.recover(rt, alloc, &mut decisions);
    drop(coordinator);
    match told {
        Ok(report) => Ok([report.committed, report.rolled_back, report.missing]),
        Err(fault) => Err(fault),
    }
}

/// A branch of the coordinator's naming is prepared by another client.
const PREPARES: &str = "XA START 0x630000000000000009,0x00,22593
XA END 0x630000000000000009,0x00,22593
XA PREPARE 0x630000000000000009,0x00,22593
";

/// It is rolled back by that client.
const ROLLS_BACK: &str = "XA ROLLBACK 0x630000000000000009,0x00,22593\n";

/// Another one is prepared.
const PREPARES_ANOTHER: &str = "XA START 0x630000000000000007,0x00,22593
XA END 0x630000000000000007,0x00,22593
XA PREPARE 0x630000000000000007,0x00,22593
";

/// What a recovery tells, before which another client prepares a branch, and which says these lines just before this
/// call of the recovery, from 0.
fn told_when_met<R: Abort + Wait>(
    rt: &R,
    alloc: Global,
    left: u64,
    lines: &'static str,
) -> Result<[u128; 3], RecoverFault> {
    let (store, mut passes) = opened(rt, alloc, 16, 2);
    let (inner, mut other_client) = both(rt, &store, &mut passes);
    drop(passes);
    says(rt, &mut other_client, PREPARES);
    let session = Met {
        inner,
        other_client,
        left,
        lines,
    };
    let told = recovered(rt, alloc, session, &[]);
    drop(store);
    told
}

/// A recovery disconnects, lists, finishes what is listed, and lists again.
#[test]
fn another_client_comes_between_two_calls_of_a_recovery(rt: HostRuntime) {
    let quiet = told_when_met(&rt, rt.alloc(), 4, "");
    assert!(rt; quiet == Ok([0, 1, 0]));
    let forestalled = told_when_met(&rt, rt.alloc(), 2, ROLLS_BACK);
    assert!(rt; forestalled == Ok([0, 0, 1]));
    let outrun = told_when_met(&rt, rt.alloc(), 3, PREPARES_ANOTHER);
    assert!(rt; outrun == Err(RecoverFault::StillPrepared { store: 0 }));
}

/// A branch of the coordinator's naming fills a history of four entries, and is prepared.
const FILLS: &[u8] = b"1 XA START 0x630000000000000001,0x00,22593 = 0 OK
1 PUT 'k','v' = 1 OK
1 XA END 0x630000000000000001,0x00,22593 = 2 OK
1 XA PREPARE 0x630000000000000001,0x00,22593 = 3 OK
";

/// What a recovery by a new session tells, after that branch and a renewal.
fn renewed<R: Abort + Wait>(
    rt: &R,
    alloc: Global,
    decision: Decision,
) -> Result<[u128; 3], RecoverFault> {
    let opened = opened(rt, alloc, 4, 2);
    let (store, mut passes) = next_history(rt, alloc, Way::Renew, opened, FILLS, b"");
    let (session, other) = both(rt, &store, &mut passes);
    drop(other);
    drop(passes);
    let told = recovered(rt, alloc, session, &[decision]);
    drop(store);
    told
}

#[test]
fn branch_ends_as_decided_in_a_renewed_store(rt: HostRuntime) {
    let decided = renewed(&rt, rt.alloc(), Decision::Decided);
    assert!(rt; decided == Ok([1, 0, 0]));
    let undecided = renewed(&rt, rt.alloc(), Decision::Undecided);
    assert!(rt; undecided == Ok([0, 1, 0]));
}
