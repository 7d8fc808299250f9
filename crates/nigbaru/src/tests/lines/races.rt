//! Races of scripts over streams that fault, and at gates of their own.
ghost use Rattle.decision_log.specs.Opens.{IsCapacity};

use std::alloc::{Alloc, Global};
use std::io::{Read, Write};
use std::process::Abort;
use std::sync::Wait;
use std::sync::atomic::{AtomicU64, Ordering};
use std::test::Fail;
use std::thread::Threads;
use xa_lines::{CutReader, CutWriter, ScriptFault};
use xa_races::{race_script, race_script_in_rounds};
use xa_store::{Gate, OpenGate};
use xa_xid::SessionNo;

/// How a script is raced.
#[derive(Clone, Copy, Debug)]
enum RaceKind {
    /// In one history.
    Once,
    /// Over a store without an end.
    Endless,
}

/// Races the script that a reader gives.
fn race<I: Read, O: Write, G: Gate + Sync, R: Threads + Wait + Sync + Alloc<A = Global>>(
    rt: &R,
    race_kind: RaceKind,
    input: &mut I,
    output: &mut O,
    capacity: u64,
    gate: &G,
) -> Result<(), ScriptFault>
    requires { IsCapacity capacity }
{
    let alloc = rt.alloc();
    match race_kind {
        RaceKind::Once => race_script(rt, alloc, input, output, capacity, gate),
        RaceKind::Endless => race_script_in_rounds(rt, alloc, input, output, capacity, gate),
    }
}

/// Asks for a race to end in this fault, with nothing written.
fn writes_nothing<I, G, R>(rt: &R, race_kind: RaceKind, input: &mut I, gate: &G, fault: ScriptFault)
where
    I: Read,
    G: Gate + Sync,
    R: Abort + Threads + Wait + Sync + Alloc<A = Global>,
{
    let mut output = Vec::new(rt.alloc());
    let result = race(rt, race_kind, input, &mut output, 1024, gate);
    assert_eq!(rt; result, Err(fault));
    assert!(rt; output.is_empty());
}

/// Asks for a race that would write this text to write just what the writer has room for, however little, and to end at
/// once then.
fn writes_prefixes<R: Abort + Threads + Wait + Sync + Alloc<A = Global>>(
    rt: &R,
    race_kind: RaceKind,
    script: &[u8],
    text: &[u8],
    capacity: u64,
)
    requires { IsCapacity capacity }
{
    for room in 0..text.len() {
        let mut input = script;
        let mut output = CutWriter::once(rt.alloc(), 5, room);
        let result = race(rt, race_kind, &mut input, &mut output, capacity, &OpenGate);
        assert_eq!(rt; result, Err(ScriptFault::Write));
        assert!(rt; output.as_slice() == &text[..room] && output.writes_after_a_fault() == 0);
    }
}

/// A gate that lets nobody in.
struct ShutGate;

impl Gate for ShutGate {
    fn enter(&self, _session: SessionNo, _line: u64) -> bool {
        false
    }
}

/// A gate at which sessions 1 and 2 meet: each raises its flag and then turns until the other's is up.
#[derive(Drop)]
struct Meeting {
    first: AtomicU64,
    second: AtomicU64,
}

impl Gate for Meeting {
    fn enter(&self, session: SessionNo, _line: u64) -> bool {
        let (own, other) = if session.get() == 1 {
            (&self.first, &self.second)
        } else {
            (&self.second, &self.first)
        };
        own.store(1, Ordering::SeqCst);
        for _ in 0..100_000_000u64 {
            if other.load(Ordering::SeqCst) == 1 {
                return true;
            }
        }
        false
    }
}

/// A script whose second line is faulty.
const FAULTY: &[u8] = b"1 XA RECOVER\n2 XA RECOVER now\n";

/// What its race writes.
const TOLD: &[u8] = b"LINE 2 ERROR 1064 (42000): syntax fault at byte 11\n";

/// A script of one session.
const SCRIPT: &[u8] = b"1 XA START 'a'\n1 XA END 'a'\n1 XA RECOVER\n";

/// What its race writes: the case list_in_a_branch.
const OUTCOME: &[u8] =
    b"HISTORY 2\n0 1 XA START 0x61,X'',1\n1 1 XA END 0x61,X'',1\n1 0 OK\n1 1 OK\n1 2 ROWS 0\n";

#[test]
fn with_faulty_lines_no_gate_is_asked(rt: HostRuntime) -> Result<(), Fail> {
    for race_kind in [RaceKind::Once, RaceKind::Endless] {
        let mut input = FAULTY;
        let mut output = Vec::new(rt.alloc());
        race(&rt, race_kind, &mut input, &mut output, 1, &ShutGate)?;
        assert_eq!(rt; output.as_slice(), TOLD);
    }
    Ok(())
}

#[test]
fn write_fault_leaves_a_prefix(rt: HostRuntime) {
    writes_prefixes(&rt, RaceKind::Once, FAULTY, TOLD, 1);
    writes_prefixes(&rt, RaceKind::Once, SCRIPT, OUTCOME, 1024);
    writes_prefixes(&rt, RaceKind::Endless, SCRIPT, OUTCOME, 1);
}

#[test]
fn script_that_is_not_read_is_not_raced(rt: HostRuntime) {
    for reads in 0..3 {
        let mut input = CutReader::once(b"1 GET 'k'", 3, reads);
        writes_nothing(
            &rt,
            RaceKind::Once,
            &mut input,
            &ShutGate,
            ScriptFault::Read,
        );
        assert_eq!(rt; input.reads_after_a_fault(), 0);
    }
}

#[test]
fn shut_gate_writes_nothing(rt: HostRuntime) {
    for race_kind in [RaceKind::Once, RaceKind::Endless] {
        let mut input = SCRIPT;
        writes_nothing(&rt, race_kind, &mut input, &ShutGate, ScriptFault::GateShut);
    }
}

/// What two sessions that start one branch at once are answered, if session 1 comes first.
const FIRST_WINS: &[u8] =
    b"HISTORY 1\n0 1 XA START 0x61,X'',1\n1 0 OK\n2 1 ERROR 1440 (XAE08): XAER_DUPID xid already exists\n";

/// The same, if session 2 comes first.
const SECOND_WINS: &[u8] =
    b"HISTORY 1\n0 2 XA START 0x61,X'',1\n1 1 ERROR 1440 (XAE08): XAER_DUPID xid already exists\n2 0 OK\n";

#[test]
fn sessions_run_side_by_side(rt: HostRuntime) -> Result<(), Fail> {
    let gate = Meeting {
        first: AtomicU64::new(0),
        second: AtomicU64::new(0),
    };
    let mut input = b"1 XA START 'a'\n2 XA START 'a'\n".as_slice();
    let mut output = Vec::new(rt.alloc());
    race(&rt, RaceKind::Once, &mut input, &mut output, 1024, &gate)?;
    let text = output.as_slice();
    assert!(rt; text == FIRST_WINS || text == SECOND_WINS);
    Ok(())
}
