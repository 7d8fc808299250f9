//! The numbers and the texts of faults. Those of `--allow` and `--from` are in cases/judge. Not tested are the texts of
//! stores without an end and their rings, and of `Decisions::of`. No clause can name a text, since the derive that writes
//! it has no contract, and most reach no job of the program.
use arrayvec::ArrayVec;
use decision_log::{AddFault, OpenFault};
use std::alloc::Global;
use std::fmt::Display;
use std::process::Abort;
use xa_coordinator::{BeginFault, Cause, Closed, Ending, RecoverFault, Vote, WorkFault};
use xa_lines::ScriptFault;
use xa_server::{BranchState, XaError};
use xa_session::Fault;
use xa_statement::SyntaxFault;
use xa_store::RaceFault;
use xa_xid::{LiteralFault, SessionNo};

/// Asks for each of these to have its number, from 1 on.
macro_rules! are_counted {
    ($rt:expr, $all:expr) => {
        for (one, number) in $all.iter().zip(1..) {
            assert!($rt; one.number() == number);
        }
    };
}

/// Whether a value reads as this text.
fn reads_as<T: Display>(alloc: Global, one: &T, wanted: &str) -> bool {
    match format!(in alloc; "{one}") {
        Ok(text) => text.as_str() == wanted,
        Err(_) => false,
    }
}

/// Asks for each of these to read as its line.
fn read_as<T: Display>(rt: &impl Abort, alloc: Global, all: &[T], texts: &str) {
    assert!(rt; all.len() == texts.lines().count());
    for (one, wanted) in all.iter().zip(texts.lines()) {
        assert!(rt; reads_as(alloc, one, wanted), "{wanted}");
    }
}

/// docs/COMMANDS.md#scripts; docs/STATEMENTS.md#literals.
#[test]
fn statements_and_literals(rt: HostRuntime) {
    let places = [SyntaxFault { at: u64::MAX }];
    read_as(
        &rt,
        rt.alloc(),
        &places,
        "syntax fault at byte 18446744073709551615",
    );
    let faults = [
        LiteralFault::NotALiteral,
        LiteralFault::Unclosed,
        LiteralFault::OddHex,
        LiteralFault::TooLong,
        LiteralFault::NumberTooLarge,
    ];
    are_counted!(rt, faults);
    read_as(&rt, rt.alloc(), &faults, LITERALS);
}

const LITERALS: &str = "no literal begins there
the closing quote is missing
an odd number of hexadecimal digits
more than 64 bytes
the number is above 2^64-1
";

/// docs/RATTLE.md#stores; docs/INTERNALS.md#what-a-log-promises.
#[test]
fn logs(rt: HostRuntime) {
    let unopened = [
        OpenFault::CapacityOutOfRange,
        OpenFault::SessionsOutOfRange,
        OpenFault::NoMemory,
    ];
    are_counted!(rt, unopened);
    read_as(&rt, rt.alloc(), &unopened, UNOPENED);
    let unadded = [
        AddFault::Overtaken { front: 1024 },
        AddFault::Full,
        AddFault::Busy,
    ];
    are_counted!(rt, unadded);
    read_as(&rt, rt.alloc(), &unadded, UNADDED);
}

const UNOPENED: &str = "the capacity is not from 1 to 1024
the number of sessions is not from 1 to 16
out of memory
";

const UNADDED: &str = "others have added: 1024 entries are seen now
log full
another pass has the turn
";

/// docs/RATTLE.md#faults-of-a-session; docs/RATTLE.md#races.
#[test]
fn sessions_and_races(rt: HostRuntime) {
    let unanswered = [
        Fault::Overtaken { front: 1024 },
        Fault::Full,
        Fault::NoMemory,
        Fault::Busy,
    ];
    are_counted!(rt, unanswered);
    read_as(&rt, rt.alloc(), &unanswered, UNANSWERED);
    let session = SessionNo::of(16).unwrap();
    let line = 4999;
    let unraced = [
        RaceFault::GateShut { session, line: 0 },
        RaceFault::Full { session, line },
        RaceFault::NoMemory,
        RaceFault::ThreadRefused,
    ];
    are_counted!(rt, unraced);
    read_as(&rt, rt.alloc(), &unraced, UNRACED);
}

const UNANSWERED: &str = "others have added: 1024 entries are seen now
log full
out of memory
another session has the turn
";

const UNRACED: &str = "gate shut for session 16 at its statement 0
log full for session 16 at its statement 4999
out of memory
thread refused
";

/// docs/COMMANDS.md#messages.
#[test]
fn scripts(rt: HostRuntime) {
    let faults = [
        ScriptFault::Read,
        ScriptFault::TooLong,
        ScriptFault::Write,
        ScriptFault::NoMemory,
        ScriptFault::Full,
        ScriptFault::GateShut,
        ScriptFault::ThreadRefused,
    ];
    are_counted!(rt, faults);
    read_as(&rt, rt.alloc(), &faults, SCRIPTS);
}

const SCRIPTS: &str = "read fault
script too long
write fault
out of memory
log full
gate shut
thread refused
";

/// docs/COORDINATOR.md#faults; docs/COORDINATOR.md#decisions; docs/COORDINATOR.md#votes.
#[test]
fn beginnings_and_decisions(rt: HostRuntime) {
    let spent = [BeginFault::NumbersSpent, BeginFault::NoMemory];
    are_counted!(rt, spent);
    read_as(&rt, rt.alloc(), &spent, SPENT);
    read_as(&rt, rt.alloc(), &[Closed], CLOSED);
    let causes = [Cause::Session(Fault::Full), Cause::Refused(XaError::Nota)];
    read_as(&rt, rt.alloc(), &causes, CAUSES);
}

const SPENT: &str = "all 1,000,000 numbers were given\nout of memory\n";

const CLOSED: &str = "the transaction's number is closed, or was never given\n";

/// A cause is a session's fault or a refusal.
const CAUSES: &str = "log full\nXAER_NOTA unknown xid\n";

/// docs/COORDINATOR.md#work; docs/COORDINATOR.md#recovery.
#[test]
fn works_and_recoveries(rt: HostRuntime) {
    let unworked = [
        WorkFault::Session(Fault::Full),
        WorkFault::Refused(XaError::Nota),
        WorkFault::Lost,
    ];
    are_counted!(rt, unworked);
    read_as(&rt, rt.alloc(), &unworked, UNWORKED);
    let fault = Fault::NoMemory;
    let error = XaError::Rmfail(BranchState::Active);
    let unrecovered = [
        RecoverFault::Session { store: 15, fault },
        RecoverFault::StillPrepared { store: 0 },
        RecoverFault::NoMemory,
        RecoverFault::Refused { store: 1, error },
    ];
    are_counted!(rt, unrecovered);
    read_as(&rt, rt.alloc(), &unrecovered, UNRECOVERED);
}

const UNWORKED: &str = "log full
XAER_NOTA unknown xid
this coordinator has no open branch of the transaction in the store
";

const UNRECOVERED: &str = "store 15: out of memory
store 0: another branch of this coordinator was prepared meanwhile
out of memory
store 1: XAER_RMFAIL state ACTIVE
";

/// In the order of docs/COORDINATOR.md#votes and docs/COORDINATOR.md#finishing. They have no texts.
#[test]
fn votes_and_endings(rt: HostRuntime) {
    let stores = ArrayVec::new();
    let cause = Cause::Session(Fault::Busy);
    let endings = [
        Ending::Committed,
        Ending::RolledBack,
        Ending::Hazard { stores },
        Ending::Unfinished { store: 0, cause },
    ];
    are_counted!(rt, endings);
    assert!(rt; Vote::Nothing.number() == 4);
}

/// Whether a refusal's number, SQLSTATE, XA code (0 for none) and text are these.
fn is_told(alloc: Global, error: XaError, wanted: &str) -> bool {
    let code = error.xa_code().unwrap_or(0);
    match format!(in alloc; "{} {} {code} {error}", error.number(), error.sqlstate()) {
        Ok(told) => told.as_str() == wanted,
        Err(_) => false,
    }
}

/// docs/STATEMENTS.md#errors.
#[test]
fn refusals(rt: HostRuntime) {
    let errors = [
        XaError::Nota,
        XaError::Inval,
        XaError::Rmfail(BranchState::NonExisting),
        XaError::Rmfail(BranchState::Active),
        XaError::Rmfail(BranchState::Idle),
        XaError::Rmfail(BranchState::Prepared),
        XaError::Dupid,
        XaError::RowLocked,
    ];
    for (error, wanted) in errors.iter().zip(REFUSALS.lines()) {
        assert!(rt; is_told(rt.alloc(), *error, wanted), "{wanted}");
    }
}

const REFUSALS: &str = "1397 XAE04 -4 XAER_NOTA unknown xid
1398 XAE05 -5 XAER_INVAL clause not supported
1399 XAE07 -7 XAER_RMFAIL state NON-EXISTING
1399 XAE07 -7 XAER_RMFAIL state ACTIVE
1399 XAE07 -7 XAER_RMFAIL state IDLE
1399 XAE07 -7 XAER_RMFAIL state PREPARED
1440 XAE08 -8 XAER_DUPID xid already exists
3572 HY000 0 row locked by another branch
";
