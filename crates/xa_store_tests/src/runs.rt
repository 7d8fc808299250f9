//! Races of runs whose statements a script says.
ghost use Rattle.std.specs.{Prelude.◌≡◌, List.All};
ghost use Rattle.xa_store.specs.Passes.{identity_of, log_of};

use crate::player_lines::given_in;
use crate::stores::pushed;
use std::alloc::Global;
use std::process::Abort;
use xa_lines::split_line;
use xa_store::{Pass, Run, Store};
use xa_xid::{SessionNo, Statement};

/// Appends the statement of a line if the line is of a session.
fn take_line(rt: &impl Abort, lines: &mut Vec<Statement>, session: SessionNo, line: &[u8]) {
    let Some((number, statement)) = given_in(line) else {
        panic!(rt; "not a line: {line:?}")
    };
    if number == session {
        pushed(rt, lines, statement);
    }
}

/// The statements of a session in a script.
fn lines_of(rt: &impl Abort, alloc: Global, session: SessionNo, script: &[u8]) -> Vec<Statement> {
    let mut lines = Vec::new(alloc);
    let mut rest = script;
    while !rest.is_empty() {
        let (line, behind) = split_line(rest);
        take_line(rt, &mut lines, session, line);
        rest = behind;
    }
    lines
}

/// The run of a session by a pass.
fn run_of(rt: &impl Abort, alloc: Global, number: u64, pass: Pass, script: &[u8]) -> Run
    ensures { result.pass ≡ pass }
{
    let Some(session) = SessionNo::of(number) else {
        panic!(rt; "a session")
    };
    let lines = lines_of(rt, alloc, session, script);
    Run { pass, lines }
}

/// The runs of a store's first two passes, the second first.
pub(crate) fn two_runs(
    rt: &impl Abort,
    alloc: Global,
    store: &Store,
    first: Pass,
    second: Pass,
    script: &[u8],
) -> Vec<Run>
    requires first { log_of first ≡ identity_of store.now.log }
    requires second { log_of second ≡ identity_of store.now.log }
    ensures { All (λ run. log_of run.pass ≡ identity_of store.now.log) result.items }
{
    let _store = store;
    let mut runs = Vec::new(alloc);
    pushed(rt, &mut runs, run_of(rt, alloc, 2, second, script));
    pushed(rt, &mut runs, run_of(rt, alloc, 1, first, script));
    runs
}
