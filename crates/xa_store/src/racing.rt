//! Runs of sessions on threads.
ghost use Rattle.std.specs.{Prelude.{◌≡◌, length, count_by, IfOk, IfErr, OnOk}, List.{All, AllZip}};
ghost use Rattle.xa_store.specs.{Passes.{identity_of, log_of, known_of}, Legal.{IsOutcome, LetsIn, Blames}};
ghost use Rattle.xa_store.specs.Lowest.{speaks, TellsLowest};

use crate::closing::{Closed, close_all};
use crate::growing::and_last;
use crate::running::Started;
use crate::spread::run_all;
use crate::{Gate, Log, Outcome, RaceFault, Run, Store};
use std::alloc::Global;
use std::sync::Wait;
use std::thread::Threads;
use xa_xid::NoMemory;

/// Connects the run's pass to the store, so that its session can give the run's statements. After `NoMemory` the run is
/// dropped.
fn start<'a, G: Gate>(
    alloc: Global,
    store: &'a Store,
    run: Run,
    gate: &'a G,
) -> Result<Started<'a, Log, G>, NoMemory>
    requires { log_of run.pass ≡ identity_of store.now.log }
    ensures { IfOk result
        (λ started. (started.session.base.now ≡ store.entry.now.base)
        × (started.session.pass ≡ run.pass)
        × (started.lines.items ≡ run.lines.items)
        × (started.gate.now ≡ gate.entry.now)) }
{
    let Run { pass, lines } = run;
    match store.connect(pass) {
        Ok(session) => Ok(Started {
            session,
            lines,
            alloc,
            gate,
        }),
        Err((_, error)) => Err(error),
    }
}

/// Connects the pass of each run to the store, and returns what was started in the order of the runs. After `NoMemory`
/// all runs are dropped.
fn start_all<'a, G: Gate>(
    alloc: Global,
    store: &'a Store,
    mut runs: Vec<Run>,
    gate: &'a G,
) -> Result<Vec<Started<'a, Log, G>>, NoMemory>
    requires { All (λ run. log_of run.pass ≡ identity_of store.now.log) runs.items }
    ensures { IfOk result
        (λ all. AllZip
        (λ run started. (started.session.base.now ≡ store.entry.now.base)
        × (started.session.pass ≡ run.pass)
        × (started.lines.items ≡ run.lines.items)
        × (started.gate.now ≡ gate.entry.now))
        runs.items all.items) }
{
    let Some(run) = runs.pop() else {
        return Ok(Vec::new(alloc));
    };
    // The others are started first, so the last one goes to the end of the list.
    let others = start_all(alloc, store, runs, gate);
    and_last(others, start(alloc, store, run, gate))
}

/// How many runs have a statement. A run without one never comes to the gate: others would wait for it there in vain.
fn count_speakers(runs: &[Run]) -> u64
    ensures { result ≡ count_by speaks runs.now }
{
    runs.iter().filter(|run| !run.lines.is_empty()).count() as u64
}

/// Runs each of the runs on a thread of its own, and returns all answers and the history that explains them.
///
/// Each run executes its statements in order, and asks the gate before each. Errors: `GateShut` if the gate
/// stopped a run, `Full` if a run's statement is to be logged and the log has no room, `NoMemory` if an
/// allocation failed, `ThreadRefused` if a run's thread couldn't be started. Of several the fault of the
/// lowest session is returned; `NoMemory` outside of the runs only if no run has a fault.
/// After an error the passes are dropped. A fault of one run doesn't stop the others, and the store's history keeps
/// what was logged. If memory was missing before the first thread started, no run began.
/// May return `NoMemory`. Waits for its threads, which may wait: no number of tries is promised.
/// Own rule: docs/RATTLE.md#races.
pub fn race<G: Gate + Sync, R: Threads + Wait + Sync>(
    rt: &R,
    alloc: Global,
    store: &Store,
    runs: Vec<Run>,
    gate: &G,
) -> Result<Outcome, RaceFault>
    requires { All (λ run. log_of run.pass ≡ identity_of store.now.log) runs.items }
    // Proved (stores, race-one-history): One history explains the answers of a race. Each is the reply after
    //   a prefix that has all that its run's pass had seen, and the places of a run never fall.
    // Proved (stores, race-logged-once): Each statement of a race that is logged is in the history once, in
    //   order, after what its pass had added before.
    // Proved (stores, race-history-has-all): The history of a race is what the last pass has seen in the end.
    //   It begins with what each pass has seen, and its entries of each pass's number are that pass's own.
    ensures legal { IfOk result (λ outcome. IsOutcome store.now.base runs.items outcome) }
    // Proved (stores, race-gate-opened): If all runs of a race are answered, the gate can let in each of their
    //   statements.
    ensures opened { OnOk result (All (λ run. LetsIn (G.may_answer gate.now) (known_of run.pass).number
        (length run.lines.items)) runs.items) }
    // Proved (stores, race-fault-cause): A fault `GateShut` or `Full` of a race names one statement of a run.
    //   Those before it were answered, and a history explains their answers.
    // Proved (stores, race-fault-there): At `GateShut` the gate can stop the named session at the named line.
    //   At `Full` the statement is to be logged after a history that is as long as the log can be.
    ensures fault { IfErr result (λ fault. Blames (G.may_answer gate.now) store.now.base runs.items fault) }
    // Proved (stores, race-lowest-fault): `GateShut` and `Full` are returned of the lowest session that has a
    //   fault: all runs of lower sessions were answered to their ends. `ThreadRefused` is returned only if
    //   there is a run.
    ensures lowest { IfErr result (TellsLowest (G.may_answer gate.now) store.now.base runs.items) }
{
    // Before the first thread starts: a gate may have runs wait for as many as are announced.
    gate.announce(count_speakers(runs.as_slice()));
    let started = start_all(alloc, store, runs, gate)?;
    let returned = run_all(rt, alloc, started)?;
    let closed = close_all(alloc, store, returned)?;
    let Closed {
        history,
        passes,
        done,
    } = closed;
    Ok(Outcome {
        history,
        answers: done,
        passes,
    })
}
