//! Races over a store without an end.
ghost use Rattle.std.specs.{Prelude.{◌≡◌, ◌≤◌, length, map, IfOk, IfErr}, List.{All, AllZip}};
ghost use Rattle.chain_log.specs.RingOpens.{AreRows};
ghost use Rattle.xa_store.specs.Gathered.{last_known};
ghost use Rattle.xa_races.specs.Long.{known_in, AreOfOne, Settles, IsLongOutcome, BlamesLong};
ghost use Rattle.xa_races.specs.LongRace.{IsLongRace, BlamesRace};

use crate::assembling::assembled;
use crate::long_entering::enter_all;
use crate::long_outcome::LongOutcome;
use crate::long_run::LongRun;
use crate::meeting::gather;
use crate::parting::{Parts, first_fault, part};
use crate::racer::{Raced, Racer};
use crate::said::Said;
use std::alloc::Global;
use std::sync::{Arc, Wait};
use std::thread::Threads;
use xa_endless::{EndlessSession, EndlessStore};
use xa_store::{Gate, RaceFault, run_all};
use xa_xid::{NoMemory, Statement};

/// A racer for a run, with room for an answer and an entry for each of its statements. None of them is there yet.
fn ready<'g, G: Gate>(alloc: Global, run: LongRun, gate: &'g G) -> Result<Racer<'g, G>, NoMemory>
    ensures { IfOk result
        (λ racer. (racer.session ≡ run.session) × (racer.lines.items ≡ run.lines.items)
        × (racer.gate.now ≡ gate.entry.now)) }
{
    let LongRun { session, lines } = run;
    let answers = Vec::with_capacity(alloc, lines.len())?;
    let added = Vec::with_capacity(alloc, lines.len())?;
    Ok(Racer {
        session,
        lines,
        said: Said { answers, added },
        gate,
    })
}

/// A racer for each run.
fn line_up<'g, G: Gate>(
    alloc: Global,
    runs: Vec<LongRun>,
    gate: &'g G,
) -> Result<Vec<Racer<'g, G>>, NoMemory>
    ensures { IfOk result
        (λ racers. AllZip
        (λ run racer. (racer.session ≡ run.session) × (racer.lines.items ≡ run.lines.items)
        × (racer.gate.now ≡ gate.entry.now))
        runs.items racers.items) }
{
    let mut racers = Vec::with_capacity(alloc, runs.len())?;
    for run in runs {
        let racer = ready(alloc, run, gate)?;
        racers.push_reserved(racer);
    }
    Ok(racers)
}

/// Returns how many entries the last session of the list has seen; 0 if the list is empty.
///
/// Takes no memory. Doesn't wait.
pub fn count_seen(sessions: &[EndlessSession]) -> u64
    // Proved (races, long-count-seen): How many entries the last of some sessions has seen is counted.
    ensures { result ≡ length (last_known (map known_in sessions.now)).seen }
{
    if sessions.is_empty() {
        return 0;
    }
    sessions[sessions.len() - 1].seen()
}

/// Has the sessions meet, after their threads have ended, and puts the history from the place `from` on together, of
/// what they added. Returns it with the answers and the sessions.
///
/// May return `NoMemory`; it is also returned if they have seen an entry there that none of them added.
fn settle(alloc: Global, from: u64, raced: Vec<Raced>) -> Result<LongOutcome, NoMemory>
    requires { AreOfOne (map (λ one. one.session) raced.items) }
    ensures { IfOk result (Settles from raced.items) }
{
    let parts = part(alloc, raced)?;
    let Parts {
        mut sessions,
        answers,
        added,
    } = parts;
    // Only after they have met has the last of them seen the whole history.
    gather(&mut sessions);
    let count = count_seen(sessions.as_slice());
    let history = assembled(alloc, from, count, added)?;
    Ok(LongOutcome {
        history,
        answers,
        sessions,
    })
}

/// How many runs have a statement. A run without one never comes to the gate: others would wait for it there in vain.
fn count_speakers(runs: &[LongRun]) -> u64 {
    runs.iter().filter(|run| !run.lines.is_empty()).count() as u64
}

/// Runs each of the runs on a thread of its own. Returns all answers, the entries that were added, and the sessions.
///
/// The runs are of sessions of this store. `from` is how many entries the store's history has; nobody else may add to
/// it meanwhile. Each run executes its statements in order, and asks the gate before each. Errors: `GateShut` if the
/// gate stopped a run, `NoMemory` if an allocation failed, `ThreadRefused` if a run's thread couldn't be started. A
/// refused thread, or memory that was missing to start the runs or to list what they return, comes first; then the
/// fault of the first run in the list that has one; then memory that is missing to put the outcome together. `Full` is
/// never returned. A fault of one run doesn't stop the others. After an error all sessions are dropped.
/// May return `NoMemory`. Waits for its threads, which may wait: no number of tries is promised.
/// Own rule: docs/RATTLE.md#races-without-an-end.
pub fn race_on<G: Gate + Sync, R: Threads + Wait + Sync>(
    rt: &R,
    alloc: Global,
    store: &Arc<EndlessStore>,
    from: u64,
    runs: Vec<LongRun>,
    gate: &G,
) -> Result<LongOutcome, RaceFault>
    requires { All (λ run. run.session.store.value ≡ store.now.value) runs.items }
    // Proved (races, long-one-history): One history explains the answers of a race over a store without an end. Each
    //   is the reply after a prefix that has all that its run's session had seen. Each statement that is logged is in
    //   the history once, in order. The entries that are returned are those of the history from the given place on,
    //   and are of sessions up to the greatest that has a run.
    // Proved (races, long-gate-opened): If all runs of such a race are answered, the gate can let in each of their
    //   statements.
    ensures outcome { IfOk result (IsLongOutcome (G.may_answer gate.now) from runs.items) }
    // Proved (races, long-fault): `GateShut` of such a race names a statement at which the gate can stop the run. A
    //   history explains the answers to those before it, and has nothing more of that session. `Full` is never
    //   returned, and `ThreadRefused` only if there is a run.
    ensures fault { IfErr result (BlamesLong (G.may_answer gate.now) runs.items) }
{
    // `store` is only for the contract: the sessions have it.
    // The gate is told before any thread starts, as sessions may wait there for as many as are announced.
    gate.announce(count_speakers(runs.as_slice()));
    let racers = line_up(alloc, runs, gate)?;
    let raced = run_all(rt, alloc, racers)?;
    if let Some(fault) = first_fault(raced.as_slice()) {
        return Err(fault);
    }
    let outcome = settle(alloc, from, raced)?;
    Ok(outcome)
}

/// Races lists of statements over a new store without an end, each list by a session of its own on a thread of its own.
///
/// The first list is that of session 1; there are at most 16. The store's ring has `rows` slots, in `[1, 65536]`. Fewer
/// slots than the race adds entries are enough: a session that is behind goes on by itself. Places count from the
/// store's first entry, and the history that is returned has all entries. Errors and gate: as for `race_on`.
/// After an error everything is dropped.
/// May return `NoMemory`. Waits for its threads, which may wait: no number of tries is promised.
/// Own rule: docs/RATTLE.md#races-without-an-end.
pub fn hold_long_race<G: Gate + Sync, R: Threads + Wait + Sync>(
    rt: &R,
    alloc: Global,
    rows: u64,
    lists: Vec<Vec<Statement>>,
    gate: &G,
) -> Result<LongOutcome, RaceFault>
    requires rows { AreRows rows }
    requires few { length lists.items ≤ 16 }
    // Proved (races, long-race): One history explains all answers of lists that are raced over a store without an end:
    //   from its first entry on, of any length, with entries of the lists' sessions alone. The store has as many slots
    //   as were asked for, and the gate can let in each statement.
    ensures outcome { IfOk result (IsLongRace (G.may_answer gate.now) rows (map (λ list. list.items) lists.items)) }
    // Proved (races, long-fault)
    ensures fault { IfErr result (BlamesRace (G.may_answer gate.now) (map (λ list. list.items) lists.items)) }
{
    // A store has at least one session, also if there is no list. Its sizes are in their ranges, so only memory can be
    // missing.
    let Ok(store) = EndlessStore::open(alloc, rows, (lists.len() as u64).max(1)) else {
        return Err(RaceFault::NoMemory);
    };
    let runs = enter_all(alloc, &store, lists)?;
    // The history of a new store has 0 entries.
    race_on(rt, alloc, &store, 0, runs, gate)
}
