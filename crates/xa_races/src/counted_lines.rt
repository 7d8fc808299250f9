//! Races lines of several sessions of one store, again and again.
ghost use Rattle.std.specs.{Prelude.{◌≡◌, IfOk, IfErr}, List.All};
ghost use Rattle.xa_races.specs.Came.{IsOfRace};

use crate::laying::lay_out;
use crate::race_fault::script_fault;
use crate::{LongRun, count_seen, race_on};
use std::alloc::{AllocError, Global};
use std::sync::{Arc, Wait};
use std::thread::Threads;
use xa_endless::{EndlessSession, EndlessStore};
use xa_lines::ScriptFault;
use xa_orders::Line;
use xa_statement::read_statement;
use xa_store::{Gate, OpenGate};
use xa_xid::{NoMemory, SessionNo, Statement};

/// A store without an end, and all its sessions, each of which has seen the whole history.
#[derive(Drop)]
pub(crate) struct Opened {
    /// The store.
    store: Arc<EndlessStore>,
    /// Its sessions, from number 1 on.
    sessions: Vec<EndlessSession>,
    // All sessions are of this store.
    ghost mine: { All (λ session. session.store.value ≡ store.value) sessions.items },
}

/// The sessions 1 to `count`, of a new store that has as many. May return `NoMemory`.
fn enter_all(
    alloc: Global,
    store: &Arc<EndlessStore>,
    count: u64,
) -> Result<Vec<EndlessSession>, NoMemory>
    ensures { IfOk result (λ sessions. All (λ session. session.store.value ≡ store.now.value) sessions.items) }
{
    let mut sessions = Vec::new(alloc);
    for index in 0..count {
        // Nobody has a session of a new store, so only memory can be missing.
        let Ok(session) = EndlessStore::take(store, index + 1) else {
            return Err(AllocError);
        };
        sessions.push(session)?;
    }
    Ok(sessions)
}

impl Opened {
    /// Opens a store for `sessions` sessions, in `[1, 16]`, whose ring has `rows` slots, in `[1, 65536]`.
    ///
    /// May return `NoMemory`.
    pub(crate) fn new(alloc: Global, rows: u64, sessions: u64) -> Result<Opened, NoMemory> {
        // The sizes are in their ranges, so only memory can be missing.
        let Ok(store) = EndlessStore::open(alloc, rows, sessions) else {
            return Err(AllocError);
        };
        let sessions = enter_all(alloc, &store, sessions)?;
        Ok(Opened { store, sessions })
    }
}

/// The statements that the session gives, in order.
fn statements_by(
    alloc: Global,
    lines: &[Line<'_>],
    session: SessionNo,
) -> Result<Vec<Statement>, NoMemory> {
    let mut statements = Vec::new(alloc);
    for line in lines {
        if line.session() == session {
            // The text of a line of a script that has no faults is always read.
            if let Ok(statement) = read_statement(line.text()) {
                statements.push(statement)?;
            }
        }
    }
    Ok(statements)
}

/// The runs of all sessions of a store, in order, each with the statements that it gives on these lines.
fn runs_of(
    alloc: Global,
    store: &Arc<EndlessStore>,
    sessions: Vec<EndlessSession>,
    lines: &[Line<'_>],
) -> Result<Vec<LongRun>, NoMemory>
    requires { All (λ session. session.store.value ≡ store.now.value) sessions.items }
    ensures { IfOk result (λ runs. All (λ run. run.session.store.value ≡ store.now.value) runs.items) }
{
    let mut runs = Vec::new(alloc);
    for session in sessions {
        let lines = statements_by(alloc, lines, session.number())?;
        runs.push(LongRun { session, lines })?;
    }
    // `store` is only for the contract: the sessions have it.
    Ok(runs)
}

/// Races lines of several sessions. Appends what they are answered, in their order, and returns the store after them.
///
/// If `renews` is false, the lines have room for `capacity` entries, else for any number. Each session asks `gate`
/// before each of its lines. Errors: `NoMemory`, `GateShut` and `ThreadRefused`, as the race returns them; `Full` if
/// the lines add more entries than there is room for. After an error the store is dropped. May return `NoMemory`. Waits
/// for its threads.
pub(crate) fn race_lines<G: Gate + Sync, R: Threads + Wait + Sync>(
    rt: &R,
    alloc: Global,
    opened: Opened,
    lines: &[Line<'_>],
    capacity: u64,
    renews: bool,
    gate: &G,
    text: &mut Vec<u8>,
) -> Result<Opened, ScriptFault>
    ensures { IfErr result (IsOfRace renews) }
{
    let Opened { store, sessions } = opened;
    // Entries that are there already aren't the race's: its history begins here. All sessions have seen them all.
    let from = count_seen(sessions.as_slice());
    let runs = runs_of(alloc, &store, sessions, lines)?;
    match race_on(rt, alloc, &store, from, runs, gate) {
        Ok(outcome) => {
            // The store itself has no end. A log with room for `capacity` entries would have been full.
            if !renews && outcome.history.len() as u64 > capacity {
                return Err(ScriptFault::Full);
            }
            lay_out(alloc, text, lines, outcome.answers.as_slice())?;
            let sessions = outcome.sessions;
            Ok(Opened { store, sessions })
        }
        Err(fault) => Err(script_fault(fault)),
    }
}

/// Has the sessions carry lines out one after another, and appends what they are answered. Returns the store after
/// them. `capacity`, at least 1, and `renews` are those of the race, so there is always room for the entry of a line.
///
/// Errors: `NoMemory` and `ThreadRefused`, as the race of a line returns them. `text` may then have the first answers.
/// May return `NoMemory`. Waits for its threads.
pub(crate) fn race_each<R: Threads + Wait + Sync>(
    rt: &R,
    alloc: Global,
    mut opened: Opened,
    lines: &[Line<'_>],
    capacity: u64,
    renews: bool,
    text: &mut Vec<u8>,
) -> Result<Opened, ScriptFault>
    ensures { IfErr result (IsOfRace renews) }
{
    for place in 0..lines.len() {
        let one = &lines[place..place + 1];
        // The gate of the races is asked only before lines side by side.
        opened = race_lines(rt, alloc, opened, one, capacity, renews, &OpenGate, text)?;
    }
    Ok(opened)
}
