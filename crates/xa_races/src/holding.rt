//! Holds a race of what a script's sessions give.
ghost use Rattle.std.specs.Prelude.{◌≡◌, ◌≤◌, ◌+◌, ℕ, List, length, map, max, vec_len, Some, None, IfOk, IfErr};
ghost use Rattle.std.specs.List.{All, zip};
ghost use Rattle.decision_log.specs.Opens.{IsCapacity};
ghost use Rattle.chain_log.specs.RingOpens.{AreRows};
ghost use Rattle.xa_server.specs.State.{no_state};
ghost use Rattle.xa_store.specs.Passes.{identity_of, log_of};
ghost use Rattle.xa_lines.specs.{Script.lines_of, Limits.script_bytes};
ghost use Rattle.xa_races.specs.Race.{AreRuns, IsGiven, IsReadable, last_session};
ghost use Rattle.xa_races.specs.Outcome.{IsRacedInLog, IsRacedOn, IsRaceText, IsOfRace, IsOfText};
ghost use Rattle.xa_races.specs.HeldOn.{IsHeldInLog, IsHeldEndless, EndsInLog, EndsEndless, IsCaused};

use crate::asked::asked_of;
use crate::given::RaceScript;
use crate::hold_long_race;
use crate::race_fault::script_fault;
use crate::race_lines::read_race;
use crate::race_text::print_outcome;
use std::alloc::{AllocError, Global};
use std::sync::Wait;
use std::thread::Threads;
use xa_lines::ScriptFault;
use xa_store::{Gate, Pass, Run, Store, race};
use xa_xid::{NoMemory, Statement};

/// The runs of these passes, each with the list of statements at the same place. Lists without a pass are left out, and
/// passes without a list.
fn runs_of(
    alloc: Global,
    passes: Vec<Pass>,
    lists: Vec<Vec<Statement>>,
) -> Result<Vec<Run>, NoMemory>
    ensures { IfOk result (λ runs. map (λ run. (run.pass, run.lines)) runs.items ≡ zip passes.items lists.items) }
{
    let mut runs = Vec::new(alloc);
    for (pass, lines) in passes.into_iter().zip(lists) {
        runs.push(Run { pass, lines })?;
    }
    Ok(runs)
}

/// A new store with room for `capacity` entries, and the runs of the sessions 1 to `greatest`, each with its list of
/// statements: the first list is that of session 1.
fn entered(
    alloc: Global,
    greatest: u64,
    lists: Vec<Vec<Statement>>,
    capacity: u64,
) -> Result<(Store, Vec<Run>), NoMemory>
    requires capacity { IsCapacity capacity }
    requires within { greatest ≤ 16 }
    requires all { vec_len lists ≡ 16 }
    ensures belongs { IfOk result (λ both. All (λ run. log_of run.pass ≡ identity_of both.0.log) both.1.items) }
    ensures sessions { IfOk result (λ both. (identity_of both.0.log).sessions ≡ max (length both.1.items) 1) }
    ensures room { IfOk result (λ both. (identity_of both.0.log).capacity ≡ capacity) }
    ensures empty { IfOk result (λ both. both.0.base ≡ no_state) }
    ensures runs { IfOk result
        (λ both. (lines : List (List ℕ)) → greatest ≡ last_session lines
        → IsGiven lines (map (λ list. list.items) lists.items) → AreRuns lines both.1.items) }
{
    // A store has at least one session, also if the script names none. Its sizes are in their ranges, so only memory
    // can be missing.
    let Ok((store, mut passes)) = Store::open(alloc, capacity, greatest.max(1)) else {
        return Err(AllocError);
    };
    // If the script names no session, the store's only one has no run.
    passes.truncate(greatest as usize);
    // The lists of the sessions above `greatest` are empty. They have no pass, and are left out.
    let runs = runs_of(alloc, passes, lists)?;
    Ok((store, runs))
}

/// Holds a race of the sessions 1 to `greatest` in one log of their own with room for `capacity` entries, and gives the
/// text of its outcome. `lists` has the statements of each of the sessions 1 to 16. Faults of the race are returned.
fn hold_in_log<G: Gate + Sync, R: Threads + Wait + Sync>(
    rt: &R,
    alloc: Global,
    greatest: u64,
    lists: Vec<Vec<Statement>>,
    capacity: u64,
    gate: &G,
) -> Result<Vec<u8>, ScriptFault>
    requires capacity { IsCapacity capacity }
    requires within { greatest ≤ 16 }
    requires all { vec_len lists ≡ 16 }
    ensures raced { (lines : List (List ℕ))
        → greatest ≡ last_session lines
        → IsGiven lines (map (λ list. list.items) lists.items)
        → IfOk result (λ text. IsRacedInLog capacity lines text.items) }
    ensures held { (lines : List (List ℕ))
        → greatest ≡ last_session lines
        → IsGiven lines (map (λ list. list.items) lists.items)
        → IfOk result (λ text. IsHeldInLog (G.may_answer gate.now) capacity lines text.items) }
    ensures fault { IfErr result (IsOfRace (Some capacity)) }
    ensures cause { (lines : List (List ℕ))
        → greatest ≡ last_session lines
        → IsGiven lines (map (λ list. list.items) lists.items)
        → IfErr result (IsCaused (EndsInLog (G.may_answer gate.now) capacity lines)) }
{
    // `asked` is made first, since the lists move into the runs.
    let asked = asked_of(alloc, lists.as_slice())?;
    let both = entered(alloc, greatest, lists, capacity)?;
    let (store, runs) = both;
    match race(rt, alloc, &store, runs, gate) {
        Ok(outcome) => {
            let history = outcome.history.as_slice();
            let answers = outcome.answers.as_slice();
            let text = print_outcome(alloc, asked.as_slice(), history, answers)?;
            Ok(text)
        }
        Err(fault) => Err(script_fault(fault)),
    }
}

/// Holds a race of the sessions 1 to `greatest` over a store of their own without an end, whose ring has `rows` slots,
/// and gives the text of its outcome. `lists` has the statements of each of the sessions 1 to 16. Faults of the race
/// are returned.
fn hold_endless<G: Gate + Sync, R: Threads + Wait + Sync>(
    rt: &R,
    alloc: Global,
    greatest: u64,
    mut lists: Vec<Vec<Statement>>,
    rows: u64,
    gate: &G,
) -> Result<Vec<u8>, ScriptFault>
    requires rows { AreRows rows }
    requires within { greatest ≤ 16 }
    requires all { vec_len lists ≡ 16 }
    ensures raced { (lines : List (List ℕ))
        → greatest ≡ last_session lines
        → IsGiven lines (map (λ list. list.items) lists.items)
        → IfOk result (λ text. IsRacedOn lines text.items) }
    ensures held { (lines : List (List ℕ))
        → greatest ≡ last_session lines
        → IsGiven lines (map (λ list. list.items) lists.items)
        → IfOk result (λ text. IsHeldEndless (G.may_answer gate.now) rows lines text.items) }
    ensures fault { IfErr result (IsOfRace None) }
    ensures cause { (lines : List (List ℕ))
        → greatest ≡ last_session lines
        → IsGiven lines (map (λ list. list.items) lists.items)
        → IfErr result (IsCaused (EndsEndless (G.may_answer gate.now) lines)) }
{
    // `asked` is made first, since the lists move into the race.
    let asked = asked_of(alloc, lists.as_slice())?;
    // The lists of the sessions above `greatest` are empty, so these sessions aren't needed.
    lists.truncate(greatest as usize);
    match hold_long_race(rt, alloc, rows, lists, gate) {
        Ok(outcome) => {
            let entries = outcome.history.as_slice();
            let lists = outcome.answers.as_slice();
            let printed = print_outcome(alloc, asked.as_slice(), entries, lists)?;
            Ok(printed)
        }
        Err(fault) => Err(script_fault(fault)),
    }
}

/// Gives what is written for a script: its faulty lines, or the outcome of a race of its sessions in one log.
///
/// `script` has at most 1,048,576 bytes. `capacity` is the number of entries for which the log has room, in
/// `[1, 1024]`. Each session asks `gate` before each of its statements. If a line is faulty, no race is held.
/// Errors: `NoMemory` if an allocation failed. Only if no line is faulty: `GateShut`, `Full` and `ThreadRefused`, as
/// the race returns them. May return `NoMemory`. Waits for its threads.
/// Own rule: docs/COMMANDS.md#race.
pub fn text_in_log<G: Gate + Sync, R: Threads + Wait + Sync>(
    rt: &R,
    alloc: Global,
    script: &[u8],
    capacity: u64,
    gate: &G,
) -> Result<Vec<u8>, ScriptFault>
    requires capacity { IsCapacity capacity }
    requires short { length script.now ≤ script_bytes }
    ensures text { IfOk result (λ text. IsRaceText (Some capacity) script.now text.items) }
    ensures on { IsReadable script.now → IfOk result (λ text. IsHeldInLog (G.may_answer gate.now) capacity
        (lines_of script.now) text.items) }
    ensures fault { IfErr result (IsOfText (Some capacity) script.now) }
    ensures cause { IfErr result (IsCaused (EndsInLog (G.may_answer gate.now) capacity (lines_of script.now))) }
{
    let given = read_race(alloc, script)?;
    let RaceScript {
        faults,
        greatest,
        lists,
    } = given;
    if faults.is_empty() {
        hold_in_log(rt, alloc, greatest, lists, capacity, gate)
    } else {
        Ok(faults)
    }
}

/// Gives what is written for a script: its faulty lines, or the outcome of a race of its sessions over a store without
/// an end, whose ring has `rows` slots, in `[1, 65536]`.
///
/// Otherwise as `text_in_log`, but the fault is never `Full`.
/// May return `NoMemory`. Waits for its threads.
/// Own rule: docs/COMMANDS.md#race-without-an-end.
pub fn text_endless<G: Gate + Sync, R: Threads + Wait + Sync>(
    rt: &R,
    alloc: Global,
    script: &[u8],
    rows: u64,
    gate: &G,
) -> Result<Vec<u8>, ScriptFault>
    requires rows { AreRows rows }
    requires short { length script.now ≤ script_bytes }
    ensures text { IfOk result (λ text. IsRaceText None script.now text.items) }
    ensures on { IsReadable script.now → IfOk result (λ text. IsHeldEndless (G.may_answer gate.now) rows
        (lines_of script.now) text.items) }
    ensures fault { IfErr result (IsOfText None script.now) }
    ensures cause { IfErr result (IsCaused (EndsEndless (G.may_answer gate.now) (lines_of script.now))) }
{
    let given = read_race(alloc, script)?;
    let RaceScript {
        faults,
        greatest,
        lists,
    } = given;
    if faults.is_empty() {
        hold_endless(rt, alloc, greatest, lists, rows, gate)
    } else {
        Ok(faults)
    }
}
