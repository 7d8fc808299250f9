//! Races a script many times, and counts its outcomes.
ghost use Rattle.std.specs.Prelude.{IfOk, IfErr};
ghost use Rattle.xa_races.specs.Came.{IsRunsText, IsOfRace, IsOfRuns};

use crate::counted_parts::race_parts;
use crate::counting::{Tally, note, seen_of, tallies_of};
use std::alloc::Global;
use std::mem::replace;
use std::sync::Wait;
use std::thread::Threads;
use xa_lines::ScriptFault;
use xa_orders::{Ended, Script, explore, read_script};
use xa_store::Gate;
use xa_xid::{Key, NoMemory};

/// The limit for exploring the list of all outcomes: how many ways that have carried out equally many lines may at most
/// be known to differ. It is the program's usual limit for `explore`.
const WAYS: usize = 100_000;

/// How races of a script ended, and what is written for them.
#[derive(Drop)]
pub(crate) struct Came {
    /// Whether the script was raced, or has faulty lines.
    pub(crate) ended: Ended,
    /// What is written.
    pub(crate) text: Vec<u8>,
}

/// The list in which the outcomes of races are counted, with a count of 0 each, and whether it has all outcomes of the
/// script. If more than `WAYS` ways that have carried out equally many lines are known to differ, the list is empty.
/// `written` has the rows that the script's lines write.
fn first_tallies(
    alloc: Global,
    script: &Script<'_>,
    written: Vec<Key>,
) -> Result<(Vec<Tally>, bool), NoMemory> {
    let found = explore(
        alloc,
        script.before.as_slice(),
        script.beside.as_slice(),
        script.later.as_slice(),
        written,
        WAYS,
    )?;
    match found {
        None => Ok((Vec::new(alloc), false)),
        Some(outcomes) => {
            let tallies = tallies_of(alloc, outcomes)?;
            Ok((tallies, true))
        }
    }
}

/// Races the script `runs` times, and returns what is written for these races. `written` has the rows that its lines
/// write. `capacity`, `renews` and `gate` are those of `runs_script`. Stops at the first race with a fault, which is
/// returned.
fn came_of<G: Gate + Sync, R: Threads + Wait + Sync>(
    rt: &R,
    alloc: Global,
    script: &Script<'_>,
    written: Vec<Key>,
    capacity: u64,
    renews: bool,
    runs: u64,
    gate: &G,
) -> Result<Vec<u8>, ScriptFault>
    ensures { IfErr result (IsOfRace renews) }
{
    let (mut tallies, is_known) = first_tallies(alloc, script, written)?;
    for _ in 0..runs {
        let text = race_parts(rt, alloc, script, capacity, renews, gate)?;
        note(&mut tallies, text)?;
    }
    let text = seen_of(alloc, tallies.as_slice(), is_known)?;
    Ok(text)
}

/// Races the script of this text `runs` times. Returns how that ended, and what is written.
///
/// If a line is faulty, nothing is raced, and the text is that of the faulty lines. `capacity`, `renews` and `gate`
/// are those of `runs_script`. Errors: `NoMemory`; if no line is faulty, also `GateShut`, `ThreadRefused` and, only if
/// `renews` is false, `Full`, as the first race with a fault returns them. May return `NoMemory`. Waits for its
/// threads.
/// Own rule: docs/COMMANDS.md#race-statistics.
pub(crate) fn runs_text<G: Gate + Sync, R: Threads + Wait + Sync>(
    rt: &R,
    alloc: Global,
    text: &[u8],
    capacity: u64,
    renews: bool,
    runs: u64,
    gate: &G,
) -> Result<Came, ScriptFault>
    ensures told { IfOk result (λ came. IsRunsText text.now came.ended came.text.items) }
    ensures fault { IfErr result (IsOfRuns renews text.now) }
{
    let mut script = read_script(alloc, text)?;
    if !script.faults.is_empty() {
        return Ok(Came {
            ended: Ended::Faulty,
            text: script.faults,
        });
    }
    // Exploring takes the list of rows; the races don't need it.
    let written = replace(&mut script.written, Vec::new(alloc));
    let text = came_of(rt, alloc, &script, written, capacity, renews, runs, gate)?;
    Ok(Came {
        ended: Ended::Done,
        text,
    })
}
