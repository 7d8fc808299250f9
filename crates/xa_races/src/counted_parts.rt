//! Races the parts of a script once.
ghost use Rattle.std.specs.Prelude.{IfErr};
ghost use Rattle.xa_races.specs.Came.{IsOfRace};

use crate::counted_lines::{Opened, race_each, race_lines};
use std::alloc::Global;
use std::sync::Wait;
use std::thread::Threads;
use xa_lines::ScriptFault;
use xa_orders::{Line, Script};
use xa_store::Gate;

/// The greatest session number of the lines, but at least `least`, also if there are no lines.
fn greatest_of(lines: &[Line<'_>], least: u64) -> u64 {
    let mut greatest = least;
    for line in lines {
        greatest = greatest.max(line.session().get());
    }
    greatest
}

/// How many sessions a store for the script needs: as many as the greatest number that a line names, at least one.
fn sessions_of(script: &Script<'_>) -> u64 {
    let before = greatest_of(script.before.as_slice(), 1);
    let beside = greatest_of(script.beside.as_slice(), before);
    greatest_of(script.later.as_slice(), beside)
}

/// Races the script once, in a store of its own, and returns what all lines are answered.
///
/// The lines before are carried out one after another, then the lines side by side race, each session on its
/// own thread, then the later lines are carried out one after another. The store's ring has `capacity` slots, in
/// `[1, 1024]`. If `renews` is false, the lines side by side have room for `capacity` entries, else for any number.
/// Only for these lines `gate` is asked.
/// Errors: `NoMemory`, `GateShut` and `ThreadRefused`, and if the race doesn't renew its store `Full`, as the
/// race returns them.
/// May return `NoMemory`. Waits for its threads.
pub(crate) fn race_parts<G: Gate + Sync, R: Threads + Wait + Sync>(
    rt: &R,
    alloc: Global,
    script: &Script<'_>,
    capacity: u64,
    renews: bool,
    gate: &G,
) -> Result<Vec<u8>, ScriptFault>
    ensures { IfErr result (IsOfRace renews) }
{
    let mut text = Vec::new(alloc);
    let opened = Opened::new(alloc, capacity, sessions_of(script))?;
    let before = script.before.as_slice();
    let opened = race_each(rt, alloc, opened, before, capacity, renews, &mut text)?;
    let beside = script.beside.as_slice();
    let opened = race_lines(rt, alloc, opened, beside, capacity, renews, gate, &mut text)?;
    let later = script.later.as_slice();
    let opened = race_each(rt, alloc, opened, later, capacity, renews, &mut text)?;
    // The text is whole, and the store isn't needed any more.
    drop(opened);
    Ok(text)
}
