//! Races a script again and again, and returns the exit status for how that ended.
ghost use Rattle.decision_log.specs.Opens.{IsCapacity};
ghost use Rattle.xa_script.specs.{Jobs.HasCame};

use crate::Schedule;
use crate::exploring::status_of_end;
use std::alloc::{Alloc, Global};
use std::io::{Read, Write};
use std::sync::Wait;
use std::thread::Threads;
use xa_lines::ScriptFault;
use xa_races::{ReshuffledGate, runs_script};
use xa_store::{Gate, OpenGate, TogetherGate};

/// Races a script `runs` times at a gate, and returns the exit status. If `renews`, the log of each race has no end,
/// and its ring has `capacity` slots; else the log has room for `capacity` entries of the lines side by side.
fn run_behind<I: Read, O: Write, G: Gate + Sync, R: Alloc<A = Global> + Threads + Wait + Sync>(
    rt: &R,
    input: &mut I,
    output: &mut O,
    capacity: u64,
    gate: &G,
    renews: bool,
    runs: u64,
) -> Result<u8, ScriptFault>
    requires { IsCapacity capacity }
    ensures { HasCame renews (I.remaining input.old) (O.contents output.old) (O.contents output.new) result }
{
    match runs_script(rt, rt.alloc(), input, output, capacity, renews, runs, gate) {
        Ok(ended) => Ok(status_of_end(ended)),
        Err(fault) => Err(fault),
    }
}

/// Races a script `runs` times at the gate of a schedule, writes which outcomes came, or its faulty lines,
/// and returns the exit status for it.
///
/// `capacity` is in `[1, 1024]`, and as in `run_behind`; `runs` is in `[1, 1_000_000]`. If `renews`, no race has a
/// limit on its entries. If the schedule is shuffled, each race takes the seed after the last one's.
/// Errors: as `runs_script`. After `Write` a prefix of the text was written, after any other error nothing.
/// May return `NoMemory`. Waits.
/// Own rule: docs/COMMANDS.md#race-statistics.
pub fn run_by<I: Read, O: Write, R: Alloc<A = Global> + Threads + Wait + Sync>(
    rt: &R,
    input: &mut I,
    output: &mut O,
    capacity: u64,
    schedule: Schedule,
    renews: bool,
    runs: u64,
) -> Result<u8, ScriptFault>
    requires { IsCapacity capacity }
    // Proved (scripts, status-of-an-end)
    ensures { HasCame renews (I.remaining input.old) (O.contents output.old) (O.contents output.new) result }
{
    match schedule {
        Schedule::Freely => run_behind(rt, input, output, capacity, &OpenGate, renews, runs),
        Schedule::Together => {
            let gate = TogetherGate::new();
            run_behind(rt, input, output, capacity, &gate, renews, runs)
        }
        Schedule::Shuffled(seed) => {
            let gate = ReshuffledGate::new(seed);
            run_behind(rt, input, output, capacity, &gate, renews, runs)
        }
    }
}
