//! Races a script once, and returns the exit status for how that ended.
ghost use Rattle.std.specs.Prelude.{OnOk, IfSome};
ghost use Rattle.decision_log.specs.Opens.{IsCapacity};
ghost use Rattle.xa_script.specs.{Status.AppendsRaceBy, Jobs.HasRaced};

use crate::{DONE, Schedule};
use std::alloc::{Alloc, Global};
use std::io::{Read, Write};
use std::sync::Wait;
use std::thread::Threads;
use xa_lines::{ScriptFault, read_all, uncommented};
use xa_races::{race_script, race_script_in_rounds};
use xa_store::{Gate, OpenGate, ShuffledGate, TogetherGate};

/// Races a script at a gate: over a store without an end whose ring has `capacity` slots if `renews`, else in one log
/// with room for `capacity` entries.
fn race_behind<I: Read, O: Write, G: Gate + Sync, R: Alloc<A = Global> + Threads + Wait + Sync>(
    rt: &R,
    input: &mut I,
    output: &mut O,
    capacity: u64,
    gate: &G,
    renews: bool,
) -> Result<(), ScriptFault>
    requires { IsCapacity capacity }
    ensures { OnOk result (IfSome (I.remaining input.old)
        (λ script. AppendsRaceBy renews capacity script (O.contents output.old) (O.contents output.new))) }
{
    if renews {
        race_script_in_rounds(rt, rt.alloc(), input, output, capacity, gate)
    } else {
        race_script(rt, rt.alloc(), input, output, capacity, gate)
    }
}

/// Races a script at the gate of a schedule, over a store without an end if `renews`.
///
/// `capacity`, in `[1, 1024]`: how many entries the log has room for, or if `renews` how many slots the ring has.
/// Errors: as `race_script` and `race_script_in_rounds`. Waits.
fn race_by<I: Read, O: Write, R: Alloc<A = Global> + Threads + Wait + Sync>(
    rt: &R,
    input: &mut I,
    output: &mut O,
    capacity: u64,
    schedule: Schedule,
    renews: bool,
) -> Result<(), ScriptFault>
    requires { IsCapacity capacity }
    ensures { OnOk result (IfSome (I.remaining input.old)
        (λ script. AppendsRaceBy renews capacity script (O.contents output.old) (O.contents output.new))) }
{
    match schedule {
        Schedule::Freely => race_behind(rt, input, output, capacity, &OpenGate, renews),
        Schedule::Together => {
            let gate = TogetherGate::new();
            race_behind(rt, input, output, capacity, &gate, renews)
        }
        Schedule::Shuffled(seed) => {
            let gate = ShuffledGate::new(seed);
            race_behind(rt, input, output, capacity, &gate, renews)
        }
    }
}

/// Races a script at the gate of a schedule, over a store without an end if `renews`, and returns the exit status. If
/// its first line that isn't blank is a comment, comments count as blank lines.
///
/// `capacity`, in `[1, 1024]`: how many entries the log has room for, or if `renews` how many slots the ring has.
/// Errors: as `race_script` and `race_script_in_rounds`. Waits.
/// Own rule: docs/COMMANDS.md#race.
pub fn race<I: Read, O: Write, R: Alloc<A = Global> + Threads + Wait + Sync>(
    rt: &R,
    input: &mut I,
    output: &mut O,
    capacity: u64,
    schedule: Schedule,
    renews: bool,
) -> Result<u8, ScriptFault>
    requires { IsCapacity capacity }
    // Proved (scripts, race-comments): A script whose first line that isn't blank is a comment is raced as if each of
    //   its comments were blank. Any other script is raced as it stands.
    ensures { HasRaced renews capacity (I.remaining input.old) (O.contents output.old) (O.contents output.new) result }
{
    let script = read_all(rt.alloc(), input)?;
    let script = uncommented(rt.alloc(), script)?;
    let mut rest = script.as_slice();
    race_by(rt, &mut rest, output, capacity, schedule, renews)?;
    Ok(DONE)
}
