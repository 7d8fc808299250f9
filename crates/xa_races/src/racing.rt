//! Races the runs of a script.
ghost use Rattle.std.specs.{Prelude.{◌≡◌, ◌≤◌, length, IfErr, OnOk, IfSome, Err, Some}, Io.KnownBytes.IsAtEnd};
ghost use Rattle.decision_log.specs.Opens.{IsCapacity};
ghost use Rattle.xa_lines.specs.{Calls.{Completes, Stops}, Limits.{script_bytes, script_reads}};
ghost use Rattle.xa_lines.specs.Transcript.{ConsumesMoreThan};
ghost use Rattle.xa_races.specs.Outcome.{AppendsRace, AfterRaceFault, IsRaceText, IsOfText};
ghost use Rattle.xa_races.specs.HeldOn.{IsHeldInLog, EndsInLog, AppendsHeld, IsCausedIn};

use crate::holding::text_in_log;
use std::alloc::Global;
use std::sync::Wait;
use std::thread::Threads;
use xa_lines::{PieceReader, PieceWriter, ScriptFault, read_all, write_whole};
use xa_store::Gate;

/// Races the runs of a script: reads all of it, gives each session's statements to a thread of its own, and
/// writes one history that explains all answers, and the answers.
///
/// A script has at most 1,048,576 bytes, and takes at most 2,097,152 reads. The threads share a new, empty
/// store. Its log has room for `capacity` entries, in `[1, 1024]`, and it has as many sessions as the
/// greatest number that a line names, at least one. Each run asks `gate` before each of its statements. If a
/// line is faulty, no thread is started, and only the faulty lines are written. Nothing is written before all
/// runs have ended. The writer isn't flushed.
/// Errors: `Read` if a read failed, or the script needs more reads; `TooLong` if the script is longer;
/// `NoMemory` if an allocation failed; `Full`, `GateShut` and `ThreadRefused` as the race returns them;
/// `Write` if a write failed or took no byte.
/// After `Write` a prefix of the text was written, after any other error nothing.
/// May return `NoMemory`. Waits for its threads.
/// Own rule: docs/COMMANDS.md#race.
pub fn race_script<I: PieceReader, O: PieceWriter, G: Gate + Sync, R: Threads + Wait + Sync>(
    rt: &R,
    alloc: Global,
    reader: &mut I,
    writer: &mut O,
    capacity: u64,
    gate: &G,
) -> Result<(), ScriptFault>
    requires { IsCapacity capacity }

    // Proved (races, script-reads-all): After Ok of a race the whole script was read.
    ensures read { OnOk result (IsAtEnd (I.remaining reader.new)) }
    // Proved (races, script-outcome): After Ok of a race exactly the script's faulty lines were written. If
    //   there are none, one history and the answers of the sessions 1 to the greatest were written. The
    //   history begins with an empty store, has only entries of these sessions, no more than the log has room
    //   for, and explains every answer.
    ensures written { OnOk result (IfSome (I.remaining reader.old)
        (λ script. AppendsRace (Some capacity) script (O.contents writer.old) (O.contents writer.new))) }
    // Proved (races, script-held-as-asked): After Ok, if no line is faulty, a race of the script was held in a log with
    //   the room that was asked for, or over a ring with the slots. Its gate can let in each statement. After
    //   `GateShut` the gate can shut a statement of one of the script's runs; after `Full` such a statement has no room
    //   in the log.
    ensures held { OnOk result (IfSome (I.remaining reader.old) (λ script.
        AppendsHeld (IsHeldInLog (G.may_answer gate.now) capacity) script (O.contents writer.old)
        (O.contents writer.new))) }
    // Proved (races, script-held-as-asked)
    ensures caused { IfErr result (λ fault. IfSome (I.remaining reader.old)
        (λ script. IsCausedIn (EndsInLog (G.may_answer gate.now) capacity) script fault)) }
    // Proved (races, script-length): A script that was raced in one log has at most 1,048,576 bytes.
    ensures short { OnOk result (IfSome (I.remaining reader.old) (λ script. length script ≤ script_bytes)) }

    // Proved (races, script-fault): After `Write` a prefix of such a text was written, after any other fault
    //   of a race nothing. `Full`, `GateShut` and `ThreadRefused` are returned only if no line is faulty.
    ensures fault { IfErr result (λ fault. AfterRaceFault (Some capacity) fault (I.remaining reader.old)
        (O.contents writer.old) (O.contents writer.new)) }
    // Proved (races, script-too-long): `TooLong` is returned only if more than 1,048,576 bytes were read.
    ensures too_long { result ≡ Err ScriptFault.TooLong → ConsumesMoreThan script_bytes (I.remaining reader.old)
        (I.remaining reader.new) }

    // Proved (races, script-stream-faults): `Read` is returned only if the last read failed or no more reads are
    //   allowed, `TooLong` only if too much was read, and `Write` only if the last write failed or took nothing. A
    //   stream that failed isn't called again. After Ok all calls on both streams succeeded. This holds for every
    //   reader and writer.
    ensures calls { OnOk result (Completes I.gives O.takes script_reads
        (IsRaceText (Some capacity)) reader.old reader.new writer.old writer.new) }
    // Proved (races, script-stream-faults)
    ensures cause { IfErr result
        (λ fault. Stops I.gives I.fails O.takes O.refuses script_reads script_bytes (IsRaceText (Some capacity))
        (IsOfText (Some capacity)) fault reader.old reader.new writer.old writer.new) }
{
    let script = read_all(alloc, reader)?;
    let text = text_in_log(rt, alloc, script.as_slice(), capacity, gate)?;
    write_whole(writer, text.as_slice())
}
