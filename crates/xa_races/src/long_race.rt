//! Races the sessions of a script over a store without an end, so that the history has any length.
ghost use Rattle.std.specs.{Prelude.{◌≡◌, ◌≤◌, length, IfErr, OnOk, IfSome, Err, None}, Io.KnownBytes.IsAtEnd};
ghost use Rattle.chain_log.specs.RingOpens.{AreRows};
ghost use Rattle.xa_lines.specs.{Calls.{Completes, Stops}, Limits.{script_bytes, script_reads}};
ghost use Rattle.xa_lines.specs.Transcript.{ConsumesMoreThan};
ghost use Rattle.xa_races.specs.Outcome.{AppendsRace, AfterRaceFault, IsRaceText, IsOfText};
ghost use Rattle.xa_races.specs.HeldOn.{IsHeldEndless, EndsEndless, AppendsHeld, IsCausedIn};

use crate::holding::text_endless;
use std::alloc::Global;
use std::sync::Wait;
use std::thread::Threads;
use xa_lines::{PieceReader, PieceWriter, ScriptFault, read_all, write_whole};
use xa_store::Gate;

/// Races the sessions of a script over a store without an end, and writes one history that explains all answers, and
/// the answers.
///
/// It reads and writes as `race_script` does. The store's ring has `rows` slots, in `[1, 65536]`; their memory is used
/// again as often as need be. The text has the whole history, and places count from the store's first entry.
/// Errors: those of `race_script`, but never `Full`. `NoMemory` is also returned if there is no memory for the whole
/// history.
/// After `Write` a prefix of the text was written, after any other error nothing.
/// May return `NoMemory`. Waits for its threads.
/// Own rule: docs/COMMANDS.md#race-without-an-end.
pub fn race_script_in_rounds<
    I: PieceReader,
    O: PieceWriter,
    G: Gate + Sync,
    R: Threads + Wait + Sync,
>(
    rt: &R,
    alloc: Global,
    reader: &mut I,
    writer: &mut O,
    rows: u64,
    gate: &G,
) -> Result<(), ScriptFault>
    requires { AreRows rows }

    // Proved (races, script-rounds-reads-all): After Ok of a race without an end the whole script was read.
    ensures read { OnOk result (IsAtEnd (I.remaining reader.new)) }
    // Proved (races, script-rounds-outcome): After Ok of a race without an end exactly the script's faulty lines
    //   were written. If there are none, one history and the answers were written: the history begins with an
    //   empty store, has any length and only entries of the script's sessions, and explains the answers of
    //   all sessions.
    ensures written { OnOk result (IfSome (I.remaining reader.old)
        (λ script. AppendsRace None script (O.contents writer.old) (O.contents writer.new))) }
    // Proved (races, script-held-as-asked)
    ensures held { OnOk result (IfSome (I.remaining reader.old) (λ script.
        AppendsHeld (IsHeldEndless (G.may_answer gate.now) rows) script (O.contents writer.old)
        (O.contents writer.new))) }
    // Proved (races, script-held-as-asked)
    ensures caused { IfErr result (λ fault. IfSome (I.remaining reader.old)
        (λ script. IsCausedIn (EndsEndless (G.may_answer gate.now)) script fault)) }
    // Proved (races, script-rounds-length): A script that was raced without an end has at most 1,048,576 bytes.
    ensures short { OnOk result (IfSome (I.remaining reader.old) (λ script. length script ≤ script_bytes)) }

    // Proved (races, script-rounds-fault): After `Write` a prefix of such a text was written, after any other
    //   fault of a race without an end nothing. `GateShut` and `ThreadRefused` are returned only if no line is
    //   faulty. No fault is `Full`.
    ensures fault { IfErr result (λ fault. AfterRaceFault None fault (I.remaining reader.old) (O.contents writer.old)
        (O.contents writer.new)) }
    // Proved (races, script-too-long)
    ensures too_long { result ≡ Err ScriptFault.TooLong → ConsumesMoreThan script_bytes (I.remaining reader.old)
        (I.remaining reader.new) }

    // Proved (races, script-stream-faults)
    ensures calls { OnOk result (Completes I.gives O.takes script_reads
        (IsRaceText None) reader.old reader.new writer.old writer.new) }
    // Proved (races, script-stream-faults)
    ensures cause { IfErr result
        (λ fault. Stops I.gives I.fails O.takes O.refuses script_reads script_bytes (IsRaceText None)
        (IsOfText None) fault reader.old reader.new writer.old writer.new) }
{
    let script = read_all(alloc, reader)?;
    let text = text_endless(rt, alloc, script.as_slice(), rows, gate)?;
    write_whole(writer, text.as_slice())
}
