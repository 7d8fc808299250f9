//! Races a script from a reader many times, and writes the outcomes that came.

ghost use Rattle.std.specs.Prelude.{◌≡◌, ◌≤◌, length, IfOk, IfErr, OnOk, OnErr, MatchResult, IfSome, Err};
ghost use Rattle.std.specs.Io.KnownBytes.{Appends, IsAtEnd};
ghost use Rattle.decision_log.specs.Opens.{IsCapacity};
ghost use Rattle.xa_lines.specs.Calls.{HasWritten, StopsWriting, Completes, Stops};
ghost use Rattle.xa_lines.specs.{Limits.{script_bytes, script_reads}, Transcript.{AppendsPrefix, ConsumesMoreThan}};
ghost use Rattle.xa_races.specs.Came.{IsSomeRunsText, AppendsRuns, IsOfRuns, AfterRunsFault};

use crate::runs::{Came, runs_text};
use std::alloc::Global;
use std::sync::Wait;
use std::thread::Threads;
use xa_lines::{PieceReader, PieceWriter, ScriptFault, read_all, write_whole};
use xa_orders::Ended;
use xa_store::Gate;

/// Writes the text, and returns how the races ended. Error: `Write`; a prefix of the text was then written.
fn write_came<O: PieceWriter>(writer: &mut O, came: &Came) -> Result<Ended, ScriptFault>
    ensures ended { IfOk result (λ ended. ended ≡ came.now.ended) }
    ensures all { OnOk result (Appends (O.contents writer.old) (O.contents writer.new) came.now.text.items) }
    ensures fault { IfErr result (λ fault. fault ≡ ScriptFault.Write) }
    ensures prefix { OnErr result (AppendsPrefix (O.contents writer.old) (O.contents writer.new) came.now.text.items) }
    ensures calls { MatchResult result
        (λ _. HasWritten O.takes writer.old came.now.text.items writer.new)
        (λ _. StopsWriting O.takes O.refuses writer.old came.now.text.items writer.new) }
{
    write_whole(writer, came.text.as_slice())?;
    Ok(came.ended)
}

/// Races a script `runs` times, and writes each outcome that came, with its number among all outcomes and how
/// often it came, and then how many of all outcomes came; or only the script's faulty lines. Returns `Faulty` if a line
/// is faulty, else `Done`.
///
/// The script is one for `xa_orders::explore_script`, and is read whole. `runs` is in `[1, 1000000]`. Each
/// race has a store of its own. The lines before are carried out one after another, then the lines side by
/// side race, each session on its own thread, then the later lines are carried out one after another. The
/// store's ring has `capacity` slots, in `[1, 1024]`. If `renews` is false, the lines side by side have room for
/// as many entries, else for any number. All races ask the same `gate`, before the lines side by side alone. If
/// more than 100,000 ways that have carried out equally many lines are known to differ, not all outcomes are known:
/// those that came are then numbered in ascending order, and only how many came is written. Nothing is written before
/// all races have ended. The writer isn't flushed.
/// Errors: `Read` if a read failed, or the script needs more than 2,097,152 reads; `TooLong` if the script
/// has more than 1,048,576 bytes; `NoMemory` if an allocation failed; `Full`, only if `renews` is false,
/// `GateShut` and `ThreadRefused` as the first race with a fault returns them; `Write` if a write failed or
/// took no byte.
/// After `Write` a prefix of the text was written, after any other error nothing.
/// May return `NoMemory`. Waits for its threads.
/// Own rule: docs/COMMANDS.md#race-statistics.
pub fn runs_script<I: PieceReader, O: PieceWriter, G: Gate + Sync, R: Threads + Wait + Sync>(
    rt: &R,
    alloc: Global,
    reader: &mut I,
    writer: &mut O,
    capacity: u64,
    renews: bool,
    runs: u64,
    gate: &G,
) -> Result<Ended, ScriptFault>
    requires { IsCapacity capacity }

    // Proved (races, runs-reads-all): After Ok of several races the whole script was read.
    ensures read { OnOk result (IsAtEnd (I.remaining reader.new)) }
    // Proved (races, runs-faulty-lines): Several races end with `Faulty` exactly if a line of the script is faulty, and
    //   exactly its faulty lines are written then.
    ensures written { IfOk result
        (λ ended. IfSome (I.remaining reader.old) (λ script. AppendsRuns ended script (O.contents writer.old)
        (O.contents writer.new))) }
    // Proved (races, runs-length): A script that was raced several times has at most 1,048,576 bytes.
    ensures short { OnOk result (IfSome (I.remaining reader.old) (λ script. length script ≤ script_bytes)) }

    // Proved (races, runs-fault): After `Write` a prefix of such a text was written, after any other fault of
    //   several races nothing. `Full`, `GateShut` and `ThreadRefused` are returned only if no line is faulty,
    //   and `Full` only if the races don't renew their stores.
    ensures fault { IfErr result (λ fault. AfterRunsFault renews fault (I.remaining reader.old)
        (O.contents writer.old) (O.contents writer.new)) }
    // Proved (races, script-too-long)
    ensures too_long { result ≡ Err ScriptFault.TooLong → ConsumesMoreThan script_bytes (I.remaining reader.old)
        (I.remaining reader.new) }

    // Proved (races, runs-stream-faults): After Ok of several races all calls on the reader and the writer succeeded.
    //   `Read` is returned only if the last read failed or no more reads are allowed, `TooLong` only if too much was
    //   read, and `Write` only if the last write failed or took nothing. Any other fault is want of memory or a
    //   race's. A stream that failed isn't called again. This holds for every reader and writer.
    ensures calls { OnOk result (Completes I.gives O.takes script_reads
        IsSomeRunsText reader.old reader.new writer.old writer.new) }
    // Proved (races, runs-stream-faults)
    ensures cause { IfErr result
        (λ fault. Stops I.gives I.fails O.takes O.refuses script_reads script_bytes IsSomeRunsText
        (IsOfRuns renews) fault reader.old reader.new
        writer.old writer.new) }
{
    let script = read_all(alloc, reader)?;
    let came = runs_text(rt, alloc, script.as_slice(), capacity, renews, runs, gate)?;
    write_came(writer, &came)
}
