//! Runs a script.
ghost use Rattle.std.specs.Prelude.{◌≡◌, ◌≤◌, ◌<◌, ◌++◌, ℕ, List, length, take, vec_len, IfOk, IfErr, OnOk, OnErr};
ghost use Rattle.std.specs.{Prelude.{IfSome, ◌≢◌, Err}, Io.KnownBytes.{Appends, Consumes, IsAtEnd, Keeps}};
ghost use Rattle.xa_lines.specs.{Calls.{HasReadAll, StopsReading, HasWritten}, Limits.{script_bytes, script_reads}};
ghost use Rattle.xa_lines.specs.Transcript.{AppendsPrefix, ConsumesMoreThan, AfterFault, IsOfRun, IsOfReading};
ghost use Rattle.xa_lines.specs.Transcript.{StopsAnswering, StopsRun, transcript};

use crate::line_answer::put_line;
use crate::lines::split_line;
use crate::streams::{read_all, write_whole};
use crate::{PieceReader, PieceWriter, ScriptFault};
use std::alloc::Global;
use xa_server::Server;

/// Gives the script's lines to a server that is empty at first, and writes each answer as soon as it is there. Returns
/// `NoMemory` or `Write` at the first line whose answer can't be made or written.
fn run_lines<W: PieceWriter>(
    alloc: Global,
    script: &[u8],
    writer: &mut W,
) -> Result<(), ScriptFault>
    ensures all { OnOk result (Appends (W.contents writer.old) (W.contents writer.new) (transcript script.now)) }
    ensures fault { IfErr result IsOfRun }
    ensures prefix { OnErr result (AppendsPrefix (W.contents writer.old) (W.contents writer.new)
        (transcript script.now)) }
    ensures calls { OnOk result (HasWritten W.takes writer.old (transcript script.now) writer.new) }
    ensures cause { IfErr result (λ fault. StopsAnswering W.takes W.refuses fault writer.old
        (transcript script.now) writer.new) }
{
    let mut server = Server::new(alloc);
    let mut answer = Vec::new(alloc);
    let mut rest = script;
    while !rest.is_empty() {
        let (line, lines) = split_line(rest);
        put_line(alloc, &mut answer, &mut server, line)?;
        write_whole(writer, answer.as_slice())?;
        rest = lines;
    }
    Ok(())
}

/// Runs a script: reads all of it, and writes the answer to each of its lines.
///
/// A script has at most 1,048,576 bytes, and takes at most 2,097,152 reads. Each line gives a statement of a
/// session to one server, which is empty at first. Each answer is written as soon as it is there; nothing is
/// flushed.
/// Errors: `Read` if a read failed, or too many reads were needed; `TooLong` if the script is longer;
/// `NoMemory` if an allocation failed; `Write` if a write failed or took nothing. Any error of the reader or
/// the writer ends the run at once, and that stream isn't called again.
/// After `Read` and `TooLong` nothing was written, after `Write` and `NoMemory` a prefix of the transcript.
/// May return `NoMemory`. Doesn't wait, unless the reader or the writer does.
/// Own rule: docs/COMMANDS.md#scripts.
pub fn run_script<R: PieceReader, W: PieceWriter>(
    alloc: Global,
    reader: &mut R,
    writer: &mut W,
) -> Result<(), ScriptFault>
    // Proved (scripts, run-writes-the-transcript): After `Ok` the whole script was read, and its transcript
    //   was written: the answers, line by line, of a server that was empty at first.
    ensures read { OnOk result (IsAtEnd (R.remaining reader.new)) }
    // Proved (scripts, run-writes-the-transcript)
    ensures written { OnOk result (IfSome (R.remaining reader.old)
        (λ script. Appends (W.contents writer.old) (W.contents writer.new) (transcript script))) }
    // Proved (scripts, run-length): `TooLong` is returned only if more than 1,048,576 bytes were read, and a
    //   script that was run has no more.
    ensures short { OnOk result (IfSome (R.remaining reader.old) (λ script. length script ≤ script_bytes)) }

    // Proved (scripts, run-after-faults): After `Write` and `NoMemory` a prefix of the transcript was
    //   written, after `Read` and `TooLong` nothing.
    ensures fault { IfErr result (λ fault. AfterFault fault (R.remaining reader.old) (W.contents writer.old)
        (W.contents writer.new)) }
    // Proved (scripts, run-length)
    ensures too_long { result ≡ Err ScriptFault.TooLong → ConsumesMoreThan script_bytes (R.remaining reader.old)
        (R.remaining reader.new) }

    // For any reader and writer, whether their bytes are known or not.
    // Proved (scripts, run-fault-causes): A run that returns `Ok` made only calls that succeeded. `Read` is
    //   returned only if the last read failed, or too many reads were needed. `Write` is returned only if the
    //   last write failed or took nothing, and `TooLong` only if too much was read. A stream that failed
    //   isn't called again, not even to flush.
    ensures calls { OnOk result
        ((script : List ℕ)
        × HasReadAll R.gives script_reads reader.old script reader.new
        × HasWritten W.takes writer.old (transcript script) writer.new) }
    // Proved (scripts, run-fault-causes)
    ensures cause { IfErr result (λ fault. StopsRun R.gives R.fails W.takes W.refuses fault reader.old reader.new
        writer.old writer.new) }
{
    let script = read_all(alloc, reader)?;
    run_lines(alloc, script.as_slice(), writer)
}
