//! Explores a script from a reader, and writes its outcomes.
ghost use Rattle.std.specs.Prelude.{◌≡◌, ◌≤◌, length, IfOk, IfErr, OnOk, OnErr, MatchResult, IfSome, Err};
ghost use Rattle.std.specs.Io.KnownBytes.{Appends, IsAtEnd};
ghost use Rattle.xa_lines.specs.Calls.{HasWritten, StopsWriting, Completes, Stops};
ghost use Rattle.xa_lines.specs.{Limits.{script_bytes, script_reads}, Transcript.{AppendsPrefix, ConsumesMoreThan}};
ghost use Rattle.xa_orders.specs.Scripts.{IsExploredText, IsSomeText, AppendsExplored, AfterExploreFault};
ghost use Rattle.xa_orders.specs.Scripts.{IsFaultOfExploring};

use crate::ended::Ended;
use crate::explored_text::explored_text;
use crate::exploring::explore;
use crate::script::read_script;
use std::alloc::Global;
use xa_lines::{PieceReader, PieceWriter, ScriptFault, read_all, write_whole};
use xa_xid::NoMemory;

/// How exploring a script ended, and what is written for it.
#[derive(Drop)]
pub struct Explored {
    /// How exploring it ended.
    pub ended: Ended,
    /// What is written for it.
    pub text: Vec<u8>,
}

/// Explores the script of this text. Returns how that ended, and what is written for it.
///
/// If a line is faulty, the end is `Faulty`, and the text is that of the faulty lines. Otherwise, if more than `limit`
/// ways that have carried out equally many lines are known to differ, the end is `Undecided`.
/// Errors: `NoMemory` if an allocation failed.
/// May return `NoMemory`. Doesn't wait.
/// Own rule: docs/COMMANDS.md#explore.
pub fn explore_text(alloc: Global, text: &[u8], limit: usize) -> Result<Explored, NoMemory>
    // Proved (orders, text): A script with faulty lines ends as faulty, and exactly its faulty lines are written.
    //   Otherwise the text lists the outcomes of its parts, each once with its least order, or it is `UNDECIDED`. If it
    //   is, orders of one length lead to more ways than the limit, no two of which have come to the same.
    ensures { IfOk result (λ explored. IsExploredText text.now limit explored.ended explored.text.items) }
{
    let script = read_script(alloc, text)?;
    if !script.faults.is_empty() {
        return Ok(Explored {
            ended: Ended::Faulty,
            text: script.faults,
        });
    }
    let (before, beside, later) = (script.before, script.beside, script.later);
    match explore(
        alloc,
        before.as_slice(),
        beside.as_slice(),
        later.as_slice(),
        script.written,
        limit,
    )? {
        None => Ok(Explored {
            ended: Ended::Undecided,
            text: Vec::from_slice(alloc, b"UNDECIDED\n")?,
        }),
        Some(outcomes) => Ok(Explored {
            ended: Ended::Done,
            text: explored_text(alloc, outcomes.as_slice())?,
        }),
    }
}

/// Writes the text, and returns how exploring ended. Error: `Write`; a prefix of the text was then written.
fn write_explored<W: PieceWriter>(writer: &mut W, explored: &Explored) -> Result<Ended, ScriptFault>
    ensures ended { IfOk result (λ ended. ended ≡ explored.now.ended) }
    ensures all { OnOk result (Appends (W.contents writer.old) (W.contents writer.new) explored.now.text.items) }
    ensures fault { IfErr result (λ fault. fault ≡ ScriptFault.Write) }
    ensures prefix { OnErr result (AppendsPrefix (W.contents writer.old)
        (W.contents writer.new) explored.now.text.items) }
    ensures calls { MatchResult result
        (λ _. HasWritten W.takes writer.old explored.now.text.items writer.new)
        (λ _. StopsWriting W.takes W.refuses writer.old explored.now.text.items writer.new) }
{
    write_whole(writer, explored.text.as_slice())?;
    Ok(explored.ended)
}

/// Explores a script: reads all of it, and writes each outcome that an order of its lines side by side gives,
/// or its faulty lines.
///
/// A script has at most 1,048,576 bytes, and takes at most 2,097,152 reads. The server holds nothing at
/// first. If more than `limit` ways that have carried out equally many lines are known to differ, `UNDECIDED` is
/// written instead. Nothing is written before the whole text is known. The writer isn't flushed.
/// Errors: `Read` if a read failed, or the script needs more reads; `TooLong` if the script is longer;
/// `NoMemory` if an allocation failed; `Write` if a write failed or took no byte.
/// After `Write` a prefix of the text was written, after any other error nothing. A reader or a writer that
/// failed isn't called again.
/// May return `NoMemory`. Waits only if the reader or the writer does.
/// Own rule: docs/COMMANDS.md#explore.
pub fn explore_script<R: PieceReader, W: PieceWriter>(
    alloc: Global,
    reader: &mut R,
    writer: &mut W,
    limit: usize,
) -> Result<Ended, ScriptFault>
    // Proved (orders, script-reads-all): After Ok of exploring the whole script was read.
    ensures read { OnOk result (IsAtEnd (R.remaining reader.new)) }
    // Proved (orders, script-written): After Ok of exploring, every outcome that an order of the lines side
    //   by side gives is written once, with the least order that gives it, and no other. A script with faulty
    //   lines has exactly these written. `UNDECIDED` is written only if orders of one length lead to more
    //   ways than allowed, no two of which have come to the same.
    ensures written { IfOk result
        (λ ended. IfSome (R.remaining reader.old) (λ script. AppendsExplored limit ended script (W.contents writer.old)
        (W.contents writer.new))) }
    // Proved (orders, script-length): A script that was explored has at most 1,048,576 bytes.
    ensures short { OnOk result (IfSome (R.remaining reader.old) (λ script. length script ≤ script_bytes)) }

    // Proved (orders, script-fault): After `Write` a prefix of such a text was written, after any other fault
    //   of exploring nothing. The fault is `Read`, `TooLong`, `Write` or `NoMemory`.
    ensures fault { IfErr result (λ fault. AfterExploreFault limit fault (R.remaining reader.old)
        (W.contents writer.old) (W.contents writer.new)) }
    // Proved (orders, script-too-long): Exploring returns `TooLong` only if more than 1,048,576 bytes were
    //   read.
    ensures too_long { result ≡ Err ScriptFault.TooLong → ConsumesMoreThan script_bytes (R.remaining reader.old)
        (R.remaining reader.new) }

    // Proved (orders, script-stream-faults): After Ok of exploring all calls on the reader and the writer succeeded.
    //   `Read` is returned only if the last read failed or no more reads are allowed, `TooLong` only if too much was
    //   read, and `Write` only if the last write failed or took nothing. Any other fault is want of memory. A stream
    //   that failed isn't called again. This holds for every reader and writer.
    ensures calls { OnOk result (Completes R.gives W.takes script_reads
        (IsSomeText limit) reader.old reader.new writer.old writer.new) }
    // Proved (orders, script-stream-faults)
    ensures cause { IfErr result
        (λ fault. Stops R.gives R.fails W.takes W.refuses script_reads script_bytes
        (IsSomeText limit) IsFaultOfExploring fault reader.old reader.new
        writer.old writer.new) }
{
    let script = read_all(alloc, reader)?;
    let explored = explore_text(alloc, script.as_slice(), limit)?;
    write_explored(writer, &explored)
}
