//! Judges a record from a reader, and writes the verdict.
ghost use Rattle.std.specs.Prelude.{◌≡◌, ◌≤◌, length, IfOk, IfErr, OnOk, OnErr, MatchResult, IfSome, Err};
ghost use Rattle.std.specs.Io.KnownBytes.{Appends, IsAtEnd};
ghost use Rattle.xa_lines.specs.Calls.{HasWritten, StopsWriting, Completes, Stops};
ghost use Rattle.xa_lines.specs.Transcript.{AppendsPrefix, ConsumesMoreThan};
ghost use Rattle.xa_record.specs.Judged.{record_bytes, record_reads, AppendsJudged, AfterJudgeFault, IsJudgedText};
ghost use Rattle.xa_record.specs.Judged.{IsFaultOfJudging};

use crate::allowance::Allowance;
use crate::asked::Asked;
use crate::judging::{Judged, judge_text};
use crate::outcome::Outcome;
use std::alloc::Global;
use xa_judge::Progress;
use xa_lines::{PieceReader, PieceWriter, ScriptFault, read_within, write_whole};
use xa_server::Server;

/// The greatest length of a record, in bytes: 16 MiB. What is kept of a record takes many times its length.
const RECORD_BYTES: usize = 16_777_216;

/// The greatest number of reads for a record. A reader that gives one byte at a time needs one for each byte and one
/// more; twice as many are ample, and with a bound the loop that reads ends.
const RECORD_READS: u64 = 33_554_432;

/// Writes the text, and returns how judging ended.
fn write_judged<W: PieceWriter>(writer: &mut W, judged: &Judged) -> Result<Outcome, ScriptFault>
    ensures outcome { IfOk result (λ outcome. outcome ≡ judged.now.outcome) }
    ensures all { OnOk result (Appends (W.contents writer.old) (W.contents writer.new) judged.now.text.items) }
    ensures fault { IfErr result (λ fault. fault ≡ ScriptFault.Write) }
    ensures prefix { OnErr result (AppendsPrefix (W.contents writer.old)
        (W.contents writer.new) judged.now.text.items) }
    ensures calls { MatchResult result
        (λ _. HasWritten W.takes writer.old judged.now.text.items writer.new)
        (λ _. StopsWriting W.takes W.refuses writer.old judged.now.text.items writer.new) }
{
    write_whole(writer, judged.text.as_slice())?;
    Ok(judged.outcome)
}

/// Judges a record that begins with the server `base`: reads all of it, and writes the verdict, or its faulty lines,
/// or that it has no event.
///
/// A record has at most 16,777,216 bytes, and takes at most 33,554,432 reads. `base`, `allowances`, `asked` and
/// `progress` are as `judge_text` takes them. The writer isn't flushed.
/// Errors: `Read` if a read failed, or the record needs more reads; `TooLong` if the record is longer;
/// `NoMemory` if an allocation failed; `Write` if a write failed or took no byte.
/// After `Write` a prefix of the text was written, after any other error nothing. A reader or a writer that
/// failed isn't called again.
/// May return `NoMemory`. Waits only if the reader or the writer does.
/// Own rule: docs/HISTORIES.md#records.
pub fn judge_record<R: PieceReader, W: PieceWriter, P: Progress>(
    alloc: Global,
    base: &Server,
    reader: &mut R,
    writer: &mut W,
    allowances: &[Allowance],
    asked: Asked,
    progress: &mut P,
) -> Result<Outcome, ScriptFault>
    // Proved (records, record-reads-all): After Ok of judging, the record was read to its end.
    ensures read { OnOk result (IsAtEnd (R.remaining reader.new)) }
    // Proved (records, record-written): After Ok of judging, what `judge_text` promises is written for the
    //   record that was read: its verdict, its faulty lines, or `EMPTY`. The end that is returned belongs to
    //   this text.
    ensures written { IfOk result
        (λ outcome. IfSome (R.remaining reader.old)
        (λ text. AppendsJudged base.now allowances.now asked outcome text (W.contents writer.old)
        (W.contents writer.new))) }
    // Proved (records, record-length): A record that was judged has at most 16,777,216 bytes.
    ensures short { OnOk result (IfSome (R.remaining reader.old) (λ text. length text ≤ record_bytes)) }

    // Proved (records, record-fault): After `Write` a prefix of such a text was written, after any other
    //   fault of judging nothing. The fault is `Read`, `TooLong`, `Write` or `NoMemory`.
    ensures fault { IfErr result
        (λ fault. AfterJudgeFault base.now allowances.now asked fault (R.remaining reader.old)
        (W.contents writer.old) (W.contents writer.new)) }
    // Proved (records, record-too-long): Judging returns `TooLong` only if more than 16,777,216 bytes were
    //   read.
    ensures too_long { result ≡ Err ScriptFault.TooLong
        → ConsumesMoreThan record_bytes (R.remaining reader.old) (R.remaining reader.new) }

    // Proved (records, record-stream-faults): When a record is judged, `Read` is returned only if the last read
    //   failed or no more reads are allowed, `TooLong` only if too much was read, and `Write` only if the last write
    //   failed or took nothing. A stream that failed isn't called again. After Ok all calls on both streams
    //   succeeded. This holds for every reader and writer.
    ensures calls { OnOk result
        (Completes R.gives W.takes record_reads (IsJudgedText base.now allowances.now asked) reader.old reader.new
        writer.old writer.new) }
    // Proved (records, record-stream-faults)
    ensures cause { IfErr result
        (λ fault. Stops R.gives R.fails W.takes W.refuses record_reads record_bytes
        (IsJudgedText base.now allowances.now asked) IsFaultOfJudging fault reader.old reader.new writer.old
        writer.new) }
{
    let text = read_within(alloc, reader, RECORD_BYTES, RECORD_READS)?;
    let judged = judge_text(alloc, base, text.as_slice(), allowances, asked, progress)?;
    write_judged(writer, &judged)
}
