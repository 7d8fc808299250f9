//! Reads a text to its end, and writes a whole text.
//!
//! The library's `write_all` promises nothing about the bytes that were written before an error. The loop
//! here promises that they are a prefix of the text.
ghost use Rattle.std.specs.Prelude.{◌≡◌, ◌≤◌, ◌<◌, ◌⊎◌, [], take, vec_len, IfOk, IfErr, OnOk, OnErr, MatchResult, Err};
ghost use Rattle.std.specs.Io.{ReadsAtMost, WritesAtMost};
ghost use Rattle.std.specs.Io.KnownBytes.{Appends, Consumes, IsAtEnd, ReadConsumes, WriteAppends};
ghost use Rattle.xa_lines.specs.Calls.{HasReadAll, StopsReading, HasWritten, StopsWriting};
ghost use Rattle.xa_lines.specs.Limits.{script_bytes, script_reads};
ghost use Rattle.xa_lines.specs.Transcript.{AppendsPrefix, ConsumesMoreThan, IsOfReading};

use crate::{PieceReader, PieceWriter, ScriptFault};
use std::alloc::Global;

/// The greatest length of a script, in bytes: 1 MiB.
const SCRIPT_BYTES: usize = 1_048_576;

/// The greatest number of reads that a script takes. A reader that gives one byte at a time needs one for each byte and
/// one more; twice as many are ample, and with a bound the loop that reads ends.
const SCRIPT_READS: u64 = 2_097_152;

/// Returns the greatest length of a script, in bytes, and the greatest number of reads that it may take.
///
/// Takes no memory. Doesn't wait.
/// Own rule: docs/COMMANDS.md#scripts.
pub fn script_limits() -> (usize, u64)
    // Proved (scripts, script-limits): A script has at most 1,048,576 bytes, and takes at most 2,097,152
    //   reads.
    ensures bytes { result.0 ≡ script_bytes }
    // Proved (scripts, script-limits)
    ensures reads { result.1 ≡ script_reads }
{
    (SCRIPT_BYTES, SCRIPT_READS)
}

/// Reads once into `piece`, and returns how many bytes were read. Any error of the reader is `Read`.
fn read_once<R: PieceReader>(reader: &mut R, piece: &mut [u8]) -> Result<usize, ScriptFault>
    ensures bound { ReadsAtMost result piece.new }
    ensures bytes { ReadConsumes (R.remaining reader.old) (R.remaining reader.new) result piece.new }
    ensures given { IfOk result (λ count. R.gives reader.old (take count piece.new) reader.new) }
    ensures fault { IfErr result (λ fault. fault ≡ ScriptFault.Read) }
    ensures failed { OnErr result (R.fails reader.old reader.new) }
{
    match reader.read_piece(piece) {
        Ok(count) => Ok(count),
        Err(_) => Err(ScriptFault::Read),
    }
}

/// Writes once, and returns how many of the bytes were taken, at least one. Returns `Write` if the write fails or takes
/// nothing.
fn write_once<W: PieceWriter>(writer: &mut W, bytes: &[u8]) -> Result<usize, ScriptFault>
    ensures bound { WritesAtMost result bytes.now }
    ensures bytes { WriteAppends (W.contents writer.old) (W.contents writer.new) result bytes.now }
    ensures some { IfOk result (λ count. 0 < count) }
    ensures taken { IfOk result (λ count. W.takes writer.old (take count bytes.now) writer.new) }
    ensures fault { IfErr result (λ fault. fault ≡ ScriptFault.Write) }
    ensures refused { OnErr result (W.refuses writer.old writer.new ⊎ W.takes writer.old [] writer.new) }
{
    match writer.write_piece(bytes) {
        Ok(0) => Err(ScriptFault::Write),
        Ok(count) => Ok(count),
        Err(_) => Err(ScriptFault::Write),
    }
}

/// Reads all that the reader gives: at most `most` bytes, in at most `reads` reads. The read that finds the end is one
/// of these.
///
/// Errors: `Read` if a read failed, or too many were needed; `TooLong` if the reader gives more; `NoMemory`
/// if an allocation failed. A reader that failed isn't read again.
/// May return `NoMemory`. Doesn't wait, unless the reader does.
/// Own rule: docs/COMMANDS.md#scripts.
pub fn read_within<R: PieceReader>(
    alloc: Global,
    reader: &mut R,
    most: usize,
    reads: u64,
) -> Result<Vec<u8>, ScriptFault>
    ensures all { IfOk result (λ text. Consumes (R.remaining reader.old) (R.remaining reader.new) text.items) }
    ensures end { OnOk result (IsAtEnd (R.remaining reader.new)) }
    ensures short { IfOk result (λ text. vec_len text ≤ most) }
    ensures fault { IfErr result IsOfReading }
    ensures too_long { result ≡ Err ScriptFault.TooLong → ConsumesMoreThan most (R.remaining reader.old)
        (R.remaining reader.new) }
    // Proved (scripts, run-fault-causes)
    ensures calls { IfOk result (λ text. HasReadAll R.gives reads reader.old text.items reader.new) }
    // Proved (scripts, run-fault-causes)
    ensures cause { IfErr result (λ fault. StopsReading R.gives R.fails reads most fault reader.old reader.new) }
{
    let mut text = Vec::new(alloc);
    // What one read may give at most. Any size but 0 would do.
    let mut piece = [0u8; 4096];
    for _read in 0..reads {
        let count = read_once(reader, &mut piece)?;
        if count == 0 {
            return Ok(text);
        }
        // The text is at most `most` bytes long, so this doesn't underflow.
        if count > most - text.len() {
            return Err(ScriptFault::TooLong);
        }
        text.extend_from_slice(&piece[..count])?;
    }
    // No read is left, and none has found the end.
    Err(ScriptFault::Read)
}

/// Reads all that the reader gives: at most 1,048,576 bytes, in at most 2,097,152 reads.
///
/// Errors: `Read` if a read failed, or too many were needed; `TooLong` if the reader gives more; `NoMemory`
/// if an allocation failed. A reader that failed isn't read again.
/// May return `NoMemory`. Doesn't wait, unless the reader does.
/// Own rule: docs/COMMANDS.md#scripts.
pub fn read_all<R: PieceReader>(alloc: Global, reader: &mut R) -> Result<Vec<u8>, ScriptFault>
    ensures all { IfOk result (λ script. Consumes (R.remaining reader.old) (R.remaining reader.new) script.items) }
    ensures end { OnOk result (IsAtEnd (R.remaining reader.new)) }
    ensures short { IfOk result (λ script. vec_len script ≤ script_bytes) }
    ensures fault { IfErr result IsOfReading }
    ensures too_long { result ≡ Err ScriptFault.TooLong → ConsumesMoreThan script_bytes (R.remaining reader.old)
        (R.remaining reader.new) }
    ensures calls { IfOk result (λ script. HasReadAll R.gives script_reads reader.old script.items reader.new) }
    ensures cause { IfErr result (λ fault. StopsReading R.gives R.fails script_reads script_bytes fault reader.old
        reader.new) }
{
    read_within(alloc, reader, SCRIPT_BYTES, SCRIPT_READS)
}

/// Writes all of the bytes, or as many as the writer takes until a write fails.
///
/// Errors: `Write` if a write failed or took nothing. A prefix of the bytes was then written, and the writer
/// isn't called again: neither written to nor flushed.
/// Takes no memory. Doesn't wait, unless the writer does.
/// Own rule: docs/COMMANDS.md#scripts.
pub fn write_whole<W: PieceWriter>(writer: &mut W, bytes: &[u8]) -> Result<(), ScriptFault>
    ensures all { OnOk result (Appends (W.contents writer.old) (W.contents writer.new) bytes.now) }
    ensures fault { IfErr result (λ fault. fault ≡ ScriptFault.Write) }
    ensures prefix { OnErr result (AppendsPrefix (W.contents writer.old) (W.contents writer.new) bytes.now) }
    // Proved (scripts, run-fault-causes)
    ensures calls { MatchResult result
        (λ _. HasWritten W.takes writer.old bytes.now writer.new)
        (λ _. StopsWriting W.takes W.refuses writer.old bytes.now writer.new) }
{
    let mut written = 0;
    while written < bytes.len() {
        let count = write_once(writer, &bytes[written..])?;
        written += count;
    }
    Ok(())
}
