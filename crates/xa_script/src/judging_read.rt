//! Reads a record and judges it, and says so if its form isn't that of a record.
ghost use Rattle.std.specs.{Prelude.{ℕ, Option, List, IfOk, IfErr}, Io.KnownBytes.{Consumes, IsAtEnd}};
ghost use Rattle.xa_lines.specs.Transcript.{IsOfReading};
ghost use Rattle.xa_record.specs.Judged.{AfterJudgeFault};
ghost use Rattle.xa_script.specs.{CommandLine.IsLimit, Status.AppendsVerdict};

use crate::following::Following;
use crate::foreign::foreign_in;
use crate::judging::judge_within;
use std::alloc::Global;
use std::io::{Read, Write};
use xa_judge::Progress;
use xa_lines::{ScriptFault, read_within};
use xa_record::{Allowance, Asked};
use xa_server::Server;

/// The greatest length of a record, in bytes: 16 MiB (own rule).
const RECORD_BYTES: usize = 16_777_216;

/// The greatest number of reads for a record: two for each byte, ample for a reader that gives one byte at a time.
const RECORD_READS: u64 = 33_554_432;

/// Says on the standard error in which form a record is, if its lines are likely not read as its writer meant them.
/// The record's `name` comes first, if it has one.
fn tell_form<R: Eprint>(rt: &R, name: Option<&str>, record: &[u8]) {
    if let Some(form) = foreign_in(record) {
        if let Some(name) = name {
            let _ = eprintln!(rt; "xa_script: in {name}");
        }
        let _ = eprintln!(rt; "xa_script: {}", form.advice());
    }
}

/// Reads a record, and returns its text. Says on the standard error in which form it is if that isn't a record's,
/// behind its `name` if it has one. If `follows`, its lines are judged as they come; only that uses `base`, the
/// allowances and `asked`.
fn record_in<I: Read, R: Eprint + Alloc<A = Global>>(
    rt: &R,
    base: &Server,
    reader: &mut I,
    name: Option<&str>,
    allowances: &[Allowance],
    asked: Asked,
    follows: bool,
) -> Result<Vec<u8>, ScriptFault>
    ensures all { IfOk result (λ text. (rest : Option (List ℕ))
        × Consumes (I.remaining reader.old) rest text.items × IsAtEnd rest) }
    ensures fault { IfErr result IsOfReading }
{
    let mut following = Following::new(rt, reader, base, allowances, asked, follows);
    let record = read_within(rt.alloc(), &mut following, RECORD_BYTES, RECORD_READS)?;
    tell_form(rt, name, record.as_slice());
    Ok(record)
}

/// Reads a record, judges it as `judge_within` does, and says on the standard error in which form it is, if that isn't
/// a record's; if it is one of a list, its `name` comes before that. If `follows`, its lines are judged as they come,
/// too, and the standard error is told once they are ILLEGAL.
///
/// The limit of `asked` is in `[1, 1_000_000]`.
/// Errors: `Read`, `TooLong` and `NoMemory` of reading, then as `judge_within`. After `Write` a prefix of the text was
/// written, after any other error nothing.
/// May return `NoMemory`. Doesn't wait, unless the reader, the writer, the receiver of the progress or the standard
/// error does.
/// Own rule: docs/HISTORIES.md#records.
pub fn judge_read<I: Read, W: Write, R: Eprint + Alloc<A = Global>, P: Progress>(
    rt: &R,
    base: &Server,
    reader: &mut I,
    name: Option<&str>,
    writer: &mut W,
    allowances: &[Allowance],
    asked: Asked,
    follows: bool,
    progress: &mut P,
) -> Result<u8, ScriptFault>
    requires { IsLimit asked.limit }
    // Proved (scripts, status-of-an-end)
    ensures judged { IfOk result
        (λ status. AppendsVerdict base.now allowances.now asked status (I.remaining reader.old)
        (W.contents writer.old) (W.contents writer.new)) }
    ensures fault { IfErr result
        (λ fault. AfterJudgeFault base.now allowances.now asked fault (I.remaining reader.old)
        (W.contents writer.old) (W.contents writer.new)) }
{
    let record_read = record_in(rt, base, reader, name, allowances, asked, follows)?;
    let record = record_read.as_slice();
    judge_within(
        rt.alloc(),
        base,
        record,
        writer,
        allowances,
        asked,
        progress,
    )
}
