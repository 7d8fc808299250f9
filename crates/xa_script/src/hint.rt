//! Says on the standard error what to do about a line that isn't read.

use crate::line_fault::LineFault;
use crate::wanted::wanted_at;
use std::alloc::Global;
use xa_lines::LINE_BYTES;
use xa_record::LineWanted;
use xa_xid::NoMemory;

/// The forms of a line of a record.
const RECORD_LINES: &str = "S > STATEMENT, S < REPLY, S ? ERROR, S ! LOST or S ! GONE";

/// The first words of calls.
const CALLS: &str =
    "BEGIN, WORK, PREPARE, DECIDE, FINISH, ABANDON, FAIL, STOP, RECOVER, AT or SHOW with its numbers";

/// The first words of the calls that `stops` takes.
const STOPPED_CALLS: &str = "BEGIN, WORK, PREPARE, DECIDE, FINISH, ABANDON or AT with its numbers";

/// The words for what has to come in a line of a record.
fn record_words(wanted: LineWanted) -> &'static str {
    match wanted {
        LineWanted::Form => RECORD_LINES,
        LineWanted::Reply => "OK, NONE, VALUE, ROWS or ERROR",
        LineWanted::Literal => "a quoted text or 0x.. of at most 64 bytes",
        LineWanted::Count => "a number below 2^64",
        LineWanted::ErrorNumber => "a number from 0 to 65535",
        LineWanted::Row => "a row, formatID gtrid_length bqual_length 0xDATA,",
        LineWanted::Length => "a number from 0 to 64",
        LineWanted::Digits => "0x and two digits for each byte of gtrid and bqual",
        LineWanted::Error => "ERROR",
        LineWanted::Loss => "LOST or GONE",
        LineWanted::End => "the end of the line",
    }
}

/// Writes what has to come in the line of this number, from 1, at the byte `at`, from 0.
fn tell_wanted<R: Eprint>(rt: &R, number: u64, at: u64, wanted: &str) {
    let _ = eprintln!(rt; "xa_script: line {number}, byte {at}: syntax fault; write {wanted} here");
}

/// Says what has to come in the line of this number, and at which byte, from 0; of a line that is too long only how
/// long it may be. If only the statement is at fault, its own bytes are counted; in a line of a record those after its
/// sign and the blanks behind that, and in a row those of the row. The byte is 0 for a line without a session or a
/// sign, and for one that is no call.
///
/// Errors: `NoMemory`. Doesn't wait, unless the standard error does.
pub fn tell_line<R: Eprint + Alloc<A = Global>>(
    rt: &R,
    number: u64,
    fault: LineFault<'_>,
) -> Result<(), NoMemory> {
    match fault {
        LineFault::NoSession => {
            tell_wanted(rt, number, 0, "the number of a session, from 1 to 16,");
        }
        LineFault::NoStatement(text, at) => {
            // The place is in the text or at its end, so it stays the same.
            let wanted = wanted_at(rt.alloc(), text, at as usize)?;
            tell_wanted(rt, number, at, wanted.as_str());
        }
        LineFault::NoCall => tell_wanted(rt, number, 0, CALLS),
        LineFault::NoStopped => tell_wanted(rt, number, 0, STOPPED_CALLS),
        LineFault::NoWork => tell_wanted(rt, number, 0, "GET, PUT or DEL"),
        LineFault::NoRecord(gap) => tell_wanted(rt, number, gap.at, record_words(gap.wanted)),
        LineFault::TooLong => {
            let _ = eprintln!(rt;
                "xa_script: line {number}: too long; write at most {LINE_BYTES} bytes"
            );
        }
    }
    Ok(())
}
