//! How the verdicts on several records are written: a line for each, or the Test Anything Protocol, version 13.
ghost use Rattle.std.specs.Prelude.{◌≡◌, ◌<◌, ◌++◌, ◌∷◌, [], OnOk, IfOk, length, decimal};
ghost use Rattle.xa_lines.specs.Script.{lines_of};
ghost use Rattle.xa_script.specs.Listing.{worse as worse_of, first_line as first_line_of, note, notes_of, notes_on};
ghost use Rattle.xa_script.specs.Listing.{tap_name, tap_point, tap_piece, listed_line, piece, heading as heading_of};

use crate::verdict::Verdict;
use std::alloc::Global;
use xa_lines::{push_number, split_line};
use xa_xid::NoMemory;

/// Returns the status that counts of two records' statuses: the least that isn't 0, or 0 if both are 0.
///
/// Takes no memory. Doesn't wait.
/// Own rule: docs/COMMANDS.md#exit-status.
pub fn worse(one: u8, other: u8) -> u8
    // Proved (scripts, worst-status): Of two records' statuses the one counts that is least among those that aren't 0;
    //   0 counts only if both are.
    ensures { result ≡ worse_of one other }
{
    // 0 is LEGAL. The statuses of the other verdicts ascend from ILLEGAL, the worst.
    if one == 0 {
        other
    } else if other == 0 || one <= other {
        one
    } else {
        other
    }
}

/// Returns the first line, without its line feed; of an empty text an empty one.
fn first_line(text: &[u8]) -> &[u8]
    ensures { result.now ≡ first_line_of text.now }
{
    if text.is_empty() {
        return &[];
    }
    split_line(text).0
}

/// Appends a line as a comment.
fn push_note(out: &mut Vec<u8>, line: &[u8]) -> Result<(), NoMemory>
    ensures { OnOk result (out.new.items ≡ out.old.items ++ note line.now) }
{
    out.extend_from_slice(b"# ")?;
    out.extend_from_slice(line)?;
    out.extend_from_slice(b"\n")
}

/// Appends each line of a text as a comment.
fn push_notes(out: &mut Vec<u8>, text: &[u8]) -> Result<(), NoMemory>
    ensures { OnOk result (out.new.items ≡ out.old.items ++ notes_of (lines_of text.now)) }
{
    let mut rest = text;
    while !rest.is_empty() {
        let (line, lines) = split_line(rest);
        push_note(out, line)?;
        rest = lines;
    }
    Ok(())
}

/// Appends the lines of a verdict as comments. Of a LEGAL record, whose status is 0, only the first line is appended,
/// since an order says little there.
fn push_verdict_notes(out: &mut Vec<u8>, verdict: &Verdict) -> Result<(), NoMemory>
    ensures { OnOk result (out.new.items ≡ out.old.items ++ notes_on verdict.now.status verdict.now.text.items) }
{
    if verdict.status == 0 {
        return push_note(out, first_line(verdict.text.as_slice()));
    }
    push_notes(out, verdict.text.as_slice())
}

/// Appends a name so that no byte of it ends the line or begins a directive: a byte below 32 as a blank, and `#` and
/// backslash with a backslash before them.
fn push_name(out: &mut Vec<u8>, name: &[u8]) -> Result<(), NoMemory>
    ensures { OnOk result (out.new.items ≡ out.old.items ++ tap_name name.now) }
{
    for byte in name {
        if *byte < b' ' {
            out.push(b' ')?;
        } else {
            // A `#` would begin a directive, such as SKIP, and a backslash takes away what comes next.
            if *byte == b'#' || *byte == b'\\' {
                out.push(b'\\')?;
            }
            out.push(*byte)?;
        }
    }
    Ok(())
}

/// Appends the line of a test point, which is ok only if the status is 0, that of a LEGAL record.
fn push_point(out: &mut Vec<u8>, number: u64, status: u8, name: &[u8]) -> Result<(), NoMemory>
    ensures { OnOk result (out.new.items ≡ out.old.items ++ tap_point number status name.now) }
{
    if status == 0 {
        out.extend_from_slice(b"ok ")?;
    } else {
        out.extend_from_slice(b"not ok ")?;
    }
    push_number(out, number)?;
    out.extend_from_slice(b" - ")?;
    push_name(out, name)?;
    out.extend_from_slice(b"\n")
}

/// Appends the line of a record: its name, and the first line of its verdict.
fn push_listed(out: &mut Vec<u8>, name: &[u8], verdict: &Verdict) -> Result<(), NoMemory>
    ensures { OnOk result (out.new.items ≡ out.old.items ++ listed_line name.now verdict.now.text.items) }
{
    out.extend_from_slice(name)?;
    out.extend_from_slice(b": ")?;
    out.extend_from_slice(first_line(verdict.text.as_slice()))?;
    out.extend_from_slice(b"\n")
}

/// Appends the test point of this record, and below it what its verdict says, as comments.
fn push_tap(out: &mut Vec<u8>, number: u64, name: &[u8], verdict: &Verdict) -> Result<(), NoMemory>
    ensures { OnOk result
        (out.new.items ≡ out.old.items ++ tap_piece number name.now verdict.now.status verdict.now.text.items) }
{
    push_point(out, number, verdict.status, name)?;
    push_verdict_notes(out, verdict)
}

/// Appends what is written for one of several records. `number` counts them from 1.
///
/// May return `NoMemory`. Doesn't wait.
/// Own rule: docs/COMMANDS.md#several-records.
pub fn push_piece(
    out: &mut Vec<u8>,
    tap: bool,
    number: u64,
    name: &str,
    verdict: &Verdict,
) -> Result<(), NoMemory>
    // Proved (scripts, text-of-several): What is written for one of several records is its name with the first line of
    //   its verdict. With `--tap` it is a test point, and below it the verdict's lines as comments, or only the first
    //   of them if the record is LEGAL.
    ensures { OnOk result
        (out.new.items ≡ out.old.items ++ piece tap number name.now (verdict.now.status, verdict.now.text.items)) }
{
    if tap {
        push_tap(out, number, name.as_bytes(), verdict)
    } else {
        push_listed(out, name.as_bytes(), verdict)
    }
}

/// Returns what is written before the first of `count` records: the version and how many test points come, if `tap`;
/// else nothing.
///
/// May return `NoMemory`. Doesn't wait.
/// Own rule: docs/COMMANDS.md#several-records.
pub fn heading(alloc: Global, tap: bool, count: u64) -> Result<Vec<u8>, NoMemory>
    // Proved (scripts, text-of-several)
    ensures { IfOk result (λ text. text.items ≡ heading_of tap count) }
{
    let mut text = Vec::new(alloc);
    if tap {
        text.extend_from_slice(b"TAP version 13\n1..")?;
        push_number(&mut text, count)?;
        text.extend_from_slice(b"\n")?;
    }
    Ok(text)
}
