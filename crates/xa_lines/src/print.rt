//! Prints replies.
ghost use Rattle.std.specs.Prelude.{◌≡◌, ◌≤◌, ◌++◌, OnOk, IfOk, length, decimal, codes};
ghost use Rattle.hex.specs.Hex.{encode_lower};
ghost use Rattle.xa_xid.specs.{Limits.text_bytes, XidText.part_text};
ghost use Rattle.xa_lines.specs.Printed.{row_data, row_text, rows_text, error_text, reply_text, syntax_text};

use itoa::Buffer;
use std::alloc::{AllocError, Global};
use std::io::Write;
use std::mem;
use xa_server::{Reply, XaError};
use xa_xid::{NoMemory, Xid, with_part};

/// Appends a number in decimal digits.
///
/// May return `NoMemory`. Doesn't wait.
/// Own rule: docs/COMMANDS.md#scripts.
pub fn push_number(text: &mut Vec<u8>, number: u64) -> Result<(), NoMemory>
    ensures { OnOk result (text.new.items ≡ text.old.items ++ decimal number) }
{
    let mut buffer = Buffer::new();
    text.extend_from_slice(buffer.format(number).as_bytes())
}

/// Appends `0x` and two hexadecimal digits, in lower case, for each byte.
fn push_digits(alloc: Global, text: &mut Vec<u8>, bytes: &[u8]) -> Result<(), NoMemory>
    ensures { OnOk result (text.new.items ≡ text.old.items ++ (codes "0x" ++ encode_lower bytes.now)) }
{
    let digits = hex::encode(alloc, bytes)?;
    text.extend_from_slice(b"0x")?;
    text.extend_from_slice(digits.as_bytes())
}

/// Appends the canonical text of a value, as `with_part` does. If memory is refused, the text is lost.
fn push_part(alloc: Global, text: &mut Vec<u8>, bytes: &[u8]) -> Result<(), NoMemory>
    requires { length bytes.now ≤ text_bytes }
    ensures { OnOk result (text.new.items ≡ text.old.items ++ part_text bytes.now) }
{
    // `with_part` takes the text, and gives a longer one back. An empty one holds its place, and stays if memory is
    // refused.
    let before = mem::replace(text, Vec::new(alloc));
    *text = with_part(before, bytes)?;
    Ok(())
}

/// Appends gtrid and bqual of an identifier: their bytes, one after the other, or if `convert` asks for that, `0x` and
/// the hexadecimal digits of these bytes.
fn push_row_data(
    alloc: Global,
    text: &mut Vec<u8>,
    convert: bool,
    xid: &Xid,
) -> Result<(), NoMemory>
    ensures { OnOk result (text.new.items ≡ text.old.items
        ++ row_data convert (xid.now.gtrid.items ++ xid.now.bqual.items)) }
{
    let mut bytes = Vec::from_slice(alloc, xid.gtrid.as_slice())?;
    bytes.extend_from_slice(xid.bqual.as_slice())?;
    if convert {
        push_digits(alloc, text, bytes.as_slice())
    } else {
        text.extend_from_slice(bytes.as_slice())
    }
}

/// Appends the line of a recovered identifier, without a line feed: its formatID, the lengths of gtrid and bqual, and
/// their bytes, in digits if `convert` asks for that.
fn push_row(alloc: Global, text: &mut Vec<u8>, convert: bool, xid: &Xid) -> Result<(), NoMemory>
    ensures { OnOk result (text.new.items ≡ text.old.items ++ row_text convert xid.now) }
{
    push_number(text, xid.format_id)?;
    text.extend_from_slice(b" ")?;
    push_number(text, xid.gtrid.len() as u64)?;
    text.extend_from_slice(b" ")?;
    push_number(text, xid.bqual.len() as u64)?;
    text.extend_from_slice(b" ")?;
    push_row_data(alloc, text, convert, xid)
}

/// Appends the lines of recovered identifiers, each after a line feed.
fn push_rows(alloc: Global, text: &mut Vec<u8>, convert: bool, xids: &[Xid]) -> Result<(), NoMemory>
    ensures { OnOk result (text.new.items ≡ text.old.items ++ rows_text convert xids.now) }
{
    for xid in xids {
        text.extend_from_slice(b"\n")?;
        push_row(alloc, text, convert, xid)?;
    }
    Ok(())
}

/// Appends the text of a refusal.
fn push_error(text: &mut Vec<u8>, error: &XaError) -> Result<(), NoMemory>
    ensures { OnOk result (text.new.items ≡ text.old.items ++ error_text error.now) }
{
    let (number, sqlstate) = (error.number(), error.sqlstate());
    // A write to a `Vec` fails only if memory is refused.
    write!(text, "ERROR {number} ({sqlstate}): {error}").map_err(|_| AllocError)
}

/// Appends the printed form of a reply, without a line feed at its end.
///
/// `convert` asks for the identifiers of a list in digits, as `0x..`.
/// Errors: `NoMemory` if an allocation failed. A part of the reply may then be appended, or the whole text be
/// lost.
/// May return `NoMemory`. Doesn't wait.
/// Own rule: docs/COMMANDS.md#scripts.
pub fn push_reply(
    alloc: Global,
    text: &mut Vec<u8>,
    convert: bool,
    reply: &Reply,
) -> Result<(), NoMemory>
    ensures { OnOk result (text.new.items ≡ text.old.items ++ reply_text convert reply.now) }
{
    match reply {
        Reply::Ok => text.extend_from_slice(b"OK"),
        Reply::Value(None) => text.extend_from_slice(b"NONE"),
        Reply::Value(Some(value)) => {
            text.extend_from_slice(b"VALUE ")?;
            push_part(alloc, text, value.as_slice())
        }
        Reply::Recovered(xids) => {
            let xids = xids.as_slice();
            text.extend_from_slice(b"ROWS ")?;
            push_number(text, xids.len() as u64)?;
            push_rows(alloc, text, convert, xids)
        }
        Reply::Refused(error) => push_error(text, error),
    }
}

/// Appends the answer to a text that isn't a statement.
///
/// `at` is the byte at which the text goes wrong, from 0.
/// Errors: `NoMemory` if an allocation failed. A part of the answer may then be appended.
/// May return `NoMemory`. Doesn't wait.
/// Own rule: docs/COMMANDS.md#scripts.
pub fn push_syntax_fault(text: &mut Vec<u8>, at: u64) -> Result<(), NoMemory>
    ensures { OnOk result (text.new.items ≡ text.old.items ++ syntax_text at) }
{
    text.extend_from_slice(b"ERROR 1064 (42000): syntax fault at byte ")?;
    push_number(text, at)
}
