//! What has to come in a line that isn't one of a record.
ghost use Rattle.std.specs.Prelude.{◌≡◌, is_some};
ghost use Rattle.xa_record.specs.Lines.{reading_of_line, is_bad};

use crate::line::{RecordLine, read_record_line};
use xa_lines::{ScriptLine, number_in, read_line, split_word};
use xa_xid::{literal_of, skip_blanks};

/// What has to come in a line that isn't one of a record.
#[derive(Clone, Copy, Debug, PartialEq, Eq)]
pub enum LineWanted {
    /// A session, a sign, and what belongs to it.
    Form,
    /// `OK`, `NONE`, `VALUE`, `ROWS` or `ERROR`.
    Reply,
    /// A literal of at most 64 bytes.
    Literal,
    /// A number below 2^64.
    Count,
    /// A number from 0 to 65,535.
    ErrorNumber,
    /// A row of a return.
    Row,
    /// A number from 0 to 64, the length of a gtrid or a bqual.
    Length,
    /// `0x` and the digits of a gtrid and a bqual, whose lengths come before.
    Digits,
    /// `ERROR`.
    Error,
    /// `LOST` or `GONE`.
    Loss,
    /// Nothing more.
    End,
}

/// A place in a line, and what has to come there. The place is a number of bytes from 0: in what comes after the sign
/// and its blanks, or in a row without the blanks before it. For `Form` it is 0.
#[derive(Clone, Copy, Debug, PartialEq, Eq)]
pub struct LineGap {
    /// What has to come.
    pub wanted: LineWanted,
    /// Where it has to come.
    pub at: u64,
}

/// `wanted` and where it has to come: where only `rest`, an end of `text`, is left.
pub fn gap(wanted: LineWanted, text: &[u8], rest: &[u8]) -> LineGap {
    // `rest` isn't longer than `text`, so this is how many bytes of `text` come before it.
    let at = text.len().saturating_sub(rest.len()) as u64;
    LineGap { wanted, at }
}

/// What has to come in the faulty reply `text`, of which `rest` comes after `VALUE`: a literal, or if one is there,
/// nothing more behind it.
fn gap_in_value(text: &[u8], rest: &[u8]) -> LineGap {
    match literal_of(rest) {
        Ok((_, behind)) => gap(LineWanted::End, text, skip_blanks(behind)),
        Err(_) => gap(LineWanted::Literal, text, rest),
    }
}

/// What has to come in the faulty reply `text`, of which `rest` comes after `ROWS`: a number, or if one is there,
/// nothing more behind it.
fn gap_in_rows(text: &[u8], rest: &[u8]) -> LineGap {
    let (count, behind) = split_word(rest);
    match number_in(count) {
        Some(_) => gap(LineWanted::End, text, skip_blanks(behind)),
        None => gap(LineWanted::Count, text, rest),
    }
}

/// What has to come in a text after `<` that isn't a reply of a record.
fn gap_in_reply(text: &[u8]) -> LineGap {
    let (word, rest) = split_word(text);
    let rest = skip_blanks(rest);
    if word == b"OK".as_slice() || word == b"NONE".as_slice() {
        gap(LineWanted::End, text, rest)
    } else if word == b"VALUE".as_slice() {
        gap_in_value(text, rest)
    } else if word == b"ROWS".as_slice() {
        gap_in_rows(text, rest)
    } else if word == b"ERROR".as_slice() {
        // Anything may follow the number, so it is the number that is wrong.
        gap(LineWanted::ErrorNumber, text, rest)
    } else {
        gap(LineWanted::Reply, text, text)
    }
}

/// What has to come in a text after `!` that isn't the loss of a client.
fn gap_in_loss(text: &[u8]) -> LineGap {
    let (word, rest) = split_word(text);
    if word == b"LOST".as_slice() || word == b"GONE".as_slice() {
        gap(LineWanted::End, text, skip_blanks(rest))
    } else {
        gap(LineWanted::Loss, text, text)
    }
}

/// What has to come in `text`, if a line with this sign and then `text` isn't one of a record.
fn gap_behind(sign: &[u8], text: &[u8]) -> LineGap {
    if sign == b"<".as_slice() {
        gap_in_reply(text)
    } else if sign == b"?".as_slice() {
        gap(LineWanted::Error, text, text)
    } else if sign == b"!".as_slice() {
        gap_in_loss(text)
    } else {
        // Any text may come after `>`, so this isn't a sign of a record.
        gap(LineWanted::Form, text, text)
    }
}

/// What has to come in a line that isn't one of a record.
fn gap_of(line: &[u8]) -> LineGap {
    match read_line(line) {
        ScriptLine::Given(_, text) => {
            let (sign, rest) = split_word(text);
            gap_behind(sign, skip_blanks(rest))
        }
        // A blank line doesn't come here: it says nothing, so it isn't bad.
        ScriptLine::Blank | ScriptLine::Bad => gap(LineWanted::Form, line, line),
    }
}

/// Returns what has to come in a line, without its line feed, if it isn't one of a record; else None. A line in the
/// place of a row is another matter: see `row_wanted_in`.
///
/// Takes no memory. Doesn't wait.
/// Own rule: docs/COMMANDS.md#messages.
pub fn wanted_in(line: &[u8]) -> Option<LineGap>
    // Proved (records, line-wanted): Something is wanted in a line of a record exactly if it doesn't have the form of
    //   any line of a record.
    ensures { is_some result ≡ is_bad (reading_of_line line.now) }
{
    match read_record_line(line) {
        RecordLine::Bad => Some(gap_of(line)),
        RecordLine::Nothing => None,
        RecordLine::Happens(_) => None,
        RecordLine::Value(_, _) => None,
        RecordLine::Rows(_, _) => None,
        RecordLine::Closed(_) => None,
    }
}
