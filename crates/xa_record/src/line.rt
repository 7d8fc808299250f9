//! Reads a line of a record.
ghost use Rattle.std.specs.Prelude.{◌≡◌, Some};
ghost use Rattle.xa_lines.specs.Script.{first_word, behind_word as behind_word_of, number_of_word};
ghost use Rattle.xa_record.specs.{Rows.leading_number as leading_number_of, Lines.{alone, is_silent as is_silent_line}};
ghost use Rattle.xa_record.specs.Lines.{trimmed as trimmed_text, value_said, rows_said, error_said, return_said};
ghost use Rattle.xa_record.specs.Lines.{unknown_said, loss_said, session_said, reading_of_line, Says, Awaits, Calls};
ghost use Rattle.xa_record.specs.Lines.{Returns, ReturnsUnknown, Leaves, Closed, ShowsValue};
ghost use Rattle.xa_record.specs.Kept.{shown_kept, line_kept};
ghost use Rattle.xa_xid.specs.Literal.{literal_ahead};

use crate::line_event::LineEvent;
use crate::rows::{behind_word, leading_number};
use crate::shown::Shown;
use xa_lines::{ScriptLine, is_comment, number_in, read_line, split_word};
use xa_xid::{ByteClass, Bytes, SessionNo, literal_of, skip_blanks};

/// What a line of a record says.
#[derive(Drop)]
pub enum RecordLine<'a> {
    /// Nothing: it is blank, or a comment.
    Nothing,
    /// It doesn't have the form of any line of a record.
    Bad,
    /// This event.
    Happens(LineEvent<'a>),
    /// A call of the session returns this value. It isn't a `Shown` yet: that needs a box, and reading a line takes no
    /// memory.
    Value(SessionNo, Bytes),
    /// A call of the session returns this many rows, which follow on the next lines.
    Rows(SessionNo, u64),
    /// The session's client found that the server had closed its connection.
    Closed(SessionNo),
}

/// Tells whether the line is blank or a comment.
pub fn is_silent(line: &[u8]) -> bool
    ensures { result ≡ is_silent_line line.now }
{
    skip_blanks(line).is_empty() || is_comment(line)
}

/// The text without the blanks at its end.
#[tactic(auto, using(crate::proofs::Trimmed::trimmed_blank, crate::proofs::Trimmed::trimmed_full, crate::proofs::Trimmed::trimmed_none))]
fn trimmed(text: &[u8]) -> &[u8]
    ensures { result.now ≡ trimmed_text text.now }
{
    let mut rest = text;
    while let Some((last, front)) = rest.split_last() {
        if !ByteClass::Blank.has(*last) {
            return rest;
        }
        rest = front;
    }
    rest
}

/// The line of a return that shows this, if `rest`, what follows on the line, is empty; else the line is bad.
fn alone<'a>(session: SessionNo, shown: Shown<'a>, rest: &'a [u8]) -> RecordLine<'a>
    ensures { line_kept result ≡ alone (Says (Returns session (shown_kept shown.entry))) rest.now }
{
    if rest.is_empty() {
        RecordLine::Happens(LineEvent::Return(session, shown))
    } else {
        RecordLine::Bad
    }
}

/// The line of a return that shows a value, if `rest`, what follows on the line, is empty; else the line is bad.
fn value_alone(session: SessionNo, value: Bytes, rest: &[u8]) -> RecordLine<'_>
    ensures { line_kept result ≡ alone (Says (Returns session (ShowsValue (Some value)))) rest.now }
{
    if rest.is_empty() {
        RecordLine::Value(session, value)
    } else {
        RecordLine::Bad
    }
}

/// The line of a return that shows a value: `text`, which comes after `VALUE`, is its literal, and only blanks may
/// follow. Else the line is bad.
fn value(session: SessionNo, text: &[u8]) -> RecordLine<'_>
    ensures { line_kept result ≡ value_said session (literal_ahead text.now) }
{
    match literal_of(text) {
        Ok((value, rest)) => value_alone(session, value, skip_blanks(rest)),
        Err(_) => RecordLine::Bad,
    }
}

/// The line of a return that shows rows: `text`, which comes after `ROWS`, is their number, and only blanks may
/// follow. Else the line is bad.
fn rows(session: SessionNo, text: &[u8]) -> RecordLine<'_>
    ensures { line_kept result ≡ rows_said session (number_of_word (first_word text.now)) (behind_word_of text.now) }
{
    let (word, rest) = split_word(text);
    match number_in(word) {
        None => RecordLine::Bad,
        Some(count) => {
            if skip_blanks(rest).is_empty() {
                RecordLine::Rows(session, count)
            } else {
                RecordLine::Bad
            }
        }
    }
}

/// The line of a return that shows a refusal: `text`, which comes after `ERROR`, begins with a number below 65,536,
/// and anything may follow. Else the line is bad.
fn error(session: SessionNo, text: &[u8]) -> RecordLine<'_>
    ensures { line_kept result ≡ error_said session (leading_number_of text.now) }
{
    match leading_number(text) {
        None => RecordLine::Bad,
        Some(number) => {
            // An error's number has 16 bits.
            if number < 65_536 {
                RecordLine::Happens(LineEvent::Return(session, Shown::Error(number as u16)))
            } else {
                RecordLine::Bad
            }
        }
    }
}

/// The line of a return, by the word after `<` and the text after that. It is bad if the word isn't `OK`, `NONE`,
/// `VALUE`, `ROWS` or `ERROR`, or if the text doesn't fit the word.
#[tactic(auto, unfolding(crate::specs::Lines::return_said))]
fn returned<'a>(session: SessionNo, word: &[u8], text: &'a [u8]) -> RecordLine<'a>
    ensures { line_kept result ≡ return_said session word.now text.now }
{
    if word == b"OK".as_slice() {
        alone(session, Shown::Ok, text)
    } else if word == b"NONE".as_slice() {
        alone(session, Shown::None, text)
    } else if word == b"VALUE".as_slice() {
        value(session, text)
    } else if word == b"ROWS".as_slice() {
        rows(session, text)
    } else if word == b"ERROR".as_slice() {
        error(session, text)
    } else {
        RecordLine::Bad
    }
}

/// The line of a return whose answer isn't known, if the word after `?` is `ERROR`; anything may follow. Else the line
/// is bad.
fn unknown(session: SessionNo, word: &[u8]) -> RecordLine<'_>
    ensures { line_kept result ≡ unknown_said session word.now }
{
    if word == b"ERROR".as_slice() {
        RecordLine::Happens(LineEvent::Unknown(session))
    } else {
        RecordLine::Bad
    }
}

/// The line of a client that is gone, if the word after `!` is `LOST` or `GONE`, and no text comes after it. Else the
/// line is bad.
#[tactic(auto, unfolding(crate::specs::Lines::loss_said))]
fn loss<'a>(session: SessionNo, word: &[u8], text: &'a [u8]) -> RecordLine<'a>
    ensures { line_kept result ≡ loss_said session word.now text.now }
{
    if !text.is_empty() {
        RecordLine::Bad
    } else if word == b"LOST".as_slice() {
        RecordLine::Happens(LineEvent::Lost(session))
    } else if word == b"GONE".as_slice() {
        RecordLine::Closed(session)
    } else {
        RecordLine::Bad
    }
}

/// What the line of a session says, by its sign and the text after that. With a sign other than `>`, `<`, `?` and `!`
/// the line is bad.
#[tactic(auto, unfolding(crate::specs::Lines::session_said))]
fn session_line<'a>(session: SessionNo, sign: &[u8], text: &'a [u8]) -> RecordLine<'a>
    ensures { line_kept result ≡ session_said session sign.now text.now }
{
    if sign == b">".as_slice() {
        // The text of a call isn't read here. An empty one is a call, too.
        RecordLine::Happens(LineEvent::Call(session, trimmed(text)))
    } else if sign == b"<".as_slice() {
        let (word, rest) = split_word(text);
        returned(session, word, skip_blanks(rest))
    } else if sign == b"?".as_slice() {
        unknown(session, split_word(text).0)
    } else if sign == b"!".as_slice() {
        let (word, rest) = split_word(text);
        loss(session, word, skip_blanks(rest))
    } else {
        RecordLine::Bad
    }
}

/// Reads a line of a record, without its line feed.
///
/// Takes no memory. Doesn't wait.
/// Own rule: docs/HISTORIES.md#records.
#[tactic(auto, unfolding(crate::specs::Lines::reading_of_line))]
pub fn read_record_line(line: &[u8]) -> RecordLine<'_>
    // Proved (records, line-read): What a line of a record says is what its definition says.
    ensures { line_kept result ≡ reading_of_line line.now }
{
    if is_silent(line) {
        return RecordLine::Nothing;
    }
    match read_line(line) {
        // This doesn't come: a blank line is silent.
        ScriptLine::Blank => RecordLine::Nothing,
        ScriptLine::Bad => RecordLine::Bad,
        ScriptLine::Given(session, text) => {
            let (sign, rest) = split_word(text);
            session_line(session, sign, skip_blanks(rest))
        }
    }
}
