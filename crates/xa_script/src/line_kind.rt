//! The kind of lines that a job reads, and why a line isn't one of its kind.
ghost use Rattle.std.specs.Prelude.{◌≡◌, is_some};
ghost use Rattle.xa_statement.specs.Reading.{read_of};
ghost use Rattle.xa_lines.specs.Script.{line_of};
ghost use Rattle.xa_record.specs.Lines.{is_no_row};
ghost use Rattle.xa_manager.specs.{Calls.call_of, Scripts.taken};
ghost use Rattle.xa_script.specs.Unread.{goes_wrong, is_faulty, divides_script, is_no_call, given_by, is_no_record};
ghost use Rattle.xa_script.specs.Unread.{is_no_call_of_record, is_unread_by, kind_after, kind_of_first};

use crate::line_fault::LineFault;
use xa_lines::{ScriptLine, is_comment, number_in, read_line, split_word};
use xa_manager::{Call, read_call};
use xa_record::{row_wanted_in, wanted_in};
use xa_statement::read_statement;
use xa_xid::skip_blanks;

/// The kind of lines that a job reads.
#[derive(Clone, Copy, Debug, PartialEq, Eq)]
pub enum LineKind {
    /// Statements of sessions.
    Statement,
    /// Statements of sessions, and comments.
    Shown,
    /// Statements of sessions, and comments if the first line that isn't blank is one.
    Raced,
    /// Statements of sessions, comments, and the words that divide a script.
    Explored,
    /// Calls of a transaction manager, and comments.
    Call,
    /// The calls that `stops` takes, and comments.
    Stopped,
    /// Lines of a record of what clients saw, and comments.
    Record,
}

/// Why a text isn't a statement; None if it is one.
fn statement_fault(text: &[u8]) -> Option<LineFault<'_>>
    ensures { is_some result ≡ goes_wrong (read_of text.now) }
{
    match read_statement(text) {
        Ok(_) => None,
        Err(fault) => Some(LineFault::NoStatement(text, fault.at)),
    }
}

/// Why a line isn't one of a script; None if it is one, or is blank.
fn script_fault(line: &[u8]) -> Option<LineFault<'_>>
    ensures { is_some result ≡ is_faulty (line_of line.now) }
{
    match read_line(line) {
        ScriptLine::Blank => None,
        ScriptLine::Bad => Some(LineFault::NoSession),
        ScriptLine::Given(_, text) => statement_fault(text),
    }
}

/// Returns whether a line is one of the words that divide a script for exploring.
fn parts(line: &[u8]) -> bool
    ensures { result ≡ divides_script line.now }
{
    let (word, rest) = split_word(skip_blanks(line));
    let is_word = word == b"BESIDE".as_slice() || word == b"AFTER".as_slice();
    is_word && skip_blanks(rest).is_empty()
}

/// Returns the text after this many words and the blanks behind them.
fn behind(line: &[u8], words: usize) -> &[u8] {
    let mut rest = skip_blanks(line);
    for _word in 0..words {
        rest = skip_blanks(split_word(rest).1);
    }
    rest
}

/// Returns whether the word after this many words is a number.
fn has_number(line: &[u8], words: usize) -> bool {
    number_in(split_word(behind(line, words)).0).is_some()
}

/// Why a line that isn't read as a call isn't one. If it is a `WORK` or an `AT` up to its statement, that is the
/// statement's fault, or `NoWork` if `WORK` doesn't take the statement; else it is `NoCall`.
fn call_fault(line: &[u8]) -> LineFault<'_> {
    let (word, _) = split_word(skip_blanks(line));
    let works = word == b"WORK".as_slice() && has_number(line, 1) && has_number(line, 2);
    let asks = word == b"AT".as_slice() && has_number(line, 1);
    // With these first words the line was to give a statement, so that is what may be wrong. One that is read isn't
    // for WORK.
    if works {
        statement_fault(behind(line, 3)).unwrap_or(LineFault::NoWork)
    } else if asks {
        // `AT` takes every statement, so such a line is read, and the default isn't taken.
        statement_fault(behind(line, 2)).unwrap_or(LineFault::NoCall)
    } else {
        LineFault::NoCall
    }
}

/// Returns why a line isn't one that `stops` takes; None if it is one, is blank or is a comment.
fn stopped_fault(line: &[u8]) -> Option<LineFault<'_>>
    ensures { is_some result ≡ is_no_call (taken (call_of line.now)) }
{
    match read_call(line) {
        Call::Unread(_) => match call_fault(line) {
            // `stops` takes fewer calls, and what is said of the fault names just these.
            LineFault::NoCall => Some(LineFault::NoStopped),
            fault => Some(fault),
        },
        Call::Fail { .. } | Call::Stop | Call::Recover | Call::Show => Some(LineFault::NoStopped),
        _ => None,
    }
}

/// Returns what comes after the session of a line, and nothing if it names none.
fn given_in(line: &[u8]) -> &[u8]
    ensures { result.now ≡ given_by (line_of line.now) }
{
    match read_line(line) {
        ScriptLine::Blank => &[],
        ScriptLine::Bad => &[],
        ScriptLine::Given(_, text) => text,
    }
}

/// Returns how many of the next lines are rows, as a line of a record says: n if it is a return of `ROWS n`, else 0.
pub fn rows_behind(line: &[u8]) -> u64 {
    // No rows follow a line that isn't read.
    if wanted_in(line).is_some() {
        return 0;
    }
    let (sign, rest) = split_word(given_in(line));
    let (word, count) = split_word(skip_blanks(rest));
    if sign == b"<".as_slice() && word == b"ROWS".as_slice() {
        // The line is one of a record, so this is a number, and the default isn't taken.
        number_in(split_word(skip_blanks(count)).0).unwrap_or(0)
    } else {
        0
    }
}

/// Returns why a line in the place of a row of a return isn't one; None if it is one, is blank or is a comment.
///
/// The line is without its line feed. Takes no memory. Doesn't wait.
pub fn row_fault(line: &[u8]) -> Option<LineFault<'_>>
    ensures { is_some result ≡ is_no_row line.now }
{
    match row_wanted_in(line) {
        Some(wanted) => Some(LineFault::NoRecord(wanted)),
        None => None,
    }
}

/// Why the text of a call in a record isn't a statement. `text` is what comes after the line's session. None if it is
/// no call, or the call of a statement.
fn recorded_call_fault(text: &[u8]) -> Option<LineFault<'_>>
    ensures { is_some result ≡ is_no_call_of_record text.now }
{
    let (sign, rest) = split_word(text);
    if sign == b">".as_slice() {
        statement_fault(skip_blanks(rest))
    } else {
        None
    }
}

/// Why a line isn't one of a record, or if it is a call, why its text isn't a statement; else None.
fn record_fault(line: &[u8]) -> Option<LineFault<'_>>
    ensures { is_some result ≡ is_no_record line.now }
{
    match wanted_in(line) {
        Some(gap) => Some(LineFault::NoRecord(gap)),
        None => recorded_call_fault(given_in(line)),
    }
}

/// Returns the kind of the lines of a script that is raced, if no line but blank ones comes before this one: `Shown`,
/// with comments, if this line is a comment, else `Statement`. A blank line doesn't settle it: the kind stays `Raced`.
fn raced_by(line: &[u8]) -> LineKind
    ensures { result ≡ kind_of_first line.now }
{
    if skip_blanks(line).is_empty() {
        LineKind::Raced
    } else if is_comment(line) {
        LineKind::Shown
    } else {
        LineKind::Statement
    }
}

impl LineKind {
    /// Returns the kind that this line is of, and those after it until one of them changes it. Only the kind of a
    /// script that is raced ever changes, once, by its first line that isn't blank.
    ///
    /// The line is without its line feed. Takes no memory. Doesn't wait.
    pub fn settled_by(self, line: &[u8]) -> LineKind
        // Proved (scripts, unread-lines)
        ensures { result ≡ kind_after self line.now }
    {
        match self {
            LineKind::Raced => raced_by(line),
            _ => self,
        }
    }

    /// Returns why a line isn't one of this kind; None if it is, wherever it stands and however long it is. So a second
    /// `BESIDE` or `AFTER` has no fault here, though the job refuses it.
    ///
    /// The line is without its line feed. Takes no memory. Doesn't wait.
    pub fn fault_in(self, line: &[u8]) -> Option<LineFault<'_>>
        // Proved (scripts, unread-lines): `--strict` and `--verbose` look at each line by itself. It is at fault if it
        //   is bad, if its text isn't a statement, or if it isn't a call or not one for the job. A blank line, a
        //   comment where there are comments, and a word that divides a script to explore never is, wherever it stands.
        ensures { is_some result ≡ is_unread_by self line.now }
    {
        // Where lines are statements alone, a comment is faulty. Of calls `read_call` takes comments as silent itself.
        let silent = skip_blanks(line).is_empty() || is_comment(line);
        match self {
            // The first line that isn't blank settles the kind of a raced script before it is looked at, so the lines
            // that still are `Raced` are blank.
            LineKind::Statement | LineKind::Raced => script_fault(line),
            LineKind::Shown => { if silent { None } else { script_fault(line) } }
            LineKind::Explored => {
                if silent || parts(line) {
                    None
                } else {
                    script_fault(line)
                }
            }
            LineKind::Call => match read_call(line) {
                Call::Unread(_) => Some(call_fault(line)),
                _ => None,
            },
            LineKind::Stopped => stopped_fault(line),
            LineKind::Record => { if silent { None } else { record_fault(line) } }
        }
    }
}
