//! The form of the lines that a job writes.
ghost use Rattle.std.specs.{Prelude.{◌≡◌, ◌≤◌, MatchOption, true, false, nat_eq, codes, drop}, List.starts_with};
ghost use Rattle.xa_statement.specs.Reading.{read_of};
ghost use Rattle.xa_lines.specs.Script.{line_of};
ghost use Rattle.xa_script.specs.TextLines.{behind_first as after_first, first_number as number_first};
ghost use Rattle.xa_script.specs.TextLines.{could_be as is_answer, was_seen, is_called, is_of_job, rows_in_verdict};
ghost use Rattle.xa_script.specs.TextLines.{has_form, is_given, is_own, rows_of as rows_said};
ghost use Rattle.xa_script.specs.TextLines.{past_number as after_number, rows_after, keeps_line};
ghost use Rattle.xa_script.specs.TextLines.{is_whole_row as is_row_whole};

use xa_lines::{ScriptLine, is_comment, number_in, read_line, split_word};
use xa_statement::read_statement;
use xa_xid::{Statement, skip_blanks};

/// The form of the lines that a job writes.
#[derive(Clone, Copy, Debug, PartialEq, Eq)]
pub enum LineForm {
    /// Answers; also a history, outcomes, stops or an audit.
    Answers,
    /// Answers, and the store after each.
    Shown,
    /// A verdict, and what comes below it, such as an order, answers or a store.
    Verdict,
    /// Test points, and a verdict in the comments below each.
    Noted,
}

/// Returns what comes after the first word and one more byte; nothing if no byte comes after that word.
fn behind_first(text: &[u8]) -> &[u8]
    ensures { result.now ≡ after_first text.now }
{
    match split_word(text).1 {
        [] => &[],
        [_, rest @ ..] => rest,
    }
}

/// Returns the number that the first word is; None if it is no number.
fn first_number(text: &[u8]) -> Option<u64>
    ensures { result ≡ number_first text.now }
{
    number_in(split_word(text).0)
}

/// Returns what comes after `COULD BE ` in a line of a verdict; None if the line doesn't begin so.
fn could_be(line: &[u8]) -> Option<&[u8]>
    ensures { MatchOption result (is_answer line.now ≡ false)
        (λ reply. (is_answer line.now ≡ true) × (reply.now ≡ drop 9 line.now)) }
{
    line.strip_prefix(b"COULD BE ")
}

/// Returns what comes after `SEEN ` in a line of a verdict; None if the line doesn't begin so.
fn seen_in(line: &[u8]) -> Option<&[u8]>
    ensures { MatchOption result (was_seen line.now ≡ false)
        (λ seen. (was_seen line.now ≡ true) × (seen.now ≡ drop 5 line.now)) }
{
    line.strip_prefix(b"SEEN ")
}

/// Returns whether the text is a statement with a canonical form, in which a verdict then writes it.
fn is_statement(text: &[u8]) -> bool
    ensures { result ≡ has_form (read_of text.now) }
{
    match read_statement(text) {
        Ok(Statement::Unsupported) => false,
        Ok(_) => true,
        Err(_) => false,
    }
}

/// Whether a line of a verdict is a session's statement that has a canonical form, in which the verdict then has it.
fn has_statement(line: &[u8]) -> bool
    ensures { result ≡ is_given (line_of line.now) }
{
    match read_line(line) {
        ScriptLine::Given(_, text) => is_statement(text),
        ScriptLine::Blank | ScriptLine::Bad => false,
    }
}

/// Whether a line of a verdict is the call of what was seen, and its statement has a canonical form, in which the
/// verdict then has it.
fn has_call(line: &[u8]) -> bool
    ensures { result ≡ is_called line.now }
{
    match line.strip_prefix(b"CALL line ") {
        // The line's number, the session and the sign come before the statement.
        Some(rest) => is_statement(behind_first(past_number(past_number(rest)))),
        None => false,
    }
}

/// Whether a line of a verdict shows a branch or a row of the store.
fn is_of_store(line: &[u8]) -> bool
    ensures { result ≡ starts_with nat_eq line.now (codes "  ") }
{
    line.starts_with(b"  ")
}

/// Whether a line of a verdict is an answer that could have been, what was seen, or of the store.
fn is_of_job_itself(line: &[u8]) -> bool
    ensures { result ≡ is_of_job line.now }
{
    could_be(line).is_some() || seen_in(line).is_some() || is_of_store(line)
}

/// Whether a line of a verdict is a client's own: no part of it is written by the job in literals.
fn is_said(line: &[u8]) -> bool
    ensures { result ≡ is_own line.now }
{
    !is_of_job_itself(line) && !has_call(line) && !has_statement(line)
}

/// Returns how many of the next lines are rows, as a reply says: n if it is `ROWS n`, and 0 for any other reply.
fn rows_of(reply: &[u8]) -> u64
    ensures { result ≡ rows_said reply.now }
{
    match reply.strip_prefix(b"ROWS ") {
        Some(count) => number_in(count).unwrap_or(0),
        None => 0,
    }
}

/// Returns what comes after the first word and one more byte, if that word is a number, and else the whole text.
fn past_number(text: &[u8]) -> &[u8]
    ensures { result.now ≡ after_number text.now }
{
    if first_number(text).is_some() {
        behind_first(text)
    } else {
        text
    }
}

/// Returns the reply of an answer: what comes after its session and its place.
fn reply_in(line: &[u8]) -> &[u8]
    ensures { result.now ≡ after_number (after_number line.now) }
{
    // Not every answer has a place. An answer of `coordinate`, and a comment, has no session either.
    past_number(past_number(line))
}

/// Returns how many of the next lines are rows, as the reply in this line of a verdict says. Only lines that begin with
/// `COULD BE ` or `SEEN ` have a reply; for any other line it is 0.
fn rows_of_verdict(line: &[u8]) -> u64
    ensures { result ≡ rows_in_verdict line.now }
{
    match could_be(line) {
        Some(reply) => rows_of(reply),
        None => match seen_in(line) {
            // The session and the sign come before the reply.
            Some(seen) => rows_of(behind_first(past_number(seen))),
            None => 0,
        },
    }
}

impl LineForm {
    /// Returns whether a line is written as it is: each line of TAP that isn't of a verdict, a comment among shown
    /// stores, and a client's own text in a verdict.
    ///
    /// The line is without its line feed. Takes no memory. Doesn't wait.
    pub fn keeps(self, line: &[u8]) -> bool
        // Proved (scripts, text-kept-lines): `--text` leaves just these lines as they are: every line of TAP that isn't
        //   of a verdict, every comment among shown stores, and a client's own text in a verdict.
        ensures { result ≡ keeps_line self line.now }
    {
        match self {
            LineForm::Answers => false,
            LineForm::Shown => is_comment(line),
            LineForm::Verdict => is_said(line),
            // The lines behind `# ` are of a verdict. Any other is a test point, or comes before the first.
            LineForm::Noted => match line.strip_prefix(b"# ") {
                Some(line) => is_said(line),
                None => true,
            },
        }
    }

    /// Returns how many of the next lines are rows, as this line says; 0 if it says nothing of rows.
    ///
    /// The line is without its line feed. Takes no memory. Doesn't wait.
    pub fn rows_behind(self, line: &[u8]) -> u64
        // Proved (scripts, text-rows): With `--text` the next lines are taken for rows only if a reply says so, and
        //   for as many as it says.
        ensures { result ≡ rows_after self line.now }
    {
        match self {
            LineForm::Answers | LineForm::Shown => rows_of(reply_in(line)),
            LineForm::Verdict => rows_of_verdict(line),
            // In TAP a row is a line behind `# `, and `keeps` leaves each as it is.
            LineForm::Noted => 0,
        }
    }
}

/// Returns whether a row is whole when a line feed comes next: behind its first three words it has at least as many
/// bytes as gtrid and bqual together, whose lengths are the second and third word. A row in digits has two for each
/// byte, and no line feed, so it is whole at the first. True also if one of the two words is no number.
///
/// Takes no memory. Doesn't wait.
pub fn is_whole_row(row: &[u8]) -> bool
    ensures { result ≡ is_row_whole row.now }
{
    let lengths = behind_first(row);
    let second = behind_first(lengths);
    let data = behind_first(second);
    match (first_number(lengths), first_number(second)) {
        // The words may be any numbers, so their sum could overflow. No data reaches such a sum.
        (Some(gtrid), Some(bqual)) => data.len() as u64 >= gtrid.saturating_add(bqual),
        // Without two lengths the bytes are no row, and any line feed ends them.
        _ => true,
    }
}
