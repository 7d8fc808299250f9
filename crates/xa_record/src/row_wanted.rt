//! What has to come in a line that isn't a row, where a row has to be.
ghost use Rattle.std.specs.Prelude.{◌≡◌, is_some};
ghost use Rattle.xa_record.specs.Lines.{is_no_row};

use crate::line::is_silent;
use crate::line_wanted::{LineGap, LineWanted, gap, wanted_in};
use crate::rows::{behind_word, read_row};
use xa_lines::{number_in, split_word};
use xa_xid::skip_blanks;

/// Whether the first word of a text is the length of a gtrid or a bqual: a number from 0 to 64.
fn begins_with_length(text: &[u8]) -> bool {
    number_in(split_word(text).0).is_some_and(|length| length <= 64)
}

/// What has to come at `digits`, the end of the row `text` from its digits on, or behind them if they are right. The
/// three numbers before them are right.
fn gap_at_digits(text: &[u8], digits: &[u8]) -> LineGap {
    // If the text up to the end of the digits is a row, what comes behind is too much. `behind` is an end of `text`, so
    // it isn't longer.
    let behind = split_word(digits).1;
    let (row, _) = text.split_at(text.len().saturating_sub(behind.len()));
    match read_row(row) {
        Some(_) => gap(LineWanted::End, text, skip_blanks(behind)),
        None => gap(LineWanted::Digits, text, digits),
    }
}

/// What has to come in `text`, which stands in the place of a row and isn't one. It doesn't begin with a blank.
fn gap_in_row(text: &[u8]) -> LineGap {
    // Where a whole line of a record comes, rows were left out or counted wrong. A row begins with a number, so a text
    // without one is no begun row.
    if wanted_in(text).is_none() || number_in(split_word(text).0).is_none() {
        return gap(LineWanted::Row, text, text);
    }
    let gtrid = behind_word(text);
    if !begins_with_length(gtrid) {
        return gap(LineWanted::Length, text, gtrid);
    }
    let bqual = behind_word(gtrid);
    if !begins_with_length(bqual) {
        return gap(LineWanted::Length, text, bqual);
    }
    gap_at_digits(text, behind_word(bqual))
}

/// Returns what has to come in a line in the place of a row of a return, without its line feed, if it isn't one. None
/// if it is a row, or if it is blank or a comment: such lines may come between rows.
///
/// Takes no memory. Doesn't wait.
/// Own rule: docs/COMMANDS.md#messages.
pub fn row_wanted_in(line: &[u8]) -> Option<LineGap>
    // Proved (records, row-wanted): Something is wanted in a line in the place of a row exactly if it isn't read as a
    //   row, and isn't blank or a comment.
    ensures { is_some result ≡ is_no_row line.now }
{
    if is_silent(line) {
        return None;
    }
    let text = skip_blanks(line);
    match read_row(text) {
        Some(_) => None,
        None => Some(gap_in_row(text)),
    }
}
