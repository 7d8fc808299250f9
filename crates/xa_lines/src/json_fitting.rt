//! Which lines a form fits.
ghost use Rattle.std.specs.Prelude.{◌≡◌, length};
ghost use Rattle.xa_lines.specs.Objects.{part_fits_as, fits as fits_line};

use crate::json_mark::{Mark, mark_of};
use crate::json_numbers::number_said;
use crate::json_words::{begins_statement, left_behind, split_first};
use crate::split_line;

/// Returns whether a part with this mark fits what a text begins with. A word of the form, which is `part`, fits if it
/// is the text's first word. A part for a number fits if the first word is one. A part for any word, or for the rest,
/// fits every text, even an empty one. A part for a statement, or for `UNDECIDED`, is tried on the whole text.
fn part_fits(mark: Mark, part: &[u8], text: &[u8]) -> bool
    ensures { result ≡ part_fits_as mark part.now text.now }
{
    match mark {
        Mark::Word => split_first(text).0 == part,
        Mark::Number => number_said(split_first(text).0).is_some(),
        Mark::Any | Mark::Rest => true,
        Mark::Statement => begins_statement(text),
        Mark::Undecided => text == b"UNDECIDED".as_slice(),
    }
}

/// Returns whether a form fits a line: each part in turn fits what the line goes on with, and nothing is left behind
/// the last one.
///
/// Takes no memory. Doesn't wait.
pub fn fits(form: &[u8], line: &[u8]) -> bool
    ensures { result ≡ fits_line form.now line.now }
{
    let mut parts = form;
    let mut text = line;
    while !parts.is_empty() {
        let (part, more) = split_line(parts);
        let mark = mark_of(part);
        if !part_fits(mark, part, text) {
            return false;
        }
        text = left_behind(mark, text);
        parts = more;
    }
    text.is_empty()
}
