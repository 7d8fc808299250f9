//! The words of a line.
ghost use Rattle.std.specs.Prelude.{◌≡◌, ◌∷◌};
ghost use Rattle.xa_lines.specs.{Script.first_word, Objects.{behind_first, begins_statement as begins, left_as}};

use crate::json_mark::Mark;
use crate::split_word;

/// Returns the word that a text begins with, and the text behind the blank after it: nothing if no blank comes. The
/// word is empty if the text is, or begins with a blank.
///
/// Takes no memory. Doesn't wait.
pub fn split_first(text: &[u8]) -> (&[u8], &[u8])
    ensures word { result.0.now ≡ first_word text.now }
    ensures rest { result.1.now ≡ behind_first text.now }
{
    let (word, rest) = split_word(text);
    match rest {
        [] => (word, rest),
        [_, more @ ..] => (word, more),
    }
}

/// Returns whether a text begins as a statement does, and not as a reply: with the first letter of `XA`, `GET`, `PUT`,
/// `DEL` or `DISCONNECT`.
///
/// Takes no memory. Doesn't wait.
pub fn begins_statement(text: &[u8]) -> bool
    ensures { result ≡ begins text.now }
{
    match text {
        [] => false,
        [first, ..] => *first == b'X' || *first == b'G' || *first == b'P' || *first == b'D',
    }
}

/// Returns what a part with this mark leaves of a text to the next parts: what comes after the first word and the blank
/// behind it, or nothing if the part stands for the rest.
///
/// Takes no memory. Doesn't wait.
pub fn left_behind(mark: Mark, text: &[u8]) -> &[u8]
    ensures { result.now ≡ left_as mark text.now }
{
    match mark {
        Mark::Word | Mark::Number | Mark::Any => split_first(text).1,
        Mark::Rest | Mark::Statement | Mark::Undecided => &[],
    }
}
