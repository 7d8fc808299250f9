//! The lines of a script, and what each means.
ghost use Rattle.std.specs.Prelude.{◌≡◌, ◌≤◌, ◌<◌, ◌∷◌, ◌==◌, not, length, IsTrue, MatchOption, None, Some};
ghost use Rattle.std.specs.List.{prefix_len};
ghost use Rattle.xa_lines.specs.Script.{is_no_blank, first_word, after_word, session_named, line_of, lines_of};
ghost use Rattle.xa_lines.specs.Script.{line_seen, is_comment_line, number_of_word};

use xa_xid::{ByteClass, SessionNo, number_of, skip_blanks};

/// Returns how many bytes come before the first line feed: all of them if there is none.
pub fn line_length(text: &[u8]) -> usize
    ensures length { result ≡ prefix_len (λ byte. not (byte == 10)) text.now }
    ensures within { result ≤ length text.now }
{
    text.iter()
        .position(|byte| *byte == b'\n')
        .unwrap_or(text.len())
}

/// Returns how many bytes come before the first blank: all of them if there is none.
fn word_length(text: &[u8]) -> usize
    ensures length { result ≡ prefix_len is_no_blank text.now }
    ensures within { result ≤ length text.now }
{
    text.iter()
        .position(|byte| ByteClass::Blank.has(*byte))
        .unwrap_or(text.len())
}

/// The session that the word names: a number from 1 to 16, without leading zeros. Else None.
fn session_of(word: &[u8]) -> Option<SessionNo>
    ensures { result ≡ session_named word.now }
{
    match word {
        [one @ b'1'..=b'9'] => SessionNo::of(u64::from(*one - b'0')),
        [b'1', one @ b'0'..=b'6'] => SessionNo::of(10 + u64::from(*one - b'0')),
        _ => None,
    }
}

/// What a line of a script means.
///
/// Own rule: docs/COMMANDS.md#scripts.
pub enum ScriptLine<'a> {
    /// It has only blanks, and no answer.
    Blank,
    /// Its first word isn't the number of a session.
    Bad,
    /// The session, and the text after its number and the blanks behind that. The text may be empty, or no statement.
    Given(SessionNo, &'a [u8]),
}

/// Returns the first line, without its line feed, and the text after that. Without a line feed all of the text is the
/// line, and nothing comes after it.
///
/// The text has at least one byte.
/// Takes no memory. Doesn't wait.
/// Own rule: docs/COMMANDS.md#scripts.
pub fn split_line(text: &[u8]) -> (&[u8], &[u8])
    requires { 0 < length text.now }
    ensures lines { lines_of text.now ≡ result.0.now ∷ lines_of result.1.now }
    ensures shorter { length result.1.now < length text.now }
{
    let (line, rest) = text.split_at(line_length(text));
    match rest {
        [] => (line, rest),
        [_, lines @ ..] => (line, lines),
    }
}

/// Returns the text up to its first blank, and the text from there on: all of it, and nothing, if it has no blank.
///
/// Takes no memory. Doesn't wait.
/// Own rule: docs/COMMANDS.md#scripts.
pub fn split_word(text: &[u8]) -> (&[u8], &[u8])
    ensures word { result.0.now ≡ first_word text.now }
    ensures rest { result.1.now ≡ after_word text.now }
{
    text.split_at(word_length(text))
}

/// Returns whether the line is a comment: its first byte that isn't a blank is `#`.
///
/// The line is without its line feed. Takes no memory. Doesn't wait.
/// Own rule: docs/COMMANDS.md#scripts.
pub fn is_comment(line: &[u8]) -> bool
    ensures { result ≡ is_comment_line line.now }
{
    match skip_blanks(line) {
        [] => false,
        [first, ..] => *first == b'#',
    }
}

/// Returns the number that the word is: decimal digits, in `[0, 2^64 - 1]`, without a sign and without
/// leading zeros.
///
/// Returns `None` for any other word. Takes no memory. Doesn't wait.
/// Own rule: docs/COMMANDS.md#scripts.
#[tactic(auto, unfolding(crate::specs::Script::number_of_word))]
pub fn number_in(word: &[u8]) -> Option<u64>
    ensures { result ≡ number_of_word word.now }
{
    match word {
        [] => return None,
        // A leading zero; or `0x`, after which `number_of` would read hexadecimal digits.
        [b'0', _, ..] => return None,
        _ => {}
    }
    match number_of(word) {
        Ok((number, [])) => Some(number),
        // No number, one above 2^64 - 1, or one with something behind it.
        _ => None,
    }
}

/// Reads a line of a script, without its line feed. Its first word, up to a blank, names the session.
///
/// Takes no memory. Doesn't wait.
/// Own rule: docs/COMMANDS.md#scripts.
pub fn read_line(line: &[u8]) -> ScriptLine<'_>
    // Proved (scripts, lines-are-read): A line is read as the definition says: as blank, as bad, or as a
    //   session and the text of its statement.
    ensures { line_seen result ≡ line_of line.now }
{
    let text = skip_blanks(line);
    if text.is_empty() {
        return ScriptLine::Blank;
    }
    let (word, rest) = split_word(text);
    match session_of(word) {
        None => ScriptLine::Bad,
        Some(session) => ScriptLine::Given(session, skip_blanks(rest)),
    }
}
