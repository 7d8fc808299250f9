//! The layout of an entry's words.
ghost use Rattle.std.specs.Prelude.{◌≡◌, ◌<◌, ℕ, length, slice_index, IsTrue};
ghost use Rattle.xa_words.specs.{Entry.Entry, Words.{parts_of, text_word, text_words, words_of}};

use xa_xid::{Key, Statement, Xid};

/// The number of words of an entry: session, kind, two lengths, formatID, and two texts of 64 bytes, 8 in a word.
pub const WORDS: usize = 21;

/// The greatest length of a text, in bytes: what X/Open C193 allows a gtrid or bqual. Keys and values have the same.
pub(crate) const MOST_BYTES: u64 = 64;

/// The parts of a statement that the words hold: the number of its kind, its formatID and its two texts.
pub(crate) struct Parts<'a> {
    /// The number of the statement's kind: 1 to 10, or 0 of a statement that can't be logged.
    pub(crate) kind: u64,
    /// The formatID of an identifier, else 0.
    pub(crate) format_id: u64,
    /// The gtrid or the key, else nothing.
    pub(crate) first: &'a [u8],
    /// The bqual or the value, else nothing.
    pub(crate) second: &'a [u8],
}

impl<'a> Parts<'a> {
    /// The parts of a statement about a branch: `kind` is the number of the statement's kind.
    fn of_xid(kind: u64, xid: &'a Xid) -> Parts<'a>
        ensures { (result.kind ≡ kind)
            × (result.format_id ≡ xid.now.format_id)
            × (result.first.now ≡ xid.now.gtrid.items)
            × (result.second.now ≡ xid.now.bqual.items) }
    {
        Parts {
            kind,
            format_id: xid.format_id,
            first: xid.gtrid.as_slice(),
            second: xid.bqual.as_slice(),
        }
    }

    /// The parts of a statement about a row, or of one without texts. A text that it doesn't have is empty.
    fn of_texts(kind: u64, key: &'a [u8], value: &'a [u8]) -> Parts<'a>
        ensures { (result.kind ≡ kind) × (result.format_id ≡ 0) × (result.first.now ≡ key.now)
            × (result.second.now ≡ value.now) }
    {
        Parts {
            kind,
            format_id: 0,
            first: key,
            second: value,
        }
    }

    /// Returns the parts of a statement, with the kinds of docs/INTERNALS.md#words-of-an-entry. The kind is 0 if the
    /// statement can't be logged.
    pub(crate) fn of(statement: &'a Statement) -> Parts<'a>
        ensures kind { result.kind ≡ (parts_of statement.now).kind }
        ensures format_id { result.format_id ≡ (parts_of statement.now).format_id }
        ensures first { result.first.now ≡ (parts_of statement.now).first }
        ensures second { result.second.now ≡ (parts_of statement.now).second }
    {
        match statement {
            Statement::Start(xid) => Self::of_xid(1, xid),
            Statement::End(xid) => Self::of_xid(2, xid),
            Statement::Prepare(xid) => Self::of_xid(3, xid),
            Statement::Commit { xid, one_phase } => {
                Self::of_xid(if *one_phase { 5 } else { 4 }, xid)
            }
            Statement::Rollback(xid) => Self::of_xid(6, xid),
            Statement::Get(key) => Self::of_texts(7, key.as_slice(), &[]),
            Statement::Put(key, value) => Self::of_texts(8, key.as_slice(), value.as_slice()),
            Statement::Del(key) => Self::of_texts(9, key.as_slice(), &[]),
            Statement::Disconnect => Self::of_texts(10, &[], &[]),
            Statement::Recover { .. } | Statement::Unsupported => Self::of_texts(0, &[], &[]),
        }
    }
}

/// Returns the byte at the index `place` of a text, or 0 past the text's end.
fn byte_or_zero(text: &[u8], place: usize) -> u8
    ensures { result ≡ slice_index text.now place }
{
    if place < text.len() { text[place] } else { 0 }
}

/// Returns the eight bytes of a text from the index `place` on as one number: the first byte is the highest, and zeros
/// stand past the text's end. Most texts are short, so most of their words are past the end.
fn text_word(text: &[u8], place: usize) -> u64
    requires { place < 64 }
    ensures { result ≡ text_word text.now place }
{
    if text.len() <= place {
        return 0;
    }
    // The text ends within this word: zeros stand after its last bytes.
    if text.len() - place < 8 {
        return last_word(text, place);
    }
    u64::from_be_bytes([
        text[place],
        text[place + 1],
        text[place + 2],
        text[place + 3],
        text[place + 4],
        text[place + 5],
        text[place + 6],
        text[place + 7],
    ])
}

/// Returns the same as `text_word`, byte by byte, for a text that may end among the eight bytes.
fn last_word(text: &[u8], place: usize) -> u64
    requires { place < 64 }
    ensures { result ≡ text_word text.now place }
{
    u64::from_be_bytes([
        byte_or_zero(text, place),
        byte_or_zero(text, place + 1),
        byte_or_zero(text, place + 2),
        byte_or_zero(text, place + 3),
        byte_or_zero(text, place + 4),
        byte_or_zero(text, place + 5),
        byte_or_zero(text, place + 6),
        byte_or_zero(text, place + 7),
    ])
}

/// Returns a text of at most 64 bytes as eight words of eight bytes each, with zeros past its end. Most texts have at
/// most eight bytes.
pub(crate) fn text_words(text: &[u8]) -> [u64; 8]
    ensures { result ≡ text_words text.now }
{
    if text.len() <= 8 {
        return [text_word(text, 0), 0, 0, 0, 0, 0, 0, 0];
    }
    [
        text_word(text, 0),
        text_word(text, 8),
        text_word(text, 16),
        text_word(text, 24),
        text_word(text, 32),
        text_word(text, 40),
        text_word(text, 48),
        text_word(text, 56),
    ]
}

/// Returns whether the word at `index` of an entry lies after the end of its text, and so is 0.
///
/// `index` is in `[0, 20]`. The words before it give the length of the text. Takes no memory. Doesn't wait.
/// Own rule: docs/INTERNALS.md#words-of-an-entry.
pub fn is_behind_text(words: &[u64; WORDS], index: usize) -> bool
    requires { index < 21 }
    ensures behind { IsTrue result → 4 < index }
    // Proved (log, zeros-after-texts): A word that `is_behind_text` reports as after the end of its text is
    //   0 in every entry that begins with the words before it.
    ensures zero { IsTrue result
        → (entry : Entry)
        → ((place : ℕ) → place < index → slice_index words.now place ≡ slice_index (words_of entry) place)
        → slice_index (words_of entry) index ≡ 0 }
{
    // The first five words are numbers, not texts.
    if index < 5 {
        return false;
    }
    // Words 5 to 12 are the first text's, 13 to 20 the second's. Words 2 and 3 have their lengths in bytes, of which
    // each word holds 8.
    if index < 13 {
        words[2] <= 8 * (index as u64 - 5)
    } else {
        words[3] <= 8 * (index as u64 - 13)
    }
}
