//! From the words of an entry back to it.
ghost use Rattle.std.specs.Prelude.{◌≡◌, ◌<◌, ◌≤◌, ◌+◌, ◌*◌, ◌++◌, ℕ, List, length, slice_index, take, Some, IfSome};
ghost use Rattle.std.specs.{Prelude.{IfNone, IsTrue}, Int.{w64, to_be_bytes}};
ghost use Rattle.xa_xid.specs.{Limits.text_bytes, declared.statement.Statement.Statement};
ghost use Rattle.xa_words.specs.Entry.{Entry, IsText, IsEntry, KeepsLimits, may_be_entry};
ghost use Rattle.xa_words.specs.Words.{parts_of, of_xid, of_texts, text_words, words_of, byte_of, RowParts};

use crate::Entry;
use crate::layout::{MOST_BYTES, WORDS};
use xa_xid::{Bytes, Key, SessionNo, Statement, Xid};

/// Appends the first `count` bytes of a word to a text. A word's first byte is its highest.
fn push_bytes(text: &mut Bytes, word: u64, count: usize)
    requires count { count ≤ 8 }
    requires fits { length text.old.items + count ≤ text_bytes }
    ensures { text.new.items ≡ text.old.items ++ take count (to_be_bytes w64 word) }
{
    let bytes = word.to_be_bytes();
    // It fits, as the second clause requires.
    text.try_extend_from_slice(&bytes[..count]).unwrap();
}

/// Returns the bytes of the first `count` of eight words.
fn whole_words(words: &[u64], count: usize) -> Bytes
    requires length { length words.now ≡ 8 }
    requires fits { count ≤ 8 }
    ensures size { length result.items ≡ 8 * count }
    ensures bytes { (place : ℕ) → place < 8 * count → slice_index result.items place ≡ byte_of words.now place }
{
    let mut text = Bytes::new();
    for index in 0..count {
        push_bytes(&mut text, words[index], 8);
    }
    text
}

/// Returns the first `size` bytes, at most 64, of eight words.
fn bytes_of(words: &[u64], size: usize) -> Bytes
    requires length { length words.now ≡ 8 }
    requires fits { size ≤ text_bytes }
    ensures size { length result.items ≡ size }
    ensures bytes { (place : ℕ) → place < size → slice_index result.items place ≡ byte_of words.now place }
{
    let whole = size / 8;
    let mut text = whole_words(words, whole);
    // Of the last word only a part belongs to the text.
    if size % 8 > 0 {
        push_bytes(&mut text, words[whole], size % 8);
    }
    text
}

/// Returns the text of `size` bytes whose eight words these are. For words that no text has, it returns any
/// text, or `None`.
fn text_of(words: &[u64], size: u64) -> Option<Bytes>
    requires { length words.now ≡ 8 }
    ensures some { IfSome result (λ found. (text : List ℕ)
        → IsText text
        → length text ≡ size
        → text_words text ≡ words.now
        → found.items ≡ text) }
    ensures none { IfNone result ((text : List ℕ) → IsText text → length text ≡ size → text_words text ≡ words.now
        → ⊥) }
{
    // No text is so long.
    if size > MOST_BYTES {
        return None;
    }
    Some(bytes_of(words, size as usize))
}

/// Returns the statement of a kind with an identifier, or `None` if there is no such kind.
fn with_xid(kind: u64, xid: Xid) -> Option<Statement>
    requires { kind ≤ 6 }
    ensures some { IfSome result (λ statement. IsTrue (may_be_entry statement)
        × (parts_of statement ≡ of_xid kind xid)) }
    ensures none { IfNone result (kind ≡ 0) }
{
    match kind {
        1 => Some(Statement::Start(xid)),
        2 => Some(Statement::End(xid)),
        3 => Some(Statement::Prepare(xid)),
        4 => Some(Statement::Commit {
            xid,
            one_phase: false,
        }),
        5 => Some(Statement::Commit {
            xid,
            one_phase: true,
        }),
        6 => Some(Statement::Rollback(xid)),
        // Kind 0, since the kind is at most 6.
        _ => None,
    }
}

/// Returns the statement of a kind without an identifier, or `None` if there is no such kind or none of this
/// kind has these texts.
fn with_texts(kind: u64, first: Bytes, second: Bytes) -> Option<Statement>
    requires { 6 < kind }
    ensures some { IfSome result
        (λ statement. IsTrue (may_be_entry statement) × (parts_of statement ≡ of_texts kind first.items second.items)) }
    ensures none { IfNone result (RowParts (of_texts kind first.items second.items) → ⊥) }
{
    // `DISCONNECT` has no text.
    if kind == 10 {
        let empty = first.is_empty() && second.is_empty();
        return if empty {
            Some(Statement::Disconnect)
        } else {
            None
        };
    }
    // Kinds 7 to 9 have a key, which isn't empty.
    let key = Key::of(first)?;
    // Of the three only `PUT`, which is 8, has a value.
    match kind {
        7 if second.is_empty() => Some(Statement::Get(key)),
        8 => Some(Statement::Put(key, second)),
        9 if second.is_empty() => Some(Statement::Del(key)),
        // A `GET` or `DEL` with a value, or a kind above 10.
        _ => None,
    }
}

/// Returns the statement of these parts, or `None` if no statement that can be logged has them.
fn statement_of(kind: u64, format_id: u64, first: Bytes, second: Bytes) -> Option<Statement>
    ensures some { IfSome result
        (λ statement. IsTrue (may_be_entry statement)
        × (parts_of statement
        ≡ record { kind = kind; format_id = format_id; first = first.items; second = second.items })) }
    ensures none { IfNone result
        ((statement : Statement)
        → IsTrue (may_be_entry statement)
        → KeepsLimits statement
        → parts_of statement ≡ record { kind = kind; format_id = format_id; first = first.items; second = second.items }
        → ⊥) }
{
    // Kinds 1 to 6 have an identifier; of all others the formatID is 0. Of kind 0 `with_xid` returns no statement.
    if kind <= 6 {
        let xid = Xid {
            format_id,
            gtrid: first,
            bqual: second,
        };
        with_xid(kind, xid)
    } else if format_id == 0 {
        with_texts(kind, first, second)
    } else {
        None
    }
}

/// Returns the entry whose words these are. For words that no entry has, it returns any entry, or `None`:
/// `decode` is for words that may be anything.
///
/// Takes no memory. Doesn't wait.
/// Own rule: docs/INTERNALS.md#words-of-an-entry.
pub fn read_back(words: &[u64; WORDS]) -> Option<Entry>
    // Proved (log, one-spelling)
    ensures { (entry : Entry) → IsEntry entry → words.now ≡ words_of entry → result ≡ Some entry }
{
    // Words 0 to 4 are the session, the kind, the lengths of both texts and the formatID. Each text has eight words.
    let session = SessionNo::of(words[0])?;
    let first = text_of(&words[5..13], words[2])?;
    let second = text_of(&words[13..21], words[3])?;
    let statement = statement_of(words[1], words[4], first, second)?;
    Some(Entry::entering(session, statement))
}
