//! From an entry to its words.
ghost use Rattle.std.specs.Prelude.{◌≡◌};
ghost use Rattle.xa_words.specs.{Entry.IsEntry, Words.words_of};

use crate::Entry;
use crate::layout::{Parts, WORDS, text_words};

/// Returns the words of an entry: the session's number, the number of the statement's kind, the lengths of both texts
/// in bytes, the formatID, and eight words for each text.
///
/// Takes no memory. Doesn't wait.
/// Own rule: docs/INTERNALS.md#words-of-an-entry.
pub fn encode(entry: &Entry) -> [u64; WORDS]
    // Proved (log, one-spelling): A log entry has exactly one spelling in 21 words, and no other words are
    //   an entry.
    ensures words { result ≡ words_of entry.now }
    // Proved (log, one-spelling)
    ensures entry { IsEntry entry.now }
{
    let session = entry.session().get();
    let Parts {
        kind,
        format_id,
        first,
        second,
    } = Parts::of(entry.statement());
    let [a0, a1, a2, a3, a4, a5, a6, a7] = text_words(first);
    let [b0, b1, b2, b3, b4, b5, b6, b7] = text_words(second);
    [
        session,
        kind,
        first.len() as u64,
        second.len() as u64,
        format_id,
        a0,
        a1,
        a2,
        a3,
        a4,
        a5,
        a6,
        a7,
        b0,
        b1,
        b2,
        b3,
        b4,
        b5,
        b6,
        b7,
    ]
}
