//! From any words to an entry, if they are one.
ghost use Rattle.std.specs.Prelude.{◌≡◌, Some, IfSome};
ghost use Rattle.xa_words.specs.{Entry.{Entry, IsEntry}, Words.words_of};

use crate::layout::WORDS;
use crate::{Entry, encode, read_back};

/// Returns the entry that these words spell, or `None` if they spell none.
///
/// Takes no memory. Doesn't wait.
/// Own rule: docs/INTERNALS.md#words-of-an-entry.
pub fn decode(words: &[u64; WORDS]) -> Option<Entry>
    // Proved (log, one-spelling)
    ensures read { IfSome result (λ entry. words.now ≡ words_of entry) }
    // Proved (log, one-spelling)
    ensures every { (entry : Entry) → IsEntry entry → words.now ≡ words_of entry → result ≡ Some entry }
{
    let entry = read_back(words)?;
    // `read_back` also returns an entry for some words that no entry has, as those with a byte past a text's end.
    // They aren't the words of that entry.
    if encode(&entry) != *words {
        return None;
    }
    Some(entry)
}
