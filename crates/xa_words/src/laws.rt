//! Laws of the words of every entry, as contracts over definitions only.
ghost use Rattle.std.specs.Prelude.{◌≡◌, ◌↔◌, ◌^◌, ◌<◌, length, All, IsTrue};
ghost use Rattle.xa_words.specs.{Entry.{Entry as EntryValue, IsEntry}, Words.words_of};

use crate::Entry;

/// States that entries are equal exactly if both the sessions and the statements are equal.
///
/// Takes no memory. Doesn't wait.
pub fn same_entries(left: &Entry, right: &Entry) -> bool
    // Proved (statements, equal-refusals-and-entries)
    ensures { IsTrue result ↔ (left.now ≡ right.now) }
{
    left == right
}

/// States that entries of the same words are the same.
///
/// Takes no memory. Doesn't wait.
pub fn one_entry_of_its_words()
    // Proved (log, one-spelling)
    ensures { (left right : EntryValue) → IsEntry left → IsEntry right → words_of left ≡ words_of right → left ≡ right }
{}

/// States that an entry has 21 words, each below 2^64.
///
/// Takes no memory. Doesn't wait.
pub fn words_fit()
    // Proved (log, words-fit): A log entry has 21 words, and each is below 2^64.
    ensures length { (entry : EntryValue) → length (words_of entry) ≡ 21 }
    // Proved (log, words-fit)
    ensures fit { (entry : EntryValue) → IsEntry entry → All (λ word. word < 2 ^ 64) (words_of entry) }
{}
