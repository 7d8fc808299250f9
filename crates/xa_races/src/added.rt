//! An entry that a session added in a race.

use xa_words::Entry;

/// An entry that a session added, and its place in the history.
#[derive(Drop)]
pub struct Added {
    /// How many entries of the history come before it.
    pub(crate) place: u64,
    /// The entry.
    pub(crate) entry: Entry,
}
