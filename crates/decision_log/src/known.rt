//! What a pass knows of the log, as contracts see it.

use std::collections::LinkedList;
use xa_words::Entry;

/// What a pass knows. No value of this type is made: contracts use it to describe a pass.
pub struct Known {
    /// The session's number.
    pub number: u64,
    /// A prefix of the history: all that the pass has seen.
    pub seen: LinkedList<Entry>,
    /// The entries of the history that are of the pass's own number.
    pub mine: LinkedList<Entry>,
    /// How often the pass has looked. It has no greatest value, and isn't kept at run time.
    pub looks: u64,
    /// How often the pass has tried to append. It has no greatest value, and isn't kept at run time.
    pub tries: u64,
    /// How often the pass has looked since it last tried to append. It has no greatest value, and isn't
    /// kept at run time.
    pub since: u64,
}
