//! The layout of the log's words.

/// The index of the word that counts the entries.
pub(crate) const COUNT: usize = 0;

/// The index of the word with the number of the session that has the turn, or 0 if none has.
pub(crate) const TURN: usize = 1;

/// The index of the first word of the first row.
pub(crate) const ROWS: usize = 2;
