//! What a seat at the table of a log knows. No value of these types is made.

use crate::Known;
use std::collections::LinkedList;

/// Whether a pass has the turn. In a chain, which has no turn, no pass has it. A ring keeps here how a pass reads a
/// cell.
pub enum Turn {
    /// Another pass has the turn, or none has. In a ring: the pass reads no cell.
    Without,
    /// The pass has the turn, and hasn't looked since it took it. In a ring: it reads a cell, and doesn't know that the
    /// cell is another entry's by now.
    Won,
    /// The pass has the turn, and has looked since it took it. What it has seen is the whole history. In a ring: it
    /// reads a cell that is another entry's by now.
    Fresh,
}

/// What a seat knows of one pass.
pub struct PassView {
    /// What contracts see of the pass.
    pub known: Known,
    /// How many sessions the log has; in a ring with its spares.
    pub sessions: u64,
    /// How many entries the log can have.
    pub capacity: u64,
    /// The words that the pass has stored and not yet published: those of its next entry, in a chain after the link, in
    /// a ring after the name and the link. While a ring's pass reads a cell, three numbers stand here instead: where
    /// the cell begins, the name that was found there, and how many more entries the history had then than were seen.
    pub draft: LinkedList<u64>,
    /// Whether the pass has the turn; in a ring, how it reads a cell.
    pub turn: Turn,
}

/// The passes that a seat knows.
pub enum SeatView {
    /// None.
    Empty,
    /// One pass.
    Single(PassView),
    /// Two passes that meet.
    Pair(PassView, PassView),
    /// The passes not yet issued: this one and those of higher numbers.
    Unissued(PassView),
}
