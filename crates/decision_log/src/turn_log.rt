//! A log with a turn: a pass takes the turn before it appends.
ghost use Rattle.std.specs.Prelude.{◌≡◌, ◌≤◌};
ghost use Rattle.decision_log.specs.TurnRule.{row_at};

mod calls;
mod layout;
mod open;
mod pass;
mod rows;
mod rule;
mod steps;
mod transitions;

use crate::LogTable;
pub use pass::TurnPass;
pub use rule::Turns;

/// A log with a turn. To append, a pass takes the turn, looks, writes its entry's words, counts it, and
/// gives the turn back.
///
/// If a pass stops while it has the turn, the others get `Busy` from then on.
#[derive(Drop)]
pub struct TurnLog {
    /// The words: the count, the turn, and the rows.
    table: LogTable<Turns>,
    /// How many sessions it has, in `[1, 16]`.
    sessions: u64,
    /// How many entries it can have, in `[1, 1024]`.
    capacity: u64,
    // The table has the count, the turn's word, and the words of all entries.
    ghost wide: { table.inner.shared.table_id.words ≡ row_at capacity },
    // The table was made for these sizes.
    ghost sizes: { table.inner.shared.key ≡ record { sessions = sessions; capacity = capacity } },
    // There is a session, and room for an entry.
    ghost low: { (1 ≤ sessions) × (1 ≤ capacity) },
    // No more of them than a log may have.
    ghost high: { (sessions ≤ 16) × (capacity ≤ 1024) },
}
