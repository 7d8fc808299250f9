//! The log: one word that names the newest cell, and the cells.
ghost use Rattle.std.specs.Prelude.{◌≡◌, ◌≤◌};
ghost use Rattle.chain_log.specs.Cells.{word_count};

use crate::Links;
use decision_log::LogTable;

/// A log without a turn. To append, a pass writes its own cell, with a link to the newest cell that it has
/// seen. One exchange then makes that cell the newest.
///
/// A pass that stops doesn't keep others from appending. An exchange is lost only if the history has entries that its
/// pass hasn't seen.
#[derive(Drop)]
pub struct ChainLog {
    /// The words: the newest cell's name, and the cells row by row.
    pub(crate) table: LogTable<Links>,
    /// How many sessions it has, in `[1, 16]`.
    pub(crate) sessions: u64,
    /// How many entries it can have, in `[1, 1024]`.
    pub(crate) capacity: u64,
    // The table has the words of all cells, and the word of the newest one's name.
    ghost wide: { table.inner.shared.table_id.words ≡ word_count sessions capacity },
    // The table was made for these sizes.
    ghost sizes: { table.inner.shared.key ≡ record { sessions = sessions; capacity = capacity } },
    // There is a session, and room for an entry.
    ghost low: { (1 ≤ sessions) × (1 ≤ capacity) },
    // Names of cells are at most 16 times 1,024.
    ghost high: { (sessions ≤ 16) × (capacity ≤ 1024) },
}
