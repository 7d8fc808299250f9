//! The log: one word that names the newest entry, and the cells.
ghost use Rattle.std.specs.Prelude.{◌≡◌, ◌≤◌, ◌+◌};
ghost use Rattle.chain_log.specs.Places.{most, rows_of, word_count};

use crate::Turning;
use decision_log::LogTable;

/// A log without a turn that uses the cells of old entries again, so that its history has no end.
///
/// To append, a pass writes a cell of its own, with a link to the newest entry that it has seen. One exchange then
/// makes its entry the newest. A pass that stops doesn't keep others from appending. An exchange is lost only if the
/// history has entries that its pass hasn't seen.
#[derive(Drop)]
pub struct RingLog {
    /// The words: the newest entry's name, and the cells.
    pub(crate) table: LogTable<Turning>,
    /// How many sessions it has, in `[1, 16]`, spares not included.
    pub(crate) sessions: u64,
    /// How many columns the cells have: one for each pass, spares included.
    pub(crate) columns: u64,
    /// How many rows the cells have.
    pub(crate) rows: u64,
    /// How many entries the log can have: 2^59 and as many more as it has rows.
    pub(crate) capacity: u64,
    // The table has the words of all cells, and the word of the newest entry's name.
    ghost wide: { table.inner.shared.table_id.words ≡ word_count columns rows },
    // The table was made for these sizes.
    ghost sizes: { table.inner.shared.key ≡ record { sessions = columns; capacity = capacity } },
    // The number of rows follows from the capacity.
    ghost turns: { rows ≡ rows_of capacity },
    // The history may have 2^59 entries, and as many more as there are rows; so names fit into 64 bits.
    ghost room: { capacity ≡ most + rows },
    // There is a session, and a row.
    ghost low: { (1 ≤ sessions) × (1 ≤ rows) },
    // No more sessions than entries can name, and no more rows than are allowed.
    ghost high: { (sessions ≤ 16) × (rows ≤ 65536) },
    // The columns are those of the sessions and of at most 4 spares.
    ghost spares: { (sessions ≤ columns) × (columns ≤ 20) },
}
