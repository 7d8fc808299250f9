//! The layout of a chain's words.
ghost use Rattle.std.specs.Prelude.{◌≡◌, ◌<◌, ◌≤◌, ℕ, List, length};
ghost use Rattle.xa_words.specs.Entry.{Entry};
ghost use Rattle.decision_log.specs.Known.{AllOf};
ghost use Rattle.chain_log.specs.Cells.{word_count, name_at, cell_at, newest_of};

use xa_words::WORDS;

/// The index of the word that has the name of the newest cell, or 0 while the history is empty.
pub(crate) const NEWEST: usize = 0;

/// The number of words of a cell: its link, and the words of an entry.
pub(crate) const CELL: usize = 1 + WORDS;

/// Returns the number of words of a log.
pub(crate) fn count_words(sessions: u64, capacity: u64) -> usize
    requires sessions { sessions ≤ 16 }
    requires capacity { capacity ≤ 1024 }
    ensures { result ≡ word_count sessions capacity }
{
    // A row for each entry that the log can have, with a cell for each session, after the word `NEWEST`.
    1 + capacity as usize * sessions as usize * CELL
}

/// Returns the name of the cell of a row and a session.
pub(crate) fn cell_name(sessions: u64, row: u64, session: u64) -> u64
    requires sessions { sessions ≤ 16 }
    requires row { row < 1024 }
    requires session { session ≤ 16 }
    ensures { result ≡ name_at sessions row session }
{
    // Sessions are numbered from 1, so no cell has the name 0.
    row * sessions + session
}

/// Returns the session in whose column the cell with this name is.
pub(crate) fn cell_column(sessions: u64, name: u64) -> u8
    requires some { 1 ≤ sessions }
    requires few { sessions ≤ 16 }
    requires name { 1 ≤ name }
    ensures { (row session : ℕ) → 1 ≤ session → session ≤ sessions → name ≡ name_at sessions row session
        → result ≡ session }
{
    ((name - 1) % sessions + 1) as u8
}

/// Returns the first word of the cell with this name.
pub(crate) fn cell_start(name: u64) -> usize
    requires low { 1 ≤ name }
    requires high { name ≤ 16384 }
    ensures { result ≡ cell_at name }
{
    // Names begin at 1, and the first cell begins at word 1, after the word that names the newest.
    1 + (name as usize - 1) * CELL
}

/// Returns how many entries a history has whose newest cell has this name: its row plus one, and 0 for the name 0.
pub(crate) fn row_count(sessions: u64, newest: u64) -> u64
    requires { 1 ≤ sessions }
    ensures { (seen : List Entry) → AllOf sessions seen → newest ≡ newest_of sessions seen → result ≡ length seen }
{
    // No cell has the name 0: the history is empty.
    if newest == 0 {
        return 0;
    }
    (newest - 1) / sessions + 1
}

/// Returns how many entries a history has whose newest cell is `newest`, as `row_count` does. `count` is that number
/// for the cell `known`, which most often is the same cell.
pub(crate) fn count_from(sessions: u64, known: u64, count: u64, newest: u64) -> u64
    requires sessions { 1 ≤ sessions }
    requires counted { (seen : List Entry) → AllOf sessions seen → known ≡ newest_of sessions seen
        → count ≡ length seen }
    ensures { (seen : List Entry) → AllOf sessions seen → newest ≡ newest_of sessions seen → result ≡ length seen }
{
    // Mostly nothing has changed, and then the division by the number of sessions isn't needed.
    if newest == known {
        return count;
    }
    row_count(sessions, newest)
}
