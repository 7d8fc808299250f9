//! Where the words of a ring lie.
ghost use Rattle.std.specs.Prelude.{◌≡◌, ◌<◌, ◌≤◌, ◌+◌, ◌-◌, ◌*◌, ◌%◌, ℕ, List, length};
ghost use Rattle.xa_words.specs.Entry.{Entry};
ghost use Rattle.decision_log.specs.Known.{AllOf};
ghost use Rattle.chain_log.specs.{Cells.{name_at, newest_of}, Places.{most, word_count, cell_at}};

use xa_words::WORDS;

/// The index of the word that has the name of the newest entry, or 0 while the history is empty.
pub(crate) const NEWEST: usize = 0;

/// How many words a cell has: its entry's name, a link, and the words of the entry.
pub(crate) const CELL: usize = 2 + WORDS;

/// How many entries a ring can have in addition to one for each of its rows: 2^59. A name numbers a place and one of up
/// to 20 columns, so all names fit into 64 bits.
pub(crate) const MOST: u64 = 576_460_752_303_423_488;

/// How many rows a ring can have at most. With 20 columns of 23 words, 65,536 rows take 241 MB.
pub const MOST_ROWS: u64 = 65_536;

/// How many spares a ring can have at most: one for each checkpoint of an endless store, and it has up to four. Each
/// has a column of its own, as a session has.
pub const MOST_SPARES: u64 = 4;

/// How many words a ring has. It has a column for each pass, spares included, but a spare uses no cell of its own.
pub(crate) fn count_words(columns: u64, rows: u64) -> usize
    requires columns { columns ≤ 20 }
    requires rows { rows ≤ 65536 }
    ensures { result ≡ word_count columns rows }
{
    1 + rows as usize * columns as usize * CELL
}

/// The name of the entry of a place and a session.
pub(crate) fn entry_name(columns: u64, place: u64, session: u64) -> u64
    requires columns { columns ≤ 20 }
    requires place { place < most + 65536 }
    requires session { session ≤ 20 }
    ensures { result ≡ name_at columns place session }
{
    // Sessions are numbered from 1, so no entry has the name 0.
    place * columns + session
}

/// The session of the entry of a name, in whose column its cell stands.
pub(crate) fn name_column(columns: u64, name: u64) -> u8
    requires some { 1 ≤ columns }
    requires few { columns ≤ 20 }
    requires name { 1 ≤ name }
    ensures { (place session : ℕ) → 1 ≤ session → session ≤ columns → name ≡ name_at columns place session
        → result ≡ session }
{
    ((name - 1) % columns + 1) as u8
}

/// The first word of the cell of a place and a session.
pub(crate) fn cell_start(rows: u64, place: u64, session: u64) -> usize
    requires some { 0 < rows }
    requires rows { rows ≤ 65536 }
    requires first { 1 ≤ session }
    requires last { session ≤ 20 }
    ensures { result ≡ cell_at (name_at rows (session - 1) (place % rows + 1)) }
{
    // The cells of a column lie side by side, so that a session's next cell is in the caches already, or on its way.
    // Cells are numbered from 1, and the first begins at word 1, after the word that names the newest entry.
    let cell = (session - 1) as usize * rows as usize + (place % rows) as usize + 1;
    1 + (cell - 1) * CELL
}

/// How many of its eight words a text of `size` bytes fills, the last maybe in part, in `[0, 8]`. The others are 0.
pub(crate) fn words_filled(size: u64) -> usize
    ensures most { result ≤ 8 }
    ensures behind { (word : ℕ) → result ≤ word → word < 8 → size ≤ 8 * word }
{
    // A text of 57 to 64 bytes fills all eight, and none is longer. In a cell that is written meanwhile any number may
    // be found.
    if size > 56 {
        return 8;
    }
    (size as usize + 7) / 8
}

/// How many entries a history has if its newest entry has this name: one more than its place, and 0 for the name 0.
pub(crate) fn place_count(columns: u64, newest: u64) -> u64
    requires { 1 ≤ columns }
    ensures { (seen : List Entry) → AllOf columns seen → newest ≡ newest_of columns seen → result ≡ length seen }
{
    // No entry has the name 0: the history is empty.
    if newest == 0 {
        return 0;
    }
    (newest - 1) / columns + 1
}

/// Returns how many entries a history has if its newest entry has the name `newest`, as `place_count` does. `count` is
/// that number for the name `known`, which most often is the same name.
pub(crate) fn count_from(columns: u64, known: u64, count: u64, newest: u64) -> u64
    requires columns { 1 ≤ columns }
    requires counted { (seen : List Entry) → AllOf columns seen → known ≡ newest_of columns seen → count ≡ length seen }
    ensures { (seen : List Entry) → AllOf columns seen → newest ≡ newest_of columns seen → result ≡ length seen }
{
    // Mostly nothing has changed, and then the division by the number of columns isn't needed.
    if newest == known {
        return count;
    }
    place_count(columns, newest)
}
