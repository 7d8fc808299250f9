//! Reading and writing cells.
ghost use Rattle.std.specs.Prelude.{◌≡◌, ◌<◌, ◌+◌, ℕ, ◌∷◌, length, slice_get, slice_index, Some};
ghost use Rattle.xa_words.specs.{Entry.{Entry, IsEntry}, Words.words_of};
ghost use Rattle.decision_log.specs.{Draft.with_draft, Seats.pass_view};
ghost use Rattle.chain_log.specs.{Cells.{name_at, name_before}, ChainSeat.{IsSeat, IsOurs}};

use crate::ChainLog;
use atomic_table::Seat;
use decision_log::SeatView;
use xa_words::{Entry, WORDS, encode, is_behind_text, read_back};

impl ChainLog {
    /// Returns the entry's word at `index` in the cell `name`, that of an entry that was seen. `words` has the entry's
    /// words before that one.
    ///
    /// For a word after the end of its text it returns 0 without a load: other sessions' cells are far, and most texts
    /// are short.
    fn read_word(
        &self,
        seat: &mut Seat<Entry, SeatView>,
        name: u64,
        index: usize,
        words: &[u64; WORDS],
    ) -> u64
        requires seat { IsSeat self.now seat.old }
        requires ours { IsOurs self.now (pass_view seat.old) }
        requires index { index < 21 }
        requires named { (row : ℕ)
            × (row < length (pass_view seat.old).known.seen)
            × (name ≡ name_before (pass_view seat.old).sessions (pass_view seat.old).known.seen (row + 1)) }
        ensures seat { IsSeat self.now seat.new }
        ensures same { pass_view seat.new ≡ pass_view seat.old }
        ensures read { (row : ℕ) (entry : Entry)
            → name ≡ name_before (pass_view seat.old).sessions (pass_view seat.old).known.seen (row + 1)
            → slice_get (pass_view seat.old).known.seen row ≡ Some entry
            → (0 < index → IsEntry entry)
            → ((place : ℕ) → place < index → slice_index words.now place ≡ slice_index (words_of entry) place)
            → IsEntry entry × (result ≡ slice_index (words_of entry) index) }
    {
        // An entry has one spelling: such a word is 0.
        if is_behind_text(words, index) {
            return 0;
        }
        // Word 0 of a cell is its link. The cell isn't written between the loads of its words, so all are of one
        // entry.
        self.load_word(seat, name, 1 + index)
    }

    /// Loads the entry's words in the cell `name`, that of an entry that was seen.
    fn read_cell(&self, seat: &mut Seat<Entry, SeatView>, name: u64) -> [u64; WORDS]
        requires seat { IsSeat self.now seat.old }
        requires ours { IsOurs self.now (pass_view seat.old) }
        requires named { (row : ℕ)
            × (row < length (pass_view seat.old).known.seen)
            × (name ≡ name_before (pass_view seat.old).sessions (pass_view seat.old).known.seen (row + 1)) }
        ensures seat { IsSeat self.now seat.new }
        ensures same { pass_view seat.new ≡ pass_view seat.old }
        ensures read { (row : ℕ) (entry : Entry)
            → name ≡ name_before (pass_view seat.old).sessions (pass_view seat.old).known.seen (row + 1)
            → slice_get (pass_view seat.old).known.seen row ≡ Some entry
            → IsEntry entry × (result ≡ words_of entry) }
    {
        let mut words = [0; WORDS];
        // In order, since the texts' lengths come before the texts, and say which words needn't be loaded.
        for index in 0..WORDS {
            words[index] = self.read_word(seat, name, index, &words);
        }
        words
    }

    /// Returns the entry of `row`, which was seen, from its cell, `name`. Only the contract needs the row.
    pub(crate) fn read_entry(&self, seat: &mut Seat<Entry, SeatView>, name: u64, row: u64) -> Entry
        requires seat { IsSeat self.now seat.old }
        requires ours { IsOurs self.now (pass_view seat.old) }
        requires seen { row < length (pass_view seat.old).known.seen }
        requires name { name ≡ name_before (pass_view seat.old).sessions (pass_view seat.old).known.seen (row + 1) }
        ensures seat { IsSeat self.now seat.new }
        ensures same { pass_view seat.new ≡ pass_view seat.old }
        ensures entry { slice_get (pass_view seat.old).known.seen row ≡ Some result }
    {
        let words = self.read_cell(seat, name);
        // The words are those of an entry of the history, so an entry is found.
        read_back(&words).unwrap()
    }

    /// Writes a link and an entry's words into the cell `name`, over what was stored there before. It is the pass's
    /// own cell in the row after all that it has seen. `link` is the name of the cell of the last entry seen, or 0.
    pub(crate) fn write_cell(
        &self,
        seat: &mut Seat<Entry, SeatView>,
        name: u64,
        link: u64,
        entry: &Entry,
    )
        requires seat { IsSeat self.now seat.old }
        requires ours { IsOurs self.now (pass_view seat.old) }
        requires room { length (pass_view seat.old).known.seen < (pass_view seat.old).capacity }
        requires own { name ≡ name_at (pass_view seat.old).sessions (length (pass_view seat.old).known.seen)
            (pass_view seat.old).known.number }
        ensures seat { IsSeat self.now seat.new }
        ensures written { pass_view seat.new ≡ with_draft (pass_view seat.old) (link ∷ words_of entry.now) }
    {
        // No other pass reads this cell before `exchange` makes it the newest.
        self.put_word(seat, name, 0, link);
        let words = encode(entry);
        for index in 0..WORDS {
            self.put_word(seat, name, 1 + index, words[index]);
        }
    }
}
