//! The row of an entry: reading and writing it word by word.
ghost use Rattle.std.specs.Prelude.{◌≡◌, ◌<◌, ◌≤◌, [], length, slice_get, Some};
ghost use Rattle.xa_words.specs.{Entry.{Entry, IsEntry}, Words.words_of};
ghost use Rattle.decision_log.specs.{Draft.with_draft, Seats.pass_view, TurnSeat.IsSeat};
ghost use Rattle.decision_log.specs.declared.view.Turn.TheVariants.{Fresh};

use super::TurnLog;
use super::layout::ROWS;
use crate::SeatView;
use atomic_table::Seat;
use xa_words::{Entry, WORDS, encode, read_back};

impl TurnLog {
    /// Loads the words of the row of the entry at `place`, which was seen.
    fn read_row(&self, seat: &mut Seat<Entry, SeatView>, place: u64) -> [u64; WORDS]
        requires seat { IsSeat self.now seat.old }
        requires seen { place < length (pass_view seat.old).known.seen }
        requires within { length (pass_view seat.old).known.seen ≤ self.now.capacity }
        ensures seat { IsSeat self.now seat.new }
        ensures same { pass_view seat.new ≡ pass_view seat.old }
        ensures read { (entry : Entry) → slice_get (pass_view seat.old).known.seen place ≡ Some entry
            → IsEntry entry × (result ≡ words_of entry) }
    {
        // The rows lie one after another, after the count and the turn.
        let row = ROWS + place as usize * WORDS;
        let mut words = [0; WORDS];
        for index in 0..WORDS {
            // The row is below the count and isn't written again, so the words are those of one entry.
            words[index] = self.load_word(seat, row + index);
        }
        words
    }

    /// Reads the entry at `place`, which was seen.
    pub(super) fn read_entry(&self, seat: &mut Seat<Entry, SeatView>, place: u64) -> Entry
        requires seat { IsSeat self.now seat.old }
        requires seen { place < length (pass_view seat.old).known.seen }
        requires within { length (pass_view seat.old).known.seen ≤ self.now.capacity }
        ensures seat { IsSeat self.now seat.new }
        ensures same { pass_view seat.new ≡ pass_view seat.old }
        ensures entry { slice_get (pass_view seat.old).known.seen place ≡ Some result }
    {
        let words = self.read_row(seat, place);
        // The words are those of an entry of the history, so an entry is found.
        read_back(&words).unwrap()
    }

    /// Stores an entry's words into the row at the count, which is `place`: the row after all that the pass has seen.
    pub(super) fn write_entry(&self, seat: &mut Seat<Entry, SeatView>, place: u64, entry: &Entry)
        requires seat { IsSeat self.now seat.old }
        requires fresh { (pass_view seat.old).turn ≡ Fresh }
        requires blank { (pass_view seat.old).draft ≡ [] }
        requires place { place ≡ length (pass_view seat.old).known.seen }
        requires room { place < (pass_view seat.old).capacity }
        requires sized { (pass_view seat.old).capacity ≡ self.now.capacity }
        ensures seat { IsSeat self.now seat.new }
        ensures written { pass_view seat.new ≡ with_draft (pass_view seat.old) (words_of entry.now) }
    {
        // No pass reads this row before the count is one higher (`store_count`), so the order of these stores doesn't
        // matter.
        let words = encode(entry);
        let row = ROWS + place as usize * WORDS;
        for index in 0..WORDS {
            self.store_word(seat, row + index, words[index]);
        }
    }
}
