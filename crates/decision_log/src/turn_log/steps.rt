//! The steps of a log with a turn, one function each.
//!
//! All steps are sequentially consistent, and between two steps of a pass any other pass may step. By role:
//!
//! 1. To look, a pass loads the count (`load_count`). What the pass has seen stays a prefix of the history,
//!    which grows only at its end.
//! 2. To read, it loads words of a row below the count (`load_word`). Such a row is never written again.
//! 3. To append, it takes the turn (`take_turn`), loads the count, stores the words of the row at the count
//!    (`store_word`), stores the count (`store_count`), and gives the turn back (`give_turn`). The count is
//!    loaded after the turn is taken, so no other pass appends between that and the store of the count. The
//!    count is stored after the words, so a row below the count is always whole.
//! 4. To meet, two passes split off an empty seat, join two seats, load the count there, and split them
//!    (`LogTable::meet`). Each pass has seen a prefix of one history, so the longer begins with the
//!    shorter.
//! 5. To open, the seat that knows the passes not yet issued is split once for each session
//!    (`LogTable::issue`).
ghost use Rattle.std.specs.Prelude.{◌≡◌, ◌≢◌, ◌<◌, ◌≤◌, ◌+◌, ℕ, List, length, slice_get, slice_index, Some};
ghost use Rattle.xa_words.specs.{Entry.{Entry, IsEntry}, Words.words_of};
ghost use Rattle.decision_log.specs.{TurnRule.row_at, Draft.drafted, Observed.HistoryIs, TurnSeat.IsSeat};
ghost use Rattle.decision_log.specs.{TurnTransitions.{with_look, tried, published, released}, Seats.pass_view};
ghost use Rattle.decision_log.specs.declared.view.Turn.TheVariants.{Without, Won, Fresh};

use super::TurnLog;
use super::layout::{COUNT, TURN};
use super::transitions::{DraftWord, Publish, ReadWord, Release, SeeAll, TakeTurn};
use crate::SeatView;
use atomic_table::Seat;
use xa_words::Entry;

impl TurnLog {
    /// Loads the count. The pass has then seen the whole history.
    pub(super) fn load_count(&self, seat: &mut Seat<Entry, SeatView>) -> u64
        requires { IsSeat self.now seat.old }
        ensures seat { IsSeat self.now seat.new }
        ensures seen { (seen : List Entry)
            × (pass_view seat.new ≡ with_look (pass_view seat.old) seen)
            × (result ≡ length seen)
            × HistoryIs (pass_view seat.old) seen }
    {
        // This load relies on no earlier load.
        self.table.load::<SeeAll>(seat, COUNT)
    }

    /// Loads the word `word` of the table, which is in the row of an entry that was seen.
    pub(super) fn load_word(&self, seat: &mut Seat<Entry, SeatView>, word: usize) -> u64
        requires seat { IsSeat self.now seat.old }
        requires word { (0 < word) × (word < row_at self.now.capacity) }
        ensures seat { IsSeat self.now seat.new }
        ensures same { pass_view seat.new ≡ pass_view seat.old }
        ensures read { (place index : ℕ) (entry : Entry)
            → word ≡ row_at place + index
            → index < 21
            → slice_get (pass_view seat.old).known.seen place ≡ Some entry
            → IsEntry entry × (result ≡ slice_index (words_of entry) index) }
    {
        // The row was below the count when the count was loaded, and still is: it has the same words.
        self.table.load::<ReadWord>(seat, word)
    }

    /// Tries to take the turn for the pass, whose session is `number`. Returns 0 if the pass has the turn now, and
    /// else the session that had it.
    pub(super) fn take_turn(&self, seat: &mut Seat<Entry, SeatView>, number: u64) -> u64
        requires seat { IsSeat self.now seat.old }
        requires number { number ≡ (pass_view seat.old).known.number }
        ensures seat { IsSeat self.now seat.new }
        ensures won { result ≡ 0 → pass_view seat.new ≡ tried (pass_view seat.old) Won }
        ensures lost { result ≢ 0 → pass_view seat.new ≡ tried (pass_view seat.old) Without }
    {
        // Nothing was loaded before: the exchange itself tests whether the turn is free.
        self.table
            .compare_exchange::<TakeTurn>(seat, TURN, 0, number)
    }

    /// Stores `new`, a word of an entry, as the word `word` of the table, which is in the row at the count.
    pub(super) fn store_word(&self, seat: &mut Seat<Entry, SeatView>, word: usize, new: u64)
        requires seat { IsSeat self.now seat.old }
        requires fresh { (pass_view seat.old).turn ≡ Fresh }
        requires room { length (pass_view seat.old).known.seen < (pass_view seat.old).capacity }
        requires sized { (pass_view seat.old).capacity ≡ self.now.capacity }
        requires place { (index : ℕ)
            × (word ≡ row_at (length (pass_view seat.old).known.seen) + index)
            × (index ≤ length (pass_view seat.old).draft)
            × (index < 21) }
        ensures seat { IsSeat self.now seat.new }
        ensures stored { (index : ℕ)
            → word ≡ row_at (length (pass_view seat.old).known.seen) + index
            → pass_view seat.new ≡ drafted (pass_view seat.old) index new }
    {
        // The pass has had the turn since it loaded the count. So that is still the same, and no other pass stores in
        // the row at it.
        self.table.store::<DraftWord>(seat, word, new)
    }

    /// Stores the count, `new`, which is one higher than before: `entry`, whose words are in the row, is appended by
    /// this. Only the proof needs `entry`.
    pub(super) fn store_count(&self, seat: &mut Seat<Entry, SeatView>, entry: &Entry, new: u64)
        requires seat { IsSeat self.now seat.old }
        requires fresh { (pass_view seat.old).turn ≡ Fresh }
        requires room { length (pass_view seat.old).known.seen < (pass_view seat.old).capacity }
        requires next { new ≡ length (pass_view seat.old).known.seen + 1 }
        requires own { entry.now.session ≡ (pass_view seat.old).known.number }
        requires whole { (pass_view seat.old).draft ≡ words_of entry.now }
        ensures seat { IsSeat self.now seat.new }
        ensures added { pass_view seat.new ≡ published (pass_view seat.old) entry.now }
    {
        // The proof needs `IsEntry` of the entry, which the contract of this call gives.
        let _session = entry.session();
        // The pass still has the turn, so the count is still what it has seen, and the row's words are its own.
        self.table.store::<Publish>(seat, COUNT, new)
    }

    /// Stores 0 to the turn, which frees it.
    pub(super) fn give_turn(&self, seat: &mut Seat<Entry, SeatView>)
        requires seat { IsSeat self.now seat.old }
        requires fresh { (pass_view seat.old).turn ≡ Fresh }
        ensures seat { IsSeat self.now seat.new }
        ensures released { pass_view seat.new ≡ released (pass_view seat.old) }
    {
        // The pass has the turn until this store: no other pass stores there while it isn't free.
        self.table.store::<Release>(seat, TURN, 0)
    }
}
