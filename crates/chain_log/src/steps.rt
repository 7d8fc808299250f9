//! The steps of a chain on its words, one function each.
//!
//! All steps are sequentially consistent, and between two steps of a pass any other pass may step. By role:
//!
//! 1. To look, a pass loads word 0 (`load_newest`). What the pass has seen stays a prefix of the history,
//!    which grows only at its end. The draft is given up, since the own cell may be another from then on.
//! 2. After a pass has seen more, by a look, a lost exchange or a meeting, it loads the link of each cell that
//!    is new to it, from the newest back (`fill`, by `load_word`). A name that was seen once always leads
//!    to the same cell.
//! 3. To read, a pass loads words of a cell whose name it found before (`load_word`). A cell of the history is
//!    never written again: its session stores only in later rows, and no other session stores in its
//!    column.
//! 4. To append, a pass writes its own cell (`put_word`). It stores each word (`store_word`), but a word that
//!    is to be 0 it loads first (`find_blank`), and leaves it if it is 0 already. Then it exchanges word 0
//!    from the last name it has seen to its own (`exchange`). The cell was whole before it became the
//!    newest. A name has one row and one column, so an equal name in word 0 means that exactly what the
//!    pass has seen is the history. The exchange tests this and appends in one step.
//! 5. To meet, two passes split off an empty seat, join two seats, load word 0 there, and split them
//!    (`LogTable::meet`). Each pass has seen a prefix of one history, so the longer begins with the
//!    shorter.
//! 6. To open, the seat that knows the passes not yet issued is split once for each session
//!    (`LogTable::issue`).
ghost use Rattle.std.specs.Prelude.{◌≡◌, ◌≢◌, true, false, ◌<◌, ◌≤◌, ◌+◌, ℕ, List, ◌∷◌, length, slice_get, slice_index};
ghost use Rattle.std.specs.Prelude.{Some};
ghost use Rattle.xa_words.specs.{Entry.{Entry, IsEntry}, Words.words_of};
ghost use Rattle.decision_log.specs.{Draft.drafted, Observed.HistoryIs, Seats.pass_view};
ghost use Rattle.chain_log.specs.{Cells.{name_at, name_before, newest_of}, ChainTransitions.{with_look, won, lost}};
ghost use Rattle.chain_log.specs.ChainSeat.{IsSeat, IsOurs};

use crate::ChainLog;
use crate::layout::{NEWEST, cell_start};
use crate::transitions::{DraftWord, FindBlank, Publish, ReadWord, SeeAll};
use atomic_table::Seat;
use decision_log::SeatView;
use xa_words::Entry;

impl ChainLog {
    /// Loads the newest cell's name. The pass has then seen the whole history.
    pub(crate) fn load_newest(&self, seat: &mut Seat<Entry, SeatView>) -> u64
        requires { IsSeat self.now seat.old }
        ensures seat { IsSeat self.now seat.new }
        ensures seen { (seen : List Entry)
            × (pass_view seat.new ≡ with_look (pass_view seat.old) seen)
            × (result ≡ newest_of (pass_view seat.old).sessions seen)
            × HistoryIs (pass_view seat.old) seen }
    {
        // This load relies on no earlier load.
        self.table.load::<SeeAll>(seat, NEWEST)
    }

    /// Loads a word of the cell `name`, that of an entry that was seen. At `index` 0 it is the cell's link, and then
    /// come the entry's words.
    pub(crate) fn load_word(&self, seat: &mut Seat<Entry, SeatView>, name: u64, index: usize) -> u64
        requires seat { IsSeat self.now seat.old }
        requires ours { IsOurs self.now (pass_view seat.old) }
        requires index { index < 22 }
        requires named { (row : ℕ)
            × (row < length (pass_view seat.old).known.seen)
            × (name ≡ name_before (pass_view seat.old).sessions (pass_view seat.old).known.seen (row + 1)) }
        ensures seat { IsSeat self.now seat.new }
        ensures same { pass_view seat.new ≡ pass_view seat.old }
        ensures read { (row : ℕ) (entry : Entry)
            → name ≡ name_before (pass_view seat.old).sessions (pass_view seat.old).known.seen (row + 1)
            → slice_get (pass_view seat.old).known.seen row ≡ Some entry
            → IsEntry entry
            × (result ≡ slice_index (name_before (pass_view seat.old).sessions
            (pass_view seat.old).known.seen row ∷ words_of entry) index) }
    {
        let word = cell_start(name) + index;
        // The name still leads to that cell, with the same words: no cell of the history is written again.
        self.table.load::<ReadWord>(seat, word)
    }

    /// Loads the word at `index` of the own cell, `name`, and returns whether it is 0, as it is to be. If so, the pass
    /// relies on that 0 from then on as if it had stored it.
    fn find_blank(&self, seat: &mut Seat<Entry, SeatView>, name: u64, index: usize) -> bool
        requires seat { IsSeat self.now seat.old }
        requires ours { IsOurs self.now (pass_view seat.old) }
        requires room { length (pass_view seat.old).known.seen < (pass_view seat.old).capacity }
        requires own { name ≡ name_at (pass_view seat.old).sessions (length (pass_view seat.old).known.seen)
            (pass_view seat.old).known.number }
        requires along { index ≤ length (pass_view seat.old).draft }
        requires index { index < 22 }
        ensures seat { IsSeat self.now seat.new }
        ensures blank { result ≡ true → pass_view seat.new ≡ drafted (pass_view seat.old) index 0 }
        ensures other { result ≡ false → pass_view seat.new ≡ pass_view seat.old }
    {
        let word = cell_start(name) + index;
        // No other pass stores in this column, so a 0 that is found stays until this pass stores there.
        self.table.load::<FindBlank>(seat, word) == 0
    }

    /// Stores `new` as the word at `index` of the own cell, `name`.
    fn store_word(&self, seat: &mut Seat<Entry, SeatView>, name: u64, index: usize, new: u64)
        requires seat { IsSeat self.now seat.old }
        requires ours { IsOurs self.now (pass_view seat.old) }
        requires room { length (pass_view seat.old).known.seen < (pass_view seat.old).capacity }
        requires own { name ≡ name_at (pass_view seat.old).sessions (length (pass_view seat.old).known.seen)
            (pass_view seat.old).known.number }
        requires along { index ≤ length (pass_view seat.old).draft }
        requires index { index < 22 }
        ensures seat { IsSeat self.now seat.new }
        ensures stored { pass_view seat.new ≡ drafted (pass_view seat.old) index new }
    {
        let word = cell_start(name) + index;
        // The own cell isn't in the history: later entries are in other columns, and no other pass stores
        // here.
        self.table.store::<DraftWord>(seat, word, new)
    }

    /// Makes the word at `index` of the own cell, `name`, the number `new`. A 0 that is there already isn't stored
    /// again: a load costs much less than a store.
    pub(crate) fn put_word(
        &self,
        seat: &mut Seat<Entry, SeatView>,
        name: u64,
        index: usize,
        new: u64,
    )
        requires seat { IsSeat self.now seat.old }
        requires ours { IsOurs self.now (pass_view seat.old) }
        requires room { length (pass_view seat.old).known.seen < (pass_view seat.old).capacity }
        requires own { name ≡ name_at (pass_view seat.old).sessions (length (pass_view seat.old).known.seen)
            (pass_view seat.old).known.number }
        requires along { index ≤ length (pass_view seat.old).draft }
        requires index { index < 22 }
        ensures seat { IsSeat self.now seat.new }
        ensures put { pass_view seat.new ≡ drafted (pass_view seat.old) index new }
    {
        // Most words of an entry are 0, and most cells are used for the first time: then a load shows that 0 is
        // there.
        if new != 0 {
            self.store_word(seat, name, index, new);
            return;
        }
        if self.find_blank(seat, name, index) {
            return;
        }
        self.store_word(seat, name, index, 0);
    }

    /// Makes the own cell, of the name `own`, the newest, if the last cell seen, of the name `old`, still is. Returns
    /// the name of the cell that was the newest: the exchange is won if that is `old`. `entry` is what the own cell
    /// has; only the proof needs it.
    pub(crate) fn exchange(
        &self,
        seat: &mut Seat<Entry, SeatView>,
        old: u64,
        own: u64,
        entry: &Entry,
    ) -> u64
        requires seat { IsSeat self.now seat.old }
        requires room { length (pass_view seat.old).known.seen < (pass_view seat.old).capacity }
        requires old { old ≡ newest_of (pass_view seat.old).sessions (pass_view seat.old).known.seen }
        requires own { own ≡ name_at (pass_view seat.old).sessions (length (pass_view seat.old).known.seen)
            (pass_view seat.old).known.number }
        requires entry { entry.now.session ≡ (pass_view seat.old).known.number }
        requires whole { (pass_view seat.old).draft ≡ old ∷ words_of entry.now }
        ensures seat { IsSeat self.now seat.new }
        ensures won { result ≡ old → pass_view seat.new ≡ won (pass_view seat.old) entry.now }
        ensures named { result ≡ old → own ≡ newest_of (pass_view seat.new).sessions (pass_view seat.new).known.seen }
        ensures lost { result ≢ old
            → (seen : List Entry)
            × (pass_view seat.new ≡ lost (pass_view seat.old) seen)
            × (result ≡ newest_of (pass_view seat.old).sessions seen)
            × HistoryIs (pass_view seat.old) seen
            × (length (pass_view seat.old).known.seen < length seen) }
    {
        // The proof needs `IsEntry` of the entry, which the contract of this call gives.
        let _session = entry.session();
        // The exchange itself tests whether `old` is still the newest, and so whether what was seen is the
        // history.
        self.table
            .compare_exchange_with::<Publish>(seat, NEWEST, old, own, entry)
    }
}
