//! The steps of a ring on its words, one function each.
//!
//! All are sequentially consistent, and between two steps of a pass any other pass may step. By role:
//!
//! 1. To look, a pass loads word 0 (`load_newest`). What it has seen stays a prefix of the history, which grows only
//!    at its end. The draft is given up, since the own cell may be another from then on.
//! 2. To read words of a cell, a pass loads the cell's first word, the name of its entry, before and after them
//!    (`check_name`, with `load_word` between). A session that uses a cell again stores the new name before any other
//!    word, and no name is used twice. So if the same name is there afterwards, all that was loaded between was that
//!    entry's. If another name is there, the history has at least as many entries from that entry's place on as there
//!    are rows, since the cell's session had seen them all when it used the cell again.
//! 3. To append, a pass writes its own cell: the name first (`store_name`), then the link (`store_word`) and the words
//!    of the entry (`put_word`), of which it doesn't store one that is there already (`find_word`). The cell has no
//!    entry that the ring must keep: the pass has seen all entries of its own, and the last one in this row is at least
//!    a whole turn back. Then the pass exchanges word 0 from the last name that it has seen to its own (`exchange`).
//!    So the cell is whole before its entry becomes the newest. A name has one place and one session. So if word 0
//!    still has that name, the history is exactly what the pass has seen. The exchange tests this and appends at one
//!    step.
//! 4. To let two passes meet, `LogTable::meet` splits off an empty seat, joins two seats, loads word 0 there, and
//!    splits them. Each pass has seen a prefix of one history, so the longer begins with the shorter.
//! 5. To open, `LogTable::issue` splits the seat that knows the passes not yet issued, once for each session and each
//!    spare.
ghost use Rattle.std.specs.Prelude.{◌≡◌, ◌≢◌, ◌<◌, ◌≤◌, ◌+◌, ◌%◌, ℕ, List, [], ◌∷◌, length};
ghost use Rattle.xa_words.specs.{Entry.Entry, Words.words_of};
ghost use Rattle.decision_log.specs.{declared.view.Turn.TheVariants.Without, Observed.HistoryIs, Seats.pass_view};
ghost use Rattle.chain_log.specs.{Cells.newest_of, Places.cell_of, RingRule.{own_name, own_cell, least}};
ghost use Rattle.chain_log.specs.RingTransitions.{with_look, won, lost, stored, Checks, Reads};
ghost use Rattle.chain_log.specs.RingSeat.{IsSeat, IsStart};

use crate::RingLog;
use crate::ring_layout::{NEWEST, cell_start};
use crate::ring_transitions::{CheckName, DraftWord, FindWord, Publish, ReadWord, SeeAll};
use atomic_table::Seat;
use decision_log::SeatView;
use xa_words::Entry;

impl RingLog {
    /// Returns the word at which the cell of a place and a session begins.
    pub(crate) fn start(&self, place: u64, session: u64) -> usize
        requires first { 1 ≤ session }
        requires last { session ≤ self.now.columns }
        ensures start { IsStart self.now result }
        ensures value { result ≡ cell_of self.now.capacity place session }
    {
        cell_start(self.rows, place, session)
    }

    /// Loads the newest entry's name: the pass has then seen the whole history.
    pub(crate) fn load_newest(&self, seat: &mut Seat<Entry, SeatView>) -> u64
        requires { IsSeat self.now seat.old }
        ensures seat { IsSeat self.now seat.new }
        ensures seen { (seen : List Entry)
            × (pass_view seat.new ≡ with_look (pass_view seat.old) seen)
            × (result ≡ newest_of (pass_view seat.old).sessions seen)
            × HistoryIs (pass_view seat.old) seen
            × (least (pass_view seat.old) ≤ length seen) }
    {
        // This load relies on no earlier one.
        self.table.load::<SeeAll>(seat, NEWEST)
    }

    /// Loads the name in the cell that begins at the word `start`.
    pub(crate) fn check_name(&self, seat: &mut Seat<Entry, SeatView>, start: usize) -> u64
        requires seat { IsSeat self.now seat.old }
        requires start { IsStart self.now start }
        ensures seat { IsSeat self.now seat.new }
        ensures checked { Checks start (pass_view seat.old) result (pass_view seat.new) }
    {
        // If it is the name that was found before, of an entry that was seen, the words loaded since then are that
        // entry's.
        self.table.load::<CheckName>(seat, start)
    }

    /// Loads a word of the cell that begins at the word `start`. At `index` 0 it is the name, at 1 the link, and then
    /// come the entry's words.
    pub(crate) fn load_word(
        &self,
        seat: &mut Seat<Entry, SeatView>,
        start: usize,
        index: usize,
    ) -> u64
        requires seat { IsSeat self.now seat.old }
        requires start { IsStart self.now start }
        requires index { index < 23 }
        ensures seat { IsSeat self.now seat.new }
        ensures read { Reads (start + index) (pass_view seat.old) result (pass_view seat.new) }
    {
        let word = start + index;
        // The cell may be another entry's already: the name is loaded once more after this.
        self.table.load::<ReadWord>(seat, word)
    }

    /// Stores `name`, that of the entry that the pass is to append, into the own cell, which begins at the word
    /// `start`.
    pub(crate) fn store_name(&self, seat: &mut Seat<Entry, SeatView>, start: usize, name: u64)
        requires seat { IsSeat self.now seat.old }
        requires start { IsStart self.now start }
        requires own { start ≡ own_cell (pass_view seat.old) }
        requires name { name ≡ own_name (pass_view seat.old) }
        ensures seat { IsSeat self.now seat.new }
        ensures stored { pass_view seat.new ≡ stored (pass_view seat.old) 0 name }
    {
        // The last entry that had the own cell, if there is one, is at least a whole turn back, and no other pass
        // stores in this column.
        self.table.store::<DraftWord>(seat, start, name)
    }

    /// Loads the word at `index`, 1 or more, of the own cell, which begins at `start`, and returns it. From then on the
    /// pass relies on that word as if it had stored it.
    fn find_word(&self, seat: &mut Seat<Entry, SeatView>, start: usize, index: usize) -> u64
        requires seat { IsSeat self.now seat.old }
        requires start { IsStart self.now start }
        requires own { start ≡ own_cell (pass_view seat.old) }
        requires turn { (pass_view seat.old).turn ≡ Without }
        requires behind { 0 < index }
        requires along { index ≤ length (pass_view seat.old).draft }
        requires index { index < 23 }
        ensures seat { IsSeat self.now seat.new }
        ensures found { pass_view seat.new ≡ stored (pass_view seat.old) index result }
    {
        let word = start + index;
        // No other pass stores in this column, so what is found stays until this pass stores there.
        self.table.load::<FindWord>(seat, word)
    }

    /// Makes the word at `index`, 1 or more, of the own cell, which begins at `start`, the number `new`. If that is
    /// there already, it isn't stored again, since a load costs much less than a store.
    pub(crate) fn put_word(
        &self,
        seat: &mut Seat<Entry, SeatView>,
        start: usize,
        index: usize,
        new: u64,
    )
        requires seat { IsSeat self.now seat.old }
        requires start { IsStart self.now start }
        requires own { start ≡ own_cell (pass_view seat.old) }
        requires turn { (pass_view seat.old).turn ≡ Without }
        requires behind { 0 < index }
        requires along { index ≤ length (pass_view seat.old).draft }
        requires index { index < 23 }
        ensures seat { IsSeat self.now seat.new }
        ensures put { pass_view seat.new ≡ stored (pass_view seat.old) index new }
    {
        // A word that is there already isn't stored again: a load leaves the line of memory shared, a store takes it
        // away.
        if self.find_word(seat, start, index) == new {
            return;
        }
        self.store_word(seat, start, index, new);
    }

    /// Stores `new` as a word of the own cell, which begins at `start`. At `index` 1 it is the link, and then come the
    /// entry's words. The name, at 0, is there already.
    pub(crate) fn store_word(
        &self,
        seat: &mut Seat<Entry, SeatView>,
        start: usize,
        index: usize,
        new: u64,
    )
        requires seat { IsSeat self.now seat.old }
        requires start { IsStart self.now start }
        requires own { start ≡ own_cell (pass_view seat.old) }
        requires turn { (pass_view seat.old).turn ≡ Without }
        requires behind { 0 < index }
        requires along { index ≤ length (pass_view seat.old).draft }
        requires index { index < 23 }
        ensures seat { IsSeat self.now seat.new }
        ensures stored { pass_view seat.new ≡ stored (pass_view seat.old) index new }
    {
        let word = start + index;
        // The own name is in the cell, the history doesn't have it yet, and no other pass stores in this column.
        self.table.store::<DraftWord>(seat, word, new)
    }

    /// Makes the own entry, of the name `own`, the newest, if the one that was seen last, of the name `old`, still is.
    /// Returns the name that was the newest: the exchange is won if that is `old`. `entry` is what the own cell has;
    /// only the proof needs it.
    pub(crate) fn exchange(
        &self,
        seat: &mut Seat<Entry, SeatView>,
        old: u64,
        own: u64,
        entry: &Entry,
    ) -> u64
        requires seat { IsSeat self.now seat.old }
        requires room { length (pass_view seat.old).known.seen < (pass_view seat.old).capacity }
        requires old { old ≡ newest_of (pass_view seat.old).sessions (pass_view seat.old).known.seen }
        requires own { own ≡ own_name (pass_view seat.old) }
        requires entry { entry.now.session ≡ (pass_view seat.old).known.number }
        requires turn { (pass_view seat.old).turn ≡ Without }
        requires whole { (pass_view seat.old).draft ≡ own ∷ old ∷ words_of entry.now }
        ensures seat { IsSeat self.now seat.new }
        ensures won { result ≡ old → pass_view seat.new ≡ won (pass_view seat.old) entry.now }
        ensures named { result ≡ old → own ≡ newest_of (pass_view seat.new).sessions (pass_view seat.new).known.seen }
        ensures lost { result ≢ old
            → (seen : List Entry)
            × (pass_view seat.new ≡ lost (pass_view seat.old) seen)
            × (result ≡ newest_of (pass_view seat.old).sessions seen)
            × HistoryIs (pass_view seat.old) seen
            × (length (pass_view seat.old).known.seen < length seen) }
    {
        // The proof needs `IsEntry` of the entry, which the contract of this call gives.
        let _session = entry.session();
        // The exchange itself tests whether `old` is still the newest, and with it whether all that was seen is the
        // history.
        self.table
            .compare_exchange_with::<Publish>(seat, NEWEST, old, own, entry)
    }
}
