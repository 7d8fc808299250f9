//! The cells, read and written.
ghost use Rattle.std.specs.Prelude.{◌≡◌, ◌<◌, ◌≤◌, ◌+◌, ℕ, ◌∷◌, length, slice_get, slice_index, Some, IfSome, IfNone};
ghost use Rattle.xa_words.specs.{Entry.{Entry, IsEntry}, Words.words_of};
ghost use Rattle.decision_log.specs.{declared.view.Turn.TheVariants.Won, Seats.pass_view};
ghost use Rattle.chain_log.specs.{Cells.{name_at, session_at, name_before}, Places.{rows_of, cell_of}};
ghost use Rattle.chain_log.specs.RingRule.{own_name, own_cell, watched_word, least};
ghost use Rattle.chain_log.specs.RingTransitions.{KeepsWatch, with_words};
ghost use Rattle.chain_log.specs.RingSeat.{IsSeat, IsStart, KeepsPass, ReadsCell};

use crate::RingLog;
use crate::ring_layout::words_filled;
use atomic_table::Seat;
use decision_log::SeatView;
use xa_words::{Entry, WORDS, encode, read_back};

impl RingLog {
    /// Loads the words of an entry from index `from` up to but not including `end` into `words`, whose others stay.
    /// They are in the cell that begins at the word `start`. If the name of an entry that was seen is in the cell
    /// before this call and afterwards, they all are that entry's; else they may be any words. If `end` isn't above
    /// `from`, nothing is loaded.
    fn read_words(
        &self,
        seat: &mut Seat<Entry, SeatView>,
        start: usize,
        from: usize,
        end: usize,
        words: &mut [u64; WORDS],
    )
        requires seat { IsSeat self.now seat.old }
        requires start { IsStart self.now start }
        requires end { end ≤ 21 }
        requires sized { length words.old ≡ 21 }
        ensures seat { IsSeat self.now seat.new }
        ensures sized { length words.new ≡ 21 }
        ensures keeps { KeepsWatch (pass_view seat.old) (pass_view seat.new) }
        ensures below { (index : ℕ) → index < from → slice_index words.new index ≡ slice_index words.old index }
        ensures above { (index : ℕ) → end ≤ index → slice_index words.new index ≡ slice_index words.old index }
        ensures read { (place : ℕ) (entry : Entry)
            → ReadsCell start place entry (pass_view seat.old)
            → (pass_view seat.new).turn ≡ Won
            → (index : ℕ)
            → from ≤ index
            → index < end
            → IsEntry entry × (slice_index words.new index ≡ slice_index (words_of entry) index) }
    {
        // Words 0 and 1 of a cell are its entry's name and the link.
        for index in from..end {
            words[index] = self.load_word(seat, start, 2 + index);
        }
    }

    /// Returns the entry's words in the cell that begins at the word `start`. They may be any words if the cell is used
    /// again meanwhile: the caller tests its name before and after. A word after the end of its text is 0, and isn't
    /// loaded, since most texts are short.
    fn read_cell(&self, seat: &mut Seat<Entry, SeatView>, start: usize) -> [u64; WORDS]
        requires seat { IsSeat self.now seat.old }
        requires start { IsStart self.now start }
        ensures seat { IsSeat self.now seat.new }
        ensures keeps { KeepsWatch (pass_view seat.old) (pass_view seat.new) }
        ensures read { (place : ℕ) (entry : Entry)
            → ReadsCell start place entry (pass_view seat.old)
            → (pass_view seat.new).turn ≡ Won
            → IsEntry entry × (result ≡ words_of entry) }
    {
        let mut words = [0; WORDS];
        // An entry's words 0 to 4 are its session, kind, both lengths and formatID. The first text is in the words 5 to
        // 12, the second in 13 to 20.
        self.read_words(seat, start, 0, 5, &mut words);
        // Words 2 and 3 are the texts' lengths. If the cell is written meanwhile, they may be any numbers.
        let first = 5 + words_filled(words[2]);
        self.read_words(seat, start, 5, first, &mut words);
        let second = 13 + words_filled(words[3]);
        self.read_words(seat, start, 13, second, &mut words);
        words
    }

    /// Returns the entry of a place that was seen, or `None` if its cell is another entry's now. `start` is the first
    /// word of the cell, `name` the entry's name. Only the contract needs the place.
    pub(crate) fn read_entry(
        &self,
        seat: &mut Seat<Entry, SeatView>,
        start: usize,
        name: u64,
        place: u64,
    ) -> Option<Entry>
        requires seat { IsSeat self.now seat.old }
        requires start { IsStart self.now start }
        requires seen { place < length (pass_view seat.old).known.seen }
        requires cell { start
            ≡ cell_of (pass_view seat.old).capacity place (session_at (pass_view seat.old).known.seen place) }
        requires name { name ≡ name_at (pass_view seat.old).sessions place
            (session_at (pass_view seat.old).known.seen place) }
        ensures seat { IsSeat self.now seat.new }
        ensures keeps { KeepsPass (pass_view seat.old) (pass_view seat.new) }
        ensures some { IfSome result (λ entry. slice_get (pass_view seat.old).known.seen place ≡ Some entry) }
        ensures none { IfNone result (place + rows_of (pass_view seat.old).capacity ≤ least (pass_view seat.new)) }
    {
        // The cell was used again already.
        if self.check_name(seat, start) != name {
            return None;
        }
        let words = self.read_cell(seat, start);
        // Others may have used the cell again since: the words count only if its name is still the entry's.
        if self.check_name(seat, start) != name {
            return None;
        }
        // The words are those of an entry of the history, so `read_back` finds one, and doesn't return `None`.
        read_back(&words)
    }

    /// Returns the link in the cell of a place that was seen, or `None` if the cell is another entry's now. The link is
    /// the name of the entry before, or 0 at place 0. `start` is the first word of the cell, `name` the name of the
    /// place's entry. Only the contract needs the place.
    pub(crate) fn read_link(
        &self,
        seat: &mut Seat<Entry, SeatView>,
        start: usize,
        name: u64,
        place: u64,
    ) -> Option<u64>
        requires seat { IsSeat self.now seat.old }
        requires start { IsStart self.now start }
        requires seen { place < length (pass_view seat.old).known.seen }
        requires cell { start
            ≡ cell_of (pass_view seat.old).capacity place (session_at (pass_view seat.old).known.seen place) }
        requires name { name ≡ name_at (pass_view seat.old).sessions place
            (session_at (pass_view seat.old).known.seen place) }
        ensures seat { IsSeat self.now seat.new }
        ensures keeps { KeepsPass (pass_view seat.old) (pass_view seat.new) }
        ensures some { IfSome result (λ link. link ≡ name_before (pass_view seat.old).sessions
            (pass_view seat.old).known.seen place) }
        ensures none { IfNone result (place + rows_of (pass_view seat.old).capacity ≤ least (pass_view seat.new)) }
    {
        // The cell was used again already.
        if self.check_name(seat, start) != name {
            return None;
        }
        let link = self.load_word(seat, start, 1);
        // Others may have used the cell again since: the link counts only if the name is still the entry's.
        if self.check_name(seat, start) != name {
            return None;
        }
        Some(link)
    }

    /// Writes a name, a link and an entry's words into the own cell, over what was there before. `start` is the cell's
    /// first word, `name` the name that the entry will have, `link` the name of the last entry seen, or 0.
    pub(crate) fn write_cell(
        &self,
        seat: &mut Seat<Entry, SeatView>,
        start: usize,
        name: u64,
        link: u64,
        entry: &Entry,
    )
        requires seat { IsSeat self.now seat.old }
        requires start { IsStart self.now start }
        requires own { start ≡ own_cell (pass_view seat.old) }
        requires name { name ≡ own_name (pass_view seat.old) }
        ensures seat { IsSeat self.now seat.new }
        ensures written { pass_view seat.new ≡ with_words (pass_view seat.old) (name ∷ link ∷ words_of entry.now) }
    {
        // The name goes first. Readers load it before and after the words, so they never take a new word for the old
        // entry's.
        self.store_name(seat, start, name);
        self.store_word(seat, start, 1, link);
        let words = encode(entry);
        for index in 0..WORDS {
            self.put_word(seat, start, 2 + index, words[index]);
        }
    }
}
