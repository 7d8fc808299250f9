//! The steps that split and join seats, and the step of two passes that meet. They leave the passes' counts.
ghost use Rattle.std.specs.Prelude.{◌≡◌, ◌<◌, ◌≤◌, List, length};
ghost use Rattle.xa_words.specs.Entry.{Entry};
ghost use Rattle.decision_log.specs.AtTable.{KeepsSeats, KnowsNone, KnowsOne, KnowsTwo, KnowsRest};
ghost use Rattle.decision_log.specs.{Observed.{met, MetAt}, Seats.{following, pass_view, second}};

use super::LogTable;
use super::transitions::Met;
use crate::{LogWords, SeatView, Seating};
use atomic_table::Seat;
use xa_words::Entry;

impl<R: LogWords> LogTable<R> {
    /// Splits a seat with one pass into itself and a seat that knows no pass, which it returns.
    ///
    /// Takes no memory. Doesn't wait.
    pub fn split_empty(&self, seat: &mut Seat<Entry, SeatView>) -> Seat<Entry, SeatView>
        requires rule { KeepsSeats R.holds R.newest }
        requires seat { KnowsOne self.now.inner.shared.table_id seat.old }
        ensures seat { KnowsOne self.now.inner.shared.table_id seat.new }
        ensures same { pass_view seat.new ≡ pass_view seat.old }
        ensures empty { KnowsNone self.now.inner.shared.table_id result }
    {
        // No word is touched: what the seat knows stays true.
        self.inner.shared.split_seat::<Seating>(seat)
    }

    /// Joins two seats with a pass each. The first then knows both passes, and the other seat is used up.
    ///
    /// Takes no memory. Doesn't wait.
    pub fn join(&self, seat: &mut Seat<Entry, SeatView>, other: Seat<Entry, SeatView>)
        requires rule { KeepsSeats R.holds R.newest }
        requires seat { KnowsOne self.now.inner.shared.table_id seat.old }
        requires other { KnowsOne self.now.inner.shared.table_id other }
        ensures seat { KnowsTwo self.now.inner.shared.table_id seat.new }
        ensures first { pass_view seat.new ≡ pass_view seat.old }
        ensures second { second seat.new ≡ pass_view other }
    {
        // No word is touched: each pass knows what it knew.
        self.inner.shared.join_seat::<Seating>(seat, other);
    }

    /// Loads word 0 at a seat with two passes, and returns it. The first pass stays as it was. The second has then seen
    /// all that the first has. If it had seen less, the word is the one that stands for what it has seen now
    /// (`R.newest`).
    ///
    /// Takes no memory. Doesn't wait.
    pub fn load_for_pair(&self, seat: &mut Seat<Entry, SeatView>) -> u64
        requires rule { KeepsSeats R.holds R.newest }
        requires seat { KnowsTwo self.now.inner.shared.table_id seat.old }
        ensures seat { KnowsTwo self.now.inner.shared.table_id seat.new }
        ensures first { pass_view seat.new ≡ pass_view seat.old }
        ensures met { (seen : List Entry)
            × (second seat.new ≡ met (second seat.old) seen)
            × (length (second seat.old).known.seen < length (pass_view seat.old).known.seen
            → result ≡ R.newest (met (second seat.old) seen))
            × MetAt (pass_view seat.old) (second seat.old) seen }
    {
        // Both passes have seen prefixes of one history, which only grew since.
        self.inner.shared.load::<Met<R>>(seat, 0)
    }

    /// Splits a seat with two passes; the new seat has the second.
    ///
    /// Takes no memory. Doesn't wait.
    pub fn split(&self, seat: &mut Seat<Entry, SeatView>) -> Seat<Entry, SeatView>
        requires rule { KeepsSeats R.holds R.newest }
        requires seat { KnowsTwo self.now.inner.shared.table_id seat.old }
        ensures seat { KnowsOne self.now.inner.shared.table_id seat.new }
        ensures first { pass_view seat.new ≡ pass_view seat.old }
        ensures other { KnowsOne self.now.inner.shared.table_id result }
        ensures second { pass_view result ≡ second seat.old }
    {
        // No word is touched: what the seat knows stays true.
        self.inner.shared.split_seat::<Seating>(seat)
    }

    /// Issues the next pass: splits its seat off from the seat that knows the passes not yet issued, and returns it.
    ///
    /// Takes no memory. Doesn't wait.
    pub fn issue(&self, seat: &mut Seat<Entry, SeatView>) -> Seat<Entry, SeatView>
        requires rule { KeepsSeats R.holds R.newest }
        requires seat { KnowsRest self.now.inner.shared.table_id seat.old }
        requires left { (pass_view seat.old).known.number ≤ (pass_view seat.old).sessions }
        ensures seat { KnowsRest self.now.inner.shared.table_id seat.new }
        ensures rest { pass_view seat.new ≡ following (pass_view seat.old) }
        ensures pass { KnowsOne self.now.inner.shared.table_id result }
        ensures given { pass_view result ≡ pass_view seat.old }
    {
        // No word is touched: what the seat knows stays true.
        self.inner.shared.split_seat::<Seating>(seat)
    }

    /// Lets two passes meet, and returns word 0. The first pass stays as it was. The second has then seen all that the
    /// first has. If it had seen less, the word is the one that stands for what it has seen now (`R.newest`).
    ///
    /// Takes no memory. Doesn't wait.
    pub fn meet(&self, first: &mut Seat<Entry, SeatView>, second: &mut Seat<Entry, SeatView>) -> u64
        requires rule { KeepsSeats R.holds R.newest }
        requires first { KnowsOne self.now.inner.shared.table_id first.old }
        requires second { KnowsOne self.now.inner.shared.table_id second.old }
        ensures first { KnowsOne self.now.inner.shared.table_id first.new }
        ensures second { KnowsOne self.now.inner.shared.table_id second.new }
        ensures same { pass_view first.new ≡ pass_view first.old }
        ensures met { (seen : List Entry)
            × (pass_view second.new ≡ met (pass_view second.old) seen)
            × (length (pass_view second.old).known.seen < length (pass_view first.old).known.seen
            → result ≡ R.newest (met (pass_view second.old) seen))
            × MetAt (pass_view first.old) (pass_view second.old) seen }
    {
        // Word 0 is loaded at one seat that knows both passes. While the second pass is there, an empty seat stands in
        // for its own.
        let empty = self.split_empty(first);
        let other = std::mem::replace(second, empty);
        self.join(first, other);
        let found = self.load_for_pair(first);
        *second = self.split(first);
        found
    }
}
