//! The steps of one pass: a load, a store and exchanges. The transition `M` says what the pass learns by the step.
ghost use mathlib.Core.Option.{none, some};
ghost use prog.Atomic.{either};
ghost use Rattle.std.specs.Prelude.{◌≡◌, ◌<◌, ◌==◌};
ghost use Rattle.atomic_table.specs.Table.{Allows};
ghost use Rattle.decision_log.specs.{Atomic.{Load, Store, Exchange, Tells, Counts}, Seats.{pass_view, seated}};

use super::LogTable;
use super::transitions::{Exchanged, Loaded, Stored};
use crate::{LogTransition, LogWords, SeatView};
use atomic_table::Seat;
use xa_words::Entry;

impl<R: LogWords> LogTable<R> {
    /// Loads a word at the seat of one pass, and returns it. `M` says what the pass learns.
    ///
    /// Takes no memory. Doesn't wait.
    pub fn load<M: LogTransition<R>>(&self, seat: &mut Seat<Entry, SeatView>, word: usize) -> u64
        requires table { seat.old.table_id ≡ self.now.inner.shared.table_id }
        requires held { seat.old.me ≡ seated (pass_view seat.old) }
        requires word { word < self.now.inner.shared.table_id.words }
        requires allowed { Allows (R.holds self.now.inner.shared.key) self.now.inner.shared.table_id.slots seat.old.id
            (seated (pass_view seat.old)) word
            (λ n. n) (Tells (M.then (Load word) (pass_view seat.old))) }
        ensures table { seat.new.table_id ≡ seat.old.table_id }
        ensures held { seat.new.me ≡ seated (pass_view seat.new) }
        ensures told { M.then (Load word) (pass_view seat.old) result (pass_view seat.new) }
        // Proved (log, counts): `looks` rises by one at a load of word 0 by which the pass sees the
        //   history, `tries` by one at an exchange of the word at which passes try, and neither by any
        //   other step. This holds whatever else the pass learns.
        ensures counted { Counts R.newest R.tried (Load word) result (pass_view seat.old) (pass_view seat.new) }
    {
        // Comments at the log's own steps say why earlier loads still hold.
        self.inner.shared.load::<Loaded<R, M>>(seat, word)
    }

    /// Stores `new` into a word at the seat of one pass. `M` says what the pass learns.
    ///
    /// Takes no memory. Doesn't wait.
    pub fn store<M: LogTransition<R>>(
        &self,
        seat: &mut Seat<Entry, SeatView>,
        word: usize,
        new: u64,
    )
        requires table { seat.old.table_id ≡ self.now.inner.shared.table_id }
        requires held { seat.old.me ≡ seated (pass_view seat.old) }
        requires word { word < self.now.inner.shared.table_id.words }
        requires allowed { Allows (R.holds self.now.inner.shared.key) self.now.inner.shared.table_id.slots seat.old.id
            (seated (pass_view seat.old)) word
            (λ n. new) (λ n. Tells (M.then (Store word new) (pass_view seat.old)) new) }
        ensures table { seat.new.table_id ≡ seat.old.table_id }
        ensures held { seat.new.me ≡ seated (pass_view seat.new) }
        ensures told { M.then (Store word new) (pass_view seat.old) new (pass_view seat.new) }
        // Proved (log, counts)
        ensures counted { Counts R.newest R.tried (Store word new) new (pass_view seat.old) (pass_view seat.new) }
    {
        // Comments at the log's own steps say why earlier loads still hold.
        self.inner.shared.store::<Stored<R, M>>(seat, word, new)
    }

    /// Makes a word `new` if it is `old`. Returns what it was: the exchange is won if that is `old`.
    ///
    /// Takes no memory. Doesn't wait.
    pub fn compare_exchange<M: LogTransition<R>>(
        &self,
        seat: &mut Seat<Entry, SeatView>,
        word: usize,
        old: u64,
        new: u64,
    ) -> u64
        requires table { seat.old.table_id ≡ self.now.inner.shared.table_id }
        requires held { seat.old.me ≡ seated (pass_view seat.old) }
        requires word { word < self.now.inner.shared.table_id.words }
        requires allowed { Allows (R.holds self.now.inner.shared.key) self.now.inner.shared.table_id.slots seat.old.id
            (seated (pass_view seat.old)) word
            (λ n. either (n == old) new n) (Tells (M.then (Exchange word old new none) (pass_view seat.old))) }
        ensures table { seat.new.table_id ≡ seat.old.table_id }
        ensures held { seat.new.me ≡ seated (pass_view seat.new) }
        ensures told { M.then (Exchange word old new none) (pass_view seat.old) result (pass_view seat.new) }
        // Proved (log, counts)
        ensures counted { Counts R.newest R.tried (Exchange word old new none) result (pass_view seat.old)
            (pass_view seat.new) }
    {
        // Comments at the log's own steps say why earlier loads still hold.
        self.inner
            .shared
            .compare_exchange::<Exchanged<R, M>>(seat, word, old, new)
    }

    /// Exchanges a word as `compare_exchange` does. It also names the entry `said` that is announced by the exchange,
    /// for the proof only.
    ///
    /// Takes no memory. Doesn't wait.
    pub fn compare_exchange_with<M: LogTransition<R>>(
        &self,
        seat: &mut Seat<Entry, SeatView>,
        word: usize,
        old: u64,
        new: u64,
        said: &Entry,
    ) -> u64
        requires table { seat.old.table_id ≡ self.now.inner.shared.table_id }
        requires held { seat.old.me ≡ seated (pass_view seat.old) }
        requires word { word < self.now.inner.shared.table_id.words }
        requires allowed { Allows (R.holds self.now.inner.shared.key) self.now.inner.shared.table_id.slots seat.old.id
            (seated (pass_view seat.old)) word
            (λ n. either (n == old) new n) (Tells (M.then (Exchange word old new (some said.now))
            (pass_view seat.old))) }
        ensures table { seat.new.table_id ≡ seat.old.table_id }
        ensures held { seat.new.me ≡ seated (pass_view seat.new) }
        ensures told { M.then (Exchange word old new (some said.now)) (pass_view seat.old) result (pass_view seat.new) }
        // Proved (log, counts)
        ensures counted { Counts R.newest R.tried (Exchange word old new (some said.now)) result (pass_view seat.old)
            (pass_view seat.new) }
    {
        // Comments at the log's own steps say why earlier loads still hold.
        self.inner
            .shared
            .compare_exchange_with::<Exchanged<R, M>>(seat, word, old, new, said)
    }
}
