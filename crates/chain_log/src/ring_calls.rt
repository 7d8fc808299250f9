//! What a session does with a ring by its pass.
ghost use Rattle.std.specs.Prelude.{◌≡◌, ◌<◌, ◌≤◌, ◌+◌, false, length, slice_get, Some, IfSome, IfNone, IsTrue};
ghost use Rattle.std.specs.Prelude.{MatchBool};
ghost use Rattle.decision_log.specs.{Opens.IsCount, Calls.{Looked, Adds, MeetsFirst, MeetsSecond}, Seats.pass_view};
ghost use Rattle.chain_log.specs.{Tries.TriesOnce, Places.most, RingOpens.AreRows};
ghost use Rattle.chain_log.specs.{RingPass.{identity_of, log_of, known_of, least_of}, RingSeat.IsSeat};

use crate::ring_layout::{count_from, entry_name, place_count};
use crate::{RingLog, RingPass};
use atomic_table::Seat;
use decision_log::{AddFault, SeatView};
use xa_words::Entry;
use xa_xid::SessionNo;

impl RingLog {
    /// Returns how many rows of cells the ring has, in `[1, 65536]`.
    ///
    /// An entry can be read while, from its place on, the history has fewer entries than there are rows. Takes no
    /// memory. Doesn't wait.
    /// Own rule: docs/INTERNALS.md#the-ring.
    pub fn rows(&self) -> u64
        ensures value { result ≡ self.now.rows }
        ensures range { AreRows result }
    {
        self.rows
    }

    /// Returns how many sessions the log has, in `[1, 16]`, without its spares.
    ///
    /// Takes no memory. Doesn't wait.
    /// Own rule: docs/INTERNALS.md#the-ring.
    pub fn sessions(&self) -> u64
        ensures value { result ≡ self.now.sessions }
        ensures range { IsCount result }
    {
        self.sessions
    }

    /// Returns how many entries the log can have: 2^59 and as many more as it has rows.
    ///
    /// Takes no memory. Doesn't wait.
    /// Own rule: docs/INTERNALS.md#the-ring.
    pub fn capacity(&self) -> u64
        ensures value { result ≡ (identity_of self.now).capacity }
        ensures range { result ≡ most + self.now.rows }
    {
        self.capacity
    }

    /// Returns the pass's session number.
    ///
    /// Takes no memory. Doesn't wait.
    /// Own rule: docs/INTERNALS.md#what-a-log-promises.
    pub fn number(&self, pass: &RingPass) -> SessionNo
        requires { log_of pass.now ≡ identity_of self.now }
        // Proved (log, ring-entry)
        ensures { result ≡ (known_of pass.now).number }
    {
        pass.number
    }

    /// Returns how many entries the pass has seen.
    ///
    /// Takes no memory. Doesn't wait.
    /// Own rule: docs/INTERNALS.md#what-a-log-promises.
    pub fn length(&self, pass: &RingPass) -> u64
        requires { log_of pass.now ≡ identity_of self.now }
        // Proved (log, ring-entry)
        ensures { result ≡ length (known_of pass.now).seen }
    {
        pass.count
    }

    /// Sees the whole history, as it is at one step of the call, and returns its length.
    ///
    /// Takes no memory. Doesn't wait.
    /// Own rule: docs/INTERNALS.md#the-ring.
    pub fn look(&self, pass: &mut RingPass) -> u64
        requires { log_of pass.old ≡ identity_of self.now }
        ensures belongs { log_of pass.new ≡ log_of pass.old }
        // Proved (log, ring-look): What a pass of a ring has seen after a look begins with what it had seen before,
        //   and the look is counted. It is as long as the result, and no shorter than the pass knew the history to be.
        ensures looked { Looked (known_of pass.old) (known_of pass.new) }
        // Proved (log, ring-look)
        ensures least { least_of pass.old ≤ length (known_of pass.new).seen }
        // Proved (log, ring-look)
        ensures length { result ≡ length (known_of pass.new).seen }
    {
        let first = pass.count;
        // The history as it is at this load is what the pass has seen afterwards.
        let newest = self.load_newest(&mut pass.seat);
        let count = count_from(self.columns, pass.newest, first, newest);
        // The table of columns lacks the places that are new: `first` up to `count`.
        pass.low = self.fill(
            &mut pass.seat,
            &mut pass.columns,
            pass.low,
            first,
            count,
            newest,
        );
        pass.newest = newest;
        pass.count = count;
        count
    }

    /// Appends an entry of the pass's own session to the history, if the pass has seen all of it.
    ///
    /// It makes one exchange, and none at `Full`. Errors, in this order: `Full` if the pass has seen as many entries
    /// as the log can have. `Overtaken` if the history had more entries than the pass had seen; the pass has then
    /// seen more. `Busy` is never returned. After an error the history has nothing of this call. Takes no memory.
    /// Doesn't wait.
    /// Own rule: docs/INTERNALS.md#the-ring.
    pub fn try_add(&self, pass: &mut RingPass, entry: &Entry) -> Result<(), AddFault>
        requires belongs { log_of pass.old ≡ identity_of self.now }
        requires own { entry.now.session ≡ (known_of pass.old).number }
        ensures belongs { log_of pass.new ≡ log_of pass.old }
        // Proved (log, ring-append): An append to a ring succeeds only if the entry comes right after all that the
        //   pass had seen, once. `Overtaken` is returned only if the pass has seen more now, `Full` only if it has seen
        //   as much as the log can have, and `Busy` never. After an error `mine` is unchanged.
        ensures added { Adds false (identity_of self.now).capacity entry.now result (known_of pass.old)
            (known_of pass.new) }
        // Proved (log, ring-one-exchange): An append to a ring makes one exchange, and none at `Full`. It counts no
        //   look.
        // Proved (log, ring-append)
        ensures once { TriesOnce result (known_of pass.old) (known_of pass.new) }
    {
        let place = pass.count;
        // The history only grows, so a log that was seen full is still full.
        if place == self.capacity {
            return Err(AddFault::Full);
        }
        let number = pass.number.get();
        let own = entry_name(self.columns, place, number);
        let start = self.start(place, number);
        self.write_cell(&mut pass.seat, start, own, pass.newest, entry);
        // Others may have appended since `pass.newest` was loaded: the exchange tests it.
        let found = self.exchange(&mut pass.seat, pass.newest, own, entry);
        // Another entry was the newest, so nothing was appended.
        if found != pass.newest {
            let front = place_count(self.columns, found);
            pass.low = self.fill(
                &mut pass.seat,
                &mut pass.columns,
                pass.low,
                place,
                front,
                found,
            );
            pass.newest = found;
            pass.count = front;
            return Err(AddFault::Overtaken { front });
        }
        // A session's number is its column. The byte was that of the entry a whole turn back, if there is one. The
        // table still begins at `low`.
        pass.columns[(place % self.rows) as usize] = number as u8;
        pass.newest = own;
        pass.count = place + 1;
        Ok(())
    }

    /// Lets two passes meet: the second has then seen all that the first has.
    ///
    /// Takes no memory. Doesn't wait.
    /// Own rule: docs/INTERNALS.md#the-ring.
    pub fn meet(&self, first: &mut RingPass, second: &mut RingPass)
        requires first { log_of first.old ≡ identity_of self.now }
        requires second { log_of second.old ≡ identity_of self.now }
        ensures belongs { (log_of first.new ≡ log_of first.old) × (log_of second.new ≡ log_of second.old) }
        // Proved (log, ring-meet): After two passes of a ring meet, the second has seen all that the first has. The
        //   entries of the first's number there are the first's own.
        ensures first { MeetsFirst (known_of first.old) (known_of first.new) }
        // Proved (log, ring-meet)
        ensures second { MeetsSecond (known_of first.old) (known_of second.old) (known_of second.new) }
    {
        self.meet_at(&mut first.seat, first.count, second);
    }

    /// Lets the pass `second` meet the pass or the spare at the seat `first`, which has seen `front` entries and
    /// stays as it is.
    ///
    /// `second` has then seen all of these. Takes no memory. Doesn't wait.
    pub(crate) fn meet_at(
        &self,
        first: &mut Seat<Entry, SeatView>,
        front: u64,
        second: &mut RingPass,
    )
        requires first { IsSeat self.now first.old }
        requires front { front ≡ length (pass_view first.old).known.seen }
        requires second { log_of second.old ≡ identity_of self.now }
        ensures first { IsSeat self.now first.new }
        ensures same { pass_view first.new ≡ pass_view first.old }
        ensures belongs { log_of second.new ≡ log_of second.old }
        ensures second { MeetsSecond (pass_view first.old).known (known_of second.old) (known_of second.new) }
    {
        let newest = self.table.meet(first, &mut second.seat);
        let unseen = second.count;
        // Else `second` has seen at least as much already, and stays as it is.
        if unseen < front {
            // `newest` was loaded at a seat that knows both passes, so what the second has seen ends there.
            let count = place_count(self.columns, newest);
            second.low = self.fill(
                &mut second.seat,
                &mut second.columns,
                second.low,
                unseen,
                count,
                newest,
            );
            second.newest = newest;
            second.count = count;
        }
    }

    /// Returns the entry at place `at`, in `[0, length)`, or `None` if it is lost: its cell is another entry's now, or
    /// the pass can't learn any more in which column it is.
    ///
    /// `None` is returned only if the history has at least `at + rows` entries. The pass then knows so (`least_of`).
    /// What it has seen is unchanged. Takes no memory. Doesn't wait.
    /// Own rule: docs/INTERNALS.md#the-ring.
    pub fn entry(&self, pass: &mut RingPass, at: u64) -> Option<Entry>
        requires belongs { log_of pass.old ≡ identity_of self.now }
        requires seen { at < length (known_of pass.old).seen }
        ensures belongs { log_of pass.new ≡ log_of pass.old }
        // Proved (log, ring-entry): If a ring returns an entry, it is the one at that place of what the pass has seen.
        //   Nothing that the pass has seen or counted changes. A pass also returns its number, and how many entries
        //   it has seen.
        ensures same { known_of pass.new ≡ known_of pass.old }
        // Proved (log, ring-entry)
        ensures some { IfSome result (λ entry. slice_get (known_of pass.old).seen at ≡ Some entry) }
        // Proved (log, ring-lost-entries): An entry of a ring is lost only if from its place on the history has at
        //   least as many entries as the ring has rows.
        ensures none { IfNone result (at + self.now.rows ≤ least_of pass.new) }
    {
        // The table has one byte for each row, and this row's is a later entry's.
        if at + self.rows < pass.count {
            return None;
        }
        // A link between the places that the table has and this one was lost, and so is the entry.
        if !self.reach(pass, at) {
            return None;
        }
        let session = self.column(pass, at);
        let name = entry_name(self.columns, at, session);
        let start = self.start(at, session);
        self.read_entry(&mut pass.seat, start, name, at)
    }

    /// Fills the table of a pass back to the place `at`, as far as links aren't lost. Returns whether the table then
    /// has the place. If not, a link on the way is lost, so the pass can't learn in which column the entry at `at` is.
    /// The history has at least `at` + rows entries then.
    fn reach(&self, pass: &mut RingPass, at: u64) -> bool
        requires belongs { log_of pass.old ≡ identity_of self.now }
        requires seen { at < length (known_of pass.old).seen }
        requires window { length (known_of pass.old).seen ≤ at + self.now.rows }
        ensures belongs { log_of pass.new ≡ log_of pass.old }
        ensures same { known_of pass.new ≡ known_of pass.old }
        ensures reached { MatchBool result (pass.new.low ≤ at) (at + self.now.rows ≤ least_of pass.new) }
    {
        let low = pass.low;
        // The table has the place already.
        if low <= at {
            return true;
        }
        // The walk begins at `low`, the lowest place that the table has.
        let session = self.column(pass, low);
        let name = entry_name(self.columns, low, session);
        pass.low = self.walk(&mut pass.seat, &mut pass.columns, low, name, at);
        pass.low <= at
    }
}
