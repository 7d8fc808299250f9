//! The table of columns. It gives the column of the cell of each of the last entries that a pass has seen.
ghost use Rattle.std.specs.Prelude.{◌≡◌, ◌<◌, ◌≤◌, ◌+◌, ◌%◌, ℕ, List, IsTrue, length, slice_index};
ghost use Rattle.xa_words.specs.Entry.{Entry};
ghost use Rattle.decision_log.specs.{Known.AllOf, Seats.pass_view};
ghost use Rattle.chain_log.specs.{Cells.{name_at, session_at, newest_of}, RingRule.least};
ghost use Rattle.chain_log.specs.RingPass.{identity_of, log_of, known_of, least_of};
ghost use Rattle.chain_log.specs.{RingSeat.{IsSeat, IsOurs, KeepsPass}, Windows.HasWindow};

use crate::ring_layout::{entry_name, name_column};
use crate::{RingLog, RingPass};
use atomic_table::Seat;
use decision_log::SeatView;
use xa_words::Entry;

/// How many new places `fill` fills at most; of more, it fills the newest alone. Each takes loads of a cell that may
/// be far, and a session that goes on from a checkpoint never needs the places below the checkpoint. The number bounds
/// only the work that is done at once: `reach` fills what is read later.
const MOST_FILLED: u64 = 64;

impl RingLog {
    /// Returns the session of the entry at `place`, which the table of the pass has.
    pub(crate) fn column(&self, pass: &RingPass, place: u64) -> u64
        requires belongs { log_of pass.now ≡ identity_of self.now }
        requires low { pass.now.low ≤ place }
        requires seen { place < length (known_of pass.now).seen }
        requires window { length (known_of pass.now).seen ≤ place + self.now.rows }
        ensures value { result ≡ session_at (known_of pass.now).seen place }
        ensures first { 1 ≤ result }
        ensures last { result ≤ self.now.columns }
    {
        u64::from(pass.columns[(place % self.rows) as usize])
    }

    /// Fills the table from `top`, a place that it has, back to `stop`, along the links. `newest` is the name of the
    /// entry at `top`. Returns the place from which on the table has the columns. This is `stop`, or a higher place
    /// whose entry's cell is another entry's now, so that the link to the place before it is lost.
    pub(crate) fn walk(
        &self,
        seat: &mut Seat<Entry, SeatView>,
        columns: &mut Vec<u8>,
        top: u64,
        newest: u64,
        stop: u64,
    ) -> u64
        requires seat { IsSeat self.now seat.old }
        requires ours { IsOurs self.now (pass_view seat.old) }
        requires top { top < length (pass_view seat.old).known.seen }
        requires newest { newest ≡ name_at self.now.columns top (session_at (pass_view seat.old).known.seen top) }
        requires stop { stop ≤ top }
        requires window { length (pass_view seat.old).known.seen ≤ stop + self.now.rows }
        requires kept { HasWindow self.now.rows top (length (pass_view seat.old).known.seen)
            (pass_view seat.old).known.seen columns.old.items }
        ensures seat { IsSeat self.now seat.new }
        ensures keeps { KeepsPass (pass_view seat.old) (pass_view seat.new) }
        ensures low { stop ≤ result }
        ensures high { result ≤ top }
        ensures kept { HasWindow self.now.rows result (length (pass_view seat.old).known.seen)
            (pass_view seat.old).known.seen columns.new.items }
        ensures beside { (place : ℕ)
            → place < stop
            → length (pass_view seat.old).known.seen ≤ place + self.now.rows
            → slice_index columns.new.items (place % self.now.rows)
            ≡ slice_index columns.old.items (place % self.now.rows) }
        ensures behind { stop < result → result + self.now.rows ≤ least (pass_view seat.new) }
    {
        let mut name = newest;
        for place in (stop..top).rev() {
            // `name` is that of the entry at `place + 1`. The link in its cell names the entry at `place`.
            let session = u64::from(name_column(self.columns, name));
            let start = self.start(place + 1, session);
            match self.read_link(seat, start, name, place + 1) {
                Some(link) => {
                    columns[(place % self.rows) as usize] = name_column(self.columns, link);
                    name = link;
                }
                // The cell of `place + 1` was used again, so the way down ends here.
                None => return place + 1,
            }
        }
        stop
    }

    /// Brings the table up to date after the pass has seen more: `first` entries before, `count` now. `newest` is the
    /// name of the last one. Before, the table has the columns of the places from `low` on, as far as its rows reach.
    ///
    /// The places from `first` up to but not including `count` are new. They are filled from the last one back along
    /// the links, as far as the table's rows reach, or until a link is lost. If more than `MOST_FILLED` are new, only
    /// the last one is filled. Returns the place from which on the table then has the columns, as far as its rows
    /// reach.
    pub(crate) fn fill(
        &self,
        seat: &mut Seat<Entry, SeatView>,
        columns: &mut Vec<u8>,
        low: u64,
        first: u64,
        count: u64,
        newest: u64,
    ) -> u64
        requires seat { IsSeat self.now seat.old }
        requires ours { IsOurs self.now (pass_view seat.old) }
        requires newest { newest ≡ newest_of (pass_view seat.old).sessions (pass_view seat.old).known.seen }
        requires count { count ≡ length (pass_view seat.old).known.seen }
        requires first { first ≤ count }
        requires bottom { 0 < low → low < first }
        requires kept { HasWindow self.now.rows low first (pass_view seat.old).known.seen columns.old.items }
        ensures seat { IsSeat self.now seat.new }
        ensures keeps { KeepsPass (pass_view seat.old) (pass_view seat.new) }
        ensures bottom { 0 < result → result < count }
        ensures kept { HasWindow self.now.rows result count (pass_view seat.old).known.seen columns.new.items }
    {
        // Nothing is new, so the table begins where it began.
        if count <= first {
            return low;
        }
        // The name of an entry tells its column, so the last place needs no link.
        let top = count - 1;
        columns[(top % self.rows) as usize] = name_column(self.columns, newest);
        // A pass that missed many may never read them, if its session goes on from a checkpoint. `reach` fills in what
        // it does read.
        if count - first > MOST_FILLED {
            return top;
        }
        let stop = walk_stop(self.rows, first, count);
        let reached = self.walk(seat, columns, top, newest, stop);
        // If the walk came to `stop`, the table lacks no place between, so it still begins at `low`, as far as its rows
        // reach. Else it begins where a link was lost.
        if reached == stop { low } else { reached }
    }
}

/// Returns the lowest place to fill: `first`, the first that is new, or the lowest of the last `rows` of the `count`
/// places seen, if that is higher.
fn walk_stop(rows: u64, first: u64, count: u64) -> u64
    requires some { 0 < rows }
    requires first { first < count }
    ensures first { first ≤ result }
    ensures window { count ≤ result + rows }
    ensures top { result < count }
    ensures reach { first < result → count ≡ result + rows }
{
    // If more entries are new than the table has rows, it keeps the last ones.
    if count - first > rows {
        count - rows
    } else {
        first
    }
}
