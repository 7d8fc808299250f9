//! A pass of a ring.
ghost use Rattle.std.specs.Prelude.{◌≡◌, ◌<◌, length};
ghost use Rattle.decision_log.specs.Seats.{pass_view_of, seated};
ghost use Rattle.chain_log.specs.{Cells.newest_of, Places.rows_of, Windows.HasWindow, IsRingPass.IsRingPass};

use atomic_table::Seat;
use decision_log::SeatView;
use xa_words::Entry;
use xa_xid::SessionNo;

/// A session's handle on a ring.
///
/// At run time it keeps its number, the name of the last entry that it has seen (0 for none), and how many entries it
/// has seen. A table gives the column of the cell of each of the last entries.
#[derive(Drop)]
pub struct RingPass {
    /// Where it takes its steps.
    pub(crate) seat: Seat<Entry, SeatView>,
    /// The number of its session, which is its column.
    pub(crate) number: SessionNo,
    /// The name of the last entry that it has seen, or 0.
    pub(crate) newest: u64,
    /// How many entries it has seen.
    pub(crate) count: u64,
    /// The place from which on the table has the columns, as far as its rows reach. If it isn't 0, the table wasn't
    /// filled further back: too many places were new at once and no read has needed those below since, or a link was
    /// lost.
    pub(crate) low: u64,
    /// A byte for each row: the column of the cell of the last entry seen in it, if its place is `low` or higher. Other
    /// bytes mean nothing.
    pub(crate) columns: Vec<u8>,
    // The seat holds one pass: this one.
    ghost held: { seat.me ≡ seated (pass_view_of seat.me.0) },
    // Proved (log, ring-pass): Between any two calls the number of a ring's pass is one of the log's columns, and all
    //   that it has seen is of these. The entries of its number there are its own. It has seen no more entries than
    //   the log can have.
    ghost state: { IsRingPass number count (pass_view_of seat.me.0) },
    // `newest` is the name of the last entry that was seen.
    ghost named: { newest ≡ newest_of (pass_view_of seat.me.0).sessions (pass_view_of seat.me.0).known.seen },
    // Proved (log, ring-table): Between any two calls a pass of a ring has a table with the session of each of the last
    //   entries that it has seen, back to the place `low`.
    ghost kept: { HasWindow (rows_of (pass_view_of seat.me.0).capacity) low (length (pass_view_of seat.me.0).known.seen)
        (pass_view_of seat.me.0).known.seen
        columns.items },
    // If anything was seen, the table has the last place.
    ghost bottom: { 0 < low → low < length (pass_view_of seat.me.0).known.seen },
}
