//! A pass of a chain.
ghost use Rattle.std.specs.Prelude.{◌≡◌, length};
ghost use Rattle.decision_log.specs.Seats.{pass_view_of, seated, IsPass};
ghost use Rattle.chain_log.specs.{Cells.newest_of, Columns.HasColumns};

use atomic_table::Seat;
use decision_log::SeatView;
use xa_words::Entry;
use xa_xid::SessionNo;

/// A session's handle on a chain.
///
/// At run time it keeps its number, the name of the last cell that it has seen (0 for none), and how many
/// entries it has seen. A table gives the column of the cell in each row that it has seen.
#[derive(Drop)]
pub struct ChainPass {
    /// Where it takes its steps.
    pub(crate) seat: Seat<Entry, SeatView>,
    /// The number of its session.
    pub(crate) number: SessionNo,
    /// The name of the last cell that it has seen, or 0.
    pub(crate) newest: u64,
    /// How many entries it has seen.
    pub(crate) count: u64,
    /// A byte for each row that the log can have: the column of the row's cell. The bytes of rows that weren't seen
    /// mean nothing.
    pub(crate) columns: Vec<u8>,
    // The seat holds one pass: this one.
    ghost held: { seat.me ≡ seated (pass_view_of seat.me.0) },
    // That pass has this number, and has seen `count` entries.
    ghost state: { IsPass number count (pass_view_of seat.me.0) },
    // `newest` is the name of the cell of the last entry that was seen.
    ghost named: { newest ≡ newest_of (pass_view_of seat.me.0).sessions (pass_view_of seat.me.0).known.seen },
    // Proved (log, table-of-columns): Between any two calls a pass has a table with the session of each
    //   entry that it has seen.
    ghost kept: { HasColumns (pass_view_of seat.me.0).capacity (length (pass_view_of seat.me.0).known.seen)
        (pass_view_of seat.me.0).known.seen columns.items },
}
