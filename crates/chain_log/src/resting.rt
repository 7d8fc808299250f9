//! Passes and spares at rest, which threads may share.
ghost use Rattle.std.specs.Prelude.{◌≡◌, ◌<◌, [], length};
ghost use Rattle.decision_log.specs.Seats.{pass_view_of, seated};
ghost use Rattle.chain_log.specs.{Cells.newest_of, Places.rows_of, Windows.HasWindow, IsRingPass.IsRingPass};

use atomic_table::Perch;
use decision_log::SeatView;
use xa_words::Entry;
use xa_xid::SessionNo;

/// A pass at rest: nobody looks or appends with it.
///
/// A `RingPass` may be sent to another thread, but not be shared by threads. A pass at rest may be shared, too. Its
/// fields are those of a `RingPass`, with the seat on a perch.
#[derive(Drop)]
pub struct RestingPass {
    pub(crate) perch: Perch<Entry, SeatView>,
    pub(crate) number: SessionNo,
    pub(crate) newest: u64,
    pub(crate) count: u64,
    pub(crate) low: u64,
    pub(crate) columns: Vec<u8>,
    // The seat on the perch knows one pass, and holds no slot.
    ghost held: { (perch.view, []) ≡ seated (pass_view_of perch.view) },
    // That pass has this number, and has seen `count` entries.
    ghost state: { IsRingPass number count (pass_view_of perch.view) },
    // `newest` is the name of the last entry that was seen.
    ghost named: { newest ≡ newest_of (pass_view_of perch.view).sessions (pass_view_of perch.view).known.seen },
    // From place `low` on, the table has the columns of the last entries, as many as there are rows.
    ghost kept: { HasWindow (rows_of (pass_view_of perch.view).capacity) low
        (length (pass_view_of perch.view).known.seen) (pass_view_of perch.view).known.seen
        columns.items },
    // If anything was seen, the table has the last place.
    ghost bottom: { 0 < low → low < length (pass_view_of perch.view).known.seen },
}

/// A spare at rest, which threads may share.
#[derive(Drop)]
pub struct RestingSpare {
    pub(crate) perch: Perch<Entry, SeatView>,
    pub(crate) count: u64,
    // The seat on the perch knows one pass, and holds no slot.
    ghost held: { (perch.view, []) ≡ seated (pass_view_of perch.view) },
    // It has seen `count` entries.
    ghost counted: { count ≡ length (pass_view_of perch.view).known.seen },
}
