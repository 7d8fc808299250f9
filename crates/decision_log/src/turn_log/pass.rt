//! A pass of a log with a turn.
ghost use Rattle.std.specs.Prelude.{◌≡◌};
ghost use Rattle.decision_log.specs.Seats.{pass_view_of, seated, IsPass};

use crate::SeatView;
use atomic_table::Seat;
use xa_words::Entry;
use xa_xid::SessionNo;

/// A session's handle on a log with a turn. At run time it keeps its number and how many entries it has
/// seen.
#[derive(Drop)]
pub struct TurnPass {
    /// Where it takes its steps.
    pub(super) seat: Seat<Entry, SeatView>,
    /// The number of its session.
    pub(super) number: SessionNo,
    /// How many entries it has seen.
    pub(super) front: u64,
    // The seat holds one pass: this one.
    ghost held: { seat.me ≡ seated (pass_view_of seat.me.0) },
    // That pass has this number, and has seen `front` entries.
    ghost state: { IsPass number front (pass_view_of seat.me.0) },
}
