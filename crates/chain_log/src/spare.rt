//! A spare of a ring.
ghost use Rattle.std.specs.Prelude.{◌≡◌, length};
ghost use Rattle.decision_log.specs.Seats.{pass_view_of, seated};

use atomic_table::Seat;
use decision_log::SeatView;
use xa_words::Entry;

/// A handle on a ring that remembers a prefix of the history, and no more.
///
/// It is a pass that appends nothing and reads no entry. Passes tell it what they have seen, and others hear that from
/// it. Spares have the numbers after those of the sessions.
#[derive(Drop)]
pub struct RingSpare {
    /// Where it meets passes.
    pub(crate) seat: Seat<Entry, SeatView>,
    /// How many entries it remembers.
    pub(crate) count: u64,
    // The seat holds one pass: this one.
    ghost held: { seat.me ≡ seated (pass_view_of seat.me.0) },
    // It has seen `count` entries.
    ghost counted: { count ≡ length (pass_view_of seat.me.0).known.seen },
}
