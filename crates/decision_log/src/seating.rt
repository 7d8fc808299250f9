//! How the seats of a log are split and joined, whatever the log's words are.
ghost use Rattle.decision_log.specs.{Seats.{left_of, right_of, both_of}, declared.view.SeatView.TheVariants.Empty};

use crate::SeatView;
use atomic_table::{Join, Split};

/// How seats are split and joined.
///
/// A seat with two passes is split into one for each, a seat with one pass into itself and an empty one. From the seat
/// of the passes that aren't issued, the first of them gets a seat of its own, and the others stay. Two seats with a
/// pass each are joined into one with both.
pub struct Seating;

impl Split<SeatView> for Seating {
    ghost left = { left_of };

    ghost right = { right_of };
}

impl Join<SeatView> for Seating {
    ghost both = { both_of };

    ghost spent = { Empty };
}
