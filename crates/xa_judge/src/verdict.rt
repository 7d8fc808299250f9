//! Verdicts on records.

use crate::moves::Move;
use crate::shared_answer::SharedAnswer;

/// The verdict whether any order explains a record.
#[derive(Debug, Drop)]
pub enum Verdict {
    /// An order does, with these moves.
    Legal(Vec<Move>),
    /// No order explains the record up to and including the event at this place, counted from 0, though one
    /// explains what comes before it. If the event is a return, these are all the answers that its call could have
    /// had; else there are none.
    Illegal(usize, Vec<SharedAnswer>),
    /// No verdict was found, since more configurations than allowed have to be kept before the event at this
    /// place.
    Undecided(usize),
}
