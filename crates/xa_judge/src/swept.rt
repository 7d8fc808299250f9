//! Where a sweep through events ends (`sweep_on`).

use crate::frontier::Frontier;

/// Where a sweep through events ends (`sweep_on`).
#[derive(Drop)]
pub enum Swept {
    /// After all events that were to be gone through: what is kept there.
    Kept(Frontier),
    /// After the event at the first place nothing is left. What was kept is refuted by returns up to the second place.
    Nothing(usize, usize),
    /// It was given up: `effort` allows no more, a session calls whose client is gone with an open call, or an event
    /// doesn't fit what is known.
    Unknown,
}
