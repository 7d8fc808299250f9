//! What the stores of a transaction voted.
ghost use Rattle.std.specs.Prelude.{◌≡◌};
ghost use Rattle.xa_coordinator.specs.Faults.{number_of_vote};

use crate::{Cause, Prepared};

/// What the stores of a transaction voted.
#[derive(Debug, Drop)]
pub enum Vote {
    /// Each participant is prepared; there are at least two.
    Ready(Prepared),
    /// The only participant's work has ended. It can be committed without being prepared.
    OnePhase(Prepared),
    /// A participant isn't prepared. Those below it are, and those above it got no statement.
    No {
        /// The transaction, which `finish` rolls back.
        prepared: Prepared,
        /// The store that isn't prepared.
        store: u8,
        /// Why it isn't.
        cause: Cause,
    },
    /// No store takes part.
    Nothing,
}

impl Vote {
    /// Returns the vote's number, in `[1, 4]`, in the order of the variants.
    ///
    /// Takes no memory. Doesn't wait.
    /// Own rule: docs/COORDINATOR.md#votes.
    pub fn number(&self) -> u64
        ensures { result ≡ number_of_vote self.now }
    {
        match self {
            Vote::Ready(_) => 1,
            Vote::OnePhase(_) => 2,
            Vote::No { .. } => 3,
            Vote::Nothing => 4,
        }
    }
}
