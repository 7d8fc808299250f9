//! How a transaction ended.
ghost use Rattle.std.specs.Prelude.{◌≡◌};
ghost use Rattle.xa_coordinator.specs.Faults.{number_of_ending};

use crate::Cause;
use arrayvec::ArrayVec;

/// How a transaction ended.
#[derive(Debug, Drop)]
pub enum Ending {
    /// Each participant committed.
    Committed,
    /// Each participant rolled back.
    RolledBack,
    /// These stores, ascending, answered XAER_NOTA, since the branch had been finished before, by somebody else or by
    /// a recovery. The others are finished.
    Hazard {
        /// The stores, by their numbers.
        stores: ArrayVec<u8, 16>,
    },
    /// This store's branch wasn't finished, and the stores above it got no statement.
    Unfinished {
        /// The store, by its number.
        store: u8,
        /// Why it wasn't.
        cause: Cause,
    },
}

impl Ending {
    /// Returns the ending's number, in `[1, 4]`, in the order of the variants.
    ///
    /// Takes no memory. Doesn't wait.
    /// Own rule: docs/COORDINATOR.md#finishing.
    pub fn number(&self) -> u64
        ensures { result ≡ number_of_ending self.now }
    {
        match self {
            Ending::Committed => 1,
            Ending::RolledBack => 2,
            Ending::Hazard { .. } => 3,
            Ending::Unfinished { .. } => 4,
        }
    }
}
