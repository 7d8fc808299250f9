//! Why a race failed.
ghost use Rattle.std.specs.Prelude.{◌≡◌};
ghost use Rattle.xa_store.specs.Faults.{number_of_race_fault};

use std::alloc::{AllocError, AllocFailed};
use thiserror::Error;
use xa_xid::SessionNo;

/// Why a race failed.
#[derive(Clone, Copy, Debug, Drop, PartialEq, Eq, Error)]
pub enum RaceFault {
    /// The gate stopped this session's run before its statement at `line`, counted from 0.
    #[error("gate shut for session {} at its statement {line}", .session.get())]
    GateShut {
        /// The session of the run.
        session: SessionNo,
        /// The statement, counted from 0.
        line: u64,
    },
    /// This session's statement at `line`, counted from 0, is to be logged, and the log has no room left.
    #[error("log full for session {} at its statement {line}", .session.get())]
    Full {
        /// The session of the run.
        session: SessionNo,
        /// The statement, counted from 0.
        line: u64,
    },
    /// An allocation failed.
    #[error("out of memory")]
    NoMemory,
    /// The system refused a thread.
    #[error("thread refused")]
    ThreadRefused,
}

impl RaceFault {
    /// Returns the fault's number, from 1 to 4, in the order of the variants.
    ///
    /// Takes no memory. Doesn't wait.
    /// Own rule: docs/RATTLE.md#races.
    pub fn number(&self) -> u64
        // Proved (stores, race-fault-number): Each fault of a race has its number in the table of faults.
        ensures { result ≡ number_of_race_fault self.now }
    {
        match self {
            RaceFault::GateShut { .. } => 1,
            RaceFault::Full { .. } => 2,
            RaceFault::NoMemory => 3,
            RaceFault::ThreadRefused => 4,
        }
    }
}

impl From<AllocError> for RaceFault {
    ghost use Rattle.std.specs.Prelude.{◌≡◌};
    ghost use Rattle.xa_store.specs.declared.race_fault.RaceFault.TheVariants.{NoMemory};

    ghost from_gives = { λ _ fault. fault ≡ NoMemory };

    fn from(_refused: AllocError) -> RaceFault {
        RaceFault::NoMemory
    }
}

impl<T: Drop> From<AllocFailed<T>> for RaceFault {
    ghost use Rattle.std.specs.Prelude.{◌≡◌};
    ghost use Rattle.xa_store.specs.declared.race_fault.RaceFault.TheVariants.{NoMemory};

    ghost from_gives = { λ _ fault. fault ≡ NoMemory };

    fn from(_refused: AllocFailed<T>) -> RaceFault {
        RaceFault::NoMemory
    }
}
