//! The reasons for which a statement wasn't answered.
ghost use Rattle.std.specs.Prelude.{◌≡◌};
ghost use Rattle.xa_endless.specs.Faults.{number_of_fault};

use std::alloc::AllocError;
use thiserror::Error;

/// Why a statement wasn't answered. The history has nothing of the statement.
///
/// Own rule: docs/RATTLE.md#faults-of-a-session.
#[derive(Clone, Copy, Debug, Drop, PartialEq, Eq, Error)]
pub enum EndlessFault {
    /// Another session appended an entry first. The session has now seen `front` entries.
    #[error("others have added: {front} entries are seen now")]
    Overtaken {
        /// How many entries the session has seen now.
        front: u64,
    },
    /// No memory is left, or the statement would be logged and the history has as many entries as it can, more than
    /// 2^59. The session may have seen and replayed more.
    #[error("out of memory")]
    NoMemory,
    /// Entries that the session hasn't replayed were overwritten. It found no checkpoint to go on from, or others were
    /// faster than its copy: try again.
    #[error("behind: entries that this session hasn't replayed were overwritten; try again")]
    Behind,
}

impl EndlessFault {
    /// Returns the fault's number: 1, 3 or 5. `Overtaken` and `NoMemory` have the numbers that they have in `Fault` of
    /// xa_session, and `Behind` has one that is free there.
    ///
    /// Takes no memory. Doesn't wait.
    /// Own rule: docs/RATTLE.md#faults-of-a-session.
    pub fn number(&self) -> u64
        // Proved (endless, fault-numbers): Each fault of a session of an endless store has the number that the table of
        //   faults gives it.
        ensures { result ≡ number_of_fault self.now }
    {
        match self {
            EndlessFault::Overtaken { .. } => 1,
            EndlessFault::NoMemory => 3,
            EndlessFault::Behind => 5,
        }
    }
}

impl From<AllocError> for EndlessFault {
    ghost use Rattle.std.specs.Prelude.{◌≡◌};
    ghost use Rattle.xa_endless.specs.declared.fault.EndlessFault.TheVariants.{NoMemory};

    ghost from_gives = { λ _ fault. fault ≡ NoMemory };

    fn from(_refused: AllocError) -> EndlessFault {
        EndlessFault::NoMemory
    }
}
