//! The reasons for which a log wasn't opened, or an entry wasn't appended.
ghost use Rattle.std.specs.Prelude.{◌≡◌};
ghost use Rattle.decision_log.specs.Faults.{number_of_open_fault, number_of_add_fault};

use std::alloc::AllocError;
use thiserror::Error;

/// Why a log wasn't opened.
///
/// Own rule: docs/INTERNALS.md#what-a-log-promises.
#[derive(Clone, Copy, Debug, Drop, PartialEq, Eq, Error)]
pub enum OpenFault {
    /// The capacity isn't in `[1, 1024]`.
    #[error("the capacity is not from 1 to 1024")]
    CapacityOutOfRange,
    /// The number of sessions isn't in `[1, 16]`.
    #[error("the number of sessions is not from 1 to 16")]
    SessionsOutOfRange,
    /// No memory is left.
    #[error("out of memory")]
    NoMemory,
}

impl OpenFault {
    /// Returns the fault's number, in `[1, 3]`, in the order of test.
    ///
    /// Takes no memory. Doesn't wait.
    /// Own rule: docs/INTERNALS.md#what-a-log-promises.
    pub fn number(&self) -> u64
        ensures { result ≡ number_of_open_fault self.now }
    {
        match self {
            OpenFault::CapacityOutOfRange => 1,
            OpenFault::SessionsOutOfRange => 2,
            OpenFault::NoMemory => 3,
        }
    }
}

/// Why an entry wasn't appended. The history has nothing of the call.
///
/// Own rule: docs/INTERNALS.md#what-a-log-promises.
#[derive(Clone, Copy, Debug, Drop, PartialEq, Eq, Error)]
pub enum AddFault {
    /// The history had more entries than the pass had seen. The pass has now seen `front` of them.
    #[error("others have added: {front} entries are seen now")]
    Overtaken {
        /// How many entries the pass has seen now.
        front: u64,
    },
    /// The history has as many entries as the log can have.
    #[error("log full")]
    Full,
    /// Another pass has the turn.
    #[error("another pass has the turn")]
    Busy,
}

impl AddFault {
    /// Returns the fault's number, in `[1, 3]`.
    ///
    /// Takes no memory. Doesn't wait.
    /// Own rule: docs/INTERNALS.md#what-a-log-promises.
    pub fn number(&self) -> u64
        ensures { result ≡ number_of_add_fault self.now }
    {
        match self {
            AddFault::Overtaken { .. } => 1,
            AddFault::Full => 2,
            AddFault::Busy => 3,
        }
    }
}

impl From<AllocError> for OpenFault {
    ghost use Rattle.std.specs.Prelude.{◌≡◌};
    ghost use Rattle.decision_log.specs.declared.fault.OpenFault.TheVariants.{NoMemory};

    ghost from_gives = { λ _ fault. fault ≡ NoMemory };

    fn from(_refused: AllocError) -> OpenFault {
        OpenFault::NoMemory
    }
}
