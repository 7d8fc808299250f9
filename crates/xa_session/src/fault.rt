//! The reasons for which a statement wasn't answered.
ghost use Rattle.std.specs.Prelude.{◌≡◌};
ghost use Rattle.xa_session.specs.Faults.{number_of_fault};

use decision_log::AddFault;
use std::alloc::AllocError;
use thiserror::Error;

/// Why a statement wasn't answered. The history has nothing of the statement.
///
/// Own rule: docs/RATTLE.md#faults-of-a-session.
#[derive(Clone, Copy, Debug, Drop, PartialEq, Eq, Error)]
pub enum Fault {
    /// Another session appended an entry first. The session has now seen `front` entries.
    #[error("others have added: {front} entries are seen now")]
    Overtaken {
        /// How many entries the session has seen now.
        front: u64,
    },
    /// The statement would be logged, and the history has as many entries as its log can have.
    #[error("log full")]
    Full,
    /// No memory is left. The session may have seen and replayed more.
    #[error("out of memory")]
    NoMemory,
    /// Another session has the turn, in a log with turns.
    #[error("another session has the turn")]
    Busy,
}

impl Fault {
    /// Returns the fault's number, in `[1, 4]`.
    ///
    /// Takes no memory. Doesn't wait.
    /// Own rule: docs/RATTLE.md#faults-of-a-session.
    pub fn number(&self) -> u64
        // Proved (sessions, fault-numbers): Each fault of a session has the number that the table of faults
        //   gives it.
        ensures { result ≡ number_of_fault self.now }
    {
        match self {
            Fault::Overtaken { .. } => 1,
            Fault::Full => 2,
            Fault::NoMemory => 3,
            Fault::Busy => 4,
        }
    }
}

impl From<AllocError> for Fault {
    ghost use Rattle.std.specs.Prelude.{◌≡◌};
    ghost use Rattle.xa_session.specs.declared.fault.Fault.TheVariants.{NoMemory};

    ghost from_gives = { λ _ fault. fault ≡ NoMemory };

    fn from(_refused: AllocError) -> Fault {
        Fault::NoMemory
    }
}

impl From<AddFault> for Fault {
    ghost use Rattle.std.specs.Prelude.{◌≡◌};
    ghost use Rattle.xa_session.specs.Faults.{fault_of};

    ghost from_gives = { λ added fault. fault ≡ fault_of added };

    /// Returns the fault of the same name.
    fn from(added: AddFault) -> Fault {
        match added {
            AddFault::Overtaken { front } => Fault::Overtaken { front },
            AddFault::Full => Fault::Full,
            AddFault::Busy => Fault::Busy,
        }
    }
}
