//! The faults of a coordinator's calls, and why a store didn't carry a statement out.
ghost use Rattle.std.specs.Prelude.{◌≡◌};
ghost use Rattle.xa_coordinator.specs.Faults.{number_of_decisions_fault, number_of_work_fault, number_of_begin_fault};
ghost use Rattle.xa_coordinator.specs.Faults.{number_of_recover_fault};

use std::alloc::{AllocError, AllocFailed};
use thiserror::Error;
use xa_server::XaError;
use xa_session::Fault;

/// Why work in a store wasn't answered.
#[derive(Clone, Copy, Debug, Drop, PartialEq, Eq, Error)]
pub enum WorkFault {
    /// The session couldn't answer `XA START` or the row statement.
    #[error("{0}")]
    Session(Fault),
    /// `XA START` was refused.
    #[error("{0}")]
    Refused(XaError),
    /// The store takes part, and this coordinator has no open branch of the transaction there. The store got
    /// no statement.
    #[error("this coordinator has no open branch of the transaction in the store")]
    Lost,
}

impl WorkFault {
    /// Returns the fault's number, in `[1, 3]`, in the order of the variants.
    ///
    /// Takes no memory. Doesn't wait.
    /// Own rule: docs/COORDINATOR.md#faults.
    pub fn number(&self) -> u64
        ensures { result ≡ number_of_work_fault self.now }
    {
        match self {
            WorkFault::Session(_) => 1,
            WorkFault::Refused(_) => 2,
            WorkFault::Lost => 3,
        }
    }
}

/// Why a list isn't taken as decisions.
#[derive(Clone, Copy, Debug, Drop, PartialEq, Eq, Error)]
pub enum DecisionsFault {
    /// It has more than 1,000,000 numbers.
    #[error("more than 1,000,000 numbers")]
    TooMany,
    /// This number is undecided and a later one is closed. A recovery closes every undecided number, so no
    /// calls lead to that.
    #[error("transaction {number} is undecided, and a later one is closed")]
    Overtaken {
        /// The transaction's number, from 1.
        number: u64,
    },
    /// An allocation failed.
    #[error("out of memory")]
    NoMemory,
}

impl DecisionsFault {
    /// Returns the fault's number, in `[1, 3]`, in the order of the variants.
    ///
    /// Takes no memory. Doesn't wait.
    /// Own rule: docs/COORDINATOR.md#faults.
    pub fn number(&self) -> u64
        ensures { result ≡ number_of_decisions_fault self.now }
    {
        match self {
            DecisionsFault::TooMany => 1,
            DecisionsFault::Overtaken { number: _ } => 2,
            DecisionsFault::NoMemory => 3,
        }
    }
}

/// Why no number was given. The decisions are as before.
#[derive(Clone, Copy, Debug, Drop, PartialEq, Eq, Error)]
pub enum BeginFault {
    /// All 1,000,000 numbers were given.
    #[error("all 1,000,000 numbers were given")]
    NumbersSpent,
    /// An allocation failed.
    #[error("out of memory")]
    NoMemory,
}

impl BeginFault {
    /// Returns the fault's number, in `[1, 2]`, in the order of the variants.
    ///
    /// Takes no memory. Doesn't wait.
    /// Own rule: docs/COORDINATOR.md#faults.
    pub fn number(&self) -> u64
        ensures { result ≡ number_of_begin_fault self.now }
    {
        match self {
            BeginFault::NumbersSpent => 1,
            BeginFault::NoMemory => 2,
        }
    }
}

/// Why a recovery didn't come to its end. All undecided numbers are closed, and the stores below the named
/// one are recovered.
#[derive(Clone, Copy, Debug, Drop, PartialEq, Eq, Error)]
pub enum RecoverFault {
    /// This store's session couldn't answer a statement.
    #[error("store {store}: {fault}")]
    Session {
        /// The store, by its number.
        store: u8,
        /// Why it couldn't.
        fault: Fault,
    },
    /// Another client prepared a branch of this coordinator's naming in this store during the recovery.
    #[error("store {store}: another branch of this coordinator was prepared meanwhile")]
    StillPrepared {
        /// The store, by its number.
        store: u8,
    },
    /// There was no memory for the report. No store got a statement.
    #[error("out of memory")]
    NoMemory,
    /// This store refused a statement for another cause than XAER_NOTA.
    #[error("store {store}: {error}")]
    Refused {
        /// The store, by its number.
        store: u8,
        /// Why it was refused.
        error: XaError,
    },
}

impl RecoverFault {
    /// Returns the fault's number, in `[1, 4]`, in the order of the variants.
    ///
    /// Takes no memory. Doesn't wait.
    /// Own rule: docs/COORDINATOR.md#faults.
    pub fn number(&self) -> u64
        ensures { result ≡ number_of_recover_fault self.now }
    {
        match self {
            RecoverFault::Session { store: _, fault: _ } => 1,
            RecoverFault::StillPrepared { store: _ } => 2,
            RecoverFault::NoMemory => 3,
            RecoverFault::Refused { store: _, error: _ } => 4,
        }
    }
}

/// Why a store didn't carry a coordinator's statement out.
#[derive(Clone, Copy, Debug, Drop, PartialEq, Eq, Error)]
pub enum Cause {
    /// The session couldn't answer it.
    #[error("{0}")]
    Session(Fault),
    /// The statement was refused.
    #[error("{0}")]
    Refused(XaError),
}

impl<T: Drop> From<AllocFailed<T>> for BeginFault {
    ghost use Rattle.std.specs.Prelude.{◌≡◌};
    ghost use Rattle.xa_coordinator.specs.declared.fault.BeginFault.TheVariants.{NoMemory};

    ghost from_gives = { λ _ fault. fault ≡ NoMemory };

    fn from(_refused: AllocFailed<T>) -> BeginFault {
        BeginFault::NoMemory
    }
}

impl From<AllocError> for DecisionsFault {
    ghost use Rattle.std.specs.Prelude.{◌≡◌};
    ghost use Rattle.xa_coordinator.specs.declared.fault.DecisionsFault.TheVariants.{NoMemory};

    ghost from_gives = { λ _ fault. fault ≡ NoMemory };

    fn from(_refused: AllocError) -> DecisionsFault {
        DecisionsFault::NoMemory
    }
}

impl From<AllocError> for RecoverFault {
    ghost use Rattle.std.specs.Prelude.{◌≡◌};
    ghost use Rattle.xa_coordinator.specs.declared.fault.RecoverFault.TheVariants.{NoMemory};

    ghost from_gives = { λ _ fault. fault ≡ NoMemory };

    fn from(_refused: AllocError) -> RecoverFault {
        RecoverFault::NoMemory
    }
}
