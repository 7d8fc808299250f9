//! Why a state couldn't be read.

use std::alloc::{AllocError, AllocFailed};
use thiserror::Error;

/// Why a state couldn't be read.
#[derive(Clone, Copy, Debug, PartialEq, Eq, Error)]
pub enum StateFault {
    /// The line of this number, counted from 1, is the first that isn't one of a state. `ROW key NONE`, which `show`
    /// prints, isn't one either.
    #[error("state line {0}: not a line of a store's listing; write it as show prints one")]
    Unread(u64),
    /// The line of this number is the first in which the text differs from the listing of the store that it makes.
    #[error("state line {0}: the store of these lines isn't listed so; take one listing as a whole, without --text")]
    Differs(u64),
    /// An allocation failed.
    #[error("out of memory")]
    NoMemory,
}

impl From<AllocError> for StateFault {
    ghost use Rattle.std.specs.Prelude.{◌≡◌};
    ghost use Rattle.xa_record.specs.declared.state_fault.StateFault.TheVariants.{NoMemory};

    ghost from_gives = { λ _ fault. fault ≡ NoMemory };

    fn from(_refused: AllocError) -> StateFault {
        StateFault::NoMemory
    }
}

impl<T: Drop> From<AllocFailed<T>> for StateFault {
    ghost use Rattle.std.specs.Prelude.{◌≡◌};
    ghost use Rattle.xa_record.specs.declared.state_fault.StateFault.TheVariants.{NoMemory};

    ghost from_gives = { λ _ fault. fault ≡ NoMemory };

    fn from(_refused: AllocFailed<T>) -> StateFault {
        StateFault::NoMemory
    }
}
