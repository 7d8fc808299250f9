//! Why a ring wasn't opened.
ghost use Rattle.std.specs.Prelude.{◌≡◌};

use std::alloc::AllocError;
use thiserror::Error;

/// Why a ring wasn't opened.
#[derive(Clone, Copy, Debug, Drop, PartialEq, Eq, Error)]
pub enum RingFault {
    /// The number of rows isn't in `[1, 65536]`.
    #[error("the number of rows is not from 1 to 65536")]
    RowsOutOfRange,
    /// The number of sessions isn't in `[1, 16]`.
    #[error("the number of sessions is not from 1 to 16")]
    SessionsOutOfRange,
    /// There are more than 4 spares.
    #[error("the number of spares is not from 0 to 4")]
    SparesOutOfRange,
    /// An allocation failed.
    #[error("out of memory")]
    NoMemory,
}

impl From<AllocError> for RingFault {
    ghost use Rattle.std.specs.Prelude.{◌≡◌};
    ghost use Rattle.chain_log.specs.declared.ring_fault.RingFault.TheVariants.{NoMemory};

    ghost from_gives = { λ _ fault. fault ≡ NoMemory };

    fn from(_refused: AllocError) -> RingFault {
        RingFault::NoMemory
    }
}
