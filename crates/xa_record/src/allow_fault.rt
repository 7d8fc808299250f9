//! Why allowances couldn't be read.

use std::alloc::{AllocError, AllocFailed};
use thiserror::Error;

/// Why allowances couldn't be read.
#[derive(Clone, Copy, Debug, PartialEq, Eq, Error)]
pub enum AllowFault {
    /// The line of this number, counted from 1, is the first that is no allowance, and isn't blank or a comment.
    #[error("allow line {0}: not an allowance")]
    Line(u64),
    /// An allocation failed.
    #[error("out of memory")]
    NoMemory,
}

impl From<AllocError> for AllowFault {
    ghost use Rattle.std.specs.Prelude.{◌≡◌};
    ghost use Rattle.xa_record.specs.declared.allow_fault.AllowFault.TheVariants.{NoMemory};

    ghost from_gives = { λ _ fault. fault ≡ NoMemory };

    fn from(_refused: AllocError) -> AllowFault {
        AllowFault::NoMemory
    }
}

impl<T: Drop> From<AllocFailed<T>> for AllowFault {
    ghost use Rattle.std.specs.Prelude.{◌≡◌};
    ghost use Rattle.xa_record.specs.declared.allow_fault.AllowFault.TheVariants.{NoMemory};

    ghost from_gives = { λ _ fault. fault ≡ NoMemory };

    fn from(_refused: AllocFailed<T>) -> AllowFault {
        AllowFault::NoMemory
    }
}
