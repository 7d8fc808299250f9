//! Why a job on a script ends early.
ghost use Rattle.std.specs.Prelude.{◌≡◌};
ghost use Rattle.xa_lines.specs.Faults.{number_of_script_fault};

use std::alloc::{AllocError, AllocFailed};
use thiserror::Error;

/// Why a job on a script, a run or a race, ends early. Other jobs end with these faults too, with limits of their own,
/// and say what they leave written.
///
/// Own rule: docs/COMMANDS.md#scripts.
#[derive(Clone, Copy, Debug, Drop, PartialEq, Eq, Error)]
pub enum ScriptFault {
    /// 1: a read failed, or too many reads were needed. Nothing was written.
    #[error("read fault")]
    Read,
    /// 2: the script is longer than 1,048,576 bytes. Nothing was written.
    #[error("script too long")]
    TooLong,
    /// 3: a write failed or took nothing. A prefix of the output was written.
    #[error("write fault")]
    Write,
    /// 4: an allocation failed. A run has written a prefix of its output, a race nothing.
    #[error("out of memory")]
    NoMemory,
    /// 5: the history of a race is full. Nothing was written.
    #[error("log full")]
    Full,
    /// 6: a gate stopped a session of a race. Nothing was written.
    #[error("gate shut")]
    GateShut,
    /// 7: a thread of a race couldn't be started. Nothing was written.
    #[error("thread refused")]
    ThreadRefused,
}

impl ScriptFault {
    /// Returns the fault's number, in `[1, 7]`.
    ///
    /// Takes no memory. Doesn't wait.
    /// Own rule: docs/COMMANDS.md#scripts.
    pub fn number(&self) -> u64
        // Proved (scripts, fault-numbers): Each fault of a run or a race has its own number, from 1 to 7.
        ensures { result ≡ number_of_script_fault self.now }
    {
        match self {
            ScriptFault::Read => 1,
            ScriptFault::TooLong => 2,
            ScriptFault::Write => 3,
            ScriptFault::NoMemory => 4,
            ScriptFault::Full => 5,
            ScriptFault::GateShut => 6,
            ScriptFault::ThreadRefused => 7,
        }
    }
}

impl From<AllocError> for ScriptFault {
    ghost use Rattle.std.specs.Prelude.{◌≡◌};
    ghost use Rattle.xa_lines.specs.declared.script_fault.ScriptFault.TheVariants.{NoMemory};

    ghost from_gives = { λ _ fault. fault ≡ NoMemory };

    fn from(_refused: AllocError) -> ScriptFault {
        ScriptFault::NoMemory
    }
}

impl<T: Drop> From<AllocFailed<T>> for ScriptFault {
    ghost use Rattle.std.specs.Prelude.{◌≡◌};
    ghost use Rattle.xa_lines.specs.declared.script_fault.ScriptFault.TheVariants.{NoMemory};

    ghost from_gives = { λ _ fault. fault ≡ NoMemory };

    fn from(_refused: AllocFailed<T>) -> ScriptFault {
        ScriptFault::NoMemory
    }
}
