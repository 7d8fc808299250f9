//! The fault that a race of a script returns when its race ends with a fault.
ghost use Rattle.std.specs.Prelude.{◌≡◌};
ghost use Rattle.xa_races.specs.Outcome.{script_fault_of};

use xa_lines::ScriptFault;
use xa_store::RaceFault;

/// The fault that is returned for a race's fault. Which session and line `GateShut` and `Full` name is left out.
pub(crate) fn script_fault(raced: RaceFault) -> ScriptFault
    ensures { result ≡ script_fault_of raced }
{
    match raced {
        RaceFault::GateShut { .. } => ScriptFault::GateShut,
        RaceFault::Full { .. } => ScriptFault::Full,
        RaceFault::NoMemory => ScriptFault::NoMemory,
        RaceFault::ThreadRefused => ScriptFault::ThreadRefused,
    }
}
