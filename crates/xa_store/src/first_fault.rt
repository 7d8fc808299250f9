//! Which fault of a race is returned.
ghost use Rattle.std.specs.Prelude.{◌≡◌, ◌≤◌, ◌⊎◌};
ghost use Rattle.xa_store.specs.Lowest.{IsOutside};

use crate::RaceFault;

/// A fault, and the session whose run had it. Of several faults that of the lowest session is returned.
#[derive(Clone, Copy, Drop)]
pub struct FirstFault {
    /// The session's number. It is above the numbers of all sessions if no run had the fault.
    session: u64,
    /// The fault.
    pub fault: RaceFault,
}

impl FirstFault {
    /// A fault of the run of the session with this number.
    pub(crate) fn of(session: u64, fault: RaceFault) -> FirstFault
        ensures fault { result.fault ≡ fault }
        ensures session { result.session ≡ session }
    {
        FirstFault { session, fault }
    }

    /// `NoMemory` outside of the runs. Its number is above those of all sessions, so the fault of any run is
    /// returned before it.
    pub(crate) fn outside() -> FirstFault
        ensures { IsOutside result }
    {
        FirstFault {
            session: u64::MAX,
            fault: RaceFault::NoMemory,
        }
    }

    /// The one of the two faults that is returned: that of the lower session.
    pub(crate) fn or(self, other: FirstFault) -> FirstFault
        ensures either { (result ≡ self) ⊎ (result ≡ other) }
        ensures lowest { (result.session ≤ self.session) × (result.session ≤ other.session) }
    {
        // At equal sessions either will do.
        if other.session < self.session {
            other
        } else {
            self
        }
    }
}

impl From<FirstFault> for RaceFault {
    ghost use Rattle.std.specs.Prelude.{◌≡◌};

    ghost from_gives = { λ first_fault fault. fault ≡ first_fault.fault };

    fn from(first_fault: FirstFault) -> RaceFault {
        first_fault.fault
    }
}
