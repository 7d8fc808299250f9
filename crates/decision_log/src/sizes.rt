//! The sizes of a log.
ghost use Rattle.std.specs.Prelude.{◌≡◌, IfOk, IfErr};
ghost use Rattle.decision_log.specs.Opens.{AreSizes, Refuses};

use crate::OpenFault;
use xa_xid::SessionNo;

/// The sizes of a log. The rule of a log gets them once, when the log is opened.
///
/// The ranges are those of `Sizes::of`. A ring makes its own: its sessions here include its spares, so there are up to
/// 20, and its capacity is 2^59 and as many more as it has rows.
#[derive(Clone, Copy, Debug)]
pub struct Sizes {
    /// How many sessions it has, in `[1, 16]`.
    pub sessions: u64,
    /// How many entries it can have, in `[1, 1024]`.
    pub capacity: u64,
}

/// The greatest capacity of a log, in entries. A chain takes all its words at once: with 16 sessions, 1,024 rows of 16
/// cells of 22 words, which are 3 MB.
pub const MOST_ENTRIES: u64 = 1024;

impl Sizes {
    /// Returns the sizes of a log of `capacity` entries, in `[1, 1024]`, and of `sessions` sessions, in
    /// `[1, 16]`.
    ///
    /// Errors, in the order of test: `CapacityOutOfRange`, `SessionsOutOfRange`. Takes no memory. Doesn't
    /// wait.
    /// Own rule: docs/INTERNALS.md#what-a-log-promises.
    pub fn of(capacity: u64, sessions: u64) -> Result<Sizes, OpenFault>
        // Proved (log, opening): A log opens with the passes of sessions 1 to S, in order, with nothing seen; or with
        //   the first fault, in the order of test, whose cause holds. Of `NoMemory` only that is known that the tests
        //   before it were passed.
        ensures ok { IfOk result (λ sizes. AreSizes sizes × (sizes.capacity ≡ capacity) × (sizes.sessions ≡ sessions)) }
        // Proved (log, opening)
        ensures err { IfErr result (λ fault. Refuses capacity sessions fault) }
    {
        if capacity < 1 || capacity > MOST_ENTRIES {
            return Err(OpenFault::CapacityOutOfRange);
        }
        if sessions < 1 || sessions > SessionNo::MAX {
            return Err(OpenFault::SessionsOutOfRange);
        }
        Ok(Sizes { sessions, capacity })
    }
}
