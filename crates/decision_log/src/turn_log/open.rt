//! Opening a log with a turn.
ghost use Rattle.std.specs.Prelude.{IfOk, IfErr};
ghost use Rattle.decision_log.specs.{Opens.{Opens, Refuses}, TurnPass.{identity_of, log_of, known_of}};

use super::layout::ROWS;
use super::{TurnLog, TurnPass};
use crate::{OpenFault, SeatView, SeatedPass, Sizes, open_seats};
use atomic_table::Seat;
use std::alloc::{AllocError, Global};
use xa_words::{Entry, WORDS};
use xa_xid::SessionNo;

impl TurnLog {
    /// Opens an empty log of `capacity` entries, in `[1, 1024]`, with the passes of sessions 1 to
    /// `sessions`, in `[1, 16]`.
    ///
    /// Errors, in the order of test: `CapacityOutOfRange`, `SessionsOutOfRange`, `NoMemory`. Doesn't wait.
    /// Own rule: docs/INTERNALS.md#the-log-with-a-turn.
    pub fn open(
        alloc: Global,
        capacity: u64,
        sessions: u64,
    ) -> Result<(TurnLog, Vec<TurnPass>), OpenFault>
        // Proved (log, opening)
        ensures ok { IfOk result (λ opened. Opens log_of known_of capacity sessions
            (identity_of opened.0) opened.1.items) }
        // Proved (log, opening)
        ensures err { IfErr result (λ fault. Refuses capacity sessions fault) }
    {
        let sizes = Sizes::of(capacity, sessions)?;
        let (table, passes) = open_seats(alloc, &sizes, ROWS + sizes.capacity as usize * WORDS)?;
        let log = TurnLog {
            table,
            sessions: sizes.sessions,
            capacity: sizes.capacity,
        };
        Ok((log, passes))
    }
}

impl SeatedPass for TurnPass {
    ghost use Rattle.decision_log.specs.TurnPass.{log_of, known_of};

    ghost belongs_to = { log_of };

    ghost known = { known_of };

    /// Makes the pass of the session `number` at its seat, with nothing seen. It has no table, so it takes no memory,
    /// and needs no sizes.
    fn at_seat(
        _alloc: Global,
        seat: Seat<Entry, SeatView>,
        number: SessionNo,
        _sizes: &Sizes,
    ) -> Result<TurnPass, AllocError> {
        Ok(TurnPass {
            seat,
            number,
            front: 0,
        })
    }
}
