//! Opening a chain.
ghost use Rattle.std.specs.Prelude.{IfOk, IfErr};
ghost use Rattle.decision_log.specs.Opens.{Opens, Refuses};
ghost use Rattle.chain_log.specs.ChainPass.{identity_of, log_of, known_of};

use crate::layout::count_words;
use crate::{ChainLog, ChainPass};
use atomic_table::Seat;
use decision_log::{OpenFault, SeatView, SeatedPass, Sizes, open_seats};
use std::alloc::{AllocError, Global};
use xa_words::Entry;
use xa_xid::SessionNo;

impl ChainLog {
    /// Opens an empty log of `capacity` entries, in `[1, 1024]`, with the passes of sessions 1 to
    /// `sessions`, in `[1, 16]`.
    ///
    /// Errors, in the order of test: `CapacityOutOfRange`, `SessionsOutOfRange`, `NoMemory`. Doesn't wait.
    /// Own rule: docs/INTERNALS.md#the-chain.
    pub fn open(
        alloc: Global,
        capacity: u64,
        sessions: u64,
    ) -> Result<(ChainLog, Vec<ChainPass>), OpenFault>
        // Proved (log, opening)
        ensures ok { IfOk result (λ opened. Opens log_of known_of capacity sessions
            (identity_of opened.0) opened.1.items) }
        // Proved (log, opening)
        ensures err { IfErr result (λ fault. Refuses capacity sessions fault) }
    {
        let sizes = Sizes::of(capacity, sessions)?;
        let words = count_words(sizes.sessions, sizes.capacity);
        let (table, passes) = open_seats(alloc, &sizes, words)?;
        let log = ChainLog {
            table,
            sessions: sizes.sessions,
            capacity: sizes.capacity,
        };
        Ok((log, passes))
    }
}

impl SeatedPass for ChainPass {
    ghost use Rattle.chain_log.specs.ChainPass.{log_of, known_of};

    ghost belongs_to = { log_of };

    ghost known = { known_of };

    /// Makes the pass of the session `number` at its seat, with nothing seen. May return `AllocError`.
    fn at_seat(
        alloc: Global,
        seat: Seat<Entry, SeatView>,
        number: SessionNo,
        sizes: &Sizes,
    ) -> Result<ChainPass, AllocError> {
        // A byte for each row, of which there are as many as entries. None of them means anything yet, since nothing
        // was seen.
        let columns = vec![in alloc; 0; sizes.capacity as usize]?;
        Ok(ChainPass {
            seat,
            number,
            newest: 0,
            count: 0,
            columns,
        })
    }
}
