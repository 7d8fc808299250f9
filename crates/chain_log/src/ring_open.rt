//! Opening a ring.
ghost use Rattle.std.specs.Prelude.{◌≡◌, ◌≤◌, ◌+◌, IfOk, IfErr};
ghost use Rattle.decision_log.specs.{AtTable.KnowsRest, Known.newcomer, Opens.IsCount};
ghost use Rattle.decision_log.specs.Seats.{pass_view, newcomer_view, seated};
ghost use Rattle.chain_log.specs.{Places.{most, rows_of, word_count}, RingPass.{identity_of, log_of, known_of}};
ghost use Rattle.chain_log.specs.RingOpens.{AreRows, AreSpares, OpensPasses, OpensSpares, OpensRing, Refuses};

use crate::ring_layout::{MOST, MOST_ROWS, MOST_SPARES, count_words};
use crate::{RingFault, RingLog, RingPass, RingSpare, Turning};
use atomic_table::Seat;
use decision_log::{LogTable, SeatView, Sizes};
use std::alloc::{AllocError, Global};
use xa_words::Entry;
use xa_xid::SessionNo;

impl RingLog {
    /// Opens an empty log with `rows` rows of cells, in `[1, 65536]`, the passes of sessions 1 to `sessions`, in
    /// `[1, 16]`, and `spares` spares, in `[0, 4]`.
    ///
    /// A row takes 184 bytes for each session and each spare in the log, and a byte in each pass. Errors, in the order
    /// of test: `RowsOutOfRange`, `SessionsOutOfRange`, `SparesOutOfRange`, `NoMemory`. Doesn't wait.
    /// Own rule: docs/INTERNALS.md#the-ring.
    pub fn open(
        alloc: Global,
        rows: u64,
        sessions: u64,
        spares: u64,
    ) -> Result<(RingLog, Vec<RingPass>, Vec<RingSpare>), RingFault>
        // Proved (log, ring-opening): A ring opens with the passes of sessions 1 to S, in order, and with spares
        //   whose numbers follow these, all with nothing seen; or with the first fault, in the order of test, whose
        //   cause holds. Of `NoMemory` only that is known that the tests before it were passed.
        ensures ok { IfOk result (λ opened. OpensRing rows sessions spares opened.0 opened.1.items opened.2.items) }
        // Proved (log, ring-opening)
        ensures err { IfErr result (λ fault. Refuses rows sessions spares fault) }
    {
        if rows < 1 || rows > MOST_ROWS {
            return Err(RingFault::RowsOutOfRange);
        }
        if sessions < 1 || sessions > SessionNo::MAX {
            return Err(RingFault::SessionsOutOfRange);
        }
        if spares > MOST_SPARES {
            return Err(RingFault::SparesOutOfRange);
        }
        let (log, mut rest) = lay_out(alloc, rows, sessions, spares)?;
        // The passes of the sessions go first, so the spares' numbers follow theirs.
        let passes = deal_all(alloc, &log, &mut rest)?;
        let others = deal_spares(alloc, &log, rest, spares)?;
        Ok((log, passes, others))
    }
}

/// Makes the log, with all words 0, and the seat that knows all its passes, spares included.
fn lay_out(
    alloc: Global,
    rows: u64,
    sessions: u64,
    spares: u64,
) -> Result<(RingLog, Seat<Entry, SeatView>), AllocError>
    requires rows { AreRows rows }
    requires sessions { IsCount sessions }
    requires spares { AreSpares spares }
    ensures rows { IfOk result (λ made. made.0.rows ≡ rows) }
    ensures sessions { IfOk result (λ made. made.0.sessions ≡ sessions) }
    ensures columns { IfOk result (λ made. made.0.columns ≡ sessions + spares) }
    ensures rest { IfOk result (λ made. KnowsRest made.0.table.inner.shared.table_id made.1) }
    ensures all { IfOk result (λ made. pass_view made.1 ≡ newcomer_view (sessions + spares) made.0.capacity 1) }
{
    let columns = sessions + spares;
    // The rule knows no rows: it takes their number from the capacity, as what is beyond `MOST`.
    let capacity = MOST + rows;
    // The rule knows no spares: to it they are the passes of the last numbers. So these sizes may be greater than those
    // of a log in which each pass is a session's.
    let sizes = Sizes {
        sessions: columns,
        capacity,
    };
    let words: Vec<u64> = vec![in alloc; 0; count_words(columns, rows)]?;
    let (table, rest) = LogTable::<Turning>::of_words(alloc, &words, &sizes)?;
    let log = RingLog {
        table,
        sessions,
        columns,
        rows,
        capacity,
    };
    Ok((log, rest))
}

/// Issues the passes of the sessions, in order, from the seat `rest`, which knows all passes. Of these `rest` then
/// knows the spares alone. May return `AllocError`.
fn deal_all(
    alloc: Global,
    log: &RingLog,
    rest: &mut Seat<Entry, SeatView>,
) -> Result<Vec<RingPass>, AllocError>
    requires rest { KnowsRest log.now.table.inner.shared.table_id rest.old }
    requires all { pass_view rest.old ≡ newcomer_view log.now.columns log.now.capacity 1 }
    ensures passes { IfOk result (λ passes. OpensPasses log.now.sessions (identity_of log.now) passes.items) }
    ensures rest { IfOk result (λ _. KnowsRest log.now.table.inner.shared.table_id rest.new) }
    ensures next { IfOk result (λ _. pass_view rest.new ≡ newcomer_view log.now.columns log.now.capacity
        (log.now.sessions + 1)) }
{
    let mut passes = Vec::with_capacity(alloc, log.sessions as usize)?;
    for index in 0..log.sessions {
        let seat = log.table.issue(rest);
        // There are at most 16 sessions.
        let number = SessionNo::of(index + 1).unwrap();
        passes.push(RingPass::at_seat(alloc, seat, number, log.rows)?)?;
    }
    Ok(passes)
}

/// Issues `count` spares, in order, from the seat `rest`, which knows them and no other pass. May return `AllocError`.
fn deal_spares(
    alloc: Global,
    log: &RingLog,
    mut rest: Seat<Entry, SeatView>,
    count: u64,
) -> Result<Vec<RingSpare>, AllocError>
    requires count { log.now.columns ≡ log.now.sessions + count }
    requires rest { KnowsRest log.now.table.inner.shared.table_id rest }
    requires next { pass_view rest ≡ newcomer_view log.now.columns log.now.capacity (log.now.sessions + 1) }
    ensures { IfOk result (λ spares. OpensSpares log.now.sessions count (identity_of log.now) spares.items) }
{
    let mut spares = Vec::with_capacity(alloc, count as usize)?;
    for _index in 0..count {
        let seat = log.table.issue(&mut rest);
        spares.push(RingSpare { seat, count: 0 })?;
    }
    Ok(spares)
}

impl RingPass {
    /// Makes the pass of the session `number`, at its seat, before its first call. `rows` is how many rows the ring
    /// has.
    ///
    /// May return `AllocError`. Doesn't wait.
    fn at_seat(
        alloc: Global,
        seat: Seat<Entry, SeatView>,
        number: SessionNo,
        rows: u64,
    ) -> Result<RingPass, AllocError>
        requires held { seat.me ≡ seated (pass_view seat) }
        requires issued { pass_view seat ≡ newcomer_view (pass_view seat).sessions (pass_view seat).capacity number }
        requires last { number ≤ (pass_view seat).sessions }
        requires rows { rows ≡ rows_of (pass_view seat).capacity }
        ensures { IfOk result
            (λ pass. (log_of pass
            ≡ record {
              table = seat.table_id;
              sessions = (pass_view seat).sessions;
              capacity = (pass_view seat).capacity;
            })
            × (known_of pass ≡ newcomer number)) }
    {
        // A byte for each row. None of them means anything yet, since nothing was seen.
        let columns = vec![in alloc; 0; rows as usize]?;
        Ok(RingPass {
            seat,
            number,
            newest: 0,
            count: 0,
            low: 0,
            columns,
        })
    }
}
