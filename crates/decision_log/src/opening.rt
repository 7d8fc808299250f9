//! Opening a log, whatever its words are.
ghost use Rattle.std.specs.Prelude.{◌≡◌, ◌≤◌, IfOk, IfErr};
ghost use Rattle.decision_log.specs.AtTable.{KnowsRest, KeepsSeats, OpensSeats, identity_at, belongs_at};
ghost use Rattle.decision_log.specs.{Known.{LogIdentity, newcomer}, Opens.{AreSizes, Opens, Refuses}};
ghost use Rattle.decision_log.specs.{Seats.{pass_view, newcomer_view, seated}, declared.known.Known.Known};

use crate::{Known, LogTable, LogWords, OpenFault, SeatView, Sizes};
use atomic_table::Seat;
use std::alloc::{AllocError, Global};
use xa_words::Entry;
use xa_xid::SessionNo;

/// A pass that has a seat at the words of its log.
///
/// Own rule: docs/INTERNALS.md#what-both-logs-share.
pub trait SeatedPass {
    // of which log the pass is
    ghost belongs_to: { Self → LogIdentity };

    // what the pass knows
    ghost known: { Self → Known };

    /// Makes the pass of a session, at its seat, before its first call.
    ///
    /// May return `AllocError`. Doesn't wait.
    fn at_seat(
        alloc: Global,
        seat: Seat<Entry, SeatView>,
        number: SessionNo,
        sizes: &Sizes,
    ) -> Result<Self, AllocError>
        requires held { seat.me ≡ seated (pass_view seat) }
        requires issued { pass_view seat ≡ newcomer_view sizes.now.sessions sizes.now.capacity number }
        requires last { number ≤ sizes.now.sessions }
        ensures { IfOk result (λ pass. (belongs_to pass ≡ belongs_at seat) × (known pass ≡ newcomer number)) };
}

/// Makes `word_count` words, all 0, and the passes of all sessions, in order.
///
/// Error: `NoMemory`. Doesn't wait.
/// Own rule: docs/INTERNALS.md#what-both-logs-share.
pub fn open_seats<R: LogWords, P: SeatedPass + Drop>(
    alloc: Global,
    sizes: &Sizes,
    word_count: usize,
) -> Result<(LogTable<R>, Vec<P>), OpenFault>
    requires rule { OpensSeats R.holds R.first R.newest sizes.now word_count }
    requires sizes { AreSizes sizes.now }
    ensures wide { IfOk result (λ opened. opened.0.inner.shared.table_id.words ≡ word_count) }
    ensures sized { IfOk result (λ opened. opened.0.inner.shared.key ≡ sizes.now) }
    // Proved (log, opening)
    ensures passes { IfOk result
        (λ opened. Opens P.belongs_to P.known sizes.now.capacity sizes.now.sessions
        (identity_at opened.0.inner.shared.table_id sizes.now) opened.1.items) }
    // Proved (log, opening)
    ensures err { IfErr result (λ fault. Refuses sizes.now.capacity sizes.now.sessions fault) }
{
    let (table, rest) = lay_out(alloc, sizes, word_count)?;
    let passes = deal_all(alloc, &table, rest, sizes)?;
    Ok((table, passes))
}

/// Makes the table of `word_count` words, all 0, and the seat that knows all passes. May return `AllocError`.
fn lay_out<R: LogWords>(
    alloc: Global,
    sizes: &Sizes,
    word_count: usize,
) -> Result<(LogTable<R>, Seat<Entry, SeatView>), AllocError>
    requires rule { OpensSeats R.holds R.first R.newest sizes.now word_count }
    ensures wide { IfOk result (λ made. made.0.inner.shared.table_id.words ≡ word_count) }
    ensures sized { IfOk result (λ made. made.0.inner.shared.key ≡ sizes.now) }
    ensures rest { IfOk result (λ made. KnowsRest made.0.inner.shared.table_id made.1) }
    ensures all { IfOk result (λ made. pass_view made.1 ≡ newcomer_view sizes.now.sessions sizes.now.capacity 1) }
{
    let words: Vec<u64> = vec![in alloc; 0; word_count]?;
    LogTable::of_words(alloc, &words, sizes)
}

/// Issues the passes of sessions 1 to `sizes.sessions`, in order, from `rest`, the seat that knows all of them. May
/// return `AllocError`.
fn deal_all<R: LogWords, P: SeatedPass + Drop>(
    alloc: Global,
    table: &LogTable<R>,
    mut rest: Seat<Entry, SeatView>,
    sizes: &Sizes,
) -> Result<Vec<P>, AllocError>
    requires rule { KeepsSeats R.holds R.newest }
    requires sizes { AreSizes sizes.now }
    requires rest { KnowsRest table.now.inner.shared.table_id rest }
    requires all { pass_view rest ≡ newcomer_view sizes.now.sessions sizes.now.capacity 1 }
    ensures { IfOk result
        (λ passes. Opens P.belongs_to P.known sizes.now.capacity sizes.now.sessions
        (identity_at table.now.inner.shared.table_id sizes.now) passes.items) }
{
    let mut passes = Vec::with_capacity(alloc, sizes.sessions as usize)?;
    for index in 0..sizes.sessions {
        let seat = table.issue(&mut rest);
        // There are at most 16 sessions.
        let number = SessionNo::of(index + 1).unwrap();
        passes.push(P::at_seat(alloc, seat, number, sizes)?)?;
    }
    Ok(passes)
}
