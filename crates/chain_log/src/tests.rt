//! The layout of a chain's words, and a pass that stops before its exchange.

ghost use Rattle.std.specs.Prelude.{◌≡◌, All, IfSome};
ghost use Rattle.chain_log.specs.ChainPass.{identity_of, log_of, known_of};

use crate::layout::{cell_name, cell_start, count_words};
use crate::{ChainLog, ChainPass, laws};
use decision_log::{AddFault, DecisionLog};
use std::alloc::Global;
use xa_words::Entry;
use xa_xid::{Bytes, SessionNo, Statement, Xid};

/// Calls the laws. They do nothing at run time.
fn calls_the_laws() {
    laws::chain_is_the_history();
    laws::one_history_of_its_words();
    laws::one_history_of_its_newest_cell();
    laws::later_entries_are_of_others();
    laws::passes_are_sessions_of_the_machine();
    laws::store_keeps_the_history();
    laws::won_exchange_adds_its_entry();
}

/// Whether the cells of a row stand one after the other, and those of the next row behind them.
fn cells_lie_in_rows() -> bool {
    let counted = (count_words(2, 4) == 177) & (cell_name(2, 2, 1) == 5);
    let last = cell_start(cell_name(2, 3, 2)) + 22 == 177;
    counted & last & (cell_start(5) == 89)
}

#[test]
fn cells_lie_row_by_row(rt: HostRuntime) {
    calls_the_laws();
    assert!(rt; cells_lie_in_rows());
}

/// Appends an entry of the pass's number, if the statement can be logged.
fn adds(log: &ChainLog, pass: &mut ChainPass, statement: &Statement) -> bool
    requires belongs { log_of pass.old ≡ identity_of log.now }
    ensures belongs { log_of pass.new ≡ identity_of log.now }
{
    match Entry::of(log.number(pass), statement) {
        Some(entry) => log.try_add(pass, &entry) == Ok(()),
        None => false,
    }
}

/// Stores all words of a cell, and stops before the exchange.
fn stops(log: &ChainLog, pass: &mut ChainPass, entry: &Entry)
    requires belongs { log_of pass.old ≡ identity_of log.now }
    ensures belongs { log_of pass.new ≡ identity_of log.now }
    ensures known { known_of pass.new ≡ known_of pass.old }
{
    let row = pass.count;
    if row < log.capacity {
        let own = cell_name(log.sessions, row, pass.number.get());
        log.write_cell(&mut pass.seat, own, pass.newest, entry);
    }
}

/// Whether a pass that stopped is overtaken when it goes on, and then adds.
fn goes_on(log: &ChainLog, pass: &mut ChainPass, entry: &Entry) -> bool
    requires belongs { log_of pass.old ≡ identity_of log.now }
    requires own { entry.now.session ≡ (known_of pass.old).number }
    ensures belongs { log_of pass.new ≡ identity_of log.now }
{
    log.try_add(pass, entry) == Err(AddFault::Overtaken { front: 3 })
        && log.try_add(pass, entry) == Ok(())
}

/// Whether the first entry is one of a session that starts a branch.
fn begins_with_start(log: &ChainLog, pass: &mut ChainPass, session: SessionNo, xid: &Xid) -> bool
    requires { log_of pass.old ≡ identity_of log.now }
    ensures { log_of pass.new ≡ identity_of log.now }
{
    let started = Entry::of(session, &Statement::Start(xid.copy()));
    log.length(pass) > 0 && Some(log.entry(pass, 0)) == started
}

/// A log, with the passes of its sessions 1 and 2.
#[derive(Drop)]
struct Pair {
    /// The log.
    log: ChainLog,
    /// The pass of session 1.
    first: ChainPass,
    /// The pass of session 2.
    second: ChainPass,
    // The first pass is of the log.
    ghost first_is: { log_of first ≡ identity_of log },
    // So is the second.
    ghost second_is: { log_of second ≡ identity_of log },
}

/// Takes the last pass, of a log, from a list of its passes.
fn pops_pass(log: &ChainLog, passes: &mut Vec<ChainPass>) -> Option<ChainPass>
    requires { All (λ pass. log_of pass ≡ identity_of log.now) passes.old.items }
    ensures rest { All (λ pass. log_of pass ≡ identity_of log.now) passes.new.items }
    ensures last { IfSome result (λ pass. log_of pass ≡ identity_of log.now) }
{
    passes.pop()
}

/// The log with the last two of its passes.
fn pair_of(log: ChainLog, mut passes: Vec<ChainPass>) -> Option<Pair>
    requires { All (λ pass. log_of pass ≡ identity_of log) passes.items }
{
    let second = pops_pass(&log, &mut passes)?;
    let first = pops_pass(&log, &mut passes)?;
    Some(Pair { log, first, second })
}

/// Opens a log with room for four entries and two sessions.
fn opens_pair(alloc: Global) -> Option<Pair> {
    let Ok((log, passes)) = ChainLog::open(alloc, 4, 2) else {
        return None;
    };
    pair_of(log, passes)
}

impl Pair {
    /// Whether the second pass appends the start of a branch, its end, and that it is prepared.
    fn second_prepares(&mut self, xid: &Xid) -> bool
        ensures first { self.new.first ≡ self.old.first }
    {
        let started = adds(&self.log, &mut self.second, &Statement::Start(xid.copy()));
        let ended = adds(&self.log, &mut self.second, &Statement::End(xid.copy()));
        let prepared = adds(&self.log, &mut self.second, &Statement::Prepare(xid.copy()));
        started & ended & prepared
    }

    /// Whether the second pass appends while the first stopped before its exchange, and the first then goes on.
    fn goes_on_late(&mut self, left: &Entry, xid: &Xid) -> bool
        requires own { left.now.session ≡ (known_of self.old.first).number }
    {
        stops(&self.log, &mut self.first, left);
        let added = self.second_prepares(xid);
        added & goes_on(&self.log, &mut self.first, left)
    }

    /// Whether a pass that stops before its exchange holds up no other, and then sees the other's first entry.
    fn holds_up_nobody(&mut self, xid: &Xid) -> bool {
        let Some(left) = Entry::of(self.log.number(&self.first), &Statement::Disconnect) else {
            return false;
        };
        let two = self.log.number(&self.second);
        let went_on = self.goes_on_late(&left, xid);
        went_on & begins_with_start(&self.log, &mut self.first, two, xid)
    }
}

#[test]
fn a_pass_that_stops_before_its_exchange_holds_up_nobody(rt: HostRuntime) {
    let Some(mut pair) = opens_pair(rt.alloc()) else {
        panic!(rt; "not opened")
    };
    let xid = Xid {
        format_id: 1,
        gtrid: Bytes::new(),
        bqual: Bytes::new(),
    };
    assert!(rt; pair.holds_up_nobody(&xid));
}
