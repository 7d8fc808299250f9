//! The layout of a ring's words, cells that are used again, and slow passes.

ghost use Rattle.std.specs.Prelude.{◌≡◌, ◌≤◌, All, IfSome};
ghost use Rattle.chain_log.specs.{RingPass.{identity_of, log_of, known_of}, RingSpare.spare_log_of};

use crate::ring_layout::{cell_start, count_from, count_words, entry_name, words_filled};
use crate::{RingFault, RingLog, RingPass, RingSpare, ring_laws};
use decision_log::AddFault;
use std::alloc::Global;
use std::thread;
use std::thread::Threads;
use xa_words::Entry;
use xa_xid::{Bytes, Key, SessionNo, Statement};

/// How often an add is tried before it is given up.
const TRIES: u64 = 100_000_000;

/// How many entries each of two threads adds.
const EACH: u64 = 100;

/// Calls the laws on the history. They do nothing at run time.
fn calls_the_laws_on_the_history() {
    ring_laws::words_spell_the_last_entries();
    ring_laws::one_history_of_its_words();
    ring_laws::one_history_of_its_newest_name();
    ring_laws::later_entries_are_of_others();
    ring_laws::history_has_the_least();
}

/// Calls the laws on passes and on steps. They do nothing at run time.
fn calls_the_laws_on_steps() {
    ring_laws::passes_are_sessions_of_the_machine();
    ring_laws::stored_name_keeps_the_history();
    ring_laws::stored_word_keeps_the_history();
    ring_laws::won_exchange_adds_its_entry();
}

/// Whether the cells of a session stand one after the other, and those of the next session behind them.
fn cells_lie_in_turn() -> bool {
    let named = (count_words(2, 4) == 185) & (entry_name(2, 6, 1) == 13);
    let again = (cell_start(4, 2, 1) == 47) & (cell_start(4, 6, 1) == 47);
    let beside = cell_start(4, 3, 1) + 23 == cell_start(4, 0, 2);
    let last = cell_start(4, 7, 2) + 23 == 185;
    named & again & beside & last
}

/// Whether a text fills a word for each eight bytes that it has begun.
fn texts_fill_words() -> bool {
    let short = (words_filled(0) == 0) & (words_filled(8) == 1) & (words_filled(9) == 2);
    let long = (words_filled(57) == 8) & (words_filled(64) == 8);
    short & long
}

#[test]
fn cells_of_a_session_lie_side_by_side_in_turn(rt: HostRuntime) {
    calls_the_laws_on_the_history();
    calls_the_laws_on_steps();
    assert!(rt; cells_lie_in_turn());
    assert!(rt; texts_fill_words());
}

#[test]
fn sizes_out_of_range_are_refused(rt: HostRuntime) {
    let fault = |rows: u64, sessions: u64, spares: u64| {
        RingLog::open(rt.alloc(), rows, sessions, spares).err()
    };
    assert!(rt; fault(0, 17, 5) == Some(RingFault::RowsOutOfRange));
    assert!(rt; fault(65_537, 1, 0) == Some(RingFault::RowsOutOfRange));
    assert!(rt; fault(1, 0, 5) == Some(RingFault::SessionsOutOfRange));
    assert!(rt; fault(1, 17, 0) == Some(RingFault::SessionsOutOfRange));
    assert!(rt; fault(1, 16, 5) == Some(RingFault::SparesOutOfRange));
}

/// The entry of a session that deletes the row of one letter.
fn delete(session: SessionNo, letter: u8) -> Option<Entry>
    ensures { IfSome result (λ entry. entry.session ≡ session) }
{
    let mut name = Bytes::new();
    name.push(letter);
    Entry::of(session, &Statement::Del(Key::of(name)?))
}

/// Adds the entry of a letter. It tries again if others were faster.
pub(crate) fn adds(log: &RingLog, pass: &mut RingPass, letter: u8) -> bool
    requires { log_of pass.old ≡ identity_of log.now }
    ensures belongs { log_of pass.new ≡ identity_of log.now }
    ensures number { (known_of pass.new).number ≡ (known_of pass.old).number }
{
    let Some(entry) = delete(log.number(pass), letter) else {
        return false;
    };
    for _ in 0..TRIES {
        match log.try_add(pass, &entry) {
            Ok(()) => return true,
            Err(AddFault::Full) => return false,
            Err(_) => {}
        }
    }
    false
}

/// Whether the entry of a letter is added at the first try.
pub(crate) fn adds_at_once(log: &RingLog, pass: &mut RingPass, letter: u8) -> bool
    requires { log_of pass.old ≡ identity_of log.now }
    ensures { log_of pass.new ≡ identity_of log.now }
{
    match delete(log.number(pass), letter) {
        Some(entry) => log.try_add(pass, &entry) == Ok(()),
        None => false,
    }
}

/// Adds the entries of the letters from one on.
pub(crate) fn adds_each(log: &RingLog, pass: &mut RingPass, first: u64, count: u64) -> bool
    requires { log_of pass.old ≡ identity_of log.now }
    ensures belongs { log_of pass.new ≡ identity_of log.now }
    ensures number { (known_of pass.new).number ≡ (known_of pass.old).number }
{
    for step in 0..count {
        if !adds(log, pass, (u64::wrapping_add(first, step) % 256) as u8) {
            return false;
        }
    }
    true
}

/// Whether a pass reads the entry of a letter at a place that it has seen.
pub(crate) fn reads(
    log: &RingLog,
    pass: &mut RingPass,
    at: u64,
    session: SessionNo,
    letter: u8,
) -> bool
    requires { log_of pass.old ≡ identity_of log.now }
    ensures belongs { log_of pass.new ≡ identity_of log.now }
    ensures same { known_of pass.new ≡ known_of pass.old }
{
    at < log.length(pass) && log.entry(pass, at) == delete(session, letter)
}

/// Whether a pass has seen a place and can't read it.
pub(crate) fn misses(log: &RingLog, pass: &mut RingPass, at: u64) -> bool
    requires { log_of pass.old ≡ identity_of log.now }
    ensures belongs { log_of pass.new ≡ identity_of log.now }
    ensures same { known_of pass.new ≡ known_of pass.old }
{
    at < log.length(pass) && log.entry(pass, at) == None
}

/// Whether a pass that looks at 13 entries of one session in four rows reads entries 9 and 12, and misses 0 and 8.
fn reads_the_last(log: &RingLog, pass: &mut RingPass, one: SessionNo) -> bool
    requires { log_of pass.old ≡ identity_of log.now }
    ensures { log_of pass.new ≡ identity_of log.now }
{
    let looked = log.look(pass) == 13;
    let missed = misses(log, pass, 0) & misses(log, pass, 8);
    let read = reads(log, pass, 9, one, 9) & reads(log, pass, 12, one, 12);
    looked & missed & read
}

/// A ring, with the passes of its sessions 1 and 2.
#[derive(Drop)]
pub(crate) struct Pair {
    /// The ring.
    pub(crate) log: RingLog,
    /// The pass of session 1.
    pub(crate) first: RingPass,
    /// The pass of session 2.
    pub(crate) second: RingPass,
    // The first pass is of the ring.
    ghost first_is: { log_of first ≡ identity_of log },
    // So is the second.
    ghost second_is: { log_of second ≡ identity_of log },
}

/// Takes the last pass, of a ring, from a list of its passes.
pub(crate) fn pops_pass(log: &RingLog, passes: &mut Vec<RingPass>) -> Option<RingPass>
    requires { All (λ pass. log_of pass ≡ identity_of log.now) passes.old.items }
    ensures rest { All (λ pass. log_of pass ≡ identity_of log.now) passes.new.items }
    ensures last { IfSome result (λ pass. log_of pass ≡ identity_of log.now) }
{
    passes.pop()
}

/// The ring with the last two of its passes.
pub(crate) fn pair_of(log: RingLog, mut passes: Vec<RingPass>) -> Option<Pair>
    requires { All (λ pass. log_of pass ≡ identity_of log) passes.items }
    ensures { IfSome result (λ pair. pair.log ≡ log) }
{
    let second = pops_pass(&log, &mut passes)?;
    let first = pops_pass(&log, &mut passes)?;
    Some(Pair { log, first, second })
}

/// Opens a ring with so many rows, two sessions and no spare.
fn opens_pair(alloc: Global, rows: u64) -> Option<Pair> {
    let Ok((log, passes, _)) = RingLog::open(alloc, rows, 2, 0) else {
        return None;
    };
    pair_of(log, passes)
}

impl Pair {
    /// Whether the second pass reads the last of 13 entries of the first in four rows.
    fn goes_round(&mut self) -> bool {
        let one = self.log.number(&self.first);
        let added = adds_each(&self.log, &mut self.first, 0, 13);
        added & reads_the_last(&self.log, &mut self.second, one)
    }

    /// Whether the second pass misses entry 9 and reads entry 10, once it added the 14th.
    fn goes_further(&mut self) -> bool {
        let one = self.log.number(&self.first);
        let added = adds(&self.log, &mut self.second, 77);
        let missed = misses(&self.log, &mut self.second, 9);
        added & missed & reads(&self.log, &mut self.second, 10, one, 10)
    }
}

#[test]
fn ring_goes_round_three_times(rt: HostRuntime) {
    let Some(mut pair) = opens_pair(rt.alloc(), 4) else {
        panic!(rt; "not opened")
    };
    assert!(rt; pair.goes_round());
    assert!(rt; pair.goes_further());
}

impl Pair {
    /// Whether the second pass has seen three entries of the first, which then adds two more.
    fn falls_behind(&mut self) -> bool {
        let added = adds_each(&self.log, &mut self.first, 0, 3);
        let looked = self.log.look(&mut self.second) == 3;
        added & looked & adds_each(&self.log, &mut self.first, 3, 2)
    }

    /// Whether the second pass, which is behind, misses entry 0, reads entry 1, and has still seen three entries.
    fn is_told(&mut self) -> bool {
        let one = self.log.number(&self.first);
        let missed = misses(&self.log, &mut self.second, 0);
        let read = reads(&self.log, &mut self.second, 1, one, 1);
        missed & read & (self.log.length(&self.second) == 3)
    }
}

#[test]
fn slow_pass_is_told_that_it_is_behind(rt: HostRuntime) {
    let Some(mut pair) = opens_pair(rt.alloc(), 4) else {
        panic!(rt; "not opened")
    };
    assert!(rt; pair.falls_behind());
    assert!(rt; pair.is_told());
}

/// Looks as `RingLog::look` does, but another pass adds between the step that sees the history and those that follow
/// the links.
fn looks_slowly(log: &RingLog, slow: &mut RingPass, fast: &mut RingPass, more: u64) -> bool
    requires slow { log_of slow.old ≡ identity_of log.now }
    requires fast { log_of fast.old ≡ identity_of log.now }
    ensures slow { log_of slow.new ≡ identity_of log.now }
    ensures fast { log_of fast.new ≡ identity_of log.now }
{
    let first = slow.count;
    let newest = log.load_newest(&mut slow.seat);
    let added = adds_each(log, fast, 100, more);
    let count = count_from(log.columns, slow.newest, first, newest);
    slow.low = log.fill(
        &mut slow.seat,
        &mut slow.columns,
        slow.low,
        first,
        count,
        newest,
    );
    slow.newest = newest;
    slow.count = count;
    added
}

/// Whether a pass that looks slowly has the columns from a place on.
fn looks_slowly_to(
    log: &RingLog,
    slow: &mut RingPass,
    fast: &mut RingPass,
    more: u64,
    low: u64,
) -> bool
    requires slow { log_of slow.old ≡ identity_of log.now }
    requires fast { log_of fast.old ≡ identity_of log.now }
    ensures slow { log_of slow.new ≡ identity_of log.now }
    ensures fast { log_of fast.new ≡ identity_of log.now }
{
    looks_slowly(log, slow, fast, more) && slow.low == low
}

impl Pair {
    /// Whether the second pass, slow, has entry 3 and not entry 1 after a look in which the first added two entries.
    fn looks_past_one(&mut self) -> bool {
        let one = self.log.number(&self.first);
        let looked = looks_slowly_to(&self.log, &mut self.second, &mut self.first, 2, 0);
        let missed = misses(&self.log, &mut self.second, 1);
        looked & missed & reads(&self.log, &mut self.second, 3, one, 3)
    }

    /// Whether the second pass, slow, lost entry 4 in a look in which the first added four entries, and then reads
    /// entry 9.
    fn looks_past_five(&mut self) -> bool {
        let one = self.log.number(&self.first);
        let looked = looks_slowly_to(&self.log, &mut self.second, &mut self.first, 4, 5);
        let missed = misses(&self.log, &mut self.second, 4);
        let again = self.log.look(&mut self.second) == 10;
        looked & missed & again & reads(&self.log, &mut self.second, 9, one, 103)
    }

    /// Whether the second pass adds an entry, and the first then three.
    fn adds_one_and_three(&mut self) -> bool {
        let added = adds(&self.log, &mut self.second, 50);
        added & adds_each(&self.log, &mut self.first, 1, 3)
    }
}

#[test]
fn links_of_cells_that_were_used_again_are_not_followed(rt: HostRuntime) {
    let Some(mut pair) = opens_pair(rt.alloc(), 4) else {
        panic!(rt; "not opened")
    };
    assert!(rt; pair.adds_one_and_three());
    assert!(rt; pair.looks_past_one());
    assert!(rt; pair.looks_past_five());
}

/// Stores all words of a cell, and stops before the exchange.
fn stops(log: &RingLog, pass: &mut RingPass, entry: &Entry)
    requires belongs { log_of pass.old ≡ identity_of log.now }
    requires own { entry.now.session ≡ (known_of pass.old).number }
    ensures belongs { log_of pass.new ≡ identity_of log.now }
    ensures known { known_of pass.new ≡ known_of pass.old }
{
    let number = pass.number.get();
    let place = pass.count;
    if place < 100 {
        let own = entry_name(log.columns, place, number);
        let start = log.start(place, number);
        log.write_cell(&mut pass.seat, start, own, pass.newest, entry);
    }
}

/// Whether a pass that stopped is overtaken when it goes on, and then adds.
fn goes_on(log: &RingLog, pass: &mut RingPass, entry: &Entry) -> bool
    requires belongs { log_of pass.old ≡ identity_of log.now }
    requires own { entry.now.session ≡ (known_of pass.old).number }
    ensures belongs { log_of pass.new ≡ identity_of log.now }
{
    log.try_add(pass, entry) == Err(AddFault::Overtaken { front: 7 })
        && log.try_add(pass, entry) == Ok(())
}

impl Pair {
    /// Whether the first pass adds two entries. It then writes its cell for an entry of its own, and stops.
    fn stops_late(&mut self, entry: &Entry) -> bool
        requires own { entry.now.session ≡ (known_of self.old.first).number }
        ensures own { entry.now.session ≡ (known_of self.new.first).number }
    {
        let started = adds_each(&self.log, &mut self.first, 1, 2);
        stops(&self.log, &mut self.first, entry);
        started
    }

    /// Whether the second pass adds five entries, and reads the last.
    fn is_not_held_up(&mut self) -> bool
        ensures first { self.new.first ≡ self.old.first }
    {
        let two = self.log.number(&self.second);
        let added = adds_each(&self.log, &mut self.second, 3, 5);
        added & reads(&self.log, &mut self.second, 6, two, 7)
    }

    /// Whether the first pass goes on with its entry, and the second has seen eight entries after both met.
    fn goes_on_and_meets(&mut self, entry: &Entry) -> bool
        requires own { entry.now.session ≡ (known_of self.old.first).number }
    {
        let went_on = goes_on(&self.log, &mut self.first, entry);
        self.log.meet(&mut self.first, &mut self.second);
        went_on & (self.log.length(&self.second) == 8)
    }

    /// Whether a pass that stops before its exchange holds up no other.
    fn holds_up_nobody(&mut self) -> bool {
        let Some(entry) = delete(self.log.number(&self.first), 0) else {
            return false;
        };
        let stopped = self.stops_late(&entry);
        let added = self.is_not_held_up();
        stopped & added & self.goes_on_and_meets(&entry)
    }
}

#[test]
fn a_pass_that_stops_before_its_exchange_holds_up_nobody(rt: HostRuntime) {
    let Some(mut pair) = opens_pair(rt.alloc(), 2) else {
        panic!(rt; "not opened")
    };
    assert!(rt; pair.holds_up_nobody());
}

/// Whether a pass looks, appends an entry of its own after all that it saw, and finds it.
fn looks_adds_and_finds(log: &RingLog, pass: &mut RingPass, letter: u8) -> bool
    requires { log_of pass.old ≡ identity_of log.now }
    ensures { log_of pass.new ≡ identity_of log.now }
{
    let front = log.look(pass);
    let Some(entry) = delete(log.number(pass), letter) else {
        return false;
    };
    if log.try_add(pass, &entry) != Ok(()) {
        return false;
    }
    log.length(pass) - front == 1 && log.entry(pass, front) == Some(entry)
}

impl Pair {
    /// Whether each pass appends an entry and finds it, and the second can read the first's.
    fn finds_both(&mut self) -> bool {
        let first = looks_adds_and_finds(&self.log, &mut self.first, 1);
        let second = looks_adds_and_finds(&self.log, &mut self.second, 2);
        first & second & !misses(&self.log, &mut self.second, 0)
    }

    /// Whether the first pass appends an entry more, and the oldest of the three is lost, but not the next.
    fn loses_the_oldest(&mut self) -> bool {
        let third = looks_adds_and_finds(&self.log, &mut self.first, 3);
        let lost = misses(&self.log, &mut self.first, 0);
        third & lost & !misses(&self.log, &mut self.first, 1)
    }
}

#[test]
fn a_ring_is_a_log_that_may_lose_old_entries(rt: HostRuntime) {
    let Some(mut pair) = opens_pair(rt.alloc(), 2) else {
        panic!(rt; "not opened")
    };
    assert!(rt; pair.finds_both());
    assert!(rt; pair.loses_the_oldest());
}

/// Whether a pass of session 16 adds five entries, and reads the last.
fn session_16_goes_round(log: &RingLog, pass: &mut RingPass) -> bool
    requires { log_of pass.old ≡ identity_of log.now }
{
    let last = log.number(pass);
    let added = adds_each(log, pass, 0, 5);
    (last.get() == 16) & added & reads(log, pass, 4, last, 4)
}

/// Whether the last of some passes, of session 16, goes round.
fn last_goes_round(log: &RingLog, mut passes: Vec<RingPass>) -> bool
    requires { All (λ pass. log_of pass ≡ identity_of log.now) passes.items }
{
    let Some(mut pass) = pops_pass(log, &mut passes) else {
        return false;
    };
    session_16_goes_round(log, &mut pass)
}

/// Whether there are 16 passes and 4 spares, and the cells of two rows and 20 columns fill the words.
fn has_the_most(log: &RingLog, passes: &Vec<RingPass>, spares: &Vec<RingSpare>) -> bool
    requires { 20 ≤ log.now.columns }
{
    let counted = (passes.len() == 16) & (spares.len() == 4);
    counted & (log.start(1, 20) + 23 == 921)
}

#[test]
fn a_ring_opens_with_the_most_sessions_and_spares(rt: HostRuntime) {
    let Ok((log, passes, spares)) = RingLog::open(rt.alloc(), 2, 16, 4) else {
        panic!(rt; "not opened")
    };
    assert!(rt; has_the_most(&log, &passes, &spares));
    assert!(rt; last_goes_round(&log, passes));
}

/// Two threads, each its own, add `EACH` entries each.
fn two_threads_add<R: Threads>(
    rt: &R,
    log: &RingLog,
    mut first: RingPass,
    mut second: RingPass,
) -> bool
    requires first { log_of first ≡ identity_of log.now }
    requires second { log_of second ≡ identity_of log.now }
{
    let (one, two) = thread::join(
        rt,
        move || adds_each(log, &mut first, 0, EACH),
        move || adds_each(log, &mut second, 0, EACH),
    );
    one && two
}

/// Whether a pass that looks at all entries of two sessions misses the oldest, and the newest is the last of one.
fn sees_both(log: &RingLog, pass: &mut RingPass, one: SessionNo, two: SessionNo) -> bool
    requires { log_of pass.old ≡ identity_of log.now }
{
    let looked = log.look(pass) == 2 * EACH;
    let missed = misses(log, pass, 0);
    let last = reads(log, pass, 2 * EACH - 1, one, 99);
    looked & missed & (last | reads(log, pass, 2 * EACH - 1, two, 99))
}

/// Whether a third pass sees the entries that two threads add by two others.
fn third_sees_both<R: Threads>(rt: &R, pair: Pair, mut third: RingPass) -> bool
    requires { log_of third ≡ identity_of pair.log }
{
    let Pair { log, first, second } = pair;
    let one = log.number(&first);
    let two = log.number(&second);
    let added = two_threads_add(rt, &log, first, second);
    added & sees_both(&log, &mut third, one, two)
}

/// Whether the last of three passes sees the entries that two threads add by the others.
fn last_sees_both<R: Threads>(rt: &R, log: RingLog, mut passes: Vec<RingPass>) -> bool
    requires { All (λ pass. log_of pass ≡ identity_of log) passes.items }
{
    let Some(third) = pops_pass(&log, &mut passes) else {
        return false;
    };
    match pair_of(log, passes) {
        Some(pair) => third_sees_both(rt, pair, third),
        None => false,
    }
}

#[test]
fn two_threads_go_round_a_ring_of_four_rows(rt: HostRuntime) {
    let Ok((log, passes, _)) = RingLog::open(rt.alloc(), 4, 3, 0) else {
        panic!(rt; "not opened")
    };
    assert!(rt; last_sees_both(&rt, log, passes));
}

/// Whether a pass that has seen three entries adds the fourth.
fn adds_the_fourth(log: &RingLog, pass: &mut RingPass) -> bool
    requires { log_of pass.old ≡ identity_of log.now }
{
    let seen = log.length(pass) == 3;
    let added = adds(log, pass, 3);
    seen & added & (log.length(pass) == 4)
}

/// Whether a pass that rested goes on as it was.
fn rests_and_goes_on(log: &RingLog, mut pass: RingPass) -> bool
    requires { log_of pass ≡ identity_of log.now }
{
    let added = adds_each(log, &mut pass, 0, 3);
    let Some(mut awake) = pass.rest().wake() else {
        return false;
    };
    added & adds_the_fourth(log, &mut awake)
}

/// Whether the last of some passes, of session 2, goes on after it rested.
fn last_goes_on(log: &RingLog, mut passes: Vec<RingPass>) -> bool
    requires { All (λ pass. log_of pass ≡ identity_of log.now) passes.items }
{
    match pops_pass(log, &mut passes) {
        Some(pass) => rests_and_goes_on(log, pass),
        None => false,
    }
}

/// Whether the last of some spares is there after it rested.
fn last_wakes(mut spares: Vec<RingSpare>) -> bool {
    match spares.pop() {
        Some(spare) => spare.rest().wake().is_some(),
        None => false,
    }
}

#[test]
fn a_pass_that_rested_goes_on(rt: HostRuntime) {
    let Ok((log, passes, spares)) = RingLog::open(rt.alloc(), 4, 2, 1) else {
        panic!(rt; "not opened")
    };
    assert!(rt; last_goes_on(&log, passes));
    assert!(rt; last_wakes(spares));
}
