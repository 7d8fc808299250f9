//! A coordinator over two endless stores, beside other clients.
//!
//! A test whose name ends in `_survives` passes whether or not one allocation in it fails. Sessions are dropped by
//! calls of `drop`, as in `src/tests.rt`.
ghost use Rattle.std.specs.Prelude.{◌≡◌, ◌<◌, IfSome, vec_len};
ghost use Rattle.xa_coordinator.specs.declared.transaction.VoteKind.TheVariants.{Ready as VoteKindReady};

use crate::tests::{branch, finds, misses, opened, put, puts, taken, text_of, told};
use crate::{EndlessSession, EndlessStore};
use std::alloc::Global;
use std::sync::{Arc, Wait};
use std::thread;
use std::thread::Threads;
use xa_coordinator::{Coordinator, Decisions, Ending, Prepared, Report, Transaction, Vote};
use xa_server::Reply;
use xa_session::Answer;
use xa_xid::{Key, Statement};

/// A coordinator over session 1 of each of two stores, and its decisions.
#[derive(Drop)]
struct Team {
    coordinator: Coordinator<EndlessSession>,
    decisions: Decisions,
    ghost two: { vec_len coordinator.stores ≡ 2 },
}

impl Team {
    /// A coordinator that has these decisions.
    fn over(
        alloc: Global,
        first: &Arc<EndlessStore>,
        second: &Arc<EndlessStore>,
        decisions: Decisions,
    ) -> Option<Team> {
        let mut stores = Vec::new(alloc);
        // A session that is dropped can't be taken again, so the room is there first.
        if stores.reserve(2).is_err() {
            stores.reserve(2).ok()?;
        }
        stores.push_reserved(taken(first, 1)?);
        stores.push_reserved(taken(second, 1)?);
        let coordinator = Coordinator::new(text_of(b'c'), stores);
        Some(Team {
            coordinator,
            decisions,
        })
    }

    /// A transaction that is begun.
    fn begins(&mut self) -> Option<Transaction>
        ensures same { self.new.coordinator ≡ self.old.coordinator }
        ensures name { IfSome result (λ transaction. transaction.name.items ≡ self.new.coordinator.name.items) }
        ensures stores { IfSome result (λ transaction. transaction.stores ≡ 2) }
    {
        match self.coordinator.begin(&mut self.decisions) {
            Ok(transaction) => Some(transaction),
            Err(_) => self.coordinator.begin(&mut self.decisions).ok(),
        }
    }

    /// Whether a row is written in a store.
    fn writes<R: Wait>(
        &mut self,
        rt: &R,
        transaction: &mut Transaction,
        store: u8,
        letter: u8,
    ) -> bool
        requires name { transaction.old.name.items ≡ self.old.coordinator.name.items }
        requires stores { transaction.old.stores ≡ 2 }
        requires store { store < 2 }
        ensures name { transaction.new.name.items ≡ self.new.coordinator.name.items }
        ensures stores { transaction.new.stores ≡ 2 }
    {
        let Some(put) = put(letter) else {
            return false;
        };
        let first = self.coordinator.work(rt, transaction, store, &put);
        if matches!(first, Ok(Reply::Ok)) {
            return true;
        }
        let again = self.coordinator.work(rt, transaction, store, &put);
        matches!(again, Ok(Reply::Ok))
    }

    /// A transaction that writes a row in both stores, prepared there: four entries in each.
    fn prepares<R: Wait>(&mut self, rt: &R, letter: u8) -> Option<Prepared>
        ensures name { IfSome result (λ prepared. prepared.transaction.name.items ≡ self.new.coordinator.name.items) }
        ensures stores { IfSome result (λ prepared. prepared.transaction.stores ≡ 2) }
        ensures ready { IfSome result (λ prepared. prepared.vote_kind ≡ VoteKindReady) }
    {
        let mut transaction = self.begins()?;
        if !self.writes(rt, &mut transaction, 0, letter)
            || !self.writes(rt, &mut transaction, 1, letter)
        {
            return None;
        }
        match self.coordinator.prepare(rt, transaction) {
            Vote::Ready(prepared) => Some(prepared),
            _ => None,
        }
    }

    /// Whether a transaction commits that writes a row in both stores: five entries in each.
    fn commits<R: Wait>(&mut self, rt: &R, letter: u8) -> bool {
        let Some(prepared) = self.prepares(rt, letter) else {
            return false;
        };
        if self.decisions.decide(&prepared).is_err() {
            return false;
        }
        let ending = self.coordinator.finish(rt, &self.decisions, prepared);
        matches!(ending, Ending::Committed)
    }

    /// Whether so many transactions commit.
    fn commits_each<R: Wait>(&mut self, rt: &R, letter: u8, count: u64) -> bool {
        for _ in 0..count {
            if !self.commits(rt, letter) {
                return false;
            }
        }
        true
    }

    /// Stops the coordinator. Its sessions leave, and its decisions stay.
    fn stops(self) -> Decisions {
        let Team {
            coordinator,
            decisions,
        } = self;
        for session in coordinator.stop() {
            session.leave();
        }
        decisions
    }

    /// What a recovery finds and does.
    fn recovers<R: Wait>(&mut self, rt: &R, alloc: Global) -> Option<Report> {
        match self.coordinator.recover(rt, alloc, &mut self.decisions) {
            Ok(report) => Some(report),
            Err(_) => self
                .coordinator
                .recover(rt, alloc, &mut self.decisions)
                .ok(),
        }
    }
}

/// A coordinator without decisions.
fn begun(alloc: Global, first: &Arc<EndlessStore>, second: &Arc<EndlessStore>) -> Option<Team> {
    Team::over(alloc, first, second, Decisions::new(alloc))
}

/// Whether another client of a store finds a row at this place, and no prepared branch.
fn reads(store: &Arc<EndlessStore>, letter: u8, place: u64) -> bool {
    let Some(mut session) = taken(store, 2) else {
        return false;
    };
    let found = finds(&mut session, letter, place) && lists(&mut session, 0);
    drop(session);
    found
}

/// Two stores.
#[derive(Drop)]
struct Stores {
    north: Arc<EndlessStore>,
    south: Arc<EndlessStore>,
}

/// Two new stores of so many rows and sessions each.
fn two_stores(alloc: Global, rows: u64, sessions: u64) -> Option<Stores> {
    let north = opened(alloc, rows, sessions)?;
    let south = opened(alloc, rows, sessions)?;
    Some(Stores { north, south })
}

/// Whether so many transactions of a coordinator over two stores commit.
fn commits_over<R: Wait>(rt: &R, alloc: Global, stores: &Stores, count: u64) -> bool {
    match begun(alloc, &stores.north, &stores.south) {
        Some(mut team) => team.commits_each(rt, b'k', count),
        None => false,
    }
}

/// Whether two thousand transactions of a coordinator commit, and another client of each store finds the last.
fn goes_through<R: Wait>(rt: &R, alloc: Global, stores: &Stores) -> bool {
    commits_over(rt, alloc, stores, 2_000)
        && reads(&stores.north, b'k', 10_000)
        && reads(&stores.south, b'k', 10_000)
}

/// Two thousand transactions: 10,000 entries in each store, which are 156 laps of 64 rows.
#[test]
fn two_thousand_transactions_go_through_two_small_rings(rt: HostRuntime) {
    let goes_through = match two_stores(rt.alloc(), 64, 2) {
        Some(stores) => goes_through(&rt, rt.alloc(), &stores),
        None => false,
    };
    assert!(rt; goes_through);
}

/// Whether so many branches are prepared.
fn lists(session: &mut EndlessSession, count: usize) -> bool {
    let Some(answer) = told(session, &Statement::Recover { convert: false }) else {
        return false;
    };
    match &answer.reply {
        Reply::Recovered(xids) => xids.as_slice().len() == count,
        _ => false,
    }
}

/// Prepares a transaction that is decided, and one that isn't, in both stores, and stops: eight entries in each.
fn stopped<R: Wait>(
    rt: &R,
    alloc: Global,
    north: &Arc<EndlessStore>,
    south: &Arc<EndlessStore>,
) -> Option<Decisions> {
    let mut team = Team::over(alloc, north, south, Decisions::new(alloc))?;
    let prepared = team.prepares(rt, b'k')?;
    team.decisions.decide(&prepared).ok()?;
    team.prepares(rt, b'u')?;
    Some(team.stops())
}

/// Whether another client adds so many entries to a store, in which two branches are prepared.
fn goes_round(other: &mut EndlessSession, added: u64) -> bool {
    puts(other, b'r', added) && lists(other, 2)
}

/// Whether the decided transaction is committed in a store, and the other rolled back, once the store has so many
/// entries.
fn stands(other: &mut EndlessSession, entries: u64) -> bool {
    finds(other, b'k', entries) && misses(other, b'u', entries) && lists(other, 0)
}

/// A client of each of two stores, beside a coordinator.
#[derive(Drop)]
struct Clients {
    first: EndlessSession,
    second: EndlessSession,
}

/// Takes the session of a number of each store.
fn clients_of(stores: &Stores, number: u64) -> Option<Clients> {
    let first = taken(&stores.north, number)?;
    let Some(second) = taken(&stores.south, number) else {
        drop(first);
        return None;
    };
    Some(Clients { first, second })
}

impl Clients {
    /// Whether each adds so many entries to its store, in which two branches are prepared.
    fn go_round(&mut self, added: u64) -> bool {
        goes_round(&mut self.first, added) && goes_round(&mut self.second, added)
    }

    /// Whether the decided transaction is committed in both stores, and the other rolled back. Each store has eight
    /// entries of the coordinator from before, and two of the recovery.
    fn stand(&mut self, added: u64) -> bool {
        let entries = added.saturating_add(10);
        stands(&mut self.first, entries) && stands(&mut self.second, entries)
    }
}

/// What a new coordinator that has these decisions finds and does in a recovery.
fn recovers<R: Wait>(
    rt: &R,
    alloc: Global,
    stores: &Stores,
    decisions: Decisions,
) -> Option<Report> {
    Team::over(alloc, &stores.north, &stores.south, decisions)?.recovers(rt, alloc)
}

/// The decisions of a coordinator that stopped before the clients went round, if its transactions are still prepared.
fn stopped_long_ago<R: Wait>(
    rt: &R,
    alloc: Global,
    stores: &Stores,
    clients: &mut Clients,
    added: u64,
) -> Option<Decisions> {
    let decisions = stopped(rt, alloc, &stores.north, &stores.south)?;
    if clients.go_round(added) {
        Some(decisions)
    } else {
        None
    }
}

/// What a recovery does, long after a coordinator stopped.
fn recovered_beside<R: Wait>(
    rt: &R,
    alloc: Global,
    stores: &Stores,
    clients: &mut Clients,
    added: u64,
) -> Option<Report> {
    let decisions = stopped_long_ago(rt, alloc, stores, clients, added)?;
    recovers(rt, alloc, stores, decisions)
}

/// The same, if both stores then are as they should be.
fn recovered_in<R: Wait>(rt: &R, alloc: Global, stores: &Stores, added: u64) -> Option<Report> {
    let mut clients = clients_of(stores, 2)?;
    let report = recovered_beside(rt, alloc, stores, &mut clients, added);
    let stands = clients.stand(added);
    drop(clients);
    if stands { report } else { None }
}

/// What a recovery does in two new stores of eight rows, after other clients have added so many entries to each.
fn recovered<R: Wait>(rt: &R, alloc: Global, added: u64) -> Option<Report> {
    recovered_in(rt, alloc, &two_stores(alloc, 8, 2)?, added)
}

/// Whether a recovery has committed two branches and rolled back two, and missed none.
fn is_whole(report: &Report) -> bool {
    report.committed == 2 && report.rolled_back == 2 && report.missing == 0
}

#[test]
fn recovery_finds_what_was_prepared_200_laps_ago(rt: HostRuntime) {
    let found = match recovered(&rt, rt.alloc(), 1_600) {
        Some(report) => is_whole(&report),
        None => false,
    };
    assert!(rt; found);
}

/// Growths of 20 laps are refused in turn: those of 200 repeat them.
#[test]
fn recovery_after_20_laps_survives(rt: HostRuntime) {
    assert!(rt; recovered(&rt, rt.alloc(), 160).is_some());
}

/// Whether a statement is carried out.
fn does<R: Wait>(rt: &R, session: &mut EndlessSession, statement: &Statement) -> bool {
    matches!(
        session.execute(rt, statement),
        Ok(Answer {
            reply: Reply::Ok,
            ..
        })
    )
}

/// Whether a branch of another client commits that writes a row: four entries.
fn writes<R: Wait>(rt: &R, session: &mut EndlessSession, letter: u8) -> bool {
    let Some(put) = put(letter) else {
        return false;
    };
    let commit = Statement::Commit {
        xid: branch(letter),
        one_phase: true,
    };
    does(rt, session, &Statement::Start(branch(letter)))
        && does(rt, session, &put)
        && does(rt, session, &Statement::End(branch(letter)))
        && does(rt, session, &commit)
}

/// Whether so many branches of another client commit.
fn writes_often<R: Wait>(rt: &R, session: &mut EndlessSession, letter: u8, count: u64) -> bool {
    for _ in 0..count {
        if !writes(rt, session, letter) {
            return false;
        }
    }
    true
}

/// The same, of a client that ends then.
fn writes_each<R: Wait>(rt: &R, mut session: EndlessSession, letter: u8, count: u64) -> bool {
    let written = writes_often(rt, &mut session, letter, count);
    drop(session);
    written
}

impl Clients {
    /// Whether so many branches of each commit, each client on a thread of its own.
    fn write_each<R: Threads + Wait + Sync>(self, rt: &R, count: u64) -> bool {
        let Clients { first, second } = self;
        let (left, right) = thread::join(
            rt,
            move || writes_each(rt, first, b'a', count),
            move || writes_each(rt, second, b'b', count),
        );
        left && right
    }
}

/// The coordinator and another client of each store, each on a thread of its own.
fn side_by_side<R: Threads + Wait + Sync>(
    rt: &R,
    mut team: Team,
    clients: Clients,
    count: u64,
) -> bool {
    let (committed, written) = thread::join(
        rt,
        move || team.commits_each(rt, b'k', count),
        move || clients.write_each(rt, count),
    );
    committed && written
}

/// Whether a coordinator writes beside these clients.
fn beside_clients<R: Threads + Wait + Sync>(
    rt: &R,
    alloc: Global,
    stores: &Stores,
    clients: Clients,
    count: u64,
) -> bool {
    match begun(alloc, &stores.north, &stores.south) {
        Some(team) => side_by_side(rt, team, clients, count),
        None => {
            drop(clients);
            false
        }
    }
}

/// Whether a coordinator and another client of each store write side by side.
fn beside<R: Threads + Wait + Sync>(rt: &R, alloc: Global, stores: &Stores, count: u64) -> bool {
    match clients_of(stores, 2) {
        Some(clients) => beside_clients(rt, alloc, stores, clients, count),
        None => false,
    }
}

/// Whether a third client of a store finds the coordinator's row, and that of another client, and no prepared branch.
fn finds_both(store: &Arc<EndlessStore>, letter: u8) -> bool {
    let Some(mut third) = taken(store, 3) else {
        return false;
    };
    let found = finds(&mut third, b'k', 9_000)
        && finds(&mut third, letter, 9_000)
        && lists(&mut third, 0);
    drop(third);
    found
}

/// Whether a thousand transactions commit beside other clients, and third clients find what was written.
fn writes_beside<R: Threads + Wait + Sync>(rt: &R, alloc: Global, stores: &Stores) -> bool {
    beside(rt, alloc, stores, 1_000)
        && finds_both(&stores.north, b'a')
        && finds_both(&stores.south, b'b')
}

/// A thousand transactions beside a thousand branches of other clients: 9,000 entries, or 281 laps of 32 rows.
#[test]
fn other_clients_write_beside_a_coordinator(rt: HostRuntime) {
    let written = match two_stores(rt.alloc(), 32, 3) {
        Some(stores) => writes_beside(&rt, rt.alloc(), &stores),
        None => false,
    };
    assert!(rt; written);
}

/// Writes the rows of so many keys of two letters each.
fn fills<R: Wait>(rt: &R, session: &mut EndlessSession, count: u16) -> bool {
    for number in 0..count {
        let [first, second] = number.to_be_bytes();
        let mut text = text_of(first);
        text.push(second);
        let Some(key) = Key::of(text) else {
            return false;
        };
        if !does(rt, session, &Statement::Put(key, text_of(b'v'))) {
            return false;
        }
    }
    true
}

/// A client of a store: its session, and the letter of its rows.
#[derive(Drop)]
struct Client {
    session: EndlessSession,
    letter: u8,
}

/// The client of a number. The first has the letter `b`.
fn client_of(store: &Arc<EndlessStore>, number: u64) -> Option<Client> {
    let session = taken(store, number)?;
    let after = u8::try_from(number).unwrap_or(0);
    let letter = b'a'.wrapping_add(after);
    Some(Client { session, letter })
}

/// Whether so many branches of a client commit.
fn client_writes<R: Wait>(rt: &R, client: Client, count: u64) -> bool {
    let Client { session, letter } = client;
    writes_each(rt, session, letter, count)
}

/// Two clients of one store.
#[derive(Drop)]
struct Two {
    one: Client,
    other: Client,
}

/// The client of a number, and the next.
fn two_clients(store: &Arc<EndlessStore>, number: u64) -> Option<Two>
    requires { number < 20 }
{
    let one = client_of(store, number)?;
    let Some(other) = client_of(store, number + 1) else {
        drop(one);
        return None;
    };
    Some(Two { one, other })
}

/// Whether so many branches of each of two clients commit, each client on a thread of its own.
fn two_write<R: Threads + Wait + Sync>(rt: &R, two: Two, count: u64) -> bool {
    let Two { one, other } = two;
    let (left, right) = thread::join(
        rt,
        move || client_writes(rt, one, count),
        move || client_writes(rt, other, count),
    );
    left && right
}

/// Four clients of one store.
#[derive(Drop)]
struct Four {
    first: Two,
    second: Two,
}

/// The client of a number, and the next three.
fn four_clients(store: &Arc<EndlessStore>, number: u64) -> Option<Four>
    requires { number < 16 }
{
    let first = two_clients(store, number)?;
    let Some(second) = two_clients(store, number + 2) else {
        drop(first);
        return None;
    };
    Some(Four { first, second })
}

/// Whether so many branches of each of four clients commit, each client on a thread of its own.
fn four_write<R: Threads + Wait + Sync>(rt: &R, four: Four, count: u64) -> bool {
    let Four { first, second } = four;
    let (left, right) = thread::join(
        rt,
        move || two_write(rt, first, count),
        move || two_write(rt, second, count),
    );
    left && right
}

/// Whether so many branches of sessions `from` to `from + 3` commit, each on a thread of its own.
fn four_write_from<R: Threads + Wait + Sync>(
    rt: &R,
    store: &Arc<EndlessStore>,
    from: u64,
    count: u64,
) -> bool
    requires { from < 16 }
{
    match four_clients(store, from) {
        Some(four) => four_write(rt, four, count),
        None => false,
    }
}

/// Whether so many branches of sessions 1 to 8 commit, each on a thread of its own.
fn eight_write<R: Threads + Wait + Sync>(rt: &R, store: &Arc<EndlessStore>, count: u64) -> bool {
    let (left, right) = thread::join(
        rt,
        move || four_write_from(rt, store, 1, count),
        move || four_write_from(rt, store, 5, count),
    );
    left && right
}

/// Whether each of the eight clients' rows is there, at this place.
fn each_is_found(session: &mut EndlessSession, place: u64) -> bool {
    for letter in b'b'..b'j' {
        if !finds(session, letter, place) {
            return false;
        }
    }
    true
}

/// Whether session 9 writes 3,000 rows, and finds those of eight clients after 100 branches of each.
fn eight_are_answered<R: Threads + Wait + Sync>(rt: &R, store: &Arc<EndlessStore>) -> bool {
    let Some(mut last) = taken(store, 9) else {
        return false;
    };
    let answered = fills(rt, &mut last, 3_000)
        && eight_write(rt, store, 100)
        && each_is_found(&mut last, 6_200);
    drop(last);
    answered
}

/// In so small a ring most sessions of eight threads are behind most of the time, and go on from checkpoints whose rows
/// are in runs. Each statement is answered all the same: 3,000 rows and 3,200 entries, or 96 laps.
#[test]
fn eight_threads_are_answered_in_a_small_ring_with_many_rows(rt: HostRuntime) {
    let answered = match opened(rt.alloc(), 64, 9) {
        Some(store) => eight_are_answered(&rt, &store),
        None => false,
    };
    assert!(rt; answered);
}
