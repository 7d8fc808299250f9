//! Sessions of an endless store: laps, sleepers, leaving and taking again, handing out the history.
//!
//! A test whose name ends in `_survives` passes whether or not one allocation in it fails; `scripts/sweep` makes each
//! fail in turn. So a step that is refused memory is repeated once.
//!
//! Sessions are dropped by calls of `drop`: the end of a scope would drop each of their fields by itself, which makes a
//! proof much larger.
ghost use Rattle.std.specs.Prelude.{◌≡◌, ◌∷◌, [], IfSome};
ghost use Rattle.chain_log.specs.{Resting.resting_spare_log_of, RingPass.identity_of};
ghost use Rattle.xa_coordinator.specs.Work.{IsRow};

use crate::resting::RestingCheckpoint;
use crate::{EndlessFault, EndlessSession, EndlessStore, Next, Replica, TakeFault, laws};
use chain_log::RingFault;
use std::alloc::Global;
use std::sync::Arc;
use std::thread;
use std::thread::Threads;
use xa_coordinator::Speak;
use xa_server::Reply;
use xa_session::{Answer, Fault};
use xa_xid::{Bytes, Key, Statement, Xid};

/// A text of one letter.
pub(crate) fn text_of(letter: u8) -> Bytes
    ensures { result.items ≡ letter ∷ [] }
{
    let mut text = Bytes::new();
    text.push(letter);
    text
}

/// The statement that gives a row its name's letter as value.
pub(crate) fn put(letter: u8) -> Option<Statement>
    ensures { IfSome result IsRow }
{
    Some(Statement::Put(Key::of(text_of(letter))?, text_of(letter)))
}

/// The statement that asks for a row.
pub(crate) fn get(letter: u8) -> Option<Statement> {
    Some(Statement::Get(Key::of(text_of(letter))?))
}

/// The identifier of a branch, whose gtrid is one letter.
pub(crate) fn branch(letter: u8) -> Xid {
    Xid {
        format_id: 1,
        gtrid: text_of(letter),
        bqual: Bytes::new(),
    }
}

/// A store that is opened.
pub(crate) fn opened(alloc: Global, rows: u64, sessions: u64) -> Option<Arc<EndlessStore>> {
    match EndlessStore::open(alloc, rows, sessions) {
        Err(RingFault::NoMemory) => EndlessStore::open(alloc, rows, sessions).ok(),
        opened => opened.ok(),
    }
}

/// A session that is taken.
pub(crate) fn taken(store: &Arc<EndlessStore>, number: u64) -> Option<EndlessSession> {
    match EndlessStore::take(store, number) {
        Err(TakeFault::NoMemory) => EndlessStore::take(store, number).ok(),
        taken => taken.ok(),
    }
}

/// A store of two sessions, which has two checkpoints, and both sessions.
#[derive(Drop)]
struct Pair {
    store: Arc<EndlessStore>,
    first: EndlessSession,
    second: EndlessSession,
}

/// A new store of so many rows, and both its sessions.
fn new_pair(alloc: Global, rows: u64) -> Option<Pair> {
    let store = opened(alloc, rows, 2)?;
    let first = taken(&store, 1)?;
    let Some(second) = taken(&store, 2) else {
        drop(first);
        return None;
    };
    Some(Pair {
        store,
        first,
        second,
    })
}

/// What a session answers.
pub(crate) fn told(session: &mut EndlessSession, statement: &Statement) -> Option<Answer> {
    match session.attempt(statement) {
        Err(EndlessFault::NoMemory) => session.attempt(statement).ok(),
        answered => answered.ok(),
    }
}

/// Whether each statement is carried out.
fn carries_out(session: &mut EndlessSession, statements: &[Statement]) -> bool {
    for statement in statements {
        let answered = told(session, statement);
        if !matches!(
            answered,
            Some(Answer {
                reply: Reply::Ok,
                ..
            })
        ) {
            return false;
        }
    }
    true
}

/// Whether rows are written, as often as `count` says.
pub(crate) fn puts(session: &mut EndlessSession, letter: u8, count: u64) -> bool {
    let Some(put) = put(letter) else {
        return false;
    };
    for _ in 0..count {
        if told(session, &put).is_none() {
            return false;
        }
    }
    true
}

/// Whether a reply is the value of a row: one letter.
fn is_value(reply: &Reply, letter: u8) -> bool {
    match reply {
        Reply::Value(Some(value)) => value.as_slice() == [letter].as_slice(),
        _ => false,
    }
}

/// Whether a row has its name's letter as value, at this place.
pub(crate) fn finds(session: &mut EndlessSession, letter: u8, place: u64) -> bool {
    let Some(get) = get(letter) else {
        return false;
    };
    let Some(answer) = told(session, &get) else {
        return false;
    };
    answer.place == place && is_value(&answer.reply, letter)
}

/// Whether there is no such row, at this place.
pub(crate) fn misses(session: &mut EndlessSession, letter: u8, place: u64) -> bool {
    let Some(get) = get(letter) else {
        return false;
    };
    let Some(answer) = told(session, &get) else {
        return false;
    };
    answer.place == place && matches!(answer.reply, Reply::Value(None))
}

impl Pair {
    /// Whether the second goes on from a checkpoint, after the ring has lapped it twelve times.
    fn goes_on(&mut self) -> bool {
        misses(&mut self.second, b'r', 0)
            && puts(&mut self.first, b'r', 100)
            && self.first.seen() == 100
            && self.second.folded() == 0
            && finds(&mut self.second, b'r', 100)
            && self.second.folded() == 100
    }
}

#[test]
fn a_session_goes_on_from_a_checkpoint_after_many_laps(rt: HostRuntime) {
    let Some(mut pair) = new_pair(rt.alloc(), 8) else {
        panic!(rt; "two sessions")
    };
    let goes_on = pair.goes_on();
    drop(pair);
    assert!(rt; goes_on);
}

/// Prepares a branch that writes the row `p`, and leaves one open that writes the row `o`: six entries.
fn begins(session: &mut EndlessSession) -> bool {
    let (Some(first), Some(second)) = (put(b'p'), put(b'o')) else {
        return false;
    };
    carries_out(
        session,
        &[
            Statement::Start(branch(b'p')),
            first,
            Statement::End(branch(b'p')),
            Statement::Prepare(branch(b'p')),
            Statement::Start(branch(b'o')),
            second,
        ],
    )
}

/// Works on in the open branch, and commits both: four entries.
fn ends(session: &mut EndlessSession) -> bool {
    let Some(more) = put(b'm') else {
        return false;
    };
    carries_out(
        session,
        &[
            more,
            Statement::End(branch(b'o')),
            Statement::Commit {
                xid: branch(b'o'),
                one_phase: true,
            },
            Statement::Commit {
                xid: branch(b'p'),
                one_phase: false,
            },
        ],
    )
}

/// Whether a row can't be written.
fn is_refused(session: &mut EndlessSession, letter: u8) -> bool {
    let Some(put) = put(letter) else {
        return false;
    };
    let Some(answer) = told(session, &put) else {
        return false;
    };
    answer.reply.is_refused()
}

impl Pair {
    /// Whether the first's branches and their locks stand while it sleeps and the second adds so many entries.
    fn sleeps(&mut self, added: u64) -> bool {
        begins(&mut self.first)
            && puts(&mut self.second, b'r', added)
            && self.second.seen() == added.saturating_add(6)
            && self.first.seen() == 6
            && is_refused(&mut self.second, b'p')
    }

    /// Whether it goes on after that, and the second finds all that it wrote.
    fn wakes(&mut self, added: u64) -> bool {
        let all = added.saturating_add(10);
        ends(&mut self.first)
            && finds(&mut self.second, b'p', all)
            && finds(&mut self.second, b'o', all)
            && finds(&mut self.second, b'm', all)
    }
}

/// Whether a session finds all as it was after a sleep in which another adds so many entries to eight rows.
fn sleeps_well(alloc: Global, added: u64) -> bool {
    let Some(mut pair) = new_pair(alloc, 8) else {
        return false;
    };
    let woken = pair.sleeps(added) && pair.wakes(added);
    drop(pair);
    woken
}

#[test]
fn a_session_sleeps_for_200_laps(rt: HostRuntime) {
    assert!(rt; sleeps_well(rt.alloc(), 1_600));
}

/// Each lap takes memory as the one before, so growths of 20 are refused in turn, and not those of 200.
#[test]
fn session_that_sleeps_for_20_laps_survives(rt: HostRuntime) {
    assert!(rt; sleeps_well(rt.alloc(), 160));
}

/// Whether a session that leaves with two branches is taken again with all that it had: its branches, its replica, and
/// what it has handed out.
fn comes_back(store: &Arc<EndlessStore>, mut session: EndlessSession) -> bool {
    let number = session.number().get();
    let left = begins(&mut session) && matches!(session.next_entry(), Next::Entry(_));
    session.leave();
    let Some(mut again) = taken(store, number) else {
        return false;
    };
    let same = again.number().get() == number && again.folded() == 6;
    let goes_on = hands_out(&mut again, b'p') && ends(&mut again);
    drop(again);
    left && same && goes_on
}

/// Whether a session can't be taken, for this cause.
fn is_not_taken(store: &Arc<EndlessStore>, number: u64, fault: TakeFault) -> bool {
    EndlessStore::take(store, number).err() == Some(fault)
}

/// Whether the first session of two can't be taken twice, and is taken again after it left.
fn is_taken_again(store: &Arc<EndlessStore>) -> bool {
    let Some(first) = taken(store, 1) else {
        return false;
    };
    let refused = is_not_taken(store, 1, TakeFault::Taken)
        && is_not_taken(store, 0, TakeFault::OutOfRange)
        && is_not_taken(store, 3, TakeFault::OutOfRange);
    comes_back(store, first) && refused
}

#[test]
fn a_session_that_left_is_taken_again(rt: HostRuntime) {
    let comes_back = match opened(rt.alloc(), 8, 2) {
        Some(store) => is_taken_again(&store),
        None => false,
    };
    assert!(rt; comes_back);
}

/// Whether the next entry is session 1's `PUT` of a letter.
fn hands_out(session: &mut EndlessSession, letter: u8) -> bool {
    match (session.next_entry(), put(letter)) {
        (Next::Entry(entry), Some(put)) => {
            entry.session().get() == 1 && *entry.statement() == put
        }
        _ => false,
    }
}

/// Whether the next entries are session 1's `PUT`s of letters from one to before another.
fn hands_out_each(session: &mut EndlessSession, from: u8, to: u8) -> bool {
    for letter in from..to {
        if !hands_out(session, letter) {
            return false;
        }
    }
    true
}

/// Whether the rows of letters from one to before another are written.
fn puts_each(session: &mut EndlessSession, from: u8, to: u8) -> bool {
    for letter in from..to {
        if !puts(session, letter, 1) {
            return false;
        }
    }
    true
}

/// Whether all that the history has was handed out.
fn is_at_end(session: &mut EndlessSession) -> bool {
    matches!(session.next_entry(), Next::End)
}

/// Whether so many entries are lost next.
fn loses(session: &mut EndlessSession, count: u64) -> bool {
    match session.next_entry() {
        Next::Lost(lost) => lost == count,
        _ => false,
    }
}

impl Pair {
    /// Whether the second hands out three entries of the first in time.
    fn follows_in_time(&mut self) -> bool {
        is_at_end(&mut self.second)
            && puts_each(&mut self.first, 1, 4)
            && hands_out_each(&mut self.second, 1, 4)
            && is_at_end(&mut self.second)
    }

    /// Whether the second loses fourteen of the next twenty, and hands out the last six. It replays nothing meanwhile,
    /// and goes on from a checkpoint.
    fn follows_too_late(&mut self) -> bool {
        puts_each(&mut self.first, 4, 24)
            && loses(&mut self.second, 14)
            && hands_out_each(&mut self.second, 18, 24)
            && is_at_end(&mut self.second)
            && self.second.folded() == 0
            && finds(&mut self.second, 23, 23)
    }
}

/// Of 23 entries in eight rows three were handed out in time. The next may begin with the last six, since a quarter of
/// the ring may be overwritten meanwhile: fourteen are lost.
#[test]
fn each_entry_is_handed_out_once_or_lost(rt: HostRuntime) {
    let Some(mut pair) = new_pair(rt.alloc(), 8) else {
        panic!(rt; "two sessions")
    };
    let follows = pair.follows_in_time() && pair.follows_too_late();
    drop(pair);
    assert!(rt; follows);
}

/// How many entries are handed out or lost until this many are, or until it was asked for too long.
fn follows(session: &mut EndlessSession, count: u64) -> u64 {
    let mut told: u64 = 0;
    for _ in 0..10_000_000 {
        match session.next_entry() {
            Next::Entry(_) => told = told.saturating_add(1),
            Next::Lost(lost) => told = told.saturating_add(lost),
            Next::End => thread::yield_now(),
        }
        if told >= count {
            return told;
        }
    }
    told
}

/// One thread adds entries, and another follows them.
fn adds_and_follows<R: Threads>(rt: &R, pair: Pair, count: u64) -> (bool, u64) {
    let Pair {
        mut first,
        mut second,
        ..
    } = pair;
    thread::join(
        rt,
        move || puts(&mut first, b'r', count),
        move || follows(&mut second, count),
    )
}

#[test]
fn a_thread_that_follows_counts_every_entry(rt: HostRuntime) {
    let counts = match new_pair(rt.alloc(), 16) {
        Some(pair) => adds_and_follows(&rt, pair, 3_000),
        None => (false, 0),
    };
    assert!(rt; counts == (true, 3_000));
}

/// Both checkpoints of a store, out of their places, where nobody else can reach them.
#[derive(Drop)]
struct Away {
    one: RestingCheckpoint,
    two: RestingCheckpoint,
}

/// Takes a checkpoint out of its place.
fn takes_out(store: &EndlessStore, index: usize) -> Option<RestingCheckpoint>
    ensures { IfSome result (λ one. resting_spare_log_of one.spare ≡ identity_of store.now.log) }
{
    store.checkpoints.get(index)?.take()
}

/// Takes both checkpoints out of their places.
fn takes_both(store: &EndlessStore) -> Option<Away>
    ensures one { IfSome result (λ away. resting_spare_log_of away.one.spare ≡ identity_of store.now.log) }
    ensures two { IfSome result (λ away. resting_spare_log_of away.two.spare ≡ identity_of store.now.log) }
{
    let one = takes_out(store, 0)?;
    let two = takes_out(store, 1)?;
    Some(Away { one, two })
}

/// Whether a checkpoint is put into its place, which is empty.
fn puts_in(store: &EndlessStore, index: usize, checkpoint: RestingCheckpoint) -> bool
    requires { resting_spare_log_of checkpoint.spare ≡ identity_of store.now.log }
{
    match store.checkpoints.get(index) {
        Some(place) => place.put(checkpoint).is_ok(),
        None => false,
    }
}

/// Whether both checkpoints are put back into their places.
fn puts_both(store: &EndlessStore, away: Away) -> bool
    requires one { resting_spare_log_of away.one.spare ≡ identity_of store.now.log }
    requires two { resting_spare_log_of away.two.spare ≡ identity_of store.now.log }
{
    let Away { one, two } = away;
    let first = puts_in(store, 0, one);
    puts_in(store, 1, two) && first
}

/// Whether a session says that it is behind, also as a coordinator's session.
fn says_behind(session: &mut EndlessSession, letter: u8) -> bool {
    let Some(put) = put(letter) else {
        return false;
    };
    matches!(session.attempt(&put), Err(EndlessFault::Behind))
        && matches!(Speak::attempt(session, &put), Err(Fault::NoMemory))
}

/// Whether a session is behind while nobody can reach the checkpoints.
fn is_behind(store: &EndlessStore, session: &mut EndlessSession, letter: u8) -> bool {
    let Some(away) = takes_both(store) else {
        return false;
    };
    let behind = says_behind(session, letter);
    puts_both(store, away) && behind
}

impl Pair {
    /// Whether nothing stands of a statement for which the second is behind. Once the first has left a checkpoint, the
    /// second goes on.
    fn goes_on_behind(&mut self) -> bool {
        puts(&mut self.first, b'r', 100)
            && misses(&mut self.first, b'x', 100)
            && is_behind(&self.store, &mut self.second, b'x')
            && misses(&mut self.first, b'x', 100)
            && puts(&mut self.second, b'x', 1)
            && finds(&mut self.first, b'x', 101)
    }
}

#[test]
fn a_session_without_a_checkpoint_is_behind(rt: HostRuntime) {
    laws::calls_keep_agreement();
    let Some(mut pair) = new_pair(rt.alloc(), 8) else {
        panic!(rt; "two sessions")
    };
    let goes_on = pair.goes_on_behind();
    drop(pair);
    assert!(rt; goes_on);
}

/// Whether a session adds 100 entries while nobody can reach the checkpoints, so that both are lost.
fn loses_checkpoints(store: &EndlessStore, session: &mut EndlessSession) -> bool {
    let Some(away) = takes_both(store) else {
        return false;
    };
    let added = puts(session, b'r', 100);
    puts_both(store, away) && added
}

/// The replica of a checkpoint, as a session holds it that copies it.
fn held(store: &EndlessStore, index: usize) -> Option<Arc<Replica>> {
    let slot = store.checkpoints.get(index)?;
    let checkpoint = slot.take()?;
    let held = Arc::try_clone(&checkpoint.replica).ok();
    slot.put(checkpoint).ok()?;
    held
}

/// The replicas of both checkpoints of a store.
#[derive(Drop)]
struct Replicas {
    one: Arc<Replica>,
    two: Arc<Replica>,
}

/// Both replicas, as a session holds them that copies them.
fn both_held(store: &EndlessStore) -> Option<Replicas> {
    let one = held(store, 0)?;
    let two = held(store, 1)?;
    Some(Replicas { one, two })
}

/// Whether the replica of a checkpoint has replayed more than 100 entries.
fn is_new(store: &EndlessStore, index: usize) -> bool {
    match held(store, index) {
        Some(replica) => replica.replayed > 100,
        None => false,
    }
}

/// Whether a session is behind that asks for the row `r`.
fn asks_behind(session: &mut EndlessSession) -> bool {
    match get(b'r') {
        Some(get) => matches!(session.attempt(&get), Err(EndlessFault::Behind)),
        None => false,
    }
}

impl Pair {
    /// Whether both lost checkpoints become copies. The first adds enough for a second copy if one is refused.
    fn renews(&mut self) -> bool {
        loses_checkpoints(&self.store, &mut self.first)
            && asks_behind(&mut self.second)
            && puts(&mut self.first, b's', 8)
            && finds(&mut self.second, b's', 108)
            && self.second.folded() == 108
            && is_new(&self.store, 0)
            && is_new(&self.store, 1)
    }
}

/// A checkpoint whose next entry is lost is of no use any more. A session that leaves one puts a copy of its replica in
/// its place.
#[test]
fn a_lost_checkpoint_becomes_a_copy_survives(rt: HostRuntime) {
    let Some(mut pair) = new_pair(rt.alloc(), 8) else {
        panic!(rt; "two sessions")
    };
    let renews = pair.renews();
    drop(pair);
    assert!(rt; renews);
}

impl Pair {
    /// Whether the second gets a checkpoint, after 100 entries of the first, while the replicas of two don't change.
    fn goes_on_beside(&mut self, one: &Replica, two: &Replica) -> bool {
        let (before, after) = (one.replayed, two.replayed);
        puts(&mut self.first, b'r', 100)
            && finds(&mut self.second, b'r', 104)
            && one.replayed == before
            && two.replayed == after
            && before <= 4
            && after <= 4
    }

    /// Whether it does while somebody holds both replicas, after four entries.
    fn goes_on_while_held(&mut self) -> bool {
        let added = puts(&mut self.first, b'q', 4);
        match both_held(&self.store) {
            Some(both) => self.goes_on_beside(&both.one, &both.two) && added,
            None => false,
        }
    }
}

/// Both checkpoints are shared with somebody who stopped while copying them. Others take their places all the same.
#[test]
fn others_get_a_checkpoint_while_some_are_copied_survives(rt: HostRuntime) {
    let Some(mut pair) = new_pair(rt.alloc(), 8) else {
        panic!(rt; "two sessions")
    };
    let goes_on = pair.goes_on_while_held();
    drop(pair);
    assert!(rt; goes_on);
}

#[test]
fn faults_have_the_numbers_of_the_table(rt: HostRuntime) {
    let overtaken = EndlessFault::Overtaken { front: 7 }.number();
    let no_memory = EndlessFault::NoMemory.number();
    assert_eq!(rt;
        (overtaken, no_memory, EndlessFault::Behind.number()),
        (1, 3, 5)
    );
}
