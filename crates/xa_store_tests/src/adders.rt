//! Two threads that add to one log.
ghost use Rattle.std.specs.Prelude.{◌≡◌, IfSome};

use decision_log::{AddFault, DecisionLog};
use std::process::Abort;
use std::thread;
use std::thread::Threads;
use xa_words::Entry;
use xa_xid::{Bytes, Key, SessionNo, Statement};

/// How often an add is tried before it is given up.
const TRIES: u64 = 100_000_000;

/// How many entries each thread adds.
const EACH: u64 = 8;

/// The entry of a session that deletes the row of one letter.
fn delete(session: SessionNo, letter: u8) -> Option<Entry>
    ensures { IfSome result (λ entry. entry.session ≡ session) }
{
    let mut name = Bytes::new();
    name.push(letter);
    Entry::of(session, &Statement::Del(Key::of(name)?))
}

/// Whether an entry is added. It is tried again if others were faster or have the turn, but not in a full log.
fn add<L: DecisionLog>(log: &L, pass: &mut L::Pass, entry: &Entry) -> bool
    requires belongs { L.belongs_to pass.old ≡ L.identity log.now }
    requires own { entry.now.session ≡ (L.known pass.old).number }
    ensures belongs { L.belongs_to pass.new ≡ L.belongs_to pass.old }
    ensures number { (L.known pass.new).number ≡ (L.known pass.old).number }
{
    for _ in 0..TRIES {
        match log.try_add(pass, entry) {
            Ok(()) => return true,
            Err(AddFault::Full) => return false,
            Err(_) => {}
        }
    }
    false
}

/// Adds `EACH` entries, each of which deletes the row of its step's number. Returns the pass, and whether all were
/// added.
fn add_each<L: DecisionLog>(log: &L, mut pass: L::Pass) -> (L::Pass, bool)
    requires { L.belongs_to pass ≡ L.identity log.now }
    ensures { L.belongs_to result.0 ≡ L.identity log.now }
{
    let session = log.number(&pass);
    for step in 0..EACH {
        let Some(entry) = delete(session, step as u8) else {
            return (pass, false);
        };
        if !add(log, &mut pass, &entry) {
            return (pass, false);
        }
    }
    (pass, true)
}

/// Whether the entries of a session that the pass has seen are those that `add_each` adds, in their order.
fn has_each<L: DecisionLog>(log: &L, pass: &mut L::Pass, session: SessionNo) -> bool
    requires { L.belongs_to pass.old ≡ L.identity log.now }
    ensures { L.belongs_to pass.new ≡ L.belongs_to pass.old }
{
    let mut step = 0_u64;
    for at in 0..log.length(pass) {
        let entry = log.entry(pass, at);
        if entry.session() == session {
            let Some(wanted) = delete(session, u64::min(step, 255) as u8) else {
                return false;
            };
            if entry != wanted {
                return false;
            }
            step = u64::wrapping_add(step, 1);
        }
    }
    step == EACH
}

/// Two threads, each with its own pass, add `EACH` entries each to a log with room for them. Returns whether all were
/// added, and the second pass, once the first has met it, has seen each one's in its order, and nothing else.
///
/// Takes what starting threads takes. Waits for its threads.
pub fn two_threads_add<L: DecisionLog + Sync, R: Threads>(
    rt: &R,
    log: &L,
    first: L::Pass,
    second: L::Pass,
) -> bool
where
    L::Pass: Send + Drop,
    requires first { L.belongs_to first ≡ L.identity log.now }
    requires second { L.belongs_to second ≡ L.identity log.now }
{
    let (first, second) = thread::join(
        rt,
        move || add_each(log, first),
        move || add_each(log, second),
    );
    first.1 && second.1 && saw_each(log, first.0, second.0)
}

/// Two threads add to a log, as `two_threads_add` says.
pub(crate) fn add_all<L: DecisionLog + Sync, R: Abort + Threads>(
    rt: &R,
    log: &L,
    first: L::Pass,
    second: L::Pass,
)
where
    L::Pass: Send + Drop,
    requires first { L.belongs_to first ≡ L.identity log.now }
    requires second { L.belongs_to second ≡ L.identity log.now }
{
    assert!(rt; two_threads_add(rt, log, first, second));
}

/// Whether after a meeting the second pass has seen what both added, each one's in its order, and nothing
/// else.
fn saw_each<L: DecisionLog>(log: &L, mut first: L::Pass, mut second: L::Pass) -> bool
where
    L::Pass: Drop,
    requires first { L.belongs_to first ≡ L.identity log.now }
    requires second { L.belongs_to second ≡ L.identity log.now }
{
    log.meet(&mut first, &mut second);
    let one = log.number(&first);
    let two = log.number(&second);
    log.length(&second) == 2 * EACH
        && has_each(log, &mut second, one)
        && has_each(log, &mut second, two)
}
