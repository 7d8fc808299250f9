//! What two sessions over one log show that no script says.
ghost use Rattle.std.specs.Prelude.{◌≡◌, ◌<◌, false, length, IfErr};
ghost use Rattle.xa_server.specs.Step.{is_recover};
ghost use Rattle.xa_session.specs.declared.fault.Fault.TheVariants.{NoMemory};

use crate::playing::{first_difference, has_history};
use decision_log::DecisionLog;
use std::alloc::Global;
use std::process::Abort;
use std::sync::Wait;
use xa_server::{Reply, Server};
use xa_session::{Answer, Fault, Session};
use xa_xid::{Bytes, Key, Statement};

/// A session of a pass, connected again if there was no memory.
pub(crate) fn connected<'a, L: DecisionLog>(
    rt: &impl Abort,
    log: &'a L,
    pass: L::Pass,
    base: &'a Server,
) -> Session<'a, L>
where
    L::Pass: Drop,
    requires { L.belongs_to pass ≡ L.identity log.now }
    ensures { L.belongs_to result.pass ≡ L.identity log.now }
{
    match Session::connect(log, pass, base) {
        Ok(session) => session,
        Err((pass, _)) => {
            let Ok(session) = Session::connect(log, pass, base) else {
                panic!(rt; "refused twice")
            };
            session
        }
    }
}

/// Two sessions play a script, which leaves this history.
pub(crate) fn play<L: DecisionLog, R: Abort + Wait>(
    rt: &R,
    alloc: Global,
    first: &mut Session<'_, L>,
    second: &mut Session<'_, L>,
    script: &[u8],
    history: &[u8],
)
    ensures first { L.belongs_to first.new.pass ≡ L.belongs_to first.old.pass }
    ensures second { L.belongs_to second.new.pass ≡ L.belongs_to second.old.pass }
{
    let found = first_difference(rt, alloc, first, second, script);
    assert!(rt; found.is_none(), "{found:?}");
    assert!(rt; has_history(first, history) && has_history(second, history));
}

/// Tries once, in a session whose replica has replayed all that is seen. The statement isn't `XA RECOVER`, so
/// memory is wanted only for entries that others added meanwhile.
fn ask_again<L: DecisionLog>(
    session: &mut Session<'_, L>,
    statement: &Statement,
) -> Result<Answer, Fault>
    requires whole { session.old.replica.replayed ≡ length (L.known session.old.pass).seen }
    requires other { is_recover statement.now ≡ false }
    ensures { IfErr result (λ fault. fault ≡ NoMemory → length (L.known session.old.pass).seen < length
        (L.known session.new.pass).seen) }
{
    session.attempt(statement)
}

/// The key of one letter.
fn key(rt: &impl Abort, letter: u8) -> Key {
    let mut name = Bytes::new();
    name.push(letter);
    let Some(key) = Key::of(name) else {
        panic!(rt; "a key")
    };
    key
}

/// Whether a session, asked again for a row that isn't there, answers so at this place.
fn answers_again<L: DecisionLog>(rt: &impl Abort, session: &mut Session<'_, L>, wanted: u64) -> bool
    requires { session.old.replica.replayed ≡ length (L.known session.old.pass).seen }
{
    match ask_again(session, &Statement::Get(key(rt, b'k'))) {
        Ok(
            Answer {
                place,
                reply: Reply::Value(None),
            },
        ) => place == wanted,
        _ => false,
    }
}

/// Two sessions of these passes play a script, which leaves this history.
pub(crate) fn play_all<L: DecisionLog, R: Abort + Wait>(
    rt: &R,
    alloc: Global,
    log: &L,
    first: L::Pass,
    second: L::Pass,
    script: &[u8],
    history: &[u8],
)
where
    L::Pass: Drop,
    requires first { L.belongs_to first ≡ L.identity log.now }
    requires second { L.belongs_to second ≡ L.identity log.now }
{
    let base = Server::new(alloc);
    let mut first = connected(rt, log, first, &base);
    let mut second = connected(rt, log, second, &base);
    play(rt, alloc, &mut first, &mut second, script, history);
    drop(first);
    drop(second);
    drop(base);
}

/// Whether a session has replayed its four entries, and another one too, which finds no more by a look; asked again,
/// that one answers at place 4 with nothing to replay.
fn have_kept<L: DecisionLog>(
    rt: &impl Abort,
    first: &Session<'_, L>,
    second: &mut Session<'_, L>,
) -> bool {
    first.folded() == 4
        && second.look() == 4
        && second.folded() == 4
        && second.seen() == 4
        && answers_again(rt, second, 4)
        && second.folded() == 4
}

/// A session has replayed each of its entries once it is answered. Another one reads the row, and has
/// replayed all of them; asked again, it answers the same with nothing to replay.
pub(crate) fn keeps_its_replica<L: DecisionLog, R: Abort + Wait>(
    rt: &R,
    alloc: Global,
    log: &L,
    first: L::Pass,
    second: L::Pass,
)
where
    L::Pass: Drop,
    requires first { L.belongs_to first ≡ L.identity log.now }
    requires second { L.belongs_to second ≡ L.identity log.now }
{
    let script = b"1 XA START 'a' = 0 OK
1 PUT 'k','v' = 1 OK
1 XA END 'a' = 2 OK
1 XA PREPARE 'a' = 3 OK
2 GET 'k' = 4 NONE
";
    let history = b"1 XA START 'a'
1 PUT 'k','v'
1 XA END 'a'
1 XA PREPARE 'a'
";
    let base = Server::new(alloc);
    let mut first = connected(rt, log, first, &base);
    let mut second = connected(rt, log, second, &base);
    play(rt, alloc, &mut first, &mut second, script, history);
    let is_kept = have_kept(rt, &first, &mut second);
    drop(first);
    drop(second);
    drop(base);
    assert!(rt; is_kept);
}

/// The pass of a session that owns a branch, which can't disconnect in a full log, since that would be
/// logged.
fn kept_open<L: DecisionLog, R: Abort + Wait>(rt: &R, session: Session<'_, L>) -> L::Pass
where
    L::Pass: Drop,
    ensures { L.belongs_to result ≡ L.belongs_to session.entry.pass }
{
    match session.disconnect(rt) {
        Err((session, Fault::Full)) => session.leave(),
        _ => panic!(rt; "disconnected in a full log"),
    }
}

/// The pass of a session that disconnects.
fn disconnected<L: DecisionLog, R: Abort + Wait>(rt: &R, session: Session<'_, L>) -> L::Pass
where
    L::Pass: Drop,
    ensures { L.belongs_to result ≡ L.belongs_to session.entry.pass }
{
    match session.disconnect(rt) {
        Ok(pass) => pass,
        Err(_) => panic!(rt; "didn't disconnect"),
    }
}

/// A pass makes a session of this number once more, which has seen two entries.
fn comes_back<L: DecisionLog>(rt: &impl Abort, log: &L, pass: L::Pass, base: &Server, number: u64)
where
    L::Pass: Drop,
    requires { L.belongs_to pass ≡ L.identity log.now }
{
    let session = connected(rt, log, pass, base);
    let is_back = session.number().get() == number && session.seen() == 2;
    drop(session);
    assert!(rt; is_back);
}

/// In a full log a session that owns a branch can't disconnect, and keeps what it had; a free session can.
/// Their passes are good for sessions of the same numbers, which have seen what they had seen.
pub(crate) fn stays_open<L: DecisionLog, R: Abort + Wait>(
    rt: &R,
    alloc: Global,
    log: &L,
    first: L::Pass,
    second: L::Pass,
)
where
    L::Pass: Drop,
    requires first { L.belongs_to first ≡ L.identity log.now }
    requires second { L.belongs_to second ≡ L.identity log.now }
{
    let script = b"1 XA START 'a' = 0 OK
1 PUT 'k','v' = 1 OK
2 XA START 'b' = FULL
1 GET 'k' = 2 VALUE 0x76
1 GET 'm' = FULL
";
    let history = b"1 XA START 'a'\n1 PUT 'k','v'\n";
    let base = Server::new(alloc);
    let mut first = connected(rt, log, first, &base);
    let mut second = connected(rt, log, second, &base);
    play(rt, alloc, &mut first, &mut second, script, history);
    comes_back(rt, log, kept_open(rt, first), &base, 1);
    comes_back(rt, log, disconnected(rt, second), &base, 2);
    drop(base);
}
