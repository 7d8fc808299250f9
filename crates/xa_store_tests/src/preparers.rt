//! Two threads with a session each.
ghost use Rattle.std.specs.Prelude.{◌≡◌};

use crate::replies::is_reply;
use crate::sessions::connected;
use decision_log::DecisionLog;
use std::alloc::Global;
use std::process::Abort;
use std::sync::Wait;
use std::thread;
use std::thread::Threads;
use xa_server::{Reply, Server};
use xa_session::Session;
use xa_statement::read_statement;
use xa_xid::Statement;

/// Whether a statement is carried out, at whichever place.
fn does<L: DecisionLog, R: Wait>(rt: &R, session: &mut Session<'_, L>, text: &[u8]) -> bool
    ensures { L.belongs_to session.new.pass ≡ L.belongs_to session.old.pass }
{
    let Ok(statement) = read_statement(text) else {
        return false;
    };
    match session.execute(rt, &statement) {
        Ok(answer) => matches!(answer.reply, Reply::Ok),
        Err(_) => false,
    }
}

/// The session, once it has carried out three statements, whatever others do meanwhile.
fn prepared<'a, L: DecisionLog, R: Abort + Wait>(
    rt: &R,
    mut session: Session<'a, L>,
    lines: [&'static [u8]; 3],
) -> Session<'a, L>
    ensures { L.belongs_to result.pass ≡ L.belongs_to session.entry.pass }
{
    let is_prepared = does(rt, &mut session, lines[0])
        && does(rt, &mut session, lines[1])
        && does(rt, &mut session, lines[2]);
    assert!(rt; is_prepared);
    session
}

/// What the first session does.
const FIRST: [&[u8]; 3] = [b"XA START 'a'", b"XA END 'a'", b"XA PREPARE 'a'"];

/// What the second session does.
const SECOND: [&[u8]; 3] = [b"XA START 'b'", b"XA END 'b'", b"XA PREPARE 'b'"];

/// Whether a session lists the branches of both threads, after their six entries.
fn lists_both<L: DecisionLog>(alloc: Global, session: &mut Session<'_, L>) -> bool {
    let recover = Statement::Recover { convert: false };
    match session.attempt(&recover) {
        Ok(answer) => {
            let wanted = b"6 ROWS 2|1 1 0 a|1 1 0 b";
            is_reply(alloc, Some(answer.place), &recover, &answer.reply, wanted)
        }
        Err(_) => false,
    }
}

/// Two sessions in threads of their own prepare a branch each. Returns whether, after they have met, the second has seen
/// as many entries as the first, or more, and lists both branches at place 6.
fn two_threads_prepare<'a, L: DecisionLog + Sync, R: Abort + Threads + Wait + Sync>(
    rt: &R,
    alloc: Global,
    first: Session<'a, L>,
    second: Session<'a, L>,
) -> bool
where
    L::Pass: Send + Drop,
    requires { L.belongs_to first.pass ≡ L.belongs_to second.pass }
{
    let (mut first, mut second) = thread::join(
        rt,
        move || prepared(rt, first, FIRST),
        move || prepared(rt, second, SECOND),
    );
    first.meet(&mut second);
    let has_seen = second.seen() >= first.seen();
    drop(first);
    let lists = lists_both(alloc, &mut second);
    drop(second);
    has_seen && lists
}

/// Two sessions of these passes prepare a branch each, as `two_threads_prepare` says.
pub(crate) fn prepare_both<L: DecisionLog + Sync, R: Abort + Threads + Wait + Sync>(
    rt: &R,
    alloc: Global,
    log: &L,
    first: L::Pass,
    second: L::Pass,
)
where
    L::Pass: Send + Drop,
    requires first { L.belongs_to first ≡ L.identity log.now }
    requires second { L.belongs_to second ≡ L.identity log.now }
{
    let base = Server::new(alloc);
    let first = connected(rt, log, first, &base);
    let second = connected(rt, log, second, &base);
    let is_so = two_threads_prepare(rt, alloc, first, second);
    drop(base);
    assert!(rt; is_so);
}
