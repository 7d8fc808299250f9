//! Sessions of one store on threads of their own.
ghost use Rattle.std.specs.Prelude.{◌≡◌, IfOk};

use crate::meeting::{both_connected, opened};
use anyhow::{Result, bail};
use nigbaru::history::DecisionLog;
use nigbaru::{Answer, Bytes, OpenGate, Outcome, Pass, Reply, Run, Session, Statement, Xid, race};
use std::alloc::Global;
use std::sync::Wait;
use std::thread;
use std::thread::Threads;

/// The run of a pass that starts a branch.
fn starting(alloc: Global, pass: Pass) -> Result<Run>
    ensures { IfOk result (λ run. run.pass ≡ pass) }
{
    let lines = vec![in alloc; Statement::Start(branch(b'a'))]?;
    Ok(Run { pass, lines })
}

/// Two runs of one statement each, raced: each on a thread of its own, and one history that explains all answers.
pub fn raced<R: Threads + Wait + Sync>(rt: &R, alloc: Global) -> Result<Outcome> {
    let (store, first, second) = opened(alloc)?;
    let first = starting(alloc, first)?;
    let second = starting(alloc, second)?;
    let runs = vec![in alloc; first, second]?;
    Ok(race(rt, alloc, &store, runs, &OpenGate)?)
}

/// The identifier of a branch, whose gtrid is one byte.
fn branch(letter: u8) -> Xid {
    let mut gtrid = Bytes::new();
    gtrid.push(letter);
    Xid {
        format_id: 1,
        gtrid,
        bqual: Bytes::new(),
    }
}

/// Whether a session carries a statement out. It stays a session of its store.
fn is_done<L: DecisionLog, R: Wait>(
    rt: &R,
    session: &mut Session<'_, L>,
    statement: &Statement,
) -> bool
    ensures { L.belongs_to session.new.pass ≡ L.belongs_to session.old.pass }
{
    matches!(
        session.execute(rt, statement),
        Ok(Answer {
            reply: Reply::Ok,
            ..
        })
    )
}

/// Prepares a branch, and returns the session and whether each statement was carried out. It stays a session
/// of its store.
fn prepare<'a, L: DecisionLog, R: Wait>(
    rt: &R,
    mut session: Session<'a, L>,
    xid: Xid,
) -> (Session<'a, L>, bool)
    ensures { L.belongs_to result.0.pass ≡ L.belongs_to session.entry.pass }
{
    let prepared = is_done(rt, &mut session, &Statement::Start(xid.copy()))
        && is_done(rt, &mut session, &Statement::End(xid.copy()))
        && is_done(rt, &mut session, &Statement::Prepare(xid));
    (session, prepared)
}

/// Has a session meet another one of its store, which then lists what is prepared.
fn meet_and_list<L: DecisionLog, R: Wait>(
    rt: &R,
    first: &mut Session<'_, L>,
    second: &mut Session<'_, L>,
) -> Option<Reply>
    requires { L.belongs_to first.old.pass ≡ L.belongs_to second.old.pass }
{
    first.meet(second);
    let recover = Statement::Recover { convert: false };
    Some(second.execute(rt, &recover).ok()?.reply)
}

/// Has two sessions of one store prepare a branch each, on threads of their own. Then they meet, and the
/// second lists what is prepared. The result is none if a branch isn't prepared.
fn listed_by_second<'a, L: DecisionLog + Sync, R: Threads + Wait + Sync>(
    rt: &R,
    first: Session<'a, L>,
    second: Session<'a, L>,
    left: Xid,
    right: Xid,
) -> Option<Reply>
where
    L::Pass: Send + Drop,
    requires { L.belongs_to first.pass ≡ L.belongs_to second.pass }
{
    let (first, second) = thread::join(
        rt,
        move || prepare(rt, first, left),
        move || prepare(rt, second, right),
    );
    let ((mut first, first_prepared), (mut second, second_prepared)) = (first, second);
    if !first_prepared || !second_prepared {
        return None;
    }
    meet_and_list(rt, &mut first, &mut second)
}

/// The list of the prepared branches of a store after two sessions have prepared one each, on threads of
/// their own.
pub fn side_by_side<R: Threads + Wait + Sync>(rt: &R, alloc: Global) -> Result<Reply> {
    let (store, first, second) = opened(alloc)?;
    let (first, second) = both_connected(&store, first, second)?;
    let Some(reply) = listed_by_second(rt, first, second, branch(b'a'), branch(b'b')) else {
        bail!("a branch isn't prepared");
    };
    Ok(reply)
}
