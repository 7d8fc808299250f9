//! A coordinator that stops, and another one that goes on with its decisions.
ghost use Rattle.std.specs.Prelude.{◌≡◌, IfOk, vec_len};
ghost use Rattle.nigbaru.specs.{coordinator.Work.IsRow, store.Passes.{log_of, identity_of}};

use crate::agreement::{put, text, work};
use crate::kept::{read_back, write_down};
use crate::meeting::{connected, opened_for_one};
use anyhow::{Result, bail};
use nigbaru::{
    Coordinator, Decisions, Log, Pass, Report, Session, Speak, Statement, Store, Transaction, Vote,
};
use std::alloc::Global;
use std::sync::Wait;

/// A session of each of two stores.
fn of_two<'a>(
    alloc: Global,
    north: &'a Store,
    first: Pass,
    south: &'a Store,
    second: Pass,
) -> Result<Vec<Session<'a, Log>>>
    requires north { log_of first ≡ identity_of north.now.log }
    requires south { log_of second ≡ identity_of south.now.log }
    ensures { IfOk result (λ sessions. vec_len sessions ≡ 2) }
{
    let first = connected(north, first)?;
    let second = connected(south, second)?;
    Ok(vec![in alloc; first, second]?)
}

/// A session of each of three stores.
fn of_three<'a>(
    alloc: Global,
    north: &'a Store,
    first: Pass,
    south: &'a Store,
    second: Pass,
    east: &'a Store,
    third: Pass,
) -> Result<Vec<Session<'a, Log>>>
    requires north { log_of first ≡ identity_of north.now.log }
    requires south { log_of second ≡ identity_of south.now.log }
    requires east { log_of third ≡ identity_of east.now.log }
    ensures { IfOk result (λ sessions. vec_len sessions ≡ 3) }
{
    let mut sessions = of_two(alloc, north, first, south, second)?;
    sessions.push(connected(east, third)?)?;
    Ok(sessions)
}

/// Whether each of three stores carries a transaction's work out. The transaction stays the coordinator's.
fn work_in_three<S: Speak, R: Wait>(
    rt: &R,
    coordinator: &mut Coordinator<S>,
    transaction: &mut Transaction,
    statement: &Statement,
) -> bool
    requires name { transaction.old.name.items ≡ coordinator.old.name.items }
    requires stores { transaction.old.stores ≡ vec_len coordinator.old.stores }
    requires three { vec_len coordinator.old.stores ≡ 3 }
    requires row { IsRow statement.now }
    ensures name { transaction.new.name.items ≡ coordinator.new.name.items }
    ensures stores { transaction.new.stores ≡ vec_len coordinator.new.stores }
    ensures three { vec_len coordinator.new.stores ≡ 3 }
{
    work(rt, coordinator, transaction, 0, statement)
        && work(rt, coordinator, transaction, 1, statement)
        && work(rt, coordinator, transaction, 2, statement)
}

/// Prepares a transaction, and decides it if its stores vote yes.
fn decide<S: Speak, R: Wait>(
    rt: &R,
    coordinator: &mut Coordinator<S>,
    decisions: &mut Decisions,
    transaction: Transaction,
) -> Result<()>
    requires name { transaction.name.items ≡ coordinator.old.name.items }
    requires stores { transaction.stores ≡ vec_len coordinator.old.stores }
    ensures { vec_len coordinator.new.stores ≡ vec_len coordinator.old.stores }
{
    let Vote::Ready(prepared) = coordinator.prepare(rt, transaction) else {
        bail!("a store has not voted yes");
    };
    decisions.decide(&prepared)?;
    Ok(())
}

/// Has a transaction write a row in each of three stores, and decides it.
fn decide_over_three<S: Speak, R: Wait>(
    rt: &R,
    coordinator: &mut Coordinator<S>,
    decisions: &mut Decisions,
) -> Result<()>
    requires { vec_len coordinator.old.stores ≡ 3 }
    ensures { vec_len coordinator.new.stores ≡ 3 }
{
    let put = put()?;
    let mut transaction = coordinator.begin(decisions)?;
    if !work_in_three(rt, coordinator, &mut transaction, &put) {
        bail!("a store has not done its work");
    }
    decide(rt, coordinator, decisions, transaction)
}

/// Decides a transaction and stops its coordinator. The sessions are left, and the decisions as a text.
fn decided<S: Speak + Drop, R: Wait>(
    rt: &R,
    alloc: Global,
    mut coordinator: Coordinator<S>,
) -> Result<(Vec<S>, Vec<u8>)>
    requires { vec_len coordinator.stores ≡ 3 }
    ensures { IfOk result (λ left. vec_len left.0 ≡ 3) }
{
    let mut decisions = Decisions::new(alloc);
    decide_over_three(rt, &mut coordinator, &mut decisions)?;
    let text = write_down(alloc, &decisions)?;
    Ok((coordinator.stop(), text))
}

/// Another coordinator of the same name reads the decisions back, and commits what was decided.
fn taken_up<S: Speak + Drop, R: Wait>(
    rt: &R,
    alloc: Global,
    sessions: Vec<S>,
    text_of_decisions: &[u8],
) -> Result<Report>
    requires { vec_len sessions ≡ 3 }
{
    let mut decisions = read_back(alloc, text_of_decisions)?;
    let mut coordinator = Coordinator::new(text(b'c'), sessions);
    Ok(coordinator.recover(rt, alloc, &mut decisions)?)
}

/// Has a coordinator over these sessions decide a transaction and stop, and another one recover.
fn handed_on<S: Speak + Drop, R: Wait>(rt: &R, alloc: Global, sessions: Vec<S>) -> Result<Report>
    requires { vec_len sessions ≡ 3 }
{
    let (sessions, text) = decided(rt, alloc, Coordinator::new(text(b'c'), sessions))?;
    taken_up(rt, alloc, sessions, text.as_slice())
}

/// The report of a recovery of two stores and a third one, with decisions that were read back.
fn recovered_with_a_third<R: Wait>(
    rt: &R,
    alloc: Global,
    north: &Store,
    first: Pass,
    south: &Store,
    second: Pass,
) -> Result<Report>
    requires north { log_of first ≡ identity_of north.now.log }
    requires south { log_of second ≡ identity_of south.now.log }
{
    let (east, third) = opened_for_one(alloc)?;
    let sessions = of_three(alloc, north, first, south, second, &east, third)?;
    handed_on(rt, alloc, sessions)
}

/// The report of a recovery of three stores with decisions that were read back.
pub fn recovered<R: Wait>(rt: &R, alloc: Global) -> Result<Report> {
    let (north, first) = opened_for_one(alloc)?;
    let (south, second) = opened_for_one(alloc)?;
    recovered_with_a_third(rt, alloc, &north, first, &south, second)
}
