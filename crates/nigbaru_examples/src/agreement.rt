//! A transaction over two stores, committed in two phases.
ghost use Rattle.std.specs.Prelude.{◌≡◌, ◌<◌, ◌∷◌, [], IfOk, vec_len};
ghost use Rattle.nigbaru.specs.{coordinator.Work.IsRow, store.Passes.{log_of, identity_of}};

use crate::meeting::{connected, opened_for_one};
use anyhow::{Result, bail};
use nigbaru::{
    Bytes, Coordinator, Decisions, Ending, Key, Log, Pass, Reply, Session, Speak, Statement, Store,
    Transaction, Vote,
};
use std::alloc::Global;
use std::sync::Wait;

/// A text of one byte.
pub fn text(byte: u8) -> Bytes
    ensures { result.items ≡ byte ∷ [] }
{
    let mut text = Bytes::new();
    text.push(byte);
    text
}

/// The statement that gives the row `k` the value `v`.
pub fn put() -> Result<Statement>
    ensures { IfOk result IsRow }
{
    let Some(key) = Key::of(text(b'k')) else {
        bail!("an empty key");
    };
    Ok(Statement::Put(key, text(b'v')))
}

/// Whether a store carries a transaction's work out. The transaction stays the coordinator's.
pub fn work<S: Speak, R: Wait>(
    rt: &R,
    coordinator: &mut Coordinator<S>,
    transaction: &mut Transaction,
    store: u8,
    statement: &Statement,
) -> bool
    requires name { transaction.old.name.items ≡ coordinator.old.name.items }
    requires stores { transaction.old.stores ≡ vec_len coordinator.old.stores }
    requires store { store < vec_len coordinator.old.stores }
    requires row { IsRow statement.now }
    ensures name { transaction.new.name.items ≡ coordinator.new.name.items }
    ensures stores { transaction.new.stores ≡ vec_len coordinator.new.stores }
    ensures count { vec_len coordinator.new.stores ≡ vec_len coordinator.old.stores }
{
    matches!(
        coordinator.work(rt, transaction, store, statement),
        Ok(Reply::Ok)
    )
}

/// Finishes a transaction in which two stores have done their work: both commit, or both roll back.
pub fn finish<S: Speak, R: Wait>(
    rt: &R,
    coordinator: &mut Coordinator<S>,
    decisions: &mut Decisions,
    transaction: Transaction,
) -> Result<Ending>
    requires name { transaction.name.items ≡ coordinator.old.name.items }
    requires stores { transaction.stores ≡ vec_len coordinator.old.stores }
{
    match coordinator.prepare(rt, transaction) {
        Vote::Ready(prepared) => {
            let Ok(()) = decisions.decide(&prepared) else {
                bail!("a recovery has closed the number");
            };
            Ok(coordinator.finish(rt, decisions, prepared))
        }
        Vote::OnePhase(prepared) => Ok(coordinator.finish(rt, decisions, prepared)),
        Vote::No { prepared, .. } => Ok(coordinator.finish(rt, decisions, prepared)),
        Vote::Nothing => bail!("no store takes part"),
    }
}

/// A coordinator of the name `c` over a session of each of two stores.
pub fn over_both<'a>(
    alloc: Global,
    north: &'a Store,
    first: Pass,
    south: &'a Store,
    second: Pass,
) -> Result<Coordinator<Session<'a, Log>>>
    requires north { log_of first ≡ identity_of north.now.log }
    requires south { log_of second ≡ identity_of south.now.log }
    ensures { IfOk result (λ coordinator. vec_len coordinator.stores ≡ 2) }
{
    let first = connected(north, first)?;
    let second = connected(south, second)?;
    let sessions = vec![in alloc; first, second]?;
    Ok(Coordinator::new(text(b'c'), sessions))
}

/// A row is written in both of a coordinator's stores, or in neither.
fn write_in_both<S: Speak, R: Wait>(
    rt: &R,
    coordinator: &mut Coordinator<S>,
    decisions: &mut Decisions,
) -> Result<Ending>
    requires { vec_len coordinator.old.stores ≡ 2 }
{
    let put = put()?;
    let mut transaction = coordinator.begin(decisions)?;
    let worked = work(rt, coordinator, &mut transaction, 0, &put)
        && work(rt, coordinator, &mut transaction, 1, &put);
    if !worked {
        return Ok(coordinator.abandon(rt, transaction));
    }
    finish(rt, coordinator, decisions, transaction)
}

/// How a transaction ends that writes a row in two stores.
pub fn in_both<R: Wait>(rt: &R, alloc: Global) -> Result<Ending> {
    let (north, first) = opened_for_one(alloc)?;
    let (south, second) = opened_for_one(alloc)?;
    let mut coordinator = over_both(alloc, &north, first, &south, second)?;
    write_in_both(rt, &mut coordinator, &mut Decisions::new(alloc))
}
