//! Stores and their sessions. A step that is refused memory is repeated once.
ghost use Rattle.std.specs.{Prelude.{◌≡◌, ◌++◌, ◌∷◌, [], IfSome}, List.All};
ghost use Rattle.xa_store.specs.Passes.{identity_of, log_of};

use decision_log::OpenFault;
use std::alloc::Global;
use std::process::Abort;
use xa_session::Session;
use xa_store::{Log, Pass, Store};

/// A store, and the passes of its sessions, the last one last; `None` if there was no memory.
fn tried(rt: &impl Abort, alloc: Global, capacity: u64, sessions: u64) -> Option<(Store, Vec<Pass>)>
    ensures { IfSome result (λ opened. All (λ pass. log_of pass ≡ identity_of opened.0.log) opened.1.items) }
{
    match Store::open(alloc, capacity, sessions) {
        Ok(opened) => Some(opened),
        Err(fault) => {
            assert!(rt; fault == OpenFault::NoMemory);
            None
        }
    }
}

/// A store, and the passes of its sessions, the last one last.
pub(crate) fn opened(
    rt: &impl Abort,
    alloc: Global,
    capacity: u64,
    sessions: u64,
) -> (Store, Vec<Pass>)
    ensures { All (λ pass. log_of pass ≡ identity_of result.0.log) result.1.items }
{
    if let Some(opened) = tried(rt, alloc, capacity, sessions) {
        return opened;
    }
    let Some(opened) = tried(rt, alloc, capacity, sessions) else {
        panic!(rt; "refused twice")
    };
    opened
}

/// A session of a store.
pub(crate) fn joined<'a>(rt: &impl Abort, store: &'a Store, pass: Pass) -> Session<'a, Log>
    requires { log_of pass ≡ identity_of store.now.log }
    ensures { log_of result.pass ≡ identity_of store.now.log }
{
    match store.connect(pass) {
        Ok(session) => session,
        Err((pass, _)) => {
            let Ok(session) = store.connect(pass) else {
                panic!(rt; "refused twice")
            };
            session
        }
    }
}

/// Takes the last pass out of a list of passes of a store. Only the contract names the store.
pub(crate) fn last_pass(rt: &impl Abort, store: &Store, passes: &mut Vec<Pass>) -> Pass
    requires { All (λ pass. log_of pass ≡ identity_of store.now.log) passes.old.items }
    ensures own { log_of result ≡ identity_of store.now.log }
    ensures others { All (λ pass. log_of pass ≡ identity_of store.now.log) passes.new.items }
{
    let _store = store;
    let Some(pass) = passes.pop() else {
        panic!(rt; "no pass is left")
    };
    pass
}

/// A session of the last pass of a list, which is taken out.
pub(crate) fn next_session<'a>(
    rt: &impl Abort,
    store: &'a Store,
    passes: &mut Vec<Pass>,
) -> Session<'a, Log>
    requires { All (λ pass. log_of pass ≡ identity_of store.now.log) passes.old.items }
    ensures own { log_of result.pass ≡ identity_of store.now.log }
    ensures others { All (λ pass. log_of pass ≡ identity_of store.now.log) passes.new.items }
{
    let pass = last_pass(rt, store, passes);
    joined(rt, store, pass)
}

/// Sessions of the last two passes of a list, in order. They are taken out.
pub(crate) fn both<'a>(
    rt: &impl Abort,
    store: &'a Store,
    passes: &mut Vec<Pass>,
) -> (Session<'a, Log>, Session<'a, Log>)
    requires { All (λ pass. log_of pass ≡ identity_of store.now.log) passes.old.items }
    ensures first { log_of result.0.pass ≡ identity_of store.now.log }
    ensures second { log_of result.1.pass ≡ identity_of store.now.log }
{
    let second = next_session(rt, store, passes);
    (next_session(rt, store, passes), second)
}

/// Appends to a list.
pub(crate) fn pushed<T: Drop>(rt: &impl Abort, list: &mut Vec<T>, item: T)
    ensures { list.new.items ≡ list.old.items ++ item ∷ [] }
{
    if list.reserve(1).is_err() {
        assert!(rt; list.reserve(1).is_ok());
    }
    list.push_reserved(item);
}

/// A store of two sessions, and their passes in order.
pub(crate) fn two_passes(rt: &impl Abort, alloc: Global, capacity: u64) -> (Store, Pass, Pass)
    ensures first { log_of result.1 ≡ identity_of result.0.log }
    ensures second { log_of result.2 ≡ identity_of result.0.log }
{
    let (store, mut passes) = opened(rt, alloc, capacity, 2);
    let second = last_pass(rt, &store, &mut passes);
    let first = last_pass(rt, &store, &mut passes);
    (store, first, second)
}

/// A store of three sessions, and their passes in order.
pub(crate) fn three_passes(
    rt: &impl Abort,
    alloc: Global,
    capacity: u64,
) -> (Store, Pass, Pass, Pass)
    ensures first { log_of result.1 ≡ identity_of result.0.log }
    ensures second { log_of result.2 ≡ identity_of result.0.log }
    ensures third { log_of result.3 ≡ identity_of result.0.log }
{
    let (store, mut passes) = opened(rt, alloc, capacity, 3);
    let third = last_pass(rt, &store, &mut passes);
    let second = last_pass(rt, &store, &mut passes);
    let first = last_pass(rt, &store, &mut passes);
    (store, first, second, third)
}
