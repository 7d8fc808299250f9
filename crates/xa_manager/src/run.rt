//! A coordinator's calls over stores with a log, line by line.
ghost use Rattle.std.specs.Prelude.{◌≡◌, ◌≤◌, ◌<◌, ◌-◌, ◌^◌, [], ℕ, All, length, map, vec_len, IfOk, IfErr, IfSome};
ghost use Rattle.std.specs.{Prelude.OnOk, List.AllZip};
ghost use Rattle.decision_log.specs.Known.{newcomer};
ghost use Rattle.xa_server.specs.State.{no_state};
ghost use Rattle.xa_store.specs.Passes.{log_of, identity_of, known_of};
ghost use Rattle.xa_lines.specs.{Exchange.IsFresh, Served.{IsServed, AfterServing}};
ghost use Rattle.xa_manager.specs.{Limits.{Passes, StartsAnew}, Managed.whole_of, Passes.{AreOf, AreNew}};
ghost use Rattle.xa_manager.specs.Whole.{ManagerBegins};

use crate::{CallServer, Manager};
use std::alloc::{AllocError, Global};
use std::sync::Wait;
use xa_coordinator::{Fused, Speak};
use xa_lines::{Client, LineServer, ScriptFault, serve};
use xa_session::Session;
use xa_store::{Log, Pass, Store};
use xa_xid::NoMemory;

/// Opens a store, and returns it with the passes of its sessions 1 and 2. `NoMemory` also if it can't be opened with
/// this capacity.
fn open_store(alloc: Global, capacity: u64) -> Result<(Store, Pass, Pass), NoMemory>
    ensures logs { IfOk result (λ opened. (log_of opened.1 ≡ identity_of opened.0.log)
        × (log_of opened.2 ≡ identity_of opened.0.log)) }
    ensures capacity { IfOk result (λ opened. (identity_of opened.0.log).capacity ≡ capacity) }
    ensures empty { IfOk result (λ opened. opened.0.base ≡ no_state) }
    ensures known { IfOk result (λ opened. (known_of opened.1 ≡ newcomer 1) × (known_of opened.2 ≡ newcomer 2)) }
{
    let Ok((store, mut passes)) = Store::open(alloc, capacity, 2) else {
        return Err(AllocError);
    };
    // There is one pass for each of the two sessions, in their order, so the last one is session 2's. The error never
    // comes.
    let (Some(second), Some(first)) = (passes.pop(), passes.pop()) else {
        return Err(AllocError);
    };
    Ok((store, first, second))
}

/// Opens stores that hold nothing, and returns them with the passes of their sessions 1 and of their sessions
/// 2.
///
/// `count`: how many stores. `capacity`: how many entries each has room for, in `[1, 1024]`.
/// Session 1 is the coordinator's, session 2 the other client's.
/// Errors: `NoMemory` if an allocation fails, or if `capacity` is out of its range; nothing is kept then.
/// May return `NoMemory`. Doesn't wait.
/// Own rule: docs/COORDINATOR.md#calls.
pub fn open_stores(
    alloc: Global,
    count: u64,
    capacity: u64,
) -> Result<(Vec<Store>, Vec<Pass>, Vec<Pass>), NoMemory>
    // Proved (manager, opened-stores): Opened stores hold nothing, as many as asked, and have the room that
    //   was asked for. The passes of sessions 1 and 2 of each have seen nothing.
    ensures count { IfOk result (λ opened. vec_len opened.0 ≡ count) }
    // Proved (manager, opened-stores)
    ensures first { IfOk result (λ opened. AreOf opened.0.items opened.1.items) }
    // Proved (manager, opened-stores)
    ensures second { IfOk result (λ opened. AreOf opened.0.items opened.2.items) }
    // Proved (manager, opened-stores)
    ensures capacity { IfOk result (λ opened. All (λ store. (identity_of store.log).capacity ≡ capacity)
        opened.0.items) }
    // Proved (manager, opened-stores)
    ensures new { IfOk result (λ opened. AreNew opened.0.items opened.1.items opened.2.items) }
{
    let mut stores = Vec::new(alloc);
    let mut firsts = Vec::new(alloc);
    let mut seconds = Vec::new(alloc);
    while (stores.len() as u64) < count {
        let (store, first, second) = open_store(alloc, capacity)?;
        stores.push(store)?;
        firsts.push(first)?;
        seconds.push(second)?;
    }
    Ok((stores, firsts, seconds))
}

/// A session of each store, made of the pass at the store's place. Errors: `NoMemory` if an allocation fails.
fn connect_each<'a>(
    alloc: Global,
    stores: &'a [Store],
    passes: Vec<Pass>,
) -> Result<Vec<Session<'a, Log>>, NoMemory>
    requires { AreOf stores.now passes.items }
    ensures count { IfOk result (λ sessions. vec_len sessions ≡ length stores.now) }
    ensures passes { IfOk result (λ sessions. map (λ session. session.pass) sessions.items ≡ passes.items) }
    ensures bases { IfOk result (λ sessions. AllZip (λ store session. session.base.now ≡ store.base) stores.now
        sessions.items) }
{
    let mut sessions = Vec::new(alloc);
    for pass in passes {
        // Each pass before this one has become a session, so their number is this pass's place, and its store's.
        let store = &stores[sessions.len()];
        // Only an allocation can fail here: the pass is of this store.
        let Ok(session) = store.connect(pass) else {
            return Err(AllocError);
        };
        sessions.push(session)?;
    }
    Ok(sessions)
}

/// The sessions, each with a limit of 2^64 - 1 calls, which no run reaches.
fn fuse_each<S: Speak + Drop>(alloc: Global, sessions: Vec<S>) -> Result<Vec<Fused<S>>, NoMemory>
    ensures count { IfOk result (λ fused. vec_len fused ≡ vec_len sessions) }
    ensures within { IfOk result (λ fused. map (λ session. session.inner) fused.items ≡ sessions.items) }
    ensures passes { IfOk result (λ fused. (store : ℕ) → store < length fused.items
        → Passes store (2 ^ 64 - 1) fused.items) }
{
    let mut fused = Vec::new(alloc);
    for session in sessions {
        fused.push(Fused::new(session, u64::MAX))?;
    }
    Ok(fused)
}

/// Makes a manager over 1 to 16 stores. Nothing has begun, nothing is open, and each session of the coordinator passes
/// on 2^64 - 1 calls.
///
/// `stores`, and the passes of their sessions 1 and 2, are as `open_stores` returns them.
/// Errors: `NoMemory` if an allocation fails; the passes are gone then.
/// May return `NoMemory`. Doesn't wait.
/// Own rule: docs/COORDINATOR.md#calls.
pub fn manager_over<'a>(
    alloc: Global,
    stores: &'a [Store],
    firsts: Vec<Pass>,
    seconds: Vec<Pass>,
) -> Result<Manager<Fused<Session<'a, Log>>, Session<'a, Log>>, NoMemory>
    requires some { 1 ≤ length stores.now }
    requires most { length stores.now ≤ 16 }
    requires first { AreOf stores.now firsts.items }
    requires second { AreOf stores.now seconds.items }
    // Proved (manager, manager-begins): A manager over opened stores has in each the coordinator's session and the
    //   other client's, both of that store, which have seen nothing. Nothing has begun, nothing is open, and each of
    //   the coordinator's sessions passes on 2^64 - 1 calls.
    ensures stores { IfOk result (λ manager. vec_len manager.coordinator.stores ≡ length stores.now) }
    // Proved (manager, manager-begins)
    ensures decisions { IfOk result (λ manager. manager.decisions ≡ []) }
    // Proved (manager, manager-begins)
    ensures ledger { IfOk result (λ manager. manager.ledger ≡ []) }
    // Proved (manager, manager-begins)
    ensures anew { IfOk result (λ manager. StartsAnew manager.coordinator.branches manager.coordinator.stores.items) }
    // Proved (manager, manager-begins)
    ensures sessions { IfOk result (λ manager. map (λ session. session.inner.pass) manager.coordinator.stores.items
        ≡ firsts.items) }
    // Proved (manager, manager-begins)
    ensures other_clients { IfOk result (λ manager. map (λ session. session.pass) manager.other_clients.items
        ≡ seconds.items) }
    // Proved (manager, manager-begins)
    ensures begins { AreNew stores.now firsts.items seconds.items
        → IfOk result
        (λ manager. ManagerBegins ⟦<Session<'a, Log> as Speak>⟧.view ⟦<Session<'a, Log> as Speak>⟧.view
        (whole_of manager)) }
{
    let sessions = connect_each(alloc, stores, firsts)?;
    let other_clients = connect_each(alloc, stores, seconds)?;
    let sessions = fuse_each(alloc, sessions)?;
    Ok(Manager::new(alloc, sessions, other_clients))
}

/// Carries a client's calls out over 1 to 16 stores, line by line, until the client ends.
///
/// Each answer is written before more is received. The stores and the passes of their two sessions are as
/// `open_stores` returns them. The input may have any length, a line at most 65,536 bytes; a longer one isn't
/// read as a call.
/// Errors: `NoMemory` if the sessions or the room for a line can't be had, before anything was received;
/// `Read` if a read failed, or after 2^64 - 1 reads; `Write` if a write or a flush failed.
/// After an error: after `Read` all whole lines are answered, after `Write` a prefix of the answers was
/// written. If an allocation fails for one call, that is its answer, and the conversation goes on.
/// May return `NoMemory`. May wait, for the client too.
/// Own rule: docs/COORDINATOR.md#calls.
pub fn converse<
    'a,
    R: Wait,
    P: Client<CallServer<'a, Fused<Session<'a, Log>>, Session<'a, Log>, R>>,
>(
    rt: &'a R,
    alloc: Global,
    client: &mut P,
    stores: &'a [Store],
    firsts: Vec<Pass>,
    seconds: Vec<Pass>,
) -> Result<(), ScriptFault>
    requires some { 1 ≤ length stores.now }
    requires most { length stores.now ≤ 16 }
    requires first { AreOf stores.now firsts.items }
    requires second { AreOf stores.now seconds.items }
    requires new { AreNew stores.now firsts.items seconds.items }
    requires fresh { IfSome (P.exchange client.old) IsFresh }
    // Proved (manager, conversation): All lines of a conversation are answered, one after another, by one
    //   manager that begins with nothing begun. After a fault it is as the server of lines states.
    ensures told { OnOk result (IfSome (P.exchange client.new)
        (IsServed ⟦<CallServer<'a, Fused<Session<'a, Log>>, Session<'a, Log>, R> as LineServer>⟧.begins
        ⟦<CallServer<'a, Fused<Session<'a, Log>>, Session<'a, Log>, R> as LineServer>⟧.answers)) }
    // Proved (manager, conversation)
    ensures fault { IfErr result (λ fault. IfSome (P.exchange client.new)
        (AfterServing ⟦<CallServer<'a, Fused<Session<'a, Log>>, Session<'a, Log>, R> as LineServer>⟧.begins
        ⟦<CallServer<'a, Fused<Session<'a, Log>>, Session<'a, Log>, R> as LineServer>⟧.answers fault)) }
{
    let manager = manager_over(alloc, stores, firsts, seconds)?;
    serve(alloc, &mut CallServer::new(rt, manager), client)
}
