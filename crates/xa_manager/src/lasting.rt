//! A coordinator's calls over unbounded stores, line by line.
ghost use Rattle.std.specs.Prelude.{◌≡◌, ◌≤◌, ◌<◌, ◌-◌, ◌^◌, ℕ, All, length, vec_len, IfOk, IfErr, IfSome, OnOk};
ghost use Rattle.xa_lines.specs.{Exchange.IsFresh, Served.{IsServed, AfterServing}};
ghost use Rattle.xa_coordinator.specs.Lasting.{own_view, other_alone};
ghost use Rattle.xa_manager.specs.{Beside.BeginsBeside, Limits.Passes, Managed.whole_of, Whole.IsPair};

use crate::{BesideServer, Manager};
use std::alloc::Global;
use std::sync::Wait;
use xa_coordinator::{Beside, Fused, LastingStore, Speak};
use xa_lines::{Client, LineServer, ScriptFault, serve};
use xa_server::Server;
use xa_xid::NoMemory;

/// Opens `count` unbounded stores that hold nothing, and as many more.
///
/// The sessions of the first list pass on 2^64 - 1 calls. Such a store holds its other client's session itself
/// (`Beside`). The second list only fills the place of `Manager`'s other clients: its stores get no statement.
fn open_each(
    alloc: Global,
    count: u64,
) -> Result<(Vec<Fused<LastingStore>>, Vec<LastingStore>), NoMemory>
    ensures count { IfOk result (λ opened. vec_len opened.0 ≡ count) }
    ensures nobody { IfOk result (λ opened. vec_len opened.1 ≡ count) }
    ensures pairs { IfOk result (λ opened. All (λ session. IsPair (own_view session.inner)
        (other_alone session.inner)) opened.0.items) }
    ensures passes { IfOk result (λ opened. (store : ℕ) → store < length opened.0.items
        → Passes store (2 ^ 64 - 1) opened.0.items) }
{
    let mut sessions = Vec::new(alloc);
    let mut nobody = Vec::new(alloc);
    while (sessions.len() as u64) < count {
        let store = LastingStore::new(alloc, Server::new(alloc));
        sessions.push(Fused::new(store, u64::MAX))?;
        nobody.push(LastingStore::new(alloc, Server::new(alloc)))?;
    }
    Ok((sessions, nobody))
}

/// Makes a manager over unbounded stores that hold nothing. Nothing has begun, and each session of the coordinator
/// passes on 2^64 - 1 calls.
///
/// `count`: how many stores, in `[1, 16]`. Errors: `NoMemory` if an allocation fails; nothing is kept then.
/// May return `NoMemory`. Doesn't wait.
/// Own rule: docs/COORDINATOR.md#calls.
pub fn lasting_manager(
    alloc: Global,
    count: u64,
) -> Result<Manager<Fused<LastingStore>, LastingStore>, NoMemory>
    requires some { 1 ≤ count }
    requires most { count ≤ 16 }
    // Proved (manager, unbounded-begins): A manager over unbounded stores has as many of them as asked, with nothing
    //   begun and nothing open, and each session passes on 2^64 - 1 calls.
    ensures stores { IfOk result (λ manager. vec_len manager.coordinator.stores ≡ count) }
    // Proved (manager, unbounded-begins)
    ensures begins { IfOk result
        (λ manager. BeginsBeside ⟦<LastingStore as Speak>⟧.view ⟦<LastingStore as Beside>⟧.other (whole_of manager)) }
{
    let (sessions, nobody) = open_each(alloc, count)?;
    Ok(Manager::new(alloc, sessions, nobody))
}

/// Carries a client's calls out as `converse` does, over 1 to 16 unbounded stores that hold nothing at first.
///
/// Errors: those of `converse`.
/// May return `NoMemory`. May wait, for the client too.
/// Own rule: docs/COORDINATOR.md#calls.
pub fn converse_lasting<
    'a,
    R: Wait,
    P: Client<BesideServer<'a, Fused<LastingStore>, LastingStore, R>>,
>(rt: &'a R, alloc: Global, client: &mut P, count: u64) -> Result<(), ScriptFault>
    requires some { 1 ≤ count }
    requires most { count ≤ 16 }
    requires fresh { IfSome (P.exchange client.old) IsFresh }
    // Proved (manager, unbounded-conversation): A conversation over unbounded stores is answered, line by
    //   line, by one manager that begins with nothing begun.
    ensures told { OnOk result (IfSome (P.exchange client.new)
        (IsServed ⟦<BesideServer<'a, Fused<LastingStore>, LastingStore, R> as LineServer>⟧.begins
        ⟦<BesideServer<'a, Fused<LastingStore>, LastingStore, R> as LineServer>⟧.answers)) }
    // Proved (manager, unbounded-conversation)
    ensures fault { IfErr result (λ fault. IfSome (P.exchange client.new)
        (AfterServing ⟦<BesideServer<'a, Fused<LastingStore>, LastingStore, R> as LineServer>⟧.begins
        ⟦<BesideServer<'a, Fused<LastingStore>, LastingStore, R> as LineServer>⟧.answers fault)) }
{
    let manager = lasting_manager(alloc, count)?;
    serve(alloc, &mut BesideServer::new(rt, manager), client)
}
