//! An unbounded store.
ghost use Rattle.std.specs.Prelude.{◌≡◌, Err, IfOk, OnErr, [], map};
ghost use Rattle.xa_server.specs.Locks.{LockLaw};
ghost use Rattle.xa_session.specs.{Replay.state_after, declared.fault.Fault.TheVariants.NoMemory as WantsMemory};
ghost use Rattle.xa_coordinator.specs.Watched.{HasSeenOwn, AllEntered};

use crate::Watch;
use crate::serving::serve;
use std::alloc::Global;
use std::snapshot::Snapshot;
use xa_server::Server;
use xa_session::{Answer, Fault};
use xa_words::Entry;
use xa_xid::{SessionNo, Statement};

/// An unbounded store for one thread, with two sessions: its own, of number 1, and another client's, of
/// number 2.
///
/// It keeps the state that its history leaves, and of the history only its length. So it takes memory only for
/// its branches and rows, and the history can have 2^63 - 1 entries. A contract sees the whole history.
#[derive(Drop)]
pub struct LastingStore {
    /// The server with which it began. Only contracts see it.
    pub(crate) first: Snapshot<Server>,
    /// The history, of which only contracts see the entries. At run time it is a length.
    pub(crate) history: Vec<Snapshot<Entry>>,
    /// The state that the history leaves.
    pub(crate) server: Server,
    /// What its own session has seen.
    pub(crate) own: Watch,
    /// What the other client's session has seen.
    pub(crate) other: Watch,
    // The state in which the history begins keeps the lock law.
    ghost lawful: { LockLaw first.value },
    // The server is what the history leaves.
    ghost stands: { server ≡ state_after first.value (map (λ one. one.value) history.items) },
    // What the store's own session (1) has seen is a prefix of the history with all its entries.
    ghost own_seen: { HasSeenOwn 1 own (map (λ one. one.value) history.items) },
    // So is what the other client's session (2) has seen.
    ghost other_seen: { HasSeenOwn 2 other (map (λ one. one.value) history.items) },
    // Proved (coordinator, unbounded-store-entries): Each entry of an unbounded store's history was logged at
    //   its place, and is of session 1 or 2.
    ghost entered: { AllEntered first.value (map (λ one. one.value) history.items) },
}

impl LastingStore {
    ghost use Rattle.decision_log.specs.Known.{newcomer};
    ghost use Rattle.xa_coordinator.specs.Lasting.{history_of, own_view, other_view, IsAnsweredBeside};

    /// Makes a store that begins with this server, and whose sessions have seen nothing.
    ///
    /// `server`: an empty one, or what a store's history left, as `xa_session::replayed` returns it.
    /// Takes no memory. Doesn't wait.
    /// Own rule: docs/COORDINATOR.md#unbounded-stores.
    #[tactic(auto, using(crate::proofs::Served::starts, crate::proofs::Served::none_entered))]
    pub fn new(alloc: Global, server: Server) -> LastingStore
        // Proved (coordinator, unbounded-store-begins): An unbounded store begins with any server, an empty
        //   history, and its two sessions before their first look.
        ensures base { result.first.value ≡ server }
        // Proved (coordinator, unbounded-store-begins)
        ensures empty { history_of result ≡ [] }
        // Proved (coordinator, unbounded-store-begins)
        ensures own { (own_view result).known ≡ newcomer 1 }
        // Proved (coordinator, unbounded-store-begins)
        ensures other { (other_view result).known ≡ newcomer 2 }
    {
        // Only the contract needs this: the state in which the history begins keeps the lock law.
        server.keeps_lock_law();
        LastingStore {
            first: Snapshot::of(&server),
            history: Vec::new(alloc),
            server,
            own: Watch { seen: 0, looks: 0 },
            other: Watch { seen: 0, looks: 0 },
        }
    }

    /// Returns the state that the history leaves.
    ///
    /// Takes no memory. Doesn't wait.
    /// Own rule: docs/COORDINATOR.md#unbounded-stores.
    pub fn server(&self) -> &Server
        ensures { result.now ≡ state_after self.now.first.value (history_of self.now) }
    {
        &self.server
    }

    /// Answers a statement of the other client's session, number 2, as `execute` does for the store's own
    /// session.
    ///
    /// Errors: `NoMemory` if an allocation fails, or after 2^64 - 1 looks of that session.
    /// After an error nothing has changed.
    /// May return `NoMemory`. Doesn't wait.
    /// Own rule: docs/COORDINATOR.md#unbounded-stores.
    pub fn answer_other(&mut self, statement: &Statement) -> Result<Answer, Fault>
        // Proved (coordinator, unbounded-store-beside)
        ensures answered { IfOk result (IsAnsweredBeside statement.now (other_view self.old) (other_view self.new)) }
        // Proved (coordinator, unbounded-store-beside)
        ensures err { OnErr result (other_view self.new ≡ other_view self.old) }
        // Proved (coordinator, unbounded-store-beside)
        ensures cause { OnErr result (result ≡ Err WantsMemory) }
    {
        // The other client is session 2. Sessions have the numbers 1 to 16, so this error never comes.
        let Some(session) = SessionNo::of(2) else {
            return Err(Fault::NoMemory);
        };
        match serve(
            &mut self.server,
            &mut self.history,
            &mut self.other,
            session,
            statement,
        ) {
            Ok(answer) => Ok(answer),
            Err(fault) => Err(fault),
        }
    }

    /// Answers a statement of the store's own session, number 1. Errors: as for `answer_other`.
    pub(crate) fn answer_own(&mut self, statement: &Statement) -> Result<Answer, Fault>
        ensures answered { IfOk result (IsAnsweredBeside statement.now (own_view self.old) (own_view self.new)) }
        ensures err { OnErr result (own_view self.new ≡ own_view self.old) }
        ensures cause { OnErr result (result ≡ Err WantsMemory) }
    {
        // The store's own session is 1. Sessions have the numbers 1 to 16, so this error never comes.
        let Some(session) = SessionNo::of(1) else {
            return Err(Fault::NoMemory);
        };
        match serve(
            &mut self.server,
            &mut self.history,
            &mut self.own,
            session,
            statement,
        ) {
            Ok(answer) => Ok(answer),
            Err(fault) => Err(fault),
        }
    }
}
