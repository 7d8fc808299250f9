//! A store: the state in which its history begins, and the log that keeps the history.
ghost use Rattle.std.specs.Prelude.{◌≡◌, IfOk, IfErr};
ghost use Rattle.decision_log.specs.Opens.{Opens, Refuses};
ghost use Rattle.xa_server.specs.State.{no_state};

use chain_log::{ChainLog, ChainPass};
use decision_log::{DecisionLog, OpenFault};
use std::alloc::Global;
use xa_server::Server;
use xa_session::Session;
use xa_xid::NoMemory;

/// The log of a store. A thread that stops anywhere in it holds up no other.
pub type Log = ChainLog;

/// A pass: a session's handle on a store's log, with what the session has seen of the history.
pub type Pass = ChainPass;

/// A store: a base, which is an empty server at first, and the log of the history that its sessions share.
///
/// Its sessions run on the threads of their callers.
#[derive(Drop)]
pub struct Store {
    /// The state in which the history begins.
    pub(crate) base: Server,
    /// The log that keeps the history.
    pub(crate) log: Log,
}

impl Store {
    /// Opens a store with no branch and no row, and returns it with a pass for each of its sessions.
    ///
    /// `capacity`: how many entries the history can have, in `[1, 1024]`. `sessions`: how many sessions there
    /// are, in `[1, 16]`; their passes are returned in order, from session 1 on, each with nothing seen.
    /// Errors, in the order of test: `CapacityOutOfRange`, `SessionsOutOfRange` if it isn't in its range;
    /// `NoMemory` if an allocation fails.
    /// May return `NoMemory`. Doesn't wait.
    /// Own rule: docs/RATTLE.md#stores.
    pub fn open(
        alloc: Global,
        capacity: u64,
        sessions: u64,
    ) -> Result<(Store, Vec<Pass>), OpenFault>
        // Proved (stores, opens-empty): A new store has no branch and no row.
        ensures base { IfOk result (λ opened. opened.0.base ≡ no_state) }
        // Proved (stores, opens-passes): Opening a store returns the passes of sessions 1 to the last, in
        //   order, each with nothing seen.
        ensures ok { IfOk result
            (λ opened. Opens ⟦<Log as DecisionLog>⟧.belongs_to ⟦<Log as DecisionLog>⟧.known capacity sessions
            (⟦<Log as DecisionLog>⟧.identity opened.0.log)
            opened.1.items) }
        // Proved (stores, open-fault): If a store can't be opened, the fault is the first whose cause holds. Of
        //   `NoMemory` only that is known that the tests before it were passed.
        ensures err { IfErr result (λ fault. Refuses capacity sessions fault) }
    {
        let (log, passes) = Log::open(alloc, capacity, sessions)?;
        let base = Server::new(alloc);
        Ok((Store { base, log }, passes))
    }

    /// Makes a session of a pass of this store, as `open` returns them.
    ///
    /// Errors: `NoMemory`, if an allocation fails; the pass then comes back unchanged.
    /// May return `NoMemory`. Doesn't wait.
    /// Own rule: docs/RATTLE.md#stores.
    pub fn connect(&self, pass: Pass) -> Result<Session<'_, Log>, (Pass, NoMemory)>
        requires { ⟦<Log as DecisionLog>⟧.belongs_to pass ≡ ⟦<Log as DecisionLog>⟧.identity self.now.log }
        // Proved (stores, connect): A session of a store is of the pass that it was connected with, and its
        //   history begins in the store's base. Without memory the pass comes back.
        ensures pass { IfOk result (λ session. session.pass ≡ pass) }
        // Proved (stores, connect)
        ensures base { IfOk result (λ session. session.base.now ≡ self.now.base) }
        // Proved (stores, connect)
        ensures err { IfErr result (λ refused. refused.0 ≡ pass) }
    {
        Session::connect(&self.log, pass, &self.base)
    }
}
