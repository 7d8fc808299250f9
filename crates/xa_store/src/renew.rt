//! Replaces a store's full history by an empty one, with every session disconnected.
ghost use Rattle.std.specs.{Prelude.{◌≡◌, ◌≤◌, IfOk, IfErr, map}, List.AllZip};
ghost use Rattle.decision_log.specs.Opens.{Opens};
ghost use Rattle.xa_store.specs.{Passes.{identity_of, log_of, known_of}, Gathered.last_known};
ghost use Rattle.xa_store.specs.Renewal.{AreGathered, disconnected, renewed};

use crate::store::{Log, Pass, Store};
use decision_log::DecisionLog;
use std::alloc::{AllocError, Global};
use xa_server::Server;
use xa_session::replayed;
use xa_xid::{NoMemory, SessionNo, Statement};

/// The server after the sessions 1 to `sessions` have disconnected, in order. Their branches, which aren't PREPARED,
/// are rolled back.
fn disconnect_all(mut server: Server, sessions: u64) -> Server
    requires { sessions ≤ 16 }
    ensures { result ≡ disconnected sessions server }
{
    for index in 0..sessions {
        // Neither fails: session numbers go up to 16, and DISCONNECT takes no memory.
        let session = SessionNo::of(index + 1).unwrap();
        let _reply = server.apply(session, &Statement::Disconnect).unwrap();
    }
    server
}

impl Store {
    /// A new store with this base and an empty log, and the log's passes. The log has room for as many entries, and as
    /// many sessions, as this store's.
    fn reopened(&self, alloc: Global, base: Server) -> Result<(Store, Vec<Pass>), NoMemory>
        ensures base { IfOk result (λ opened. opened.0.base ≡ base) }
        ensures ok { IfOk result
            (λ opened. Opens log_of known_of (identity_of self.now.log).capacity (identity_of self.now.log).sessions
            (identity_of opened.0.log)
            opened.1.items) }
    {
        // Both sizes are those of a log, and so in their ranges. Only memory can be missing.
        let Ok((log, passes)) = Log::open(alloc, self.log.capacity(), self.log.sessions()) else {
            return Err(AllocError);
        };
        Ok((Store { base, log }, passes))
    }

    /// A new store with an empty log, and its passes. Its base is this store's after all that the pass `last` has seen,
    /// and after a `DISCONNECT` of each session. `last` knows as much as before, also after `NoMemory`.
    fn anew(&self, alloc: Global, last: &mut Pass) -> Result<(Store, Vec<Pass>), NoMemory>
        requires { log_of last.old ≡ identity_of self.now.log }
        ensures belongs { log_of last.new ≡ log_of last.old }
        ensures same { known_of last.new ≡ known_of last.old }
        ensures base { IfOk result (λ opened. opened.0.base
            ≡ renewed self.now.base (known_of last.old).seen (identity_of self.now.log).sessions) }
        ensures ok { IfOk result
            (λ opened. Opens log_of known_of (identity_of self.now.log).capacity (identity_of self.now.log).sessions
            (identity_of opened.0.log)
            opened.1.items) }
    {
        let server = replayed(&self.log, &self.base, last)?;
        let base = disconnect_all(server, self.log.sessions());
        self.reopened(alloc, base)
    }

    /// Replaces this store's history by an empty one, with every session disconnected.
    ///
    /// The new base is the old one after all that the last of the given passes has seen, and after a
    /// `DISCONNECT` of each session: PREPARED branches stay, with their locks, and each session's open branch
    /// is rolled back. The log has the same capacity, and a new pass is returned for each session. `passes`
    /// must be as `close` returns them, at least one; entries that none of them has seen are lost. Errors:
    /// `NoMemory`, if an allocation fails. After an error the store and the list of passes come back
    /// unchanged.
    /// May return `NoMemory`. Doesn't wait. Takes time for the rows of the base and for the history.
    /// Own rule: docs/RATTLE.md#renewal.
    pub fn renew(
        self,
        alloc: Global,
        mut passes: Vec<Pass>,
    ) -> Result<(Store, Vec<Pass>), (Store, Vec<Pass>, NoMemory)>
        requires { AreGathered (identity_of self.log) passes.items }
        // Proved (stores, renew-base): A renewed store begins with the old base after all that the last pass
        //   has seen, and after a `DISCONNECT` of each session.
        ensures base { IfOk result (λ opened. opened.0.base
            ≡ renewed self.base (last_known (map known_of passes.items)).seen (identity_of self.log).sessions) }
        // Proved (stores, renew-passes): A renewed store has an empty log of the same two sizes, with passes
        //   of all sessions.
        ensures ok { IfOk result
            (λ opened. Opens log_of known_of (identity_of self.log).capacity (identity_of self.log).sessions
            (identity_of opened.0.log) opened.1.items) }
        // Proved (stores, renew-no-memory): If there is no memory to renew a store, the store and the passes
        //   come back as they were.
        ensures store { IfErr result (λ kept. (kept.0.base ≡ self.base)
            × (identity_of kept.0.log ≡ identity_of self.log)) }
        // Proved (stores, renew-no-memory)
        ensures passes { IfErr result (λ kept. AllZip
            (λ old new. (log_of new ≡ log_of old) × (known_of new ≡ known_of old)) passes.items kept.1.items) }
    {
        // The last pass is taken out so that the history can be replayed with it; after an error it goes back.
        let mut last = passes.take_last();
        match self.anew(alloc, &mut last) {
            Ok(opened) => Ok(opened),
            Err(error) => {
                passes.push_reserved(last);
                Err((self, passes, error))
            }
        }
    }
}
