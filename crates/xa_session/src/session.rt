//! A session over a log.
ghost use Rattle.std.specs.Prelude.{◌≡◌, ◌<◌, ◌≤◌, length, slice_get, Some, IfOk, IfErr};
ghost use Rattle.decision_log.specs.Calls.{Looked, MeetsFirst, MeetsSecond};
ghost use Rattle.xa_server.specs.Locks.{LockLaw};
ghost use Rattle.xa_session.specs.Replay.{Stands, state_at};

use crate::replica::Replica;
use decision_log::DecisionLog;
use xa_server::Server;
use xa_words::Entry;
use xa_xid::{NoMemory, SessionNo};

/// A session: a pass of a log, and a replica of the server.
///
/// The replica is kept between statements, and replays each entry once. A contract sees what the session
/// knows as what its pass knows, `L.known session.pass`, and the state in which the history begins as
/// `session.base.now`. If a session is dropped, its branch stays open, with its locks.
#[derive(Drop)]
pub struct Session<'a, L: DecisionLog> {
    /// The log that it shares.
    pub(crate) log: &'a L,
    /// Its handle on the log.
    pub(crate) pass: L::Pass,
    /// The state in which the history begins.
    pub(crate) base: &'a Server,
    /// Its own server, which has replayed a prefix of what the pass has seen.
    pub(crate) replica: Replica,
    // The pass is one of this log.
    ghost belongs: { L.belongs_to pass ≡ L.identity log.now },
    // Proved (sessions, replica-is-a-prefix): At every moment a session's replica is the server after a
    //   prefix of what the session has seen.
    ghost stands: { Stands base.now (L.known pass).seen replica },
    // The state in which the history begins keeps the lock law.
    ghost lawful: { LockLaw base.now },
}

impl<'a, L: DecisionLog> Session<'a, L> {
    /// Makes a session of a pass of this log. Its replica begins as a copy of `base`.
    ///
    /// Error: `NoMemory`, with the pass unchanged. Doesn't wait.
    /// Own rule: docs/RATTLE.md#sessions.
    pub fn connect(
        log: &'a L,
        pass: L::Pass,
        base: &'a Server,
    ) -> Result<Session<'a, L>, (L::Pass, NoMemory)>
        requires { L.belongs_to pass ≡ L.identity log.now }
        // Proved (sessions, connect): A session belongs to the pass, and so to the log, and to the base
        //   that it was connected with. If memory runs out you get the pass back.
        ensures pass { IfOk result (λ session. session.pass ≡ pass) }
        // Proved (sessions, connect)
        ensures base { IfOk result (λ session. session.base.now ≡ base.now) }
        // Proved (sessions, connect)
        ensures err { IfErr result (λ refused. refused.0 ≡ pass) }
    {
        // The session's invariant names the base's lock law.
        base.keeps_lock_law();
        match Replica::of(base) {
            Ok(replica) => Ok(Session {
                log,
                pass,
                base,
                replica,
            }),
            Err(error) => Err((pass, error)),
        }
    }

    /// States that the state in which the history begins keeps the lock law, as every server's state does.
    ///
    /// Takes no memory. Doesn't wait.
    /// Own rule: docs/STATEMENTS.md#rows-and-locks.
    pub fn base_keeps_lock_law(&self)
        // Proved (sessions, base-keeps-lock-law): The state in which a session's history begins keeps the
        //   lock law.
        ensures { LockLaw self.now.base.now }
    {
        self.base.keeps_lock_law();
    }

    /// Returns the session's number.
    ///
    /// Takes no memory. Doesn't wait.
    /// Own rule: docs/RATTLE.md#sessions.
    pub fn number(&self) -> SessionNo
        // Proved (sessions, reading-keeps-the-replica)
        ensures { result ≡ (L.known self.now.pass).number }
    {
        self.log.number(&self.pass)
    }

    /// Returns how many entries of the history the session has seen.
    ///
    /// Takes no memory. Doesn't wait.
    /// Own rule: docs/RATTLE.md#sessions.
    pub fn seen(&self) -> u64
        // Proved (sessions, reading-keeps-the-replica)
        ensures { result ≡ length (L.known self.now.pass).seen }
    {
        self.log.length(&self.pass)
    }

    /// Returns how many entries of what the session has seen its replica has replayed, from the first on.
    ///
    /// The number never falls, and after an answer it is at least the answer's place. Takes no memory.
    /// Doesn't wait.
    /// Own rule: docs/RATTLE.md#sessions.
    pub fn folded(&self) -> u64
        // Proved (sessions, replayed-never-falls)
        ensures replayed { result ≡ self.now.replica.replayed }
        // Proved (sessions, replayed-never-falls)
        ensures within { result ≤ length (L.known self.now.pass).seen }
        // Proved (sessions, replayed-never-falls)
        ensures state { self.now.replica.server ≡ state_at self.now.base.now (L.known self.now.pass).seen result }
    {
        self.replica.replayed
    }

    /// Sees the whole history, as it is at one step of the call, and returns its length. The replica is
    /// unchanged.
    ///
    /// Takes no memory. Doesn't wait.
    /// Own rule: docs/RATTLE.md#sessions.
    pub fn look(&mut self) -> u64
        ensures belongs { L.belongs_to self.new.pass ≡ L.belongs_to self.old.pass }
        ensures base { self.new.base.now ≡ self.old.base.now }
        // Proved (sessions, reading-keeps-the-replica): A session looks, reads an entry, and returns how
        //   many entries it has seen and its number, as its pass does. None of these calls changes the
        //   replica, and neither does meeting.
        ensures replica { self.new.replica ≡ self.old.replica }
        // Proved (sessions, reading-keeps-the-replica)
        ensures looked { Looked (L.known self.old.pass) (L.known self.new.pass) }
        // Proved (sessions, reading-keeps-the-replica)
        ensures length { result ≡ length (L.known self.new.pass).seen }
    {
        self.log.look(&mut self.pass)
    }

    /// Returns the entry at place `at`, in `[0, seen)`.
    ///
    /// Takes no memory. Doesn't wait.
    /// Own rule: docs/RATTLE.md#sessions.
    pub fn entry(&mut self, at: u64) -> Entry
        requires { at < length (L.known self.old.pass).seen }
        ensures belongs { L.belongs_to self.new.pass ≡ L.belongs_to self.old.pass }
        ensures base { self.new.base.now ≡ self.old.base.now }
        // Proved (sessions, reading-keeps-the-replica)
        ensures replica { self.new.replica ≡ self.old.replica }
        // Proved (sessions, reading-keeps-the-replica)
        ensures same { L.known self.new.pass ≡ L.known self.old.pass }
        // Proved (sessions, reading-keeps-the-replica)
        ensures entry { slice_get (L.known self.old.pass).seen at ≡ Some result }
    {
        self.log.entry(&mut self.pass, at)
    }

    /// Lets two sessions of one log meet: `other` has then seen all that this session has. Both replicas
    /// are unchanged.
    ///
    /// Takes no memory. Doesn't wait.
    /// Own rule: docs/RATTLE.md#sessions.
    pub fn meet(&mut self, other: &mut Session<'_, L>)
        requires { L.belongs_to self.old.pass ≡ L.belongs_to other.old.pass }
        ensures belongs { (L.belongs_to self.new.pass ≡ L.belongs_to self.old.pass)
            × (L.belongs_to other.new.pass ≡ L.belongs_to other.old.pass) }
        ensures bases { (self.new.base.now ≡ self.old.base.now) × (other.new.base.now ≡ other.old.base.now) }
        // Proved (sessions, reading-keeps-the-replica)
        ensures replicas { (self.new.replica ≡ self.old.replica) × (other.new.replica ≡ other.old.replica) }
        // Proved (sessions, meet): After two sessions meet, what the first has seen begins what the second
        //   has seen. The first's own entries there are as the first knows them.
        ensures first { MeetsFirst (L.known self.old.pass) (L.known self.new.pass) }
        // Proved (sessions, meet)
        ensures second { MeetsSecond (L.known self.old.pass) (L.known other.old.pass) (L.known other.new.pass) }
    {
        self.log.meet(&mut self.pass, &mut other.pass);
    }

    /// Ends the session and returns its pass. Nothing is logged: an open branch stays open, with its locks.
    ///
    /// Takes no memory. Doesn't wait.
    /// Own rule: docs/RATTLE.md#sessions.
    pub fn leave(self) -> L::Pass
        // Proved (sessions, leave): Leaving returns the pass unchanged.
        ensures { result ≡ self.entry.pass }
    {
        let Session { pass, .. } = self;
        pass
    }
}
