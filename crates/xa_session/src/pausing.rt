//! A session without its borrows, so that it can be kept together with its log.
ghost use Rattle.std.specs.Prelude.{◌≡◌};
ghost use Rattle.xa_session.specs.Replay.{Stands};

use crate::{Replica, Session};
use decision_log::DecisionLog;
use xa_server::Server;

impl<'a, L: DecisionLog> Session<'a, L> {
    /// Returns the session's pass and replica, from which `resume` makes the session again.
    ///
    /// Nothing is logged: an open branch stays open, with its locks. Takes no memory. Doesn't wait.
    /// Own rule: docs/RATTLE.md#sessions.
    pub fn pause(self) -> (L::Pass, Replica)
        // Proved (sessions, pause-and-resume): A paused session resumes as it was.
        ensures pass { result.0 ≡ self.entry.pass }
        // Proved (sessions, pause-and-resume)
        ensures replica { result.1 ≡ self.entry.replica }
        // Proved (sessions, pause-and-resume)
        ensures stands { Stands self.entry.base.now (L.known result.0).seen result.1 }
    {
        let Session { pass, replica, .. } = self;
        (pass, replica)
    }

    /// Makes the session of a pass of this log and of a replica of what the pass has seen, as `pause`
    /// returns both.
    ///
    /// Nothing is replayed. Takes no memory. Doesn't wait.
    /// Own rule: docs/RATTLE.md#sessions.
    pub fn resume(log: &'a L, pass: L::Pass, base: &'a Server, replica: Replica) -> Session<'a, L>
        requires belongs { L.belongs_to pass ≡ L.identity log.now }
        requires stands { Stands base.now (L.known pass).seen replica }
        // Proved (sessions, pause-and-resume)
        ensures pass { result.pass ≡ pass }
        // Proved (sessions, pause-and-resume)
        ensures base { result.base.now ≡ base.now }
        // Proved (sessions, pause-and-resume)
        ensures replica { result.replica ≡ replica }
    {
        // The session's invariant names the base's lock law.
        base.keeps_lock_law();
        Session {
            log,
            pass,
            base,
            replica,
        }
    }
}
