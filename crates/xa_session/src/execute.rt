//! Attempts until a statement is answered, and disconnecting.
ghost use Rattle.std.specs.Prelude.{◌≡◌, ◌<◌, ℕ, IfOk, IfErr, OnErr};
ghost use Rattle.xa_server.specs.declared.reply.Reply.TheVariants.{Ok as Accepted};
ghost use Rattle.xa_xid.specs.declared.statement.Statement.TheVariants.{Disconnect};
ghost use Rattle.xa_session.specs.{Answer.{IsAnswered, IsFinal}, Outcome.{Answers, HasFailed}, Stays.Stays};
ghost use Rattle.xa_session.specs.Tries.{LooksLast};

use crate::{Answer, Fault, Session};
use decision_log::DecisionLog;
use std::sync::Wait;
use std::thread;
use xa_xid::Statement;

impl<'a, L: DecisionLog> Session<'a, L> {
    /// Answers a statement as `attempt` does, and tries again after `Overtaken` and `Busy`.
    ///
    /// Errors: `NoMemory` and `Full`, as for `attempt`. They are the result of the last attempt, which has made no
    /// try to append. `NoMemory` is never returned after an append. May wait: no number of tries is promised.
    /// Own rule: docs/RATTLE.md#sessions.
    pub fn execute<R: Wait>(&mut self, rt: &R, statement: &Statement) -> Result<Answer, Fault>
        // Proved (sessions, replayed-never-falls)
        ensures stays { Stays self.old self.new }
        // Proved (sessions, every-schedule)
        // Proved (sessions, reply-after-a-prefix)
        // Proved (sessions, prefix-has-all-seen)
        // Proved (sessions, logged-once)
        // Proved (sessions, not-logged)
        // Proved (sessions, faults-append-nothing)
        // Proved (sessions, finishing-what-is-not-prepared)
        // Proved (sessions, recover-at-a-prefix)
        // Proved (sessions, causes-of-no-memory)
        // Proved (sessions, replica-is-current)
        // Proved (sessions, replayed-never-falls)
        ensures answers { Answers statement.now result self.old self.new }
        // Proved (sessions, how-executing-ends): If executing or disconnecting ends, it ends in an answer,
        //   `Full` or `NoMemory`. These two follow a look that no try has followed, so a lost try is never
        //   returned as one of them.
        ensures lasts { IfErr result IsFinal }
        // Proved (sessions, how-executing-ends)
        ensures tried { OnErr result (LooksLast (L.known self.old.pass) (L.known self.new.pass)) }
        // Proved (sessions, how-executing-ends)
        ensures since { OnErr result (0 < (L.known self.new.pass).since) }
    {
        for _ in rt.forever() {
            match self.attempt(statement) {
                // Another session has appended first, or has the turn: its thread may go on before the next attempt.
                Err(Fault::Overtaken { .. }) | Err(Fault::Busy) => thread::yield_now(),
                answered => return answered,
            }
        }
        // The loop above ends only by a return.
        unreachable!()
    }

    /// Executes `DISCONNECT` and returns the pass.
    ///
    /// Errors: as for `execute`; the session comes back, and may have seen and replayed more. May wait: no number of
    /// tries is promised.
    /// Own rule: docs/RATTLE.md#sessions.
    pub fn disconnect<R: Wait>(mut self, rt: &R) -> Result<L::Pass, (Session<'a, L>, Fault)>
        // Proved (sessions, disconnect): Disconnecting returns the pass only if `DISCONNECT` was answered
        //   `OK`. Otherwise it returns the session, and nothing of the statement was appended.
        ensures belongs { IfOk result (λ pass. L.belongs_to pass ≡ L.belongs_to self.entry.pass) }
        // Proved (sessions, disconnect)
        ensures answered { IfOk result
            (λ pass. (place : ℕ)
            × IsAnswered self.entry.base.now Disconnect (record { place = place; reply = Accepted })
            (L.known self.entry.pass) (L.known pass)) }
        // Proved (sessions, disconnect)
        // Proved (sessions, replayed-never-falls)
        ensures stays { IfErr result (λ refused. Stays self.entry refused.0) }
        // Proved (sessions, disconnect)
        // Proved (sessions, causes-of-no-memory)
        ensures cause { IfErr result (λ refused. HasFailed Disconnect refused.1 self.entry refused.0) }
        // Proved (sessions, how-executing-ends)
        ensures lasts { IfErr result (λ refused. IsFinal refused.1) }
        // Proved (sessions, how-executing-ends)
        ensures tried { IfErr result (λ refused. LooksLast (L.known self.entry.pass) (L.known refused.0.pass)) }
        // Proved (sessions, how-executing-ends)
        ensures since { IfErr result (λ refused. 0 < (L.known refused.0.pass).since) }
    {
        match self.execute(rt, &Statement::Disconnect) {
            // `DISCONNECT` is never refused, so the answer is `OK`.
            Ok(_) => Ok(self.pass),
            Err(fault) => Err((self, fault)),
        }
    }
}
