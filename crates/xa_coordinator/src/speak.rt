//! What a coordinator requires of a session.
ghost use Rattle.std.specs.Prelude.{◌≡◌, ◌≤◌, ◌<◌, ◌+◌, ⊤, [], true, None, Result, IfOk, IfErr};
ghost use Rattle.decision_log.specs.History.{entries_of};
ghost use Rattle.xa_server.specs.Locks.{LockLaw};
ghost use Rattle.xa_session.specs.Answer.{IsAnswered, Fails, IsFinal, WantsMemory};
ghost use Rattle.xa_session.specs.declared.{answer.Answer.Answer as AnswerOf, fault.Fault.Fault as FaultOf};
ghost use Rattle.xa_session.specs.View.{SessionView, StaysOfLog, TakesBy};
ghost use Rattle.xa_xid.specs.declared.statement.Statement.{Statement as StatementOf};

use decision_log::DecisionLog;
use std::sync::Wait;
use xa_session::{Answer, Fault, Session};
use xa_xid::Statement;

/// What a coordinator requires of a session: it answers statements, and keeps a session's promises.
pub trait Speak {
    // what a contract sees of the session
    ghost view: { Self → SessionView };

    // what more is known of a call of `attempt`: of the session before it, the statement, the answer and the
    // session after it
    ghost attempts: { Self → StatementOf → Result AnswerOf FaultOf → Self → Type 0 } = { λ _ _ _ _. ⊤ };

    // what more is known of a call of `execute`
    ghost executes: { Self → StatementOf → Result AnswerOf FaultOf → Self → Type 0 } = { λ _ _ _ _. ⊤ };

    /// Answers a statement from the whole history, as it is at one step of the call, and adds it there if it
    /// is logged.
    ///
    /// Tries at most once to append. Errors: those of `xa_session::Session::attempt`.
    /// After an error nothing of the statement was added. Doesn't wait.
    /// Own rule: docs/COORDINATOR.md#sessions-of-a-coordinator.
    fn attempt(&mut self, statement: &Statement) -> Result<Answer, Fault>
        ensures stays { StaysOfLog (view self.old) (view self.new) }
        ensures answered { IfOk result (λ answer. IsAnswered (view self.old).base statement.now answer
            (view self.old).known (view self.new).known) }
        ensures fails { IfErr result
            (λ fault. Fails (view self.old).turns (view self.old).identity.capacity
            (view self.old).base statement.now fault (view self.old).known
            (view self.new).known) }
        ensures tries { (view self.new).known.tries ≤ (view self.old).known.tries + 1 }
        ensures takes { TakesBy result (view self.old) (view self.new) }
        ensures gives { attempts self.old statement.now result self.new };

    /// Answers a statement as `attempt` does, and tries again after `Overtaken` and `Busy`.
    ///
    /// Errors: `Full`, `NoMemory`.
    /// After an error nothing of the statement was added. May wait: no number of tries is promised.
    /// Own rule: docs/COORDINATOR.md#sessions-of-a-coordinator.
    fn execute<R: Wait>(&mut self, rt: &R, statement: &Statement) -> Result<Answer, Fault>
        ensures stays { StaysOfLog (view self.old) (view self.new) }
        ensures answered { IfOk result (λ answer. IsAnswered (view self.old).base statement.now answer
            (view self.old).known (view self.new).known) }
        ensures fails { IfErr result
            (λ fault. Fails (view self.old).turns (view self.old).identity.capacity
            (view self.old).base statement.now fault (view self.old).known
            (view self.new).known) }
        ensures lasts { IfErr result IsFinal }
        ensures takes { TakesBy result (view self.old) (view self.new) }
        ensures gives { executes self.old statement.now result self.new };

    // the entries of its own number in what it has seen are its own
    ghost own_part: { (session : Self) → entries_of (view session).known.number (view session).known.seen
        ≡ (view session).known.mine };

    // the state in which its history begins keeps the lock law
    ghost lawful: { (session : Self) → LockLaw (view session).base };
}

// Proved (coordinator, session-speaks): A session, over any log, keeps the promises of `Speak`. It returns
//   `NoMemory` only for the list of an `XA RECOVER`, or if its replica hasn't replayed all that it has seen.
impl<'a, L: DecisionLog> Speak for Session<'a, L> {
    ghost view = { λ session. record {
      identity = L.belongs_to session.pass;
      turns = L.TURNS;
      base = session.base.now;
      known = L.known session.pass;
      beside = [];
      left = None;
      starved = true;
    } };

    // a session looks at each attempt, and memory is missing only for a list, or for a replica that hasn't
    // replayed all that is seen
    ghost attempts = { λ old statement result new. ((L.known old.pass).looks < (L.known new.pass).looks)
        × IfErr result (λ fault. WantsMemory statement fault new.replica (L.known new.pass)) };

    ghost executes = { λ old statement result new. IfErr result
        (λ fault. WantsMemory statement fault new.replica (L.known new.pass)) };

    ghost own_part = { λ session. L.own_part session.pass };

    ghost lawful = { λ session. session.lawful };

    fn attempt(&mut self, statement: &Statement) -> Result<Answer, Fault> {
        Session::attempt(self, statement)
    }

    fn execute<R: Wait>(&mut self, rt: &R, statement: &Statement) -> Result<Answer, Fault> {
        Session::execute(self, rt, statement)
    }
}
