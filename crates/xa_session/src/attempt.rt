//! A single attempt to answer a statement.
ghost use Rattle.std.specs.Prelude.{◌≡◌, IfErr};
ghost use Rattle.xa_session.specs.{Outcome.Answers, Stays.Stays, Tries.{TriesOnce, Leaves}};

use crate::{Answer, Fault, Session};
use decision_log::DecisionLog;
use xa_xid::Statement;

impl<'a, L: DecisionLog> Session<'a, L> {
    /// Answers a statement from the whole history, as it is at one step of the call, and appends it if it
    /// is logged.
    ///
    /// The answer's place is the length of the history at that step. Errors, in this order: `NoMemory` if
    /// an entry couldn't be replayed, or the list of `XA RECOVER` couldn't be made; `Full` if the statement
    /// would be logged and the history is as long as the log's capacity; `Busy`, only in a log with turns,
    /// if another session has the turn; `Overtaken` if another session appended after this attempt looked.
    /// After an error the history has nothing of the statement, and the session may have seen and replayed
    /// more. `NoMemory` is never returned after an append. Doesn't wait.
    /// Own rule: docs/RATTLE.md#sessions.
    #[tactic(auto, using(crate::proofs::Attempts::found_answers))]
    pub fn attempt(&mut self, statement: &Statement) -> Result<Answer, Fault>
        // Proved (sessions, replayed-never-falls): The number of entries that a session has replayed never
        //   falls, not even at a fault. After an answer it is at least the answer's place. `folded` returns
        //   it, and the replica is the server after so many entries.
        ensures stays { Stays self.old self.new }
        // Proved (sessions, every-schedule): The promises of a session hold over every log that keeps the
        //   promises of `DecisionLog`, so for every schedule of threads.
        // Proved (sessions, reply-after-a-prefix): An answered statement got the sequential server's reply
        //   in the state after a prefix of the history: the first `place` entries of what the session has
        //   now seen.
        // Proved (sessions, prefix-has-all-seen): The prefix after which a statement is answered has all
        //   that the session had seen before the call.
        // Proved (sessions, logged-once): A statement that is logged is the entry right after its answer's
        //   prefix, and the only entry made of it.
        // Proved (sessions, not-logged): A statement that isn't logged is answered at the end of all that
        //   is seen, after a look, and appends nothing.
        // Proved (sessions, faults-append-nothing): After a fault nothing of the statement was appended,
        //   and what is seen still begins with what was seen.
        // Proved (sessions, finishing-what-is-not-prepared): If a free session asks to finish a branch that
        //   isn't prepared at the answer's prefix, the reply is XAER_NOTA.
        // Proved (sessions, recover-at-a-prefix): `XA RECOVER` lists exactly the branches that are prepared
        //   at the answer's prefix.
        // Proved (sessions, causes-of-faults): `Overtaken` is returned only if a try was made and lost to a longer
        //   history, and `Busy` only in a log with turns. `Full` is returned only if the statement would be logged and
        //   as much is seen as the log can have. At `Overtaken` more is seen than was replayed, at `Busy` just as much.
        // Proved (sessions, causes-of-no-memory): `NoMemory` is returned only for the list of `XA RECOVER`,
        //   or if not all that is seen is replayed after the call. So if nothing is left to replay, no
        //   other statement returns it. If the replica can't replay what is seen, `NoMemory` is returned
        //   before any answer and before `Full`.
        // Proved (sessions, replica-is-current): After an answer a session has replayed all that it has
        //   seen, also the statement if it was logged. The exception is a logged statement for which
        //   replaying may need memory.
        // Proved (sessions, replayed-never-falls)
        ensures answers { Answers statement.now result self.old self.new }
        // Proved (sessions, one-try): An attempt looks, and tries to append at most once. Without an answer
        //   it has made one try at `Overtaken` and `Busy`, and none at `Full` and `NoMemory`. Over a
        //   `ChainLog` a try is one exchange.
        ensures once { TriesOnce result (L.known self.old.pass) (L.known self.new.pass) }
        // Proved (sessions, causes-of-faults)
        ensures leaves { IfErr result (λ fault. Leaves fault self.new.replica (L.known self.old.pass)
            (L.known self.new.pass)) }
    {
        self.replica
            .attempt(self.log, &mut self.pass, self.base, statement)
    }
}
