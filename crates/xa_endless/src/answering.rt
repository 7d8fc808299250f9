//! How a session answers a statement, and catches up.
ghost use Rattle.std.specs.Prelude.{◌≡◌, ◌≤◌, length, IfOk, IfErr, OnErr};
ghost use Rattle.chain_log.specs.RingPass.{identity_of, log_of, known_of};
ghost use Rattle.xa_session.specs.{Answer.IsUnanswered, Tries.LooksLast};
ghost use Rattle.xa_endless.specs.{Answers.{Finds, HasAnswered, HasFailed, TriesOnce}, Stays.Stays};
ghost use Rattle.xa_endless.specs.declared.fault.EndlessFault.TheVariants.{NoMemory as IsNoMemory};

use crate::{EndlessFault, EndlessSession, EndlessStore, Member};
use std::sync::Wait;
use std::thread;
use xa_session::Answer;
use xa_xid::{NoMemory, Statement};

impl EndlessStore {
    /// Makes one attempt to answer a statement, with the session's own replica, as `Replica::attempt` does.
    fn try_once(&self, member: &mut Member, statement: &Statement) -> Result<Answer, EndlessFault>
        requires { log_of member.old.pass ≡ identity_of self.now.log }
        ensures belongs { log_of member.new.pass ≡ log_of member.old.pass }
        ensures folds { member.old.replica.replayed ≤ member.new.replica.replayed }
        ensures told { member.new.told ≡ member.old.told }
        ensures finds { Finds self.now.log statement.now result member.new.replica member.old.pass member.new.pass }
        ensures once { TriesOnce result (known_of member.old.pass) (known_of member.new.pass) }
    {
        member
            .replica
            .attempt(&self.log, &mut member.pass, statement)
    }

    /// Makes an attempt to answer a statement. Before that the session goes on from a checkpoint, if that should be
    /// faster than to replay. If it then turns out to be behind, and can go on from a checkpoint, it does so and makes
    /// one more attempt.
    ///
    /// Errors: as for `Replica::attempt`; `NoMemory` also if a session that is behind couldn't copy the checkpoint.
    fn answer(&self, member: &mut Member, statement: &Statement) -> Result<Answer, EndlessFault>
        requires { log_of member.old.pass ≡ identity_of self.now.log }
        ensures belongs { log_of member.new.pass ≡ log_of member.old.pass }
        ensures folds { member.old.replica.replayed ≤ member.new.replica.replayed }
        ensures told { member.new.told ≡ member.old.told }
        ensures finds { Finds self.now.log statement.now result member.new.replica member.old.pass member.new.pass }
        ensures once { TriesOnce result (known_of member.old.pass) (known_of member.new.pass) }
    {
        self.jump(member);
        let answered = self.try_once(member, statement);
        // An answer needs no checkpoint, and after any other fault than `Behind` one wouldn't help.
        if !matches!(answered, Err(EndlessFault::Behind)) {
            return answered;
        }
        // `Behind` comes before any exchange, so the session still tries to append at most once.
        if self.help(member)? {
            return self.try_once(member, statement);
        }
        // The session can go on from no checkpoint now, so it returns `Behind`: another session may leave one.
        answered
    }

    /// Answers a statement as `answer` does. After an answer, but not after a fault, the session leaves a checkpoint or
    /// stands on a newer one, if it is time (`tend_in_time`).
    fn attempt(&self, member: &mut Member, statement: &Statement) -> Result<Answer, EndlessFault>
        requires { log_of member.old.pass ≡ identity_of self.now.log }
        ensures belongs { log_of member.new.pass ≡ log_of member.old.pass }
        ensures folds { member.old.replica.replayed ≤ member.new.replica.replayed }
        ensures told { member.new.told ≡ member.old.told }
        ensures finds { Finds self.now.log statement.now result member.new.replica member.old.pass member.new.pass }
        ensures once { TriesOnce result (known_of member.old.pass) (known_of member.new.pass) }
    {
        let answer = self.answer(member, statement)?;
        // The session has just replayed what it saw. It may be the last one that adds, so it sees to the checkpoints
        // now.
        self.tend_in_time(member);
        Ok(answer)
    }
}

impl EndlessSession {
    /// Answers a statement from the whole history, as it is at one step of the call, and appends it if it is logged.
    ///
    /// The answer's place is the length of the history at that step. Errors: `Behind` if entries that the session
    /// hasn't replayed may be overwritten, and either it could go on from no checkpoint, or entries after the
    /// checkpoint's were also overwritten before it had replayed them. Try again: no number of tries is promised.
    /// `NoMemory` if an entry couldn't be replayed, or a checkpoint couldn't be copied, or the list of `XA RECOVER`
    /// couldn't be made, or the statement would be logged and the history has as many entries as it can, more than
    /// 2^59; `Overtaken` if another session appended after this attempt looked. After an error the history has nothing
    /// of the statement, and the session may have seen and replayed more. `NoMemory` is never returned after an append.
    ///
    /// After an answer the session may leave a checkpoint, for which it copies the rows that were written lately, and
    /// at
    /// times merges them with more rows of the store. Doesn't wait, and yields no processor.
    /// Own rule: docs/RATTLE.md#a-store-without-an-end.
    pub fn attempt(&mut self, statement: &Statement) -> Result<Answer, EndlessFault>
        // Proved (endless, stays): A session stays with its store, how many entries it has replayed never falls, and
        //   as much of the history is handed out as before.
        ensures stays { Stays self.old self.new }
        // Proved (endless, answers): An answered statement got the sequential server's reply in the state after a
        //   prefix of the store's one history, which has all that the session had seen. A statement that is logged is
        //   the entry right after that prefix, once. The session has then replayed all that it has seen, unless the
        //   statement was logged and replaying it may take memory. After a fault nothing of the statement was
        //   appended.
        // Proved (endless, causes): `Behind` is returned only if the history has at least as many entries as the ring
        //   has slots, from the next one on that the session would replay. `Overtaken` only if a try was lost to a
        //   longer history, after the session had replayed all that it had seen before, and to entries that it hasn't
        //   replayed. `NoMemory` only for a list, for a replica that hasn't replayed all that is seen, or after more
        //   than 2^59 entries. Such a replica's next entry is one that may take memory, or the replica needs a copy
        //   of a checkpoint: as many entries as the ring has slots are left to replay.
        ensures finds { Finds self.old.store.value.log statement.now result self.new.member.replica
            self.old.member.pass self.new.member.pass }
        // Proved (endless, one-try): An attempt looks, and makes at most one exchange of the word that sessions
        //   share: one if it ends in `Overtaken`, none if it ends in `NoMemory` or `Behind`.
        ensures once { TriesOnce result (known_of self.old.member.pass) (known_of self.new.member.pass) }
    {
        self.store.attempt(&mut self.member, statement)
    }

    /// Answers a statement as `attempt` does, and tries again after `Overtaken` and `Behind`.
    ///
    /// Error: `NoMemory`, as for `attempt`. May wait: no number of tries is promised.
    /// Own rule: docs/RATTLE.md#a-store-without-an-end.
    pub fn execute<R: Wait>(&mut self, rt: &R, statement: &Statement) -> Result<Answer, NoMemory>
        // Proved (endless, stays)
        ensures stays { Stays self.old self.new }
        // Proved (endless, answers)
        ensures ok { IfOk result (λ answer. HasAnswered statement.now answer self.new.member.replica
            (known_of self.old.member.pass) (known_of self.new.member.pass)) }
        // Proved (endless, answers)
        // Proved (endless, causes)
        ensures err { OnErr result
            (HasFailed self.old.store.value.log statement.now IsNoMemory self.new.member.replica self.old.member.pass
            self.new.member.pass) }
        // Proved (endless, how-executing-ends): Executing returns `NoMemory` only after more looks than tries. Which
        //   of them came last isn't said.
        ensures tried { OnErr result
            (LooksLast (known_of self.old.member.pass) (known_of self.new.member.pass)) }
    {
        for _ in rt.forever() {
            let based = self.member.based;
            match self.attempt(statement) {
                Ok(answer) => {
                    // `based` changes only after a pace of entries, or when the session goes on from a checkpoint: much
                    // of the ring may be used up. Threads that wait for a processor can look before it has gone round,
                    // and find a checkpoint if they need one.
                    if self.member.based != based {
                        thread::yield_now();
                    }
                    return Ok(answer);
                }
                Err(EndlessFault::NoMemory) => return Err(std::alloc::AllocError),
                // Another attempt may be answered. Before it other threads may go on, and leave a checkpoint if one is
                // missing.
                Err(EndlessFault::Overtaken { .. }) | Err(EndlessFault::Behind) =>
                    thread::yield_now(),
            }
        }
        // The loop above ends only by a return.
        unreachable!()
    }
}
