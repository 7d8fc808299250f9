//! A single attempt to answer a statement, by a replica and a pass.
//!
//! Of the contracts' clauses, `belongs` says that the pass is still of its ring, `stands` that the replica is the
//! state after the prefix that it has replayed, and `folds` that this prefix gets no shorter.
ghost use Rattle.std.specs.Prelude.{◌≡◌, ◌⊎◌, ◌<◌, ◌≤◌, ◌+◌, ◌^◌, true, false, length, slice_get, Some, IfOk, IfErr};
ghost use Rattle.std.specs.Prelude.{OnOk, OnErr};
ghost use Rattle.decision_log.specs.Calls.{Looked, Adds};
ghost use Rattle.chain_log.specs.RingPass.{identity_of, log_of, known_of};
ghost use Rattle.xa_server.specs.Step.{enters, may_take_memory};
ghost use Rattle.xa_session.specs.Answer.{entry_of};
ghost use Rattle.xa_endless.specs.{Answers.{Finds, TriesOnce}, Halts.IsHalt, Replicas.{Stands, ReplaysOne, CatchesUp}};

use crate::{EndlessFault, Replica};
use chain_log::{RingLog, RingPass};
use decision_log::AddFault;
use xa_session::Answer;
use xa_words::Entry;
use xa_xid::{NoMemory, SessionNo, Statement};

impl Replica {
    /// Replays the entry after those that were replayed. Errors: `Behind` if the ring may have no copy of it any more,
    /// `NoMemory`; the replica is then unchanged.
    fn replay_next(&mut self, log: &RingLog, pass: &mut RingPass) -> Result<(), EndlessFault>
        requires belongs { log_of pass.old ≡ identity_of log.now }
        requires stands { Stands (known_of pass.old).seen self.old }
        requires seen { self.old.replayed < length (known_of pass.old).seen }
        requires fits { length (known_of pass.old).seen < 2 ^ 64 }
        ensures belongs { log_of pass.new ≡ log_of pass.old }
        ensures stands { Stands (known_of pass.new).seen self.new }
        ensures known { known_of pass.new ≡ known_of pass.old }
        ensures replays { ReplaysOne result self.old self.new }
        ensures halts { IfErr result (λ fault. IsHalt log.now fault self.new pass.new) }
    {
        let Some(entry) = log.entry(pass, self.replayed) else {
            return Err(EndlessFault::Behind);
        };
        self.replay(&entry)?;
        Ok(())
    }

    /// Replays all entries that the pass has seen and that weren't replayed. `count` is how many it has seen. Errors:
    /// `Behind` if the ring may have no copy of the next one any more, `NoMemory`. Some are then still left.
    pub(crate) fn catch_up(
        &mut self,
        log: &RingLog,
        pass: &mut RingPass,
        count: u64,
    ) -> Result<(), EndlessFault>
        requires belongs { log_of pass.old ≡ identity_of log.now }
        requires stands { Stands (known_of pass.old).seen self.old }
        requires count { count ≡ length (known_of pass.old).seen }
        ensures belongs { log_of pass.new ≡ log_of pass.old }
        ensures stands { Stands (known_of pass.new).seen self.new }
        ensures folds { self.old.replayed ≤ self.new.replayed }
        ensures known { known_of pass.new ≡ known_of pass.old }
        ensures catches_up { CatchesUp result self.new (known_of pass.new) }
        ensures halts { IfErr result (λ fault. IsHalt log.now fault self.new pass.new) }
    {
        for _ in self.replayed..count {
            self.replay_next(log, pass)?;
        }
        Ok(())
    }

    /// Looks, and replays all that is seen then. Returns how many entries are seen. After an error, `Behind` or
    /// `NoMemory`, some aren't replayed.
    pub(crate) fn observe(
        &mut self,
        log: &RingLog,
        pass: &mut RingPass,
    ) -> Result<u64, EndlessFault>
        requires belongs { log_of pass.old ≡ identity_of log.now }
        requires stands { Stands (known_of pass.old).seen self.old }
        ensures belongs { log_of pass.new ≡ log_of pass.old }
        ensures stands { Stands (known_of pass.new).seen self.new }
        ensures folds { self.old.replayed ≤ self.new.replayed }
        ensures looked { Looked (known_of pass.old) (known_of pass.new) }
        ensures length { IfOk result (λ count. count ≡ length (known_of pass.new).seen) }
        ensures catches_up { CatchesUp result self.new (known_of pass.new) }
        ensures halts { IfErr result (λ fault. IsHalt log.now fault self.new pass.new) }
    {
        let count = log.look(pass);
        self.catch_up(log, pass, count)?;
        Ok(count)
    }

    /// Carries out the next entry that the pass has seen: this statement of this session, which is logged in the
    /// replica's state. After `NoMemory` the replica is unchanged.
    fn keep(
        &mut self,
        log: &RingLog,
        pass: &RingPass,
        session: SessionNo,
        statement: &Statement,
    ) -> Result<(), NoMemory>
        requires belongs { log_of pass.now ≡ identity_of log.now }
        requires stands { Stands (known_of pass.now).seen self.old }
        requires enters { enters self.old.server session statement.now ≡ true }
        requires next { slice_get (known_of pass.now).seen self.old.replayed ≡ Some (entry_of session statement.now) }
        ensures stands { Stands (known_of pass.now).seen self.new }
        ensures replays { ReplaysOne result self.old self.new }
        ensures memory { OnErr result (may_take_memory self.old.server session statement.now ≡ true) }
    {
        // The length is a u64, and more than what is replayed. So counting one more doesn't overflow.
        let _seen = log.length(pass);
        self.accept(session, statement)
    }

    /// Appends a statement that is logged, and carries it out on the replica, which has replayed all that is seen. If
    /// there is no memory to carry it out, it is replayed later. Returns Ok once it is appended; after an error nothing
    /// is, and the replica is unchanged.
    fn add(
        &mut self,
        log: &RingLog,
        pass: &mut RingPass,
        session: SessionNo,
        statement: &Statement,
    ) -> Result<(), AddFault>
        requires belongs { log_of pass.old ≡ identity_of log.now }
        requires stands { Stands (known_of pass.old).seen self.old }
        requires own { session ≡ (known_of pass.old).number }
        requires whole { self.old.replayed ≡ length (known_of pass.old).seen }
        requires enters { enters self.old.server session statement.now ≡ true }
        ensures belongs { log_of pass.new ≡ log_of pass.old }
        ensures stands { Stands (known_of pass.new).seen self.new }
        ensures folds { self.old.replayed ≤ self.new.replayed }
        ensures added { Adds false (identity_of log.now).capacity (entry_of session statement.now) result
            (known_of pass.old) (known_of pass.new) }
        ensures kept { OnOk result
            ((self.new.replayed ≡ length (known_of pass.new).seen)
            ⊎ (may_take_memory self.old.server session statement.now ≡ true)) }
        ensures err { OnErr result (self.new ≡ self.old) }
    {
        let entry = Entry::entering(session, statement.copy());
        log.try_add(pass, &entry)?;
        // The entry is in the history now. If there is no memory to carry it out on the replica, a later call replays
        // it.
        let _kept = self.keep(log, pass, session, statement);
        Ok(())
    }

    /// Makes one attempt to answer a statement: looks, replays, finds the reply, and appends the statement if it is
    /// logged.
    ///
    /// Errors: `Behind` if entries to replay may be overwritten; `NoMemory` if an entry couldn't be replayed, or a list
    /// couldn't be made, or the statement would be logged and the ring is full; and `Overtaken` if another session
    /// appended after the look.
    pub(crate) fn attempt(
        &mut self,
        log: &RingLog,
        pass: &mut RingPass,
        statement: &Statement,
    ) -> Result<Answer, EndlessFault>
        requires belongs { log_of pass.old ≡ identity_of log.now }
        requires stands { Stands (known_of pass.old).seen self.old }
        ensures belongs { log_of pass.new ≡ log_of pass.old }
        ensures stands { Stands (known_of pass.new).seen self.new }
        ensures folds { self.old.replayed ≤ self.new.replayed }
        ensures finds { Finds log.now statement.now result self.new pass.old pass.new }
        ensures once { TriesOnce result (known_of pass.old) (known_of pass.new) }
    {
        let place = self.observe(log, pass)?;
        let session = log.number(pass);
        let (reply, enters) = self.server.reply(session, statement)?;
        let answer = Answer { place, reply };
        // The statement isn't logged, so nothing is to be appended, and the reply is the answer.
        if !enters {
            return Ok(answer);
        }
        // The statement is appended only if no entry has come after those seen. So the reply is still the one at the
        // entry's place.
        match self.add(log, pass, session, statement) {
            Ok(()) => Ok(answer),
            Err(AddFault::Overtaken { front }) => Err(EndlessFault::Overtaken { front }),
            // A ring is full only after more than 2^59 entries, and never busy.
            Err(AddFault::Full) | Err(AddFault::Busy) => Err(EndlessFault::NoMemory),
        }
    }
}
