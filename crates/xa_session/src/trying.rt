//! A single attempt to answer a statement, by a replica and a pass, which needn't be in a session then.
//!
//! The parameter `base` is the state in which the history begins. Only the contracts need it: no code reads it.
//!
//! Of the contracts' clauses, `belongs` says that the pass is still of its log, `stands` that the replica is the
//! state after the prefix that it has replayed, and `folds` that this prefix gets no shorter.
ghost use Rattle.std.specs.Prelude.{◌≡◌, ◌⊎◌, ◌<◌, ◌≤◌, ◌^◌, true, length, slice_get, Some, IfOk, IfErr, OnOk, OnErr};
ghost use Rattle.decision_log.specs.Calls.{Looked, Adds};
ghost use Rattle.xa_server.specs.Step.{enters, may_take_memory};
ghost use Rattle.xa_session.specs.{Answer.entry_of, Outcome.Finds, Replay.Stands, Replays.{ReplaysOne, CatchesUp}};
ghost use Rattle.xa_session.specs.Tries.{TriesOnce, Leaves};

use crate::{Answer, Fault, Replica};
use decision_log::{AddFault, DecisionLog};
use xa_server::Server;
use xa_words::Entry;
use xa_xid::{NoMemory, SessionNo, Statement};

impl Replica {
    /// Replays the first entry that wasn't replayed; the pass has seen it. After `NoMemory` the replica is unchanged.
    fn replay_next<L: DecisionLog>(
        &mut self,
        log: &L,
        pass: &mut L::Pass,
        base: &Server,
    ) -> Result<(), NoMemory>
        requires belongs { L.belongs_to pass.old ≡ L.identity log.now }
        requires stands { Stands base.now (L.known pass.old).seen self.old }
        requires seen { self.old.replayed < length (L.known pass.old).seen }
        requires fits { length (L.known pass.old).seen < 2 ^ 64 }
        ensures belongs { L.belongs_to pass.new ≡ L.belongs_to pass.old }
        ensures stands { Stands base.now (L.known pass.new).seen self.new }
        ensures known { L.known pass.new ≡ L.known pass.old }
        ensures replays { ReplaysOne result self.old self.new }
    {
        let entry = log.entry(pass, self.replayed);
        self.replay(&entry)
    }

    /// Replays all entries that are seen and weren't replayed, in order. `count` is how many are seen. After
    /// `NoMemory` those before the one that failed are replayed, and at least this one is left.
    fn catch_up<L: DecisionLog>(
        &mut self,
        log: &L,
        pass: &mut L::Pass,
        base: &Server,
        count: u64,
    ) -> Result<(), NoMemory>
        requires belongs { L.belongs_to pass.old ≡ L.identity log.now }
        requires stands { Stands base.now (L.known pass.old).seen self.old }
        requires count { count ≡ length (L.known pass.old).seen }
        ensures belongs { L.belongs_to pass.new ≡ L.belongs_to pass.old }
        ensures stands { Stands base.now (L.known pass.new).seen self.new }
        ensures folds { self.old.replayed ≤ self.new.replayed }
        ensures known { L.known pass.new ≡ L.known pass.old }
        ensures catches_up { CatchesUp result self.new (L.known pass.new) }
    {
        // As many rounds as entries are missing at the start. Each round replays one.
        for _ in self.replayed..count {
            self.replay_next(log, pass, base)?;
        }
        Ok(())
    }

    /// Looks, and replays all that is seen then. Returns how many entries are seen. After `NoMemory` some
    /// aren't replayed yet.
    fn observe<L: DecisionLog>(
        &mut self,
        log: &L,
        pass: &mut L::Pass,
        base: &Server,
    ) -> Result<u64, NoMemory>
        requires belongs { L.belongs_to pass.old ≡ L.identity log.now }
        requires stands { Stands base.now (L.known pass.old).seen self.old }
        ensures belongs { L.belongs_to pass.new ≡ L.belongs_to pass.old }
        ensures stands { Stands base.now (L.known pass.new).seen self.new }
        ensures folds { self.old.replayed ≤ self.new.replayed }
        ensures looked { Looked (L.known pass.old) (L.known pass.new) }
        ensures length { IfOk result (λ count. count ≡ length (L.known pass.new).seen) }
        ensures catches_up { CatchesUp result self.new (L.known pass.new) }
    {
        let count = log.look(pass);
        self.catch_up(log, pass, base, count)?;
        Ok(count)
    }

    /// Carries out the next entry that the pass has seen: this statement of this session, which is logged in
    /// the replica's state. After `NoMemory` the replica is unchanged. Only the contract needs `pass` and `base`.
    fn keep<L: DecisionLog>(
        &mut self,
        log: &L,
        pass: &L::Pass,
        base: &Server,
        session: SessionNo,
        statement: &Statement,
    ) -> Result<(), NoMemory>
        requires belongs { L.belongs_to pass.now ≡ L.identity log.now }
        requires stands { Stands base.now (L.known pass.now).seen self.old }
        requires enters { enters self.old.server session statement.now ≡ true }
        requires next { slice_get (L.known pass.now).seen self.old.replayed ≡ Some (entry_of session statement.now) }
        ensures stands { Stands base.now (L.known pass.now).seen self.new }
        ensures replays { ReplaysOne result self.old self.new }
        ensures memory { OnErr result (may_take_memory self.old.server session statement.now ≡ true) }
    {
        // The capacity bounds how many entries are seen, so counting one more doesn't overflow.
        let _capacity = log.capacity();
        self.accept(session, statement)
    }

    /// Appends a statement that is logged, and carries it out on the replica, which has replayed all that is
    /// seen. If there is no memory to carry it out, it is replayed later. Returns Ok once it is appended; after an
    /// error nothing is, and the replica is unchanged.
    fn add<L: DecisionLog>(
        &mut self,
        log: &L,
        pass: &mut L::Pass,
        base: &Server,
        session: SessionNo,
        statement: &Statement,
    ) -> Result<(), AddFault>
        requires belongs { L.belongs_to pass.old ≡ L.identity log.now }
        requires stands { Stands base.now (L.known pass.old).seen self.old }
        requires own { session ≡ (L.known pass.old).number }
        requires whole { self.old.replayed ≡ length (L.known pass.old).seen }
        requires enters { enters self.old.server session statement.now ≡ true }
        ensures belongs { L.belongs_to pass.new ≡ L.belongs_to pass.old }
        ensures stands { Stands base.now (L.known pass.new).seen self.new }
        ensures folds { self.old.replayed ≤ self.new.replayed }
        ensures added { Adds L.TURNS (L.belongs_to pass.old).capacity (entry_of session statement.now) result
            (L.known pass.old)
            (L.known pass.new) }
        ensures kept { OnOk result
            ((self.new.replayed ≡ length (L.known pass.new).seen)
            ⊎ (may_take_memory self.old.server session statement.now ≡ true)) }
        ensures err { OnErr result (self.new ≡ self.old) }
    {
        let entry = Entry::entering(session, statement.copy());
        log.try_add(pass, &entry)?;
        // The entry is in the history now. If there is no memory to carry it out on the replica, a later call replays
        // it.
        let _kept = self.keep(log, pass, base, session, statement);
        Ok(())
    }

    /// Answers a statement as `Session::attempt` does for a session of this pass, base and replica.
    ///
    /// Errors: as for `Session::attempt`. `NoMemory` is never returned after an append. Doesn't wait.
    /// Own rule: docs/RATTLE.md#sessions.
    pub fn attempt<L: DecisionLog>(
        &mut self,
        log: &L,
        pass: &mut L::Pass,
        base: &Server,
        statement: &Statement,
    ) -> Result<Answer, Fault>
        requires belongs { L.belongs_to pass.old ≡ L.identity log.now }
        requires stands { Stands base.now (L.known pass.old).seen self.old }
        ensures belongs { L.belongs_to pass.new ≡ L.belongs_to pass.old }
        // Proved (sessions, replica-without-session)
        ensures stands { Stands base.now (L.known pass.new).seen self.new }
        // Proved (sessions, replica-without-session)
        ensures folds { self.old.replayed ≤ self.new.replayed }
        // Proved (sessions, replica-without-session)
        ensures answers { Finds L.TURNS (L.belongs_to pass.old).capacity base.now statement.now result self.new
            (L.known pass.old) (L.known pass.new) }
        // Proved (sessions, replica-without-session)
        ensures once { TriesOnce result (L.known pass.old) (L.known pass.new) }
        // Proved (sessions, replica-without-session)
        ensures leaves { IfErr result (λ fault. Leaves fault self.new (L.known pass.old) (L.known pass.new)) }
    {
        let place = self.observe(log, pass, base)?;
        let session = log.number(pass);
        let (reply, enters) = self.server.reply(session, statement)?;
        let answer = Answer { place, reply };
        // A statement that isn't logged is answered by now: nothing is to be appended.
        if !enters {
            return Ok(answer);
        }
        // The statement is appended only if no entry has come after those seen. So the reply is still the one at the
        // entry's place.
        self.add(log, pass, base, session, statement)?;
        Ok(answer)
    }
}
