//! A session's own server.
ghost use Rattle.std.specs.Prelude.{◌≡◌, ◌<◌, ◌+◌, ◌^◌, true, false, List, slice_get, Some, IfOk, OnOk, OnErr};
ghost use Rattle.xa_words.specs.Entry.{Entry as EntryValue};
ghost use Rattle.xa_server.specs.{State.State, Replies.reply_to, Step.{is_refused, may_take_memory}};
ghost use Rattle.xa_session.specs.{Answer.entry_of, Replay.Stands, Replays.ReplaysOne};

use xa_server::Server;
use xa_words::Entry;
use xa_xid::{NoMemory, SessionNo, Statement};

/// A session's own server: the state after a prefix of the history, from the state in which the history
/// begins.
#[derive(Drop)]
pub struct Replica {
    /// The state after the entries that were replayed.
    pub(crate) server: Server,
    /// How many entries were replayed, from the history's first on.
    pub(crate) replayed: u64,
}

impl Replica {
    /// Returns the server after the replayed entries.
    ///
    /// Takes no memory. Doesn't wait.
    /// Own rule: docs/RATTLE.md#sessions.
    pub fn server(&self) -> &Server
        // Proved (sessions, replica-without-session): The replica of a paused session lends its server,
        //   returns how many entries it has replayed, and attempts a statement as the session does.
        ensures { result.now ≡ self.now.server }
    {
        &self.server
    }

    /// Returns how many entries were replayed.
    ///
    /// Takes no memory. Doesn't wait.
    /// Own rule: docs/RATTLE.md#sessions.
    pub fn replayed(&self) -> u64
        // Proved (sessions, replica-without-session)
        ensures { result ≡ self.now.replayed }
    {
        self.replayed
    }

    /// Makes a replica that has replayed nothing.
    ///
    /// May return `NoMemory`.
    pub(crate) fn of(base: &Server) -> Result<Replica, NoMemory>
        ensures stands { IfOk result (λ replica. (seen : List EntryValue) → Stands base.now seen replica) }
        ensures first { IfOk result (λ replica. replica.replayed ≡ 0) }
    {
        Ok(Replica {
            server: base.copy()?,
            replayed: 0,
        })
    }

    /// Replays the next entry.
    ///
    /// May return `NoMemory`; the replica is then unchanged.
    pub(crate) fn replay(&mut self, entry: &Entry) -> Result<(), NoMemory>
        requires { self.old.replayed + 1 < 2 ^ 64 }
        ensures ok { OnOk result
            ((base : State) (seen : List EntryValue)
            → Stands base seen self.old
            → slice_get seen self.old.replayed ≡ Some entry.now
            → Stands base seen self.new) }
        ensures replays { ReplaysOne result self.old self.new }
    {
        self.server.apply(entry.session(), entry.statement())?;
        self.replayed += 1;
        Ok(())
    }

    /// Replays the next entry: this statement of this session, which the server doesn't refuse. The reply
    /// isn't made again.
    ///
    /// May return `NoMemory`; the replica is then unchanged.
    pub(crate) fn accept(
        &mut self,
        session: SessionNo,
        statement: &Statement,
    ) -> Result<(), NoMemory>
        requires accepted { is_refused (reply_to self.old.server session statement.now) ≡ false }
        requires fits { self.old.replayed + 1 < 2 ^ 64 }
        ensures ok { OnOk result
            ((base : State) (seen : List EntryValue)
            → Stands base seen self.old
            → slice_get seen self.old.replayed ≡ Some (entry_of session statement.now)
            → Stands base seen self.new) }
        ensures replays { ReplaysOne result self.old self.new }
        ensures memory { OnErr result (may_take_memory self.old.server session statement.now ≡ true) }
    {
        self.server.accept(session, statement)?;
        self.replayed += 1;
        Ok(())
    }
}
