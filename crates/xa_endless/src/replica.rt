//! The server of a session or of a checkpoint, in a store that began with no branch and no row.
ghost use Rattle.std.specs.Prelude.{◌≡◌, ◌<◌, ◌+◌, ◌^◌, false, true, List, slice_get, Some, IfOk, OnOk, OnErr};
ghost use Rattle.xa_words.specs.Entry.{Entry as EntryValue};
ghost use Rattle.xa_server.specs.{Replies.reply_to, Step.{is_refused, may_take_memory}};
ghost use Rattle.xa_session.specs.Answer.{entry_of};
ghost use Rattle.xa_endless.specs.Replicas.{Stands, ReplaysOne};

use std::alloc::Global;
use xa_server::Server;
use xa_words::Entry;
use xa_xid::{NoMemory, SessionNo, Statement};

/// The server that a session or a checkpoint has for itself: the state after a prefix of the history.
#[derive(Drop)]
pub struct Replica {
    /// The state after the entries that were replayed.
    pub(crate) server: Server,
    /// How many entries were replayed, from the history's first on.
    pub(crate) replayed: u64,
}

impl Replica {
    /// Makes a replica that has replayed nothing.
    pub(crate) fn new(alloc: Global) -> Replica
        ensures stands { (seen : List EntryValue) → Stands seen result }
        ensures first { result.replayed ≡ 0 }
    {
        Replica {
            server: Server::new(alloc),
            replayed: 0,
        }
    }

    /// Makes a replica that has replayed the same. It shares the rows of this one that weren't written lately.
    ///
    /// May return `NoMemory`.
    pub(crate) fn copy(&self) -> Result<Replica, NoMemory>
        ensures { IfOk result (λ replica. replica ≡ self.now) }
    {
        Ok(Replica {
            server: self.server.copy()?,
            replayed: self.replayed,
        })
    }

    /// Replays the next entry.
    ///
    /// May return `NoMemory`; the replica is then unchanged.
    pub(crate) fn replay(&mut self, entry: &Entry) -> Result<(), NoMemory>
        requires { self.old.replayed + 1 < 2 ^ 64 }
        ensures ok { OnOk result
            ((seen : List EntryValue) → Stands seen self.old → slice_get seen self.old.replayed ≡ Some entry.now
            → Stands seen self.new) }
        ensures replays { ReplaysOne result self.old self.new }
        ensures memory { OnErr result
            (may_take_memory self.old.server entry.now.session entry.now.statement ≡ true) }
    {
        self.server.apply(entry.session(), entry.statement())?;
        self.replayed += 1;
        Ok(())
    }

    /// Replays the next entry: this statement of this session, which the server doesn't refuse. The reply isn't made
    /// again.
    ///
    /// May return `NoMemory`; the replica is then unchanged.
    pub(crate) fn accept(
        &mut self,
        session: SessionNo,
        statement: &Statement,
    ) -> Result<(), NoMemory>
        requires accepted { is_refused (reply_to self.old.server session statement.now) ≡ false }
        requires fits { self.old.replayed + 1 < 2 ^ 64 }
        ensures ok { OnOk result
            ((seen : List EntryValue)
            → Stands seen self.old
            → slice_get seen self.old.replayed ≡ Some (entry_of session statement.now)
            → Stands seen self.new) }
        ensures replays { ReplaysOne result self.old self.new }
        ensures memory { OnErr result (may_take_memory self.old.server session statement.now ≡ true) }
    {
        self.server.accept(session, statement)?;
        self.replayed += 1;
        Ok(())
    }
}
