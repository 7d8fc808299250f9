//! The effect of an accepted statement.
ghost use Rattle.std.specs.Prelude.{◌≡◌, ℕ, true, false, IfOk, OnOk, OnErr};
ghost use Rattle.xa_server.specs.{Replies.{table, reply_to}, State.association_of, Step.{Step, after, effect}};
ghost use Rattle.xa_server.specs.Step.{is_refused, makes_record, may_enter, may_take_memory, row_written};
ghost use Rattle.xa_xid.specs.declared.statement.Statement.TheVariants.{Get, Put, Del, Disconnect};

use crate::association::Association;
use crate::lock::Change;
use crate::shared_text::SharedText;
use crate::{Reply, Server};
use xa_xid::{Bytes, Key, NoMemory, SessionNo, Statement};

impl Server {
    /// Carries out a `GET` that the table of replies accepts: makes the session's ACTIVE branch, if there is one, share
    /// the row, unless the branch holds it already. After `NoMemory` the server is unchanged.
    #[tactic(auto, unfolding(crate::specs::Step::effect, crate::specs::Step::may_enter))]
    fn lock_row(&mut self, session: SessionNo, key: &Key) -> Result<(), NoMemory>
        requires { is_refused (reply_to self.old session (Get key.now)) ≡ false }
        ensures ok { OnOk result (self.new ≡ effect self.old session (association_of self.old session) (Get key.now)) }
        ensures err { OnErr result (self.new ≡ self.old) }
        ensures memory { OnErr result (may_enter self.old (association_of self.old session) (Get key.now) ≡ true) }
    {
        // Outside a branch a read holds nothing, and in an IDLE branch it is refused.
        let Association::Active(own) = self.association(session) else {
            return Ok(());
        };
        // A branch that holds the row already, in share or exclusively, needs no other lock.
        if self.holds(own.xid(), key) {
            return Ok(());
        }
        // The server lends `own`, and `share` changes the server.
        let own = own.try_clone()?;
        self.share(&own, key)
    }

    /// Carries out a `PUT` that the table of replies accepts: gives the row the value, at once if the session is free,
    /// and else at the commit of its ACTIVE branch. After `NoMemory` the server is unchanged.
    #[tactic(auto, unfolding(crate::specs::Step::effect))]
    fn put(&mut self, session: SessionNo, key: &Key, value: &Bytes) -> Result<(), NoMemory>
        requires { is_refused (reply_to self.old session (Put key.now value.now)) ≡ false }
        ensures ok { OnOk result (self.new ≡ effect self.old session (association_of self.old session)
            (Put key.now value.now)) }
        ensures err { OnErr result (self.new ≡ self.old) }
    {
        match self.association(session) {
            Association::Free => self.put_row(key, value),
            Association::Active(own) => {
                // The server lends `own`, and `hold` changes the server.
                let own = own.try_clone()?;
                let value = SharedText::of(self.alloc(), value)?;
                self.hold(&own, key, Change::Put(value))
            }
            // The table of replies refuses it, so this doesn't come.
            Association::Idle(_) => Ok(()),
        }
    }

    /// Carries out a `DEL` that the table of replies accepts: removes the row's value, at once if the session is free,
    /// and else at the commit of its ACTIVE branch. After `NoMemory` the server is unchanged.
    #[tactic(auto, unfolding(crate::specs::Step::effect))]
    fn delete(&mut self, session: SessionNo, key: &Key) -> Result<(), NoMemory>
        requires { is_refused (reply_to self.old session (Del key.now)) ≡ false }
        ensures ok { OnOk result (self.new ≡ effect self.old session (association_of self.old session) (Del key.now)) }
        ensures err { OnErr result (self.new ≡ self.old) }
    {
        match self.association(session) {
            Association::Free => self.delete_row(key),
            Association::Active(own) => {
                // The server lends `own`, and `hold` changes the server.
                let own = own.try_clone()?;
                self.hold(&own, key, Change::Delete)
            }
            // The table of replies refuses it, so this doesn't come.
            Association::Idle(_) => Ok(()),
        }
    }

    /// Carries out a `DISCONNECT`: rolls back the branch that the session has open, ACTIVE or IDLE, if there is one.
    #[tactic(auto, unfolding(crate::specs::Step::effect))]
    fn disconnect(&mut self, session: SessionNo)
        ensures { self.new ≡ effect self.old session (association_of self.old session) Disconnect }
    {
        match self.association(session) {
            Association::Free => {}
            Association::Active(own) => {
                // The server lends `own`, and `end_branch` changes the server, so the identifier is copied. To add an
                // owner by `try_clone` could fail.
                let own = own.xid().copy();
                self.end_branch(&own, false);
            }
            Association::Idle(own) => {
                let own = own.xid().copy();
                self.end_branch(&own, false);
            }
        }
    }

    /// Carries out a statement that the table of replies accepts. After `NoMemory` the server is unchanged.
    /// Only the row statements and `DISCONNECT` need what the session has open.
    #[tactic(auto, unfolding(crate::specs::Step::effect, crate::specs::Step::may_enter))]
    fn carry_out(&mut self, session: SessionNo, statement: &Statement) -> Result<(), NoMemory>
        requires { is_refused (reply_to self.old session statement.now) ≡ false }
        ensures ok { OnOk result (self.new ≡ effect self.old session (association_of self.old session) statement.now) }
        ensures err { OnErr result (self.new ≡ self.old) }
        ensures memory { OnErr result (makes_record statement.now ≡ true) }
        ensures enters { OnErr result (may_enter self.old (association_of self.old session) statement.now ≡ true) }
    {
        match statement {
            Statement::Start(xid) => return self.start_branch(session, xid),
            Statement::End(xid) => self.end_work(xid),
            Statement::Prepare(xid) => self.detach(xid),
            // `ONE PHASE` matters only for the reply.
            Statement::Commit { xid, one_phase: _ } => self.end_branch(xid, true),
            Statement::Rollback(xid) => self.end_branch(xid, false),
            // `XA RECOVER` only lists.
            Statement::Recover { convert: _ } => {}
            // The table of replies refuses it, so this doesn't come.
            Statement::Unsupported => {}
            Statement::Get(key) => return self.lock_row(session, key),
            Statement::Put(key, value) => return self.put(session, key, value),
            Statement::Del(key) => return self.delete(session, key),
            Statement::Disconnect => self.disconnect(session),
        }
        Ok(())
    }

    /// Carries out a session's statement that `reply` accepts, without making the reply again.
    ///
    /// Error: `NoMemory`, only for an `XA START`, `PUT`, `DEL` or `GET` that is logged. The server is then unchanged.
    /// Doesn't wait.
    /// Source: docs/STATEMENTS.md#branches, which names the source of each rule.
    pub fn accept(&mut self, session: SessionNo, statement: &Statement) -> Result<(), NoMemory>
        requires { is_refused (reply_to self.old session statement.now) ≡ false }
        // Proved (server, accepted-statement): A statement that `reply` accepts is carried out as `apply`
        //   would carry it out.
        ensures ok { OnOk result (self.new ≡ after self.old session statement.now) }
        // Proved (server, no-memory-changes-nothing)
        ensures unchanged { OnErr result (self.new ≡ self.old) }
        // Proved (server, memory-at-statements)
        ensures memory { OnErr result (may_take_memory self.old session statement.now ≡ true) }
    {
        self.carry_out(session, statement)
    }

    /// Replies to a session's statement and carries it out. A refused statement changes nothing.
    ///
    /// Error: `NoMemory`, only for `XA RECOVER`, and for an `XA START`, `PUT`, `DEL` or `GET` that is logged. The
    /// server is then unchanged. A statement that ends a branch takes no memory, so it can't fail. Doesn't wait.
    /// Source: docs/STATEMENTS.md#replies and docs/STATEMENTS.md#branches, which name the source of each
    /// rule.
    pub fn apply(&mut self, session: SessionNo, statement: &Statement) -> Result<Reply, NoMemory>
        // Proved (server, reply-and-effect): A statement's reply is that of the table of replies. The new
        //   state is that of the statement's effect, or after a refusal the old one.
        // Proved (server, recovered-list)
        ensures step { IfOk result (λ reply. Step self.old session statement.now reply self.new) }
        // Proved (server, no-memory-changes-nothing): After `NoMemory` the server is unchanged.
        ensures unchanged { OnErr result (self.new ≡ self.old) }
        // Proved (server, memory-at-statements): `NoMemory` is returned only for `XA RECOVER`, and for an
        //   `XA START`, `GET`, `PUT` or `DEL` that is logged. So a statement that ends a branch succeeds.
        ensures memory { OnErr result (may_take_memory self.old session statement.now ≡ true) }
    {
        let association = self.association(session);
        let reply = self.decide(association, statement)?;
        if !reply.is_refused() {
            self.accept(session, statement)?;
        }
        Ok(reply)
    }
}
