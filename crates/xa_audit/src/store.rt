//! A store that a history is carried out on, and the lives of its branches.
ghost use Rattle.std.specs.BTreeMap as tree;
ghost use Rattle.std.specs.{Prelude.{◌≡◌, ◌==◌, ℕ, cond, None, IfOk, OnOk}, Option.unwrap_or};
ghost use Rattle.xa_xid.specs.{declared.xid.Xid.Xid as XidSeen, Xid.xid_cmp};
ghost use Rattle.xa_server.specs.{State.no_state, Step.after};
ghost use Rattle.xa_audit.specs.{Branches.lives_in, Deeds.{deed_of, deed_by as deed_of_statement}, Histories.said_on};
ghost use Rattle.xa_audit.specs.Lives.{no_lives, noted};
ghost use Rattle.xa_audit.specs.Following.{PutsAt, Notes, IsFollowed, owned_at, own_after, state_said, deed_said};

use crate::deed::{Deed, deed_by};
use crate::lives::Lives;
use crate::owned::{Owned, own_by};
use crate::said::{Said, read_said};
use std::alloc::Global;
use std::collections::BTreeMap;
use xa_lines::split_line;
use xa_server::{Reply, Server};
use xa_xid::{NoMemory, SessionNo, Statement, Xid};

/// A store that a history is carried out on.
#[derive(Drop)]
pub struct Store {
    /// The server.
    pub server: Server,
    /// The branch that each session owns.
    pub owned: Owned,
    /// The lives of each branch so far.
    pub lives: BTreeMap<Xid, Lives>,
}

/// Returns the lives that were found, or none.
fn known_lives(alloc: Global, found: Option<Lives>) -> Lives
    ensures { result ≡ unwrap_or found no_lives }
{
    match found {
        Some(lives) => lives,
        None => Lives::new(alloc),
    }
}

/// Takes the lives of a branch out of the map, and returns them; no lives, if it had none there.
fn take_lives(alloc: Global, lives: &mut BTreeMap<Xid, Lives>, xid: &Xid) -> Lives
    ensures known { result ≡ unwrap_or (tree.get xid_cmp lives.old xid.now) no_lives }
    ensures taken { (other : XidSeen) → tree.get xid_cmp lives.new other
        ≡ cond (tree.is_at (xid_cmp xid.now) other) None (tree.get xid_cmp lives.old other) }
{
    known_lives(alloc, lives.remove(xid))
}

/// Adds a deed to the lives of a branch, of which there may be none yet.
fn note(
    alloc: Global,
    lives: &mut BTreeMap<Xid, Lives>,
    xid: Xid,
    deed: Deed,
) -> Result<(), NoMemory>
    ensures { OnOk result (PutsAt xid_cmp lives.old xid (noted
        (unwrap_or (tree.get xid_cmp lives.old xid) no_lives) deed) lives.new) }
{
    let mut known = take_lives(alloc, lives, &xid);
    known.note(deed)?;
    lives.insert(xid, known)?;
    Ok(())
}

impl Store {
    /// Returns a store that holds nothing.
    fn new(alloc: Global) -> Store
        ensures server { result.server ≡ no_state }
        ensures owned { IsFollowed result.owned result.server }
        ensures lives { (xid : XidSeen) → tree.get xid_cmp result.lives xid ≡ None }
    {
        Store {
            server: Server::new(alloc),
            owned: Owned::new(alloc),
            lives: BTreeMap::new(alloc),
        }
    }

    /// Takes note of an accepted statement: of what its session owns after it, and of its deed in the lives of the
    /// deed's branch. Leaves the server as it is.
    fn note(
        &mut self,
        alloc: Global,
        session: SessionNo,
        statement: &Statement,
    ) -> Result<(), NoMemory>
        ensures server { self.new.server ≡ self.old.server }
        ensures owned { OnOk result
            ((at : ℕ) → owned_at self.new.owned at
            ≡ cond (at == session) (own_after (owned_at self.old.owned session) statement.now)
            (owned_at self.old.owned at)) }
        ensures lives { OnOk result (Notes (deed_of_statement (owned_at self.old.owned session) statement.now)
            self.old.lives self.new.lives) }
    {
        let own = self.owned.of(session);
        let next = own_by(self.owned.of(session), statement);
        self.owned.set(session, next)?;
        // `own` is what the session owned before the statement: the branch of a `PUT`, `DEL` or `DISCONNECT`.
        match deed_by(own, statement) {
            None => Ok(()),
            Some((xid, deed)) => note(alloc, &mut self.lives, xid, deed),
        }
    }

    /// Carries out a session's statement. One that is refused changes nothing.
    fn carry_out(
        &mut self,
        alloc: Global,
        session: SessionNo,
        statement: &Statement,
    ) -> Result<(), NoMemory>
        requires { IsFollowed self.old.owned self.old.server }
        ensures server { OnOk result (self.new.server ≡ after self.old.server session statement.now) }
        ensures owned { OnOk result (IsFollowed self.new.owned self.new.server) }
        ensures lives { OnOk result (Notes (deed_of self.old.server session statement.now) self.old.lives
            self.new.lives) }
    {
        // The reply comes first, since `accept` is only for accepted statements. Whether one is logged doesn't matter.
        let (reply, _) = self.server.reply(session, statement)?;
        if reply.is_refused() {
            return Ok(());
        }
        self.server.accept(session, statement)?;
        self.note(alloc, session, statement)?;
        // By the lock law a session owns at most one branch: so what was noted as its own is what it owns.
        self.server.keeps_lock_law();
        Ok(())
    }

    /// Carries out the statement of a line. A line without one, or one that isn't read, changes nothing.
    fn take_line(&mut self, alloc: Global, line: &[u8]) -> Result<(), NoMemory>
        requires { IsFollowed self.old.owned self.old.server }
        ensures server { OnOk result (self.new.server ≡ state_said self.old.server (said_on line.now)) }
        ensures owned { OnOk result (IsFollowed self.new.owned self.new.server) }
        ensures lives { OnOk result (Notes (deed_said self.old.server (said_on line.now)) self.old.lives
            self.new.lives) }
    {
        match read_said(line) {
            Said::Nothing => Ok(()),
            Said::Given(session, statement) => self.carry_out(alloc, session, &statement),
            Said::Unread(_) => Ok(()),
        }
    }
}

/// Returns the lives of each branch in a history, carried out by a server that holds nothing at first. Lines that
/// aren't read change nothing.
///
/// May return `NoMemory`.
pub fn lives_of(alloc: Global, history: &[u8]) -> Result<BTreeMap<Xid, Lives>, NoMemory>
    ensures { IfOk result (λ lives. (xid : XidSeen) → tree.get xid_cmp lives xid ≡ lives_in history.now xid) }
{
    let mut store = Store::new(alloc);
    let mut rest = history;
    while !rest.is_empty() {
        let (line, lines) = split_line(rest);
        store.take_line(alloc, line)?;
        rest = lines;
    }
    Ok(store.lives)
}
