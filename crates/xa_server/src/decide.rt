//! The table of replies: the reply to each statement.
ghost use Rattle.std.specs.Prelude.{◌≡◌, true, Ok, IfOk, OnErr};
ghost use Rattle.xa_server.specs.{Locks.LockLaw, Replies.{table, reply_to, ok_if as ok_reply_if}};
ghost use Rattle.xa_server.specs.Step.{may_enter as may_enter_in, enters, is_recover};
ghost use Rattle.xa_xid.specs.declared.statement.Statement.TheVariants.{Start, End, Prepare, Commit, Rollback, Get};
ghost use Rattle.xa_xid.specs.{declared.statement.Statement.TheVariants.{Put, Del}, Xid.Text};

use crate::association::{Association, is_same};
use crate::{BranchState, Reply, Server, XaError};
use xa_xid::{Key, NoMemory, SessionNo, Statement, Xid};

// Each reply is made as the result that `decide` returns, so that it is moved once and not wrapped after
// each call.

/// Returns the reply `Ok` if the test `holds`, and else the refusal `error`; never `NoMemory`.
fn ok_if(holds: bool, error: XaError) -> Result<Reply, NoMemory>
    ensures { result ≡ Ok (ok_reply_if holds error) }
{
    if holds {
        Ok(Reply::Ok)
    } else {
        Ok(Reply::Refused(error))
    }
}

/// Refuses the statement in a state that doesn't allow it, which the refusal names.
fn rmfail(state: BranchState) -> Result<Reply, NoMemory>
    ensures { result ≡ Ok (Reply.Refused (XaError.Rmfail state)) }
{
    Ok(Reply::Refused(XaError::Rmfail(state)))
}

impl Server {
    /// Replies to `XA START`: a free session may start a branch, if no branch has the identifier. Else it is refused:
    /// by `Dupid`, or with the state of the session's branch if the session isn't free.
    #[tactic(auto, unfolding(crate::specs::Replies::table))]
    fn reply_to_start(&self, association: &Association, xid: &Xid) -> Result<Reply, NoMemory>
        ensures { result ≡ Ok (table self.now association.now (Start xid.now)) }
    {
        match association {
            Association::Free => {
                if self.knows(xid) {
                    Ok(Reply::Refused(XaError::Dupid))
                } else {
                    Ok(Reply::Ok)
                }
            }
            Association::Active(_) => rmfail(BranchState::Active),
            Association::Idle(_) => rmfail(BranchState::Idle),
        }
    }

    /// Replies to `XA END`: a session may end the work of its own ACTIVE branch. Else it is refused: by `Nota` if the
    /// session's ACTIVE branch has another identifier, and with the session's state if it has no ACTIVE one.
    #[tactic(auto, unfolding(crate::specs::Replies::table))]
    fn reply_to_end(&self, association: &Association, xid: &Xid) -> Result<Reply, NoMemory>
        ensures { result ≡ Ok (table self.now association.now (End xid.now)) }
    {
        match association {
            Association::Free => rmfail(BranchState::NonExisting),
            Association::Active(own) => ok_if(is_same(xid, own.xid()), XaError::Nota),
            Association::Idle(_) => rmfail(BranchState::Idle),
        }
    }

    /// Replies to `XA PREPARE`: a session may prepare its own IDLE branch. Else it is refused: by `Nota` if the
    /// session's IDLE branch has another identifier, and with the session's state if it has no IDLE one.
    #[tactic(auto, unfolding(crate::specs::Replies::table))]
    fn reply_to_prepare(&self, association: &Association, xid: &Xid) -> Result<Reply, NoMemory>
        ensures { result ≡ Ok (table self.now association.now (Prepare xid.now)) }
    {
        match association {
            Association::Free => rmfail(BranchState::NonExisting),
            Association::Active(_) => rmfail(BranchState::Active),
            Association::Idle(own) => ok_if(is_same(xid, own.xid()), XaError::Nota),
        }
    }

    /// Replies to `XA COMMIT`: a free session may commit a PREPARED branch, without `ONE PHASE`, and a session its own
    /// IDLE branch, with `ONE PHASE` (`one_phase`). Else it is refused: of a free session by `Nota` if no PREPARED
    /// branch has the identifier, and else with the state PREPARED; of another session with the state of its branch.
    #[tactic(auto, unfolding(crate::specs::Replies::table))]
    fn reply_to_commit(
        &self,
        association: &Association,
        xid: &Xid,
        one_phase: bool,
    ) -> Result<Reply, NoMemory>
        ensures { result ≡ Ok (table self.now association.now (Commit xid.now one_phase)) }
    {
        match association {
            Association::Free => {
                if !self.has_prepared(xid) {
                    Ok(Reply::Refused(XaError::Nota))
                } else if one_phase {
                    // One phase is for a branch that wasn't prepared.
                    rmfail(BranchState::Prepared)
                } else {
                    Ok(Reply::Ok)
                }
            }
            Association::Active(_) => rmfail(BranchState::Active),
            Association::Idle(own) => {
                // While a session has a branch open it can't finish another one, and its own, which isn't prepared,
                // only in one phase.
                if one_phase {
                    ok_if(is_same(xid, own.xid()), XaError::Rmfail(BranchState::Idle))
                } else {
                    rmfail(BranchState::Idle)
                }
            }
        }
    }

    /// Replies to `XA ROLLBACK`: a free session may roll back a PREPARED branch, and a session its own IDLE one. Else
    /// it is refused: by `Nota` to a free session, and else with the state of the session's branch.
    #[tactic(auto, unfolding(crate::specs::Replies::table))]
    fn reply_to_rollback(&self, association: &Association, xid: &Xid) -> Result<Reply, NoMemory>
        ensures { result ≡ Ok (table self.now association.now (Rollback xid.now)) }
    {
        match association {
            Association::Free => ok_if(self.has_prepared(xid), XaError::Nota),
            Association::Active(_) => rmfail(BranchState::Active),
            // While a session has a branch open it can't finish another one.
            Association::Idle(own) => ok_if(
                is_same(xid, own.xid()),
                XaError::Rmfail(BranchState::Idle),
            ),
        }
    }

    /// Replies to `GET`: a free session reads the committed value. An ACTIVE branch reads what it sees, or is refused
    /// by `RowLocked` if another branch holds the row exclusively. In an IDLE branch `GET` is refused with that state.
    #[tactic(auto, unfolding(crate::specs::Replies::table))]
    fn reply_to_get(&self, association: &Association, key: &Key) -> Result<Reply, NoMemory>
        ensures { result ≡ Ok (table self.now association.now (Get key.now)) }
    {
        match association {
            Association::Free => Ok(Reply::Value(self.committed_value(key))),
            Association::Active(own) => {
                if self.is_locked_against(association, key) {
                    Ok(Reply::Refused(XaError::RowLocked))
                } else {
                    Ok(Reply::Value(self.value_within(own.xid(), key)))
                }
            }
            Association::Idle(_) => rmfail(BranchState::Idle),
        }
    }

    /// Replies to `PUT` and `DEL`: they are refused with the state if the session's branch is IDLE, and else by
    /// `RowLocked` if another branch holds the row, in share or exclusively.
    #[tactic(auto, unfolding(crate::specs::Replies::table))]
    fn reply_to_write(&self, association: &Association, key: &Key) -> Result<Reply, NoMemory>
        ensures put { (value : Text) → result ≡ Ok (table self.now association.now (Put key.now value)) }
        ensures del { result ≡ Ok (table self.now association.now (Del key.now)) }
    {
        match association {
            Association::Idle(_) => rmfail(BranchState::Idle),
            Association::Free => ok_if(!self.is_held_against(association, key), XaError::RowLocked),
            Association::Active(_) => ok_if(
                !self.is_held_against(association, key),
                XaError::RowLocked,
            ),
        }
    }

    /// Returns the reply to a statement of a session that has `association` open. Carries nothing out. Returns
    /// `NoMemory` only for `XA RECOVER`.
    #[tactic(auto, unfolding(crate::specs::Replies::table))]
    pub(crate) fn decide(
        &self,
        association: &Association,
        statement: &Statement,
    ) -> Result<Reply, NoMemory>
        ensures reply { IfOk result (λ reply. reply ≡ table self.now association.now statement.now) }
        ensures memory { OnErr result (is_recover statement.now ≡ true) }
    {
        match statement {
            Statement::Start(xid) => self.reply_to_start(association, xid),
            Statement::End(xid) => self.reply_to_end(association, xid),
            Statement::Prepare(xid) => self.reply_to_prepare(association, xid),
            Statement::Commit { xid, one_phase } => self.reply_to_commit(
                association,
                xid,
                *one_phase,
            ),
            Statement::Rollback(xid) => self.reply_to_rollback(association, xid),
            Statement::Recover { convert: _ } => Ok(Reply::Recovered(self.prepared_xids()?)),
            Statement::Unsupported => Ok(Reply::Refused(XaError::Inval)),
            Statement::Get(key) => self.reply_to_get(association, key),
            Statement::Put(key, _) => self.reply_to_write(association, key),
            Statement::Del(key) => self.reply_to_write(association, key),
            Statement::Disconnect => Ok(Reply::Ok),
        }
    }

    /// Returns whether the statement, of a session that has `association` open, is logged if it is accepted. All are
    /// but `XA RECOVER`, a `GET` that locks no row, and a `DISCONNECT` that ends no branch.
    #[tactic(auto, unfolding(crate::specs::Step::may_enter))]
    fn may_enter(&self, association: &Association, statement: &Statement) -> bool
        ensures { result ≡ may_enter_in self.now association.now statement.now }
    {
        match statement {
            Statement::Start(_) => true,
            Statement::End(_) => true,
            Statement::Prepare(_) => true,
            Statement::Commit {
                xid: _,
                one_phase: _,
            } => true,
            Statement::Rollback(_) => true,
            Statement::Put(_, _) => true,
            Statement::Del(_) => true,
            // It only lists.
            Statement::Recover { convert: _ } => false,
            // It is never accepted.
            Statement::Unsupported => false,
            // In a branch a `GET` makes the branch share a row that it doesn't hold yet.
            Statement::Get(key) => match association {
                Association::Active(own) => !self.holds(own.xid(), key),
                Association::Free => false,
                Association::Idle(_) => false,
            },
            // A `DISCONNECT` is logged if it rolls back a branch: the one that the session has open.
            Statement::Disconnect => match association {
                Association::Free => false,
                Association::Active(_) => true,
                Association::Idle(_) => true,
            },
        }
    }

    /// Returns the reply to a session's statement, and whether the statement would be logged. Changes
    /// nothing.
    ///
    /// The server keeps the lock law, as every server does. May return `NoMemory`, only for `XA RECOVER`,
    /// whose reply is a list. Doesn't wait.
    /// Source: docs/STATEMENTS.md#replies, which names the source of each rule.
    #[tactic(auto, unfolding(crate::specs::Replies::reply_to, crate::specs::Step::enters))]
    pub fn reply(
        &self,
        session: SessionNo,
        statement: &Statement,
    ) -> Result<(Reply, bool), NoMemory>
        // Proved (server, reply-beforehand): You can have the reply to a statement, and whether it would be
        //   logged, before the statement is carried out. Only `XA RECOVER` may need memory for that.
        ensures reply { IfOk result (λ answer. answer.0 ≡ reply_to self.now session statement.now) }
        // Proved (server, reply-beforehand)
        ensures enters { IfOk result (λ answer. answer.1 ≡ enters self.now session statement.now) }
        // Proved (server, reply-beforehand)
        ensures memory { OnErr result (is_recover statement.now ≡ true) }
        // Proved (server, lock-law): Every server keeps the lock law. A row that one branch holds exclusively is held
        //   by no other, and a branch writes only rows that it holds exclusively. A session owns at most one branch,
        //   and exactly the PREPARED branches have no owner. A statement or a history keeps it, if the state before
        //   keeps it.
        ensures lock_law { LockLaw self.now }
    {
        let association = self.association(session);
        let reply = self.decide(association, statement)?;
        let enters = !reply.is_refused() && self.may_enter(association, statement);
        Ok((reply, enters))
    }
}
