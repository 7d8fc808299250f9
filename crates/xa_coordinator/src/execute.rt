//! Giving one statement to a session, or to the session of one store.
//!
//! Of the contracts' clauses, `says` says what became of the statement, `frame` that no other store's session
//! changes, and `unsaid` that after an error everything that was open still is.
ghost use Rattle.std.specs.Prelude.{◌≡◌, false, MatchOption, ◌<◌, ◌≤◌, ◌+◌, Some, OnOk, OnErr, slice_get, vec_len};
ghost use Rattle.xa_server.specs.{Locks.LockLaw, Step.is_refused, declared.reply.Reply.TheVariants.Refused};
ghost use Rattle.xa_coordinator.specs.Parts.{IsOfBranch, IsToldAs, LeavesOpen, added_at};
ghost use Rattle.xa_coordinator.specs.{Branch.branch_xid as xid_of_branch, Stores.{AtStore, ChangesAt}};

use crate::branch_name::branch_xid;
use crate::branches::OpenBranch;
use crate::{Cause, Coordinator, Speak};
use std::sync::Wait;
use xa_server::{Reply, XaError};
use xa_xid::{Statement, Xid};

/// The error with which a statement that got this reply was refused. None if it wasn't refused.
pub(crate) fn refusal(reply: &Reply) -> Option<XaError>
    ensures { MatchOption result (is_refused reply.now ≡ false) (λ error. reply.now ≡ Refused error) }
{
    match reply {
        Reply::Refused(error) => Some(*error),
        Reply::Ok => None,
        Reply::Value(_) => None,
        Reply::Recovered(_) => None,
    }
}

/// Gives a statement about a branch to a session. Ok if it was carried out. The error says why it wasn't: the server
/// refused it, or the session couldn't answer.
///
/// May wait: no number of tries is promised.
pub(crate) fn execute_on<S: Speak, R: Wait>(
    rt: &R,
    session: &mut S,
    statement: &Statement,
) -> Result<(), Cause>
    requires { IsOfBranch statement.now }
    ensures lawful { LockLaw (S.view session.new).base }
    ensures says { IsToldAs statement.now result (S.view session.old) (S.view session.new) }
{
    match session.execute(rt, statement) {
        Ok(answer) => match refusal(&answer.reply) {
            None => Ok(()),
            Some(error) => Err(Cause::Refused(error)),
        },
        Err(fault) => Err(Cause::Session(fault)),
    }
}

impl<S: Speak> Coordinator<S> {
    /// The identifier of a transaction's branch in a store.
    pub(crate) fn branch(&self, number: u64, store: u8) -> Xid
        ensures { result ≡ xid_of_branch self.now.name.items number store }
    {
        branch_xid(&self.name, number, store)
    }

    /// Gives a statement about a branch to a store. `then`: the branch that the coordinator has open there if the
    /// statement is carried out, or None if it then has none. The error says why it wasn't; what is open stays then.
    ///
    /// May wait: no number of tries is promised.
    pub(crate) fn execute_at<R: Wait>(
        &mut self,
        rt: &R,
        store: u8,
        statement: &Statement,
        then: Option<OpenBranch>,
    ) -> Result<(), Cause>
        requires store { store < vec_len self.old.stores }
        requires kind { IsOfBranch statement.now }
        requires leaves { LeavesOpen self.old.name.items store statement.now then }
        ensures name { self.new.name ≡ self.old.name }
        ensures frame { ChangesAt store self.old.stores.items self.new.stores.items }
        ensures marks { ChangesAt store self.old.branches self.new.branches }
        ensures mark { OnOk result (slice_get self.new.branches store ≡ Some then) }
        ensures unsaid { OnErr result (self.new.branches ≡ self.old.branches) }
        ensures says { AtStore S.view store (IsToldAs statement.now result) self.old.stores.items
            self.new.stores.items }
        ensures few { added_at S.view self.new.stores.items store ≤ added_at S.view self.old.stores.items store + 1 }
    {
        execute_on(rt, &mut self.stores[store as usize], statement)?;
        self.branches[store as usize] = then;
        Ok(())
    }
}
