//! The branch of a transaction in one store, from its start to its end. `number` is the transaction's, `store` the
//! store's.
//!
//! Of the contracts' clauses, `frame` says that no other store's session changes, `marks` and `mark` what the
//! coordinator then has open in its stores, and `says` what became of the statement. `unsaid` says that after an error
//! everything that was open still is; but if the call gives `XA END` before another statement, the branch may be IDLE.
//! `free` says that nothing is open if nothing was, and `few` that at most one entry was added.
ghost use Rattle.std.specs.Prelude.{◌≡◌, ◌<◌, ◌≤◌, ◌+◌, Some, None, Err, true, false, IfErr, OnOk, OnErr, slice_get};
ghost use Rattle.std.specs.Prelude.{vec_len};
ghost use Rattle.xa_session.specs.View.{SessionView};
ghost use Rattle.xa_coordinator.specs.{Branch.branch_xid, Outcomes.{finish_statement, ends_first}};
ghost use Rattle.xa_coordinator.specs.OpenBranches.{HasOpen, IsAsBeforeOrEnded, has_working_branch as is_working_in};
ghost use Rattle.xa_coordinator.specs.Parts.{SaysAs, ClosesAs, PreparesAs, IsToldAs, added_at};
ghost use Rattle.xa_coordinator.specs.Stores.{AtStore, ChangesAt};
ghost use Rattle.xa_xid.specs.declared.statement.Statement.{Statement, TheVariants.{Start, End, Prepare, Rollback}};

use crate::closing::{Closing, Found};
use crate::{Cause, Coordinator, Speak};
use std::sync::Wait;
use xa_server::XaError;
use xa_xid::Statement;

/// What finishing a branch found, by what became of the statement: `Closed` if it was carried out, `Missing` if
/// it was answered XAER_NOTA. Any other cause stays the error.
fn found(said: Result<(), Cause>) -> Result<Found, Cause>
    ensures says { (statement : Statement) (old new : SessionView) → IsToldAs statement said old new
        → SaysAs statement result old new }
    ensures fault { IfErr result (λ cause. said ≡ Err cause) }
{
    match said {
        Ok(()) => Ok(Found::Closed),
        Err(Cause::Session(fault)) => Err(Cause::Session(fault)),
        Err(Cause::Refused(XaError::Nota)) => Ok(Found::Missing),
        Err(Cause::Refused(error)) => Err(Cause::Refused(error)),
    }
}

impl<S: Speak> Coordinator<S> {
    /// Starts a transaction's branch in a store. If `XA START` is carried out, the coordinator has the branch
    /// open there, ACTIVE. The error says why it isn't; then what is open stays.
    pub(crate) fn start_branch<R: Wait>(
        &mut self,
        rt: &R,
        store: u8,
        number: u64,
    ) -> Result<(), Cause>
        requires { store < vec_len self.old.stores }
        ensures name { self.new.name ≡ self.old.name }
        ensures frame { ChangesAt store self.old.stores.items self.new.stores.items }
        ensures marks { ChangesAt store self.old.branches self.new.branches }
        ensures mark { OnOk result (slice_get self.new.branches store
            ≡ Some (Some (record { number = number; phase = Phase.Active }))) }
        ensures unsaid { OnErr result (self.new.branches ≡ self.old.branches) }
        ensures says { AtStore S.view store (IsToldAs (Start (branch_xid self.old.name.items number store)) result)
            self.old.stores.items
            self.new.stores.items }
    {
        let statement = Statement::Start(self.branch(number, store));
        let then = OpenBranch {
            number,
            phase: Phase::Active,
        };
        self.execute_at(rt, store, &statement, Some(then))
    }

    /// Ends the work of a transaction's branch in a store. If `XA END` is carried out, the coordinator has the
    /// branch open there, IDLE. The error says why it isn't; then what is open stays.
    pub(crate) fn end_branch<R: Wait>(
        &mut self,
        rt: &R,
        store: u8,
        number: u64,
    ) -> Result<(), Cause>
        requires { store < vec_len self.old.stores }
        ensures name { self.new.name ≡ self.old.name }
        ensures frame { ChangesAt store self.old.stores.items self.new.stores.items }
        ensures marks { ChangesAt store self.old.branches self.new.branches }
        ensures unsaid { OnErr result (self.new.branches ≡ self.old.branches) }
        ensures mark { OnOk result (slice_get self.new.branches store
            ≡ Some (Some (record { number = number; phase = Phase.Idle }))) }
        ensures says { AtStore S.view store (IsToldAs (End (branch_xid self.old.name.items number store)) result)
            self.old.stores.items self.new.stores.items }
    {
        let statement = Statement::End(self.branch(number, store));
        let then = OpenBranch {
            number,
            phase: Phase::Idle,
        };
        self.execute_at(rt, store, &statement, Some(then))
    }

    /// Prepares a transaction's branch, of which the work has ended. If `XA PREPARE` is carried out, the
    /// coordinator has nothing open in the store. The error says why it isn't; then what is open stays.
    fn prepare_ended<R: Wait>(&mut self, rt: &R, store: u8, number: u64) -> Result<(), Cause>
        requires { store < vec_len self.old.stores }
        ensures name { self.new.name ≡ self.old.name }
        ensures frame { ChangesAt store self.old.stores.items self.new.stores.items }
        ensures marks { ChangesAt store self.old.branches self.new.branches }
        ensures unsaid { OnErr result (self.new.branches ≡ self.old.branches) }
        ensures says { AtStore S.view store (IsToldAs (Prepare (branch_xid self.old.name.items number store)) result)
            self.old.stores.items
            self.new.stores.items }
    {
        let statement = Statement::Prepare(self.branch(number, store));
        self.execute_at(rt, store, &statement, None)
    }

    /// Ends and prepares a transaction's branch. The error says why `XA END` wasn't carried out, and `XA PREPARE` isn't
    /// given; or why `XA PREPARE` wasn't, and the branch is left open, IDLE.
    pub(crate) fn prepare_branch<R: Wait>(
        &mut self,
        rt: &R,
        store: u8,
        number: u64,
    ) -> Result<(), Cause>
        requires { store < vec_len self.old.stores }
        ensures name { self.new.name ≡ self.old.name }
        ensures frame { ChangesAt store self.old.stores.items self.new.stores.items }
        ensures marks { ChangesAt store self.old.branches self.new.branches }
        ensures unsaid { OnErr result (IsAsBeforeOrEnded store number self.old.branches self.new.branches) }
        ensures prepares { AtStore S.view store (PreparesAs
            (branch_xid self.old.name.items number store) result) self.old.stores.items self.new.stores.items }
    {
        self.end_branch(rt, store, number)?;
        self.prepare_ended(rt, store, number)
    }

    /// Gives a store the statement by which `closing` finishes a transaction's branch. Returns `Closed` if it is
    /// carried out; the coordinator has nothing open there then. Returns `Missing` if it is answered XAER_NOTA. The
    /// error is any other cause for which it isn't carried out. After `Missing` and an error what is open stays.
    pub(crate) fn finish_branch<R: Wait>(
        &mut self,
        rt: &R,
        store: u8,
        number: u64,
        closing: Closing,
    ) -> Result<Found, Cause>
        requires { store < vec_len self.old.stores }
        ensures name { self.new.name ≡ self.old.name }
        ensures frame { ChangesAt store self.old.stores.items self.new.stores.items }
        ensures marks { ChangesAt store self.old.branches self.new.branches }
        ensures unsaid { OnErr result (self.new.branches ≡ self.old.branches) }
        ensures free { slice_get self.old.branches store ≡ Some None → slice_get self.new.branches store ≡ Some None }
        ensures finishes { AtStore S.view store (SaysAs
            (finish_statement closing (branch_xid self.old.name.items number store)) result) self.old.stores.items
            self.new.stores.items }
        ensures few { added_at S.view self.new.stores.items store ≤ added_at S.view self.old.stores.items store + 1 }
    {
        let statement = closing.statement(self.branch(number, store));
        found(self.execute_at(rt, store, &statement, None))
    }

    /// Ends a branch that takes work, and rolls it back. Returns `Closed` if both are carried out, `Missing` if the
    /// rollback is answered XAER_NOTA. The error says why `XA END` or, for another cause, the rollback wasn't carried
    /// out.
    fn end_and_roll_back<R: Wait>(&mut self, rt: &R, store: u8, number: u64) -> Result<Found, Cause>
        requires { store < vec_len self.old.stores }
        ensures name { self.new.name ≡ self.old.name }
        ensures frame { ChangesAt store self.old.stores.items self.new.stores.items }
        ensures marks { ChangesAt store self.old.branches self.new.branches }
        ensures unsaid { OnErr result (IsAsBeforeOrEnded store number self.old.branches self.new.branches) }
        ensures closes { AtStore S.view store
            (ClosesAs true (Rollback (branch_xid self.old.name.items number store))
            (branch_xid self.old.name.items number store) result) self.old.stores.items
            self.new.stores.items }
    {
        self.end_branch(rt, store, number)?;
        self.finish_branch(rt, store, number, Closing::RollBack)
    }

    /// Whether the coordinator has the transaction's branch open in a store.
    pub(crate) fn has_open(&self, store: u8, number: u64) -> bool
        requires { store < 16 }
        ensures has { result ≡ true → HasOpen self.now.branches store number }
        ensures none { result ≡ false → HasOpen self.now.branches store number → ⊥ }
    {
        match self.branches[store as usize] {
            Some(branch) => branch.number == number,
            None => false,
        }
    }

    /// Whether the coordinator has the transaction's branch open in a store, and it takes work.
    #[tactic(auto, unfolding(crate::specs::OpenBranches::has_working_branch))]
    pub(crate) fn is_working(&self, store: u8, number: u64) -> bool
        requires { store < 16 }
        ensures { result ≡ is_working_in self.now.branches store number }
    {
        match self.branches[store as usize] {
            Some(branch) => branch.phase == Phase::Active && branch.number == number,
            None => false,
        }
    }

    /// Finishes a transaction's branch in a store, as `closing` says. One that takes work and is to be rolled
    /// back is ended first. Returns `Closed` if the finishing statement is carried out, `Missing` if it is answered
    /// XAER_NOTA. The error says why `XA END` or, for another cause, the finishing statement wasn't carried out.
    pub(crate) fn finish_open<R: Wait>(
        &mut self,
        rt: &R,
        store: u8,
        number: u64,
        closing: Closing,
    ) -> Result<Found, Cause>
        requires { store < vec_len self.old.stores }
        ensures name { self.new.name ≡ self.old.name }
        ensures frame { ChangesAt store self.old.stores.items self.new.stores.items }
        ensures marks { ChangesAt store self.old.branches self.new.branches }
        ensures unsaid { OnErr result (IsAsBeforeOrEnded store number self.old.branches self.new.branches) }
        ensures closes { AtStore S.view store
            (ClosesAs (ends_first closing (is_working_in self.old.branches store number))
            (finish_statement closing (branch_xid self.old.name.items number store))
            (branch_xid self.old.name.items number store) result)
            self.old.stores.items self.new.stores.items }
    {
        let ends = closing.ends_first(self.is_working(store, number));
        if ends {
            return self.end_and_roll_back(rt, store, number);
        }
        self.finish_branch(rt, store, number, closing)
    }
}

/// The phase of a branch that a session owns.
///
/// Source: MySQL 8.0 Reference Manual, 'XA Transaction States'.
#[derive(Clone, Copy, Debug, PartialEq, Eq)]
pub enum Phase {
    /// The branch takes work.
    Active,
    /// The branch's work has ended.
    Idle,
}

/// A branch that a coordinator has open in a store.
#[derive(Clone, Copy, Debug, PartialEq, Eq)]
pub struct OpenBranch {
    /// The number of its transaction.
    pub number: u64,
    /// Its phase.
    pub phase: Phase,
}
