//! Work of a transaction in a store.
//!
//! Of the contracts' clauses, `name` says that the coordinator keeps its name, `frame` that no other store's session
//! changes, `marks` what it then has open in its stores, and `keeps` that the transaction changes for this store
//! alone.
ghost use Rattle.std.specs.Prelude.{◌≡◌, ◌≢◌, ◌<◌, ℕ, List, Some, Err, true, false, IfOk, IfErr, slice_get, vec_len};
ghost use Rattle.xa_coordinator.specs.{Agreement.Agrees, Branch.branch_xid, OpenBranches.{HasOpen, has_working_branch}};
ghost use Rattle.xa_coordinator.specs.{Outcomes.branch_of, Participants.takes_part};
ghost use Rattle.xa_coordinator.specs.{Stores.{AtStore, EachStore, ChangesAt}, Told.IsUndone, Parts.WorksWithin};
ghost use Rattle.xa_coordinator.specs.Work.{IsRow, IsReplied, AddsAtMost, AddsWork, KeepsOthers, WorksAs};
ghost use Rattle.xa_coordinator.specs.declared.decisions.Decision.{Decision};
ghost use Rattle.xa_coordinator.specs.declared.branches.Phase.TheVariants.{Active as PhaseActive};

use crate::{Cause, Coordinator, Speak, Transaction, WorkFault};
use std::sync::Wait;
use xa_server::Reply;
use xa_session::Fault;
use xa_xid::Statement;

impl<S: Speak> Coordinator<S> {
    /// Gives a row statement to a store in which the branch of the transaction of this number is open and
    /// ACTIVE. Only the contract needs `number`. A refusal is a reply too; the error is the session's fault.
    fn execute_row<R: Wait>(
        &mut self,
        rt: &R,
        store: u8,
        number: u64,
        statement: &Statement,
    ) -> Result<Reply, Fault>
        requires store { store < vec_len self.old.stores }
        requires row { IsRow statement.now }
        requires working { slice_get self.old.branches store
            ≡ Some (Some (record { number = number; phase = PhaseActive })) }
        ensures name { self.new.name ≡ self.old.name }
        ensures frame { ChangesAt store self.old.stores.items self.new.stores.items }
        ensures marks { self.new.branches ≡ self.old.branches }
        ensures replied { IfOk result
            (λ reply. AtStore S.view store (IsReplied statement.now reply
            (branch_xid self.old.name.items number store)) self.old.stores.items
            self.new.stores.items) }
        ensures undone { IfErr result
            (λ fault. AtStore S.view store (IsUndone statement.now
            (Cause.Session fault)) self.old.stores.items self.new.stores.items) }
    {
        let answer = self.stores[store as usize].execute(rt, statement)?;
        Ok(answer.reply)
    }

    /// Gives a row statement to a store in which the coordinator has the transaction's branch open and ACTIVE, and
    /// returns the reply, which may be a refusal. The store takes part then, also after an error, the session's fault.
    fn work_within<R: Wait>(
        &mut self,
        rt: &R,
        transaction: &mut Transaction,
        store: u8,
        statement: &Statement,
    ) -> Result<Reply, WorkFault>
        requires name { transaction.old.name.items ≡ self.old.name.items }
        requires stores { transaction.old.stores ≡ vec_len self.old.stores }
        requires store { store < vec_len self.old.stores }
        requires row { IsRow statement.now }
        requires working { slice_get self.old.branches store
            ≡ Some (Some (record { number = transaction.old.number; phase = PhaseActive })) }
        ensures name { self.new.name ≡ self.old.name }
        ensures frame { ChangesAt store self.old.stores.items self.new.stores.items }
        ensures marks { self.new.branches ≡ self.old.branches }
        ensures keeps { KeepsOthers store transaction.old transaction.new }
        ensures part { takes_part transaction.new.participants store ≡ true }
        ensures works { WorksWithin S.view (branch_of transaction.old store) store statement.now result
            self.old.stores.items self.new.stores.items }
    {
        // The branch is open there, so it has to be finished later, whatever becomes of the row statement.
        transaction.participants.insert(store);
        match self.execute_row(rt, store, transaction.number, statement) {
            Ok(reply) => Ok(reply),
            Err(fault) => Err(WorkFault::Session(fault)),
        }
    }

    /// Starts the transaction's branch in a store in which the coordinator doesn't have it open and ACTIVE, and then
    /// gives the row statement there. Returns the reply, which may be a refusal. The error says why `XA START` wasn't
    /// carried out, and the transaction is as before; or it is the session's fault at the row statement.
    ///
    /// Clause `again`: if the branch is open already, its work was ended, and a session that has an open branch
    /// starts none. So `XA START` isn't added then.
    fn start_and_work<R: Wait>(
        &mut self,
        rt: &R,
        transaction: &mut Transaction,
        store: u8,
        statement: &Statement,
    ) -> Result<Reply, WorkFault>
        requires name { transaction.old.name.items ≡ self.old.name.items }
        requires stores { transaction.old.stores ≡ vec_len self.old.stores }
        requires store { store < vec_len self.old.stores }
        requires row { IsRow statement.now }
        requires idle { has_working_branch self.old.branches store transaction.old.number ≡ false }
        ensures name { self.new.name ≡ self.old.name }
        ensures frame { ChangesAt store self.old.stores.items self.new.stores.items }
        ensures marks { ChangesAt store self.old.branches self.new.branches }
        ensures keeps { KeepsOthers store transaction.old transaction.new }
        ensures again { HasOpen self.old.branches store transaction.old.number
            → AtStore S.view store (AddsAtMost statement.now) self.old.stores.items self.new.stores.items }
        ensures works { WorksAs S.view self.old.branches self.new.branches transaction.old transaction.new store
            statement.now result self.old.stores.items
            self.new.stores.items }
    {
        match self.start_branch(rt, store, transaction.number) {
            Ok(()) => self.work_within(rt, transaction, store, statement),
            Err(Cause::Session(fault)) => Err(WorkFault::Session(fault)),
            Err(Cause::Refused(error)) => Err(WorkFault::Refused(error)),
        }
    }

    /// Gives a row statement to a store: in the transaction's branch if the coordinator has it open and ACTIVE there,
    /// else in one that it starts first. The error is `Lost` if the store takes part and the coordinator has no
    /// branch of the transaction open there; then the store gets no statement. Other errors are those of `work`.
    fn work_at<R: Wait>(
        &mut self,
        rt: &R,
        transaction: &mut Transaction,
        store: u8,
        statement: &Statement,
    ) -> Result<Reply, WorkFault>
        requires name { transaction.old.name.items ≡ self.old.name.items }
        requires stores { transaction.old.stores ≡ vec_len self.old.stores }
        requires store { store < vec_len self.old.stores }
        requires row { IsRow statement.now }
        ensures name { self.new.name ≡ self.old.name }
        ensures frame { ChangesAt store self.old.stores.items self.new.stores.items }
        ensures marks { ChangesAt store self.old.branches self.new.branches }
        ensures keeps { KeepsOthers store transaction.old transaction.new }
        ensures lost { takes_part transaction.old.participants store ≡ true
            → (HasOpen self.old.branches store transaction.old.number → ⊥)
            → result ≡ Err WorkFault.Lost }
        ensures again { takes_part transaction.old.participants store ≡ true
            → AtStore S.view store (AddsAtMost statement.now) self.old.stores.items self.new.stores.items }
        ensures works { WorksAs S.view self.old.branches self.new.branches transaction.old transaction.new store
            statement.now result self.old.stores.items
            self.new.stores.items }
    {
        if self.is_working(store, transaction.number) {
            return self.work_within(rt, transaction, store, statement);
        }
        // The transaction worked there in a branch that this coordinator doesn't have open. In a new branch that work
        // would be missing.
        if transaction.has(store) && !self.has_open(store, transaction.number) {
            return Err(WorkFault::Lost);
        }
        // Either the store doesn't take part yet and the branch isn't open there, or the branch is open and IDLE. In
        // the second case `XA START` isn't carried out, since the session has a branch open.
        self.start_and_work(rt, transaction, store, statement)
    }

    /// Gives a `GET`, `PUT` or `DEL` of a transaction to a store, and first starts the transaction's branch
    /// if needed.
    ///
    /// `store`: in `[0, number of stores)`. It takes part from its first work on. `transaction` must have
    /// been begun under this name, over as many stores. A row statement that is refused is a reply, not an
    /// error.
    /// Errors: `Lost` if the store takes part and this coordinator has no open branch of the transaction
    /// there, in which case the store gets no statement; `Session` if the session couldn't answer `XA START`
    /// or the row statement; and `Refused` if `XA START` was refused.
    /// After an error the store takes part if it did before, or if the coordinator has the branch open and
    /// ACTIVE now. In a store that takes part a branch is never started again.
    /// May return a fault of a session. May wait: no number of tries is promised.
    /// Own rule: docs/COORDINATOR.md#work.
    pub fn work<R: Wait>(
        &mut self,
        rt: &R,
        transaction: &mut Transaction,
        store: u8,
        statement: &Statement,
    ) -> Result<Reply, WorkFault>
        requires name { transaction.old.name.items ≡ self.old.name.items }
        requires stores { transaction.old.stores ≡ vec_len self.old.stores }
        requires store { store < vec_len self.old.stores }
        requires row { IsRow statement.now }
        ensures name { self.new.name ≡ self.old.name }
        ensures frame { ChangesAt store self.old.stores.items self.new.stores.items }
        // Proved (coordinator, work-elsewhere): In the stores that `work` doesn't speak to, the coordinator
        //   has open what it had, and no other store comes to take part.
        ensures marks { ChangesAt store self.old.branches self.new.branches }
        // Proved (coordinator, work-elsewhere)
        ensures keeps { KeepsOthers store transaction.old transaction.new }
        // Proved (coordinator, work): A row statement is answered only if the session's branch is the
        //   transaction's and ACTIVE, with the server's reply at a place not before what had been seen. The
        //   store takes part then, and the coordinator has the branch open and ACTIVE.
        // Proved (coordinator, work-fault): After a fault of work other than `Lost`, either the branch was open or was
        //   started, and the store takes part; or `XA START` wasn't carried out. It was sent since the coordinator
        //   hadn't the branch open and ACTIVE.
        // Proved (coordinator, work-fault-cause): A fault of work other than `Lost` carries a fault whose cause holds
        //   of the store's session, or the server's refusal of `XA START` at a place not before what had been seen.
        // Proved (coordinator, takes-from-limits): A call of a coordinator takes exactly one from the limit of a
        //   store's session for each statement that it gives it, and lifts no limit. A session returns `NoMemory`
        //   only if its limit was 0, or if memory was refused for the statement, as far as the session notes that.
        ensures works { WorksAs S.view self.old.branches self.new.branches transaction.old transaction.new store
            statement.now result self.old.stores.items
            self.new.stores.items }
        // Proved (coordinator, work-lost): If the store takes part and the coordinator has no open branch of
        //   the transaction there, `work` returns `Lost`, and the session gets no statement.
        ensures lost { takes_part transaction.old.participants store ≡ true
            → (HasOpen self.old.branches store transaction.old.number → ⊥)
            → result ≡ Err WorkFault.Lost }
        // Proved (coordinator, work-starts-once): If the store took part before, `work` carries no `XA START`
        //   out.
        ensures again { takes_part transaction.old.participants store ≡ true
            → AtStore S.view store (AddsAtMost statement.now) self.old.stores.items self.new.stores.items }
        // Proved (coordinator, work-adds): Work adds at most its `XA START` and its row statement.
        ensures adds { AtStore S.view store (AddsWork (branch_of transaction.old store) statement.now)
            self.old.stores.items self.new.stores.items }
        // Proved (coordinator, agrees)
        ensures agrees { (decisions : List Decision) → EachStore S.view
            (Agrees decisions self.old.name.items) self.old.stores.items self.new.stores.items }
    {
        self.work_at(rt, transaction, store, statement)
    }
}
