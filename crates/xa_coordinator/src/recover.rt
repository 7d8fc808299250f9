//! Recovery: finishing what a stopped coordinator left, as the decisions say.
//!
//! Of the contracts' clauses, `frame` says that no other store's session changes, `marks` what the coordinator then
//! has open in its stores, `free` that it has nothing open, and `few` how many entries are added at most.
ghost use Rattle.std.specs.Prelude.{◌≡◌, ◌≢◌, ◌<◌, ◌≤◌, ◌+◌, ℕ, List, [], Option, Some, None, IfOk, IfErr, OnOk};
ghost use Rattle.std.specs.Prelude.{length, slice_get, map, vec_len, vec_capacity};
ghost use Rattle.xa_coordinator.specs.{Agreement.Agrees, Decisions.{closed_of, is_decided, decision_of}};
ghost use Rattle.xa_coordinator.specs.Recovery.{IsDisconnected, IsFinished, IsSettled, IsClear, IsRecovered, IsCutOff};
ghost use Rattle.xa_coordinator.specs.Recovery.{BreaksBy, BreaksHere, Recovers, BreaksOff, asked_by_fault};
ghost use Rattle.xa_coordinator.specs.{Parts.{added_at, fault_by, total}, declared.report.Tally.Tally as TallyOf};
ghost use Rattle.xa_coordinator.specs.declared.branches.OpenBranch.{OpenBranch as OpenBranchOf};
ghost use Rattle.xa_coordinator.specs.{declared.decisions.Decision.Decision, Stores.{AtStore, EachStore, ChangesAt}};
ghost use Rattle.xa_session.specs.View.{SessionView};

use crate::report::Tally;
use crate::{Cause, Coordinator, Decisions, RecoverFault, Report, Speak};
use std::alloc::Global;
use std::sync::Wait;

/// The fault of a recovery in which this store didn't carry a statement out, for this cause.
fn fault_of(store: u8, cause: Cause) -> RecoverFault
    ensures { result ≡ fault_by store cause }
{
    match cause {
        Cause::Session(fault) => RecoverFault::Session { store, fault },
        Cause::Refused(error) => RecoverFault::Refused { store, error },
    }
}

impl<S: Speak> Coordinator<S> {
    /// Lists the prepared branches of a store in which nothing is open, and finishes those of this coordinator's
    /// naming as the decisions say. Returns how many came to which end, or why the list or one of them failed.
    fn list_and_finish<R: Wait>(
        &mut self,
        rt: &R,
        decisions: &Decisions,
        store: u8,
    ) -> Result<Tally, Cause>
        requires store { store < vec_len self.old.stores }
        requires free { slice_get self.old.branches store ≡ Some None }
        ensures name { self.new.name ≡ self.old.name }
        ensures frame { ChangesAt store self.old.stores.items self.new.stores.items }
        ensures marks { ChangesAt store self.old.branches self.new.branches }
        ensures free { slice_get self.new.branches store ≡ Some None }
        ensures finished { IfOk result
            (λ tally. AtStore S.view store (IsFinished decisions.now self.old.name.items store tally)
            self.old.stores.items self.new.stores.items) }
        ensures broken { IfErr result
            (λ cause. AtStore S.view store
            (λ freed new. (old : SessionView) → IsDisconnected old freed
            → IsCutOff decisions.now self.old.name.items store old cause new) self.old.stores.items
            self.new.stores.items) }
        ensures few { IfOk result
            (λ tally. added_at S.view self.new.stores.items store ≤ added_at S.view self.old.stores.items store
            + total tally) }
    {
        match self.prepared_in(rt, store) {
            // Only the list is needed here, not its place.
            Ok(found) => self.settle_each(rt, decisions, store, found.0.as_slice()),
            Err(fault) => Err(Cause::Session(fault)),
        }
    }

    /// Has the session of a store disconnect, and then finishes the prepared branches of this coordinator's
    /// naming there. Returns how many came to which end, or why the first statement that failed did.
    fn finish_prepared<R: Wait>(
        &mut self,
        rt: &R,
        decisions: &Decisions,
        store: u8,
    ) -> Result<Tally, Cause>
        requires store { store < vec_len self.old.stores }
        ensures name { self.new.name ≡ self.old.name }
        ensures frame { ChangesAt store self.old.stores.items self.new.stores.items }
        ensures marks { ChangesAt store self.old.branches self.new.branches }
        ensures free { OnOk result (slice_get self.new.branches store ≡ Some None) }
        ensures settled { IfOk result
            (λ tally. AtStore S.view store (IsSettled decisions.now self.old.name.items store tally)
            self.old.stores.items self.new.stores.items) }
        ensures broken { IfErr result
            (λ cause. BreaksBy S.view decisions.now self.old.name.items store cause self.old.branches self.new.branches
            self.old.stores.items
            self.new.stores.items) }
        ensures few { IfOk result
            (λ tally. added_at S.view self.new.stores.items store ≤ added_at S.view self.old.stores.items store + 1
            + total tally) }
    {
        match self.disconnect(rt, store) {
            Ok(()) => self.list_and_finish(rt, decisions, store),
            Err(fault) => Err(Cause::Session(fault)),
        }
    }

    /// Lists the prepared branches of a store once more. If none is of this coordinator's naming, returns the list's
    /// place: how many entries the session had seen. Errors: `StillPrepared` if one is, `Session` if the session
    /// couldn't answer.
    fn look_again<R: Wait>(&mut self, rt: &R, store: u8) -> Result<u64, RecoverFault>
        requires store { store < vec_len self.old.stores }
        requires free { slice_get self.old.branches store ≡ Some None }
        ensures name { self.new.name ≡ self.old.name }
        ensures frame { ChangesAt store self.old.stores.items self.new.stores.items }
        ensures few { added_at S.view self.new.stores.items store ≤ added_at S.view self.old.stores.items store }
        ensures marks { self.new.branches ≡ self.old.branches }
        ensures clear { IfOk result (λ front. AtStore S.view store
            (IsClear self.old.name.items store front) self.old.stores.items self.new.stores.items) }
        ensures quiet { OnOk result (AtStore S.view store (λ old new. new.known.mine ≡ old.known.mine)
            self.old.stores.items self.new.stores.items) }
        ensures place { IfErr result (λ fault. asked_by_fault fault ≡ store + 1) }
        ensures fails { IfErr result
            (λ fault. (decisions : List Decision) (tally : TallyOf) (marks : List (Option OpenBranchOf))
            (before : List S)
            → length self.old.stores.items ≡ length before
            → AtStore S.view store (IsSettled decisions self.old.name.items store tally) before self.old.stores.items
            → BreaksHere S.view decisions self.old.name.items fault marks self.new.branches before
            self.new.stores.items) }
    {
        let listed = self.prepared_in(rt, store);
        match listed {
            Ok(found) => match self.own_number(store, found.0.as_slice()) {
                // All were finished before, so another client has prepared this one since.
                Some(_number) => Err(RecoverFault::StillPrepared { store }),
                // The list's place.
                None => Ok(found.1),
            },
            Err(fault) => Err(RecoverFault::Session { store, fault }),
        }
    }

    /// Recovers one store: its session disconnects, the prepared branches of this coordinator's naming are
    /// finished, and a second list shows that none is left. Returns how many came to which end, and the place
    /// of that list: how many entries the session had seen. The error names this store.
    fn recover_store<R: Wait>(
        &mut self,
        rt: &R,
        decisions: &Decisions,
        store: u8,
    ) -> Result<(Tally, u64), RecoverFault>
        requires store { store < vec_len self.old.stores }
        ensures name { self.new.name ≡ self.old.name }
        ensures frame { ChangesAt store self.old.stores.items self.new.stores.items }
        ensures marks { ChangesAt store self.old.branches self.new.branches }
        ensures free { OnOk result (slice_get self.new.branches store ≡ Some None) }
        ensures recovered { IfOk result
            (λ one. AtStore S.view store (IsRecovered decisions.now self.old.name.items store one.0 one.1)
            self.old.stores.items self.new.stores.items) }
        ensures place { IfErr result (λ fault. asked_by_fault fault ≡ store + 1) }
        ensures fails { IfErr result
            (λ fault. BreaksHere S.view decisions.now self.old.name.items fault self.old.branches self.new.branches
            self.old.stores.items self.new.stores.items) }
        ensures few { IfOk result
            (λ one. added_at S.view self.new.stores.items store ≤ added_at S.view self.old.stores.items store + 1
            + total one.0) }
    {
        match self.finish_prepared(rt, decisions, store) {
            Ok(tally) => {
                let front = self.look_again(rt, store)?;
                Ok((tally, front))
            }
            Err(cause) => Err(fault_of(store, cause)),
        }
    }

    /// Recovers each store, in ascending order, up to the first fault, which is returned. `fronts` is empty, with room
    /// for a place of each store; the report takes it.
    fn recover_each<R: Wait>(
        &mut self,
        rt: &R,
        decisions: &Decisions,
        fronts: Vec<u64>,
    ) -> Result<Report, RecoverFault>
        requires none { fronts.items ≡ [] }
        requires empty { vec_len fronts ≡ 0 }
        requires room { vec_len self.old.stores ≤ vec_capacity fronts }
        ensures name { self.new.name ≡ self.old.name }
        ensures count { vec_len self.new.stores ≡ vec_len self.old.stores }
        ensures free { OnOk result ((store : ℕ) → store < vec_len self.new.stores
            → slice_get self.new.branches store ≡ Some None) }
        ensures marks { IfErr result
            (λ fault. (store : ℕ) → asked_by_fault fault ≤ store
            → slice_get self.new.branches store ≡ slice_get self.old.branches store) }
        ensures below { IfErr result (λ fault. (store : ℕ) → store + 1 < asked_by_fault fault
            → slice_get self.new.branches store ≡ Some None) }
        ensures recovers { IfOk result (λ report. Recovers S.view decisions.now self.old.name.items report
            self.old.stores.items self.new.stores.items) }
        ensures breaks { IfErr result
            (λ fault. BreaksOff S.view decisions.now self.old.name.items fault self.old.branches self.new.branches
            self.old.stores.items self.new.stores.items) }
    {
        let mut report = Report {
            fronts,
            committed: 0,
            rolled_back: 0,
            missing: 0,
        };
        let count = self.stores.len() as u8;
        for store in 0..count {
            let (tally, front) = self.recover_store(rt, decisions, store)?;
            report.add(tally, front);
        }
        Ok(report)
    }

    /// Finishes what a coordinator of this name, stopped anywhere, left in its stores.
    ///
    /// First every undecided number is closed. Then each store, in ascending order until the first fault: its
    /// session disconnects; each prepared branch of this coordinator's naming is committed if its number is
    /// decided, else rolled back, also if the number was never given (presumed abort); no such branch is
    /// prepared any more. A branch that is answered XAER_NOTA is counted as missing. Errors: `NoMemory` if
    /// there is none for the report, before any statement; then the first store's fault: `Session` if its
    /// session couldn't answer, `Refused` if a statement was refused for another cause than XAER_NOTA,
    /// `StillPrepared` if another client prepared such a branch meanwhile.
    /// After an error the numbers stay closed and the stores below the named one are recovered. Call it
    /// again.
    /// May return `NoMemory` and faults of a session. May wait: no number of tries is promised.
    /// Own rule: docs/COORDINATOR.md#recovery.
    pub fn recover<R: Wait>(
        &mut self,
        rt: &R,
        alloc: Global,
        decisions: &mut Decisions,
    ) -> Result<Report, RecoverFault>
        ensures name { self.new.name ≡ self.old.name }
        ensures count { vec_len self.new.stores ≡ vec_len self.old.stores }
        // Proved (coordinator, recovery-closes): A recovery closes every undecided number and no other, also
        //   if it ends in a fault. What is decided stays so.
        ensures closed { decisions.new ≡ map closed_of decisions.old }
        // Proved (coordinator, recovery-closes)
        ensures none_undecided { (number : ℕ) → decision_of decisions.new number ≢ Some Decision.Undecided }
        // Proved (coordinator, recovery-closes)
        ensures kept { (number : ℕ) → is_decided decisions.new number ≡ is_decided decisions.old number }
        // Proved (coordinator, nothing-open)
        ensures free { OnOk result ((store : ℕ) → store < vec_len self.new.stores
            → slice_get self.new.branches store ≡ Some None) }
        // Proved (coordinator, recovery-open): After a fault of recovery nothing is open in the stores below
        //   the named one. In the named store it is as before if `DISCONNECT` failed, else nothing is open.
        //   Above it is as before.
        ensures marks { IfErr result
            (λ fault. (store : ℕ) → asked_by_fault fault ≤ store
            → slice_get self.new.branches store ≡ slice_get self.old.branches store) }
        // Proved (coordinator, recovery-open)
        ensures below { IfErr result (λ fault. (store : ℕ) → store + 1 < asked_by_fault fault
            → slice_get self.new.branches store ≡ Some None) }
        // Proved (coordinator, recovered): A recovery commits each branch of this coordinator's naming that
        //   was prepared at one place, not before what had been seen, if its number is decided, else rolls it
        //   back; or the branch was answered XAER_NOTA. Each is counted so.
        // Proved (coordinator, recovered-nothing-else): A recovery adds nothing but each session's
        //   `DISCONNECT` and the endings of the branches that it counts.
        // Proved (coordinator, recovered-clear): After a recovery each session has looked, and at the place
        //   in the report, the end of all that it has seen, no branch of this coordinator's naming is
        //   prepared.
        // Proved (coordinator, takes-from-limits)
        ensures recovers { IfOk result (λ report. Recovers S.view decisions.new self.old.name.items report
            self.old.stores.items self.new.stores.items) }
        // Proved (coordinator, recovery-fault): Each fault of recovery but `NoMemory` names a store, and the stores
        //   below it are recovered. In that store the session couldn't answer, or the store refused for another cause
        //   than XAER_NOTA, or a branch of this naming is prepared.
        // Proved (coordinator, recovery-fault-extent): The store that a fault of recovery names got exactly the
        //   statements up to the one that failed, and the stores above it got none. After `NoMemory` no session got a
        //   statement, and what is open is as before.
        // Proved (coordinator, takes-from-limits)
        // Proved (coordinator, recovery-open)
        ensures breaks { IfErr result
            (λ fault. BreaksOff S.view decisions.new self.old.name.items fault self.old.branches self.new.branches
            self.old.stores.items self.new.stores.items) }
        // Proved (coordinator, agrees)
        ensures agrees { EachStore S.view (Agrees decisions.new self.old.name.items) self.old.stores.items
            self.new.stores.items }
    {
        // The undecided numbers are closed first: after a fault some branches may be rolled back, so their numbers
        // mustn't be decided any more.
        decisions.close_all();
        // Room for the report is taken before any store gets a statement, so that no recovery fails for it later.
        let fronts = Vec::with_capacity(alloc, self.stores.len())?;
        self.recover_each(rt, decisions, fronts)
    }
}
