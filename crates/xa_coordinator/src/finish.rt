//! The second phase: finishing the branches of a transaction.
//!
//! Of the contracts' clauses, `count` says that there are as many stores, `elsewhere` that what is open stays in
//! stores that weren't spoken to, and `cut` what is open in the store that an `Unfinished` names. `frame`
//! says that no other store changes and `marks` that no other branch's mark does; `closed` how a branch ends, if the
//! call succeeds, `stopped` what a failed call leaves, and `unsaid` that the branch is then as before, or ended.
ghost use Rattle.std.specs.Prelude.{◌≡◌, ◌<◌, List, false, OnOk, OnErr, IfErr, vec_len};
ghost use Rattle.xa_coordinator.specs.{Agreement.Agrees, Decisions.is_decided, Stores.{AtStore, EachStore, ChangesAt}};
ghost use Rattle.xa_coordinator.specs.{Told.IsUnfinished, Branch.branch_xid};
ghost use Rattle.xa_coordinator.specs.OpenBranches.{has_working_branch, IsAsBeforeOrEnded, KeepsOpen};
ghost use Rattle.xa_coordinator.specs.Outcomes.{EndsAs, KeepsUnfinished, finish_statement, ends_first, asked_by_ending};
ghost use Rattle.xa_coordinator.specs.{Outcomes.finish_for as finish_of_vote, Parts.ClosesNext};
ghost use Rattle.xa_coordinator.specs.declared.decisions.Decision.{Decision};
ghost use Rattle.arrayvec.specs.ArrayVec.{array_vec_len};

use crate::closing::{Closing, Found};
use crate::transaction::VoteKind;
use crate::{Cause, Coordinator, Decisions, Ending, Prepared, Speak, Transaction};
use arrayvec::ArrayVec;
use std::sync::Wait;

/// How a transaction that was voted on is finished: by commits of prepared branches if it is decided, by a
/// commit in one phase after a vote of OnePhase, else by rollbacks (presumed abort).
fn finish_for(decided: bool, vote_kind: VoteKind) -> Closing
    ensures { result ≡ finish_of_vote decided vote_kind }
{
    // `decide` takes only a vote of Ready, so the branches of a decided transaction were prepared.
    if decided {
        return Closing::InTwoPhases;
    }
    match vote_kind {
        VoteKind::OnePhase => Closing::InOnePhase,
        VoteKind::Ready => Closing::RollBack,
        VoteKind::No => Closing::RollBack,
    }
}

impl<S: Speak> Coordinator<S> {
    /// Finishes a transaction's branch in a store, as `closing` says; one that is to be rolled back gets `XA END` first
    /// if it is open and ACTIVE. If the statement that finishes it is answered XAER_NOTA, adds the store to `missing`,
    /// and returns Ok. Error: why `XA END` wasn't carried out, or why that statement wasn't, if not for XAER_NOTA.
    fn finish_next<R: Wait>(
        &mut self,
        rt: &R,
        store: u8,
        number: u64,
        closing: Closing,
        missing: &mut ArrayVec<u8, 16>,
    ) -> Result<(), Cause>
        requires store { store < vec_len self.old.stores }
        requires room { array_vec_len missing.old < 16 }
        ensures name { self.new.name ≡ self.old.name }
        ensures frame { ChangesAt store self.old.stores.items self.new.stores.items }
        ensures marks { ChangesAt store self.old.branches self.new.branches }
        ensures unsaid { OnErr result (IsAsBeforeOrEnded store number self.old.branches self.new.branches) }
        ensures closed { OnOk result
            (ClosesNext S.view (ends_first closing (has_working_branch self.old.branches store number))
            (finish_statement closing (branch_xid self.old.name.items number store))
            (branch_xid self.old.name.items number store) store missing.old.items
            missing.new.items self.old.stores.items self.new.stores.items) }
        ensures stopped { IfErr result
            (λ cause. AtStore S.view store
            (IsUnfinished (ends_first closing (has_working_branch self.old.branches store number))
            (finish_statement closing (branch_xid self.old.name.items number store))
            (branch_xid self.old.name.items number store) cause)
            self.old.stores.items self.new.stores.items) }
    {
        match self.finish_open(rt, store, number, closing)? {
            Found::Closed => Ok(()),
            Found::Missing => {
                missing.push(store);
                Ok(())
            }
        }
    }

    /// Finishes the branch of each participant, in ascending order, as `closing` says. Ends with `Unfinished` at the
    /// first that isn't finished for another cause than XAER_NOTA; stores below it that answered XAER_NOTA aren't named
    /// then. Else ends with `Hazard` if any answered XAER_NOTA, and with `Committed` or `RolledBack` if none did.
    fn finish_each<R: Wait>(
        &mut self,
        rt: &R,
        transaction: &Transaction,
        closing: Closing,
    ) -> Ending
        requires name { transaction.now.name.items ≡ self.old.name.items }
        requires stores { transaction.now.stores ≡ vec_len self.old.stores }
        ensures name { self.new.name ≡ self.old.name }
        ensures count { vec_len self.new.stores ≡ vec_len self.old.stores }
        ensures elsewhere { KeepsOpen transaction.now.participants
            (asked_by_ending result) self.old.branches self.new.branches }
        ensures cut { KeepsUnfinished transaction.now.number result self.old.branches self.new.branches }
        ensures ends { EndsAs S.view self.old.branches transaction.now closing result self.old.stores.items
            self.new.stores.items }
    {
        // There is room for each store: a coordinator has at most 16.
        let mut missing = ArrayVec::<u8, 16>::new();
        for store in 0..transaction.stores {
            if !transaction.has(store) {
                continue;
            }
            let number = transaction.number;
            if let Err(cause) = self.finish_next(rt, store, number, closing, &mut missing) {
                return Ending::Unfinished { store, cause };
            }
        }
        // The branches in the stores of `missing` were finished before, by somebody else or by a recovery. So how the
        // transaction ended isn't known.
        if !missing.is_empty() {
            return Ending::Hazard { stores: missing };
        }
        match closing {
            Closing::InTwoPhases => Ending::Committed,
            Closing::InOnePhase => Ending::Committed,
            Closing::RollBack => Ending::RolledBack,
        }
    }

    /// Finishes a transaction that was voted on, as the decisions say.
    ///
    /// Each participant, in ascending order, gets `XA COMMIT` if the number is decided, `XA COMMIT .. ONE
    /// PHASE` after a vote of OnePhase, else `XA ROLLBACK`. `XA END` precedes a rollback if this coordinator
    /// has the branch open and ACTIVE. A participant that answers the commit or rollback with XAER_NOTA is
    /// skipped; any other refusal and any fault of a session ends the call. The transaction must have been begun
    /// under this name, over as many stores, and `decisions` must be those that gave its number. The transaction
    /// can't be used again, whatever is returned.
    /// May return a fault of a session. May wait: no number of tries is promised.
    /// Own rule: docs/COORDINATOR.md#finishing.
    pub fn finish<R: Wait>(&mut self, rt: &R, decisions: &Decisions, prepared: Prepared) -> Ending
        requires name { prepared.transaction.name.items ≡ self.old.name.items }
        requires stores { prepared.transaction.stores ≡ vec_len self.old.stores }
        ensures name { self.new.name ≡ self.old.name }
        ensures count { vec_len self.new.stores ≡ vec_len self.old.stores }
        // Proved (coordinator, finish-elsewhere): In the stores that `prepare`, `finish` or `abandon` doesn't
        //   speak to, the coordinator has open what it had.
        ensures elsewhere { KeepsOpen prepared.transaction.participants
            (asked_by_ending result) self.old.branches self.new.branches }
        // Proved (coordinator, finish-open): In the store that a No or an Unfinished names, what the
        //   coordinator has open is as before, or the transaction's branch is IDLE. After OnePhase the only
        //   participant's branch is IDLE.
        ensures cut { KeepsUnfinished prepared.transaction.number result self.old.branches self.new.branches }
        // Proved (coordinator, endings): After Committed or RolledBack each participant's commit or rollback
        //   was added, as the decisions and the vote say.
        // Proved (coordinator, hazard): After Hazard exactly the named participants answered XAER_NOTA, and
        //   the others are finished.
        // Proved (coordinator, end-first): `XA END` comes before the statement that finishes a branch exactly
        //   if a branch that is open and ACTIVE is rolled back.
        // Proved (coordinator, unfinished): After Unfinished the named store didn't carry its statement out, for the
        //   session's fault or for the server's refusal at a place not before what had been seen. The cause is never
        //   XAER_NOTA of the statement that finishes the branch. The participants below it are finished, or answered
        //   XAER_NOTA; the stores above it got no statement.
        // Proved (coordinator, takes-from-limits)
        ensures ends { EndsAs S.view self.old.branches prepared.transaction
            (finish_of_vote (is_decided decisions.now prepared.transaction.number) prepared.vote_kind) result
            self.old.stores.items self.new.stores.items }
        // Proved (coordinator, agrees): Each call adds only entries that agree with the decisions, also if it ends in a
        //   fault. A commit or rollback is of a branch of this coordinator's naming: a commit without ONE PHASE of a
        //   decided number, a rollback of one that isn't decided. Of `abandon` this holds if its number isn't decided.
        ensures agrees { EachStore S.view (Agrees decisions.now self.old.name.items) self.old.stores.items
            self.new.stores.items }
    {
        let Prepared {
            transaction,
            vote_kind,
        } = prepared;
        let closing = finish_for(decisions.is_decided(transaction.number), vote_kind);
        self.finish_each(rt, &transaction, closing)
    }

    /// Rolls back a transaction that wasn't voted on.
    ///
    /// Each participant, in ascending order, gets `XA ROLLBACK`, after `XA END` if this coordinator has the
    /// branch open and ACTIVE. A participant that answers the rollback with XAER_NOTA is skipped; any other
    /// refusal and any fault of a session ends the call. The transaction must have been begun under this name,
    /// over as many stores. It can't be used again, whatever is returned.
    /// May return a fault of a session. May wait: no number of tries is promised.
    /// Own rule: docs/COORDINATOR.md#finishing.
    pub fn abandon<R: Wait>(&mut self, rt: &R, transaction: Transaction) -> Ending
        requires name { transaction.name.items ≡ self.old.name.items }
        requires stores { transaction.stores ≡ vec_len self.old.stores }
        ensures name { self.new.name ≡ self.old.name }
        ensures count { vec_len self.new.stores ≡ vec_len self.old.stores }
        // Proved (coordinator, finish-elsewhere)
        ensures elsewhere { KeepsOpen transaction.participants
            (asked_by_ending result) self.old.branches self.new.branches }
        // Proved (coordinator, finish-open)
        ensures cut { KeepsUnfinished transaction.number result self.old.branches self.new.branches }
        // Proved (coordinator, endings)
        // Proved (coordinator, hazard)
        // Proved (coordinator, end-first)
        // Proved (coordinator, unfinished)
        // Proved (coordinator, takes-from-limits)
        ensures ends { EndsAs S.view self.old.branches transaction Closing.RollBack result self.old.stores.items
            self.new.stores.items }
        // Proved (coordinator, agrees)
        ensures agrees { (decisions : List Decision)
            → is_decided decisions transaction.number ≡ false
            → EachStore S.view (Agrees decisions self.old.name.items) self.old.stores.items self.new.stores.items }
    {
        self.finish_each(rt, &transaction, Closing::RollBack)
    }
}
