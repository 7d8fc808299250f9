//! What a recovery does with the prepared branches of one store.
//!
//! Of the contracts' clauses, `frame` says that no other store's session changes, `marks` that what the coordinator has
//! open in other stores stays, `free` that nothing is open in this one, and `few` how many entries are added at most.
ghost use Rattle.std.specs.Prelude.{◌≡◌, ◌<◌, ◌≤◌, ◌+◌, ◌^◌, ℕ, true, false, IfOk, IfErr, IfSome, IfNone, slice_get};
ghost use Rattle.std.specs.{Prelude.{Some, None, vec_len}, List.list_any};
ghost use Rattle.xa_xid.specs.Xid.{same_xid};
ghost use Rattle.xa_coordinator.specs.{Branch.branch_xid, Recovery.{finish_decided as finish_by_decision, SettlesOne}};
ghost use Rattle.xa_coordinator.specs.{Recovery.{Settled, IsUnsettled, StopsAmong}, Parts.{added_at, counted, total}};
ghost use Rattle.xa_coordinator.specs.Stores.{AtStore, ChangesAt};

use crate::branch_name::number_of_branch;
use crate::closing::{Closing, Found};
use crate::report::Tally;
use crate::{Cause, Coordinator, Decisions, Speak};
use std::sync::Wait;
use xa_xid::Xid;

/// How a recovery finishes a branch: by a commit if its number is decided, else by a rollback (presumed abort).
fn finish_decided(decided: bool) -> Closing
    ensures { result ≡ finish_by_decision decided }
{
    if decided {
        Closing::InTwoPhases
    } else {
        Closing::RollBack
    }
}

/// The tally with one more branch: missing if it wasn't found, else committed if its number is decided, else
/// rolled back. `decided`: whether its number is. `found`: whether the branch was found, and so finished.
fn with_one(tally: Tally, decided: bool, found: Found) -> Tally
    requires { total tally + 1 < 2 ^ 64 }
    ensures counted { result ≡ counted tally decided found }
    ensures total { total result ≡ total tally + 1 }
{
    match found {
        Found::Missing => Tally {
            missing: tally.missing + 1,
            ..tally
        },
        Found::Closed if decided => Tally {
            committed: tally.committed + 1,
            ..tally
        },
        Found::Closed => Tally {
            rolled_back: tally.rolled_back + 1,
            ..tally
        },
    }
}

impl<S: Speak> Coordinator<S> {
    /// Finishes a prepared branch of this coordinator's naming as the decisions say, and returns the tally with one
    /// more. For any other branch it gives no statement, and returns the tally as it is. The error says why the
    /// branch isn't finished, for another cause than XAER_NOTA, which counts as missing.
    fn settle<R: Wait>(
        &mut self,
        rt: &R,
        decisions: &Decisions,
        store: u8,
        xid: &Xid,
        tally: Tally,
    ) -> Result<Tally, Cause>
        requires store { store < vec_len self.old.stores }
        requires room { total tally + 1 < 2 ^ 64 }
        requires free { slice_get self.old.branches store ≡ Some None }
        ensures name { self.new.name ≡ self.old.name }
        ensures frame { ChangesAt store self.old.stores.items self.new.stores.items }
        ensures marks { ChangesAt store self.old.branches self.new.branches }
        ensures free { slice_get self.new.branches store ≡ Some None }
        ensures more { IfOk result (λ after. total after ≤ total tally + 1) }
        ensures few { IfOk result
            (λ after. added_at S.view self.new.stores.items store + total tally
            ≤ added_at S.view self.old.stores.items store + total after) }
        ensures settled { IfOk result
            (λ after. AtStore S.view store
            (λ old new. SettlesOne decisions.now self.old.name.items store xid.now tally old after new)
            self.old.stores.items
            self.new.stores.items) }
        ensures broken { IfErr result
            (λ cause. AtStore S.view store (IsUnsettled decisions.now self.old.name.items store xid.now cause)
            self.old.stores.items self.new.stores.items) }
    {
        let Some(number) = number_of_branch(&self.name, store, xid) else {
            // The branch isn't of this coordinator's naming, so it is left to others.
            return Ok(tally);
        };
        let decided = decisions.is_decided(number);
        let found = self.finish_branch(rt, store, number, finish_decided(decided))?;
        Ok(with_one(tally, decided, found))
    }

    /// Finishes each listed branch of this coordinator's naming, in order; XAER_NOTA counts as missing. Stops at the
    /// first that isn't finished for another cause, and returns that cause; else returns how many came to which end.
    pub(crate) fn settle_each<R: Wait>(
        &mut self,
        rt: &R,
        decisions: &Decisions,
        store: u8,
        xids: &[Xid],
    ) -> Result<Tally, Cause>
        requires store { store < vec_len self.old.stores }
        requires free { slice_get self.old.branches store ≡ Some None }
        ensures name { self.new.name ≡ self.old.name }
        ensures frame { ChangesAt store self.old.stores.items self.new.stores.items }
        ensures marks { ChangesAt store self.old.branches self.new.branches }
        ensures free { slice_get self.new.branches store ≡ Some None }
        ensures settled { IfOk result
            (λ tally. AtStore S.view store
            (λ old new. Settled decisions.now self.old.name.items store old xids.now tally new) self.old.stores.items
            self.new.stores.items) }
        ensures broken { IfErr result
            (λ cause. AtStore S.view store (StopsAmong decisions.now self.old.name.items store xids.now cause)
            self.old.stores.items self.new.stores.items) }
        ensures few { IfOk result
            (λ tally. added_at S.view self.new.stores.items store ≤ added_at S.view self.old.stores.items store
            + total tally) }
    {
        let mut tally = Tally {
            committed: 0,
            rolled_back: 0,
            missing: 0,
        };
        for xid in xids {
            tally = self.settle(rt, decisions, store, xid, tally)?;
        }
        Ok(tally)
    }

    /// The number of the first listed branch that has this coordinator's naming in this store. None if none has.
    pub(crate) fn own_number(&self, store: u8, xids: &[Xid]) -> Option<u64>
        ensures fits { IfSome result (λ number. number < 2 ^ 64) }
        ensures some { IfSome result (λ number. list_any (same_xid
            (branch_xid self.now.name.items number store)) xids.now ≡ true) }
        ensures none { IfNone result ((number : ℕ) → number < 2 ^ 64
            → list_any (same_xid (branch_xid self.now.name.items number store)) xids.now ≡ false) }
    {
        for xid in xids {
            if let Some(number) = number_of_branch(&self.name, store, xid) {
                return Some(number);
            }
        }
        None
    }
}
