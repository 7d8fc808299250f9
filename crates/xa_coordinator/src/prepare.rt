//! The first phase: the stores vote.
//!
//! Of the contracts' clauses, `count` says that there are as many stores, `elsewhere` that what is open stays in
//! stores that weren't spoken to, and `cut` what is open in the only participant's store after `OnePhase`, and in the
//! store that a `No` names.
ghost use Rattle.std.specs.Prelude.{◌≡◌, List, IfErr, vec_len};
ghost use Rattle.xa_coordinator.specs.{Agreement.Agrees, Stores.EachStore, OpenBranches.{IsAsBeforeOrEnded, KeepsOpen}};
ghost use Rattle.xa_coordinator.specs.{Outcomes.{VotesAs, KeepsMark, asked_by_vote}, Parts.{PollsAs, asked_by_poll}};
ghost use Rattle.xa_coordinator.specs.{Participants.{TwoTakePart, OnlyTakesPart}, declared.decisions.Decision.Decision};

use crate::participants::Participation;
use crate::transaction::VoteKind;
use crate::{Cause, Coordinator, Prepared, Speak, Transaction, Vote};
use std::sync::Wait;

/// A vote of No: this store hasn't prepared, for this cause.
fn no(transaction: Transaction, store: u8, cause: Cause) -> Vote
    ensures { result ≡ Vote.No (record { transaction = transaction; vote_kind = VoteKind.No }) store cause }
{
    let prepared = Prepared {
        transaction,
        vote_kind: VoteKind::No,
    };
    Vote::No {
        prepared,
        store,
        cause,
    }
}

impl<S: Speak> Coordinator<S> {
    /// Ends and prepares each participant's branch, in ascending order, until `XA END` or `XA PREPARE` isn't carried
    /// out. Ok if all are prepared. The error names the store in which one wasn't carried out, and the cause; the
    /// stores above it get no statement.
    fn poll<R: Wait>(&mut self, rt: &R, transaction: &Transaction) -> Result<(), (u8, Cause)>
        requires name { transaction.now.name.items ≡ self.old.name.items }
        requires stores { transaction.now.stores ≡ vec_len self.old.stores }
        ensures name { self.new.name ≡ self.old.name }
        ensures count { vec_len self.new.stores ≡ vec_len self.old.stores }
        ensures elsewhere { KeepsOpen transaction.now.participants
            (asked_by_poll result) self.old.branches self.new.branches }
        ensures cut { IfErr result
            (λ refused. IsAsBeforeOrEnded refused.0 transaction.now.number self.old.branches self.new.branches) }
        ensures polls { PollsAs S.view transaction.now result self.old.stores.items self.new.stores.items }
    {
        for store in 0..transaction.stores {
            if !transaction.has(store) {
                continue;
            }
            if let Err(cause) = self.prepare_branch(rt, store, transaction.number) {
                return Err((store, cause));
            }
        }
        Ok(())
    }

    /// Ends the only participant's branch, which needn't be prepared: it can be committed in one phase. Votes
    /// `OnePhase`, or `No` if `XA END` isn't carried out.
    fn end_alone<R: Wait>(&mut self, rt: &R, transaction: Transaction, store: u8) -> Vote
        requires name { transaction.name.items ≡ self.old.name.items }
        requires stores { transaction.stores ≡ vec_len self.old.stores }
        requires only { OnlyTakesPart transaction.participants store }
        ensures name { self.new.name ≡ self.old.name }
        ensures count { vec_len self.new.stores ≡ vec_len self.old.stores }
        ensures elsewhere { KeepsOpen transaction.participants
            (asked_by_vote result) self.old.branches self.new.branches }
        ensures cut { KeepsMark transaction result self.old.branches self.new.branches }
        ensures vote { VotesAs S.view transaction result self.old.stores.items self.new.stores.items }
    {
        match self.end_branch(rt, store, transaction.number) {
            Ok(()) => {
                let vote_kind = VoteKind::OnePhase;
                Vote::OnePhase(Prepared {
                    transaction,
                    vote_kind,
                })
            }
            Err(cause) => no(transaction, store, cause),
        }
    }

    /// Ends and prepares each participant's branch, of at least two. Votes `Ready`, or `No` at the first whose `XA END`
    /// or `XA PREPARE` isn't carried out; those above it get no statement.
    fn prepare_each<R: Wait>(&mut self, rt: &R, transaction: Transaction) -> Vote
        requires name { transaction.name.items ≡ self.old.name.items }
        requires stores { transaction.stores ≡ vec_len self.old.stores }
        requires several { TwoTakePart transaction.participants }
        ensures name { self.new.name ≡ self.old.name }
        ensures count { vec_len self.new.stores ≡ vec_len self.old.stores }
        ensures elsewhere { KeepsOpen transaction.participants
            (asked_by_vote result) self.old.branches self.new.branches }
        ensures cut { KeepsMark transaction result self.old.branches self.new.branches }
        ensures vote { VotesAs S.view transaction result self.old.stores.items self.new.stores.items }
    {
        match self.poll(rt, &transaction) {
            Ok(()) => {
                let vote_kind = VoteKind::Ready;
                Vote::Ready(Prepared {
                    transaction,
                    vote_kind,
                })
            }
            Err((store, cause)) => no(transaction, store, cause),
        }
    }

    /// Has the stores vote on a transaction.
    ///
    /// Each participant, in ascending order, gets `XA END` and `XA PREPARE`; if there is only one, it gets
    /// only `XA END`, and if there is none, the vote is Nothing. The vote is No at the first store that doesn't
    /// carry its statement out; the stores above it get no statement. The transaction must have been begun under
    /// this name, over as many stores.
    /// Afterwards the transaction takes no more work.
    /// May return a fault of a session. May wait: no number of tries is promised.
    /// Own rule: docs/COORDINATOR.md#votes.
    pub fn prepare<R: Wait>(&mut self, rt: &R, transaction: Transaction) -> Vote
        requires name { transaction.name.items ≡ self.old.name.items }
        requires stores { transaction.stores ≡ vec_len self.old.stores }
        ensures name { self.new.name ≡ self.old.name }
        ensures count { vec_len self.new.stores ≡ vec_len self.old.stores }
        // Proved (coordinator, finish-elsewhere)
        ensures elsewhere { KeepsOpen transaction.participants
            (asked_by_vote result) self.old.branches self.new.branches }
        // Proved (coordinator, finish-open)
        ensures cut { KeepsMark transaction result self.old.branches self.new.branches }
        // Proved (coordinator, votes): After a vote of Ready at least two stores take part, and each
        //   participant's `XA END` and `XA PREPARE` were added. After OnePhase one store takes part, and its
        //   `XA END` was added; after Nothing none does.
        // Proved (coordinator, vote-no): After a vote of No the named store didn't carry its statement out. The cause
        //   is the session's fault, or the server's refusal at a place not before what had been seen. The
        //   participants below it were ended and prepared; the stores above it got no statement.
        // Proved (coordinator, takes-from-limits)
        ensures vote { VotesAs S.view transaction result self.old.stores.items self.new.stores.items }
        // Proved (coordinator, agrees)
        ensures agrees { (decisions : List Decision) → EachStore S.view
            (Agrees decisions self.old.name.items) self.old.stores.items self.new.stores.items }
    {
        match transaction.participants.participation() {
            Participation::Nobody => Vote::Nothing,
            Participation::Single(store) => self.end_alone(rt, transaction, store),
            Participation::Several => self.prepare_each(rt, transaction),
        }
    }
}
