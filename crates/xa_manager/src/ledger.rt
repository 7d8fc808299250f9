//! The transactions that were begun, and their stages.
ghost use Rattle.std.specs.Prelude.{◌≡◌, ◌≢◌, ◌<◌, ◌+◌, ◌-◌, ◌++◌, ◌∷◌, [], ◌⊎◌, length, take, Some, None, OnOk, OnErr};
ghost use Rattle.std.specs.Prelude.{IfOk, IfErr, IfSome};
ghost use Rattle.xa_manager.specs.Ledger.{stage_of, with_stage};
ghost use Rattle.xa_manager.specs.Refusals.{refusal_in, takes_work, takes_decision, takes_finish};

use crate::{Response, Stage};
use std::alloc::Global;
use std::marker::Model;
use std::mem;
use xa_coordinator::{Prepared, Transaction};
use xa_xid::NoMemory;

/// The transactions that were begun, 1, 2, .., with the stage of each.
///
/// A contract sees them as the list of their stages.
#[derive(Drop)]
pub struct Ledger {
    /// The stage of transaction n, at place n - 1.
    stages: Vec<Stage>,
}

impl Model for Ledger {
    ghost use Rattle.std.specs.Prelude.{List};
    ghost use Rattle.xa_manager.specs.declared.stage.Stage.{Stage};

    ghost Value = { List Stage };

    ghost view = { λ ledger. ledger.stages.items };
}

impl Ledger {
    /// Makes a ledger without a transaction.
    ///
    /// Takes no memory. Doesn't wait.
    pub fn new(alloc: Global) -> Ledger
        ensures { result ≡ [] }
    {
        Ledger {
            stages: Vec::new(alloc),
        }
    }

    /// Adds the next transaction.
    ///
    /// Errors: `NoMemory` if an allocation fails. After an error the ledger is as before.
    /// May return `NoMemory`. Doesn't wait.
    pub fn add(&mut self, stage: Stage) -> Result<(), NoMemory>
        ensures ok { OnOk result (self.new ≡ self.old ++ stage ∷ []) }
        ensures err { OnErr result (self.new ≡ self.old) }
    {
        self.stages.push(stage)?;
        Ok(())
    }

    /// Removes the last transaction, if there is one.
    ///
    /// Takes no memory. Doesn't wait.
    pub fn forget_last(&mut self)
        ensures { self.new ≡ take (length self.old - 1) self.old }
    {
        let _last = self.stages.pop();
    }

    /// The place of the transaction of this number in the list. None if no transaction of this number was begun.
    #[tactic(auto, unfolding(crate::specs::Ledger::stage_of))]
    fn place(&self, number: u64) -> Option<usize>
        ensures some { IfSome result (λ place. number ≡ place + 1) }
        ensures within { IfSome result (λ place. place < length self.now) }
        ensures none { result ≡ None → stage_of self.now number ≡ None }
        ensures absent { result ≡ None → (number ≡ 0) ⊎ (length self.now < number) }
    {
        // Transactions are numbered from 1 on, and none is left out.
        if number == 0 || number > self.stages.len() as u64 {
            return None;
        }
        Some((number - 1) as usize)
    }

    /// Takes out the stage of the transaction of this number, and leaves `Over` in its place. None, and nothing
    /// changes, if no transaction of this number was begun.
    #[tactic(auto, unfolding(crate::specs::Ledger::stage_of, crate::specs::Ledger::with_stage))]
    fn take(&mut self, number: u64) -> Option<Stage>
        ensures taken { result ≡ stage_of self.old number }
        ensures some { result ≢ None → self.new ≡ with_stage self.old number Stage.Over }
        ensures none { result ≡ None → self.new ≡ self.old }
    {
        let Some(place) = self.place(number) else {
            return None;
        };
        Some(mem::replace(&mut self.stages[place], Stage::Over))
    }

    /// Sets a transaction's stage, also after it was taken out. Nothing changes if none of this number was begun.
    ///
    /// Takes no memory. Doesn't wait.
    #[tactic(auto, unfolding(crate::specs::Ledger::stage_of, crate::specs::Ledger::with_stage))]
    pub fn put(&mut self, number: u64, stage: Stage)
        ensures { self.new ≡ with_stage self.old number stage }
    {
        let Some(place) = self.place(number) else {
            return;
        };
        self.stages[place] = stage;
    }

    /// Takes out a transaction that takes work. The ledger then says that it is over.
    ///
    /// `number`: the transaction's, any below 2^64. Errors: the response `UnknownTransaction` if it wasn't
    /// begun, `WrongStage` if it takes no more work.
    /// After an error the ledger is as before. Takes no memory. Doesn't wait.
    /// Own rule: docs/COORDINATOR.md#calls.
    pub fn take_working(&mut self, number: u64) -> Result<Transaction, Response>
        ensures taken { IfOk result (λ transaction. stage_of self.old number ≡ Some (Stage.Working transaction)) }
        ensures over { OnOk result (self.new ≡ with_stage self.old number Stage.Over) }
        ensures refused { IfErr result (λ refusal. refusal_in takes_work number (stage_of self.old number)
            ≡ Some refusal) }
        ensures kept { OnErr result (self.new ≡ self.old) }
    {
        match self.take(number) {
            None => Err(Response::UnknownTransaction(number)),
            Some(Stage::Working(transaction)) => Ok(transaction),
            // The call is refused, so the stage goes back.
            Some(stage) => {
                self.put(number, stage);
                Err(Response::WrongStage(number))
            }
        }
    }

    /// Takes out a transaction whose vote is Ready. Its place then says that it is over.
    ///
    /// `number`: the transaction's, any below 2^64. Errors: the response `UnknownTransaction` if it wasn't
    /// begun, `WrongStage` if it wasn't voted on, if its vote isn't Ready, or if it is over.
    /// After an error the ledger is as before. Takes no memory. Doesn't wait.
    /// Own rule: docs/COORDINATOR.md#calls.
    pub fn take_ready(&mut self, number: u64) -> Result<Prepared, Response>
        ensures taken { IfOk result (λ prepared. stage_of self.old number ≡ Some (Stage.Ready prepared)) }
        ensures over { OnOk result (self.new ≡ with_stage self.old number Stage.Over) }
        ensures refused { IfErr result (λ refusal. refusal_in takes_decision number (stage_of self.old number)
            ≡ Some refusal) }
        ensures kept { OnErr result (self.new ≡ self.old) }
    {
        match self.take(number) {
            None => Err(Response::UnknownTransaction(number)),
            Some(Stage::Ready(prepared)) => Ok(prepared),
            // The call is refused, so the stage goes back.
            Some(stage) => {
                self.put(number, stage);
                Err(Response::WrongStage(number))
            }
        }
    }

    /// Takes out a transaction that has a vote to finish: Ready, One Phase or No. Its place then says that it
    /// is over.
    ///
    /// `number`: the transaction's, any below 2^64. Errors: the response `UnknownTransaction` if it wasn't
    /// begun, `WrongStage` if it has no such vote or was finished.
    /// After an error the ledger is as before. Takes no memory. Doesn't wait.
    /// Own rule: docs/COORDINATOR.md#calls.
    pub fn take_voted(&mut self, number: u64) -> Result<Prepared, Response>
        ensures taken { IfOk result
            (λ prepared. (stage_of self.old number ≡ Some (Stage.Ready prepared))
            ⊎ (stage_of self.old number ≡ Some (Stage.Voted prepared))) }
        ensures over { OnOk result (self.new ≡ with_stage self.old number Stage.Over) }
        ensures refused { IfErr result (λ refusal. refusal_in takes_finish number (stage_of self.old number)
            ≡ Some refusal) }
        ensures kept { OnErr result (self.new ≡ self.old) }
    {
        match self.take(number) {
            None => Err(Response::UnknownTransaction(number)),
            Some(Stage::Ready(prepared)) => Ok(prepared),
            Some(Stage::Voted(prepared)) => Ok(prepared),
            // The call is refused, so the stage goes back.
            Some(stage) => {
                self.put(number, stage);
                Err(Response::WrongStage(number))
            }
        }
    }
}
