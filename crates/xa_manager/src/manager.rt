//! A transaction manager.
ghost use Rattle.std.specs.Prelude.{◌≡◌, ◌≤◌, ◌<◌, ℕ, Some, None, [], vec_len, length, slice_get, codes};
ghost use Rattle.xa_manager.specs.{Ledger.{stage_of, transaction_in, IsTransactionOf}, declared.stage.Stage.Stage};
ghost use Rattle.xa_manager.specs.declared.stage.Stage.TheVariants.{Ready as StageReady};
ghost use Rattle.xa_coordinator.specs.declared.transaction.VoteKind.TheVariants.{Ready as VoteKindReady};
ghost use Rattle.xa_coordinator.specs.declared.transaction.{Prepared.Prepared, Transaction.Transaction};

use crate::Ledger;
use std::alloc::Global;
use xa_coordinator::{Coordinator, Decisions, Speak};
use xa_xid::Bytes;

/// The name of the coordinator: the one byte `c`.
fn name() -> Bytes
    ensures { result.items ≡ codes "c" }
{
    let mut name = Bytes::new();
    name.push(b'c');
    name
}

/// A transaction manager: a coordinator with a session in each store, another client's session of each store,
/// the decisions, and the stage of each transaction.
///
/// If the coordinator's sessions hold the other clients' (`Beside`), calls are answered by `answer_beside`. Then
/// `other_clients` has as many stores of its own, which get no statement.
#[derive(Drop)]
pub struct Manager<C: Speak, T: Speak> {
    /// The coordinator, with its session in each store.
    pub(crate) coordinator: Coordinator<C>,
    /// The other client's session of each store; or a store that only fills its place, if the coordinator's session
    /// holds the other client's.
    pub(crate) other_clients: Vec<T>,
    /// The decisions, which outlive a coordinator that stops.
    pub(crate) decisions: Decisions,
    /// The stage of each transaction that was begun.
    pub(crate) ledger: Ledger,
    // Branches are named by this name: docs/COORDINATOR.md#calls.
    ghost named: { coordinator.name.items ≡ codes "c" },
    // `other_clients` has one for each store, also where it only fills a place.
    ghost pairs: { vec_len other_clients ≡ vec_len coordinator.stores },
    // Each number that was given has a transaction, at whatever stage.
    ghost counted: { length ledger ≡ length decisions },
    // Each transaction that is kept stands under its own number, is of the coordinator `c`, and is over as many stores.
    ghost kept: { (number : ℕ) (stage : Stage) (transaction : Transaction)
        → stage_of ledger number ≡ Some stage
        → transaction_in stage ≡ Some transaction
        → IsTransactionOf (vec_len coordinator.stores) number transaction },
    // What is kept as Ready was voted Ready, so it may be decided.
    ghost ready: { (number : ℕ) (prepared : Prepared) → stage_of ledger number ≡ Some (StageReady prepared)
        → prepared.vote_kind ≡ VoteKindReady },
}

impl<C: Speak, T: Speak> Manager<C, T> {
    /// Makes a manager over these sessions: the coordinator's and another client's of each store.
    ///
    /// Nothing has begun. There are 1 to 16 stores, and both lists are in their order. Over unbounded stores, which
    /// hold the other client's session too, `other_clients` has as many other stores.
    /// Takes no memory. Doesn't wait.
    #[tactic(auto, using(crate::proofs::Nothing::none_begun))]
    pub fn new(alloc: Global, sessions: Vec<C>, other_clients: Vec<T>) -> Manager<C, T>
        requires some { 1 ≤ vec_len sessions }
        requires most { vec_len sessions ≤ 16 }
        requires pairs { vec_len other_clients ≡ vec_len sessions }
        ensures stores { vec_len result.coordinator.stores ≡ vec_len sessions }
        ensures decisions { result.decisions ≡ [] }
        ensures ledger { result.ledger ≡ [] }
        ensures sessions { result.coordinator.stores ≡ sessions }
        ensures other_clients { result.other_clients ≡ other_clients }
        ensures free { (store : ℕ) → store < vec_len sessions
            → slice_get result.coordinator.branches store ≡ Some None }
    {
        Manager {
            coordinator: Coordinator::new(name(), sessions),
            other_clients,
            decisions: Decisions::new(alloc),
            ledger: Ledger::new(alloc),
        }
    }

    /// Returns the decisions.
    ///
    /// Takes no memory. Doesn't wait.
    pub fn decisions(&self) -> &Decisions
        ensures { result.now ≡ self.now.decisions }
    {
        &self.decisions
    }
}

impl<C: Speak, T: Speak + Drop> Manager<C, T> {
    /// Returns the coordinator's sessions. The stores get no statement.
    ///
    /// Takes no memory. Doesn't wait.
    pub fn into_sessions(self) -> Vec<C>
        ensures { result ≡ self.coordinator.stores }
    {
        let Manager { coordinator, .. } = self;
        coordinator.stop()
    }
}
