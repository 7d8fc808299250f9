//! A coordinator of global transactions over several stores.
ghost use Rattle.std.specs.Prelude.{◌≡◌, ◌≤◌, ◌<◌, ◌+◌, ◌++◌, ◌∷◌, [], ℕ, false, Some, None, Err, IfOk, OnOk, OnErr};
ghost use Rattle.std.specs.Prelude.{length, slice_get, vec_len};
ghost use Rattle.arrayvec.specs.ArrayVec.{array_vec_len};
ghost use Rattle.xa_coordinator.specs.{Limits.most_numbers, OpenBranches.OpenThere};

use crate::branches::OpenBranch;
use crate::participants::Participants;
use crate::{BeginFault, Decisions, Speak, Transaction};
use xa_xid::{Bytes, copy_of};

/// A coordinator of global transactions: a name, a session of each store, and what is open in each.
#[derive(Drop)]
pub struct Coordinator<S: Speak> {
    /// Its name, 1 to 56 bytes, with which the identifiers of its branches begin.
    pub(crate) name: Bytes,
    /// A session of each store, 1 to 16.
    pub(crate) stores: Vec<S>,
    /// The branch that it has open in each store, by the store's number.
    pub(crate) branches: [Option<OpenBranch>; 16],
    // With a number of 8 bytes behind it the name is a gtrid, which has at most 64.
    ghost named: { (1 ≤ array_vec_len name) × (array_vec_len name ≤ 56) },
    // A store's number fits into one byte, as branches are named.
    ghost sized: { (1 ≤ vec_len stores) × (vec_len stores ≤ 16) },
    // Proved (coordinator, open-there): Whatever a coordinator has open in a store, the session there has
    //   open.
    ghost open_there: { OpenThere S.view name.items stores.items branches },
}

impl<S: Speak> Coordinator<S> {
    ghost use Rattle.xa_coordinator.specs.{Participants.takes_part, declared.decisions.Decision.TheVariants.Undecided};

    /// Makes a coordinator that has nothing open in its stores.
    ///
    /// `name`: 1 to 56 bytes. `stores`: a session of each store, 1 to 16, numbered from 0. Use one name with
    /// the same stores in the same order and one set of decisions.
    /// Takes no memory. Doesn't wait.
    /// Own rule: docs/COORDINATOR.md#decisions.
    pub fn new(name: Bytes, stores: Vec<S>) -> Coordinator<S>
        requires named { (1 ≤ array_vec_len name) × (array_vec_len name ≤ 56) }
        requires sized { (1 ≤ vec_len stores) × (vec_len stores ≤ 16) }
        ensures name { result.name ≡ name }
        ensures stores { result.stores ≡ stores }
        // Proved (coordinator, nothing-open): Nothing is open in a new coordinator, in one that is restarted,
        //   and after a recovery that came to its end.
        ensures free { (store : ℕ) → store < vec_len stores → slice_get result.branches store ≡ Some None }
    {
        Coordinator {
            name,
            stores,
            // One place for each store that a coordinator may have. Those without a store stay empty.
            branches: [None; 16],
        }
    }

    /// Begins a global transaction of the next number, in which no store takes part yet.
    ///
    /// `decisions`: the decisions of this coordinator's name. Errors: `NumbersSpent` if 1,000,000 numbers
    /// were given, `NoMemory` if the decisions couldn't grow.
    /// After an error the decisions are as before.
    /// May return `NoMemory`. Doesn't wait.
    /// Own rule: docs/COORDINATOR.md#decisions.
    pub fn begin(&self, decisions: &mut Decisions) -> Result<Transaction, BeginFault>
        // Proved (coordinator, begin): Beginning gives the next number, undecided, to a transaction of this
        //   coordinator in which no store takes part.
        ensures number { IfOk result (λ transaction. transaction.number ≡ length decisions.old + 1) }
        // Proved (coordinator, begin)
        ensures name { IfOk result (λ transaction. transaction.name ≡ self.now.name) }
        // Proved (coordinator, begin)
        ensures stores { IfOk result (λ transaction. transaction.stores ≡ vec_len self.now.stores) }
        // Proved (coordinator, begin)
        ensures nobody { IfOk result (λ transaction. (store : ℕ) → takes_part transaction.participants store ≡ false) }
        // Proved (coordinator, begin)
        ensures undecided { OnOk result (decisions.new ≡ decisions.old ++ Undecided ∷ []) }
        // Proved (coordinator, begin-fails): `NumbersSpent` is returned exactly if all 1,000,000 numbers were
        //   given. A fault of `begin` leaves the decisions as they were.
        ensures err { OnErr result (decisions.new ≡ decisions.old) }
        // Proved (coordinator, begin-fails)
        ensures spent { result ≡ Err BeginFault.NumbersSpent → length decisions.old ≡ most_numbers }
        // Proved (coordinator, begin-fails)
        ensures full { length decisions.old ≡ most_numbers → result ≡ Err BeginFault.NumbersSpent }
    {
        let number = decisions.give()?;
        Ok(Transaction {
            number,
            name: copy_of(&self.name),
            stores: self.stores.len() as u8,
            participants: Participants::none(),
        })
    }

    /// Forgets what is open: the coordinator is then as a new one of the same name over the same sessions.
    ///
    /// The stores get no statement. Takes no memory. Doesn't wait.
    /// Own rule: docs/COORDINATOR.md#recovery.
    pub fn restart(&mut self)
        ensures name { self.new.name ≡ self.old.name }
        ensures stores { self.new.stores ≡ self.old.stores }
        // Proved (coordinator, nothing-open)
        ensures free { (store : ℕ) → store < vec_len self.new.stores → slice_get self.new.branches store ≡ Some None }
    {
        self.branches = [None; 16];
    }

    /// Returns the sessions. The stores get no statement.
    ///
    /// Takes no memory. Doesn't wait.
    pub fn stop(self) -> Vec<S>
        // Proved (coordinator, stop): Stopping a coordinator returns its sessions as they are.
        ensures { result ≡ self.stores }
    {
        let Coordinator { stores, .. } = self;
        stores
    }
}
