//! A global transaction that takes work, and one that was voted on.
ghost use Rattle.std.specs.Prelude.{◌≡◌, ◌<◌, ◌≤◌, ◌^◌, ℕ, true};
ghost use Rattle.xa_coordinator.specs.Participants.{takes_part};

use crate::participants::Participants;
use xa_xid::Bytes;

/// A global transaction that takes work: its number, its coordinator's name and count of stores, and the
/// stores that take part. `prepare` and `abandon` use it up.
#[derive(Debug, Drop)]
pub struct Transaction {
    /// Its number, in `[1, 1,000,000]`.
    pub(crate) number: u64,
    /// Its coordinator's name.
    pub(crate) name: Bytes,
    /// How many stores its coordinator has, in `[1, 16]`.
    pub(crate) stores: u8,
    /// The stores that take part.
    pub(crate) participants: Participants,
    // The number is written as 8 bytes of the gtrid.
    ghost eight_bytes: { number < 2 ^ 64 },
    // A coordinator has at most 16 stores.
    ghost among: { stores ≤ 16 },
    // Only these can take part.
    ghost within: { (store : ℕ) → takes_part participants store ≡ true → store < stores },
}

impl Transaction {
    /// Returns the transaction's number, in `[1, 1,000,000]`.
    ///
    /// Takes no memory. Doesn't wait.
    pub fn number(&self) -> u64
        ensures { result ≡ self.now.number }
    {
        self.number
    }

    /// Whether a store takes part. `store`: the store's number, from 0.
    ///
    /// Takes no memory. Doesn't wait.
    pub fn has(&self, store: u8) -> bool
        ensures { result ≡ takes_part self.now.participants store }
    {
        self.participants.contains(store)
    }
}

/// What the stores voted, without the transaction.
#[derive(Clone, Copy, Debug, PartialEq, Eq)]
pub enum VoteKind {
    /// Each participant is prepared.
    Ready,
    /// The only participant can be committed without being prepared.
    OnePhase,
    /// A participant isn't prepared.
    No,
}

/// A global transaction that was voted on, and takes no more work. `finish` uses it up.
#[derive(Debug, Drop)]
pub struct Prepared {
    /// The transaction, which takes no more work.
    pub(crate) transaction: Transaction,
    /// What the stores voted.
    pub(crate) vote_kind: VoteKind,
}

impl Prepared {
    /// Returns the transaction's number.
    ///
    /// Takes no memory. Doesn't wait.
    pub fn number(&self) -> u64
        ensures { result ≡ self.now.transaction.number }
    {
        self.transaction.number
    }
}
