//! What the stores of a transaction voted, as an answer.

use xa_coordinator::Cause;

/// What the stores of a transaction voted, as an answer, without the transaction.
#[derive(Drop)]
pub enum VoteAnswer {
    /// Each participant is prepared.
    Ready,
    /// The only participant can be committed without being prepared.
    OnePhase,
    /// No store takes part.
    Nothing,
    /// This store isn't prepared.
    No {
        /// The store.
        store: u8,
        /// Why it isn't.
        cause: Cause,
    },
}
