//! The result of a race over a store without an end.

use xa_endless::EndlessSession;
use xa_session::Answer;
use xa_words::Entry;

/// The result of a race over a store without an end, in which each statement of each run was answered.
#[derive(Drop)]
pub struct LongOutcome {
    /// The entries that were added in the race, in order.
    pub history: Vec<Entry>,
    /// For each run, in the order given, the answers to its statements, in order. Places count from the store's first
    /// entry.
    pub answers: Vec<Vec<Answer>>,
    /// For each run, in the order given, its session, which has seen the whole history.
    pub sessions: Vec<EndlessSession>,
}
