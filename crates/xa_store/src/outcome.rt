//! The result of a race.

use crate::Pass;
use xa_session::Answer;
use xa_words::Entry;

/// The result of a race in which each statement of each run was answered.
#[derive(Drop)]
pub struct Outcome {
    /// The history that explains the answers: what the last of the passes has seen.
    ///
    /// It is empty if there was no run.
    pub history: Vec<Entry>,
    /// For each run, in the order given, the answers to its statements, in order.
    pub answers: Vec<Vec<Answer>>,
    /// For each run, in the order given, its pass.
    pub passes: Vec<Pass>,
}
