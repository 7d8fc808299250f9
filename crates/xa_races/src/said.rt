//! What a session was answered in a race, and what it added.

use crate::added::Added;
use xa_session::Answer;

/// What a session was answered so far, and what it has added so far, both in order.
#[derive(Drop)]
pub struct Said {
    /// An answer for each statement that was answered.
    pub(crate) answers: Vec<Answer>,
    /// The entries of those statements that were logged.
    pub(crate) added: Vec<Added>,
}
