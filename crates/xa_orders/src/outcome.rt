//! The outcome of an order.

use xa_xid::SessionNo;

/// An outcome: what all lines are answered, and the order that gives it.
#[derive(Drop)]
pub struct Outcome {
    /// The sessions of the lines side by side, in the order in which these lines are carried out.
    pub order: Vec<SessionNo>,
    /// What all lines are answered, in the order of the script.
    pub text: Vec<u8>,
}
