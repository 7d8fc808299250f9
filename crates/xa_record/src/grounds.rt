//! What is told of an ILLEGAL verdict beside its answers.

use crate::exchange::Exchange;
use crate::reason::Reason;

/// What is told of an ILLEGAL verdict beside its answers.
#[derive(Drop)]
pub struct Grounds {
    /// What was seen at the verdict's line, and the call, if they were asked for.
    pub exchange: Option<Exchange>,
    /// An order that explains what is before that line, and the store after that order, if these were asked for, no
    /// smaller record was, and the limit was enough to find them.
    pub reason: Option<Reason>,
    /// A smaller record that no order explains either, if one was asked for and found.
    pub smaller: Option<Vec<u8>>,
}
