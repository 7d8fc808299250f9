//! How an audit ends.

/// How an audit ends.
#[derive(Clone, Copy, Debug, PartialEq, Eq)]
pub enum Ended {
    /// Each global transaction is ATOMIC.
    AllAtomic,
    /// Some global transaction isn't ATOMIC.
    SomeNotAtomic,
    /// A line of some history isn't read.
    Unread,
}
