//! The calls of a transaction manager.

use xa_xid::Statement;

/// A call of a transaction manager, as a line spells it.
///
/// Transactions are numbered from 1, stores from 0. A number may be any below 2^64.
#[derive(Drop)]
pub enum Call {
    /// No call: a line of blanks, or a comment.
    Silent,
    /// The line can't be read. It has the byte at which its statement is wrong, or 0 if another part is.
    Unread(u64),
    /// Begin a transaction.
    Begin,
    /// Give a transaction's `GET`, `PUT` or `DEL` to a store.
    Work {
        /// The transaction.
        number: u64,
        /// The store.
        store: u64,
        /// The row statement.
        statement: Statement,
    },
    /// Have the stores of a transaction vote.
    Prepare(u64),
    /// Decide that a transaction commits.
    Decide(u64),
    /// Finish a transaction that was voted on.
    Finish(u64),
    /// Roll back a transaction that wasn't voted on.
    Abandon(u64),
    /// Let the coordinator's session in a store pass on so many more calls, and then return out of memory for
    /// each.
    Fail {
        /// The store.
        store: u64,
        /// How many more calls it passes on.
        calls: u64,
    },
    /// Replace the coordinator by a new one.
    Stop,
    /// Have the coordinator recover.
    Recover,
    /// Give a statement of the other client to a store.
    At {
        /// The store.
        store: u64,
        /// The statement.
        statement: Statement,
    },
    /// Show the stores' prepared branches and the decisions.
    Show,
}
