//! The responses to calls.

use crate::{Listing, VoteAnswer};
use xa_coordinator::{Ending, RecoverFault, Report, WorkFault};
use xa_server::Reply;
use xa_session::Fault;

/// The response to a call.
#[derive(Drop)]
pub enum Response {
    /// The line is no call, and has no answer.
    Silent,
    /// The line can't be read. It has the byte at which its statement is wrong, or 0 if another part is.
    Unread(u64),
    /// There is no store of this number.
    UnknownStore(u64),
    /// No transaction of this number was begun.
    UnknownTransaction(u64),
    /// The transaction isn't in a stage that allows the call.
    WrongStage(u64),
    /// The transaction of this number began.
    Begun(u64),
    /// All numbers were given.
    NumbersSpent,
    /// What the coordinator's `work` returned.
    Worked(Result<Reply, WorkFault>),
    /// What the stores voted.
    Voted(VoteAnswer),
    /// The transaction is decided: it commits.
    Decided,
    /// The transaction's number is closed, so it can't be decided.
    Closed,
    /// How the transaction ended.
    Ended(Ending),
    /// The coordinator's session in a store was limited.
    Limited,
    /// A new coordinator has replaced the old one.
    Stopped,
    /// What a recovery did, or why it failed.
    Recovered(Result<Report, RecoverFault>),
    /// The answer of another client's session, with identifiers in hexadecimal digits if `convert`.
    Replied {
        /// Whether recovered identifiers are printed in hexadecimal digits.
        convert: bool,
        /// The answer.
        answer: Result<Reply, Fault>,
    },
    /// The answers of the other clients' sessions to `XA RECOVER CONVERT XID`. The decisions are written
    /// after them.
    Shown(Listing),
}
