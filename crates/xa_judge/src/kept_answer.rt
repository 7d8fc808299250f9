//! Answers as configurations keep them.
ghost use Rattle.std.specs.Prelude.{◌≡◌, true, IfOk};
ghost use Rattle.xa_judge.specs.Answers.{answer_kept};

use crate::answer::Answer;
use crate::same::{is_same_listed, is_same_lists, is_same_rows};
use std::alloc::Global;
use xa_server::{Reply, SharedXid, XidList};
use xa_xid::{NoMemory, Xid};

/// An answer as configurations keep it.
#[derive(Debug, Drop)]
pub enum KeptAnswer {
    /// The answer itself.
    Whole(Answer),
    /// A list of these identifiers, which other lists may own too.
    Listed(Vec<SharedXid>),
}

/// Whether an answer is known to be the list of these identifiers.
fn is_list_of(answer: &Answer, xids: &[Xid]) -> bool
    ensures { result ≡ true → answer.now ≡ Answer.Reply (Reply.Recovered xids.now) }
{
    match answer {
        Answer::Reply(Reply::Recovered(others)) => is_same_rows(others.as_slice(), xids),
        _ => false,
    }
}

/// Whether an answer is known to be the list of these identifiers, which other lists may own too.
fn is_listed(answer: &Answer, xids: &[SharedXid]) -> bool
    ensures { result ≡ true → answer.now ≡ Answer.Reply (Reply.Recovered xids.now) }
{
    match answer {
        Answer::Reply(Reply::Recovered(others)) => is_same_listed(others.as_slice(), xids),
        _ => false,
    }
}

/// Copies of the identifiers, in their order.
fn apart(alloc: Global, xids: &[SharedXid]) -> Result<Vec<Xid>, NoMemory>
    ensures { IfOk result (λ list. list.items ≡ xids.now) }
{
    let mut list = Vec::with_capacity(alloc, xids.len())?;
    for xid in xids {
        list.push(xid.xid().copy())?;
    }
    Ok(list)
}

impl KeptAnswer {
    /// Returns a copy of the answer. If a list is kept, its identifiers are copied, so none is shared.
    ///
    /// May return `NoMemory`.
    pub fn copy(&self, alloc: Global) -> Result<Answer, NoMemory>
        ensures { IfOk result (λ answer. answer ≡ answer_kept self.now) }
    {
        match self {
            KeptAnswer::Whole(answer) => answer.copy(),
            KeptAnswer::Listed(xids) => {
                let list = XidList::of(apart(alloc, xids.as_slice())?);
                Ok(Answer::Reply(Reply::Recovered(list)))
            }
        }
    }

    /// Tells whether the kept answer is known to be `other`.
    pub fn is(&self, other: &Answer) -> bool
        ensures { result ≡ true → answer_kept self.now ≡ other.now }
    {
        match self {
            KeptAnswer::Whole(answer) => answer.is_same(other),
            KeptAnswer::Listed(xids) => is_listed(other, xids.as_slice()),
        }
    }

    /// Tells whether the kept answer is known to be the list of these identifiers.
    pub fn is_list(&self, xids: &[Xid]) -> bool
        ensures { result ≡ true → answer_kept self.now ≡ Answer.Reply (Reply.Recovered xids.now) }
    {
        match self {
            KeptAnswer::Whole(answer) => is_list_of(answer, xids),
            KeptAnswer::Listed(own) => is_same_listed(xids, own.as_slice()),
        }
    }

    /// Tells whether both are known to be the same answer, in whichever way each is kept.
    pub fn is_same(&self, other: &KeptAnswer) -> bool
        ensures { result ≡ true → answer_kept self.now ≡ answer_kept other.now }
    {
        match self {
            KeptAnswer::Whole(answer) => other.is(answer),
            KeptAnswer::Listed(xids) => match other {
                KeptAnswer::Whole(answer) => is_listed(answer, xids.as_slice()),
                KeptAnswer::Listed(others) => is_same_lists(xids.as_slice(), others.as_slice()),
            },
        }
    }
}
