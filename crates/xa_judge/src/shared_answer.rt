//! An answer with several owners.
ghost use Rattle.std.specs.Prelude.{◌≡◌, true, IfOk};
ghost use Rattle.xa_judge.specs.Answers.{answer_kept};

use crate::answer::Answer;
use crate::kept_answer::KeptAnswer;
use std::alloc::Global;
use std::marker::Model;
use std::sync::Arc;
use xa_server::{Reply, SharedXid};
use xa_xid::{NoMemory, Xid};

/// An answer that several configurations and verdicts own. A contract sees the answer.
#[derive(Debug, Drop)]
pub struct SharedAnswer {
    shared: Arc<KeptAnswer>,
}

impl Model for SharedAnswer {
    ghost use Rattle.xa_judge.specs.{declared.answer.Answer.Answer as AnswerSeen, Answers.answer_kept};

    ghost Value = { AnswerSeen };

    ghost view = { λ answer. answer_kept answer.shared.value };
}

impl SharedAnswer {
    /// Returns an answer with one owner.
    ///
    /// May return `NoMemory`. Doesn't wait.
    pub fn of(alloc: Global, answer: Answer) -> Result<SharedAnswer, NoMemory>
        ensures { IfOk result (λ shared. shared ≡ answer) }
    {
        Ok(SharedAnswer {
            shared: Arc::new(alloc, KeptAnswer::Whole(answer))?,
        })
    }

    /// Returns the list of these identifiers, which other lists may own too, with one owner.
    ///
    /// May return `NoMemory`.
    pub(crate) fn of_list(alloc: Global, xids: Vec<SharedXid>) -> Result<SharedAnswer, NoMemory>
        ensures { IfOk result (λ shared. shared ≡ Answer.Reply (Reply.Recovered xids.items)) }
    {
        Ok(SharedAnswer {
            shared: Arc::new(alloc, KeptAnswer::Listed(xids))?,
        })
    }

    /// Returns one more owner of the answer, which isn't copied.
    ///
    /// Errors: `NoMemory` if there are too many owners to be counted. Takes no memory. Doesn't wait.
    pub fn try_clone(&self) -> Result<SharedAnswer, NoMemory>
        ensures { IfOk result (λ shared. shared ≡ self.now) }
    {
        Ok(SharedAnswer {
            shared: Arc::try_clone(&self.shared)?,
        })
    }

    /// Returns a copy of the answer.
    ///
    /// Errors: `NoMemory`, only for a list of identifiers.
    /// May return `NoMemory`. Doesn't wait.
    pub fn answer(&self, alloc: Global) -> Result<Answer, NoMemory>
        ensures { IfOk result (λ answer. answer ≡ self.now) }
    {
        self.shared.copy(alloc)
    }

    /// Returns the answer as it is kept.
    pub(crate) fn kept(&self) -> &KeptAnswer
        ensures { answer_kept result.now ≡ self.now }
    {
        &self.shared
    }

    /// Tells whether it is known to be this answer.
    pub(crate) fn is(&self, answer: &Answer) -> bool
        ensures { result ≡ true → self.now ≡ answer.now }
    {
        self.shared.is(answer)
    }

    /// Tells whether it is known to be the list of these identifiers.
    pub(crate) fn is_list(&self, xids: &[Xid]) -> bool
        ensures { result ≡ true → self.now ≡ Answer.Reply (Reply.Recovered xids.now) }
    {
        self.shared.is_list(xids)
    }

    /// Tells whether both are known to be the same.
    pub(crate) fn is_same(&self, other: &SharedAnswer) -> bool
        ensures { result ≡ true → self.now ≡ other.now }
    {
        self.shared.is_same(&other.shared)
    }
}
