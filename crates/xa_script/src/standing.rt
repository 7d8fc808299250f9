//! How far a transaction has come, as the answers to its calls show.

/// How far a transaction has come.
#[derive(Clone, Copy, Debug, PartialEq, Eq)]
pub enum Standing {
    /// It still takes work.
    Working,
    /// It has voted READY.
    Ready,
    /// It has voted ONE PHASE.
    OnePhase,
    /// It has voted NO.
    No,
    /// It has voted NOTHING.
    Nothing,
    /// It was finished.
    Finished,
    /// Its FINISH or ABANDON was answered UNFINISHED: a recovery is to end its branches that are left.
    Unfinished,
    /// It was abandoned.
    Abandoned,
}

impl Standing {
    /// Returns the words that describe such a transaction.
    pub fn words(self) -> &'static str {
        match self {
            Standing::Working => "still takes work, and PREPARE makes it vote",
            Standing::Ready => "has voted READY, and FINISH ends it",
            Standing::OnePhase => "has voted ONE PHASE, and FINISH commits it",
            Standing::No => "has voted NO, and FINISH rolls it back",
            Standing::Nothing => "has voted NOTHING, and is at its end",
            Standing::Finished => "is finished",
            Standing::Unfinished => "is unfinished, and RECOVER finishes it",
            Standing::Abandoned => "is abandoned",
        }
    }
}
