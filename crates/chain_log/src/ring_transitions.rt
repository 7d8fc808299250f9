//! What each step does, and what its pass learns. Only the proofs use these types.
ghost use Rattle.decision_log.specs.Atomic.{AtLoad, AtStore, AtExchange};
ghost use Rattle.chain_log.specs.RingTransitions.{Sees, Checks, Reads, Finds, Drafts, Exchanges};
ghost use Rattle.chain_log.specs.RingCounts.{see_counts, check_counts, read_counts, find_counts, draft_counts};
ghost use Rattle.chain_log.specs.RingCounts.{exchange_counts};

use crate::Turning;
use decision_log::LogTransition;

/// A load of the newest entry's name.
pub(crate) struct SeeAll;

impl LogTransition<Turning> for SeeAll {
    ghost then = { AtLoad Sees };

    ghost counts = { see_counts };
}

/// A load of the name in a cell.
pub(crate) struct CheckName;

impl LogTransition<Turning> for CheckName {
    ghost then = { AtLoad Checks };

    ghost counts = { check_counts };
}

/// A load of a word of a cell that the pass reads.
pub(crate) struct ReadWord;

impl LogTransition<Turning> for ReadWord {
    ghost then = { AtLoad Reads };

    ghost counts = { read_counts };
}

/// A load of a word of the own cell.
pub(crate) struct FindWord;

impl LogTransition<Turning> for FindWord {
    ghost then = { AtLoad Finds };

    ghost counts = { find_counts };
}

/// A store into the own cell.
pub(crate) struct DraftWord;

impl LogTransition<Turning> for DraftWord {
    ghost then = { AtStore Drafts };

    ghost counts = { draft_counts };
}

/// An exchange of the newest entry's name for the own one. It announces the entry of the own cell.
pub(crate) struct Publish;

impl LogTransition<Turning> for Publish {
    ghost then = { AtExchange Exchanges };

    ghost counts = { exchange_counts };
}
