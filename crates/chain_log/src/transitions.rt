//! How each step changes what the pass knows. These types are only for proofs.
ghost use Rattle.decision_log.specs.Atomic.{AtLoad, AtStore, AtExchange};
ghost use Rattle.chain_log.specs.ChainTransitions.{Sees, Reads, Finds, Drafts, Exchanges};
ghost use Rattle.chain_log.specs.ChainCounts.{see_counts, read_counts, find_counts, draft_counts, exchange_counts};

use crate::Links;
use decision_log::LogTransition;

/// A load of the newest cell's name.
pub(crate) struct SeeAll;

impl LogTransition<Links> for SeeAll {
    ghost then = { AtLoad Sees };

    ghost counts = { see_counts };
}

/// A load of a word of a cell.
pub(crate) struct ReadWord;

impl LogTransition<Links> for ReadWord {
    ghost then = { AtLoad Reads };

    ghost counts = { read_counts };
}

/// A load of a word of the own cell that is to be 0.
pub(crate) struct FindBlank;

impl LogTransition<Links> for FindBlank {
    ghost then = { AtLoad Finds };

    ghost counts = { find_counts };
}

/// A store into the own cell.
pub(crate) struct DraftWord;

impl LogTransition<Links> for DraftWord {
    ghost then = { AtStore Drafts };

    ghost counts = { draft_counts };
}

/// An exchange of the newest cell's name for the own cell's. It announces the entry of the own cell.
pub(crate) struct Publish;

impl LogTransition<Links> for Publish {
    ghost then = { AtExchange Exchanges };

    ghost counts = { exchange_counts };
}
