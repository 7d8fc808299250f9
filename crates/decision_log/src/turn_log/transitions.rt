//! How each step changes what the pass knows. These types are only for proofs.
ghost use Rattle.decision_log.specs.Atomic.{AtLoad, AtStore, AtExchange};
ghost use Rattle.decision_log.specs.TurnTransitions.{Sees, Reads, Takes, Drafts, Publishes, Releases};
ghost use Rattle.decision_log.specs.TurnCounts.{see_counts, read_counts, take_counts, draft_counts, publish_counts};
ghost use Rattle.decision_log.specs.TurnCounts.{release_counts};

use super::Turns;
use crate::LogTransition;

/// A load of the count.
pub(super) struct SeeAll;

impl LogTransition<Turns> for SeeAll {
    ghost then = { AtLoad Sees };

    ghost counts = { see_counts };
}

/// A load of a word of a row.
pub(super) struct ReadWord;

impl LogTransition<Turns> for ReadWord {
    ghost then = { AtLoad Reads };

    ghost counts = { read_counts };
}

/// A try to take the turn.
pub(super) struct TakeTurn;

impl LogTransition<Turns> for TakeTurn {
    ghost then = { AtExchange Takes };

    ghost counts = { take_counts };
}

/// A store into the row at the count.
pub(super) struct DraftWord;

impl LogTransition<Turns> for DraftWord {
    ghost then = { AtStore Drafts };

    ghost counts = { draft_counts };
}

/// A store of the count.
pub(super) struct Publish;

impl LogTransition<Turns> for Publish {
    ghost then = { AtStore Publishes };

    ghost counts = { publish_counts };
}

/// A store of 0 to the turn.
pub(super) struct Release;

impl LogTransition<Turns> for Release {
    ghost then = { AtStore Releases };

    ghost counts = { release_counts };
}
