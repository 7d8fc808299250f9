//! The rule of a chain.

use atomic_table::TableRule;
use decision_log::{LogWords, SeatView, Sizes};
use xa_words::Entry;

/// The rule of a chain. It holds between any two steps.
pub struct Links;

// Proved (log, one-history)
impl TableRule<Entry, SeatView, Sizes> for Links {
    ghost use Rattle.decision_log.specs.Seats.{all_passes};
    ghost use Rattle.chain_log.specs.ChainRule.{ChainRule};

    ghost holds = { λ sizes state. ChainRule sizes state.words state.views };

    ghost first = { all_passes };
}

impl LogWords for Links {
    ghost use Rattle.chain_log.specs.ChainRule.{try_word, newest_for};

    ghost newest = { newest_for };

    ghost tried = { try_word };
}
