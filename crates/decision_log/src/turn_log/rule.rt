//! The rule of a log with a turn.

use crate::{LogWords, SeatView, Sizes};
use atomic_table::TableRule;
use xa_words::Entry;

/// The rule of a log with a turn. It holds between any two steps.
pub struct Turns;

// Proved (log, one-history): Whatever the schedule of threads, what the passes of a log have seen are
//   prefixes of one history, which grows only at its end. Each step keeps the rule of its log that says so:
//   `specs/TurnRule.antt` (`rows`), or in `chain_log` `specs/ChainRule.antt` (`cells`), and `specs/LogRule.antt`
//   (`seats`). Premises: atomic steps are sequentially consistent, and a pass came from this log's `open`.
impl TableRule<Entry, SeatView, Sizes> for Turns {
    ghost use Rattle.decision_log.specs.{Seats.all_passes, TurnRule.TurnRule};

    ghost holds = { λ sizes state. TurnRule sizes state.words state.views };

    ghost first = { all_passes };
}

impl LogWords for Turns {
    ghost use Rattle.decision_log.specs.TurnRule.{turn_word, count_for};

    ghost newest = { count_for };

    ghost tried = { turn_word };
}
