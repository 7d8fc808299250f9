//! The rule of a ring.

use atomic_table::TableRule;
use decision_log::{LogWords, SeatView, Sizes};
use xa_words::Entry;

/// The rule of a ring. It holds between any two steps.
pub struct Turning;

// Proved (log, ring-one-history): Whatever the schedule of threads, what the passes of a ring have seen are prefixes of
//   one history, which grows only at its end. Each step keeps the rule that says so: `specs/RingRule.antt` (`cells`,
//   `fresh`), and `specs/LogRule.antt` (`seats`) in `decision_log`. Premises: atomic steps are sequentially consistent,
//   and a pass came from this log's `open`.
impl TableRule<Entry, SeatView, Sizes> for Turning {
    ghost use Rattle.decision_log.specs.Seats.{all_passes};
    ghost use Rattle.chain_log.specs.RingRule.{RingRule};

    ghost holds = { λ sizes state. RingRule sizes state.words state.views };

    ghost first = { all_passes };
}

impl LogWords for Turning {
    ghost use Rattle.chain_log.specs.RingRule.{try_word, newest_for};

    ghost newest = { newest_for };

    ghost tried = { try_word };
}
