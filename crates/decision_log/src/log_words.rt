//! What a log states about its own words, and about each step on them.
ghost use Rattle.std.specs.Prelude.{ℕ};
ghost use Rattle.atomic_table.specs.Table.{State};
ghost use Rattle.xa_words.specs.Entry.{Entry};
ghost use Rattle.decision_log.specs.{declared.view.PassView.PassView, Atomic.{Atomic, Counts}};

use crate::{SeatView, Sizes};
use atomic_table::TableRule;
use xa_words::Entry;

/// The rule of a log, and the words at which a pass looks and tries. It has no value at run time.
pub trait LogWords: TableRule<Entry, SeatView, Sizes> {
    // what word 0 is if the pass has seen the whole history
    ghost newest: { PassView → ℕ };

    // the word that a pass exchanges when it tries to append
    ghost tried: { ℕ };
}

/// How one kind of step changes what the pass that takes it knows. It has no value at run time.
pub trait LogTransition<R: LogWords> {
    // of the step, the pass before, the number found (at a store, the number stored) and the pass after
    ghost then: { Atomic → PassView → ℕ → PassView → Type 0 };

    // whatever else changes, the counts rise as they should
    // Proved (log, counts)
    ghost counts: { (step : Atomic) (old : PassView) (found : ℕ) (new : PassView) → then step old found new
        → Counts R.newest R.tried step found old new };
}
