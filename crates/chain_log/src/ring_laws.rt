//! What holds of the words of a ring at any moment, as contracts that name only its rule.
ghost use mathlib.Core.Option.{Option, some};
ghost use lib.ListN.{get_elem?};
ghost use Rattle.std.specs.Prelude.{◌≡◌, ◌≢◌, ◌<◌, ◌≤◌, ◌+◌, ◌⊎◌, ℕ, List, [], ◌∷◌, ◌++◌, length, set, slice_get};
ghost use Rattle.std.specs.Prelude.{slice_index, Some};
ghost use Rattle.xa_words.specs.{Entry.{Entry, IsEntry}, Words.words_of};
ghost use Rattle.decision_log.specs.declared.{sizes.Sizes.Sizes, view.{PassView.PassView, SeatView.SeatView}};
ghost use Rattle.decision_log.specs.declared.view.{SeatView.TheVariants.{Single, Pair}, Turn.TheVariants.Without};
ghost use Rattle.decision_log.specs.{Draft.HasWordsAt, Machine.Machine, Passes.HasPasses};
ghost use Rattle.decision_log.specs.{Atomic.{Atomic, Exchange, Does, Counts}, Observed.met, MachineSteps.StepsTo};
ghost use Rattle.chain_log.specs.{Cells.newest_of, Places.{rows_of, cell_of, cell_words}};
ghost use Rattle.chain_log.specs.RingRule.{own_name, own_cell, try_word, newest_for, least, Knows, RingRule};
ghost use Rattle.chain_log.specs.{RingTransitions.{won, stored}, RingSteps.IsRingStep};

/// States that the words spell the last entries of the history: one fewer than there are rows.
///
/// This holds for any words and seats that keep the rule. Takes no memory. Doesn't wait.
/// Own rule: docs/INTERNALS.md#the-ring.
pub fn words_spell_the_last_entries()
    // Proved (log, ring-last-entries): The words of a ring spell the last entries of its history, one fewer than there
    //   are rows. They spell no other entries there, and no history of another length.
    ensures { (sizes : Sizes) (words : List ℕ) (views : List SeatView) (rule : RingRule sizes words views) (place : ℕ)
        (entry : Entry)
        → slice_get rule.log place ≡ Some entry
        → length rule.log < place + rows_of sizes.capacity
        → HasWordsAt words (cell_of sizes.capacity place entry.session)
        (cell_words sizes.sessions rule.log place entry) }
{}

/// States that two histories of the same words have the same length and the same last entries, one fewer than there
/// are rows.
///
/// Takes no memory. Doesn't wait.
/// Own rule: docs/INTERNALS.md#the-ring.
pub fn one_history_of_its_words()
    // Proved (log, ring-last-entries)
    ensures { (sizes : Sizes) (words : List ℕ) (views views' : List SeatView) (one : RingRule sizes words views)
        (other : RingRule sizes words views')
        → (length one.log ≡ length other.log)
        × ((place : ℕ) → length one.log < place + rows_of sizes.capacity
        → slice_get one.log place ≡ slice_get other.log place) }
{}

/// States that a pass has seen the whole history if the last entry that it has seen is still the newest.
///
/// Cells are used again, but no name is. Takes no memory. Doesn't wait.
/// Own rule: docs/INTERNALS.md#the-ring.
pub fn one_history_of_its_newest_name()
    // Proved (log, ring-newest-name): A pass of a ring has seen the whole history if its last entry is still the
    //   newest.
    ensures { (sizes : Sizes) (words : List ℕ) (views : List SeatView) (rule : RingRule sizes words views)
        (pass : PassView)
        → Knows sizes words rule.log pass
        → slice_index words 0 ≡ newest_of sizes.sessions pass.known.seen
        → pass.known.seen ≡ rule.log }
{}

/// States that the history has no entry of a pass's own number after all that the pass has seen.
///
/// Takes no memory. Doesn't wait.
/// Own rule: docs/INTERNALS.md#the-ring.
pub fn later_entries_are_of_others()
    // Proved (log, ring-later-entries): After all that a pass of a ring has seen, the history has no entry of the
    //   pass's number.
    ensures { (sizes : Sizes) (words : List ℕ) (views : List SeatView) (rule : RingRule sizes words views)
        (pass : PassView)
        → Knows sizes words rule.log pass
        → (place : ℕ) (entry : Entry)
        → length pass.known.seen ≤ place
        → slice_get rule.log place ≡ Some entry
        → entry.session ≢ pass.known.number }
{}

/// States that the history has at least as many entries as a pass knows of.
///
/// Takes no memory. Doesn't wait.
/// Own rule: docs/INTERNALS.md#the-ring.
pub fn history_has_the_least()
    // Proved (log, ring-least): The history of a ring has at least as many entries as each of its passes knows of.
    ensures { (sizes : Sizes) (words : List ℕ) (views : List SeatView) (rule : RingRule sizes words views) (id : ℕ)
        (pass : PassView)
        → get_elem? views id ≡ some (Single pass)
        → least pass ≤ length rule.log }
{}

/// States that the history and the passes of a ring are a state of the log machine.
///
/// This holds for any words and seats that keep the rule. Takes no memory. Doesn't wait.
/// Own rule: docs/INTERNALS.md#the-ring.
pub fn passes_are_sessions_of_the_machine()
    // Proved (log, ring-machine): At any moment the history of a ring and what its passes know are a state of the log
    //   machine.
    ensures { (sizes : Sizes) (words : List ℕ) (views : List SeatView) (rule : RingRule sizes words views)
        → (machine : Machine) × HasPasses sizes.sessions sizes.capacity rule.log views machine }
{}

/// States that after a pass stores the name of its next entry into its own cell, the rule holds with the same history.
///
/// This holds whatever entries had the cell before. Takes no memory. Doesn't wait.
/// Own rule: docs/INTERNALS.md#the-ring.
pub fn stored_name_keeps_the_history()
    // Proved (log, ring-steps): After a store of a ring's pass the rule holds with the same history. After a won
    //   exchange it holds with the entry of the pass's cell appended.
    ensures { (sizes : Sizes) (words : List ℕ) (views : List SeatView) (rule : RingRule sizes words views) (id : ℕ)
        (pass : PassView)
        → get_elem? views id ≡ some (Single pass)
        → (after : RingRule sizes (set words (own_cell pass) (own_name pass))
        (set views id (Single (stored pass 0 (own_name pass)))))
        × (after.log ≡ rule.log) }
{}

/// States that after a pass stores any word but the first into its own cell, the rule holds with the same history.
///
/// The name and all words before this one are stored already. Takes no memory. Doesn't wait.
/// Own rule: docs/INTERNALS.md#the-ring.
pub fn stored_word_keeps_the_history()
    // Proved (log, ring-steps)
    ensures { (sizes : Sizes) (words : List ℕ) (views : List SeatView) (rule : RingRule sizes words views) (id : ℕ)
        (pass : PassView) (index word : ℕ)
        → get_elem? views id ≡ some (Single pass)
        → pass.turn ≡ Without
        → 0 < index
        → index ≤ length pass.draft
        → index < 23
        → (after : RingRule sizes (set words (own_cell pass + index) word)
        (set views id (Single (stored pass index word))))
        × (after.log ≡ rule.log) }
{}

/// States that after a won exchange the rule holds with the entry of the pass's own cell appended to the history.
///
/// An exchange is won if the newest name is the name of the last entry that the pass has seen. Takes no memory.
/// Doesn't wait.
/// Own rule: docs/INTERNALS.md#the-ring.
pub fn won_exchange_adds_its_entry()
    // Proved (log, ring-steps)
    ensures { (sizes : Sizes) (words : List ℕ) (views : List SeatView) (rule : RingRule sizes words views) (id : ℕ)
        (pass : PassView) (entry : Entry)
        → get_elem? views id ≡ some (Single pass)
        → slice_index words 0 ≡ newest_for pass
        → IsEntry entry
        → entry.session ≡ pass.known.number
        → pass.turn ≡ Without
        → pass.draft ≡ own_name pass ∷ newest_for pass ∷ words_of entry
        → length pass.known.seen < pass.capacity
        → (after : RingRule sizes (set words 0 (own_name pass)) (set views id (Single (won pass entry))))
        × (after.log ≡ rule.log ++ entry ∷ []) }
{}

/// States that a step by which a pass's `looks` rise leaves the history as long as it was, and the pass has then seen
/// all of it.
///
/// The step loads the newest name. Takes no memory. Doesn't wait.
/// Own rule: docs/INTERNALS.md#the-ring.
pub fn each_look_sees_the_history()
    // Proved (log, ring-looks-and-tries): A step by which `looks` of a ring's pass rises leaves the history as long as
    //   it was, and the pass has then seen all of it. A step by which `tries` rises exchanges word 0.
    ensures { (sizes : Sizes) (words words' : List ℕ) (views views' : List SeatView)
        (before : RingRule sizes words views)
        (after : RingRule sizes words' views') (step : Atomic) (found id : ℕ) (old new : PassView)
        → Does step words found words'
        → Counts newest_for try_word step found old new
        → new.known.looks ≢ old.known.looks
        → get_elem? views' id ≡ some (Single new)
        → (new.known.seen ≡ after.log) × (length after.log ≡ length before.log) }
{}

/// States that a step by which a pass's `tries` rise exchanges the newest name.
///
/// Takes no memory. Doesn't wait.
/// Own rule: docs/INTERNALS.md#the-ring.
pub fn each_try_exchanges_the_newest_name()
    // Proved (log, ring-looks-and-tries)
    ensures { (step : Atomic) (found : ℕ) (old new : PassView)
        → Counts newest_for try_word step found old new
        → new.known.tries ≢ old.known.tries
        → (from to : ℕ) × (said : Option Entry) × (step ≡ Exchange try_word from to said) }
{}

/// States that after a step of a pass of a ring the rule holds, and the step is nothing or one event of the log
/// machine.
///
/// The words of a ring spell only the last entries, so its history is the one that goes on from the history before the
/// step. Takes no memory. Doesn't wait.
/// Own rule: docs/INTERNALS.md#the-ring.
pub fn step_is_an_event()
    // Proved (log, steps-are-events)
    ensures { (sizes : Sizes) (words words' : List ℕ) (views : List SeatView) (before : RingRule sizes words views)
        (id : ℕ) (old new : PassView)
        → get_elem? views id ≡ some (Single old)
        → IsRingStep before.log words old words' new
        → (after : RingRule sizes words' (set views id (Single new)))
        × StepsTo sizes.capacity before.log views after.log (set views id (Single new)) }
{}

/// States that after a meeting of two passes of a ring the rule holds, and the meeting is nothing or one event of the
/// log machine.
///
/// The second pass has then seen what it had, or the whole history. Takes no memory. Doesn't wait.
/// Own rule: docs/INTERNALS.md#the-ring.
pub fn meeting_is_an_event()
    // Proved (log, steps-are-events)
    ensures { (sizes : Sizes) (words : List ℕ) (views : List SeatView) (before : RingRule sizes words views)
        (id : ℕ) (first second : PassView) (seen : List Entry)
        → get_elem? views id ≡ some (Pair first second)
        → (seen ≡ second.known.seen) ⊎ (seen ≡ before.log)
        → (after : RingRule sizes words (set views id (Pair first (met second seen))))
        × StepsTo sizes.capacity before.log views after.log (set views id (Pair first (met second seen))) }
{}
