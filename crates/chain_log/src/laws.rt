//! Laws of the words of a chain at any moment, as contracts over its rule only.
ghost use mathlib.Core.Option.{Option, some};
ghost use lib.ListN.{get_elem?};
ghost use Rattle.std.specs.Prelude.{◌≡◌, ◌≢◌, ◌<◌, ◌≤◌, ◌+◌, ℕ, List, [], ◌∷◌, ◌++◌, length, set, slice_get};
ghost use Rattle.std.specs.Prelude.{slice_index, Some};
ghost use Rattle.xa_words.specs.{Entry.{Entry, IsEntry}, Words.words_of};
ghost use Rattle.decision_log.specs.declared.{sizes.Sizes.Sizes, view.{PassView.PassView, SeatView.SeatView}};
ghost use Rattle.decision_log.specs.{declared.view.SeatView.TheVariants.{Single, Pair}, Machine.Machine};
ghost use Rattle.decision_log.specs.{Passes.HasPasses, Atomic.{Atomic, Exchange, Does, Counts}, Observed.{MetAt, met}};
ghost use Rattle.decision_log.specs.MachineSteps.{StepsTo};
ghost use Rattle.chain_log.specs.{Cells.{name_at, newest_of}, Chain.Chain};
ghost use Rattle.chain_log.specs.{ChainRule.{own_cell, try_word, newest_for, Knows, ChainRule}, ChainSteps.IsChainStep};

/// States that the walk from the newest cell along the links spells the history.
///
/// This holds for any words and seats that keep the rule. Takes no memory. Doesn't wait.
/// Own rule: docs/INTERNALS.md#the-chain.
pub fn chain_is_the_history()
    // Proved (log, chain-is-the-history): The history of a chain is what the walk from the newest cell
    //   along the links spells, and the words spell no other history.
    ensures { (sizes : Sizes) (words : List ℕ) (views : List SeatView) (rule : ChainRule sizes words views)
        → Chain words rule.log }
{}

/// States that words spell at most one history.
///
/// Takes no memory. Doesn't wait.
/// Own rule: docs/INTERNALS.md#the-chain.
pub fn one_history_of_its_words()
    // Proved (log, chain-is-the-history)
    ensures { (words : List ℕ) (one other : List Entry) → Chain words one → Chain words other → one ≡ other }
{}

/// States that a pass has seen the whole history if the last cell that it has seen is still the newest.
///
/// Takes no memory. Doesn't wait.
/// Own rule: docs/INTERNALS.md#the-chain.
pub fn one_history_of_its_newest_cell()
    // Proved (log, newest-name-is-enough): A pass whose last cell is still the newest has seen the whole
    //   history.
    ensures { (sizes : Sizes) (words : List ℕ) (views : List SeatView) (rule : ChainRule sizes words views)
        (pass : PassView)
        → Knows sizes words rule.log pass
        → slice_index words 0 ≡ newest_of sizes.sessions pass.known.seen
        → pass.known.seen ≡ rule.log }
{}

/// States that the history has no entry of a pass's own number after all that the pass has seen.
///
/// Takes no memory. Doesn't wait.
/// Own rule: docs/INTERNALS.md#the-chain.
pub fn later_entries_are_of_others()
    // Proved (log, own-cell-is-free): After all that a pass has seen, the history has no entry of the
    //   pass's number.
    ensures { (sizes : Sizes) (words : List ℕ) (views : List SeatView) (rule : ChainRule sizes words views)
        (pass : PassView)
        → Knows sizes words rule.log pass
        → (row : ℕ) (entry : Entry)
        → length pass.known.seen ≤ row
        → slice_get rule.log row ≡ Some entry
        → entry.session ≢ pass.known.number }
{}

/// States that the history and the passes of a chain are a state of the log machine.
///
/// This holds for any words and seats that keep the rule. Takes no memory. Doesn't wait.
/// Own rule: docs/INTERNALS.md#the-chain.
pub fn passes_are_sessions_of_the_machine()
    // Proved (log, passes-are-sessions)
    ensures { (sizes : Sizes) (words : List ℕ) (views : List SeatView) (rule : ChainRule sizes words views)
        → (machine : Machine) × HasPasses sizes.sessions sizes.capacity rule.log views machine }
{}

/// States that a word that a pass stores into its own cell leaves the history unchanged.
///
/// The rule is taken to hold before and after the store. Takes no memory. Doesn't wait.
/// Own rule: docs/INTERNALS.md#the-chain.
pub fn store_keeps_the_history()
    // Proved (log, steps-keep-the-history)
    ensures { (sizes : Sizes) (words : List ℕ) (views views' : List SeatView) (rule : ChainRule sizes words views)
        (id : ℕ) (pass : PassView) (index word : ℕ)
        → get_elem? views id ≡ some (Single pass)
        → index ≤ length pass.draft
        → index < 22
        → length pass.known.seen < pass.capacity
        → (after : ChainRule sizes (set words (own_cell pass + index) word) views')
        → after.log ≡ rule.log }
{}

/// States that a won exchange appends the entry of the pass's own cell to the history.
///
/// An exchange is won if the newest cell's name is that of the last cell that the pass has seen. The rule is taken to
/// hold before and after it. Takes no memory. Doesn't wait.
/// Own rule: docs/INTERNALS.md#the-chain.
pub fn won_exchange_adds_its_entry()
    // Proved (log, steps-keep-the-history)
    ensures { (sizes : Sizes) (words : List ℕ) (views views' : List SeatView) (rule : ChainRule sizes words views)
        (id : ℕ) (pass : PassView) (entry : Entry)
        → get_elem? views id ≡ some (Single pass)
        → slice_index words 0 ≡ newest_of pass.sessions pass.known.seen
        → IsEntry entry
        → entry.session ≡ pass.known.number
        → pass.draft ≡ newest_of pass.sessions pass.known.seen ∷ words_of entry
        → length pass.known.seen < pass.capacity
        → (after : ChainRule sizes (set words 0 (name_at pass.sessions (length pass.known.seen) pass.known.number))
        views')
        → after.log ≡ rule.log ++ entry ∷ [] }
{}

/// States that a step by which a pass's `looks` rise leaves the history unchanged, and the pass has then
/// seen all of it.
///
/// The step loads the newest cell's name. Takes no memory. Doesn't wait.
/// Own rule: docs/INTERNALS.md#the-chain.
pub fn each_look_sees_the_history()
    // Proved (log, looks-and-tries)
    ensures { (sizes : Sizes) (words words' : List ℕ) (views views' : List SeatView)
        (before : ChainRule sizes words views)
        (after : ChainRule sizes words' views') (step : Atomic) (found id : ℕ) (old new : PassView)
        → Does step words found words'
        → Counts newest_for try_word step found old new
        → new.known.looks ≢ old.known.looks
        → get_elem? views' id ≡ some (Single new)
        → (new.known.seen ≡ after.log) × (after.log ≡ before.log) }
{}

/// States that a step by which a pass's `tries` rise exchanges the newest cell's name.
///
/// Takes no memory. Doesn't wait.
/// Own rule: docs/INTERNALS.md#the-chain.
pub fn each_try_exchanges_the_newest_cell()
    // Proved (log, looks-and-tries)
    ensures { (step : Atomic) (found : ℕ) (old new : PassView)
        → Counts newest_for try_word step found old new
        → new.known.tries ≢ old.known.tries
        → (from to : ℕ) × (said : Option Entry) × (step ≡ Exchange try_word from to said) }
{}

/// States that a step of a pass of a chain is nothing or one event of the log machine.
///
/// The rule is taken to hold before and after the step. Takes no memory. Doesn't wait.
/// Own rule: docs/INTERNALS.md#the-chain.
pub fn step_is_an_event()
    // Proved (log, steps-are-events)
    ensures { (sizes : Sizes) (words words' : List ℕ) (views : List SeatView) (before : ChainRule sizes words views)
        (id : ℕ) (step : Atomic) (found : ℕ) (old new : PassView)
        (after : ChainRule sizes words' (set views id (Single new)))
        → get_elem? views id ≡ some (Single old)
        → Does step words found words'
        → IsChainStep step old found new
        → StepsTo sizes.capacity before.log views after.log (set views id (Single new)) }
{}

/// States that a meeting of two passes of a chain is nothing or one event of the log machine.
///
/// The rule is taken to hold before and after it. Takes no memory. Doesn't wait.
/// Own rule: docs/INTERNALS.md#the-chain.
pub fn meeting_is_an_event()
    // Proved (log, steps-are-events)
    ensures { (sizes : Sizes) (words : List ℕ) (views : List SeatView) (before : ChainRule sizes words views)
        (id : ℕ) (first second : PassView) (seen : List Entry)
        (after : ChainRule sizes words (set views id (Pair first (met second seen))))
        → get_elem? views id ≡ some (Pair first second)
        → MetAt first second seen
        → (length second.known.seen < length first.known.seen → slice_index words 0 ≡ newest_for (met second seen))
        → StepsTo sizes.capacity before.log views after.log (set views id (Pair first (met second seen))) }
{}
