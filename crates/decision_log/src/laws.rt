//! Laws of the log as a machine, and of the passes of a log with a turn: contracts over definitions only.
ghost use mathlib.Core.Option.{Option, some};
ghost use lib.ListN.{get_elem?};
ghost use Rattle.std.specs.Prelude.{◌≡◌, ◌≢◌, ◌<◌, ◌≤◌, ◌+◌, ℕ, List, [], ◌∷◌, ◌++◌, length, set, slice_index};
ghost use Rattle.xa_words.specs.{Entry.{Entry, IsEntry}, Words.words_of};
ghost use Rattle.decision_log.specs.declared.view.{PassView.PassView, SeatView.{SeatView, TheVariants.{Single, Pair}}};
ghost use Rattle.decision_log.specs.{declared.{view.Turn.TheVariants.Fresh, sizes.Sizes.Sizes}, History.entries_of};
ghost use Rattle.decision_log.specs.{Machine.{Machine, Event, Runs, opening_machine, IsState}, Known.AllOf};
ghost use Rattle.decision_log.specs.{Reached.IsReached, Passes.HasPasses, Atomic.{Atomic, Exchange, Does, Counts}};
ghost use Rattle.decision_log.specs.{MachineSteps.{Moves, StandsFor, StepsTo}, Observed.{MetAt, met}, Seats.all_passes};
ghost use Rattle.decision_log.specs.{TurnSteps.IsTurnStep, TurnRule.{row_at, turn_word, count_for, TurnRule}};

/// States that after any looks and appends, the entries of a session's number in what it has seen are its own.
///
/// Takes no memory. Doesn't wait.
/// Own rule: docs/INTERNALS.md#what-a-log-promises.
pub fn mine_is_the_own_part_of_seen()
    // Proved (log, own-entries)
    ensures { (capacity : ℕ) (events : List Event) (machine : Machine)
        → Runs events (opening_machine capacity) machine
        → (session : ℕ)
        → entries_of session (machine.knows session).seen ≡ (machine.knows session).mine }
{}

/// States that after any looks and appends, what each session knows fits the history.
///
/// Takes no memory. Doesn't wait.
/// Own rule: docs/INTERNALS.md#what-a-log-promises.
pub fn what_happens_leads_to_states()
    // Proved (log, machine-states): Every list of looks and appends leads to a state of the log machine. To
    //   each state whose entries are all of sessions 1 to S such a list leads, as far as the history and
    //   sessions 1 to S are concerned.
    ensures { (capacity : ℕ) (events : List Event) (machine : Machine) → Runs events (opening_machine capacity) machine
        → IsState machine }
{}

/// States the converse: if what each session knows fits the history, looks and appends lead to that history, and to
/// what sessions 1 to a number know.
///
/// All entries of the history are of these sessions, and so are the looks and appends. Takes no memory. Doesn't wait.
/// Own rule: docs/INTERNALS.md#what-a-log-promises.
pub fn states_are_reached()
    // Proved (log, machine-states)
    ensures { (sessions : ℕ) (machine : Machine) → IsState machine → AllOf sessions machine.history
        → IsReached sessions machine }
{}

/// States that the history and the passes of a log with a turn are a state of the log machine.
///
/// This holds for any words and seats that keep the log's rule. Takes no memory. Doesn't wait.
/// Own rule: docs/INTERNALS.md#the-log-with-a-turn.
pub fn passes_are_sessions_of_the_machine()
    // Proved (log, passes-are-sessions): At any moment the history of a log and what its passes know are a
    //   state of the log machine, and a list of looks and appends of the log's sessions leads there.
    ensures { (sizes : Sizes) (words : List ℕ) (views : List SeatView) (rule : TurnRule sizes words views)
        → (machine : Machine) × HasPasses sizes.sessions sizes.capacity rule.log views machine }
{}

/// States that taking the turn and giving it back leave the history unchanged.
///
/// The rule is taken to hold before and after the step. Takes no memory. Doesn't wait.
/// Own rule: docs/INTERNALS.md#the-log-with-a-turn.
pub fn turn_keeps_the_history()
    // Proved (log, steps-keep-the-history): No step that changes a word changes an entry of the history or
    //   removes one. A stored word leaves the history unchanged. A won exchange, or the count that the pass
    //   with the turn stores, puts one entry at its end.
    ensures { (sizes : Sizes) (words : List ℕ) (views views' : List SeatView) (rule : TurnRule sizes words views)
        (turn : ℕ)
        (after : TurnRule sizes (set words 1 turn) views')
        → after.log ≡ rule.log }
{}

/// States that a word stored by the pass with the turn leaves the history unchanged.
///
/// The pass has looked since it took the turn, and the word is in the row after all that it has seen. The rule is taken
/// to hold before and after the store. Takes no memory. Doesn't wait.
/// Own rule: docs/INTERNALS.md#the-log-with-a-turn.
pub fn store_keeps_the_history()
    // Proved (log, steps-keep-the-history)
    ensures { (sizes : Sizes) (words : List ℕ) (views views' : List SeatView) (rule : TurnRule sizes words views)
        (id : ℕ) (pass : PassView) (index word : ℕ)
        → get_elem? views id ≡ some (Single pass)
        → pass.turn ≡ Fresh
        → index ≤ length pass.draft
        → index < 21
        → length pass.known.seen < pass.capacity
        → (after : TurnRule sizes (set words (row_at (length pass.known.seen) + index) word) views')
        → after.log ≡ rule.log }
{}

/// States that the count stored by the pass with the turn, one higher, appends the entry of its draft.
///
/// The pass has looked since it took the turn. The rule is taken to hold before and after the store. Takes no memory.
/// Doesn't wait.
/// Own rule: docs/INTERNALS.md#the-log-with-a-turn.
pub fn stored_count_adds_its_entry()
    // Proved (log, steps-keep-the-history)
    ensures { (sizes : Sizes) (words : List ℕ) (views views' : List SeatView) (rule : TurnRule sizes words views)
        (id : ℕ) (pass : PassView) (entry : Entry)
        → get_elem? views id ≡ some (Single pass)
        → pass.turn ≡ Fresh
        → IsEntry entry
        → entry.session ≡ pass.known.number
        → pass.draft ≡ words_of entry
        → length pass.known.seen < pass.capacity
        → (after : TurnRule sizes (set words 0 (length pass.known.seen + 1)) views')
        → after.log ≡ rule.log ++ entry ∷ [] }
{}

/// States that a step by which a pass's `looks` rise leaves the history unchanged, and the pass has then
/// seen all of it.
///
/// The step loads the count. Takes no memory. Doesn't wait.
/// Own rule: docs/INTERNALS.md#the-log-with-a-turn.
pub fn each_look_sees_the_history()
    // Proved (log, looks-and-tries): A step by which `looks` rises leaves the history unchanged, and the
    //   pass has then seen all of it. A step by which `tries` rises exchanges the turn's word, or word 0 of
    //   a chain.
    ensures { (sizes : Sizes) (words words' : List ℕ) (views views' : List SeatView)
        (before : TurnRule sizes words views)
        (after : TurnRule sizes words' views') (step : Atomic) (found id : ℕ) (old new : PassView)
        → Does step words found words'
        → Counts count_for turn_word step found old new
        → new.known.looks ≢ old.known.looks
        → get_elem? views' id ≡ some (Single new)
        → (new.known.seen ≡ after.log) × (after.log ≡ before.log) }
{}

/// States that a step by which a pass's `tries` rise exchanges the turn's word.
///
/// Takes no memory. Doesn't wait.
/// Own rule: docs/INTERNALS.md#the-log-with-a-turn.
pub fn each_try_exchanges_the_turn()
    // Proved (log, looks-and-tries)
    ensures { (step : Atomic) (found : ℕ) (old new : PassView)
        → Counts count_for turn_word step found old new
        → new.known.tries ≢ old.known.tries
        → (from to : ℕ) × (said : Option Entry) × (step ≡ Exchange turn_word from to said) }
{}

/// States that a step of a pass of a log with a turn is nothing or one event of the log machine.
///
/// The rule is taken to hold before and after the step. Takes no memory. Doesn't wait.
/// Own rule: docs/INTERNALS.md#the-log-with-a-turn.
pub fn step_is_an_event()
    // Proved (log, steps-are-events): A step on the words of a log is nothing or one event of the log machine, and so
    //   is a meeting of passes. A move of seats is nothing.
    ensures { (sizes : Sizes) (words words' : List ℕ) (views : List SeatView) (before : TurnRule sizes words views)
        (id : ℕ) (step : Atomic) (found : ℕ) (old new : PassView)
        (after : TurnRule sizes words' (set views id (Single new)))
        → get_elem? views id ≡ some (Single old)
        → Does step words found words'
        → IsTurnStep step old found new
        → StepsTo sizes.capacity before.log views after.log (set views id (Single new)) }
{}

/// States that a meeting of two passes of a log with a turn is nothing or one event of the log machine.
///
/// The rule is taken to hold before and after it. Takes no memory. Doesn't wait.
/// Own rule: docs/INTERNALS.md#the-log-with-a-turn.
pub fn meeting_is_an_event()
    // Proved (log, steps-are-events)
    ensures { (sizes : Sizes) (words : List ℕ) (views : List SeatView) (before : TurnRule sizes words views)
        (id : ℕ) (first second : PassView) (seen : List Entry)
        (after : TurnRule sizes words (set views id (Pair first (met second seen))))
        → get_elem? views id ≡ some (Pair first second)
        → MetAt first second seen
        → (length second.known.seen < length first.known.seen → slice_index words 0 ≡ count_for (met second seen))
        → StepsTo sizes.capacity before.log views after.log (set views id (Pair first (met second seen))) }
{}

/// States that where seats are split or joined, or a pass is issued, nothing happens to the log machine.
///
/// Takes no memory. Doesn't wait.
/// Own rule: docs/INTERNALS.md#what-both-logs-share.
pub fn moves_of_seats_are_no_events()
    // Proved (log, steps-are-events)
    ensures { (capacity : ℕ) (log : List Entry) (views views' : List SeatView) (machine : Machine)
        → Moves views views'
        → StandsFor capacity log views machine
        → StandsFor capacity log views' machine }
{}

/// States that the machine at its start stands for a log whose passes aren't issued yet.
///
/// Takes no memory. Doesn't wait.
/// Own rule: docs/INTERNALS.md#what-both-logs-share.
pub fn log_begins_as_the_machine()
    // Proved (log, steps-are-events)
    ensures { (sizes : Sizes)
        → StandsFor sizes.capacity [] (all_passes sizes ∷ []) (opening_machine sizes.capacity) }
{}
