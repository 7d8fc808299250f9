//! What a race of fresh sessions answers is explained, and what callers see of any run: laws, stated as contracts of
//! functions that do nothing.
ghost use Rattle.std.specs.Prelude.{◌≡◌, ◌≤◌, ℕ, None, List, length, map};
ghost use Rattle.xa_server.specs.State.{State};
ghost use Rattle.decision_log.specs.{Known.AllOf, Machine.IsState};
ghost use Rattle.xa_session.specs.{Replay.state_after, Timed.{Moment, Stage, Passes}, Linear.sights};
ghost use Rattle.xa_store.specs.{declared.{run.Run.Run, outcome.Outcome.Outcome}, Legal.IsOutcome};
ghost use Rattle.xa_judge.specs.{declared.event.Event.Event, Explained.Explained};
ghost use Rattle.nigbaru.specs.{Shown.IsRecordOf, Overlapping.{Lines, AreFreshRuns, AreLinesOf, IsExplainedOverlap}};

/// States that the answers of a race of fresh sessions are explained once they are written down as
/// overlapping calls. Does nothing when it is called.
///
/// The record is made so: each session calls for its first statement before any call returns. Each return
/// shows the answer that the race gave, and the session calls for its next statement right after it. Some
/// order of the returns makes such a record explained, from the state in which the race began. Nothing is
/// claimed about other orders.
/// Premises: there are at most 16 runs, of the sessions 1, 2 and so on in this order, whose passes have seen
/// nothing and added nothing, and each entry of the history is of one of these sessions. A race of a script
/// shows these premises itself. Sessions that did something before the race aren't covered.
/// Takes no memory. Doesn't wait. Own rule: docs/PROOF.md#from-one-call-to-linearizability.
pub fn race_is_explained()
    // Proved (records, race-is-explained): The answers of a race of at most 16 fresh sessions, whose history
    //   has only their entries, are explained when they are written down as overlapping calls, in some order
    //   of the returns.
    ensures { (base : State) (runs : List Run) (outcome : Outcome) (lines : Lines)
        → IsOutcome base runs outcome
        → AreFreshRuns runs
        → length runs ≤ 16
        → AllOf (length runs) outcome.history.items
        → AreLinesOf runs (map (λ answers. answers.items) outcome.answers.items) lines
        → IsExplainedOverlap base lines }
{}

/// States that what callers see of any run of the log machine is explained once it is written down as a record. Does
/// nothing when it is called.
///
/// The events stand in the record in the order in which they happened. Each return shows the reply of its answer. A
/// call that ended in a fault has an answer that isn't known. The sessions are 1 to 16; they may have done anything
/// before, and calls may be open at the end. Takes no memory. Doesn't wait.
/// Own rule: docs/PROOF.md#from-one-call-to-linearizability.
pub fn records_are_explained()
    // Proved (records, records-are-explained): Take a run of the log machine of sessions 1 to 16 whose calls end as the
    //   session theorem says. What callers see of it is explained, if it is written down as a record in the order in
    //   which it happened.
    ensures { (base : State) (moments : List Moment) (old new : Stage) (events : List Event)
        → IsState old.machine
        → ((session : ℕ) → old.calls session ≡ None)
        → Passes base moments old new
        → IsRecordOf (sights moments) events
        → Explained (state_after base old.machine.history) events }
{}
