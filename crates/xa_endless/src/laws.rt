//! Laws that follow from the clauses of a coordinator's calls.
ghost use Rattle.std.specs.Prelude.{ℕ, List};
ghost use Rattle.xa_coordinator.specs.declared.decisions.Decision.{Decision};
ghost use Rattle.xa_session.specs.View.{SessionView};
ghost use Rattle.xa_endless.specs.Course.{Course, AgreesThroughout};

/// States that whatever a coordinator adds in a store agrees with its decisions, over any number of its calls.
///
/// This holds for every session that a coordinator can use. If the store has no end, the calls may go on without end.
/// Own rule: docs/COORDINATOR.md#stores-without-an-end.
pub fn calls_keep_agreement()
    // Proved (coordinator, agrees-throughout): Whatever a coordinator adds in a store, in any number of calls, agrees
    //   with its decisions, as they were at each call. This follows from the clause `agrees` of each call.
    ensures { (name : List ℕ) (store : ℕ) (decisions : List (List Decision)) (old new : SessionView)
        → Course name store decisions old new → AgreesThroughout name store decisions old new }
{}
