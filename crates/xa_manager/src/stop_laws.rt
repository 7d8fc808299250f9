//! Laws about what a recovery leaves after a stop, and about which entries change committed values.
ghost use Rattle.std.specs.Prelude.{◌≡◌, Some, slice_get, ◌++◌, ◌∷◌, [], Ok, List, ℕ, All};
ghost use Rattle.xa_coordinator.specs.declared.{report.Report.Report, store.LastingStore.LastingStore};
ghost use Rattle.xa_coordinator.specs.Lasting.{history_of};
ghost use Rattle.xa_manager.specs.declared.{call.Call.{Call, TheVariants.Recover}, response.Response.Response};
ghost use Rattle.xa_manager.specs.declared.response.Response.TheVariants.{Recovered};
ghost use Rattle.xa_manager.specs.Atomic.{IsPlain, KeepsToDecisions, LeavesBranches, AllOrNone, KeepsRowsOr};
ghost use Rattle.xa_manager.specs.Runs.{Managing, IsRun};
ghost use Rattle.xa_words.specs.Entry.{Entry};

/// States what the coordinator's sessions have added after calls, none of them `RECOVER`, and a completed
/// recovery. `FAIL` and `STOP` may be among the calls, so a coordinator may have stopped anywhere.
///
/// Everything that they ever added goes with the decisions as they are then (`GoesWith`), and none of the
/// coordinator's branches is prepared.
/// Own rule: docs/COORDINATOR.md#stops.
pub fn recovery_keeps_to_decisions()
    // Proved (coordinator, recovery-keeps-to-decisions): Let a run of a manager's calls over unbounded stores begin
    //   with nothing, and let only its last call be `RECOVER`, answered with a report. Then all that the coordinator
    //   added goes with the final decisions, wherever a coordinator was stopped by `FAIL` and `STOP`, and whatever
    //   other clients do. None of its branches is prepared.
    // Proved (coordinator, goes-with-decisions): `XA COMMIT` goes with the decisions if it is of a decided
    //   transaction, or with ONE PHASE of an undecided one that has a branch in no other store. `XA ROLLBACK`
    //   does if it is of an undecided one.
    ensures { (stores : ℕ) (told : List Call) (responses : List Response) (report : Report) (last : Managing)
        → All IsPlain told
        → IsRun stores (told ++ Recover ∷ []) (responses ++ Recovered (Ok report) ∷ []) last
        → KeepsToDecisions last }
{}

/// States that each transaction is in all stores in which the coordinator began a branch of it, or in none, after
/// calls, none of them `RECOVER`, and a completed recovery.
///
/// A decided one was committed in each. One that isn't decided was committed in none, or only with ONE PHASE, and then
/// the coordinator began a branch of it in no other store. Another condition is that no call has another client commit
/// or roll back a branch of the coordinator's naming.
/// Own rule: docs/COORDINATOR.md#stops.
pub fn transactions_stand_whole_or_not_at_all()
    // Proved (coordinator, whole-or-not-at-all): Let a run of a manager's calls begin with nothing and end in its only
    //   `RECOVER`, which completes. Then a decided transaction was committed in each store in which the coordinator
    //   began a branch of it, with all writes of that branch at once. This holds wherever a coordinator was stopped by
    //   `FAIL` and `STOP`. An undecided one was committed, by whomever, only with ONE PHASE, and then the coordinator
    //   began a branch of it in no other store. Premise: no `AT` commits or rolls back a branch of the coordinator's
    //   naming.
    ensures { (stores : ℕ) (told : List Call) (responses : List Response) (report : Report) (last : Managing)
        → All IsPlain told
        → All LeavesBranches told
        → IsRun stores (told ++ Recover ∷ []) (responses ++ Recovered (Ok report) ∷ []) last
        → AllOrNone last }
{}

/// States that in a store's history only commits, and writes of sessions without an open branch, change a
/// committed value.
///
/// Own rule: docs/STATEMENTS.md#rows-and-locks.
pub fn commits_change_rows()
    // Proved (scripts, commits-change-rows): In the history of an unbounded store only commits, and
    //   writes of sessions that have no branch open, change a committed value.
    ensures { (kept : LastingStore) (place : ℕ) (entry : Entry)
        → slice_get (history_of kept) place ≡ Some entry → KeepsRowsOr kept place entry }
{}
