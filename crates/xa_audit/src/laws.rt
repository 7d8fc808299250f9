//! Laws of audits, each as the contract of a function that does nothing.
ghost use Rattle.std.specs.{Prelude.{◌≡◌, ◌↔◌, ℕ, List, true}, List.{list_any, Contains}};
ghost use Rattle.xa_xid.specs.declared.xid.Xid.{Xid};
ghost use Rattle.xa_audit.specs.declared.{branch.Branch.Branch, verdict.Verdict.TheVariants.Mixed};
ghost use Rattle.xa_audit.specs.{Deeds.{deeds_in, deeds_about}, Globals.{Global, IsAccount, took, failed, verdict_of}};
ghost use Rattle.xa_audit.specs.Laws.{is_commit, took_in, failed_in, FailsBy, HasCommitted, HasDropped};

/// States that a branch took if, and only if, an `XA COMMIT` of it was accepted in its history.
///
/// Takes no memory. Doesn't wait.
/// Own rule: docs/HISTORIES.md#audits.
pub fn branch_takes_by_an_accepted_commit()
    // Proved (audit, took): Some life of a branch is COMMITTED if, and only if, its history has an accepted
    //   `XA COMMIT` of it.
    ensures { (history : List ℕ) (xid : Xid) → took_in history xid
        ≡ list_any is_commit (deeds_about xid (deeds_in history)) }
{}

/// States that a branch failed if, and only if, its writes were dropped: no `XA COMMIT` of it was accepted, and the
/// last of its lives wrote and was rolled back.
///
/// Takes no memory. Doesn't wait.
/// Own rule: docs/HISTORIES.md#audits.
pub fn branch_fails_by_dropped_writes()
    // Proved (audit, failed): A branch failed if, and only if, its history has no accepted `XA COMMIT` of it,
    //   and its last life has an accepted `PUT` or `DEL` and was rolled back.
    ensures { (store : ℕ) (history : List ℕ) (xid : Xid) → (failed_in store history xid ≡ true)
        ↔ FailsBy (deeds_about xid (deeds_in history)) }
{}

/// States that the verdict on a global transaction is MIXED if, and only if, one of its branches took (a life of it is
/// COMMITTED), and another one failed (no life of it is COMMITTED, and its last one is ROLLED BACK).
///
/// Takes no memory. Doesn't wait.
/// Own rule: docs/HISTORIES.md#audits.
pub fn mixed_is_one_that_took_and_one_that_failed()
    // Proved (audit, mixed): The verdict on a global transaction is MIXED if, and only if, one of its branches
    //   took, and one failed.
    ensures { (branches : List Branch)
        → (verdict_of branches ≡ Mixed) ↔ ((list_any took branches ≡ true) × (list_any failed branches ≡ true)) }
{}

/// States that the verdict on a global transaction is MIXED if, and only if, in the histories that are audited an
/// `XA COMMIT` of one branch of it was accepted, and another one failed: no `XA COMMIT` of that one was accepted, and
/// its last life wrote and was rolled back.
///
/// Takes no memory. Doesn't wait.
/// Own rule: docs/HISTORIES.md#audits.
pub fn mixed_is_a_commit_beside_dropped_writes()
    // Proved (audit, mixed-histories): In an audit of histories the verdict on a global transaction is MIXED exactly if
    //   two things hold. Some history has an accepted `XA COMMIT` of a branch of it. And some history has a branch of
    //   it without an accepted `XA COMMIT`, whose last life wrote and was rolled back.
    ensures { (histories : List (List ℕ)) (globals : List Global)
        → IsAccount histories globals → (global : Global) → Contains globals global
        → (verdict_of global.1 ≡ Mixed) ↔ (HasCommitted histories global.0 × HasDropped histories global.0) }
{}
