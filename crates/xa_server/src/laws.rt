//! Laws of every state and every history, each as the contract of a function that does nothing.
ghost use Rattle.std.specs.{Prelude.{◌≡◌, ◌≢◌, ◌↔◌, ℕ, ◌<◌, true, false, List, IsTrue}, List.list_any};
ghost use Rattle.std.specs.List.Sorted.{IsStrictlySortedBy};
ghost use Rattle.xa_xid.specs.{declared.{xid.Xid.Xid, statement.Statement.Statement}, Xid.{same_xid, xid_cmp}};
ghost use Rattle.xa_server.specs.{State.{State, no_state, is_prepared, prepared_xids}, Locks.LockLaw, Replies.reply_to};
ghost use Rattle.xa_server.specs.{Step.{after, after_all, enters, is_refused}, Finish.FinishesAt};
ghost use Rattle.xa_server.specs.Laws.{IsPreparedBetween, LeavesSession};

use crate::{BranchState, XaError};

/// States that refusals are equal exactly if they are the same, with the same state.
///
/// Takes no memory. Doesn't wait.
pub fn same_refusals(left: &XaError, right: &XaError) -> bool
    // Proved (statements, equal-refusals-and-entries): Refusals, their states and log entries are equal
    //   exactly if they are the same.
    ensures { IsTrue result ↔ (left.now ≡ right.now) }
{
    left == right
}

/// States that the states of refusals are equal exactly if they are the same.
///
/// Takes no memory. Doesn't wait.
pub fn same_states(left: &BranchState, right: &BranchState) -> bool
    // Proved (statements, equal-refusals-and-entries)
    ensures { IsTrue result ↔ (left.now ≡ right.now) }
{
    left == right
}

/// States that a refused statement changes nothing, in any state.
///
/// Takes no memory. Doesn't wait.
/// Own rule: docs/STATEMENTS.md#replies.
pub fn refused_statement_changes_nothing()
    // Proved (server, refusal-changes-nothing): A statement that is refused, or that isn't logged, changes
    //   nothing.
    ensures { (state : State) (session : ℕ) (statement : Statement)
        → is_refused (reply_to state session statement) ≡ true
        → after state session statement ≡ state }
{}

/// States that a statement that isn't logged changes nothing, in any state.
///
/// Takes no memory. Doesn't wait.
/// Own rule: docs/STATEMENTS.md#which-statements-are-logged.
pub fn statement_outside_history_changes_nothing()
    // Proved (server, refusal-changes-nothing)
    ensures { (state : State) (session : ℕ) (statement : Statement) → enters state session statement ≡ false
        → after state session statement ≡ state }
{}

/// States that there is an accepted `XA PREPARE` of a branch between any two of its finishes in one
/// history.
///
/// So a prepared branch is finished at most once for each time that it was prepared. This holds for any state in which
/// the history begins. Takes no memory. Doesn't wait.
/// Source: MySQL 8.0 Reference Manual, 'XA Transaction States'.
pub fn prepared_branch_finishes_once()
    // Proved (server, finished-once): Between two finishes of a prepared branch in one history there is an accepted
    //   `XA PREPARE` of it. So a prepared branch is finished at most once for each time that it was prepared.
    ensures { (base : State) (history : List (ℕ × Statement)) (first second : ℕ) (xid : Xid)
        → first < second
        → FinishesAt base history first xid
        → FinishesAt base history second xid
        → IsPreparedBetween base history first second xid }
{}

/// States that a statement of one session leaves what another session has open, if the lock law holds.
///
/// The other session owns the same branch, and the branch has the same phase, writes and locks. Takes no
/// memory. Doesn't wait.
/// Own rule: docs/STATEMENTS.md#branches.
pub fn statement_leaves_other_sessions()
    // Proved (server, other-sessions-unchanged): If the lock law holds, a statement of one session leaves
    //   what another session has open.
    ensures { (state : State)
        → LockLaw state
        → (session other : ℕ) (statement : Statement)
        → session ≢ other
        → LeavesSession state (after state session statement) other }
{}

/// States that the list of `XA RECOVER` has exactly the PREPARED branches, each once, ascending.
///
/// Takes no memory. Doesn't wait.
/// Source: MySQL 8.0 Reference Manual, 'XA Transaction SQL Statements'; the order is our own.
pub fn recovered_list_is_exact()
    // Proved (server, recovered-list): `XA RECOVER` lists exactly the PREPARED branches, strictly
    //   ascending.
    ensures ascending { (state : State) → IsStrictlySortedBy xid_cmp (prepared_xids state) }
    // Proved (server, recovered-list)
    // Proved (sessions, recover-at-a-prefix)
    ensures exact { (state : State) (xid : Xid) → list_any (same_xid xid) (prepared_xids state)
        ≡ is_prepared state xid }
{}

/// States that the state with no branches keeps the lock law, and that each statement and each history
/// keeps it.
///
/// The lock law: a row that one branch holds exclusively is held by no other branch; a session owns at most
/// one branch; exactly the PREPARED branches have no owner; and a branch writes only rows that it holds
/// exclusively. Takes no memory. Doesn't wait.
/// Own rule: docs/STATEMENTS.md#rows-and-locks.
pub fn lock_law_is_kept()
    // Proved (server, lock-law)
    ensures empty { LockLaw no_state }
    // Proved (server, lock-law)
    ensures step { (state : State) (session : ℕ) (statement : Statement) → LockLaw state
        → LockLaw (after state session statement) }
    // Proved (server, lock-law)
    ensures history { (state : State) (history : List (ℕ × Statement)) → LockLaw state
        → LockLaw (after_all state history) }
{}
