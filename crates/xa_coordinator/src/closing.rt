//! How a coordinator finishes a branch.
ghost use Rattle.std.specs.Prelude.{◌≡◌};

use xa_xid::{Statement, Xid};

/// How a coordinator finishes the branches of a transaction.
#[derive(Clone, Copy, Debug, PartialEq, Eq)]
pub enum Closing {
    /// `XA COMMIT` of prepared branches.
    InTwoPhases,
    /// `XA COMMIT .. ONE PHASE` of the only branch.
    InOnePhase,
    /// `XA ROLLBACK`.
    RollBack,
}

/// Whether the branch that was to be finished was known.
#[derive(Clone, Copy, Debug, PartialEq, Eq)]
pub enum Found {
    /// It was, and is finished.
    Closed,
    /// It wasn't: XAER_NOTA.
    Missing,
}

impl Closing {
    ghost use Rattle.xa_coordinator.specs.Outcomes.{finish_statement, ends_first as ends_first_by};

    /// The statement that finishes a branch in this way.
    pub(crate) fn statement(self, xid: Xid) -> Statement
        ensures { result ≡ finish_statement self xid }
    {
        match self {
            Closing::InTwoPhases => Statement::Commit {
                xid,
                one_phase: false,
            },
            Closing::InOnePhase => Statement::Commit {
                xid,
                one_phase: true,
            },
            Closing::RollBack => Statement::Rollback(xid),
        }
    }

    /// Whether `XA END` comes before the statement that finishes a branch: only before a rollback of a branch that
    /// takes work. `working`: whether the branch takes work.
    pub(crate) fn ends_first(self, working: bool) -> bool
        ensures { result ≡ ends_first_by self working }
    {
        // The vote has ended a branch that is to be committed.
        match self {
            Closing::InTwoPhases => false,
            Closing::InOnePhase => false,
            Closing::RollBack => working,
        }
    }
}
