//! The work of one thread of a race.
ghost use Rattle.std.specs.Prelude.{◌≡◌, ℕ, IfOk, IfErr};
ghost use Rattle.xa_store.specs.declared.race_fault.RaceFault.{RaceFault};

use crate::RaceFault;
use decision_log::DecisionLog;
use std::sync::Wait;
use xa_session::Session;
use xa_xid::SessionNo;

/// The part of a race that one thread has: statements of one session.
///
/// `race` has tasks over a store of one log. A race over another store has tasks of its own, for `run_all`.
pub trait Task {
    /// What the thread returns if it does its part.
    type Gain;

    // the number of its session
    ghost number_of: { Self → ℕ };

    // what it returns if it does its part
    ghost gains: { Self → Self.Gain → Type 0 };

    // why it stops
    ghost stops: { Self → RaceFault → Type 0 };

    /// Returns the session's number, in `[1, 16]`.
    ///
    /// Takes no memory. Doesn't wait.
    fn number(&self) -> SessionNo
        ensures { result ≡ number_of self.now };

    /// Does this session's part of a race, on the thread that it was given.
    ///
    /// Errors: the reason for which the session stops. May wait.
    fn work<R: Wait>(self, rt: &R) -> Result<Self::Gain, RaceFault>
        ensures ok { IfOk result (gains self) }
        ensures fault { IfErr result (stops self) };
}

/// What a session's thread returns: the session, and its answers.
#[derive(Drop)]
pub(crate) struct Returned<'a, L: DecisionLog, D> {
    /// The session that the thread had.
    pub(crate) session: Session<'a, L>,
    /// What it was answered.
    pub(crate) done: D,
}
