//! Two sessions of a store in one value.
ghost use Rattle.std.specs.Prelude.{◌≡◌};
ghost use Rattle.xa_session.specs.View.{SessionView};
ghost use Rattle.xa_coordinator.specs.Beside.{IsLeftAlone, HoldsAsBefore, IsAnsweredSo};

use crate::Speak;
use std::sync::Wait;
use xa_session::{Answer, Fault};
use xa_xid::Statement;

/// A coordinator's session that holds another client's session of the same store.
pub trait Beside: Speak {
    // what a contract sees of the other client's session
    ghost other: { Self → SessionView };

    /// Has the other client's session answer a statement, as `execute` does for the coordinator's session.
    ///
    /// The coordinator's session gets no statement. Errors: those of the other client's session.
    /// May wait: no number of tries is promised.
    fn execute_other<R: Wait>(&mut self, rt: &R, statement: &Statement) -> Result<Answer, Fault>
        ensures given { IsAnsweredSo statement.now result (other self.old) (other self.new) }
        ensures alone { IsLeftAlone (Self.view self.old) (Self.view self.new) };

    // a call of the session itself leaves the other client's session as it was
    ghost steady: { (old new : Self) → HoldsAsBefore (Self.view old) (Self.view new) → other new ≡ other old };
}
