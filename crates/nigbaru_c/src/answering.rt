//! How the session of a handle answers what a call asks for.
ghost use Rattle.std.specs.Prelude.{◌≡◌, Some, None};
ghost use Rattle.nigbaru_c.specs.{Asked.{Answers, Does}, Holds.{session_in, session_of}};
ghost use Rattle.nigbaru_c.specs.declared.asked.Asked.TheVariants.{For};

use crate::{Asked, Chair, Handle, Hold, Outcome, Told};
use std::alloc::Global;
use xa_endless::EndlessSession;
use xa_xid::Statement;

/// Has the session attempt once to answer a statement.
pub(crate) fn attempt(session: &mut EndlessSession, statement: &Statement) -> Outcome
    ensures { Answers (For statement.now) result (Some session.old) (Some session.new) }
{
    match session.attempt(statement) {
        Ok(answer) => Outcome::Answered(answer),
        Err(fault) => Outcome::Unanswered(fault),
    }
}

impl Chair {
    /// Has the session that is held attempt once to answer what is asked. If it is asked nothing, it does nothing. If
    /// none is held, the outcome is `Vacant`.
    fn answer(&mut self, asked: &Asked) -> Outcome
        ensures comes { Answers asked.now result (session_in self.old.hold) (session_in self.new.hold) }
        ensures same { session_in self.old.hold ≡ None → self.new.hold ≡ self.old.hold }
    {
        match &mut self.hold {
            Some(Hold::Session(session)) => match asked {
                Asked::For(statement) => attempt(session, statement),
                Asked::Unfit => Outcome::OutOfRange,
            },
            _ => Outcome::Vacant,
        }
    }
}

/// Has the handle's session attempt once to answer what is asked. If the handle holds no session, the outcome is
/// `Vacant`.
pub(crate) fn answer(alloc: Global, session: &mut Handle, asked: &Asked) -> Outcome
    ensures comes { Answers asked.now result (session_of session.old.held) (session_of session.new.held) }
    ensures same { session_of session.old.held ≡ None → session.new.held ≡ session.old.held }
{
    match session.empty(alloc) {
        // The handle gets its box back, whatever the outcome.
        Some(mut chair) => {
            let outcome = chair.answer(asked);
            session.fill(chair);
            outcome
        }
        None => Outcome::Vacant,
    }
}

/// Has the handle's session attempt once to answer what is asked, and tells C the outcome. Returns its status.
pub(crate) fn tell(alloc: Global, session: &mut Handle, asked: &Asked, told: &mut Told) -> u32
    ensures outcome { Does asked.now result told.new session.old.held session.new.held }
    ensures same { session_of session.old.held ≡ None → session.new.held ≡ session.old.held }
{
    let outcome = answer(alloc, session, asked);
    *told = Told::of(&outcome);
    outcome.number()
}
