//! A run on its thread.

use crate::answering::answers_to;
use crate::task::{Returned, Task};
use crate::{Gate, RaceFault};
use decision_log::DecisionLog;
use std::alloc::Global;
use std::sync::Wait;
use xa_session::{Answer, Session};
use xa_xid::{SessionNo, Statement};

/// A run whose session is connected, and the gate that it asks.
#[derive(Drop)]
pub(crate) struct Started<'a, L: DecisionLog, G> {
    /// The session that executes the statements.
    pub(crate) session: Session<'a, L>,
    /// Its statements, in order.
    pub(crate) lines: Vec<Statement>,
    /// Where memory for the answers is taken from.
    pub(crate) alloc: Global,
    /// The gate that is asked before each statement.
    pub(crate) gate: &'a G,
}

impl<'a, L: DecisionLog, G: Gate> Task for Started<'a, L, G>
where
    L::Pass: Drop,
{
    ghost use Rattle.xa_store.specs.{Legal.Stops, Spread.HasRun};

    type Gain = Returned<'a, L, Vec<Answer>>;

    ghost number_of = { λ run. (L.known run.session.pass).number };

    ghost gains = { λ run gone. HasRun L.belongs_to L.known
        (G.may_answer run.gate.now) run.session.base.now run.session.pass run.lines.items
        gone.session.base.now gone.session.pass gone.done.items };

    ghost stops = { λ run fault. Stops (G.may_answer run.gate.now) run.session.base.now
        (L.belongs_to run.session.pass).capacity (L.known run.session.pass)
        run.lines.items fault };

    fn number(&self) -> SessionNo {
        self.session.number()
    }

    /// Answers the run's statements in order, and returns the session with all answers. Errors: as for `answers_to`;
    /// the session is then dropped.
    fn work<R: Wait>(self, rt: &R) -> Result<Returned<'a, L, Vec<Answer>>, RaceFault> {
        let Started {
            mut session,
            lines,
            alloc,
            gate,
        } = self;
        let done = answers_to(rt, alloc, &mut session, lines.as_slice(), gate)?;
        Ok(Returned { session, done })
    }
}
