//! A session of a race over a store without an end, on its thread.
ghost use Rattle.std.specs.Prelude.{◌≡◌, ◌≤◌, [], length, vec_capacity};
ghost use Rattle.chain_log.specs.RingPass.{known_of};
ghost use Rattle.xa_store.specs.Gathered.{AddsNothing};

use crate::said::Said;
use crate::saying::say_out;
use std::sync::Wait;
use std::thread;
use xa_endless::EndlessSession;
use xa_store::{Gate, RaceFault, Task};
use xa_xid::{SessionNo, Statement};

/// A session with its statements, room for what it will be answered and will add, and the gate that it asks.
#[derive(Drop)]
pub(crate) struct Racer<'g, G> {
    pub(crate) session: EndlessSession,
    /// Its statements, in order.
    pub(crate) lines: Vec<Statement>,
    pub(crate) said: Said,
    /// The gate that is asked before each statement.
    pub(crate) gate: &'g G,
    // Before its thread runs it has no answer,
    ghost none: { said.answers.items ≡ [] },
    // and no entry.
    ghost nothing: { said.added.items ≡ [] },
    // There is room for all answers, so no thread takes memory for them.
    ghost answers: { length lines.items ≤ vec_capacity said.answers },
    // There is room for all entries that it may add, too.
    ghost added: { length lines.items ≤ vec_capacity said.added },
}

/// What a session's thread returns: the session, what it was answered and has added, and why it stopped, if it did.
#[derive(Drop)]
pub struct Raced {
    pub(crate) session: EndlessSession,
    pub(crate) said: Said,
    /// The fault for which one of its statements wasn't answered. None if all were.
    pub(crate) fault: Option<RaceFault>,
}

/// How often a session calls `leave_checkpoint` before it gives up. Most sessions use a checkpoint for a few steps
/// only, so mostly one can be had long before that.
const TURNS: u64 = 1_000_000;

/// Leaves a checkpoint that has replayed at least as much as the session, unless the store has none; gives up after
/// `TURNS` calls.
///
/// A session tends checkpoints only after its answers. Without this last one, a session that is behind might find none
/// to go on from.
#[tactic(auto, using(crate::proofs::Statements::rests_itself, crate::proofs::Statements::rests_more))]
fn leave_checkpoint(session: &mut EndlessSession)
    ensures store { session.new.store.value ≡ session.old.store.value }
    ensures rests { AddsNothing (known_of session.old.member.pass) (known_of session.new.member.pass) }
{
    for _ in 0..TURNS {
        // The call returns false while others use the checkpoints, and if memory is refused.
        if session.leave_checkpoint() {
            return;
        }
        thread::yield_now();
    }
}

impl<'g, G: Gate> Task for Racer<'g, G> {
    ghost use Rattle.xa_races.specs.Long.{known_in, HasRaced};

    type Gain = Raced;

    ghost number_of = { λ racer. (known_in racer.session).number };

    ghost gains = { λ racer raced. HasRaced (G.may_answer racer.gate.now) racer.session racer.lines.items raced };

    ghost stops = { λ _ _. ⊥ };

    fn number(&self) -> SessionNo {
        self.session.number()
    }

    /// Has the session say its statements, and returns it with what it was answered and has added. A fault is returned
    /// beside these, not as an error, so that each session comes back.
    fn work<R: Wait>(self, rt: &R) -> Result<Raced, RaceFault> {
        let Racer {
            mut session,
            lines,
            mut said,
            gate,
        } = self;
        let fault = say_out(rt, &mut session, lines.as_slice(), gate, &mut said);
        // A session that stopped at a fault adds no more either.
        leave_checkpoint(&mut session);
        Ok(Raced {
            session,
            said,
            fault,
        })
    }
}
