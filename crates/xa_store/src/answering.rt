//! One session executes its statements, one after another.
ghost use Rattle.std.specs.Prelude.{◌≡◌, IfOk, IfErr};
ghost use Rattle.xa_session.specs.Stays.{Stays};
ghost use Rattle.xa_store.specs.{Legal.{fault_at, EndsOne, GoesNoFurther, Stops}, Spread.HasRun};

use crate::{Gate, RaceFault};
use decision_log::DecisionLog;
use std::alloc::Global;
use std::sync::Wait;
use xa_session::{Answer, Fault, Session};
use xa_xid::{SessionNo, Statement};

/// The fault of a run whose session couldn't execute its statement at `line`, counted from 0 in the run.
fn unanswered(session: SessionNo, line: u64, fault: Fault) -> RaceFault
    ensures { result ≡ fault_at session line fault }
{
    match fault {
        Fault::Full => RaceFault::Full { session, line },
        // Besides `Full`, `execute` returns only `NoMemory`.
        _ => RaceFault::NoMemory,
    }
}

/// Asks the gate, then executes the session's statement at `line`, counted from 0 in its run. Errors: as for
/// `answers_to`.
fn answer_one<L: DecisionLog, G: Gate, R: Wait>(
    rt: &R,
    session: &mut Session<'_, L>,
    line: u64,
    statement: &Statement,
    gate: &G,
) -> Result<Answer, RaceFault>
    ensures stays { Stays session.old session.new }
    ensures ends { EndsOne (G.may_answer gate.now) session.old.base.now
        (L.belongs_to session.old.pass).capacity statement.now line result
        (L.known session.old.pass) (L.known session.new.pass) }
{
    let number = session.number();
    // A shut gate stops this run, before its statement is given.
    if !gate.enter(number, line) {
        return Err(RaceFault::GateShut {
            session: number,
            line,
        });
    }
    match session.execute(rt, statement) {
        Ok(answer) => Ok(answer),
        Err(fault) => Err(unanswered(number, line, fault)),
    }
}

/// Returns the answers to all of a session's statements, in order.
///
/// Errors, at the first statement that isn't answered: `GateShut` if the gate stops the run there, `Full` if
/// the history has no room for it, `NoMemory`. `NoMemory` also before the first, if there is no room for the answers.
pub(crate) fn answers_to<L: DecisionLog, G: Gate, R: Wait>(
    rt: &R,
    alloc: Global,
    session: &mut Session<'_, L>,
    lines: &[Statement],
    gate: &G,
) -> Result<Vec<Answer>, RaceFault>
    ensures ok { IfOk result
        (λ answers. HasRun L.belongs_to L.known (G.may_answer gate.now) session.old.base.now session.old.pass lines.now
        session.new.base.now
        session.new.pass answers.items) }
    ensures fault { IfErr result
        (λ fault. Stops (G.may_answer gate.now) session.old.base.now (L.belongs_to session.old.pass).capacity
        (L.known session.old.pass) lines.now fault) }
    ensures rest { IfErr result (λ fault. GoesNoFurther session.old.base.now (L.known session.old.pass) lines.now fault
        (L.known session.new.pass)) }
{
    // Room for all answers comes first, so no answer is lost for want of memory after its statement was logged.
    let mut answers = Vec::with_capacity(alloc, lines.len())?;
    for index in 0..lines.len() {
        let answer = answer_one(rt, session, index as u64, &lines[index], gate)?;
        answers.push_reserved(answer);
    }
    Ok(answers)
}
