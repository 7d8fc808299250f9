//! One session of a race over a store without an end executes its statements, one after another.
ghost use Rattle.std.specs.{Prelude.{◌≡◌, ◌≤◌, ◌+◌, [], Err, length, vec_capacity, OnOk, OnErr, IfErr}, List.All};
ghost use Rattle.xa_server.specs.State.{no_state};
ghost use Rattle.xa_store.specs.Spread.{HasAnswered};
ghost use Rattle.xa_races.specs.Long.{known_in, EndsOne, SaysOne, IsAddedBy, StopsAt, EndsAt};

use crate::added::Added;
use crate::said::Said;
use std::sync::Wait;
use xa_endless::EndlessSession;
use xa_session::Answer;
use xa_store::{Gate, RaceFault};
use xa_words::Entry;
use xa_xid::Statement;

/// Asks the gate, then executes the session's statement at `line`, its place among the session's statements, from 0.
///
/// Errors: `GateShut` if the gate stops the run, `NoMemory` as executing returns it.
fn answer_one<G: Gate, R: Wait>(
    rt: &R,
    session: &mut EndlessSession,
    line: u64,
    statement: &Statement,
    gate: &G,
) -> Result<Answer, RaceFault>
    ensures store { session.new.store.value ≡ session.old.store.value }
    ensures ends { EndsOne (G.may_answer gate.now) line statement.now result session.old session.new }
{
    let number = session.number();
    // A shut gate stops this run, before its statement is given.
    if !gate.enter(number, line) {
        return Err(RaceFault::GateShut {
            session: number,
            line,
        });
    }
    match session.execute(rt, statement) {
        Ok(answer) => Ok(answer),
        // Executing fails only for want of memory.
        Err(_) => Err(RaceFault::NoMemory),
    }
}

/// Has the session say its statement at `line`, as `answer_one` does, and notes in `said`, which has room for both, its
/// answer and, if it was logged, its entry.
///
/// Errors: those of `answer_one`; nothing is noted then.
fn say_one<G: Gate, R: Wait>(
    rt: &R,
    session: &mut EndlessSession,
    line: u64,
    statement: &Statement,
    gate: &G,
    said: &mut Said,
) -> Result<(), RaceFault>
    requires answers { length said.old.answers.items + 1 ≤ vec_capacity said.old.answers }
    requires added { length said.old.added.items + 1 ≤ vec_capacity said.old.added }
    ensures store { session.new.store.value ≡ session.old.store.value }
    ensures answers { vec_capacity said.new.answers ≡ vec_capacity said.old.answers }
    ensures added { vec_capacity said.new.added ≡ vec_capacity said.old.added }
    ensures ok { OnOk result
        (SaysOne (G.may_answer gate.now) line statement.now session.old session.new said.old said.new) }
    ensures fault { IfErr result (λ fault. EndsOne (G.may_answer gate.now) line statement.now
        (Err fault) session.old session.new) }
    ensures kept { OnErr result (said.new ≡ said.old) }
{
    let answer = answer_one(rt, session, line, statement, gate)?;
    let place = answer.place;
    said.answers.push_reserved(answer);
    // What the session has seen ends with its own entry, if it added one, or else at the answer's place.
    if session.seen() > place {
        let entry = Entry::entering(session.number(), statement.copy());
        said.added.push_reserved(Added { place, entry });
    }
    Ok(())
}

/// Has a session say all of its statements, in order, and notes its answers and entries in `said`, which is empty at
/// first and has room for all.
///
/// Errors, at the first statement that isn't answered: `GateShut` if the gate stops the run there, `NoMemory`. What was
/// noted of the statements before it stays.
fn say_all<G: Gate, R: Wait>(
    rt: &R,
    session: &mut EndlessSession,
    lines: &[Statement],
    gate: &G,
    said: &mut Said,
) -> Result<(), RaceFault>
    requires none { said.old.answers.items ≡ [] }
    requires nothing { said.old.added.items ≡ [] }
    requires answers { length lines.now ≤ vec_capacity said.old.answers }
    requires added { length lines.now ≤ vec_capacity said.old.added }
    ensures store { session.new.store.value ≡ session.old.store.value }
    ensures ok { OnOk result
        (HasAnswered (G.may_answer gate.now) no_state (known_in session.old)
        (known_in session.new) lines.now said.new.answers.items) }
    ensures own { All (IsAddedBy (known_in session.new).seen (known_in session.old).number) said.new.added.items }
    ensures fault { IfErr result (λ fault. StopsAt (G.may_answer gate.now)
        (known_in session.old) lines.now fault session.new) }
{
    for index in 0..lines.len() {
        say_one(rt, session, index as u64, &lines[index], gate, said)?;
    }
    Ok(())
}

/// Has a session say all of its statements, in order, as `say_all` does. Returns the fault at which it stopped, or None
/// if all were answered.
pub(crate) fn say_out<G: Gate, R: Wait>(
    rt: &R,
    session: &mut EndlessSession,
    lines: &[Statement],
    gate: &G,
    said: &mut Said,
) -> Option<RaceFault>
    requires none { said.old.answers.items ≡ [] }
    requires nothing { said.old.added.items ≡ [] }
    requires answers { length lines.now ≤ vec_capacity said.old.answers }
    requires added { length lines.now ≤ vec_capacity said.old.added }
    ensures store { session.new.store.value ≡ session.old.store.value }
    ensures ends { EndsAt (G.may_answer gate.now) (known_in session.old) lines.now said.new.answers.items result
        session.new }
    ensures own { All (IsAddedBy (known_in session.new).seen (known_in session.old).number) said.new.added.items }
{
    match say_all(rt, session, lines, gate, said) {
        Ok(()) => None,
        Err(fault) => Some(fault),
    }
}
