//! Two sessions of one log that play a script.
ghost use Rattle.std.specs.Prelude.{◌≡◌};

use crate::cases::{is_answer, split_case};
use crate::player_lines::given_in;
use crate::replies::is_reply;
use decision_log::DecisionLog;
use std::alloc::Global;
use std::sync::Wait;
use xa_lines::split_line;
use xa_session::{Answer, Fault, Session};
use xa_words::Entry;
use xa_xid::Statement;

/// Has a session answer a statement: one of an odd number attempts it, the others execute it. If there was no
/// memory and nothing was added to the history, it is attempted once more.
fn given<L: DecisionLog, R: Wait>(
    rt: &R,
    session: &mut Session<'_, L>,
    statement: &Statement,
) -> Result<Answer, Fault>
    ensures { L.belongs_to session.new.pass ≡ L.belongs_to session.old.pass }
{
    let before = session.look();
    let answered = if session.number().get() % 2 == 1 {
        session.attempt(statement)
    } else {
        session.execute(rt, statement)
    };
    match answered {
        Err(Fault::NoMemory) if session.look() == before => session.attempt(statement),
        answered => answered,
    }
}

/// Returns whether a session answers a statement as wanted, and then its replica lacks at most one entry; or finds the
/// log full, if `FULL` is wanted.
fn answers<L: DecisionLog, R: Wait>(
    rt: &R,
    alloc: Global,
    session: &mut Session<'_, L>,
    statement: &Statement,
    wanted: &[u8],
) -> bool
    ensures { L.belongs_to session.new.pass ≡ L.belongs_to session.old.pass }
{
    match given(rt, session, statement) {
        Ok(answer) => {
            let place = Some(answer.place);
            is_reply(alloc, place, statement, &answer.reply, wanted)
                && session.seen() - session.folded() <= 1
        }
        Err(fault) => fault == Fault::Full && is_answer(b"FULL", wanted),
    }
}

/// Plays a script of two sessions, and returns the first line that is answered otherwise than it says.
///
/// A line has a session's number, a statement, and after `= ` its place with its reply, or `FULL`. A line
/// without that form differs, and so does an answer after which a replica lacks more than one entry. A step
/// that is refused memory is repeated once.
pub(crate) fn first_difference<'s, L: DecisionLog, R: Wait>(
    rt: &R,
    alloc: Global,
    first: &mut Session<'_, L>,
    second: &mut Session<'_, L>,
    script: &'s [u8],
) -> Option<&'s [u8]>
    ensures first { L.belongs_to first.new.pass ≡ L.belongs_to first.old.pass }
    ensures second { L.belongs_to second.new.pass ≡ L.belongs_to second.old.pass }
{
    let mut rest = script;
    while !rest.is_empty() {
        let (line, lines) = split_line(rest);
        let (given, wanted) = split_case(line);
        let Some((number, statement)) = given_in(given) else {
            return Some(line);
        };
        let is_so = if number == first.number() {
            answers(rt, alloc, first, &statement, wanted)
        } else {
            number == second.number() && answers(rt, alloc, second, &statement, wanted)
        };
        if !is_so {
            return Some(line);
        }
        rest = lines;
    }
    None
}

/// Whether an entry is the statement of a line, of the session that the line names.
pub(crate) fn is_entry(entry: &Entry, line: &[u8]) -> bool {
    match given_in(line) {
        Some((number, statement)) => entry.session() == number && *entry.statement() == statement,
        None => false,
    }
}

/// Looks, and returns whether the whole history is the lines of a script: the statements, each of its
/// session.
pub(crate) fn has_history<L: DecisionLog>(session: &mut Session<'_, L>, script: &[u8]) -> bool
    ensures { L.belongs_to session.new.pass ≡ L.belongs_to session.old.pass }
{
    session.look();
    let mut rest = script;
    for at in 0..session.seen() {
        if rest.is_empty() {
            return false;
        }
        let (line, lines) = split_line(rest);
        if !is_entry(&session.entry(at), line) {
            return false;
        }
        rest = lines;
    }
    rest.is_empty()
}
