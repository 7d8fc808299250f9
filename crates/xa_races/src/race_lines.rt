//! Reads a script for a race; each line is read once.
ghost use Rattle.std.specs.Prelude.{◌≡◌, ◌≤◌, ◌==◌, ◌+◌, ◌++◌, [], ℕ, Some, None, cond, length, map, vec_len, IfOk};
ghost use Rattle.std.specs.Prelude.{OnOk};
ghost use Rattle.xa_lines.specs.{Script.{Given, line_of, lines_of}, Limits.script_bytes};
ghost use Rattle.xa_races.specs.Race.{fault_text, part_at, Gains, TakesLine, HasRead};

use crate::given::RaceScript;
use std::alloc::Global;
use xa_lines::{ScriptLine, push_number, push_syntax_fault, read_line, split_line};
use xa_statement::read_statement;
use xa_xid::{NoMemory, SessionNo, Statement};

/// Sixteen empty lists, one for each session that a script can name.
fn empty_lists(alloc: Global) -> Result<Vec<Vec<Statement>>, NoMemory>
    ensures count { IfOk result (λ lists. vec_len lists ≡ 16) }
    ensures empty { IfOk result (λ lists. (index : ℕ) → part_at (map (λ list. list.items) lists.items) index ≡ []) }
{
    let mut lists = Vec::new(alloc);
    while lists.len() < 16 {
        lists.push(Vec::new(alloc))?;
    }
    Ok(lists)
}

/// What a script without lines gives.
fn no_lines(alloc: Global) -> Result<RaceScript, NoMemory>
    ensures { IfOk result (λ given. HasRead [] given) }
{
    let lists = empty_lists(alloc)?;
    let faults = Vec::new(alloc);
    Ok(RaceScript {
        faults,
        greatest: 0,
        lists,
    })
}

/// Appends what is written for the faulty line of this number. `place` is the byte of its statement at which reading
/// fails, from 0; it is 0 if the line names no session.
fn push_fault(text: &mut Vec<u8>, number: u64, place: u64) -> Result<(), NoMemory>
    ensures { OnOk result (text.new.items ≡ text.old.items ++ fault_text number (Some place)) }
{
    text.extend_from_slice(b"LINE ")?;
    push_number(text, number)?;
    text.extend_from_slice(b" ")?;
    push_syntax_fault(text, place)?;
    text.extend_from_slice(b"\n")
}

/// Appends a statement to those of its session. The first list is that of session 1.
fn push_statement(
    lists: &mut Vec<Vec<Statement>>,
    session: SessionNo,
    statement: Statement,
) -> Result<(), NoMemory>
    requires { vec_len lists.old ≡ 16 }
    ensures count { vec_len lists.new ≡ 16 }
    ensures gains { OnOk result
        (Gains (λ other. cond (session == other) (Some statement) None) (map (λ list. list.items) lists.old.items)
        (map (λ list. list.items) lists.new.items)) }
{
    lists[(session.get() - 1) as usize].push(statement)?;
    Ok(())
}

/// Takes the line of this number, which names a session and has this text after it. Its statement goes to the session's
/// list; if the text isn't read as one, what is written for that goes to the faults.
fn take_given(
    given: &mut RaceScript,
    number: u64,
    session: SessionNo,
    text: &[u8],
) -> Result<(), NoMemory>
    ensures { OnOk result (TakesLine number (Given session text.now) given.old given.new) }
{
    // The session of a faulty line may become the greatest, too. A script with such a line isn't raced.
    given.greatest = given.greatest.max(session.get());
    match read_statement(text) {
        Ok(statement) => push_statement(&mut given.lists, session, statement),
        Err(fault) => push_fault(&mut given.faults, number, fault.at),
    }
}

/// Takes the line of this number. A blank one changes nothing, and one that names no session is faulty at byte 0.
fn take_line(given: &mut RaceScript, number: u64, line: &[u8]) -> Result<(), NoMemory>
    ensures { OnOk result (TakesLine number (line_of line.now) given.old given.new) }
{
    match read_line(line) {
        ScriptLine::Blank => Ok(()),
        ScriptLine::Bad => push_fault(&mut given.faults, number, 0),
        ScriptLine::Given(session, text) => take_given(given, number, session, text),
    }
}

/// Reads what a script gives to a race: each session's statements, and what is written for faulty lines. Lines are
/// counted from 1, blank ones too. `script` has at most 1,048,576 bytes.
///
/// May return `NoMemory`. Doesn't wait.
/// Own rule: docs/COMMANDS.md#race.
pub fn read_race(alloc: Global, script: &[u8]) -> Result<RaceScript, NoMemory>
    requires { length script.now ≤ script_bytes }
    ensures { IfOk result (λ given. HasRead (lines_of script.now) given) }
{
    let mut given = no_lines(alloc)?;
    let mut number = 1;
    let mut rest = script;
    while !rest.is_empty() {
        let (line, lines) = split_line(rest);
        take_line(&mut given, number, line)?;
        number += 1;
        rest = lines;
    }
    Ok(given)
}
