//! Two passes of one log that play a script.
ghost use Rattle.std.specs.Prelude.{◌≡◌};

use crate::cases::{is_answer, split_case};
use crate::playing::is_entry;
use decision_log::{AddFault, DecisionLog};
use std::alloc::Global;
use std::process::Abort;
use xa_lines::{ScriptLine, push_number, read_line, split_line};
use xa_statement::read_statement;
use xa_words::Entry;
use xa_xid::{NoMemory, SessionNo, Statement};

/// The statement that a text spells.
fn said(rt: &impl Abort, text: &[u8]) -> Statement {
    let Ok(statement) = read_statement(text) else {
        panic!(rt; "not a statement")
    };
    statement
}

/// The session that a line names, and what comes after its number.
fn said_by<'a>(rt: &impl Abort, line: &'a [u8]) -> (SessionNo, &'a [u8]) {
    match read_line(line) {
        ScriptLine::Given(session, text) => (session, text),
        ScriptLine::Blank | ScriptLine::Bad => panic!(rt; "not a line"),
    }
}

/// What a pass is answered when it tries to add this statement: a word, and how many entries it has seen then.
fn added<L: DecisionLog>(
    rt: &impl Abort,
    log: &L,
    pass: &mut L::Pass,
    text: &[u8],
) -> (&'static [u8], u64)
    requires { L.belongs_to pass.old ≡ L.identity log.now }
    ensures { L.belongs_to pass.new ≡ L.belongs_to pass.old }
{
    let Some(entry) = Entry::of(log.number(pass), &said(rt, text)) else {
        panic!(rt; "no entry")
    };
    match log.try_add(pass, &entry) {
        Ok(()) => (b"OK ", log.length(pass)),
        Err(AddFault::Overtaken { front }) => (b"OVERTAKEN ", front),
        Err(AddFault::Full) => (b"FULL ", log.length(pass)),
        Err(AddFault::Busy) => (b"BUSY ", log.length(pass)),
    }
}

/// What the own pass is answered: of LOOK and LENGTH, how many entries it has seen, of MEET, how many the other one has
/// seen then, and else what `added` says of the statement.
fn told<L: DecisionLog>(
    rt: &impl Abort,
    log: &L,
    own: &mut L::Pass,
    other: &mut L::Pass,
    text: &[u8],
) -> (&'static [u8], u64)
    requires own { L.belongs_to own.old ≡ L.identity log.now }
    requires other { L.belongs_to other.old ≡ L.identity log.now }
    ensures own { L.belongs_to own.new ≡ L.belongs_to own.old }
    ensures other { L.belongs_to other.new ≡ L.belongs_to other.old }
{
    if text.starts_with(b"LOOK") {
        return (b"", log.look(own));
    }
    if text.starts_with(b"LENGTH") {
        return (b"", log.length(own));
    }
    if text.starts_with(b"MEET") {
        log.meet(own, other);
        return (b"", log.length(other));
    }
    added(rt, log, own, text)
}

/// A word with a number.
fn text_of(alloc: Global, told: (&[u8], u64)) -> Result<Vec<u8>, NoMemory> {
    let mut text = Vec::from_slice(alloc, told.0)?;
    push_number(&mut text, told.1)?;
    Ok(text)
}

/// Whether the entry that a pass has seen at a place is this line's.
fn has_entry<L: DecisionLog>(log: &L, pass: &mut L::Pass, at: u64, line: &[u8]) -> bool
    requires { L.belongs_to pass.old ≡ L.identity log.now }
    ensures { L.belongs_to pass.new ≡ L.belongs_to pass.old }
{
    if at >= log.length(pass) {
        return false;
    }
    is_entry(&log.entry(pass, at), line)
}

/// Whether a number after a word is the answer that is wanted.
fn is_told(alloc: Global, told: (&[u8], u64), wanted: &[u8]) -> bool {
    match text_of(alloc, told) {
        Ok(text) => is_answer(text.as_slice(), wanted),
        Err(_) => false,
    }
}

/// Whether the pass that a line names is answered as the line says after `= `.
fn is_answered<L: DecisionLog>(
    rt: &impl Abort,
    alloc: Global,
    log: &L,
    first: &mut L::Pass,
    second: &mut L::Pass,
    line: &[u8],
) -> bool
    requires first { L.belongs_to first.old ≡ L.identity log.now }
    requires second { L.belongs_to second.old ≡ L.identity log.now }
    ensures first { L.belongs_to first.new ≡ L.belongs_to first.old }
    ensures second { L.belongs_to second.new ≡ L.belongs_to second.old }
{
    let (given, wanted) = split_case(line);
    let (number, text) = said_by(rt, given);
    let found = if number == log.number(first) {
        told(rt, log, first, second, text)
    } else {
        told(rt, log, second, first, text)
    };
    is_told(alloc, found, wanted)
}

/// Whether a line of a script holds, in either form that `tries` has. The low four bits of a digit are its number.
fn is_so<L: DecisionLog>(
    rt: &impl Abort,
    alloc: Global,
    log: &L,
    first: &mut L::Pass,
    second: &mut L::Pass,
    line: &[u8],
) -> bool
    requires first { L.belongs_to first.old ≡ L.identity log.now }
    requires second { L.belongs_to second.old ≡ L.identity log.now }
    ensures first { L.belongs_to first.new ≡ L.belongs_to first.old }
    ensures second { L.belongs_to second.new ≡ L.belongs_to second.old }
{
    match line {
        [b'1', b'@', digit, entry @ ..] => has_entry(log, first, u64::from(*digit & 15), entry),
        [_, b'@', digit, entry @ ..] => has_entry(log, second, u64::from(*digit & 15), entry),
        _ => is_answered(rt, alloc, log, first, second, line),
    }
}

/// Two passes play a script, as `tries` says.
pub(crate) fn try_all<L: DecisionLog>(
    rt: &impl Abort,
    alloc: Global,
    log: &L,
    mut first: L::Pass,
    mut second: L::Pass,
    script: &[u8],
)
where
    L::Pass: Drop,
    requires first { L.belongs_to first ≡ L.identity log.now }
    requires second { L.belongs_to second ≡ L.identity log.now }
{
    tries(rt, alloc, log, &mut first, &mut second, script);
}

/// Plays a script of the first two passes of a log. A line has a pass's number, and after `= ` what it is
/// answered: of a statement, which it tries to add, `OK`, `OVERTAKEN`, `FULL` or `BUSY`, each with how many
/// entries it has seen then; of `LOOK` and `LENGTH`, how many it has seen; of `MEET`, how many the other one has
/// seen then. `1@0 2 GET 'k'` says which entry the first pass has seen at place 0; a place has one digit.
fn tries<L: DecisionLog>(
    rt: &impl Abort,
    alloc: Global,
    log: &L,
    first: &mut L::Pass,
    second: &mut L::Pass,
    script: &[u8],
)
    requires first { L.belongs_to first.old ≡ L.identity log.now }
    requires second { L.belongs_to second.old ≡ L.identity log.now }
    ensures first { L.belongs_to first.new ≡ L.belongs_to first.old }
    ensures second { L.belongs_to second.new ≡ L.belongs_to second.old }
{
    let mut rest = script;
    while !rest.is_empty() {
        let (line, lines) = split_line(rest);
        assert!(rt; is_so(rt, alloc, log, first, second, line), "{line:?}");
        rest = lines;
    }
}
