//! Answers the lines of a script.
ghost use Rattle.std.specs.Prelude.{◌≡◌, ◌≤◌, ◌+◌, ◌++◌, codes, decimal, vec_len, vec_capacity, true, Ok, IfOk, OnOk};
ghost use Rattle.std.specs.Prelude.{OnErr};
ghost use Rattle.xa_statement.specs.Reading.{read_of};
ghost use Rattle.xa_server.specs.{Replies.reply_to, Step.{after, enters as enters_at, may_take_memory}};
ghost use Rattle.xa_lines.specs.Printed.{answer_text, reply_text, syntax_text, converts as converts_of};
ghost use Rattle.xa_lines.specs.{Script.line_of, Transcript.{answer_of, answer_to, state_after_line, state_then}};

use crate::lines::{ScriptLine, read_line};
use crate::print::{push_number, push_reply, push_syntax_fault};
use crate::short_answer::bad_line;
use std::alloc::Global;
use xa_server::laws::statement_outside_history_changes_nothing;
use xa_server::{Reply, Server};
use xa_statement::read_statement;
use xa_xid::{NoMemory, SessionNo, Statement};

/// Returns whether the identifiers of this statement's reply are printed in digits: only for `XA RECOVER
/// CONVERT XID`.
///
/// Takes no memory. Doesn't wait.
/// Own rule: docs/COMMANDS.md#scripts.
pub fn converts(statement: &Statement) -> bool
    ensures { result ≡ converts_of statement.now }
{
    match statement {
        Statement::Recover { convert } => *convert,
        _ => false,
    }
}

// The functions `put_..` write an answer over the text's former content. So one text can take one answer
// after another, and keeps its memory.

/// Begins an answer anew, in place of what `answer` held, with the number of the session that is answered and a blank.
fn put_session(answer: &mut Vec<u8>, session: SessionNo) -> Result<(), NoMemory>
    ensures { OnOk result (answer.new.items ≡ decimal session ++ codes " ") }
{
    answer.clear();
    push_number(answer, session.get())?;
    answer.extend_from_slice(b" ")
}

/// Carries out a statement if it is logged, which `enters` says; any other statement changes nothing. If memory is
/// refused, the server is as before.
#[tactic(auto, unfolding(xa_server::specs::Step::enters))]
pub(crate) fn carry_out(
    server: &mut Server,
    session: SessionNo,
    statement: &Statement,
    enters: bool,
) -> Result<(), NoMemory>
    requires { enters ≡ enters_at server.old session statement.now }
    ensures after { OnOk result (server.new ≡ after server.old session statement.now) }
    ensures unchanged { OnErr result (server.new ≡ server.old) }
    ensures memory { OnErr result (may_take_memory server.old session statement.now ≡ true) }
{
    if !enters {
        // Does nothing. The contract needs this law, since the server stays as it is.
        statement_outside_history_changes_nothing();
        return Ok(());
    }
    server.accept(session, statement)
}

/// Answers a statement whose reply is known, and carries it out if it is logged, which `enters` says. `spare` more
/// bytes can be appended to the answer without memory. The statement is carried out last, so the server is as before
/// if memory is refused.
pub(crate) fn put_reply(
    alloc: Global,
    answer: &mut Vec<u8>,
    server: &mut Server,
    session: SessionNo,
    statement: &Statement,
    reply: &Reply,
    enters: bool,
    spare: usize,
) -> Result<(), NoMemory>
    requires reply { reply.now ≡ reply_to server.old session statement.now }
    requires enters { enters ≡ enters_at server.old session statement.now }
    ensures answer { OnOk result (answer.new.items ≡ answer_to server.old session (Ok statement.now)) }
    ensures after { OnOk result (server.new ≡ state_then server.old session (Ok statement.now)) }
    ensures unchanged { OnErr result (server.new ≡ server.old) }
    ensures room { OnOk result (vec_len answer.new + spare ≤ vec_capacity answer.new) }
{
    put_session(answer, session)?;
    push_reply(alloc, answer, converts(statement), reply)?;
    answer.extend_from_slice(b"\n")?;
    answer.reserve(spare)?;
    carry_out(server, session, statement, enters)
}

/// Answers a statement that was read, and carries it out if it is logged. If memory is refused, the server is as
/// before.
fn put_read(
    alloc: Global,
    answer: &mut Vec<u8>,
    server: &mut Server,
    session: SessionNo,
    statement: &Statement,
) -> Result<(), NoMemory>
    ensures answer { OnOk result (answer.new.items ≡ answer_to server.old session (Ok statement.now)) }
    ensures after { OnOk result (server.new ≡ state_then server.old session (Ok statement.now)) }
    ensures unchanged { OnErr result (server.new ≡ server.old) }
{
    let (reply, enters) = server.reply(session, statement)?;
    // Nothing is appended to this answer, so it needs no spare bytes.
    put_reply(alloc, answer, server, session, statement, &reply, enters, 0)
}

/// Answers a text that isn't a statement, with the byte at which it goes wrong, `place`, from 0.
fn put_unread(answer: &mut Vec<u8>, session: SessionNo, place: u64) -> Result<(), NoMemory>
    ensures { OnOk result (answer.new.items ≡ answer_text (decimal session) (syntax_text place)) }
{
    put_session(answer, session)?;
    push_syntax_fault(answer, place)?;
    answer.extend_from_slice(b"\n")
}

/// Gives the text's statement to the server, and answers it; or answers where the text goes wrong, if it isn't a
/// statement. If memory is refused, the server is as before.
fn put_statement(
    alloc: Global,
    answer: &mut Vec<u8>,
    server: &mut Server,
    session: SessionNo,
    text: &[u8],
) -> Result<(), NoMemory>
    ensures answer { OnOk result (answer.new.items ≡ answer_to server.old session (read_of text.now)) }
    ensures after { OnOk result (server.new ≡ state_then server.old session (read_of text.now)) }
    ensures unchanged { OnErr result (server.new ≡ server.old) }
{
    match read_statement(text) {
        Ok(statement) => put_read(alloc, answer, server, session, &statement),
        Err(fault) => put_unread(answer, session, fault.at),
    }
}

/// Answers a bad line, with `-` in place of a session's number.
fn put_bad(answer: &mut Vec<u8>) -> Result<(), NoMemory>
    ensures { OnOk result (answer.new.items ≡ answer_text (codes "-") (syntax_text 0)) }
{
    answer.clear();
    answer.extend_from_slice(bad_line().as_slice())
}

/// Gives the line's statement to the server, if it has one, and answers the line. The answer to a line of blanks is
/// empty. If memory is refused, the server is as before.
#[tactic(auto, unfolding(crate::specs::Transcript::answer_of, crate::specs::Transcript::state_after_line))]
pub(crate) fn put_line(
    alloc: Global,
    answer: &mut Vec<u8>,
    server: &mut Server,
    line: &[u8],
) -> Result<(), NoMemory>
    ensures answer { OnOk result (answer.new.items ≡ answer_of server.old (line_of line.now)) }
    ensures after { OnOk result (server.new ≡ state_after_line server.old (line_of line.now)) }
    ensures unchanged { OnErr result (server.new ≡ server.old) }
{
    match read_line(line) {
        ScriptLine::Blank => {
            answer.clear();
            Ok(())
        }
        ScriptLine::Bad => put_bad(answer),
        ScriptLine::Given(session, text) => put_statement(alloc, answer, server, session, text),
    }
}

/// Gives a text's statement to the server as a session's, and returns the printed answer, with its line feed.
///
/// The text comes without the session's number. If it isn't a statement, the answer names the byte at which it goes
/// wrong.
/// Errors: `NoMemory` if an allocation failed. The server is then as before.
/// Takes memory for the answer, and for what the statement adds to the server. Doesn't wait.
/// Own rule: docs/COMMANDS.md#scripts.
pub fn answer_statement(
    alloc: Global,
    server: &mut Server,
    session: SessionNo,
    text: &[u8],
) -> Result<Vec<u8>, NoMemory>
    // Proved (scripts, line-answers): The answer to a line or a statement, and the server after it, are what
    //   the definition of a script's run gives.
    ensures answer { IfOk result (λ answer. answer.items ≡ answer_to server.old session (read_of text.now)) }
    // Proved (scripts, line-answers)
    ensures after { OnOk result (server.new ≡ state_then server.old session (read_of text.now)) }
    // Proved (scripts, lines-without-memory): If memory runs out for the answer to a line or a statement, the
    //   server is as before.
    ensures unchanged { OnErr result (server.new ≡ server.old) }
{
    let mut answer = Vec::new(alloc);
    put_statement(alloc, &mut answer, server, session, text)?;
    Ok(answer)
}

/// Gives a script's line to the server, and returns the printed answer.
///
/// The line is without its line feed. The answer ends in a line feed; it is empty for a line of blanks.
/// Errors: `NoMemory` if an allocation failed. The server is then as before.
/// Takes memory for the answer, and for what the statement adds to the server. Doesn't wait.
/// Own rule: docs/COMMANDS.md#scripts.
pub fn answer_line(alloc: Global, server: &mut Server, line: &[u8]) -> Result<Vec<u8>, NoMemory>
    // Proved (scripts, line-answers)
    ensures answer { IfOk result (λ answer. answer.items ≡ answer_of server.old (line_of line.now)) }
    // Proved (scripts, line-answers)
    ensures after { OnOk result (server.new ≡ state_after_line server.old (line_of line.now)) }
    // Proved (scripts, lines-without-memory)
    ensures unchanged { OnErr result (server.new ≡ server.old) }
{
    let mut answer = Vec::new(alloc);
    put_line(alloc, &mut answer, server, line)?;
    Ok(answer)
}
