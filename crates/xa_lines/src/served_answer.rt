//! Answers statements as serving does. If memory is refused the answer says so. Of the answers only that to a list
//! takes memory. Carrying a statement out may take some, too.
ghost use Rattle.std.specs.Prelude.{◌≡◌, ◌≤◌, ◌+◌, false, Ok, Err, IfOk, OnOk, OnErr, vec_len, vec_capacity};
ghost use Rattle.xa_server.specs.{Replies.reply_to, Step.{enters as enters_at, is_list}};
ghost use Rattle.xa_lines.specs.{Answer.{bytes_of, HasRoom}, Script.Given, Transcript.{answer_to, state_then}};
ghost use Rattle.xa_lines.specs.Statements.{IsStatementAnswer, IsAnswerTo};

use crate::Answer;
use crate::line_answer::{carry_out, put_reply};
use crate::short_answer::{answer_or_refusal, refusal};
use crate::short_reply::{reply_told, unread_told};
use std::alloc::Global;
use xa_server::{Reply, Server};
use xa_statement::read_statement;
use xa_xid::{NoMemory, SessionNo, Statement};

/// How many bytes more an answer has room for: the length of the line that `with_unshown` appends, which says that
/// memory was refused for a listing.
const SPARE_BYTES: usize = 16;

/// Carries out a statement whose reply is known and isn't a list, if it is logged, which `enters` says, and answers it
/// without memory. If memory is refused for carrying it out, the answer says so, and nothing has changed. 16 more
/// bytes can be appended to the answer without memory.
fn serve_short(
    server: &mut Server,
    session: SessionNo,
    statement: &Statement,
    reply: &Reply,
    enters: bool,
) -> Answer
    requires reply { reply.now ≡ reply_to server.old session statement.now }
    requires short { is_list reply.now ≡ false }
    requires enters { enters ≡ enters_at server.old session statement.now }
    ensures answered { IsStatementAnswer server.old session (Ok statement.now) (bytes_of result) server.new }
    ensures room { HasRoom 16 result }
{
    match carry_out(server, session, statement, enters) {
        Ok(()) => reply_told(session, reply),
        Err(_) => refusal(session),
    }
}

/// Answers a statement whose reply is known, in a new text, and carries it out if it is logged, which `enters` says.
/// 16 more bytes can be appended to the answer without memory.
fn answer_reply(
    alloc: Global,
    server: &mut Server,
    session: SessionNo,
    statement: &Statement,
    reply: &Reply,
    enters: bool,
) -> Result<Vec<u8>, NoMemory>
    requires reply { reply.now ≡ reply_to server.old session statement.now }
    requires enters { enters ≡ enters_at server.old session statement.now }
    ensures answer { IfOk result (λ answer. answer.items ≡ answer_to server.old session (Ok statement.now)) }
    ensures after { OnOk result (server.new ≡ state_then server.old session (Ok statement.now)) }
    ensures unchanged { OnErr result (server.new ≡ server.old) }
    ensures room { IfOk result (λ answer. vec_len answer + 16 ≤ vec_capacity answer) }
{
    let mut answer = Vec::new(alloc);
    put_reply(
        alloc,
        &mut answer,
        server,
        session,
        statement,
        reply,
        enters,
        SPARE_BYTES,
    )?;
    Ok(answer)
}

/// Answers a statement whose reply is known, and carries it out if it is logged, which `enters` says. Only the answer
/// to a list takes memory. If memory is refused for the answer or for carrying the statement out, the answer says so,
/// and nothing has changed. 16 more bytes can be appended to the answer without memory.
fn serve_reply(
    alloc: Global,
    server: &mut Server,
    session: SessionNo,
    statement: &Statement,
    reply: &Reply,
    enters: bool,
) -> Answer
    requires reply { reply.now ≡ reply_to server.old session statement.now }
    requires enters { enters ≡ enters_at server.old session statement.now }
    ensures answered { IsStatementAnswer server.old session (Ok statement.now) (bytes_of result) server.new }
    ensures room { HasRoom 16 result }
{
    match reply {
        Reply::Recovered(_) => {
            let answered = answer_reply(alloc, server, session, statement, reply, enters);
            answer_or_refusal(session, answered)
        }
        _ => serve_short(server, session, statement, reply, enters),
    }
}

/// Answers a statement that was read, and carries it out if it is logged. If memory is refused, the answer says so,
/// and nothing has changed. 16 more bytes can be appended to the answer without memory.
pub(crate) fn serve_read(
    alloc: Global,
    server: &mut Server,
    session: SessionNo,
    statement: &Statement,
) -> Answer
    ensures answered { IsStatementAnswer server.old session (Ok statement.now) (bytes_of result) server.new }
    ensures room { HasRoom 16 result }
{
    match server.reply(session, statement) {
        Ok((reply, enters)) => serve_reply(alloc, server, session, statement, &reply, enters),
        Err(_) => refusal(session),
    }
}

/// Answers a text that isn't a statement, and goes wrong at the byte `place`, from 0. 16 more bytes can be appended to
/// the answer without memory.
pub(crate) fn serve_unread(server: &Server, session: SessionNo, place: u64) -> Answer
    ensures answered { IsStatementAnswer server.now session (Err place) (bytes_of result) server.now }
    ensures room { HasRoom 16 result }
{
    // Nothing is carried out. The server is here so that the clause can say that it stays as it is.
    let _server = server;
    unread_told(session, place)
}

/// Answers a session's line, of which `text` comes after the number. A statement is carried out if it is logged; if
/// `text` isn't one, the answer says where it goes wrong. If memory is refused, the answer says so, and nothing has
/// changed.
pub(crate) fn serve_given(
    alloc: Global,
    server: &mut Server,
    session: SessionNo,
    text: &[u8],
) -> Answer
    ensures { IsAnswerTo server.old (Given session text.now) (bytes_of result) server.new }
{
    match read_statement(text) {
        Ok(statement) => serve_read(alloc, server, session, &statement),
        Err(fault) => serve_unread(server, session, fault.at),
    }
}
