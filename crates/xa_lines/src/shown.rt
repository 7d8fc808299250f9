//! A server that shows its store after each answer.
//!
//! When the listing is made the statement is carried out already. If memory is refused for the listing, the
//! answer is therefore given without it.
ghost use Rattle.std.specs.Prelude.{◌≡◌, ◌≢◌, ◌++◌, ℕ, [], true, false, List, ◌⊎◌, Ok, Err, IfOk, IfErr, IfSome, OnOk};
ghost use Rattle.xa_statement.specs.Reading.{read_of};
ghost use Rattle.xa_lines.specs.{Script.{Bad, Given, line_of}, Answer.{bytes_of, HasRoom}, Exchange.IsFresh};
ghost use Rattle.xa_lines.specs.{Served.{IsServed, AfterServing}, Listing.listing};
ghost use Rattle.xa_lines.specs.Shown.{comment_text, unshown_text, StandsBehind, IsAnswerShown, BeginsEmpty, Shows};

use crate::served_answer::{serve_read, serve_unread};
use crate::short_answer::{bad_line, unshown, with_unshown};
use crate::{
    Answer, Client, LineServer, ScriptFault, ScriptLine, is_comment, read_line, serve, with_listing,
};
use arrayvec::ArrayVec;
use std::alloc::Global;
use xa_server::Server;
use xa_statement::read_statement;
use xa_xid::{Key, NoMemory, SessionNo, Statement};

/// A sequential server that shows what it holds after each answer.
#[derive(Drop)]
pub struct Shown {
    /// The server that answers.
    server: Server,
    /// The allocator for the listing after a line that is too long, since `answer_long` is given none.
    alloc: Global,
}

/// Returns a comment, repeated after two blanks.
fn comment(alloc: Global, line: &[u8]) -> Result<Vec<u8>, NoMemory>
    ensures { IfOk result (λ text. text.items ≡ comment_text line.now) }
{
    let mut text = Vec::from_slice(alloc, b"  ")?;
    text.extend_from_slice(line)?;
    text.extend_from_slice(b"\n")?;
    Ok(text)
}

/// Returns the answer to a comment: the comment, or the line that says that memory was refused for it.
fn comment_answer(alloc: Global, line: &[u8]) -> Answer
    ensures { (bytes_of result ≡ comment_text line.now) ⊎ (bytes_of result ≡ unshown_text) }
{
    match comment(alloc, line) {
        Ok(text) => Answer::Text(text),
        Err(_) => unshown(),
    }
}

/// Returns a copy of the answer, followed by the listing: all branches with the rows that they hold, and the rows of
/// these keys.
fn listed(
    alloc: Global,
    answer: &Answer,
    server: &Server,
    keys: &[Key],
) -> Result<Vec<u8>, NoMemory>
    ensures { IfOk result (λ text. text.items ≡ bytes_of answer.now ++ listing server.now keys.now) }
{
    let text = Vec::from_slice(alloc, answer.as_slice())?;
    with_listing(alloc, text, server, keys)
}

/// Returns whether the listing is empty: whether there are neither branches nor keys. If it is, this takes no memory.
#[tactic(auto, using(crate::proofs::Listed::branch_listed, crate::proofs::Listed::key_listed))]
fn lists_nothing(alloc: Global, server: &Server, keys: &[Key]) -> bool
    ensures nothing { result ≡ true → listing server.now keys.now ≡ [] }
    ensures some { result ≡ false → listing server.now keys.now ≢ [] }
{
    if !keys.is_empty() {
        return false;
    }
    match server.branches(alloc) {
        Ok(branches) => branches.is_empty(),
        // Memory is refused only where there is a branch.
        Err(_) => false,
    }
}

/// Returns the answer, followed by the listing (all branches, and the rows of these keys), or by the line that says
/// that memory was refused for it. If nothing is listed no memory is wanted, and the answer stands alone.
fn with_shown(alloc: Global, answer: Answer, server: &Server, keys: &[Key]) -> Answer
    requires { HasRoom 16 answer }
    ensures { StandsBehind (listing server.now keys.now) (bytes_of answer) (bytes_of result) }
{
    if lists_nothing(alloc, server, keys) {
        return answer;
    }
    match listed(alloc, &answer, server, keys) {
        Ok(text) => Answer::Text(text),
        Err(_) => with_unshown(answer),
    }
}

/// Answers a statement that was read, and shows the store after the answer: all branches, and the rows that the
/// statement is about. If memory is refused for that, a line that says so comes in its place.
fn show_read(
    alloc: Global,
    server: &mut Server,
    session: SessionNo,
    statement: &Statement,
) -> Answer
    ensures { (text : List ℕ)
        → read_of text ≡ Ok statement.now
        → IsAnswerShown server.old (Given session text) (bytes_of result) server.new }
{
    // The keys are asked for first: a statement that ends a branch is about the rows that the branch held before.
    let keys = server.keys_about(alloc, session, statement);
    let answer = serve_read(alloc, server, session, statement);
    match keys {
        Ok(keys) => with_shown(alloc, answer, server, keys.as_slice()),
        Err(_) => with_unshown(answer),
    }
}

/// Answers a text that isn't a statement and goes wrong at the byte `place`, from 0, and shows the store after the
/// answer: all branches with the rows that they hold, and no other rows, since the text is about none.
fn show_unread(alloc: Global, server: &Server, session: SessionNo, place: u64) -> Answer
    ensures { (text : List ℕ)
        → read_of text ≡ Err place
        → IsAnswerShown server.now (Given session text) (bytes_of result) server.now }
{
    let answer = serve_unread(server, session, place);
    with_shown(alloc, answer, server, &[])
}

/// Answers a session's line, of which `text` comes after the number, and shows the store after the answer.
fn show_given(alloc: Global, server: &mut Server, session: SessionNo, text: &[u8]) -> Answer
    ensures { IsAnswerShown server.old (Given session text.now) (bytes_of result) server.new }
{
    match read_statement(text) {
        Ok(statement) => show_read(alloc, server, session, &statement),
        Err(fault) => show_unread(alloc, server, session, fault.at),
    }
}

/// Answers a bad line, and shows the store after the answer: all branches with the rows that they hold, and no other
/// rows, since the line is about none.
fn show_bad(alloc: Global, server: &Server) -> Answer
    ensures { IsAnswerShown server.now Bad (bytes_of result) server.now }
{
    with_shown(alloc, bad_line(), server, &[])
}

/// Answers a line that isn't a comment, and shows the store after the answer. A line of blanks has an empty answer,
/// and nothing is shown.
fn answer_shown(alloc: Global, server: &mut Server, line: &[u8]) -> Answer
    ensures { IsAnswerShown server.old (line_of line.now) (bytes_of result) server.new }
{
    match read_line(line) {
        ScriptLine::Blank => Answer::Short(ArrayVec::new()),
        ScriptLine::Bad => show_bad(alloc, server),
        ScriptLine::Given(session, text) => show_given(alloc, server, session, text),
    }
}

impl Shown {
    ghost use Rattle.xa_server.specs.State.{no_state};

    /// Returns a server with no branches and no rows.
    ///
    /// Takes no memory. Doesn't wait.
    pub fn new(alloc: Global) -> Shown
        ensures { BeginsEmpty result }
    {
        Shown {
            server: Server::new(alloc),
            alloc,
        }
    }
}

impl LineServer for Shown {
    ghost begins = { BeginsEmpty };

    // Proved (scripts, shown-answers): After each answer comes the listing of the store that it leaves. If an
    //   allocation for that fails, the line `OUT OF MEMORY` comes in its place, but never where nothing is to
    //   be listed. A comment is repeated, or replaced by that line, and changes nothing.
    ghost answers = { Shows };

    /// Repeats a comment. Answers any other line, and shows the store after the answer, as `answer_shown` does.
    fn answer(&mut self, alloc: Global, line: &[u8]) -> Answer {
        if is_comment(line) {
            return comment_answer(alloc, line);
        }
        answer_shown(alloc, &mut self.server, line)
    }

    /// Answers as for a bad line, since what begins the line isn't looked at: even a comment.
    fn answer_long(&mut self) -> Answer {
        show_bad(self.alloc, &self.server)
    }
}

/// Serves a client as `serve_statements` does, and after each answer shows what the server then holds.
///
/// Every branch is shown, ascending, with its phase, its owner and the rows that it holds; then the committed
/// values of the rows that the line is about. All that is shown is on lines that begin with two blanks. A
/// line whose first byte that isn't a blank is `#` is a comment, and is repeated after two blanks. If memory
/// is refused for a listing or a comment, a line `OUT OF MEMORY`, after two blanks, comes in its place.
/// Errors: `NoMemory` if the memory for a line was refused, before anything was received; `Read` if a read
/// failed, or after 2 ^ 64 - 1 reads; `Write` if a write or a flush failed.
/// After `Read` all whole lines are answered. After `Write` a prefix of the answers was given.
/// Takes memory. Doesn't wait, unless the client does.
/// Own rule: docs/COMMANDS.md#show.
pub fn show_statements<P: Client<Shown>>(alloc: Global, client: &mut P) -> Result<(), ScriptFault>
    requires { IfSome (P.exchange client.old) IsFresh }
    // Proved (scripts, shown-lines): When a client that is shown the store has ended, all its lines are
    //   answered in order. Each answer is one that serving may give, with the listing after it.
    ensures told { OnOk result (IfSome (P.exchange client.new) (IsServed BeginsEmpty Shows)) }
    // Proved (scripts, serving-faults)
    ensures fault { IfErr result (λ fault. IfSome (P.exchange client.new) (AfterServing BeginsEmpty Shows fault)) }
{
    let mut server = Shown::new(alloc);
    serve(alloc, &mut server, client)
}
