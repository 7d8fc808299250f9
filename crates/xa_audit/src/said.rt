//! What the lines of a history say.
ghost use Rattle.std.specs.Prelude.{◌≡◌};
ghost use Rattle.xa_statement.specs.Reading.{read_of};
ghost use Rattle.xa_audit.specs.Histories.{said_by, said_on};

use xa_lines::{ScriptLine, is_comment, read_line};
use xa_statement::read_statement;
use xa_xid::{SessionNo, Statement};

/// What a line of a history says.
#[derive(Drop)]
pub enum Said {
    /// Nothing: it is blank, or a comment.
    Nothing,
    /// The session gives this statement.
    Given(SessionNo, Statement),
    /// It isn't read; its text goes wrong at this byte, from 0.
    Unread(u64),
}

/// What a line says that has this session and this text: its statement, or at which byte the text goes wrong.
fn said_with(session: SessionNo, text: &[u8]) -> Said
    ensures { result ≡ said_by session (read_of text.now) }
{
    match read_statement(text) {
        Ok(statement) => Said::Given(session, statement),
        Err(fault) => Said::Unread(fault.at),
    }
}

/// Returns what a line, given without its line feed, says: nothing, a session's statement, or that it isn't read, with
/// the byte at which the text after the session's number goes wrong; 0 if the line doesn't begin with such a number.
#[tactic(auto, unfolding(crate::specs::Histories::said_on))]
pub fn read_said(line: &[u8]) -> Said
    ensures { result ≡ said_on line.now }
{
    if is_comment(line) {
        return Said::Nothing;
    }
    match read_line(line) {
        ScriptLine::Blank => Said::Nothing,
        // It doesn't begin with a session's number, so there is no text of a statement. The byte is 0 then.
        ScriptLine::Bad => Said::Unread(0),
        ScriptLine::Given(session, text) => said_with(session, text),
    }
}
