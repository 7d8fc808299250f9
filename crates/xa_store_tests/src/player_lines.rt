//! Lines of a script.

use xa_lines::{ScriptLine, read_line};
use xa_statement::read_statement;
use xa_xid::{SessionNo, Statement};

/// Returns the session that a line names, and its statement, or `None` if the line has no such form.
///
/// Takes no memory. Doesn't wait.
pub fn given_in(line: &[u8]) -> Option<(SessionNo, Statement)> {
    match read_line(line) {
        ScriptLine::Given(session, text) => Some((session, read_statement(text).ok()?)),
        ScriptLine::Blank | ScriptLine::Bad => None,
    }
}
