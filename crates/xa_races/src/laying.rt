//! Lays the answers of sessions out in the order of their lines.

use std::alloc::Global;
use xa_lines::{converts, push_number, push_reply};
use xa_orders::Line;
use xa_session::Answer;
use xa_statement::read_statement;
use xa_xid::NoMemory;

/// Whether the statement of this text asks for identifiers in hexadecimal digits; false if the text isn't read as one.
fn converts_in(text: &[u8]) -> bool {
    match read_statement(text) {
        Ok(statement) => converts(&statement),
        Err(_) => false,
    }
}

/// Appends the answer to a line, as a run of a script writes it.
fn push_answer(
    alloc: Global,
    text: &mut Vec<u8>,
    line: &Line<'_>,
    answer: &Answer,
) -> Result<(), NoMemory> {
    push_number(text, line.session().get())?;
    text.extend_from_slice(b" ")?;
    push_reply(alloc, text, converts_in(line.text()), &answer.reply)?;
    text.extend_from_slice(b"\n")
}

/// Appends what is written for the lines, in their order, if each session got these answers. `answers` has a list for
/// each session, that of session 1 first. Nothing is written for a line without an answer there.
///
/// May return `NoMemory`.
pub(crate) fn lay_out(
    alloc: Global,
    text: &mut Vec<u8>,
    lines: &[Line<'_>],
    answers: &[Vec<Answer>],
) -> Result<(), NoMemory> {
    for place in 0..lines.len() {
        let line = &lines[place];
        let session = line.session();
        // A session's answers are in the order of its lines, so this one comes after those to its lines before.
        let rank = lines[..place]
            .iter()
            .filter(|line| line.session() == session)
            .count();
        if let Some(list) = answers.get((session.get() - 1) as usize) {
            if let Some(answer) = list.as_slice().get(rank) {
                push_answer(alloc, text, line, answer)?;
            }
        }
    }
    Ok(())
}
