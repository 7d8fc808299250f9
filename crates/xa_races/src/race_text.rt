//! Prints the outcome of a race.
ghost use Rattle.std.specs.Prelude.{◌≡◌, ◌++◌, ℕ, List, OnOk, IfOk, map};
ghost use Rattle.xa_races.specs.{Race.part_at, Outcome.{entry_text, entries_text, history_text, placed_text}};
ghost use Rattle.xa_races.specs.Outcome.{session_text, answers_text, outcome_text, AreAsked};

use std::alloc::Global;
use xa_lines::{push_number, push_reply};
use xa_session::Answer;
use xa_statement::write_statement;
use xa_words::Entry;
use xa_xid::NoMemory;

/// Appends the line of an entry: its place in the history, its session and its statement.
fn push_entry(alloc: Global, text: &mut Vec<u8>, place: u64, entry: &Entry) -> Result<(), NoMemory>
    ensures { OnOk result (text.new.items ≡ text.old.items ++ entry_text place entry.now) }
{
    push_number(text, place)?;
    text.extend_from_slice(b" ")?;
    push_number(text, entry.session().get())?;
    text.extend_from_slice(b" ")?;
    let statement = write_statement(alloc, entry.statement())?;
    text.extend_from_slice(statement.as_slice())?;
    text.extend_from_slice(b"\n")
}

/// Appends the lines of entries, the first of which stands at place 0.
fn push_entries(alloc: Global, text: &mut Vec<u8>, entries: &[Entry]) -> Result<(), NoMemory>
    ensures { OnOk result (text.new.items ≡ text.old.items ++ entries_text 0 entries.now) }
{
    for place in 0..entries.len() {
        push_entry(alloc, text, place as u64, &entries[place])?;
    }
    Ok(())
}

/// Appends how many entries the history has, and the line of each.
fn push_history(alloc: Global, text: &mut Vec<u8>, history: &[Entry]) -> Result<(), NoMemory>
    ensures { OnOk result (text.new.items ≡ text.old.items ++ history_text history.now) }
{
    text.extend_from_slice(b"HISTORY ")?;
    push_number(text, history.len() as u64)?;
    text.extend_from_slice(b"\n")?;
    push_entries(alloc, text, history)
}

/// Appends the line of an answer: its session, its place and the reply, with recovered identifiers in hexadecimal
/// digits if `convert` is true.
fn push_answer(
    alloc: Global,
    text: &mut Vec<u8>,
    session: u64,
    convert: bool,
    answer: &Answer,
) -> Result<(), NoMemory>
    ensures { OnOk result (text.new.items ≡ text.old.items ++ placed_text session convert answer.now) }
{
    push_number(text, session)?;
    text.extend_from_slice(b" ")?;
    push_number(text, answer.place)?;
    text.extend_from_slice(b" ")?;
    push_reply(alloc, text, convert, &answer.reply)?;
    text.extend_from_slice(b"\n")
}

/// Appends the lines of a session's answers. `asked` has, for each, whether its statement asks for
/// identifiers in hexadecimal digits.
fn push_session(
    alloc: Global,
    text: &mut Vec<u8>,
    session: u64,
    asked: &[bool],
    answers: &[Answer],
) -> Result<(), NoMemory>
    ensures { OnOk result (text.new.items ≡ text.old.items ++ session_text session asked.now answers.now) }
{
    // Each statement has an answer, so the lists are equally long. That isn't known here; what one has more would be
    // left out.
    for index in 0..asked.len().min(answers.len()) {
        push_answer(alloc, text, session, asked[index], &answers[index])?;
    }
    Ok(())
}

/// The list at `index`; an empty one if there are no more than `index` lists.
fn list_at(asked: &[Vec<bool>], index: usize) -> &[bool]
    ensures { result.now ≡ part_at (map (λ list. list.items) asked.now) index }
{
    match asked.get(index) {
        Some(list) => list.as_slice(),
        None => &[],
    }
}

/// Appends the lines of all sessions' answers, session 1 first. `asked` has a list for each session, as `push_session`
/// takes it; a session without one gets no lines.
fn push_answers(
    alloc: Global,
    text: &mut Vec<u8>,
    asked: &[Vec<bool>],
    answers: &[Vec<Answer>],
) -> Result<(), NoMemory>
    ensures { (lines : List (List ℕ))
        → AreAsked lines (map (λ list. list.items) asked.now)
        → OnOk result (text.new.items ≡ text.old.items ++ answers_text 1 lines (map (λ list. list.items) answers.now)) }
{
    for index in 0..answers.len() {
        let session = index as u64 + 1;
        push_session(
            alloc,
            text,
            session,
            list_at(asked, index),
            answers[index].as_slice(),
        )?;
    }
    Ok(())
}

/// Prints the outcome of a race of a script's runs: the history, then each session's answers.
///
/// `asked` has, for each statement of each session, whether it asks for identifiers in hexadecimal digits.
/// May return `NoMemory`. Doesn't wait.
/// Own rule: docs/COMMANDS.md#race.
pub fn print_outcome(
    alloc: Global,
    asked: &[Vec<bool>],
    history: &[Entry],
    answers: &[Vec<Answer>],
) -> Result<Vec<u8>, NoMemory>
    ensures { (lines : List (List ℕ))
        → AreAsked lines (map (λ list. list.items) asked.now)
        → IfOk result (λ text. text.items ≡ outcome_text lines history.now
        (map (λ answers. answers.items) answers.now)) }
{
    let mut text = Vec::new(alloc);
    push_history(alloc, &mut text, history)?;
    push_answers(alloc, &mut text, asked, answers)?;
    Ok(text)
}
