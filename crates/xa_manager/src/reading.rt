//! Reading lines as calls. A line that can't be read is the call `Unread`: with the byte at which its statement is
//! wrong, or with 0 if another part of the line is.
ghost use Rattle.std.specs.Prelude.{◌≡◌, Some, None, MatchOption};
ghost use Rattle.xa_lines.specs.Script.{first_word, behind_word, number_of_word};
ghost use Rattle.xa_manager.specs.Calls.{lone_number, takes_rows, alone as alone_call, work_of, at_of, fail_of};
ghost use Rattle.xa_manager.specs.Calls.{plain_call, call_named, call_of, numbered, IsWritten};

use crate::Call;
use xa_lines::{is_comment, number_in, split_word};
use xa_statement::read_statement;
use xa_xid::{Statement, skip_blanks};

/// The number in the text's first word, and the text after that word and its blanks. None if that word is no number.
fn number_then(text: &[u8]) -> Option<(u64, &[u8])>
    ensures { MatchOption result
        (number_of_word (first_word text.now) ≡ None)
        (λ found. (number_of_word (first_word text.now) ≡ Some found.0) × (found.1.now ≡ behind_word text.now)) }
{
    let (word, rest) = split_word(text);
    match number_in(word) {
        Some(number) => Some((number, skip_blanks(rest))),
        None => None,
    }
}

/// The number that is all of the text, except for blanks after it. None if the text is anything else.
#[tactic(auto, unfolding(crate::specs::Calls::lone_number))]
fn number_alone(text: &[u8]) -> Option<u64>
    ensures { result ≡ lone_number text.now }
{
    let (word, rest) = split_word(text);
    if skip_blanks(rest).is_empty() {
        number_in(word)
    } else {
        None
    }
}

/// Whether a transaction can give the statement: `GET`, `PUT` or `DEL`.
fn is_row(statement: &Statement) -> bool
    ensures { result ≡ takes_rows statement.now }
{
    match statement {
        Statement::Get(_) => true,
        Statement::Put(_, _) => true,
        Statement::Del(_) => true,
        Statement::Start(_) | Statement::End(_) | Statement::Prepare(_) => false,
        Statement::Commit { .. } | Statement::Rollback(_) => false,
        Statement::Recover { .. } | Statement::Unsupported | Statement::Disconnect => false,
    }
}

/// The call, if nothing comes after its word; else `Unread`. `rest` is what comes after it, without the blanks between.
fn alone(call: Call, rest: &[u8]) -> Call
    requires { IsWritten call }
    ensures call { result ≡ alone_call call rest.now }
    ensures written { IsWritten result }
{
    if rest.is_empty() {
        call
    } else {
        Call::Unread(0)
    }
}

/// The call of a line WORK n k STATEMENT, by what stands behind WORK. If it can't be read, `Unread`: with the byte of
/// STATEMENT at which its text is wrong, or 0 if anything else is.
#[tactic(auto, unfolding(crate::specs::Calls::work_of))]
fn work(text: &[u8]) -> Call
    ensures call { result ≡ work_of text.now }
    ensures written { IsWritten result }
{
    let Some((number, text)) = number_then(text) else {
        return Call::Unread(0);
    };
    let Some((store, text)) = number_then(text) else {
        return Call::Unread(0);
    };
    match read_statement(text) {
        Ok(statement) => {
            if is_row(&statement) {
                Call::Work {
                    number,
                    store,
                    statement,
                }
            } else {
                // No byte of the statement is wrong: `WORK` doesn't take it.
                Call::Unread(0)
            }
        }
        Err(fault) => Call::Unread(fault.at),
    }
}

/// The call of a line AT k STATEMENT, by what stands behind AT. If it can't be read, `Unread`: with the byte of
/// STATEMENT at which its text is wrong, or 0 if k is.
#[tactic(auto, unfolding(crate::specs::Calls::at_of))]
fn at(text: &[u8]) -> Call
    ensures call { result ≡ at_of text.now }
    ensures written { IsWritten result }
{
    let Some((store, text)) = number_then(text) else {
        return Call::Unread(0);
    };
    match read_statement(text) {
        Ok(statement) => Call::At { store, statement },
        Err(fault) => Call::Unread(fault.at),
    }
}

/// The call of a line FAIL k AFTER j, by what stands behind FAIL. `Unread` if that isn't k AFTER j.
#[tactic(auto, unfolding(crate::specs::Calls::fail_of))]
fn fail(text: &[u8]) -> Call
    ensures call { result ≡ fail_of text.now }
    ensures written { IsWritten result }
{
    let Some((store, text)) = number_then(text) else {
        return Call::Unread(0);
    };
    let (word, rest) = split_word(text);
    if word != b"AFTER".as_slice() {
        return Call::Unread(0);
    }
    match number_alone(skip_blanks(rest)) {
        Some(calls) => Call::Fail { store, calls },
        None => Call::Unread(0),
    }
}

/// Reads a call that names no transaction. `word`: its first word. `rest`: what comes after the word and the blanks
/// behind it. `Unread` if the word names no such call, or if `rest` doesn't fit the call.
#[tactic(auto, unfolding(crate::specs::Calls::plain_call))]
fn plain(word: &[u8], rest: &[u8]) -> Call
    ensures call { result ≡ plain_call word.now rest.now }
    ensures written { IsWritten result }
{
    if word == b"BEGIN".as_slice() {
        alone(Call::Begin, rest)
    } else if word == b"AT".as_slice() {
        at(rest)
    } else if word == b"FAIL".as_slice() {
        fail(rest)
    } else if word == b"STOP".as_slice() {
        alone(Call::Stop, rest)
    } else if word == b"RECOVER".as_slice() {
        alone(Call::Recover, rest)
    } else if word == b"SHOW".as_slice() {
        alone(Call::Show, rest)
    } else {
        Call::Unread(0)
    }
}

/// The call of a line PREPARE n, by what stands behind PREPARE. `Unread` if that is no number alone.
fn prepare(text: &[u8]) -> Call
    ensures call { result ≡ numbered (λ number. Call.Prepare number) (lone_number text.now) }
    ensures written { IsWritten result }
{
    match number_alone(text) {
        Some(number) => Call::Prepare(number),
        None => Call::Unread(0),
    }
}

/// The call of a line DECIDE n, by what stands behind DECIDE. `Unread` if that is no number alone.
fn decide(text: &[u8]) -> Call
    ensures call { result ≡ numbered (λ number. Call.Decide number) (lone_number text.now) }
    ensures written { IsWritten result }
{
    match number_alone(text) {
        Some(number) => Call::Decide(number),
        None => Call::Unread(0),
    }
}

/// The call of a line FINISH n, by what stands behind FINISH. `Unread` if that is no number alone.
fn finish(text: &[u8]) -> Call
    ensures call { result ≡ numbered (λ number. Call.Finish number) (lone_number text.now) }
    ensures written { IsWritten result }
{
    match number_alone(text) {
        Some(number) => Call::Finish(number),
        None => Call::Unread(0),
    }
}

/// The call of a line ABANDON n, by what stands behind ABANDON. `Unread` if that is no number alone.
fn abandon(text: &[u8]) -> Call
    ensures call { result ≡ numbered (λ number. Call.Abandon number) (lone_number text.now) }
    ensures written { IsWritten result }
{
    match number_alone(text) {
        Some(number) => Call::Abandon(number),
        None => Call::Unread(0),
    }
}

/// Reads a call. `word`: its first word. `rest`: what comes after the word and the blanks behind it. `Unread` if the
/// word names no call, or if `rest` doesn't fit the call.
#[tactic(auto, unfolding(crate::specs::Calls::call_named))]
fn named(word: &[u8], rest: &[u8]) -> Call
    ensures call { result ≡ call_named word.now rest.now }
    ensures written { IsWritten result }
{
    if word == b"WORK".as_slice() {
        work(rest)
    } else if word == b"PREPARE".as_slice() {
        prepare(rest)
    } else if word == b"DECIDE".as_slice() {
        decide(rest)
    } else if word == b"FINISH".as_slice() {
        finish(rest)
    } else if word == b"ABANDON".as_slice() {
        abandon(rest)
    } else {
        plain(word, rest)
    }
}

/// Reads a line as a call.
///
/// `line`: without its line feed. Words are separated by blanks. A line of blanks, and one whose first byte
/// that isn't blank is `#`, is no call: `Silent`. A line that can't be read is the call `Unread`.
/// Takes no memory. Doesn't wait.
/// Own rule: docs/COORDINATOR.md#calls.
#[tactic(auto, unfolding(crate::specs::Calls::call_of))]
pub fn read_call(line: &[u8]) -> Call
    // Proved (manager, read-call): A line is read as one call, by the definitions. Work is `GET`, `PUT` or
    //   `DEL`.
    ensures call { result ≡ call_of line.now }
    // Proved (manager, read-call)
    ensures written { IsWritten result }
{
    if is_comment(line) {
        return Call::Silent;
    }
    let text = skip_blanks(line);
    if text.is_empty() {
        return Call::Silent;
    }
    let (word, rest) = split_word(text);
    named(word, skip_blanks(rest))
}
