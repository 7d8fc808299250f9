//! Reads known differences between a server and the rules.
ghost use Rattle.std.specs.Prelude.{◌≡◌, ◌++◌, IfOk, OnOk, IfErr, Ok, option_to_list};
ghost use Rattle.xa_lines.specs.Script.{first_word, behind_word as behind_word_of, number_of_word};
ghost use Rattle.xa_record.specs.Allowances.{allowance_with, one_phase_allowed, xa_allowed, allowed as allowed_by};
ghost use Rattle.xa_record.specs.Allowances.{allowance_of, line_allows, allowances_of, IsAllowFaultOf};

use crate::allow_fault::AllowFault;
use crate::allowance::Allowance;
use crate::line::is_silent;
use crate::rows::behind_word;
use crate::statement_kind::StatementKind;
use std::alloc::Global;
use xa_lines::{number_in, split_line, split_word};
use xa_xid::{NoMemory, skip_blanks};

/// The allowance of which `rules` and `kind` were read: the first word of `text` is the server's number. None if it
/// isn't a number, if more than blanks follow it, or if one of the two numbers isn't below 65,536.
fn with_number(rules: u64, kind: StatementKind, text: &[u8]) -> Option<Allowance>
    ensures { result ≡ allowance_with rules kind text.now }
{
    let (word, rest) = split_word(text);
    match number_in(word) {
        None => None,
        Some(server) => {
            // An error's number has 16 bits, and only blanks may follow it.
            if skip_blanks(rest).is_empty() && rules < 65_536 && server < 65_536 {
                Some(Allowance {
                    rules: rules as u16,
                    kind,
                    server: server as u16,
                })
            } else {
                None
            }
        }
    }
}

/// The allowance of a line of which `rules`, the rules' number, and `XA COMMIT` were read: `word` and the first word
/// of `text` have to be `ONE` and `PHASE:`, and the server's number follows. Else None.
#[tactic(auto, unfolding(crate::specs::Allowances::one_phase_allowed))]
fn one_phase(rules: u64, word: &[u8], text: &[u8]) -> Option<Allowance>
    ensures { result ≡ one_phase_allowed rules word.now text.now }
{
    let (next, rest) = split_word(text);
    if word == b"ONE".as_slice() && next == b"PHASE:".as_slice() {
        with_number(rules, StatementKind::CommitOnePhase, skip_blanks(rest))
    } else {
        None
    }
}

/// The allowance of a line of which `rules`, the rules' number, and `XA` were read, by the next word and the text
/// behind it: the rest of a kind's words with a colon at their end, and the server's number. None if they are anything
/// else.
#[tactic(auto, unfolding(crate::specs::Allowances::xa_allowed))]
fn xa(rules: u64, word: &[u8], text: &[u8]) -> Option<Allowance>
    ensures { result ≡ xa_allowed rules word.now text.now }
{
    if word == b"START:".as_slice() {
        with_number(rules, StatementKind::Start, text)
    } else if word == b"END:".as_slice() {
        with_number(rules, StatementKind::End, text)
    } else if word == b"PREPARE:".as_slice() {
        with_number(rules, StatementKind::Prepare, text)
    } else if word == b"COMMIT:".as_slice() {
        with_number(rules, StatementKind::Commit, text)
    } else if word == b"COMMIT".as_slice() {
        one_phase(rules, split_word(text).0, behind_word(text))
    } else if word == b"ROLLBACK:".as_slice() {
        with_number(rules, StatementKind::Rollback, text)
    } else if word == b"RECOVER:".as_slice() {
        with_number(rules, StatementKind::Recover, text)
    } else {
        None
    }
}

/// The allowance of a line of which `rules`, the rules' number, was read, by the next word and the text behind it: a
/// kind's words with a colon at their end, and the server's number. None if they are anything else.
#[tactic(auto, unfolding(crate::specs::Allowances::allowed))]
fn allowed(rules: u64, word: &[u8], text: &[u8]) -> Option<Allowance>
    ensures { result ≡ allowed_by rules word.now text.now }
{
    if word == b"XA".as_slice() {
        xa(rules, split_word(text).0, behind_word(text))
    } else if word == b"GET:".as_slice() {
        with_number(rules, StatementKind::Get, text)
    } else if word == b"PUT:".as_slice() {
        with_number(rules, StatementKind::Put, text)
    } else if word == b"DEL:".as_slice() {
        with_number(rules, StatementKind::Del, text)
    } else if word == b"DISCONNECT:".as_slice() {
        with_number(rules, StatementKind::Disconnect, text)
    } else {
        None
    }
}

/// Reads an allowance such as `1399 XA COMMIT: 1400`: the rules' number, the words of a kind of statement with a
/// colon, and the server's number. The text doesn't begin with a blank. None if it isn't an allowance.
#[tactic(auto, unfolding(crate::specs::Allowances::allowance_of))]
fn read_allowance(text: &[u8]) -> Option<Allowance>
    ensures { result ≡ allowance_of text.now }
{
    match number_in(split_word(text).0) {
        None => None,
        Some(rules) => {
            let rest = behind_word(text);
            allowed(rules, split_word(rest).0, behind_word(rest))
        }
    }
}

/// What the line of this number allows: None if it is blank or a comment. The error is its number, if it is anything
/// else that isn't an allowance.
fn read_allow_line(number: u64, line: &[u8]) -> Result<Option<Allowance>, u64>
    ensures { result ≡ line_allows number line.now }
{
    if is_silent(line) {
        return Ok(None);
    }
    match read_allowance(skip_blanks(line)) {
        None => Err(number),
        Some(one) => Ok(Some(one)),
    }
}

/// Appends the allowance, if there is one.
fn push_found(list: &mut Vec<Allowance>, found: Option<Allowance>) -> Result<(), NoMemory>
    ensures { OnOk result (list.new.items ≡ list.old.items ++ option_to_list found) }
{
    match found {
        None => Ok(()),
        Some(one) => {
            list.push(one)?;
            Ok(())
        }
    }
}

/// Reads known differences between a server and the rules, one on each line.
///
/// A line is `NUMBER WORDS: NUMBER`: the number of the rules, the words of a kind of statement, and the
/// number of the server. Both numbers are in `[0, 65535]`. Lines are cut as in a script; blank lines and
/// comments say nothing.
/// Errors: `Line` with the number, from 1 on, of the first line that is none of these; `NoMemory` if an
/// allocation failed.
/// May return `NoMemory`. Doesn't wait.
/// Own rule: docs/HISTORIES.md#allowances.
#[tactic(auto, unfolding(crate::specs::Allowances::allowances_of))]
pub fn read_allowances(alloc: Global, text: &[u8]) -> Result<Vec<Allowance>, AllowFault>
    // Proved (records, allowances): A text of allowances is read as what its lines allow. If a line isn't an
    //   allowance, the fault names the first such line.
    ensures read { IfOk result (λ list. allowances_of text.now ≡ Ok list.items) }
    // Proved (records, allowances)
    ensures fault { IfErr result (IsAllowFaultOf (allowances_of text.now)) }
{
    let mut list = Vec::new(alloc);
    let mut number: u64 = 0;
    let mut rest = text;
    while !rest.is_empty() {
        let (line, lines) = split_line(rest);
        number += 1;
        match read_allow_line(number, line) {
            Err(faulty) => return Err(AllowFault::Line(faulty)),
            Ok(found) => push_found(&mut list, found)?,
        }
        rest = lines;
    }
    Ok(list)
}
