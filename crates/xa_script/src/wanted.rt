//! What has to come at the place where a text stops being a statement.
ghost use Rattle.std.specs.Prelude.{◌≡◌, ◌<◌, IfOk, vec_len};
ghost use Rattle.xa_script.specs.Wanted.{takes_next};

use std::alloc::Global;
use xa_statement::read_statement;
use xa_xid::NoMemory;

/// Tokens of the grammar: one of each kind, with its name. Only `;` is left out, which may stand just before the end.
const TOKENS: [(&[u8], &str); 24] = [
    (b"XA", "XA"),
    (b"GET", "GET"),
    (b"PUT", "PUT"),
    (b"DEL", "DEL"),
    (b"DISCONNECT", "DISCONNECT"),
    (b"START", "START"),
    (b"BEGIN", "BEGIN"),
    (b"END", "END"),
    (b"PREPARE", "PREPARE"),
    (b"COMMIT", "COMMIT"),
    (b"ROLLBACK", "ROLLBACK"),
    (b"RECOVER", "RECOVER"),
    (b"'a'", "a quoted text or 0x.."),
    (b"1", "a number below 2^64"),
    (b",", "a comma"),
    (b"ONE", "ONE"),
    (b"PHASE", "PHASE"),
    (b"JOIN", "JOIN"),
    (b"RESUME", "RESUME"),
    (b"SUSPEND", "SUSPEND"),
    (b"FOR", "FOR"),
    (b"MIGRATE", "MIGRATE"),
    (b"CONVERT", "CONVERT"),
    (b"XID", "XID"),
];

/// Returns whether reading the front, a blank and this token doesn't go wrong at the token. If the front begins some
/// statement, that is whether some statement goes on with the token.
fn takes(alloc: Global, front: &[u8], token: &[u8]) -> Result<bool, NoMemory>
    // Proved (scripts, wanted-tokens): A token may come behind a text exactly if reading the text, a blank and the
    //   token doesn't go wrong at the token.
    ensures { IfOk result (λ taken. taken ≡ takes_next front.now token.now) }
{
    let mut text = Vec::from_slice(alloc, front)?;
    text.extend_from_slice(b" ")?;
    let place = text.len() as u64;
    text.extend_from_slice(token)?;
    match read_statement(text.as_slice()) {
        Ok(_) => Ok(true),
        // A fault at another place, as at the end of the text, isn't the token's.
        Err(fault) => Ok(fault.at != place),
    }
}

/// Returns the names of those of `TOKENS` with which some statement goes on after the front. The end of the line is
/// among them if the front is a statement, or none of them goes on.
fn names_behind(alloc: Global, front: &[u8]) -> Result<Vec<&'static str>, NoMemory>
    ensures { IfOk result (λ names. 0 < vec_len names) }
{
    let mut names = Vec::new(alloc);
    for (token, name) in TOKENS.iter() {
        if takes(alloc, front, token)? {
            names.push(*name)?;
        }
    }
    // A list of nothing would say nothing, so the end is named also if no statement begins so.
    if names.is_empty() || read_statement(front).is_ok() {
        names.push("the end of the line")?;
    }
    Ok(names)
}

/// Returns the names in one text, with commas between them and `or` before the last.
fn joined(alloc: Global, names: &[&str]) -> Result<String, NoMemory> {
    let mut text = String::new(alloc);
    for index in 0..names.len() {
        if index > 0 {
            let between = if index + 1 == names.len() {
                " or "
            } else {
                ", "
            };
            text.push_str(between)?;
        }
        text.push_str(names[index])?;
    }
    Ok(text)
}

/// Returns what has to come at a byte of a text: the names that `names_behind` has for the text before it, joined
/// in one text.
///
/// `at`, from 0, is the place at which reading the text goes wrong.
/// Errors: `NoMemory`. Doesn't wait.
/// Own rule: docs/COMMANDS.md#options-of-every-job.
pub fn wanted_at(alloc: Global, text: &[u8], at: usize) -> Result<String, NoMemory> {
    // A fault is never behind the text's end, but only a slice within the text can be taken.
    let front = &text[..at.min(text.len())];
    let names = names_behind(alloc, front)?;
    joined(alloc, names.as_slice())
}
