//! Statements, written in their canonical form.
ghost use Rattle.std.specs.Prelude.{◌≡◌, ◌++◌, ◌≢◌, ◌∷◌, IfOk};
ghost use Rattle.xa_statement.specs.Canonical.{statement_text};
ghost use Rattle.xa_xid.specs.XidText.{part_text, xid_text};

use std::alloc::Global;
use xa_xid::{Key, NoMemory, Statement, Xid, with_part, with_xid};

/// Writes the canonical text of a statement: capitals, one space between tokens but none beside a comma,
/// literals in hexadecimal digits, no `;`.
///
/// The statement isn't `Unsupported`. May return `NoMemory`; nothing is kept then. Doesn't wait.
/// Own rule: docs/STATEMENTS.md#canonical-form.
#[tactic(auto, unfolding(crate::specs::Canonical::statement_text))]
pub fn write_statement(alloc: Global, statement: &Statement) -> Result<Vec<u8>, NoMemory>
    requires { statement.now ≢ Statement.Unsupported }
    // Proved (statements, canonical-text): The text that is written for a statement is its canonical text,
    //   and that text spells the statement.
    ensures { IfOk result (λ text. text.items ≡ statement_text statement.now) }
{
    let text = Vec::new(alloc);
    match statement {
        Statement::Start(xid) => xid_statement(text, b"XA START ", xid, b""),
        Statement::End(xid) => xid_statement(text, b"XA END ", xid, b""),
        Statement::Prepare(xid) => xid_statement(text, b"XA PREPARE ", xid, b""),
        Statement::Commit { xid, one_phase } => {
            if *one_phase {
                xid_statement(text, b"XA COMMIT ", xid, b" ONE PHASE")
            } else {
                xid_statement(text, b"XA COMMIT ", xid, b"")
            }
        }
        Statement::Rollback(xid) => xid_statement(text, b"XA ROLLBACK ", xid, b""),
        Statement::Recover { convert } => {
            if *convert {
                with_text(text, b"XA RECOVER CONVERT XID")
            } else {
                with_text(text, b"XA RECOVER")
            }
        }
        // It has no canonical form, and is excluded by the clause above.
        Statement::Unsupported => unreachable!(),
        Statement::Get(key) => key_statement(text, b"GET ", key),
        Statement::Put(key, value) => {
            let mut text = key_statement(text, b"PUT ", key)?;
            text.push(b',')?;
            with_part(text, value.as_slice())
        }
        Statement::Del(key) => key_statement(text, b"DEL ", key),
        Statement::Disconnect => with_text(text, b"DISCONNECT"),
    }
}

/// Appends the words `before`, the canonical text of an xid, and the words `after` to a text.
fn xid_statement(text: Vec<u8>, before: &[u8], xid: &Xid, after: &[u8]) -> Result<Vec<u8>, NoMemory>
    ensures { IfOk result (λ longer.
        longer.items ≡ text.items ++ (before.now ++ (xid_text xid.now ++ after.now))) }
{
    with_text(with_xid(with_text(text, before)?, xid)?, after)
}

/// Appends the words `before` and the canonical text of a key to a text.
fn key_statement(text: Vec<u8>, before: &[u8], key: &Key) -> Result<Vec<u8>, NoMemory>
    ensures { IfOk result (λ longer. longer.items ≡ text.items ++ (before.now ++ part_text key.now)) }
{
    with_part(with_text(text, before)?, key.as_slice())
}

/// Appends words to a text.
fn with_text(mut text: Vec<u8>, words: &[u8]) -> Result<Vec<u8>, NoMemory>
    ensures { IfOk result (λ longer. longer.items ≡ text.items ++ words.now) }
{
    text.extend_from_slice(words)?;
    Ok(text)
}
