//! Laws of the grammar, as contracts over its definitions.
ghost use Rattle.std.specs.Prelude.{◌≡◌, ◌≢◌, ◌↔◌, ℕ, List};
ghost use Rattle.xa_xid.specs.declared.statement.Statement.{Statement};
ghost use Rattle.xa_statement.specs.{Canonical.{statement_text, IsKey}, FaultPlace.FaultAt, Grammar.Spells};
ghost use Rattle.xa_statement.specs.Reading.{read_of};

use xa_xid::laws::{are_bytes, is_writable};
use xa_xid::{Key, Statement};

/// States that reading and the grammar agree.
///
/// A text is read as a statement exactly if the grammar spells it so, and as a place exactly if the text
/// stops being a statement there. Takes no memory. Doesn't wait.
pub fn reading_is_the_grammar()
    // Proved (statements, reading-is-the-grammar): The function by which the transcript reads a text agrees
    //   with the grammar in both directions, and a text spells at most one statement.
    ensures spelled { (text : List ℕ) (statement : Statement) → (read_of text ≡ Ok statement) ↔ Spells text statement }
    // Proved (statements, reading-is-the-grammar)
    ensures fault { (text : List ℕ) (place : ℕ) → (read_of text ≡ Err place) ↔ FaultAt text place }
{}

/// States that a text spells at most one statement.
///
/// Takes no memory. Doesn't wait.
pub fn spelled_statement_is_the_only_one()
    // Proved (statements, reading-is-the-grammar)
    ensures { (text : List ℕ) (one other : Statement) → Spells text one → Spells text other → one ≡ other }
{}

/// States that the canonical text of a statement spells that statement.
///
/// The statement isn't `Unsupported`. Takes no memory. Doesn't wait.
pub fn canonical_text_is_spelled(statement: &Statement)
    requires { statement.now ≢ Statement.Unsupported }
    // Proved (statements, canonical-text)
    ensures { Spells (statement_text statement.now) statement.now }
{
    // Each arm brings in what the types of the statement's parts promise: bytes, of no more than the greatest length.
    match statement {
        Statement::Start(xid) => is_writable(xid),
        Statement::End(xid) => is_writable(xid),
        Statement::Prepare(xid) => is_writable(xid),
        Statement::Commit { xid, one_phase: _ } => is_writable(xid),
        Statement::Rollback(xid) => is_writable(xid),
        Statement::Recover { convert: _ } => {}
        // It has no canonical form, and is excluded by the clause above.
        Statement::Unsupported => unreachable!(),
        Statement::Get(key) => is_key(key),
        Statement::Put(key, value) => {
            is_key(key);
            are_bytes(value.as_slice());
        }
        Statement::Del(key) => is_key(key),
        Statement::Disconnect => {}
    }
}

/// States that a key is 1 to 64 bytes.
fn is_key(key: &Key)
    ensures { IsKey key.now }
{
    are_bytes(key.as_slice());
}
