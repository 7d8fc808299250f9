//! The limits of a statement's parts, as their types give them.
ghost use Rattle.std.specs.Prelude.{◌≤◌, length};
ghost use Rattle.xa_xid.specs.Limits.{text_bytes};
ghost use Rattle.xa_words.specs.Entry.{IsText, IsXid, IsNonEmptyText, KeepsLimits};

use xa_xid::{Bytes, Key, Statement, Xid};

/// States that a text of at most 64 bytes keeps the limit of an entry's texts.
fn of_bytes(bytes: &[u8])
    requires { length bytes.now ≤ text_bytes }
    ensures { IsText bytes.now }
{}

/// States that a text has at most 64 bytes.
pub(crate) fn of_text(text: &Bytes)
    ensures { IsText text.now.items }
{
    of_bytes(text.as_slice());
}

/// States that an identifier is within the limits of its parts.
fn of_xid(xid: &Xid)
    ensures { IsXid xid.now }
{
    // The proof needs that the number is below 2^64, as a field of 64 bits is.
    let _format_id = xid.format_id;
    of_text(&xid.gtrid);
    of_text(&xid.bqual);
}

/// States that a key has 1 to 64 bytes.
fn of_key(key: &Key)
    ensures { IsNonEmptyText key.now }
{
    of_bytes(key.as_slice());
}

/// States that a statement is within the limits of its types.
pub(crate) fn of_statement(statement: &Statement)
    ensures { KeepsLimits statement.now }
{
    match statement {
        Statement::Start(xid) => of_xid(xid),
        Statement::End(xid) => of_xid(xid),
        Statement::Prepare(xid) => of_xid(xid),
        Statement::Commit { xid, .. } => of_xid(xid),
        Statement::Rollback(xid) => of_xid(xid),
        Statement::Get(key) => of_key(key),
        Statement::Put(key, value) => {
            of_key(key);
            of_text(value);
        }
        Statement::Del(key) => of_key(key),
        // The others, `XA RECOVER`, unsupported statements and `DISCONNECT`, have no such part.
        _ => {}
    }
}
