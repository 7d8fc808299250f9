//! The canonical text of an entry's statement, written without an allocation: none is longer than 304 bytes.
ghost use Rattle.std.specs.Prelude.{◌≡◌, ◌≤◌, ◌++◌, ◌∷◌, length};
ghost use Rattle.xa_statement.specs.Canonical.{statement_text};
ghost use Rattle.xa_xid.specs.{Limits.text_bytes, XidText.{part_text, xid_text}};
ghost use Rattle.hex.specs.Hex.{encode_lower};

use arrayvec::ArrayVec;
use itoa::Buffer;
use xa_xid::{Statement, Xid};

/// Two lower-case hexadecimal digits for each of at most 64 bytes.
fn small_digits(bytes: &[u8]) -> ArrayVec<u8, 128>
    requires { length bytes.now ≤ text_bytes }
    ensures { result.items ≡ encode_lower bytes.now }
{
    let mut digits = ArrayVec::from([0; 128]);
    digits.truncate(2 * bytes.len());
    // It fails only if the lengths don't fit, and they do.
    let _ = hex::encode_to_slice(bytes, digits.as_mut_slice());
    digits
}

/// The text of a gtrid, a bqual, a key or a value: `0x` and two digits for each of at most 64 bytes; `X''` if there are
/// none.
fn spell_part(bytes: &[u8]) -> ArrayVec<u8, 130>
    requires { length bytes.now ≤ text_bytes }
    ensures { result.items ≡ part_text bytes.now }
{
    // `0x` and at most 128 digits, so nothing here can be refused.
    let mut text = ArrayVec::<u8, 130>::new();
    // `0x` without a digit is no literal.
    if bytes.is_empty() {
        text.try_extend_from_slice(b"X''").unwrap();
    } else {
        let digits = small_digits(bytes);
        text.try_extend_from_slice(b"0x").unwrap();
        text.try_extend_from_slice(digits.as_slice()).unwrap();
    }
    text
}

/// The texts of a gtrid and a bqual, or of a key and a value, as `spell_part` has them, and a comma between them.
fn spell_pair(first: &[u8], second: &[u8]) -> ArrayVec<u8, 261>
    requires first { length first.now ≤ text_bytes }
    requires second { length second.now ≤ text_bytes }
    ensures { result.items ≡ part_text first.now ++ (44 ∷ part_text second.now) }
{
    let first = spell_part(first);
    let second = spell_part(second);
    // Twice 130 bytes and a comma, so nothing here can be refused.
    let mut text = ArrayVec::<u8, 261>::new();
    text.try_extend_from_slice(first.as_slice()).unwrap();
    text.push(b',');
    text.try_extend_from_slice(second.as_slice()).unwrap();
    text
}

/// The text of an identifier: gtrid, bqual and formatID, which has at most 20 digits.
fn spell_xid(xid: &Xid) -> ArrayVec<u8, 282>
    ensures { result.items ≡ xid_text xid.now }
{
    let pair = spell_pair(xid.gtrid.as_slice(), xid.bqual.as_slice());
    let mut buffer = Buffer::new();
    // 261 bytes, a comma and 20 digits, so nothing here can be refused.
    let mut text = ArrayVec::<u8, 282>::new();
    text.try_extend_from_slice(pair.as_slice()).unwrap();
    text.push(b',');
    text.try_extend_from_slice(buffer.format(xid.format_id).as_bytes())
        .unwrap();
    text
}

/// A statement's words `before`, then `text`, which is its identifier, key or pair or more words, then words `after`.
fn between(before: &[u8], text: &[u8], after: &[u8]) -> ArrayVec<u8, 304>
    requires before { length before.now ≤ 12 }
    requires text { length text.now ≤ 282 }
    requires after { length after.now ≤ 10 }
    ensures { result.items ≡ before.now ++ (text.now ++ after.now) }
{
    // The longest words and identifier are `XA ROLLBACK ` with 12 bytes, 282 bytes and ` ONE PHASE` with 10. Together
    // these are 304, so nothing here can be refused.
    let mut whole = ArrayVec::<u8, 304>::new();
    whole.try_extend_from_slice(before).unwrap();
    whole.try_extend_from_slice(text).unwrap();
    whole.try_extend_from_slice(after).unwrap();
    whole
}

/// The text of a statement about a branch: words, its identifier, and more words.
fn with_xid(before: &[u8], xid: &Xid, after: &[u8]) -> ArrayVec<u8, 304>
    requires before { length before.now ≤ 12 }
    requires after { length after.now ≤ 10 }
    ensures { result.items ≡ before.now ++ (xid_text xid.now ++ after.now) }
{
    let xid = spell_xid(xid);
    between(before, xid.as_slice(), after)
}

/// The text of a statement about a row: words and its key.
fn with_key(before: &[u8], key: &[u8]) -> ArrayVec<u8, 304>
    requires before { length before.now ≤ 12 }
    requires key { length key.now ≤ text_bytes }
    ensures { result.items ≡ before.now ++ part_text key.now }
{
    let key = spell_part(key);
    between(before, key.as_slice(), b"")
}

/// The canonical text of a statement. None is longer than 304 bytes.
#[tactic(auto, unfolding(xa_statement::specs::Canonical::statement_text))]
pub(crate) fn spell(statement: &Statement) -> ArrayVec<u8, 304>
    ensures { result.items ≡ statement_text statement.now }
{
    match statement {
        Statement::Start(xid) => with_xid(b"XA START ", xid, b""),
        Statement::End(xid) => with_xid(b"XA END ", xid, b""),
        Statement::Prepare(xid) => with_xid(b"XA PREPARE ", xid, b""),
        Statement::Commit { xid, one_phase } => {
            if *one_phase {
                with_xid(b"XA COMMIT ", xid, b" ONE PHASE")
            } else {
                with_xid(b"XA COMMIT ", xid, b"")
            }
        }
        Statement::Rollback(xid) => with_xid(b"XA ROLLBACK ", xid, b""),
        Statement::Recover { convert } => {
            if *convert {
                between(b"XA RECOVER", b" CONVERT XID", b"")
            } else {
                between(b"XA RECOVER", b"", b"")
            }
        }
        // It has no canonical text, and is never logged.
        Statement::Unsupported => ArrayVec::<u8, 304>::new(),
        Statement::Get(key) => with_key(b"GET ", key.as_slice()),
        Statement::Put(key, value) => {
            let pair = spell_pair(key.as_slice(), value.as_slice());
            between(b"PUT ", pair.as_slice(), b"")
        }
        Statement::Del(key) => with_key(b"DEL ", key.as_slice()),
        Statement::Disconnect => between(b"DISCONNECT", b"", b""),
    }
}
