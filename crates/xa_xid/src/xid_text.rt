//! Identifiers: reading one at a place in a text, and writing its canonical text.
ghost use Rattle.std.specs.Prelude.{◌≡◌, ℕ, ◌≤◌, ◌++◌, length, MatchResult, IfOk, IfErr, IfSome, option_copied};
ghost use Rattle.hex.specs.Hex.{encode_lower};
ghost use Rattle.xa_xid.specs.{Bytes.unblank, Faults.FaultyXid, Limits.text_bytes, Literal.Between};
ghost use Rattle.xa_xid.specs.{declared.xid.Xid.Xid, XidText.{XidAt, xid_ahead, xid_from, gtrid_next, bqual_next}};
ghost use Rattle.xa_xid.specs.XidText.{format_id_next, comma_next, part_text, xid_text};

use crate::byte_class::text_from;
use crate::literal::literal_of;
use crate::number::number_of;
use crate::{Bytes, LiteralFault, NoMemory, Xid, skip_blanks};
use arrayvec::ArrayVec;
use itoa::Buffer;
use std::alloc::Global;

/// An identifier and the text after it, or the fault and the text from the faulty token on.
type Parse<'a> = Result<(Xid, &'a [u8]), (LiteralFault, &'a [u8])>;

/// Reads the identifier that begins at `at`, and returns it with the place after its last token.
///
/// `at` is in `[0, length]`. Blanks before each token are skipped. Errors: the fault of the first token
/// that isn't the one expected, and the place where that token begins. If no token is left, the place is
/// the text's length. Takes no memory. Doesn't wait.
/// Source: MySQL 8.0 Reference Manual, 'XA Transaction SQL Statements'.
/// The places of faults are our own rule: docs/STATEMENTS.md#identifiers.
#[tactic(auto, unfolding(crate::specs::XidText::xid_ahead))]
pub fn read_xid(text: &[u8], at: usize) -> Result<(Xid, usize), (LiteralFault, usize)>
    requires { at ≤ length text.now }
    ensures value { result ≡ xid_from text.now at }
    // Proved (statements, tokens-are-read-as-spelled)
    ensures spelled { IfOk result (λ found. Between XidAt text.now at found.0 found.1) }
    // Proved (statements, tokens-are-read-as-spelled)
    ensures complete { (xid : Xid) (next : ℕ) → Between XidAt text.now at xid next → result ≡ Ok (xid, next) }
    // Proved (statements, xid-faults): An identifier is refused with a fault and a place exactly if the
    //   token at that place is the first faulty one, and has this fault.
    ensures faulty { IfErr result (λ found. Between FaultyXid text.now at found.0 found.1) }
    // Proved (statements, xid-faults)
    ensures told { (fault : LiteralFault) (place : ℕ) → Between FaultyXid text.now at fault place
        → result ≡ Err (fault, place) }
{
    match read_gtrid(skip_blanks(text_from(text, at))) {
        Ok((xid, rest)) => Ok((xid, text.len() - rest.len())),
        Err((fault, rest)) => Err((fault, text.len() - rest.len())),
    }
}

/// Reads an xid from its gtrid on, and returns it with the text after it. If no comma follows the gtrid, the bqual is
/// empty and the formatID 1. After a fault it returns the text from the faulty token on.
fn read_gtrid(text: &[u8]) -> Parse<'_>
    ensures value { MatchResult result
        (λ found. gtrid_next text.now ≡ Ok (found.0, found.1.now))
        (λ fault. gtrid_next text.now ≡ Err (fault.0, fault.1.now)) }
    ensures within { MatchResult result
        (λ found. length found.1.now ≤ length text.now)
        (λ fault. length fault.1.now ≤ length text.now) }
{
    match literal_of(text) {
        Ok((gtrid, rest)) => match after_comma(rest) {
            Some(next) => read_bqual(gtrid, skip_blanks(next)),
            None => Ok((
                Xid {
                    format_id: 1,
                    gtrid,
                    bqual: Bytes::new(),
                },
                rest,
            )),
        },
        Err(fault) => Err((fault, text)),
    }
}

/// Reads the bqual and, if a comma follows, the formatID of an xid with this gtrid; returns the xid with the text after
/// it. Without a comma the formatID is 1. After a fault it returns the text from the faulty token on.
fn read_bqual(gtrid: Bytes, text: &[u8]) -> Parse<'_>
    ensures value { MatchResult result
        (λ found. bqual_next gtrid text.now ≡ Ok (found.0, found.1.now))
        (λ fault. bqual_next gtrid text.now ≡ Err (fault.0, fault.1.now)) }
    ensures within { MatchResult result
        (λ found. length found.1.now ≤ length text.now)
        (λ fault. length fault.1.now ≤ length text.now) }
{
    match literal_of(text) {
        Ok((bqual, rest)) => match after_comma(rest) {
            Some(next) => read_format_id(gtrid, bqual, skip_blanks(next)),
            None => Ok((
                Xid {
                    format_id: 1,
                    gtrid,
                    bqual,
                },
                rest,
            )),
        },
        Err(fault) => Err((fault, text)),
    }
}

/// Reads the formatID, with which an xid of this gtrid and bqual ends; returns the xid with the text after it, or a
/// fault with the text that should begin with the number.
fn read_format_id(gtrid: Bytes, bqual: Bytes, text: &[u8]) -> Parse<'_>
    ensures value { MatchResult result
        (λ found. format_id_next gtrid bqual text.now ≡ Ok (found.0, found.1.now))
        (λ fault. format_id_next gtrid bqual text.now ≡ Err (fault.0, fault.1.now)) }
    ensures within { MatchResult result
        (λ found. length found.1.now ≤ length text.now)
        (λ fault. length fault.1.now ≤ length text.now) }
{
    match number_of(text) {
        Ok((format_id, rest)) => Ok((
            Xid {
                format_id,
                gtrid,
                bqual,
            },
            rest,
        )),
        Err(fault) => Err((fault, text)),
    }
}

/// Returns the text after a comma, if the first byte that isn't a blank is one; else `None`.
fn after_comma(text: &[u8]) -> Option<&[u8]>
    ensures value { option_copied result ≡ comma_next (unblank text.now) }
    ensures within { IfSome result (λ next. length next.now ≤ length text.now) }
{
    let next = skip_blanks(text);
    if !next.is_empty() && next[0] == b',' {
        Some(text_from(next, 1))
    } else {
        None
    }
}

/// Writes the canonical text of the identifier: gtrid, bqual and formatID with commas between them and no
/// blanks.
///
/// May return `NoMemory`. Doesn't wait.
/// Own rule: docs/STATEMENTS.md#canonical-form.
pub fn write_xid(alloc: Global, xid: &Xid) -> Result<Vec<u8>, NoMemory>
    // Proved (statements, canonical-xid): The text that is written for an identifier is its canonical text.
    ensures { IfOk result (λ text. text.items ≡ xid_text xid.now) }
{
    with_xid(Vec::new(alloc), xid)
}

/// Appends the canonical text of an identifier to a text.
///
/// May return `NoMemory`; the text is then dropped. Doesn't wait.
pub fn with_xid(text: Vec<u8>, xid: &Xid) -> Result<Vec<u8>, NoMemory>
    // Proved (statements, canonical-xid)
    ensures { IfOk result (λ longer. longer.items ≡ text.items ++ xid_text xid.now) }
{
    let mut longer = with_part(text, xid.gtrid.as_slice())?;
    longer.push(b',')?;
    let mut longer = with_part(longer, xid.bqual.as_slice())?;
    longer.push(b',')?;
    let mut buffer = Buffer::new();
    longer.extend_from_slice(buffer.format(xid.format_id).as_bytes())?;
    Ok(longer)
}

/// Appends the canonical text of a gtrid, a bqual, a key or a value to a text.
///
/// `bytes` are at most 64. May return `NoMemory`; the text is then dropped. Doesn't wait.
/// Own rule: docs/STATEMENTS.md#canonical-form.
pub fn with_part(mut text: Vec<u8>, bytes: &[u8]) -> Result<Vec<u8>, NoMemory>
    requires { length bytes.now ≤ text_bytes }
    ensures { IfOk result (λ longer. longer.items ≡ text.items ++ part_text bytes.now) }
{
    // `0x` without a digit is no literal.
    if bytes.is_empty() {
        text.extend_from_slice(b"X''")?;
    } else {
        text.extend_from_slice(b"0x")?;
        text.extend_from_slice(small_digits(bytes).as_slice())?;
    }
    Ok(text)
}

/// Returns two lower-case hexadecimal digits for each byte.
fn small_digits(bytes: &[u8]) -> ArrayVec<u8, 128>
    requires { length bytes.now ≤ text_bytes }
    ensures { result.items ≡ encode_lower bytes.now }
{
    // Two digits for each of at most 64 bytes.
    let mut digits = ArrayVec::from([0; 128]);
    digits.truncate(2 * bytes.len());
    // It fails only if the lengths don't fit, and they do.
    let _ = hex::encode_to_slice(bytes, digits.as_mut_slice());
    digits
}
