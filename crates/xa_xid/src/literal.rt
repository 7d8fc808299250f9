//! Literals of every form, read at a place in a text.
ghost use Rattle.std.specs.Prelude.{◌≡◌, ◌↔◌, ℕ, ◌≤◌, ◌<◌, length, drop, MatchResult, IfOk, IsTrue, option_copied};
ghost use Rattle.xa_xid.specs.{Bytes.{belongs, front, behind, run, after_run}, Xid.Text, Faults.FaultyLiteral};
ghost use Rattle.xa_xid.specs.{Limits.text_digits, Literal.{TextAt, Between, decoded, evened, hex_digits_of}};
ghost use Rattle.xa_xid.specs.Literal.{hex_in_quotes_of, hex_run_of, literal_ahead, literal_from, opens_text};
ghost use Rattle.xa_xid.specs.Literal.{opens_hex};

use crate::byte_class::text_from;
use crate::quoted::text_literal;
use crate::{ByteClass, Bytes, LiteralFault};
use arrayvec::ArrayVec;

/// Reads the literal that begins at `at`, and returns its bytes with the place after it.
///
/// `at` is in `[0, length]`. Errors: `Unclosed`, `TooLong`, `NotALiteral` or `OddHex`; if several hold, the
/// first in the table of faults. Takes no memory. Doesn't wait.
/// Source: MySQL 8.0 Reference Manual, 'String Literals' and 'Hexadecimal Literals'.
/// The faults are our own rule: docs/STATEMENTS.md#literals.
pub fn read_literal(text: &[u8], at: usize) -> Result<(Bytes, usize), LiteralFault>
    requires { at ≤ length text.now }
    ensures value { result ≡ literal_from text.now at }
    // Proved (statements, tokens-are-read-as-spelled): A literal of at most 64 bytes, the number of a
    //   formatID, or an identifier is read exactly if the text spells it at that place. Its bytes, its
    //   value or its three parts are returned, with the place after it.
    ensures spelled { IfOk result (λ found. Between TextAt text.now at found.0 found.1) }
    // Proved (statements, tokens-are-read-as-spelled)
    ensures complete { (bytes : Text) (next : ℕ) → Between TextAt text.now at bytes next → result ≡ Ok (bytes, next) }
    // Proved (statements, literal-and-number-faults): A literal or a number is refused with a fault exactly
    //   if that is the first fault in the table of faults that holds.
    ensures faulty { (fault : LiteralFault) → (result ≡ Err fault) ↔ FaultyLiteral (drop at text.now) fault }
{
    let (bytes, rest) = literal_of(text_from(text, at))?;
    Ok((bytes, text.len() - rest.len()))
}

/// Reads the literal that a text begins with, and returns its bytes with the rest of the text.
///
/// Errors: as for `read_literal`. Takes no memory. Doesn't wait.
/// Source: as for `read_literal`.
#[tactic(auto, unfolding(crate::specs::Literal::literal_ahead))]
pub fn literal_of(text: &[u8]) -> Result<(Bytes, &[u8]), LiteralFault>
    ensures value { MatchResult result
        (λ found. literal_ahead text.now ≡ Ok (found.0, found.1.now))
        (λ fault. literal_ahead text.now ≡ Err fault) }
    ensures within { IfOk result (λ found. length found.1.now ≤ length text.now) }
{
    if begins_text(text) {
        text_literal(text[0], text_from(text, 1))
    } else if begins_hex(text) {
        hex_in_quotes(text_from(text, 2))
    } else {
        // Of other texts only `0x` and digits is a literal.
        hex_run(text)
    }
}

/// Returns whether the text begins with a quote.
fn begins_text(text: &[u8]) -> bool
    ensures value { result ≡ opens_text text.now }
    ensures some { IsTrue result → 1 ≤ length text.now }
{
    !text.is_empty() && (text[0] == b'\'' || text[0] == b'"')
}

/// Returns whether the text begins with an `X`, large or small, and a single quote.
fn begins_hex(text: &[u8]) -> bool
    ensures value { result ≡ opens_hex text.now }
    ensures some { IsTrue result → 2 ≤ length text.now }
{
    text.len() >= 2 && (text[0] == b'X' || text[0] == b'x') && text[1] == b'\''
}

/// Reads the hexadecimal digits after `X'`, up to the closing quote; returns the bytes that they spell and the text
/// after the quote.
fn hex_in_quotes(body: &[u8]) -> Result<(Bytes, &[u8]), LiteralFault>
    ensures value { let digits = front (belongs ByteClass.Hexadecimal) body.now in
        let rest = behind (belongs ByteClass.Hexadecimal) body.now in
        MatchResult result
        (λ found. hex_in_quotes_of digits rest ≡ Ok (found.0, found.1.now))
        (λ fault. hex_in_quotes_of digits rest ≡ Err fault) }
    ensures within { IfOk result (λ found. length found.1.now ≤ length body.now) }
{
    let (digits, rest) = ByteClass::Hexadecimal.split(body);
    // Only the first fault is told: the text ends, another byte comes, the digits are odd in number, or they are more
    // than the 128 of 64 bytes.
    if rest.is_empty() {
        Err(LiteralFault::Unclosed)
    } else if rest[0] != b'\'' {
        Err(LiteralFault::NotALiteral)
    } else if digits.len() % 2 == 1 {
        Err(LiteralFault::OddHex)
    } else if digits.len() > 128 {
        Err(LiteralFault::TooLong)
    } else {
        bytes_of(digits, text_from(rest, 1))
    }
}

/// Reads the run of word bytes that the text begins with, as `0x` and hexadecimal digits; returns the bytes that they
/// spell and the text after the run. Errors: `NotALiteral` for any other run, `TooLong` for more than 64 bytes.
fn hex_run(text: &[u8]) -> Result<(Bytes, &[u8]), LiteralFault>
    ensures value { let digits = hex_digits_of (run text.now) in
        MatchResult result
        (λ found. hex_run_of digits (after_run text.now) ≡ Ok (found.0, found.1.now))
        (λ fault. hex_run_of digits (after_run text.now) ≡ Err fault) }
    ensures within { IfOk result (λ found. length found.1.now ≤ length text.now) }
{
    let (run, rest) = ByteClass::Word.split(text);
    match hex_digits(run) {
        None => Err(LiteralFault::NotALiteral),
        Some(digits) => {
            // A text has at most 64 bytes, and a byte two digits.
            if digits.len() > 128 {
                Err(LiteralFault::TooLong)
            } else {
                bytes_of(even_digits(digits).as_slice(), rest)
            }
        }
    }
}

/// Returns the digits of a run that is `0x` and one or more hexadecimal digits; `None` for another run.
pub(crate) fn hex_digits(run: &[u8]) -> Option<&[u8]>
    ensures { option_copied result ≡ hex_digits_of run.now }
{
    // At least one digit comes after `0x`, whose `x` is small.
    if run.len() < 3 || run[0] != b'0' || run[1] != b'x' {
        return None;
    }
    let digits = text_from(run, 2);
    if ByteClass::Hexadecimal.split(digits).1.is_empty() {
        Some(digits)
    } else {
        None
    }
}

/// Returns the digits, with a 0 in front if they are odd in number.
fn even_digits(digits: &[u8]) -> ArrayVec<u8, 128>
    requires { length digits.now ≤ text_digits }
    ensures { result.items ≡ evened digits.now }
{
    let mut even = ArrayVec::new();
    // `0xabc` stands for the bytes 0a bc.
    if digits.len() % 2 == 1 {
        even.push(b'0');
    }
    // At most 128 digits, or an odd number of them and one more: they fit.
    let _ = even.try_extend_from_slice(digits);
    even
}

/// Returns the bytes that hexadecimal digits spell, with `rest`, the text after the literal. The fault is `NotALiteral`
/// if the digits are odd in number or one isn't hexadecimal; no caller gives such.
fn bytes_of<'a>(digits: &[u8], rest: &'a [u8]) -> Result<(Bytes, &'a [u8]), LiteralFault>
    requires { length digits.now ≤ text_digits }
    ensures value { MatchResult result
        (λ found. decoded digits.now rest.now ≡ Ok (found.0, found.1.now))
        (λ fault. decoded digits.now rest.now ≡ Err fault) }
    ensures rest { IfOk result (λ found. found.1.now ≡ rest.now) }
{
    // As many bytes as the digits spell, to be overwritten.
    let mut bytes = Bytes::from([0; 64]);
    bytes.truncate(digits.len() / 2);
    match hex::decode_to_slice(digits, bytes.as_mut_slice()) {
        Ok(()) => Ok((bytes, rest)),
        // Both callers give hexadecimal digits, even in number, so this doesn't come.
        Err(_) => Err(LiteralFault::NotALiteral),
    }
}
