//! Numbers, as in a formatID.
ghost use Rattle.std.specs.Prelude.{◌≡◌, ◌↔◌, ℕ, ◌≤◌, ◌<◌, ◌^◌, length, drop, MatchResult, MatchOption, IfOk};
ghost use Rattle.std.specs.{Char.digit_value, Str.Parse.digits_value};
ghost use Rattle.xa_xid.specs.{Faults.FaultyNumber, Literal.Between};
ghost use Rattle.xa_xid.specs.Number.{NumberAt, number_ahead, number_from, number_in, fitting};

use crate::byte_class::text_from;
use crate::literal::hex_digits;
use crate::{ByteClass, LiteralFault};

/// Reads the number that begins at `at`, and returns its value with the place after it.
///
/// `at` is in `[0, length]`. Errors: `NotALiteral` if the run of word bytes there isn't a number;
/// `NumberTooLarge` if it is a number above 2^64-1. Takes no memory. Doesn't wait.
/// Own rule: docs/STATEMENTS.md#literals.
pub fn read_number(text: &[u8], at: usize) -> Result<(u64, usize), LiteralFault>
    requires { at ≤ length text.now }
    ensures value { result ≡ number_from text.now at }
    // Proved (statements, tokens-are-read-as-spelled)
    ensures spelled { IfOk result (λ found. Between NumberAt text.now at found.0 found.1) }
    // Proved (statements, tokens-are-read-as-spelled)
    ensures complete { (number next : ℕ) → Between NumberAt text.now at number next → result ≡ Ok (number, next) }
    // Proved (statements, literal-and-number-faults)
    ensures faulty { (fault : LiteralFault) → (result ≡ Err fault) ↔ FaultyNumber (drop at text.now) fault }
{
    let (number, rest) = number_of(text_from(text, at))?;
    Ok((number, text.len() - rest.len()))
}

/// Reads the number that a text begins with, and returns its value with the rest of the text.
///
/// Errors: as for `read_number`. Takes no memory. Doesn't wait.
/// Own rule: docs/STATEMENTS.md#literals.
#[tactic(auto, unfolding(crate::specs::Number::number_ahead))]
pub fn number_of(text: &[u8]) -> Result<(u64, &[u8]), LiteralFault>
    ensures value { MatchResult result
        (λ found. number_ahead text.now ≡ Ok (found.0, found.1.now))
        (λ fault. number_ahead text.now ≡ Err fault) }
    ensures within { IfOk result (λ found. length found.1.now ≤ length text.now) }
{
    let (run, rest) = ByteClass::Word.split(text);
    let number = value_of_run(run)?;
    Ok((number, rest))
}

/// Returns the value of a run of word bytes. Errors: `NotALiteral` if the run is no number, `NumberTooLarge` if it is
/// one above 2^64-1.
fn value_of_run(run: &[u8]) -> Result<u64, LiteralFault>
    ensures { result ≡ number_in run.now }
{
    // Digits alone are a decimal number, anything else is one only as `0x` and hexadecimal digits.
    if !run.is_empty() && ByteClass::Decimal.split(run).1.is_empty() {
        return fitting_value(run, 10);
    }
    match hex_digits(run) {
        Some(digits) => fitting_value(digits, 16),
        None => Err(LiteralFault::NotALiteral),
    }
}

/// Returns the value of digits in a base of 1 to 36, or `NumberTooLarge` if it is above 2^64-1.
#[tactic(auto, using(crate::proofs::Numbers::fitting_small, crate::proofs::Numbers::fitting_large))]
fn fitting_value(digits: &[u8], base: u64) -> Result<u64, LiteralFault>
    requires positive { 1 ≤ base }
    requires small { base ≤ 36 }
    ensures { result ≡ fitting (digits_value base digits.now) }
{
    match value_in(digits, base) {
        Some(value) => Ok(value),
        None => Err(LiteralFault::NumberTooLarge),
    }
}

/// Returns the value of digits in a base of 1 to 36, or `None` if it is above 2^64-1.
fn value_in(digits: &[u8], base: u64) -> Option<u64>
    requires positive { 1 ≤ base }
    requires small { base ≤ 36 }
    ensures { MatchOption result
        (2 ^ 64 ≤ digits_value base digits.now)
        (λ value. value ≡ digits_value base digits.now) }
{
    let mut value: u64 = 0;
    // A further digit never makes the value less, so once it is too large it stays so.
    for digit in digits {
        value = value
            .checked_mul(base)?
            .checked_add(value_of_digit(*digit))?;
    }
    Some(value)
}

/// Returns the value of a digit or a letter, and 36 for another byte.
fn value_of_digit(byte: u8) -> u64
    ensures value { result ≡ digit_value byte }
    ensures small { result ≤ 36 }
{
    match byte {
        b'0'..=b'9' => (byte - b'0') as u64,
        b'A'..=b'Z' => (byte - b'A' + 10) as u64,
        b'a'..=b'z' => (byte - b'a' + 10) as u64,
        // No digit of any base up to 36. The digits whose value is asked for have no such byte.
        _ => 36,
    }
}
