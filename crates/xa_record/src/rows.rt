//! Reads rows of a return, in the form in which `XA RECOVER CONVERT XID` prints them.
ghost use Rattle.std.specs.Prelude.{◌≡◌, ◌≤◌, ◌+◌, length, take, drop, IfSome, option_copied, Some, Ok};
ghost use Rattle.hex.specs.Hex.{decode_sized};
ghost use Rattle.xa_xid.specs.Limits.{text_bytes};
ghost use Rattle.xa_lines.specs.Script.{first_word, behind_word as behind_word_of};
ghost use Rattle.xa_record.specs.Rows.{leading_number as leading_number_of, digits_named, xid_of, xid_written};
ghost use Rattle.xa_record.specs.Rows.{xid_with, row_of, row_said};

use arrayvec::ArrayVec;
use xa_lines::{number_in, split_word};
use xa_xid::{ByteClass, Bytes, Xid, skip_blanks};

/// Returns the text after its first word and the blanks that follow.
pub fn behind_word(text: &[u8]) -> &[u8]
    ensures { result.now ≡ behind_word_of text.now }
{
    skip_blanks(split_word(text).1)
}

/// Returns the number of the text's first digits. None if it doesn't begin with digits, if the first of several digits
/// is 0, or if the number isn't below 2^64.
#[tactic(auto, unfolding(crate::specs::Rows::leading_number))]
pub fn leading_number(text: &[u8]) -> Option<u64>
    ensures { result ≡ leading_number_of text.now }
{
    number_in(ByteClass::Decimal.split(text).0)
}

/// What a word has after its `0x`, where digits belong. None if it doesn't begin so.
fn digits_in(word: &[u8]) -> Option<&[u8]>
    ensures { option_copied result ≡ digits_named word.now }
{
    match word {
        [b'0', b'x', digits @ ..] => Some(digits),
        _ => None,
    }
}

/// These bytes, at most 64, as a text.
fn text_of(bytes: &[u8]) -> Bytes
    requires { length bytes.now ≤ text_bytes }
    ensures { result.items ≡ bytes.now }
{
    let mut text = Bytes::new();
    // They fit, as the first clause requires.
    let _ = text.try_extend_from_slice(bytes);
    text
}

/// The identifier with these bytes: first those of its gtrid, then those of its bqual. `gtrid` and `bqual` are their
/// lengths; only the contract needs the second.
fn xid_from(format_id: u64, gtrid: usize, bqual: usize, bytes: &[u8]) -> Xid
    requires gtrid { gtrid ≤ text_bytes }
    requires bqual { bqual ≤ text_bytes }
    requires whole { length bytes.now ≡ gtrid + bqual }
    ensures { Some result ≡ xid_of format_id gtrid (Ok bytes.now) }
{
    let (front, back) = bytes.split_at(gtrid);
    Xid {
        format_id,
        gtrid: text_of(front),
        bqual: text_of(back),
    }
}

/// The identifier with this formatID, these lengths of gtrid and bqual, and these digits for both. None if a length is
/// over 64, or the digits aren't two hexadecimal ones for each byte.
#[tactic(auto, unfolding(crate::specs::Rows::xid_written))]
fn written(format_id: u64, gtrid: u64, bqual: u64, digits: &[u8]) -> Option<Xid>
    ensures { result ≡ xid_written format_id gtrid bqual digits.now }
{
    // A gtrid and a bqual have at most 64 bytes each, so 128 bytes hold both.
    if gtrid > 64 || bqual > 64 {
        return None;
    }
    let mut bytes = ArrayVec::<u8, 128>::from([0; 128]);
    bytes.truncate(gtrid as usize + bqual as usize);
    match hex::decode_to_slice(digits, bytes.as_mut_slice()) {
        Ok(()) => Some(xid_from(format_id, gtrid as usize, bqual as usize, bytes.as_slice())),
        Err(_) => None,
    }
}

/// The identifier of four words: formatID, lengths of gtrid and bqual, and the digits of both after `0x`. Each
/// argument is the text from one of the words on. None if more text follows, or if the words don't have this form or
/// don't fit each other.
#[tactic(auto, unfolding(crate::specs::Rows::row_of))]
fn row_in(first: &[u8], second: &[u8], third: &[u8], fourth: &[u8]) -> Option<Xid>
    ensures { result ≡ row_of first.now second.now third.now fourth.now }
{
    if !behind_word(fourth).is_empty() {
        return None;
    }
    match number_in(split_word(first).0) {
        None => None,
        Some(format_id) => match number_in(split_word(second).0) {
            None => None,
            Some(gtrid) => match number_in(split_word(third).0) {
                None => None,
                Some(bqual) => match digits_in(split_word(fourth).0) {
                    None => None,
                    Some(digits) => written(format_id, gtrid, bqual, digits),
                },
            },
        },
    }
}

/// Returns the identifier of a row; None if the text isn't a row. The text doesn't begin with a blank.
///
/// Takes no memory. Doesn't wait.
/// Own rule: docs/HISTORIES.md#records.
#[tactic(auto, unfolding(crate::specs::Rows::row_said))]
pub fn read_row(text: &[u8]) -> Option<Xid>
    // Proved (records, row-read): The identifier that a row of a record is read as is what its definition
    //   says.
    ensures { result ≡ row_said text.now }
{
    let second = behind_word(text);
    let third = behind_word(second);
    row_in(text, second, third, behind_word(third))
}
