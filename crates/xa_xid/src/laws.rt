//! What `==` and `cmp` of the types decide, and how reading and writing agree: contracts over definitions.
ghost use Rattle.std.specs.Prelude.{◌≡◌, ◌↔◌, ◌<◌, ◌≤◌, ◌^◌, ◌++◌, List, ℕ, length, IsTrue};
ghost use Rattle.std.specs.declared.cmp.Ordering.TheVariants.{Equal};
ghost use Rattle.hex.specs.Hex.{IsBytes};
ghost use Rattle.xa_xid.specs.{Xid.{Text, bytes_cmp, xid_cmp}, Bytes.{belongs, StartsNo}};
ghost use Rattle.xa_xid.specs.{Faults.{FaultyLiteral, FaultyNumber, FaultyXid}, Number.{NumberAt, number_ahead}};
ghost use Rattle.xa_xid.specs.{declared.{literal_fault.LiteralFault.LiteralFault, xid.Xid.Xid}, Limits.text_bytes};
ghost use Rattle.xa_xid.specs.Literal.{LiteralAt, TextAt, kept, literal_ahead, sized};
ghost use Rattle.xa_xid.specs.XidText.{XidAt, xid_ahead, xid_text, IsWritable};

use crate::{ByteClass, Key, Xid};
use std::cmp::Ordering;

/// States that two identifiers are equal exactly if all three parts are equal.
///
/// Takes no memory. Doesn't wait.
pub fn same_xids(left: &Xid, right: &Xid) -> bool
    // Proved (statements, equal-xids): Two identifiers are equal exactly if all three parts are equal.
    ensures { IsTrue result ↔ (left.now ≡ right.now) }
{
    left == right
}

/// States that identifiers are ordered by formatID, then gtrid, then bqual, and that only equal ones tie.
///
/// Takes no memory. Doesn't wait.
pub fn order_of_xids(left: &Xid, right: &Xid) -> Ordering
    // Proved (statements, order-of-xids): Identifiers are ordered by formatID, then gtrid, then bqual. Only
    //   equal identifiers tie.
    ensures order { result ≡ xid_cmp left.now right.now }
    // Proved (statements, order-of-xids)
    ensures ties { (result ≡ Equal) ↔ (left.now ≡ right.now) }
{
    left.cmp(right)
}

/// States that keys are ordered by their bytes, and that only equal keys tie.
///
/// Takes no memory. Doesn't wait.
pub fn order_of_keys(left_key: &Key, right_key: &Key) -> Ordering
    // Proved (statements, order-of-keys): Keys are ordered by their bytes, and only equal keys tie.
    ensures order { result ≡ bytes_cmp left_key.now right_key.now }
    // Proved (statements, order-of-keys)
    ensures ties { (result ≡ Equal) ↔ (left_key.now ≡ right_key.now) }
{
    left_key.cmp(right_key)
}

/// States that reading literals and their grammar agree.
///
/// A text is read as a literal only if it begins with that literal, of at most 64 bytes. If a text begins with a
/// literal, that literal's bytes are read, or it is found too long. A text begins with at most one literal of at most
/// 64 bytes.
///
/// Takes no memory. Doesn't wait.
pub fn literals_are_read_as_spelled()
    // Proved (statements, readers-are-the-grammar): The functions by which literals, numbers and
    //   identifiers are read agree with their grammar in both directions. A text begins with at most one
    //   number, one identifier, and one literal of at most 64 bytes. A literal in the text is read, or is
    //   found too long.
    ensures sound { (text : List ℕ) (found : Text) (rest : List ℕ) → literal_ahead text ≡ Ok (found, rest)
        → LiteralAt text found.items rest × (length found.items ≤ text_bytes) }
    // Proved (statements, readers-are-the-grammar)
    ensures complete { (text bytes rest : List ℕ) → LiteralAt text bytes rest
        → literal_ahead text ≡ sized (kept bytes) rest }
    // Proved (statements, readers-are-the-grammar)
    ensures only_one { (text : List ℕ) (found other : Text) (rest behind : List ℕ) → TextAt text found rest
        → TextAt text other behind
        → (found ≡ other) × (rest ≡ behind) }
{}

/// States that a text is read as a number exactly if it begins with that number, and that it begins with at
/// most one.
///
/// Takes no memory. Doesn't wait.
pub fn numbers_are_read_as_spelled()
    // Proved (statements, readers-are-the-grammar)
    ensures sound { (text : List ℕ) (value : ℕ) (rest : List ℕ) → number_ahead text ≡ Ok (value, rest)
        → NumberAt text value rest }
    // Proved (statements, readers-are-the-grammar)
    ensures complete { (text : List ℕ) (value : ℕ) (rest : List ℕ) → NumberAt text value rest
        → number_ahead text ≡ Ok (value, rest) }
    // Proved (statements, readers-are-the-grammar)
    ensures only_one { (text : List ℕ) (value other : ℕ) (rest behind : List ℕ) → NumberAt text value rest
        → NumberAt text other behind
        → (value ≡ other) × (rest ≡ behind) }
{}

/// States that a text is read as an identifier exactly if it begins with that identifier.
///
/// It also states that a text begins with at most one identifier. Takes no memory. Doesn't wait.
pub fn xids_are_read_as_spelled()
    // Proved (statements, readers-are-the-grammar)
    ensures sound { (text : List ℕ) (xid : Xid) (rest : List ℕ) → xid_ahead text ≡ Ok (xid, rest)
        → XidAt text xid rest }
    // Proved (statements, readers-are-the-grammar)
    ensures complete { (text : List ℕ) (xid : Xid) (rest : List ℕ) → XidAt text xid rest
        → xid_ahead text ≡ Ok (xid, rest) }
    // Proved (statements, readers-are-the-grammar)
    ensures only_one { (text : List ℕ) (xid other : Xid) (rest behind : List ℕ) → XidAt text xid rest
        → XidAt text other behind
        → (xid ≡ other) × (rest ≡ behind) }
{}

/// States that reading a literal, a number or an identifier returns exactly the faults of the table.
///
/// The fault of an identifier is at the token that the table names. Takes no memory. Doesn't wait.
pub fn faults_are_the_table()
    // Proved (statements, faults-are-the-table): The functions by which literals, numbers and identifiers
    //   are read return exactly the faults of the table of faults.
    ensures literal { (text : List ℕ) (fault : LiteralFault)
        → (literal_ahead text ≡ Err fault) ↔ FaultyLiteral text fault }
    // Proved (statements, faults-are-the-table)
    ensures number { (text : List ℕ) (fault : LiteralFault)
        → (number_ahead text ≡ Err fault) ↔ FaultyNumber text fault }
    // Proved (statements, faults-are-the-table)
    ensures xid { (text : List ℕ) (fault : LiteralFault) (rest : List ℕ)
        → (xid_ahead text ≡ Err (fault, rest)) ↔ FaultyXid text fault rest }
{}

/// States that the canonical text of an identifier is read as that identifier.
///
/// Anything may follow the text, except a word byte right after it. Takes no memory. Doesn't wait.
pub fn written_xid_is_read_back(xid: &Xid)
    // Proved (statements, written-xid-is-read-back): A written identifier is read back as the same
    //   identifier, if no letter, digit, `_`, `$` or byte from 128 to 255 follows it.
    ensures { (rest : List ℕ) → StartsNo (belongs ByteClass.Word) rest
        → xid_ahead (xid_text xid.now ++ rest) ≡ Ok (xid.now, rest) }
{
    is_writable(xid);
}

/// States that the gtrid and the bqual of every identifier are at most 64 bytes each, and its formatID is below 2^64.
///
/// Takes no memory. Doesn't wait.
pub fn is_writable(xid: &Xid)
    ensures { IsWritable xid.now }
{
    is_below_2_to_the_64(xid.format_id);
    are_bytes(xid.gtrid.as_slice());
    are_bytes(xid.bqual.as_slice());
}

/// States that a slice of bytes holds bytes.
///
/// Takes no memory. Doesn't wait.
pub fn are_bytes(text: &[u8])
    ensures { IsBytes text.now }
{}

/// States that a number of 64 bits is below 2^64.
fn is_below_2_to_the_64(number: u64)
    ensures { number < 2 ^ 64 }
{}
