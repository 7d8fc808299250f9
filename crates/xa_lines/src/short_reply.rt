//! Answers for all replies except lists, and for texts that aren't statements. They take no memory.
ghost use Rattle.std.specs.Prelude.{◌≡◌, ◌≤◌, ◌+◌, ◌++◌, Bool, false, length, codes, decimal};
ghost use Rattle.arrayvec.specs.ArrayVec.{array_vec_len};
ghost use Rattle.hex.specs.Hex.{encode_lower};
ghost use Rattle.xa_xid.specs.{Limits.text_bytes, XidText.part_text};
ghost use Rattle.xa_server.specs.Step.{is_list};
ghost use Rattle.xa_lines.specs.Answer.{bytes_of, HasRoom};
ghost use Rattle.xa_lines.specs.Printed.{answer_text, error_text, reply_text, syntax_text};

use crate::Answer;
use arrayvec::ArrayVec;
use itoa::Buffer;
use xa_server::{BranchState, Reply, XaError};
use xa_xid::SessionNo;

/// Returns the number of the session that is answered, with which the answer begins.
fn session_text(session: SessionNo) -> ArrayVec<u8, 160>
    ensures text { result.items ≡ decimal session }
    ensures short { array_vec_len result ≤ 2 }
{
    let mut buffer = Buffer::new();
    let mut text = ArrayVec::new();
    // The number has at most two digits, so it fits.
    let _ = text.try_extend_from_slice(buffer.format(session.get()).as_bytes());
    text
}

/// Returns the answer to a session: its number, a blank, what it is told, which is given in two parts, and a line
/// feed. At most 140 bytes are told (a value has 136), so 16 of 160 are left for what `with_unshown` appends.
fn told(session: SessionNo, first: &[u8], second: &[u8]) -> Answer
    requires { length first.now + length second.now ≤ 140 }
    ensures bytes { bytes_of result ≡ answer_text (decimal session) (first.now ++ second.now) }
    ensures room { HasRoom 16 result }
{
    let mut text = session_text(session);
    // At most 2 digits, 140 bytes, a blank and a line feed: all of it fits.
    let _ = text.try_extend_from_slice(b" ");
    let _ = text.try_extend_from_slice(first);
    let _ = text.try_extend_from_slice(second);
    let _ = text.try_extend_from_slice(b"\n");
    Answer::Short(text)
}

/// Returns two lower-case hexadecimal digits for each byte.
fn small_digits(bytes: &[u8]) -> ArrayVec<u8, 128>
    requires { length bytes.now ≤ text_bytes }
    ensures { result.items ≡ encode_lower bytes.now }
{
    let mut digits = ArrayVec::from([0; 128]);
    digits.truncate(2 * bytes.len());
    // It fails only if the lengths don't fit, and they do.
    let _ = hex::encode_to_slice(bytes, digits.as_mut_slice());
    digits
}

/// The answer to a session that reads a value: `VALUE` and the value's canonical text.
fn value_told(session: SessionNo, value: &[u8]) -> Answer
    requires { length value.now ≤ text_bytes }
    ensures bytes { bytes_of result ≡ answer_text (decimal session) (codes "VALUE " ++ part_text value.now) }
    ensures room { HasRoom 16 result }
{
    // `0x` without a digit is no literal.
    if value.is_empty() {
        return told(session, b"VALUE ", b"X''");
    }
    told(session, b"VALUE 0x", small_digits(value).as_slice())
}

/// Returns the words of the refusal 1399 of a statement that isn't allowed in this state: at most 64 bytes.
fn state_words(state: BranchState) -> &'static [u8]
    ensures words { result.now ≡ error_text (XaError.Rmfail state) }
    ensures few { length result.now ≤ 64 }
{
    match state {
        BranchState::NonExisting => b"ERROR 1399 (XAE07): XAER_RMFAIL state NON-EXISTING",
        BranchState::Active => b"ERROR 1399 (XAE07): XAER_RMFAIL state ACTIVE",
        BranchState::Idle => b"ERROR 1399 (XAE07): XAER_RMFAIL state IDLE",
        BranchState::Prepared => b"ERROR 1399 (XAE07): XAER_RMFAIL state PREPARED",
    }
}

/// Returns the words of a refusal: at most 64 bytes, of the 140 that `told` takes.
fn error_words(error: &XaError) -> &'static [u8]
    ensures words { result.now ≡ error_text error.now }
    ensures few { length result.now ≤ 64 }
{
    match error {
        XaError::Nota => b"ERROR 1397 (XAE04): XAER_NOTA unknown xid",
        XaError::Inval => b"ERROR 1398 (XAE05): XAER_INVAL clause not supported",
        XaError::Rmfail(state) => state_words(*state),
        XaError::Dupid => b"ERROR 1440 (XAE08): XAER_DUPID xid already exists",
        XaError::RowLocked => b"ERROR 3572 (HY000): row locked by another branch",
    }
}

/// The answer that tells a session a reply, which isn't a list.
pub(crate) fn reply_told(session: SessionNo, reply: &Reply) -> Answer
    requires { is_list reply.now ≡ false }
    ensures bytes { (convert : Bool) → bytes_of result ≡ answer_text (decimal session) (reply_text convert reply.now) }
    ensures room { HasRoom 16 result }
{
    match reply {
        Reply::Ok => told(session, b"OK", b""),
        Reply::Value(None) => told(session, b"NONE", b""),
        Reply::Value(Some(value)) => value_told(session, value.as_slice()),
        Reply::Refused(error) => told(session, error_words(error), b""),
        // A list is excluded by the clause above.
        Reply::Recovered(_) => unreachable!(),
    }
}

/// The answer to a session's text that isn't a statement, with the byte at which it goes wrong, `place`, from 0.
pub(crate) fn unread_told(session: SessionNo, place: u64) -> Answer
    ensures bytes { bytes_of result ≡ answer_text (decimal session) (syntax_text place) }
    ensures room { HasRoom 16 result }
{
    let mut buffer = Buffer::new();
    // At most 20 digits, so `told` has room.
    let number = buffer.format(place);
    told(
        session,
        b"ERROR 1064 (42000): syntax fault at byte ",
        number.as_bytes(),
    )
}
