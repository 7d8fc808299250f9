//! The lines of a state. Their readers promise nothing, since the store that is made of them is listed, and the whole
//! text is compared with that listing.

use crate::open_branch::OpenBranch;
use xa_lines::number_in;
use xa_server::Phase;
use xa_xid::{Bytes, Key, SessionNo, Statement, Xid, literal_of, read_xid};

/// A line of a state.
#[derive(Drop)]
pub enum StateLine {
    /// A branch.
    Branch(OpenBranch),
    /// A row that the branch above holds, as the statement by which a branch comes to hold it so: `GET`, `PUT` or
    /// `DEL`.
    Held(Statement),
    /// A row, and its value.
    Row(Key, Bytes),
}

/// A literal at the beginning of the text, and the text after it. None if none of at most 64 bytes is there.
fn part_ahead(text: &[u8]) -> Option<(Bytes, &[u8])> {
    match literal_of(text) {
        Ok((bytes, rest)) => Some((bytes, rest)),
        Err(_) => None,
    }
}

/// A key at the beginning of the text, and the text after it. None if no literal is there, or an empty one.
fn key_ahead(text: &[u8]) -> Option<(Key, &[u8])> {
    let (bytes, rest) = part_ahead(text)?;
    let key = Key::of(bytes)?;
    Some((key, rest))
}

/// The value whose literal is the whole text. None if it isn't one literal.
fn value_of(text: &[u8]) -> Option<Bytes> {
    match part_ahead(text) {
        Some((value, [])) => Some(value),
        _ => None,
    }
}

/// The session that owns a branch, if the text after the branch's phase names one, from 1 to 16. Else None.
fn owner_of(text: &[u8]) -> Option<SessionNo> {
    let number = number_in(text.strip_prefix(b" SESSION ")?)?;
    SessionNo::of(number)
}

/// The branch of this identifier, by the text after that: its phase, and its owner. A prepared branch has no
/// owner; session 1 prepares it, which is free then, since prepared branches are made first. None for any other text.
fn branch_by(xid: Xid, text: &[u8]) -> Option<OpenBranch> {
    if text == b" PREPARED".as_slice() {
        // 1 is the number of a session, so this isn't None.
        let session = SessionNo::of(1)?;
        return Some(OpenBranch {
            xid,
            phase: Phase::Prepared,
            session,
        });
    }
    if let Some(owner) = text.strip_prefix(b" ACTIVE") {
        let session = owner_of(owner)?;
        return Some(OpenBranch {
            xid,
            phase: Phase::Active,
            session,
        });
    }
    let session = owner_of(text.strip_prefix(b" IDLE")?)?;
    Some(OpenBranch {
        xid,
        phase: Phase::Idle,
        session,
    })
}

/// A branch, by the text after `BRANCH`. None if that isn't an identifier, a phase, and the owner unless it is
/// PREPARED.
fn branch_of(text: &[u8]) -> Option<StateLine> {
    match read_xid(text, 0) {
        Ok((xid, next)) => {
            // `next` isn't past the end, so there is a text from there on, perhaps an empty one.
            let branch = branch_by(xid, text.get(next..)?)?;
            Some(StateLine::Branch(branch))
        }
        Err(_) => None,
    }
}

/// A row that is held in share, by the text after `SHARES`. None if that isn't one key.
fn shared_of(text: &[u8]) -> Option<StateLine> {
    match key_ahead(text) {
        Some((key, [])) => Some(StateLine::Held(Statement::Get(key))),
        _ => None,
    }
}

/// A row that is held exclusively, by the text after `HOLDS`. None if that isn't a key with `DELETES`, or with
/// `WRITES` and a value.
fn written_of(text: &[u8]) -> Option<StateLine> {
    let (key, rest) = key_ahead(text)?;
    if rest == b" DELETES".as_slice() {
        return Some(StateLine::Held(Statement::Del(key)));
    }
    let value = value_of(rest.strip_prefix(b" WRITES ")?)?;
    Some(StateLine::Held(Statement::Put(key, value)))
}

/// A row, by the text after `ROW`. None if that isn't a key and a value; also for `NONE` in the value's place.
fn row_of(text: &[u8]) -> Option<StateLine> {
    let (key, rest) = key_ahead(text)?;
    let value = value_of(rest.strip_prefix(b" VALUE ")?)?;
    Some(StateLine::Row(key, value))
}

/// Reads a line of a state, without its line feed: a branch, a row that a branch holds, or a row and its value.
///
/// Returns None for any other line. `ROW key NONE`, which `show` prints, isn't taken: a state has only the rows that
/// have a value.
/// Takes no memory. Doesn't wait.
/// Own rule: docs/HISTORIES.md#records-in-pieces.
pub fn read_state_line(line: &[u8]) -> Option<StateLine> {
    if let Some(text) = line.strip_prefix(b"  ROW ") {
        return row_of(text);
    }
    if let Some(text) = line.strip_prefix(b"    HOLDS ") {
        return written_of(text);
    }
    if let Some(text) = line.strip_prefix(b"    SHARES ") {
        return shared_of(text);
    }
    branch_of(line.strip_prefix(b"  BRANCH ")?)
}
