//! Replies by their text.

use crate::cases::is_answer;
use std::alloc::Global;
use xa_lines::{converts, push_number, push_reply};
use xa_server::Reply;
use xa_xid::{NoMemory, Statement};

/// A place, if there is one, and a reply as a run prints it, with the identifiers of a list in digits if `convert`.
fn text_of(
    alloc: Global,
    place: Option<u64>,
    convert: bool,
    reply: &Reply,
) -> Result<Vec<u8>, NoMemory> {
    let mut text = Vec::new(alloc);
    if let Some(place) = place {
        push_number(&mut text, place)?;
        text.extend_from_slice(b" ")?;
    }
    push_reply(alloc, &mut text, convert, reply)?;
    Ok(text)
}

/// Returns whether a reply to a statement, after its place if there is one, is written like this.
///
/// It is written again if there was no memory. If there is none then either, the reply counts as different.
///
/// May take memory. Doesn't wait.
pub fn is_reply(
    alloc: Global,
    place: Option<u64>,
    statement: &Statement,
    reply: &Reply,
    wanted: &[u8],
) -> bool {
    let convert = converts(statement);
    let written = text_of(alloc, place, convert, reply).or_else(|_| text_of(
        alloc, place, convert, reply,
    ));
    match written {
        Ok(text) => is_answer(text.as_slice(), wanted),
        Err(_) => false,
    }
}
