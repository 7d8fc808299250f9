//! What an ILLEGAL line shows, and which calls write it.

use crate::events::rows_in;
use crate::exchanging::last_call_in;
use crate::line_event::{LineEvent, NumberedEvent};
use crate::shown::Shown;
use std::alloc::Global;
use xa_statement::read_statement;
use xa_xid::{Bytes, Key, NoMemory, Statement, Xid, copy_of};

/// The value or the prepared branches that an ILLEGAL line shows: calls have to write them.
#[derive(Drop)]
pub enum Sought {
    /// The line shows neither, or a value though its call is no `GET`.
    Nothing,
    /// The key of a row, and its value.
    Value(Key, Bytes),
    /// Prepared branches.
    Rows(Vec<Xid>),
}

/// The row that a text reads, if it reads one.
fn key_read(text: &[u8]) -> Option<Key> {
    match read_statement(text) {
        Ok(Statement::Get(key)) => Some(key),
        _ => None,
    }
}

/// The row that this call reads, if it is a `GET`.
fn key_called(call: Option<&NumberedEvent>) -> Option<Key> {
    match call {
        Some(one) => match &one.line_event {
            LineEvent::Call(_, text) => key_read(text),
            LineEvent::Return(_, _) => None,
            LineEvent::Unknown(_) => None,
            LineEvent::Lost(_) => None,
        },
        None => None,
    }
}

/// The number of the identifier among these, from 1, or 0 if it isn't there.
fn number_among(xids: &[Xid], xid: &Xid) -> usize {
    let mut number: usize = 0;
    for one in xids {
        // It counts places of a list, so it never saturates.
        number = number.saturating_add(1);
        if one == xid {
            return number;
        }
    }
    0
}

impl Sought {
    /// The value or the prepared branches that a return shows, where `call` is the one that returns. `Nothing` if it
    /// shows something else, or a value though the call is no `GET`.
    fn of_return(
        alloc: Global,
        call: Option<&NumberedEvent>,
        shown: &Shown,
    ) -> Result<Sought, NoMemory> {
        match shown {
            Shown::Value(value) => match key_called(call) {
                Some(key) => Ok(Sought::Value(key, copy_of(value))),
                // No other statement returns a value, whatever was written.
                None => Ok(Sought::Nothing),
            },
            Shown::Rows(rows) => Ok(Sought::Rows(rows_in(alloc, rows.as_slice())?)),
            Shown::Ok => Ok(Sought::Nothing),
            // A row can have no value though no call deletes it.
            Shown::None => Ok(Sought::Nothing),
            Shown::Error(_) => Ok(Sought::Nothing),
        }
    }

    /// Returns the value or the prepared branches that the return at `place`, an index in `numbered`, shows. `Nothing`
    /// as for `of_return`, or if no return is there.
    ///
    /// May return `NoMemory`.
    pub fn at(alloc: Global, numbered: &[NumberedEvent], place: usize) -> Result<Sought, NoMemory> {
        if place >= numbered.len() {
            return Ok(Sought::Nothing);
        }
        match &numbered[place].line_event {
            LineEvent::Return(session, shown) => {
                let call = last_call_in(&numbered[..place], *session);
                Sought::of_return(alloc, call, shown)
            }
            LineEvent::Call(_, _) => Ok(Sought::Nothing),
            LineEvent::Unknown(_) => Ok(Sought::Nothing),
            LineEvent::Lost(_) => Ok(Sought::Nothing),
        }
    }

    /// The number of what a statement writes of what is sought. It is 1 if it puts the value into the row. If branches
    /// are sought, it is the place in their list, from 1, of the one that the statement prepares. Else it is 0.
    fn of_statement(&self, statement: &Statement) -> usize {
        match self {
            Sought::Nothing => 0,
            Sought::Value(key, value) => match statement {
                Statement::Put(other, written)
                    if other.as_slice() == key.as_slice()
                        && written.as_slice() == value.as_slice() => { 1 }
                _ => 0,
            },
            Sought::Rows(xids) => match statement {
                Statement::Prepare(xid) => number_among(xids.as_slice(), xid),
                _ => 0,
            },
        }
    }

    /// Returns the number of what a call of this text writes of what is sought. It is 1 if the call puts the value
    /// into the row. If branches are sought, it is the place in their list, from 1, of the one that the call prepares.
    /// Else it is 0.
    pub fn written_by(&self, text: &[u8]) -> usize {
        match read_statement(text) {
            Ok(statement) => self.of_statement(&statement),
            Err(_) => 0,
        }
    }
}
