//! Makes the rows of a listing, by statements.
ghost use Rattle.std.specs.Prelude.{◌++◌, OnOk};
ghost use Rattle.xa_record.specs.States.{NamesAllRows};

use crate::state_fault::StateFault;
use crate::state_line::{StateLine, read_state_line};
use xa_lines::split_line;
use xa_server::Server;
use xa_xid::{Bytes, Key, NoMemory, SessionNo, Statement};

/// Has the server give a row this value, by a `PUT` of the session, which has no branch open, and notes the row's key.
#[tactic(auto, using(crate::proofs::RowsLeft::named_after))]
fn put_row(
    server: &mut Server,
    session: SessionNo,
    keys: &mut Vec<Key>,
    key: Key,
    value: Bytes,
) -> Result<(), NoMemory>
    ensures { OnOk result (NamesAllRows keys.old.items server.old → NamesAllRows keys.new.items server.new) }
{
    keys.push(key.copy())?;
    let statement = Statement::Put(key, value);
    // Rows are made before all branches, so none holds the row, and the reply is Ok.
    let _reply = server.apply(session, &statement)?;
    Ok(())
}

/// Makes the row of a line, if it is the line of a row. The lines of branches, and of rows that these hold, are passed
/// over.
///
/// Errors: `Unread` with the line's number if it isn't a line of a state; `NoMemory`.
fn take_line(
    server: &mut Server,
    session: SessionNo,
    keys: &mut Vec<Key>,
    number: u64,
    line: &[u8],
) -> Result<(), StateFault>
    ensures { OnOk result (NamesAllRows keys.old.items server.old → NamesAllRows keys.new.items server.new) }
{
    match read_state_line(line) {
        None => Err(StateFault::Unread(number)),
        Some(StateLine::Row(key, value)) => {
            put_row(server, session, keys, key, value)?;
            Ok(())
        }
        Some(_) => Ok(()),
    }
}

/// Makes the rows of the text by statements of the session, which has no branch open, and adds their keys in the text's
/// order.
///
/// Errors: `Unread` with the number of the first line that isn't one of a state; `NoMemory`.
pub fn take_rows(
    server: &mut Server,
    session: SessionNo,
    keys: &mut Vec<Key>,
    text: &[u8],
) -> Result<(), StateFault>
    ensures { OnOk result (NamesAllRows keys.old.items server.old → NamesAllRows keys.new.items server.new) }
{
    let mut number: u64 = 0;
    let mut rest = text;
    while !rest.is_empty() {
        let (line, lines) = split_line(rest);
        // A text has fewer than 2^64 lines, so it never saturates.
        number = number.saturating_add(1);
        take_line(server, session, keys, number, line)?;
        rest = lines;
    }
    Ok(())
}
