//! Reads a state: the listing of the store with which a record begins.
ghost use Rattle.std.specs.Prelude.{◌≡◌, true, None, IfOk};
ghost use Rattle.xa_lines.specs.Listing.{listing};
ghost use Rattle.xa_record.specs.States.{IsStateOf, NamesAllRows};

use crate::state_branches::take_branches;
use crate::state_comparing::first_difference;
use crate::state_fault::StateFault;
use crate::state_rows::take_rows;
use std::alloc::Global;
use xa_lines::with_listing;
use xa_server::Server;
use xa_xid::{Key, NoMemory, SessionNo};

/// Session 1, which makes the rows. Any other would do: none has a branch open while rows are made.
fn any_session() -> SessionNo {
    match SessionNo::of(1) {
        Some(session) => session,
        // 1 is the number of a session.
        None => unreachable!(),
    }
}

/// A server that is made of the lines of the text, and the keys of the text's rows. Whether it is in the state that
/// the text lists is tested after that. `Unread` names the first line that isn't one of a state.
#[tactic(auto, using(crate::proofs::RowsLeft::named_made))]
fn made(alloc: Global, text: &[u8]) -> Result<(Server, Vec<Key>), StateFault>
    ensures { IfOk result (λ made. NamesAllRows made.1.items made.0) }
{
    let mut server = Server::new(alloc);
    let mut keys = Vec::new(alloc);
    take_rows(&mut server, any_session(), &mut keys, text)?;
    // Prepared branches come first: a session with an open branch couldn't prepare another one.
    take_branches(&mut server, true, text)?;
    take_branches(&mut server, false, text)?;
    Ok((server, keys))
}

/// Whether both texts have the same bytes.
fn are_same(left: &[u8], right: &[u8]) -> bool
    ensures { result ≡ true → left.now ≡ right.now }
{
    left == right
}

/// The number, from 1, of the first line in which the text differs from the listing of the server with the rows of
/// these keys. None if the text is that listing.
fn difference(
    alloc: Global,
    server: &Server,
    keys: &[Key],
    text: &[u8],
) -> Result<Option<u64>, NoMemory>
    ensures { IfOk result (λ found. found ≡ None → text.now ≡ listing server.now keys.now) }
{
    let listed = with_listing(alloc, Vec::new(alloc), server, keys)?;
    if are_same(text, listed.as_slice()) {
        Ok(None)
    } else {
        Ok(Some(first_difference(text, listed.as_slice())))
    }
}

/// Reads a state, and returns a server that is in it.
///
/// The text is the listing of a store, as `show` prints one, with every row that has a value and no other: the lines
/// of branches, each followed by those of the rows that it holds, and then the lines of rows. An empty text is
/// the listing of a store that holds nothing. The server is made by statements, and then listed; what is
/// listed has to be the text.
/// Errors: `Unread` with the number of the first line that isn't one of a state, such as `ROW key NONE`; `Differs` with
/// the number of the first line in which the text differs from the server's listing; `NoMemory` if an allocation
/// failed.
/// Takes memory for the server, the keys of its rows, and its listing. Doesn't wait.
/// Own rule: docs/HISTORIES.md#records-in-pieces.
#[tactic(auto, using(crate::proofs::RowsLeft::is_listed))]
pub fn read_state(alloc: Global, text: &[u8]) -> Result<Server, StateFault>
    // Proved (records, states-read): A server that is made of a listing is listed as that, byte for byte: all
    //   of its branches, with the rows that they hold, and all of its rows that have a value.
    ensures { IfOk result (IsStateOf text.now) }
{
    let (server, keys) = made(alloc, text)?;
    match difference(alloc, &server, keys.as_slice(), text)? {
        None => Ok(server),
        Some(number) => Err(StateFault::Differs(number)),
    }
}
