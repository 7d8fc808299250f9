//! Reads the file of `--from`.
ghost use Rattle.std.specs.Prelude.{◌≡◌, IfOk, IfSome};
ghost use Rattle.xa_server.specs.State.{no_state};
ghost use Rattle.xa_record.specs.States.{IsStateOf};

use crate::files::opened;
use crate::manner::Manner;
use crate::too_long::tell_file_too_long;
use std::alloc::{AllocError, Global};
use std::io::Read;
use std::rt::Files;
use xa_lines::{ScriptFault, read_within};
use xa_record::{StateFault, read_state};
use xa_server::Server;
use xa_xid::NoMemory;

/// The greatest length of a state, in bytes: 16 MiB, as of a record.
const STATE_BYTES: usize = 16_777_216;

/// The greatest number of reads for a state: two for each byte, ample for a reader that gives one byte at a time.
const STATE_READS: u64 = 33_554_432;

/// Returns a server in the state that a text lists. If a line of it is faulty, the standard error names it, and
/// `None` is returned.
///
/// Errors: `NoMemory`. Doesn't wait, unless the standard error does.
fn state_of<R: Eprint + Alloc<A = Global>>(rt: &R, text: &[u8]) -> Result<Option<Server>, NoMemory>
    ensures { IfOk result (λ found. IfSome found (IsStateOf text.now)) }
{
    match read_state(rt.alloc(), text) {
        Ok(server) => Ok(Some(server)),
        Err(StateFault::NoMemory) => Err(AllocError),
        Err(fault) => {
            let _ = eprintln!(rt; "xa_script: {fault}");
            Ok(None)
        }
    }
}

/// Returns a server in the state that a reader's text lists, as `state_of` does.
///
/// Errors: as `read_within`. Doesn't wait, unless the reader or the standard error does.
fn state_in<I: Read, R: Eprint + Alloc<A = Global>>(
    rt: &R,
    input: &mut I,
) -> Result<Option<Server>, ScriptFault>
    // Proved (scripts, judging-from): A store that is made of the file of `--from` is the one that the file lists.
    //   Without such a file it holds nothing.
    ensures { IfOk result (λ found. IfSome (I.remaining input.old) (λ text. IfSome found (IsStateOf text))) }
{
    let text = read_within(rt.alloc(), input, STATE_BYTES, STATE_READS)?;
    let found = state_of(rt, text.as_slice())?;
    Ok(found)
}

/// Returns a server that holds nothing.
fn empty<R: Alloc<A = Global>>(rt: &R) -> Server
    // Proved (scripts, judging-from)
    ensures { result ≡ no_state }
{
    Server::new(rt.alloc())
}

/// Returns the server with which a record begins, by the file of `--from`: one that holds nothing if no file
/// is named, `None` if a line of the file is faulty.
///
/// Errors: `Read`, `TooLong` and `NoMemory`, of reading the file. Doesn't wait, unless the file or the
/// standard error does.
pub fn first_store<R: Files + Eprint + Alloc<A = Global>>(
    rt: &R,
    manner: &Manner<'_>,
) -> Result<Option<Server>, ScriptFault> {
    match manner.from {
        None => Ok(Some(empty(rt))),
        Some(name) => {
            let mut file = opened(rt, name)?;
            let found = state_in(rt, &mut file);
            tell_file_too_long(rt, "--from", "16,777,216", &found);
            found
        }
    }
}
