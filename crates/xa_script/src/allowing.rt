//! Reads the file of `--allow`.
ghost use Rattle.std.specs.{Prelude.{IfOk, IfSome}, Option.option_map};
ghost use Rattle.xa_script.specs.Status.{IsAllowedBy};

use crate::files::opened;
use crate::manner::Manner;
use crate::too_long::tell_file_too_long;
use std::alloc::{AllocError, Global};
use std::io::Read;
use std::rt::Files;
use xa_lines::{ScriptFault, read_all};
use xa_record::{AllowFault, Allowance, read_allowances};
use xa_xid::NoMemory;

/// Returns what a text allows. If a line of it isn't an allowance, the standard error names it, and `None` is
/// returned.
///
/// Errors: `NoMemory`. Doesn't wait, unless the standard error does.
fn allowances_of<R: Eprint + Alloc<A = Global>>(
    rt: &R,
    text: &[u8],
) -> Result<Option<Vec<Allowance>>, NoMemory>
    ensures { IfOk result (λ allowed. IsAllowedBy (option_map (λ list. list.items) allowed) text.now) }
{
    match read_allowances(rt.alloc(), text) {
        Ok(list) => Ok(Some(list)),
        Err(AllowFault::Line(number)) => {
            let _ = eprintln!(rt; "xa_script: allow line {number}: not an allowance");
            Ok(None)
        }
        Err(AllowFault::NoMemory) => Err(AllocError),
    }
}

/// Returns what the text of a reader allows, as `allowances_of` does.
///
/// Errors: as `read_all`. Doesn't wait, unless the reader or the standard error does.
fn allowances_in<I: Read, R: Eprint + Alloc<A = Global>>(
    rt: &R,
    input: &mut I,
) -> Result<Option<Vec<Allowance>>, ScriptFault>
    // Proved (scripts, allowances): The allowances that are read are those of the file's text; or none are, and some
    //   line of it isn't an allowance.
    ensures { IfOk result (λ allowed. IfSome (I.remaining input.old)
        (IsAllowedBy (option_map (λ list. list.items) allowed))) }
{
    let text = read_all(rt.alloc(), input)?;
    let allowed = allowances_of(rt, text.as_slice())?;
    Ok(allowed)
}

/// Returns what the file of `--allow` allows: an empty list if no file is named, `None` if a line of it isn't
/// an allowance.
///
/// Errors: `Read`, `TooLong` and `NoMemory`, of reading the file. Doesn't wait, unless the file or the
/// standard error does.
pub fn allowed<R: Files + Eprint + Alloc<A = Global>>(
    rt: &R,
    manner: &Manner<'_>,
) -> Result<Option<Vec<Allowance>>, ScriptFault> {
    match manner.allow {
        None => Ok(Some(Vec::new(rt.alloc()))),
        Some(name) => {
            let mut file = opened(rt, name)?;
            let allowed = allowances_in(rt, &mut file);
            // `read_all` takes at most so many bytes.
            tell_file_too_long(rt, "--allow", "1,048,576", &allowed);
            allowed
        }
    }
}
