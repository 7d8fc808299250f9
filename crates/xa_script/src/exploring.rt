//! Explores a script, and returns the exit status for how that ended.
ghost use Rattle.std.specs.Prelude.{◌≡◌};
ghost use Rattle.xa_script.specs.{CommandLine.IsLimit, Status.status_of_end as status_of, Jobs.HasExplored};

use std::alloc::Global;
use std::io::{Read, Write};
use xa_lines::ScriptFault;
use xa_orders::{Ended, explore_script};

/// The status if all outcomes were listed.
const LISTED: u8 = 0;

/// The status if the limit was passed.
const UNDECIDED: u8 = 5;

/// The status if faulty lines were listed.
const FAULTY: u8 = 6;

/// Returns the exit status for how exploring a script ended, or racing it again and again to count its outcomes.
pub fn status_of_end(ended: Ended) -> u8
    ensures { result ≡ status_of ended }
{
    match ended {
        Ended::Done => LISTED,
        Ended::Undecided => UNDECIDED,
        Ended::Faulty => FAULTY,
    }
}

/// Explores a script, writes its outcomes, `UNDECIDED` or its faulty lines, and returns the exit status for it.
///
/// `limit`, in `[1, 1_000_000]`: how many ways that have carried out equally many lines may be kept.
/// Errors: as `explore_script`. After `Write` a prefix of the text was written, after any other error
/// nothing.
/// May return `NoMemory`. Doesn't wait, unless the reader or the writer does.
/// Own rule: docs/COMMANDS.md#explore.
pub fn explore<R: Read, W: Write>(
    alloc: Global,
    reader: &mut R,
    writer: &mut W,
    limit: u64,
) -> Result<u8, ScriptFault>
    requires { IsLimit limit }
    // Proved (scripts, status-of-an-end)
    ensures { HasExplored limit (R.remaining reader.old) (W.contents writer.old) (W.contents writer.new) result }
{
    // A limit of at most 1,000,000 stays the same.
    match explore_script(alloc, reader, writer, limit as usize) {
        Ok(ended) => Ok(status_of_end(ended)),
        Err(fault) => Err(fault),
    }
}
