//! Stops the coordinator of a script of calls, and returns the exit status for how that ended.
ghost use Rattle.std.specs.Prelude.{◌≡◌};
ghost use Rattle.xa_script.specs.{CommandLine.IsStoreCount, Status.status_of_stops as status_of, Jobs.HasStopped};

use std::alloc::Global;
use std::io::{Read, Write};
use std::sync::Wait;
use xa_lines::ScriptFault;
use xa_manager::{Ended, stops_script};

/// The status if all stops were listed.
const LISTED: u8 = 0;

/// The status if faulty lines were listed.
const FAULTY: u8 = 6;

/// Returns the exit status for how stopping a coordinator ended.
fn status_of_stops(ended: Ended) -> u8
    ensures { result ≡ status_of ended }
{
    match ended {
        Ended::Done => LISTED,
        Ended::Faulty => FAULTY,
    }
}

/// Stops the coordinator of a script at each place, writes each stop or the faulty lines, and returns the
/// exit status for it.
///
/// `stores` is in `[1, 16]`.
/// Errors: as `stops_script`. After `Write` a prefix of the text was written, after any other error nothing.
/// May return `NoMemory`. Doesn't wait, unless the reader or the writer does.
/// Own rule: docs/COORDINATOR.md#stops.
pub fn stops<H: Wait, R: Read, W: Write>(
    rt: &H,
    alloc: Global,
    reader: &mut R,
    writer: &mut W,
    stores: u64,
) -> Result<u8, ScriptFault>
    requires { IsStoreCount stores }
    // Proved (scripts, status-of-an-end)
    ensures { HasStopped (W.contents writer.old) (W.contents writer.new) result }
{
    match stops_script(rt, alloc, reader, writer, stores) {
        Ok(ended) => Ok(status_of_stops(ended)),
        Err(fault) => Err(fault),
    }
}
