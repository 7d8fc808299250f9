//! Says on the standard error what to do if a limit was passed.

use xa_lines::ScriptFault;

/// The status of judging and exploring if the limit was passed. No other job ends so.
const UNDECIDED: u8 = 5;

/// Returns whether the status says that the limit was passed.
pub fn is_undecided(status: u8) -> bool {
    status == UNDECIDED
}

/// Says that the limit was passed, and what to do.
///
/// Takes no memory. Doesn't wait, unless the standard error does.
/// Own rule: docs/COMMANDS.md#messages.
pub fn tell_limit<R: Eprint>(rt: &R) {
    let _ = eprintln!(rt;
        "xa_script: more had to be kept than --limit allows; raise it, at most to 1,000,000"
    );
}

/// Says what to do, if a job's status is that of a limit that was passed.
///
/// Takes no memory. Doesn't wait, unless the standard error does.
/// Own rule: docs/COMMANDS.md#messages.
pub fn tell_undecided<R: Eprint>(rt: &R, done: &Result<u8, ScriptFault>) {
    if let Ok(status) = done
        && is_undecided(*status)
    {
        tell_limit(rt);
    }
}
