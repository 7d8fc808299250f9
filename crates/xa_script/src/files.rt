//! The files that the command line names.
use std::fs::File;
use std::io;
use std::rt::Files;
use xa_lines::ScriptFault;

/// Reports that a file can't be opened, and why, and returns that as a read fault.
fn unopened<R: Eprint>(rt: &R, name: &str, error: &io::Error) -> ScriptFault {
    let _ = eprintln!(rt; "xa_script: can't open {name}: {error}");
    ScriptFault::Read
}

/// Opens a file to read it.
///
/// Errors: `Read` if it can't be opened. The standard error then names the file and the cause. Doesn't wait, unless
/// the file does.
pub fn opened<R: Files + Eprint>(rt: &R, name: &str) -> Result<R::File, ScriptFault> {
    match File::open(rt, name) {
        Ok(file) => Ok(file),
        Err(error) => Err(unopened(rt, name, &error)),
    }
}
