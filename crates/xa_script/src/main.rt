//! The program: its command line, the standard streams, the exit status, and what it writes to the standard
//! error. docs/COMMANDS.md describes each job. Libraries do the work: `xa_lines` runs, serves and shows,
//! `xa_races` races, `xa_manager` coordinates and shows stops, `xa_orders` explores, `xa_record` judges, and
//! `xa_audit` audits.
//!
//! Functions that use the process or its streams promise nothing of these, since no contract can name them. Tests
//! of the built program show what they do. Down from `carry_out_on` (`src/from_reader.rt`), which does what a command
//! line asks for from readers to a writer, those that make the output or the status have contracts.
//! `src/carrying_out.rt` opens what a job reads. Read `src/from_reader.rt` next, then `src/jobs.rt`, `src/options.rt`,
//! `src/command.rt`, `src/command_line.rt` and `src/help.rt`.
#![tactic(auto)]

ghost use Rattle.std.specs.Prelude.{◌≡◌};
ghost use Rattle.xa_script.specs.Status.{status_after, status_of_job};

mod advised;
mod allowing;
mod auditing;
mod carrying_out;
mod command;
mod command_line;
mod exploring;
mod files;
mod following;
mod foreign;
mod found;
mod from_reader;
mod help;
mod hint;
mod jobs;
mod judging;
mod judging_each;
mod judging_read;
mod laws;
mod line_fault;
mod line_form;
mod line_kind;
mod listed;
mod listing;
mod manner;
mod options;
mod racing;
mod running;
mod schedule;
mod spoken;
mod standing;
mod standings;
mod starting;
mod stopping;
mod subcommands;
mod telling;
mod text_line;
mod texts;
mod too_long;
mod undecided;
mod verdict;
mod wanted;
mod watch;

use carrying_out::carry_out;
use clap::Error;
use clap::error::ErrorKind;
pub use command::Job;
pub use command_line::{CommandLine, read_line};
pub use laws::texts_are_read_back;
pub use manner::Manner;
pub use schedule::Schedule;
use std::alloc::Global;
use std::env::Env;
use std::io::{BufWriter, Read, Write};
use std::process::ExitCode;
use std::rt::{Clock, Files};
use std::sync::Wait;
use std::thread::Threads;
use std::{env, io};
pub use xa_lines::{CutReader, CutWriter, ScriptFault, run_script};
pub use xa_races::{race_script, race_script_in_rounds};

/// The status of a job that was done and has no status of its own, and of help and the version.
const DONE: u8 = 0;

/// The status if an input can't be read or is too long, or the output can't be written.
const STREAM_FAULT: u8 = 1;

/// The status of a command line that isn't understood, or whose file of `--allow` or `--from` has a faulty line.
const COMMAND_FAULT: u8 = 2;

/// The status if memory ran out, the log of a race is full, a gate stopped a session, or a thread couldn't be started.
const GAVE_OUT: u8 = 3;

/// The status with `--strict` if a line had a syntax fault, in place of 0.
const UNREAD: u8 = 8;

fn main(rt: HostRuntime) -> ExitCode {
    ExitCode::from(status(&rt))
}

/// Does what the command line asks for, and returns the exit status.
fn status<
    R: Env + Files + Clock + Input + Print + Eprint + Alloc<A = Global> + Threads + Wait + Sync,
>(rt: &R) -> u8 {
    let words = match words(rt) {
        Ok(words) => words,
        Err(error) => return refuse_words(rt, &error),
    };
    match read_line(rt.alloc(), words.as_slice()) {
        Ok(line) => ended(rt, &line.manner, carry_out(rt, &line)),
        Err(error) => refuse(rt, &error),
    }
}

/// Reports the fault of a job, if it had one, and with `--verbose` what to do if its history is full. Returns the exit
/// status.
fn ended<R: Eprint>(rt: &R, manner: &Manner<'_>, done: Result<u8, ScriptFault>) -> u8
    // Proved (scripts, status-of-a-job): The exit status that is made of how a job ended is the job's own, or the one
    //   after its fault, whatever the options are.
    ensures { result ≡ status_of_job done }
{
    match done {
        Ok(status) => status,
        Err(fault) => {
            tell(rt, &fault);
            if manner.verbose && fault == ScriptFault::Full {
                let _ = eprintln!(rt;
                    "xa_script: the history has no more room; add --renew, or raise --capacity, at most to 1024"
                );
            }
            status_of(fault)
        }
    }
}

/// Returns the words of the process's command line.
fn words<R: Env + Alloc<A = Global>>(rt: &R) -> io::Result<Vec<String>> {
    Ok(env::args(rt)?.collect(rt.alloc())?)
}

/// Reports why the words can't be had, and returns the exit status.
fn refuse_words<R: Eprint>(rt: &R, error: &io::Error) -> u8 {
    // Two things can go wrong: no memory for the words, or a word that isn't UTF-8.
    if error.kind() == io::ErrorKind::OutOfMemory {
        tell(rt, &ScriptFault::NoMemory);
        return GAVE_OUT;
    }
    let _ = eprintln!(rt; "error: a word of the command line isn't UTF-8");
    COMMAND_FAULT
}

/// Writes why a command line isn't carried out, or the help or version that it asks for, and returns the exit status.
fn refuse<R: Print + Eprint>(rt: &R, error: &Error) -> u8 {
    if error.kind() == ErrorKind::OutOfMemory {
        tell(rt, &ScriptFault::NoMemory);
        return GAVE_OUT;
    }
    let printed = error.print(rt);
    // What isn't for the standard error is help or the version, which was asked for.
    if error.use_stderr() {
        COMMAND_FAULT
    } else if printed.is_err() {
        tell(rt, &ScriptFault::Write);
        STREAM_FAULT
    } else {
        DONE
    }
}

/// Returns the exit status of a job that ended in this fault.
fn status_of(fault: ScriptFault) -> u8
    // Proved (scripts, status-after-a-fault): The status of a fault is 1 for `read fault`, `script too long` and
    //   `write fault`, and 3 for every other one.
    ensures { result ≡ status_after fault }
{
    match fault {
        ScriptFault::Read | ScriptFault::TooLong | ScriptFault::Write => STREAM_FAULT,
        ScriptFault::NoMemory => GAVE_OUT,
        ScriptFault::Full | ScriptFault::GateShut | ScriptFault::ThreadRefused => GAVE_OUT,
    }
}

/// Writes a fault to the standard error, if that takes it.
fn tell<R: Eprint>(rt: &R, fault: &ScriptFault) {
    let _ = eprintln!(rt; "xa_script: {fault}");
}
