//! Says on the standard error what is too long, and what to do about it.
ghost use Rattle.std.specs.Prelude.{◌≡◌};
ghost use Rattle.xa_script.specs.Lines.{tells_length};

use crate::Job;
use xa_lines::ScriptFault;

/// Returns what a job reads that may be too long, and what to do about it. The jobs that answer line by line read any
/// length, so their text is never needed.
fn advice(job: Job) -> &'static str {
    match job {
        Job::Run =>
            "the script has more than 1,048,576 bytes; split it, or give it to serve, which takes any length",
        Job::Race { .. } | Job::Explore { .. } => {
            "the script has more than 1,048,576 bytes; make it shorter"
        }
        Job::Stops { .. } => "the calls have more than 1,048,576 bytes; make them fewer",
        Job::Judge { .. } => {
            "the record has more than 16,777,216 bytes; record in pieces, by --record-size of \
                nigbaru-server, and judge each with --from"
        }
        Job::Audit => "the history has more than 16,777,216 bytes; make it shorter",
        Job::Coordinate { .. } | Job::Serve | Job::Show => "the input is too long; make it shorter",
    }
}

/// Returns whether the standard error says what is too long. After a fault of `run` and `race` it has one line, and
/// more only if that is asked for.
fn tells(job: Job, verbose: bool) -> bool
    // Proved (scripts, too-long-told): What is too long, the limit and what to do are for the standard error of every
    //   job but `run` and `race`, and with `--verbose` for theirs, too.
    ensures { result ≡ tells_length verbose job }
{
    match job {
        Job::Run | Job::Race { .. } => verbose,
        Job::Coordinate { .. } | Job::Serve | Job::Show | Job::Judge { .. } => true,
        Job::Explore { .. } | Job::Stops { .. } | Job::Audit => true,
    }
}

/// Says what is too long if a job ended so. Of `run` and `race` this is said only if `verbose`.
///
/// Takes no memory. Doesn't wait, unless the standard error does.
/// Own rule: docs/COMMANDS.md#messages.
pub fn tell_too_long<R: Eprint>(rt: &R, job: Job, verbose: bool, done: &Result<u8, ScriptFault>) {
    if matches!(done, Err(ScriptFault::TooLong)) && tells(job, verbose) {
        let _ = eprintln!(rt; "xa_script: {}", advice(job));
    }
}

/// Says that the file of an option is too long, if reading it ended so. `most` is the limit, in digits.
///
/// Takes no memory. Doesn't wait, unless the standard error does.
/// Own rule: docs/COMMANDS.md#messages.
pub fn tell_file_too_long<R: Eprint, T>(
    rt: &R,
    option: &str,
    most: &str,
    read: &Result<T, ScriptFault>,
) {
    if matches!(read, Err(ScriptFault::TooLong)) {
        let _ = eprintln!(rt;
            "xa_script: the file of {option} has more than {most} bytes; make it shorter"
        );
    }
}
