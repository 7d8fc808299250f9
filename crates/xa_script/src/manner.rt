//! How a job is done.
ghost use Rattle.clap.specs.Words.{found_of, rows_of};
ghost use Rattle.xa_script.specs.Manner.{IsManner};

use crate::found::{flag_in, text_in};
use clap::ArgMatches;

/// How a job is done: the options of every job that reads one input, `--json`, and five of `judge`. `audit` has
/// `--verbose`, `--text`, `--json` and `--quiet` of these.
#[derive(Clone, Copy, Debug, PartialEq, Eq)]
pub struct Manner<'a> {
    /// The file that is read instead of the standard input.
    pub file: Option<&'a str>,
    /// The file of `--allow`, with the error numbers that are allowed.
    pub allow: Option<&'a str>,
    /// The file of `--from`, with the state in which a record begins.
    pub from: Option<&'a str>,
    /// Whether the standard error says for each fault where it is and what to do.
    pub verbose: bool,
    /// Whether the exit status reports syntax faults.
    pub strict: bool,
    /// Whether literals of printable bytes are written as `'text'`.
    pub text: bool,
    /// Whether the progress of judging isn't reported, or only the last line of an audit is written.
    pub quiet: bool,
    /// Whether the output is written as objects of JSON.
    pub json: bool,
    /// Whether a record is judged while it comes.
    pub follow: bool,
    /// Whether verdicts are listed in the Test Anything Protocol.
    pub tap: bool,
}

/// Returns the manner that the options which were found give.
///
/// Takes no memory. Doesn't wait.
pub fn manner_in<'a>(found: &ArgMatches<'a>) -> Manner<'a>
    ensures { IsManner (rows_of (found_of found.now)) result }
{
    Manner {
        file: text_in(found, "file"),
        allow: text_in(found, "allow"),
        from: text_in(found, "from"),
        verbose: flag_in(found, "verbose"),
        strict: flag_in(found, "strict"),
        text: flag_in(found, "text"),
        quiet: flag_in(found, "quiet"),
        json: flag_in(found, "json"),
        follow: flag_in(found, "follow"),
        tap: flag_in(found, "tap"),
    }
}
