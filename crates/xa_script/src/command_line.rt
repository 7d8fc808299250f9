//! Reading the command line.
ghost use Rattle.std.specs.Prelude.{◌≡◌, ◌≤◌, [], None, IfOk, IfSome, codes, length, map, unwrap_or};
ghost use Rattle.std.specs.Option.{IsSomeAnd};
ghost use Rattle.clap.specs.Words.{all_of, app_of, found_of, rows_of, subcommand_rows_of};
ghost use Rattle.xa_script.specs.CommandLine.{script_app, CanBeDone, IsJob};
ghost use Rattle.xa_script.specs.Manner.{HasExcess, IsLine, IsManner, ReadsLine, Says, most_names as most_names_of};

use crate::command::{Job, job_in};
use crate::found::texts_in;
use crate::manner::{Manner, manner_in};
use crate::subcommands::script_command;
use clap::error::ErrorKind;
use clap::{ArgMatches, Command, Error};
use std::alloc::{AllocError, Global};
use std::convert::AsStr;

/// What a command line asks for.
#[derive(Drop)]
pub struct CommandLine<'a> {
    /// The job.
    pub job: Job,
    /// How it is done.
    pub manner: Manner<'a>,
    /// The files that are named as arguments: the histories of `audit`, that of the first store first, or the records
    /// of `judge`.
    pub names: Vec<&'a str>,
}

/// Returns how many names of files a job takes, and what is said of more (own rules: docs/COMMANDS.md#audit,
/// docs/COMMANDS.md#several-records).
fn most_names(job: Job) -> (usize, &'static str)
    ensures { result.0 ≡ most_names_of job }
{
    match job {
        Job::Audit => (64, "audit takes at most 64 histories"),
        Job::Run | Job::Race { .. } | Job::Coordinate { .. } | Job::Serve | Job::Show => {
            (1_000, "judge takes at most 1000 records")
        }
        Job::Judge { .. } | Job::Explore { .. } | Job::Stops { .. } => {
            (1_000, "judge takes at most 1000 records")
        }
    }
}

impl CommandLine<'_> {
    /// Returns what is wrong with the files that are named: their number, or that one is named by `--file`, too. None
    /// if nothing is.
    fn excess(&self) -> Option<(ErrorKind, &'static str)>
        ensures some { IfSome result (λ wrong. HasExcess self.now) }
        ensures names { result ≡ None → length self.now.names.items ≤ most_names_of self.now.job }
    {
        let (most, message) = most_names(self.job);
        if self.names.len() > most {
            return Some((ErrorKind::TooManyValues, message));
        }
        // Only `judge` takes names beside `--file`, which would be one more input.
        if !self.names.is_empty() && self.manner.file.is_some() {
            let message = "judge takes records either by their names or by --file";
            return Some((ErrorKind::ArgumentConflict, message));
        }
        None
    }
}

/// Returns a command line with this job and the options that were found.
fn line_of<'a>(
    alloc: Global,
    job: Job,
    found: &ArgMatches<'a>,
) -> Result<CommandLine<'a>, AllocError>
    ensures job { IfOk result (λ line. line.job ≡ job) }
    ensures manner { IfOk result (λ line. IsManner (rows_of (found_of found.now)) line.manner) }
    ensures names { IfOk result (λ line. map (λ name. name.now) line.names.items
        ≡ unwrap_or (all_of (codes "name") (rows_of (found_of found.now))) []) }
{
    Ok(CommandLine {
        job,
        manner: manner_in(found),
        names: texts_in(alloc, found, "name")?,
    })
}

/// Returns the command line of the subcommand that was found; None if there is no subcommand or no such job, or if a
/// capacity, a number of stores or a limit of it isn't in its range.
fn line_in<'a>(
    alloc: Global,
    matches: &ArgMatches<'a>,
) -> Result<Option<CommandLine<'a>>, AllocError>
    ensures some { IfOk result (λ found. IfSome found (λ line. IsSomeAnd (subcommand_rows_of matches.now)
        (IsLine line))) }
    ensures none { IfOk result (λ found. found ≡ None → (job : Job) → IsSomeAnd (subcommand_rows_of matches.now)
        (IsJob job) → ⊥) }
    ensures done { IfOk result (λ found. IfSome found (λ line. CanBeDone line.job)) }
{
    let Some((name, found)) = matches.subcommand() else {
        return Ok(None);
    };
    match job_in(name, found) {
        Some(job) => Ok(Some(line_of(alloc, job, found)?)),
        None => Ok(None),
    }
}

/// Returns what the words ask for, as this command reads them. Errors: those of `read_line`.
fn line_by<'a, S: AsStr>(
    alloc: Global,
    command: &mut Command<'a>,
    words: &'a [S],
) -> Result<CommandLine<'a>, Error>
    requires { app_of command.old ≡ script_app }
    ensures says { IfOk result (Says (map S.text words.entry.now)) }
    ensures done { IfOk result (λ line. CanBeDone line.job) }
    ensures names { IfOk result (λ line. length line.names.items ≤ most_names_of line.job) }
    ensures fault { ReadsLine (map S.text words.entry.now) result }
{
    let matches = command.try_get_matches_from_mut(words)?;
    let found = line_in(alloc, &matches)?;
    let line = match found {
        Some(line) => line,
        // The command requires one of its subcommands, and their options' parsers test the ranges. That isn't known
        // here.
        None => return Err(command.error(ErrorKind::InvalidSubcommand, "no such job")?),
    };
    if let Some((kind, message)) = line.excess() {
        return Err(command.error(kind, message)?);
    }
    Ok(line)
}

/// Returns what the words of a command line ask for. The first word is the program's own name.
///
/// A capacity is in `[1, 1024]`, by default 1024; a number of stores in `[1, 16]`, by default 3; a limit in
/// `[1, 1_000_000]`, by default 100,000; a number of runs in `[1, 1_000_000]`. The schedule of a race with a
/// seed is `Shuffled`. An audit has at most 64 histories, and `judge` at most 1,000 records that are named.
/// Errors, in the order of test: `clap`'s own, if the words name no job, or ask for help or the version; of the kind
/// `TooManyValues` if there are more files; of the kind `ArgumentConflict` if `--file` is given beside the name of a
/// record. One of the kinds is out of memory.
/// Takes memory. Doesn't wait.
/// Own rule: docs/COMMANDS.md#options-of-every-job.
pub fn read_line<'a, S: AsStr>(alloc: Global, words: &'a [S]) -> Result<CommandLine<'a>, Error>
    // Proved (scripts, command-line): The job is the one that `clap`'s matches of the words name, and the files and
    //   flags are those that they name for it: all histories and records in their order, and `--tap`. If they name no
    //   job, or too many files, or a record beside `--file`, an error is returned.
    ensures says { IfOk result (Says (map S.text words.entry.now)) }
    // Proved (scripts, command-ranges): A capacity is from 1 to 1024, a number of stores from 1 to 16, and a
    //   limit or a number of runs from 1 to 1,000,000. There are at most 64 histories, and at most 1,000 records.
    ensures done { IfOk result (λ line. CanBeDone line.job) }
    // Proved (scripts, command-ranges)
    ensures names { IfOk result (λ line. length line.names.items ≤ most_names_of line.job) }
    // Proved (scripts, command-line)
    ensures fault { ReadsLine (map S.text words.entry.now) result }
{
    let mut command = script_command(alloc)?;
    line_by(alloc, &mut command, words)
}
