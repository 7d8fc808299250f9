//! The jobs, and the options of each.
ghost use Rattle.std.specs.Prelude.{◌≡◌, None, IfSome, codes};
ghost use Rattle.clap.specs.Words.{found_of, one_of, rows_of};
ghost use Rattle.xa_script.specs.CommandLine.{CanBeDone, IsJob, IsScheduleOf};

use crate::Schedule;
use crate::found::{flag_in, number_in};
use clap::ArgMatches;

/// What the program is to do. A job that reads the standard input reads the file of `--file` instead if that is given.
/// `Judge` reads neither if records are named.
#[derive(Clone, Copy, Debug, PartialEq, Eq)]
pub enum Job {
    /// Runs the script of the standard input on a sequential server.
    Run,
    /// Races the script of the standard input.
    Race {
        /// How many entries the history has room for, in `[1, 1024]`.
        capacity: u64,
        /// How the sessions come to their lines.
        schedule: Schedule,
        /// Whether the race is over a store without an end, whose ring has `capacity` slots.
        renews: bool,
        /// How often the script is raced to count its outcomes, in `[1, 1_000_000]`, if it is.
        runs: Option<u64>,
    },
    /// Carries out the calls of the standard input, over stores of its own.
    Coordinate {
        /// How many stores, in `[1, 16]`.
        stores: u64,
        /// How many entries each store has room for if `fixed`, in `[1, 1024]`.
        capacity: u64,
        /// Whether stores are limited to that capacity.
        fixed: bool,
    },
    /// Answers each line of the standard input before it reads more.
    Serve,
    /// Answers as `Serve` does, and shows the store after each answer.
    Show,
    /// Judges the record of the standard input.
    Judge {
        /// How many different configurations may be kept before an event, in `[1, 1_000_000]`.
        limit: u64,
        /// Whether what was seen and its call come with an ILLEGAL verdict, and, unless `shrink`, an order of the lines
        /// before and the store after it.
        explain: bool,
        /// Whether a call that isn't a statement is a faulty line.
        strict_calls: bool,
        /// Whether a smaller record comes with an ILLEGAL verdict.
        shrink: bool,
    },
    /// Runs the script of the standard input in every order of its sessions.
    Explore {
        /// How many ways that have carried out equally many lines may be kept, in `[1, 1_000_000]`.
        limit: u64,
    },
    /// Stops the coordinator of the calls of the standard input at each place.
    Stops {
        /// How many stores, in `[1, 16]`.
        stores: u64,
    },
    /// Audits the histories that the command line names.
    Audit,
}

/// Returns how the sessions come to their lines. If a seed is given, `--together` changes nothing.
fn schedule_in(found: &ArgMatches<'_>) -> Schedule
    ensures { IsScheduleOf (one_of (codes "together") (rows_of (found_of found.now)))
        (one_of (codes "shuffle") (rows_of (found_of found.now))) result }
{
    match number_in(found, "shuffle", 0, u64::MAX) {
        Some(seed) => Schedule::Shuffled(seed),
        None => {
            if flag_in(found, "together") {
                Schedule::Together
            } else {
                Schedule::Freely
            }
        }
    }
}

/// Returns the race that the options of `race` ask for; None if the capacity isn't in its range.
fn race_in(found: &ArgMatches<'_>) -> Option<Job>
    ensures some { IfSome result (λ job. IsJob job (codes "race", rows_of (found_of found.now))) }
    ensures none { result ≡ None → (job : Job) → IsJob job (codes "race", rows_of (found_of found.now)) → ⊥ }
    ensures done { IfSome result CanBeDone }
{
    Some(Job::Race {
        capacity: number_in(found, "capacity", 1, 1024)?,
        schedule: schedule_in(found),
        renews: flag_in(found, "renew"),
        // The option's parser takes no number out of its range, so None means that the option isn't given.
        runs: number_in(found, "runs", 1, 1_000_000),
    })
}

/// Returns the job that the options of `coordinate` ask for; None if a number isn't in its range.
fn coordinate_in(found: &ArgMatches<'_>) -> Option<Job>
    ensures some { IfSome result (λ job. IsJob job (codes "coordinate", rows_of (found_of found.now))) }
    ensures none { result ≡ None → (job : Job) → IsJob job (codes "coordinate", rows_of (found_of found.now)) → ⊥ }
    ensures done { IfSome result CanBeDone }
{
    Some(Job::Coordinate {
        stores: number_in(found, "stores", 1, 16)?,
        capacity: number_in(found, "capacity", 1, 1024)?,
        fixed: flag_in(found, "fixed"),
    })
}

/// Returns the job that the options of `stops` ask for; None if a number isn't in its range.
fn stops_in(found: &ArgMatches<'_>) -> Option<Job>
    ensures some { IfSome result (λ job. IsJob job (codes "stops", rows_of (found_of found.now))) }
    ensures none { result ≡ None → (job : Job) → IsJob job (codes "stops", rows_of (found_of found.now)) → ⊥ }
    ensures done { IfSome result CanBeDone }
{
    let stores = number_in(found, "stores", 1, 16)?;
    Some(Job::Stops { stores })
}

/// Returns the job that the options of `judge` ask for; None if the limit isn't in its range.
fn judge_in(found: &ArgMatches<'_>) -> Option<Job>
    ensures some { IfSome result (λ job. IsJob job (codes "judge", rows_of (found_of found.now))) }
    ensures none { result ≡ None → (job : Job) → IsJob job (codes "judge", rows_of (found_of found.now)) → ⊥ }
    ensures done { IfSome result CanBeDone }
{
    Some(Job::Judge {
        limit: number_in(found, "limit", 1, 1_000_000)?,
        explain: flag_in(found, "explain"),
        strict_calls: flag_in(found, "strict-calls"),
        shrink: flag_in(found, "shrink"),
    })
}

/// Returns the job that the options of `explore` ask for; None if the limit isn't in its range.
fn explore_in(found: &ArgMatches<'_>) -> Option<Job>
    ensures some { IfSome result (λ job. IsJob job (codes "explore", rows_of (found_of found.now))) }
    ensures none { result ≡ None → (job : Job) → IsJob job (codes "explore", rows_of (found_of found.now)) → ⊥ }
    ensures done { IfSome result CanBeDone }
{
    let limit = number_in(found, "limit", 1, 1_000_000)?;
    Some(Job::Explore { limit })
}

/// Returns the job of the subcommand of this name, by what was found for its options; None if there is no such job, or
/// if a capacity, a number of stores or a limit isn't in its range.
///
/// Takes no memory. Doesn't wait.
pub fn job_in(name: &str, found: &ArgMatches<'_>) -> Option<Job>
    ensures some { IfSome result (λ job. IsJob job (name.now, rows_of (found_of found.now))) }
    ensures none { result ≡ None → (job : Job) → IsJob job (name.now, rows_of (found_of found.now)) → ⊥ }
    ensures done { IfSome result CanBeDone }
{
    if name == "run" {
        Some(Job::Run)
    } else if name == "race" {
        race_in(found)
    } else if name == "coordinate" {
        coordinate_in(found)
    } else if name == "serve" {
        Some(Job::Serve)
    } else if name == "show" {
        Some(Job::Show)
    } else if name == "judge" {
        judge_in(found)
    } else if name == "explore" {
        explore_in(found)
    } else if name == "stops" {
        stops_in(found)
    } else if name == "audit" {
        Some(Job::Audit)
    } else {
        None
    }
}
