//! The command and its subcommands, as `clap` sees them.
ghost use Rattle.std.specs.Prelude.{◌≡◌, IfOk, false};
ghost use Rattle.clap.specs.Words.{app_of, new_app, rule_of, with_subcommand};
ghost use Rattle.xa_script.specs.CommandLine.{IsLocal, app_for, bare_app, rule_for, script_app, with_offers};
ghost use Rattle.xa_script.specs.CommandLine.{with_tasks};

use crate::help::{START, VERSION, help_of};
use crate::options::{Offer, TASKS, Task};
use clap::builder::ValueParser;
use clap::{Arg, ArgAction, Command};
use std::alloc::{AllocError, Global};

/// Returns an option or an argument of a job.
fn argument<'a>(alloc: Global, offer: Offer) -> Arg<'a>
    ensures rule { rule_of result ≡ rule_for offer }
    ensures global { result.global ≡ false }
{
    match offer {
        Offer::Flag(name, help) => Arg::new(alloc, name)
            .long(name)
            .help(help)
            .action(ArgAction::SetTrue),
        Offer::File(name, help) => Arg::new(alloc, name)
            .long(name)
            .value_name("FILE")
            .help(help),
        Offer::Number(name, value, least, most, help) => Arg::new(alloc, name)
            .long(name)
            .value_name(value)
            .help(help)
            .value_parser(ValueParser::unsigned(least, most)),
        Offer::Default(name, least, most, default, help) => Arg::new(alloc, name)
            .long(name)
            .value_name("N")
            .help(help)
            .value_parser(ValueParser::unsigned(least, most))
            .default_value(default),
        Offer::Names(name, value, required, help) => Arg::new(alloc, name)
            .value_name(value)
            .help(help)
            .num_args(1..)
            .required(required),
    }
}

/// Adds options and arguments.
fn with_arguments<'a>(
    alloc: Global,
    command: Command<'a>,
    offers: &[Offer],
) -> Result<Command<'a>, AllocError>
    requires { IsLocal command }
    ensures app { IfOk result (λ more. app_of more ≡ with_offers (app_of command.entry) offers.now) }
    ensures local { IfOk result IsLocal }
{
    let mut more = command;
    for offer in offers {
        more = more.arg(argument(alloc, *offer))?;
    }
    Ok(more)
}

/// Returns a subcommand that has no options yet. Its help begins with `about`, and shows `help` after the options.
fn plain_command<'a>(
    alloc: Global,
    name: &'static str,
    about: &'static str,
    help: &'static str,
) -> Command<'a>
    ensures app { app_of result ≡ new_app name.entry.now }
    ensures local { IsLocal result }
{
    Command::new(alloc, name).about(about).after_help(help)
}

/// Adds the subcommand of a job.
fn with_task<'a>(alloc: Global, command: Command<'a>, task: Task) -> Result<Command<'a>, AllocError>
    ensures { IfOk result (λ more. app_of more ≡ with_subcommand (app_of command.entry) (app_for task).top) }
{
    let plain = plain_command(alloc, task.name, task.about, help_of(task.name));
    let own = with_arguments(alloc, plain, task.own)?;
    command.subcommand(with_arguments(alloc, own, task.shared)?)
}

/// Adds the subcommands of jobs.
fn with_all<'a>(
    alloc: Global,
    command: Command<'a>,
    tasks: &[Task],
) -> Result<Command<'a>, AllocError>
    ensures { IfOk result (λ more. app_of more ≡ with_tasks (app_of command.entry) tasks.now) }
{
    let mut more = command;
    for task in tasks {
        more = with_task(alloc, more, *task)?;
    }
    Ok(more)
}

/// Returns the command without its subcommands. One of these is required, unless help or the version is asked for.
fn bare_command<'a>(alloc: Global) -> Command<'a>
    ensures { app_of result ≡ bare_app }
{
    Command::new(alloc, "xa_script")
        .version(VERSION)
        .about("Runs, races and judges scripts of XA statements")
        .after_help(START)
        .subcommand_required(true)
}

/// Returns the command with its subcommands.
pub fn script_command<'a>(alloc: Global) -> Result<Command<'a>, AllocError>
    ensures { IfOk result (λ command. app_of command ≡ script_app) }
{
    with_all(alloc, bare_command(alloc), &TASKS)
}
