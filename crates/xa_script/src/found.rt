//! What `clap` found for the options of a subcommand.
ghost use Rattle.std.specs.Prelude.{◌≡◌, [], IfOk, map, option_map, unwrap_or};
ghost use Rattle.clap.specs.Words.{all_of, first_of, found_of, matched_of, one_of, one_text, raw_values, rows_of};
ghost use Rattle.xa_script.specs.CommandLine.{IsFlagOf, IsNumberOf};

use clap::ArgMatches;
use std::alloc::{AllocError, Global};

/// Returns whether the option of this name, which has no value, is given.
fn flag_at(found: &ArgMatches<'_>, name: &str) -> bool
    ensures { IsFlagOf (one_text (found_of found.now) name.now) result }
{
    // A job that has no such option has no value of it.
    found.get_one::<bool>(name).unwrap_or(false)
}

/// Returns whether the option of this name, which has no value, is given.
pub fn flag_in(found: &ArgMatches<'_>, name: &str) -> bool
    ensures { IsFlagOf (one_of name.now (rows_of (found_of found.now))) result }
{
    flag_at(found, name)
}

/// Returns the value of the option of this name, if it is a number from `least` to `most`.
fn number_at(found: &ArgMatches<'_>, name: &str, least: u64, most: u64) -> Option<u64>
    ensures { IsNumberOf least most (one_text (found_of found.now) name.now) result }
{
    match found.get_one::<u64>(name) {
        // The option's parser takes no other number. That isn't known here.
        Some(number) if least <= number && number <= most => Some(number),
        _ => None,
    }
}

/// Returns the value of the option of this name, if it is a number from `least` to `most`.
pub fn number_in(found: &ArgMatches<'_>, name: &str, least: u64, most: u64) -> Option<u64>
    ensures { IsNumberOf least most (one_of name.now (rows_of (found_of found.now))) result }
{
    number_at(found, name, least, most)
}

/// Returns the value of the option of this name, if it is given.
pub fn text_in<'a>(found: &ArgMatches<'a>, name: &str) -> Option<&'a str>
    ensures { option_map (λ text. text.now) result ≡ first_of name.now (rows_of (found_of found.now)) }
{
    found.get_str(name)
}

/// Returns all values of the argument of this name; none if the job has no such argument.
fn texts_at<'a>(
    alloc: Global,
    found: &ArgMatches<'a>,
    name: &str,
) -> Result<Vec<&'a str>, AllocError>
    ensures { IfOk result (λ texts. map (λ text. text.now) texts.items
        ≡ unwrap_or (option_map raw_values (matched_of (found_of found.now) name.now)) []) }
{
    match found.get_strs(name) {
        Some(texts) => Vec::from_slice(alloc, texts),
        None => Ok(Vec::new(alloc)),
    }
}

/// Returns all values of the argument of this name; none if the job has no such argument.
pub fn texts_in<'a>(
    alloc: Global,
    found: &ArgMatches<'a>,
    name: &str,
) -> Result<Vec<&'a str>, AllocError>
    ensures { IfOk result (λ texts. map (λ text. text.now) texts.items
        ≡ unwrap_or (all_of name.now (rows_of (found_of found.now))) []) }
{
    texts_at(alloc, found, name)
}
