//! Opens what a job reads, and has the job done: the standard input, the file of `--file`, or the files that are named
//! for `audit` or `judge`.
ghost use Rattle.std.specs.Prelude.{◌≡◌, ◌≤◌, IfOk, length};
ghost use Rattle.xa_script.specs.{CommandLine.CanBeDone, Manner.most_names};

use crate::allowing::allowed;
use crate::files::opened;
use crate::from_reader::{carry_out_on, is_audit, lines_of, listing_in, text_form};
use crate::starting::first_store;
use crate::too_long::tell_too_long;
use crate::undecided::tell_undecided;
use crate::watch::Watch;
use crate::{COMMAND_FAULT, CommandLine, jobs};
use std::alloc::Global;
use std::io::Read;
use std::rt::{Clock, Files};
use std::sync::Wait;
use std::thread::Threads;
use xa_lines::ScriptFault;
use xa_record::Allowance;
use xa_server::Server;

/// The name of the standard input in a list of verdicts.
const STANDARD_INPUT: &str = "standard input";

/// Does what a command line asks for, and returns the exit status: `COMMAND_FAULT` if the file of `--allow` or of
/// `--from` has a faulty line, which the standard error names. Only `judge` has these options.
pub fn carry_out<
    R: Files + Clock + Input + Print + Eprint + Alloc<A = Global> + Threads + Wait + Sync,
>(rt: &R, line: &CommandLine<'_>) -> Result<u8, ScriptFault>
    requires done { CanBeDone line.now.job }
    requires names { length line.now.names.items ≤ most_names line.now.job }
{
    let Some(allowances) = allowed(rt, &line.manner)? else {
        return Ok(COMMAND_FAULT);
    };
    let Some(base) = first_store(rt, &line.manner)? else {
        return Ok(COMMAND_FAULT);
    };
    let listed = listing_in(line).is_some();
    let done = carry_out_files(rt, line, listed, allowances.as_slice(), &base);
    tell_too_long(rt, line.job, line.manner.verbose, &done);
    // A list reports that the limit was passed behind the name of each such record.
    if !listed {
        tell_undecided(rt, &done);
    }
    done
}

/// Opens what a command line names, has the job done, and returns the exit status.
fn carry_out_files<
    R: Files + Clock + Input + Print + Eprint + Alloc<A = Global> + Threads + Wait + Sync,
>(
    rt: &R,
    line: &CommandLine<'_>,
    listed: bool,
    allowances: &[Allowance],
    base: &Server,
) -> Result<u8, ScriptFault>
    requires done { CanBeDone line.now.job }
    requires names { length line.now.names.items ≤ most_names line.now.job }
{
    let named = is_audit(line.job) || listed;
    if !line.names.is_empty() {
        let inputs = opened_each(rt, line.names.as_slice(), line, named)?;
        return carry_out_spoken(rt, inputs, line, listed, allowances, base);
    }
    if let Some(name) = line.manner.file {
        let inputs = opened_each(rt, &[name], line, named)?;
        return carry_out_spoken(rt, inputs, line, listed, allowances, base);
    }
    let mut inputs = Vec::new(rt.alloc());
    inputs.push(watched(rt, rt.reader(), STANDARD_INPUT, line, named))?;
    carry_out_spoken(rt, inputs, line, listed, allowances, base)
}

/// Returns a reader of what a job reads, that looks at its lines. If `named`, what is said of them comes behind the
/// input's name.
fn watched<'r, I: Read + Drop, R: Eprint + Alloc<A = Global>>(
    rt: &'r R,
    input: I,
    name: &'r str,
    line: &CommandLine<'_>,
    named: bool,
) -> Watch<'r, I, R> {
    let (kind, most) = lines_of(line.job);
    let name = if named { Some(name) } else { None };
    Watch::new(
        rt,
        input,
        name,
        kind,
        most,
        line.manner.verbose,
        line.manner.strict,
    )
}

/// Opens each file, and returns readers of them as `watched` does.
///
/// Errors: `Read` if one can't be opened; the standard error then names it. `NoMemory`.
fn opened_each<'r, R: Files + Eprint + Alloc<A = Global>>(
    rt: &'r R,
    names: &[&'r str],
    line: &CommandLine<'_>,
    named: bool,
) -> Result<Vec<Watch<'r, R::File, R>>, ScriptFault>
    ensures { IfOk result (λ inputs. length inputs.items ≡ length names.now) }
{
    let mut inputs = Vec::new(rt.alloc());
    for name in names {
        let file = opened(rt, name)?;
        inputs.push(watched(rt, file, name, line, named))?;
    }
    Ok(inputs)
}

/// Does what a command line asks for, from readers to the standard output, and returns the exit status.
fn carry_out_spoken<
    I: Read + Drop,
    R: Clock + Print + Eprint + Alloc<A = Global> + Threads + Wait + Sync,
>(
    rt: &R,
    inputs: Vec<Watch<'_, I, R>>,
    line: &CommandLine<'_>,
    listed: bool,
    allowances: &[Allowance],
    base: &Server,
) -> Result<u8, ScriptFault>
    requires done { CanBeDone line.now.job }
    requires count { length inputs.items ≤ most_names line.now.job }
{
    let Some(form) = text_form(line, listed) else {
        let mut output = jobs::output(rt, line.manner.verbose)?;
        return carry_out_on(rt, inputs, &mut output, line, allowances, base);
    };
    let mut output = jobs::text_output(rt, line.manner.verbose, form)?;
    carry_out_on(rt, inputs, &mut output, line, allowances, base)
}
