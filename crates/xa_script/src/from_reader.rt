//! Does what a command line asks for, from readers whose lines are looked at as they are read, to a writer.
ghost use Rattle.std.specs.Prelude.{◌≡◌, ◌≤◌, ◌||◌, [], ℕ, List, Some, IfSome, false, true, length, map, option_map};
ghost use Rattle.std.specs.Prelude.{unwrap_or};
ghost use Rattle.std.specs.Io.Buffered.{writer_contents};
ghost use Rattle.xa_script.specs.CommandLine.{CanBeDone, IsLimit, ReadsInput, audits};
ghost use Rattle.xa_script.specs.{Jobs.{HasEnded, HasReadOne, IsFlushed}, Several.{judging_asked, listing_asked}};
ghost use Rattle.xa_script.specs.Manner.{most_names};
ghost use Rattle.xa_script.specs.Lines.{kind_of_lines, most_bytes, form_of_job, form_of_texts};
ghost use Rattle.xa_script.specs.Status.{end_of};

use crate::auditing::{audit_within, form_asked};
use crate::judging::asked;
use crate::judging_each::list_within;
use crate::line_form::LineForm;
use crate::line_kind::LineKind;
use crate::watch::Watch;
use crate::{CommandLine, DONE, Job, Manner, UNREAD, jobs};
use std::alloc::Global;
use std::io::{BufWriter, Read, Write};
use std::rt::Clock;
use std::sync::Wait;
use std::thread::Threads;
use xa_lines::{LINE_BYTES, ScriptFault};
use xa_record::{Allowance, Asked};
use xa_server::Server;

/// Returns how a job reads its lines, and above how many bytes a line counts as too long: `usize::MAX`, so never, for
/// the jobs that read their whole input first. `stops` itself refuses a line of more than 65,536 bytes all the same.
pub fn lines_of(job: Job) -> (LineKind, usize)
    // Proved (scripts, lines-of-a-job): Each job looks at its lines as the page says: as statements, calls or a
    //   record, with comments or without. It looks at lines of any length, unless it answers line by line.
    ensures kind { result.0 ≡ kind_of_lines job }
    // Proved (scripts, lines-of-a-job)
    ensures most { result.1 ≡ most_bytes job }
{
    match job {
        Job::Run => (LineKind::Statement, usize::MAX),
        Job::Race { runs: None, .. } => (LineKind::Raced, usize::MAX),
        Job::Coordinate { .. } => (LineKind::Call, LINE_BYTES),
        Job::Stops { .. } => (LineKind::Stopped, usize::MAX),
        Job::Serve => (LineKind::Statement, LINE_BYTES),
        Job::Show => (LineKind::Shown, LINE_BYTES),
        Job::Audit => (LineKind::Shown, usize::MAX),
        Job::Judge { .. } => (LineKind::Record, usize::MAX),
        // Counted races take the words that divide a script, too.
        Job::Explore { .. } | Job::Race { runs: Some(_), .. } => (LineKind::Explored, usize::MAX),
    }
}

/// Returns the form of the lines that a job writes without `--json`.
fn form_of(job: Job) -> LineForm
    ensures { result ≡ form_of_job job }
{
    match job {
        Job::Run | Job::Race { .. } | Job::Coordinate { .. } | Job::Serve => LineForm::Answers,
        Job::Explore { .. } | Job::Stops { .. } | Job::Audit => LineForm::Answers,
        Job::Show => LineForm::Shown,
        Job::Judge { .. } => LineForm::Verdict,
    }
}

/// Returns the form of the lines whose literals are written as texts; None without `--text`, and if objects are
/// written, which stay as they are. If verdicts are `listed`, only TAP has lines below each, which may have literals.
pub fn text_form(line: &CommandLine<'_>, listed: bool) -> Option<LineForm>
    // Proved (scripts, text-form): `--text` is heard beside any other option but `--json`, and takes the lines for what
    //   the job writes: verdicts, shown stores or answers; or for TAP, if verdicts are listed so.
    ensures { result ≡ form_of_texts line.now.manner listed line.now.job }
{
    let manner = &line.manner;
    if !manner.text || manner.json || (listed && !manner.tap) {
        return None;
    }
    if listed {
        return Some(LineForm::Noted);
    }
    Some(form_of(line.job))
}

/// Returns whether a job is to audit.
pub fn is_audit(job: Job) -> bool
    ensures audits { result ≡ audits job }
    ensures histories { result ≡ true → most_names job ≤ 64 }
    ensures records { most_names job ≤ 1000 }
    ensures one { 1 ≤ most_names job }
{
    match job {
        Job::Audit => true,
        Job::Run | Job::Race { .. } | Job::Coordinate { .. } | Job::Serve | Job::Show => false,
        Job::Judge { .. } | Job::Explore { .. } | Job::Stops { .. } => false,
    }
}

/// Returns what is asked of judging; None if the job isn't to judge.
fn judging_in(job: Job, json: bool) -> Option<Asked>
    requires { CanBeDone job }
    // Proved (scripts, judging-as-asked)
    ensures asked { result ≡ judging_asked json job }
    ensures limit { IfSome result (λ asked. IsLimit asked.limit) }
{
    match job {
        Job::Judge {
            limit,
            explain,
            strict_calls,
            shrink,
        } => Some(asked(limit, explain, json, strict_calls, shrink)),
        Job::Run | Job::Race { .. } | Job::Coordinate { .. } | Job::Serve | Job::Show => None,
        Job::Explore { .. } | Job::Stops { .. } | Job::Audit => None,
    }
}

/// Returns what is asked of judging if verdicts are listed: several records are named, or they are to be listed by
/// `--tap`.
pub fn listing_in(line: &CommandLine<'_>) -> Option<Asked>
    requires { CanBeDone line.now.job }
    ensures asked { result ≡ listing_asked line.now }
    ensures limit { IfSome result (λ asked. IsLimit asked.limit) }
{
    if line.manner.tap || line.names.len() > 1 {
        judging_in(line.job, line.manner.json)
    } else {
        None
    }
}

/// Returns how a job ends that came to `done`, and whose lines were looked at. A fault stays. Else it is `NoMemory` if
/// `faulty` is None: memory for looking at the lines was refused. Else status 0 becomes 8 if `strict` and a line was
/// `faulty`, and any other status stays.
pub fn looked_at(
    strict: bool,
    faulty: Option<bool>,
    done: Result<u8, ScriptFault>,
) -> Result<u8, ScriptFault>
    // Proved (scripts, strict-status): With `--strict` the status is 8 in place of 0 if a line was faulty. Any other
    //   status, and any fault, stays. Without `--strict` every status stays.
    ensures { result ≡ end_of strict faulty done }
{
    let status = match done {
        Ok(status) => status,
        Err(fault) => return Err(fault),
    };
    let Some(faulty) = faulty else {
        return Err(ScriptFault::NoMemory);
    };
    // Any other status says more than that a line wasn't read.
    if strict && faulty && status == DONE {
        return Ok(UNREAD);
    }
    Ok(status)
}

/// Returns whether a line was faulty: false if lines weren't looked at, and None if memory was refused for looking.
fn faults_seen<I: Read + Drop, R: Eprint + Alloc<A = Global>>(
    watch: &Watch<'_, I, R>,
    manner: &Manner<'_>,
) -> Option<bool>
    ensures { manner.now.verbose || manner.now.strict ≡ false → result ≡ Some false }
{
    if !manner.verbose && !manner.strict {
        return Some(false);
    }
    watch.has_faults().ok()
}

/// Does a job that isn't to audit, from a reader to a writer, and returns the exit status.
fn end_one<I: Read + Drop, O: Write, R: Clock + Eprint + Alloc<A = Global> + Threads + Wait + Sync>(
    rt: &R,
    mut input: Watch<'_, I, R>,
    output: &mut O,
    line: &CommandLine<'_>,
    allowances: &[Allowance],
    base: &Server,
) -> Result<u8, ScriptFault>
    requires done { CanBeDone line.now.job }
    requires input { ReadsInput line.now.job }
    // Proved (scripts, jobs-as-asked): `run`, `race`, `judge` and `explore` write what the job and `--json` ask for, of
    //   all that the input holds, and `stops` a whole text. They return the status for that, or a write fault in its
    //   place. No other option changes a byte of it. `--strict` alone changes a status. Only with it or `--verbose` may
    //   memory be refused afterwards.
    ensures { HasReadOne line.now base.now allowances.now (I.remaining input.entry.inner) (O.contents output.old)
        (O.contents output.new) result }
{
    let manner = &line.manner;
    let done = jobs::write_as_asked(rt, &mut input, output, line.job, manner, allowances, base);
    looked_at(manner.strict, faults_seen(&input, manner), done)
}

/// Does what a command line asks for, from readers to a writer, and returns the exit status.
fn end_all<I: Read + Drop, O: Write, R: Clock + Eprint + Alloc<A = Global> + Threads + Wait + Sync>(
    rt: &R,
    inputs: Vec<Watch<'_, I, R>>,
    output: &mut O,
    line: &CommandLine<'_>,
    allowances: &[Allowance],
    base: &Server,
) -> Result<u8, ScriptFault>
    requires done { CanBeDone line.now.job }
    requires count { length inputs.items ≤ most_names line.now.job }
    // Proved (scripts, jobs-as-asked)
    ensures { (texts : List (List ℕ)) → map (λ input. I.remaining input.inner) inputs.entry.items ≡ map Some texts
        → HasEnded line.now base.now allowances.now
        (map (λ input. unwrap_or (option_map (λ name. name.now) input.name) []) inputs.entry.items) texts
        (O.contents output.old) (O.contents output.new) result }
{
    let manner = &line.manner;
    if is_audit(line.job) {
        return audit_within(rt, inputs, output, form_asked(manner.json, manner.quiet));
    }
    if let Some(asked) = listing_in(line) {
        return list_within(rt, base, inputs, output, allowances, asked, manner);
    }
    let mut inputs = inputs;
    match inputs.pop() {
        Some(input) => end_one(rt, input, output, line, allowances, base),
        // There is one. That isn't known here.
        None => Err(ScriptFault::Read),
    }
}

/// Does what a command line asks for, from readers to a writer that is flushed then, and returns the exit status. An
/// audit and a list of verdicts read all of them, and any other job the last.
pub fn carry_out_on<
    I: Read + Drop,
    W: Write + Drop,
    R: Clock + Eprint + Alloc<A = Global> + Threads + Wait + Sync,
>(
    rt: &R,
    inputs: Vec<Watch<'_, I, R>>,
    output: &mut BufWriter<W>,
    line: &CommandLine<'_>,
    allowances: &[Allowance],
    base: &Server,
) -> Result<u8, ScriptFault>
    requires done { CanBeDone line.now.job }
    requires count { length inputs.items ≤ most_names line.now.job }
    // Proved (scripts, jobs-as-asked)
    ensures { (texts : List (List ℕ)) → map (λ input. I.remaining input.inner) inputs.entry.items ≡ map Some texts
        → IsFlushed W.contents (HasEnded line.now base.now allowances.now
        (map (λ input. unwrap_or (option_map (λ name. name.now) input.name) []) inputs.entry.items) texts
        (writer_contents W.contents output.old)) output.new result }
{
    let done = end_all(rt, inputs, output, line, allowances, base);
    jobs::flushed(output, done)
}
