//! Judges a record, and returns the exit status for how that ended.
ghost use Rattle.std.specs.Prelude.{◌≡◌, Some, IfOk, IfErr};
ghost use Rattle.xa_record.specs.Judged.{AfterJudgeFault};
ghost use Rattle.xa_script.specs.{CommandLine.IsLimit, Status.{asked_of, form_of, status_for, AppendsVerdict}};

use std::alloc::Global;
use std::io::Write;
use xa_judge::Progress;
use xa_lines::{ScriptFault, write_whole};
use xa_record::{Allowance, Asked, Form, Outcome, judge_text};
use xa_server::Server;

/// The status of a record that some order explains.
const LEGAL: u8 = 0;

/// The status of a record that no order explains.
const ILLEGAL: u8 = 4;

/// The status of a record if the limit was passed.
const UNDECIDED: u8 = 5;

/// The status of a record with faulty lines.
const FAULTY: u8 = 6;

/// The status of a record without events.
const EMPTY: u8 = 7;

/// Returns the exit status for how judging a record ended.
fn status_of_outcome(outcome: Outcome) -> u8
    ensures { result ≡ status_for outcome }
{
    match outcome {
        Outcome::Legal => LEGAL,
        Outcome::Illegal => ILLEGAL,
        Outcome::Undecided => UNDECIDED,
        Outcome::Faulty => FAULTY,
        Outcome::Empty => EMPTY,
    }
}

/// Returns what is asked of the judging.
///
/// `limit` is in `[1, 1_000_000]`.
pub fn asked(limit: u64, explains: bool, json: bool, strict_calls: bool, shrinks: bool) -> Asked
    requires { IsLimit limit }
    // Proved (scripts, judging-as-asked): What is asked of judging has the limit, the form, the explanation, the
    //   test of calls and the smaller record that were given.
    ensures limit { result.limit ≡ limit }
    // Proved (scripts, judging-as-asked)
    ensures form { result.form ≡ form_of json }
    // Proved (scripts, judging-as-asked)
    ensures explains { result.explains ≡ explains }
    // Proved (scripts, judging-as-asked)
    ensures strict { result.strict_calls ≡ strict_calls }
    // Proved (scripts, judging-as-asked)
    ensures shrinks { result.shrinks ≡ shrinks }
    // Proved (scripts, judging-as-asked)
    ensures all { result ≡ asked_of limit explains json strict_calls shrinks }
{
    let form = if json { Form::Json } else { Form::Plain };
    // A limit of at most 1,000,000 stays the same.
    Asked {
        limit: limit as usize,
        form,
        explains,
        shrinks,
        strict_calls,
    }
}

/// Judges the record of this text, which begins with the state of `base`, writes the verdict, `EMPTY` or the record's
/// faulty lines, and returns the exit status for that.
///
/// The limit of `asked` is in `[1, 1_000_000]`.
/// Errors: `NoMemory` if an allocation failed; `Write` if a write failed or took no byte. After `Write` a prefix of the
/// text was written, after `NoMemory` nothing.
/// May return `NoMemory`. Doesn't wait, unless the writer or the receiver of the progress does.
/// Own rule: docs/COMMANDS.md#options-of-every-job.
pub fn judge_within<W: Write, P: Progress>(
    alloc: Global,
    base: &Server,
    text: &[u8],
    writer: &mut W,
    allowances: &[Allowance],
    asked: Asked,
    progress: &mut P,
) -> Result<u8, ScriptFault>
    requires { IsLimit asked.limit }
    // Proved (scripts, status-of-an-end): The status that judging, exploring, counted races and stops return is the
    //   one that the table has for their end. The text that was written, except of stops, is right for that end.
    ensures judged { IfOk result
        (λ status. AppendsVerdict base.now allowances.now asked status (Some text.now)
        (W.contents writer.old) (W.contents writer.new)) }
    ensures fault { IfErr result
        (λ fault. AfterJudgeFault base.now allowances.now asked fault (Some text.now)
        (W.contents writer.old) (W.contents writer.new)) }
{
    let judged = judge_text(alloc, base, text, allowances, asked, progress)?;
    write_whole(writer, judged.text.as_slice())?;
    Ok(status_of_outcome(judged.outcome))
}
