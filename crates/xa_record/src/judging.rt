//! Judges the text of a record.
ghost use Rattle.std.specs.Prelude.{◌≡◌, IfOk};
ghost use Rattle.xa_lines.specs.Script.{lines_of};
ghost use Rattle.xa_record.specs.{Events.{AreCalls, AreEvents}, Forms.text_in as text_of_report};
ghost use Rattle.xa_record.specs.Judged.{IsJudgement, IsReported, IsJudged};
ghost use Rattle.xa_record.specs.{Kept.{notes_kept, report_kept}, Reading.notes_by, Replaying.AreBare};

use crate::allowance::Allowance;
use crate::asked::Asked;
use crate::events::events_of;
use crate::form::Form;
use crate::json_text::json_text;
use crate::notes::Notes;
use crate::outcome::Outcome;
use crate::plain_text::plain_text;
use crate::reading::read_notes;
use crate::report::Report;
use crate::report_of::report_of;
use crate::written_calls::are_written_calls;
use std::alloc::Global;
use xa_judge::{Event, Progress, judge_telling};
use xa_server::Server;
use xa_xid::NoMemory;

/// How judging a record ended, and what is written for it.
#[derive(Drop)]
pub struct Judged {
    /// How judging it ended.
    pub outcome: Outcome,
    /// What is written for it.
    pub text: Vec<u8>,
}

/// The events that were read of a record. `notes` are freed here: the lines in them take much memory, and judging
/// needs only the events.
fn events_read(
    alloc: Global,
    allowances: &[Allowance],
    notes: Notes,
) -> Result<Vec<Event>, NoMemory>
    ensures are { IfOk result (λ events. AreEvents allowances.now (notes_kept notes.entry).told events.items) }
    ensures calls { IfOk result (λ events. AreCalls (notes_kept notes.entry).told events.items) }
{
    events_of(alloc, allowances, notes.numbered.as_slice())
}

/// Judges these events, those of the record of this text, beginning with `base`. Returns what is reported of the
/// verdict.
fn verdict_on<P: Progress>(
    alloc: Global,
    base: &Server,
    text: &[u8],
    allowances: &[Allowance],
    events: &[Event],
    asked: Asked,
    progress: &mut P,
) -> Result<Report, NoMemory>
    requires calls { AreCalls (notes_by asked.strict_calls text.now).told events.now }
    requires bare { AreBare (notes_by asked.strict_calls text.now).told }
    requires are { AreEvents allowances.now (notes_by asked.strict_calls text.now).told events.now }
    ensures { IfOk result (λ report. IsJudgement base.now allowances.now (lines_of text.now)
        (notes_by asked.strict_calls text.now).told asked (report_kept report)) }
{
    // Does nothing. The contract needs its law: the statements of an order are read back as they were called for.
    are_written_calls(events);
    let verdict = judge_telling(alloc, base, events, asked.limit, progress)?;
    report_of(
        alloc, base, asked, allowances, text, events, &verdict, progress,
    )
}

/// What is reported of the record of this text, which begins with `base`: its faulty lines if there are any; that it
/// is empty if it has no event; else the verdict.
fn report_on<P: Progress>(
    alloc: Global,
    base: &Server,
    text: &[u8],
    allowances: &[Allowance],
    asked: Asked,
    progress: &mut P,
) -> Result<Report, NoMemory>
    ensures { IfOk result (λ report. IsReported base.now allowances.now text.now asked (report_kept report)) }
{
    let notes = read_notes(alloc, asked.strict_calls, text)?;
    if !notes.faults.is_empty() {
        return Ok(Report::Faulty(notes.faults));
    }
    if notes.numbered.is_empty() {
        return Ok(Report::Empty);
    }
    let events = events_read(alloc, allowances, notes)?;
    verdict_on(
        alloc,
        base,
        text,
        allowances,
        events.as_slice(),
        asked,
        progress,
    )
}

/// The text of a report in a form.
fn text_in(alloc: Global, form: Form, report: &Report) -> Result<Vec<u8>, NoMemory>
    ensures { IfOk result (λ text. text.items ≡ text_of_report form (report_kept report.now)) }
{
    match form {
        Form::Plain => plain_text(alloc, report),
        Form::Json => json_text(alloc, report),
    }
}

/// Judges the record of this text, which begins with the server `base`, and returns how that ended and the text of the
/// verdict.
///
/// `allowances` are known differences between the answers of the recorded server and the rules. The end is
/// `Undecided` only if more than `asked.limit` different configurations have to be kept before an event. With
/// `asked.explains` the part before an ILLEGAL line is judged once more; if that is undecided, neither an order nor
/// the store is told. With `asked.shrinks` parts of an ILLEGAL record are judged instead, at most 1,000 times,
/// and `progress` isn't told of that. If lines are faulty, or there is no event, there is no verdict. With
/// `asked.strict_calls` a call whose text isn't a statement is a faulty line. `progress` takes note of how far
/// judging is.
/// Errors: `NoMemory` if an allocation failed.
/// May return `NoMemory`. Doesn't wait.
/// Own rule: docs/HISTORIES.md#verdicts.
pub fn judge_text<P: Progress>(
    alloc: Global,
    base: &Server,
    text: &[u8],
    allowances: &[Allowance],
    asked: Asked,
    progress: &mut P,
) -> Result<Judged, NoMemory>
    // Proved (records, judged-faulty): A record with a faulty line ends as faulty, and what is written for it is
    //   what its definition says, which reads line by line: the number of each faulty line, and a cause. If calls
    //   are strict, a call whose text isn't a statement is faulty too.
    // Proved (records, judged-empty): A record without a faulty line and without an event ends as empty, and
    //   `EMPTY` is written.
    // Proved (records, judged-verdict): Every other record ends with a verdict that is right for the events
    //   of its lines, beginning with the given server, and that verdict is written.
    // Proved (records, judged-allowances): In a record that is judged, a refusal stands for its own number,
    //   and for those that the allowances let it stand for.
    // Proved (records, judged-forms): The text of a verdict is its lines, or that of a JSON object with a
    //   definition for each key.
    // Proved (records, illegal-answer-texts): The answers of an ILLEGAL verdict are written as texts, each
    //   once, ascending by bytes.
    // Proved (records, illegal-answers)
    // Proved (records, illegal-explained): If an ILLEGAL verdict is explained, its order is that of moves
    //   that lead through what was seen before its place. The store is listed to which they lead: every
    //   branch, and each row that a call before the place names, once, ascending.
    // Proved (records, illegal-unexplained): An ILLEGAL verdict that is to be explained lacks its order and store only
    //   if a smaller record is asked for, or more configurations than allowed come before a place of what was seen
    //   before it. Then it has neither.
    // Proved (records, illegal-smaller)
    // Proved (records, order-replayed): The order that is written for a legal record can be run as a script, by the
    //   server with which it begins. It then gives for each effect, in order, the answer that its session has there,
    //   along the moves by which the record is explained. `run` reads orders of up to 1,048,576 bytes.
    ensures { IfOk result
        (λ judged. IsJudged base.now text.now allowances.now asked judged.outcome judged.text.items) }
{
    let report = report_on(alloc, base, text, allowances, asked, progress)?;
    Ok(Judged {
        outcome: report.outcome(),
        text: text_in(alloc, asked.form, &report)?,
    })
}
