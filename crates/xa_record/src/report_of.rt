//! Makes reports of verdicts.
ghost use Rattle.std.specs.Prelude.{◌≡◌, IfOk, map};
ghost use Rattle.xa_judge.specs.Verdicts.{IsVerdict, IsRefuted};
ghost use Rattle.xa_lines.specs.Script.{lines_of};
ghost use Rattle.xa_record.specs.{Events.AreCalls, Kept.{report_kept, grounds_kept}, Reading.notes_by};
ghost use Rattle.xa_record.specs.Reports.{IsReportOf, AreGrounds};
ghost use Rattle.xa_record.specs.VerdictText.{answer_text as text_of_answer, texts_of};

use crate::allowance::Allowance;
use crate::asked::Asked;
use crate::exchanging::exchange_for;
use crate::explaining::reason_for;
use crate::grounds::Grounds;
use crate::lines_again::{number_in, order_in};
use crate::report::Report;
use crate::shrinking::smaller_for;
use std::alloc::Global;
use std::collections::BTreeSet;
use xa_judge::{Answer, Event, Progress, SharedAnswer, Verdict};
use xa_lines::push_reply;
use xa_server::Server;
use xa_xid::NoMemory;

/// The text of an answer: a reply as `run` prints it, with rows as `CONVERT XID` prints them. For a text that isn't a
/// statement it is `ERROR 1064` alone, without what `run` prints behind it.
fn answer_text(alloc: Global, answer: &Answer) -> Result<Vec<u8>, NoMemory>
    ensures { IfOk result (λ text. text.items ≡ text_of_answer answer.now) }
{
    let mut text = Vec::new(alloc);
    match answer {
        Answer::Reply(reply) => push_reply(alloc, &mut text, true, reply)?,
        // A text that isn't a statement has this answer.
        Answer::Unread => text.extend_from_slice(b"ERROR 1064")?,
    }
    // Texts of many answers may be kept, so each takes no more memory than it needs.
    text.shrink_to_fit();
    Ok(text)
}

/// The text of an answer that is kept once for several owners, as `answer_text` writes it.
fn shared_text(alloc: Global, answer: &SharedAnswer) -> Result<Vec<u8>, NoMemory>
    ensures { IfOk result (λ text. text.items ≡ text_of_answer answer.now) }
{
    let whole = answer.answer(alloc)?;
    answer_text(alloc, &whole)
}

/// The texts of answers, each once, ascending by their bytes.
fn answer_texts(alloc: Global, answers: &[SharedAnswer]) -> Result<BTreeSet<Vec<u8>>, NoMemory>
    ensures { IfOk result (λ texts. map (λ text. text.items) texts.keys ≡ texts_of answers.now) }
{
    let mut texts = BTreeSet::new(alloc);
    for answer in answers {
        let text = shared_text(alloc, answer)?;
        texts.insert(text)?;
    }
    Ok(texts)
}

/// What is told beside the answers of an ILLEGAL verdict at `place`, an index in `events`, each if `asked` asks for it:
/// what was seen there and its call; an order of what comes before, and the store after that order; a smaller record.
/// The order and the store are left out if a smaller record is asked for, or if `asked.limit` is too small to find
/// them, and the smaller record if none is found.
fn grounds_for<P: Progress>(
    alloc: Global,
    base: &Server,
    asked: Asked,
    allowances: &[Allowance],
    text: &[u8],
    events: &[Event],
    place: usize,
    progress: &mut P,
) -> Result<Grounds, NoMemory>
    requires are { AreCalls (notes_by asked.strict_calls text.now).told events.now }
    requires refuted { IsRefuted base.now events.now place }
    ensures { IfOk result
        (λ grounds. AreGrounds base.now allowances.now (lines_of text.now) asked
        (notes_by asked.strict_calls text.now).told events.now place (grounds_kept grounds)) }
{
    let exchange = exchange_for(alloc, asked, text, events, place)?;
    let reason = reason_for(alloc, base, asked, text, events, place, progress)?;
    let smaller = smaller_for(alloc, base, asked, allowances, text, place)?;
    Ok(Grounds {
        exchange,
        reason,
        smaller,
    })
}

/// Returns what is reported of a verdict on the record of this text, which begins with `base` and has these events.
///
/// May return `NoMemory`.
pub fn report_of<P: Progress>(
    alloc: Global,
    base: &Server,
    asked: Asked,
    allowances: &[Allowance],
    text: &[u8],
    events: &[Event],
    verdict: &Verdict,
    progress: &mut P,
) -> Result<Report, NoMemory>
    requires are { AreCalls (notes_by asked.strict_calls text.now).told events.now }
    requires right { IsVerdict base.now events.now asked.limit verdict.now }
    ensures { IfOk result
        (λ report. IsReportOf base.now allowances.now (lines_of text.now) asked
        (notes_by asked.strict_calls text.now).told events.now verdict.now (report_kept report)) }
{
    match verdict {
        Verdict::Legal(moves) => {
            let order = order_in(alloc, asked.strict_calls, text, events, moves.as_slice())?;
            Ok(Report::Legal(order))
        }
        Verdict::Illegal(place, answers) => {
            let texts = answer_texts(alloc, answers.as_slice())?;
            let grounds = grounds_for(
                alloc, base, asked, allowances, text, events, *place, progress,
            )?;
            let number = number_in(alloc, asked.strict_calls, text, *place)?;
            Ok(Report::Illegal(number, texts, grounds))
        }
        Verdict::Undecided(place) => Ok(Report::Undecided(number_in(
            alloc,
            asked.strict_calls,
            text,
            *place,
        )?)),
    }
}
