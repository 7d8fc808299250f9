//! Looks for a smaller record that no order explains either.
ghost use Rattle.std.specs.{Prelude.{◌≡◌, true, IfOk}, Option.option_map};
ghost use Rattle.xa_lines.specs.Script.{lines_of};
ghost use Rattle.xa_record.specs.Shrinking.{is_illegal, AreUnexplained, IsUnexplained, IsSmallerIfSome};
ghost use Rattle.xa_record.specs.Shrinking.{IsSmallerSought};

use crate::allowance::Allowance;
use crate::asked::Asked;
use crate::chosen_lines::chosen_text;
use crate::cuts::Cuts;
use crate::events::events_of;
use crate::lines_again::numbered_in;
use crate::reading::read_notes;
use std::alloc::Global;
use xa_judge::{Event, Verdict, judge};
use xa_server::Server;
use xa_xid::NoMemory;

/// How often part of a record is judged at most, after the first judging, in which only the events behind the
/// ILLEGAL line are left out: 1,000 times in all. To leave out all but ten of thousands of calls takes some hundreds of
/// judgings, most of them of short records.
const MOST_TRIES: u32 = 999;

/// Whether a verdict on `count` events is ILLEGAL at the last: no order explains them all, and some order all but the
/// last.
fn is_at_last(verdict: &Verdict, count: usize) -> bool
    ensures { result ≡ true → is_illegal verdict.now ≡ true }
{
    match verdict {
        // The first condition keeps `count - 1` from being below 0.
        Verdict::Illegal(place, _) => count > 0 && *place == count - 1,
        Verdict::Legal(_) => false,
        Verdict::Undecided(_) => false,
    }
}

/// True only if no order explains these events, which begin with `base`, and some order explains all but the last.
/// False may also mean that it isn't decided within `limit`.
fn is_refuted_at_last(
    alloc: Global,
    base: &Server,
    limit: usize,
    events: &[Event],
) -> Result<bool, NoMemory>
    ensures { IfOk result (λ refuted. refuted ≡ true → AreUnexplained base.now events.now limit) }
{
    let verdict = judge(alloc, base, events, limit)?;
    Ok(is_at_last(&verdict, events.len()))
}

/// True only if no line of this text is faulty, and no order explains its events, but some order explains all but the
/// last of them. False may also mean that it isn't decided within the limit.
fn is_unexplained(
    alloc: Global,
    base: &Server,
    allowances: &[Allowance],
    asked: Asked,
    text: &[u8],
) -> Result<bool, NoMemory>
    ensures { IfOk result (λ refuted. refuted ≡ true → IsUnexplained base.now allowances.now asked text.now) }
{
    let notes = read_notes(alloc, asked.strict_calls, text)?;
    if !notes.faults.is_empty() {
        return Ok(false);
    }
    let events = events_of(alloc, allowances, notes.numbered.as_slice())?;
    is_refuted_at_last(alloc, base, asked.limit, events.as_slice())
}

/// The record of the lines of a text at whose index `keeps` is true, if `is_unexplained` is true of it; else None.
fn smaller_by(
    alloc: Global,
    base: &Server,
    allowances: &[Allowance],
    asked: Asked,
    text: &[u8],
    keeps: &[bool],
) -> Result<Option<Vec<u8>>, NoMemory>
    ensures { IfOk result (λ found. IsSmallerIfSome base.now allowances.now asked (lines_of text.now)
        (option_map (λ written. written.items) found)) }
{
    let chosen = chosen_text(alloc, text, keeps)?;
    if is_unexplained(alloc, base, allowances, asked, chosen.as_slice())? {
        Ok(Some(chosen))
    } else {
        Ok(None)
    }
}

/// The smallest record that these cuts lead to in at most `MOST_TRIES` tries, fewer if nothing is left to propose.
/// None if `is_unexplained` is false even of the first record, which lacks only the events behind the ILLEGAL line,
/// blank lines and comments.
fn smallest_by(
    alloc: Global,
    base: &Server,
    allowances: &[Allowance],
    asked: Asked,
    text: &[u8],
    cuts: &mut Cuts,
) -> Result<Option<Vec<u8>>, NoMemory>
    ensures { IfOk result (λ found. IsSmallerIfSome base.now allowances.now asked (lines_of text.now)
        (option_map (λ written. written.items) found)) }
{
    let mut smallest = smaller_by(alloc, base, allowances, asked, text, cuts.keeps())?;
    if smallest.is_none() {
        return Ok(smallest);
    }
    for _try in 0..MOST_TRIES {
        if !cuts.propose() {
            return Ok(smallest);
        }
        let found = smaller_by(alloc, base, allowances, asked, text, cuts.keeps())?;
        // Else what was proposed stays in, and the next proposal takes its place.
        if found.is_some() {
            smallest = found;
            cuts.accept();
        }
    }
    Ok(smallest)
}

/// The smallest record of lines of `text` that `smallest_by` finds; None if it finds none. No order explains the
/// events of `text` up to and including `place`, counted from 0.
fn smallest_of(
    alloc: Global,
    base: &Server,
    allowances: &[Allowance],
    asked: Asked,
    text: &[u8],
    place: usize,
) -> Result<Option<Vec<u8>>, NoMemory>
    ensures { IfOk result (λ found. IsSmallerIfSome base.now allowances.now asked (lines_of text.now)
        (option_map (λ written. written.items) found)) }
{
    let numbered = numbered_in(alloc, asked.strict_calls, text)?;
    let mut cuts = Cuts::of(alloc, text, numbered.as_slice(), place)?;
    smallest_by(alloc, base, allowances, asked, text, &mut cuts)
}

/// Returns a smaller record that no order explains either: calls of the record of this text are left out, if any can
/// be, and what is left is judged again. None if `asked` asks for none, or none is found.
///
/// The record begins with `base`, and no order explains its events up to and including `place`, counted from 0.
/// Parts of the record are judged at most 1,000 times, each within `asked.limit`; one that is UNDECIDED isn't taken.
/// May return `NoMemory`.
pub fn smaller_for(
    alloc: Global,
    base: &Server,
    asked: Asked,
    allowances: &[Allowance],
    text: &[u8],
    place: usize,
) -> Result<Option<Vec<u8>>, NoMemory>
    // Proved (records, illegal-smaller): The smaller record that is written for an ILLEGAL verdict is made of some of
    //   the record's lines, in their order, each without the blanks before it. None of its lines is faulty, and a
    //   right verdict on what they tell is ILLEGAL. Without `--shrink` there is none.
    ensures { IfOk result (λ found. IsSmallerSought asked.shrinks base.now allowances.now asked (lines_of text.now)
        (option_map (λ written. written.items) found)) }
{
    if !asked.shrinks {
        return Ok(None);
    }
    smallest_of(alloc, base, allowances, asked, text, place)
}
