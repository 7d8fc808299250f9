//! Writes reports as lines.
ghost use Rattle.std.specs.{Prelude.{◌≡◌, ◌++◌, OnOk, IfOk, map}, Option.option_map};
ghost use Rattle.xa_record.specs.VerdictText.{answers_text, line_text};
ghost use Rattle.xa_record.specs.Forms.{reason_text, exchange_text, smaller_text, plain_text as text_of_report};
ghost use Rattle.xa_record.specs.Kept.{reason_kept, exchange_kept, report_kept};

use crate::exchange::Exchange;
use crate::reason::Reason;
use crate::report::Report;
use std::alloc::Global;
use std::collections::BTreeSet;
use xa_lines::push_number;
use xa_xid::NoMemory;

/// Appends each of the possible answers, with `COULD BE` before it and a line feed behind it.
fn push_texts(out: &mut Vec<u8>, texts: &BTreeSet<Vec<u8>>) -> Result<(), NoMemory>
    ensures { OnOk result (out.new.items ≡ out.old.items ++ answers_text (map (λ text. text.items) texts.now.keys)) }
{
    for text in texts.iter() {
        out.extend_from_slice(b"COULD BE ")?;
        out.extend_from_slice(text.as_slice())?;
        out.extend_from_slice(b"\n")?;
    }
    Ok(())
}

/// Appends a word, `line`, the number of a line, and a line feed.
fn push_line(out: &mut Vec<u8>, word: &[u8], number: u64) -> Result<(), NoMemory>
    ensures { OnOk result (out.new.items ≡ out.old.items ++ line_text word.now number) }
{
    out.extend_from_slice(word)?;
    out.extend_from_slice(b" line ")?;
    push_number(out, number)?;
    out.extend_from_slice(b"\n")
}

/// Appends the order before a line and the store after that order, each below its heading, if they are given.
fn push_reason(out: &mut Vec<u8>, reason: &Option<Reason>) -> Result<(), NoMemory>
    ensures { OnOk result (out.new.items ≡ out.old.items ++ reason_text (option_map reason_kept reason.now)) }
{
    match reason {
        None => Ok(()),
        Some(reason) => {
            out.extend_from_slice(b"ORDER BEFORE\n")?;
            out.extend_from_slice(reason.order.as_slice())?;
            out.extend_from_slice(b"STATE\n")?;
            out.extend_from_slice(reason.state.as_slice())
        }
    }
}

/// Appends what was seen, and its call with the number of its line, if these are given.
fn push_exchange(out: &mut Vec<u8>, exchange: &Option<Exchange>) -> Result<(), NoMemory>
    ensures { OnOk result (out.new.items ≡ out.old.items ++ exchange_text (option_map exchange_kept exchange.now)) }
{
    match exchange {
        None => Ok(()),
        Some(exchange) => {
            out.extend_from_slice(b"SEEN ")?;
            out.extend_from_slice(exchange.seen.as_slice())?;
            out.extend_from_slice(b"\nCALL line ")?;
            push_number(out, exchange.line)?;
            out.extend_from_slice(b" ")?;
            out.extend_from_slice(exchange.call.as_slice())?;
            out.extend_from_slice(b"\n")
        }
    }
}

/// Appends a smaller record below its heading, if one is given.
fn push_smaller(out: &mut Vec<u8>, smaller: &Option<Vec<u8>>) -> Result<(), NoMemory>
    ensures { OnOk result (out.new.items ≡ out.old.items
        ++ smaller_text (option_map (λ written. written.items) smaller.now)) }
{
    match smaller {
        None => Ok(()),
        Some(smaller) => {
            out.extend_from_slice(b"RECORD\n")?;
            out.extend_from_slice(smaller.as_slice())
        }
    }
}

/// Appends a report as lines.
fn push_report(out: &mut Vec<u8>, report: &Report) -> Result<(), NoMemory>
    ensures { OnOk result (out.new.items ≡ out.old.items ++ text_of_report (report_kept report.now)) }
{
    match report {
        Report::Faulty(faults) => out.extend_from_slice(faults.as_slice()),
        Report::Empty => out.extend_from_slice(b"EMPTY\n"),
        Report::Legal(order) => {
            out.extend_from_slice(b"LEGAL\n")?;
            out.extend_from_slice(order.as_slice())
        }
        Report::Illegal(number, texts, grounds) => {
            push_line(out, b"ILLEGAL", *number)?;
            push_exchange(out, &grounds.exchange)?;
            push_texts(out, texts)?;
            push_reason(out, &grounds.reason)?;
            push_smaller(out, &grounds.smaller)
        }
        Report::Undecided(number) => push_line(out, b"UNDECIDED", *number),
    }
}

/// Returns a report as lines.
///
/// May return `NoMemory`.
/// Own rule: docs/HISTORIES.md#verdicts.
pub fn plain_text(alloc: Global, report: &Report) -> Result<Vec<u8>, NoMemory>
    ensures { IfOk result (λ text. text.items ≡ text_of_report (report_kept report.now)) }
{
    let mut out = Vec::new(alloc);
    push_report(&mut out, report)?;
    Ok(out)
}
