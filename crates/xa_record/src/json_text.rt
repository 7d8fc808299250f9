//! Writes reports as JSON.
ghost use Rattle.std.specs.Prelude.{◌≡◌, ◌++◌, ◌∷◌, [], codes, decimal, OnOk, IfOk, map, string_bytes, encode_utf8_all};
ghost use Rattle.std.specs.Option.{option_map};
ghost use Rattle.json.specs.{Json.no_members, Token.{key, string, number}, Tree.{json_tokens, members_tokens}};
ghost use Rattle.xa_lines.specs.Script.{lines_of};
ghost use Rattle.xa_record.specs.Forms.{text_value, texts_value, with_could_be, with_exchange, with_reason};
ghost use Rattle.xa_record.specs.Forms.{with_smaller, report_members, json_text as text_of_report};
ghost use Rattle.xa_record.specs.Kept.{reason_kept, grounds_kept, report_kept};

use crate::exchange::Exchange;
use crate::grounds::Grounds;
use crate::reason::Reason;
use crate::report::Report;
use json::Writer;
use std::alloc::Global;
use std::collections::BTreeSet;
use xa_lines::split_line;
use xa_xid::NoMemory;

/// The text as characters, of which a JSON string consists: each byte becomes the character with its number.
#[tactic(auto, using(crate::proofs::JsonTexts::characters_more))]
fn characters(alloc: Global, text: &[u8]) -> Result<String, NoMemory>
    ensures { IfOk result (λ string. string_bytes string ≡ encode_utf8_all text.now) }
{
    let mut string = String::new(alloc);
    for &byte in text {
        string.push(byte as char)?;
    }
    Ok(string)
}

/// Writes a text as a JSON string.
fn write_text(alloc: Global, writer: &mut Writer, text: &[u8]) -> Result<(), NoMemory>
    ensures tokens { OnOk result (writer.new.tokens ≡ writer.old.tokens ++ json_tokens (text_value text.now)) }
    ensures before { writer.new.before ≡ writer.old.before }
{
    let string = characters(alloc, text)?;
    writer.string(string.as_str())
}

/// Writes texts as an array of strings.
fn write_texts(
    alloc: Global,
    writer: &mut Writer,
    texts: &BTreeSet<Vec<u8>>,
) -> Result<(), NoMemory>
    ensures tokens { OnOk result (writer.new.tokens ≡ writer.old.tokens
        ++ json_tokens (texts_value (map (λ text. text.items) texts.now.keys))) }
    ensures before { writer.new.before ≡ writer.old.before }
{
    writer.begin_array()?;
    for text in texts.iter() {
        write_text(alloc, writer, text.as_slice())?;
    }
    writer.end_array()
}

/// Writes the lines of a text as an array of strings, without their line feeds.
fn write_lines(alloc: Global, writer: &mut Writer, text: &[u8]) -> Result<(), NoMemory>
    ensures tokens { OnOk result (writer.new.tokens ≡ writer.old.tokens
        ++ json_tokens (texts_value (lines_of text.now))) }
    ensures before { writer.new.before ≡ writer.old.before }
{
    writer.begin_array()?;
    let mut rest = text;
    while !rest.is_empty() {
        let (line, lines) = split_line(rest);
        write_text(alloc, writer, line)?;
        rest = lines;
    }
    writer.end_array()
}

/// Writes the key `verdict` with this word as its value.
fn write_verdict(writer: &mut Writer, word: &str) -> Result<(), NoMemory>
    ensures tokens { OnOk result (writer.new.tokens ≡ writer.old.tokens
        ++ key (codes "verdict") ∷ string word.now ∷ []) }
    ensures before { writer.new.before ≡ writer.old.before }
{
    writer.key("verdict")?;
    writer.string(word)
}

/// Writes the key `line` with the number of this line as its value.
fn write_line(writer: &mut Writer, line: u64) -> Result<(), NoMemory>
    ensures tokens { OnOk result (writer.new.tokens ≡ writer.old.tokens
        ++ key (codes "line") ∷ number (decimal line) ∷ []) }
    ensures before { writer.new.before ≡ writer.old.before }
{
    writer.key("line")?;
    writer.u64(line)
}

/// Writes the key `could_be` with these texts, the possible answers, as its value.
fn write_could_be(
    alloc: Global,
    writer: &mut Writer,
    texts: &BTreeSet<Vec<u8>>,
) -> Result<(), NoMemory>
    ensures tokens { OnOk result
        (writer.new.tokens ≡ writer.old.tokens ++ key (codes "could_be") ∷ json_tokens
        (texts_value (map (λ text. text.items) texts.now.keys))) }
    ensures before { writer.new.before ≡ writer.old.before }
{
    writer.key("could_be")?;
    write_texts(alloc, writer, texts)
}

/// Writes the key `name`, and the lines of the text `lines` as its value, without their line feeds.
fn write_lines_of(
    alloc: Global,
    writer: &mut Writer,
    name: &str,
    lines: &[u8],
) -> Result<(), NoMemory>
    ensures tokens { OnOk result (writer.new.tokens ≡ writer.old.tokens
        ++ key name.now ∷ json_tokens (texts_value (lines_of lines.now))) }
    ensures before { writer.new.before ≡ writer.old.before }
{
    writer.key(name)?;
    write_lines(alloc, writer, lines)
}

/// Writes the key `name` with a text as its value.
fn write_text_of(
    alloc: Global,
    writer: &mut Writer,
    name: &str,
    text: &[u8],
) -> Result<(), NoMemory>
    ensures tokens { OnOk result (writer.new.tokens ≡ writer.old.tokens
        ++ key name.now ∷ json_tokens (text_value text.now)) }
    ensures before { writer.new.before ≡ writer.old.before }
{
    writer.key(name)?;
    write_text(alloc, writer, text)
}

/// Writes a smaller record under its key, if one is given, and then the end of the object.
fn end_with_smaller(
    alloc: Global,
    writer: &mut Writer,
    smaller: &Option<Vec<u8>>,
) -> Result<(), NoMemory>
    ensures tokens { OnOk result (writer.new.tokens ≡ writer.old.tokens
        ++ members_tokens (with_smaller (option_map (λ written. written.items) smaller.now) no_members)) }
    ensures before { writer.new.before ≡ writer.old.before }
{
    match smaller {
        None => writer.end_object(),
        Some(smaller) => {
            write_lines_of(alloc, writer, "record", smaller.as_slice())?;
            writer.end_object()
        }
    }
}

/// Writes the order before a line and the store after that order, and a smaller record, each under its key, if it is
/// given. Then writes the end of the object.
fn end_with_reason(
    alloc: Global,
    writer: &mut Writer,
    reason: &Option<Reason>,
    smaller: &Option<Vec<u8>>,
) -> Result<(), NoMemory>
    ensures tokens { OnOk result (writer.new.tokens ≡ writer.old.tokens
        ++ members_tokens (with_reason (option_map reason_kept reason.now)
        (with_smaller (option_map (λ written. written.items) smaller.now) no_members))) }
    ensures before { writer.new.before ≡ writer.old.before }
{
    match reason {
        None => end_with_smaller(alloc, writer, smaller),
        Some(reason) => {
            write_lines_of(alloc, writer, "order", reason.order.as_slice())?;
            write_lines_of(alloc, writer, "state", reason.state.as_slice())?;
            end_with_smaller(alloc, writer, smaller)
        }
    }
}

/// Writes the possible answers, `texts`, then the order, the store and the smaller record, if `grounds` has these, each
/// under its key. Then writes the end of the object.
fn end_with_answers(
    alloc: Global,
    writer: &mut Writer,
    texts: &BTreeSet<Vec<u8>>,
    grounds: &Grounds,
) -> Result<(), NoMemory>
    ensures tokens { OnOk result (writer.new.tokens ≡ writer.old.tokens
        ++ members_tokens (with_could_be (map (λ text. text.items) texts.now.keys)
        (with_reason (grounds_kept grounds.now).reason (with_smaller (grounds_kept grounds.now).smaller
        no_members)))) }
    ensures before { writer.new.before ≡ writer.old.before }
{
    write_could_be(alloc, writer, texts)?;
    end_with_reason(alloc, writer, &grounds.reason, &grounds.smaller)
}

/// Writes what was seen, its call, and the number of the call's line, each under its key.
fn write_exchange(alloc: Global, writer: &mut Writer, exchange: &Exchange) -> Result<(), NoMemory>
    ensures tokens { OnOk result (writer.new.tokens ≡ ((writer.old.tokens
        ++ key (codes "seen") ∷ json_tokens (text_value exchange.now.seen.items))
        ++ key (codes "call") ∷ json_tokens (text_value exchange.now.call.items))
        ++ key (codes "call_line") ∷ number (decimal exchange.now.line) ∷ []) }
    ensures before { writer.new.before ≡ writer.old.before }
{
    write_text_of(alloc, writer, "seen", exchange.seen.as_slice())?;
    write_text_of(alloc, writer, "call", exchange.call.as_slice())?;
    writer.key("call_line")?;
    writer.u64(exchange.line)
}

/// Writes what an ILLEGAL verdict has behind its line's number, each under its key: what was seen and its call, if
/// `grounds` has these; the possible answers, `texts`; then the order, the store and the smaller record, if `grounds`
/// has these. Then writes the end of the object.
fn end_with_grounds(
    alloc: Global,
    writer: &mut Writer,
    texts: &BTreeSet<Vec<u8>>,
    grounds: &Grounds,
) -> Result<(), NoMemory>
    ensures tokens { OnOk result (writer.new.tokens ≡ writer.old.tokens
        ++ members_tokens (with_exchange (grounds_kept grounds.now).exchange
        (with_could_be (map (λ text. text.items) texts.now.keys)
        (with_reason (grounds_kept grounds.now).reason (with_smaller (grounds_kept grounds.now).smaller
        no_members))))) }
    ensures before { writer.new.before ≡ writer.old.before }
{
    match &grounds.exchange {
        None => end_with_answers(alloc, writer, texts, grounds),
        Some(exchange) => {
            write_exchange(alloc, writer, exchange)?;
            end_with_answers(alloc, writer, texts, grounds)
        }
    }
}

/// Writes the parts of a report, each under its key, and then the end of the object.
fn write_members(alloc: Global, writer: &mut Writer, report: &Report) -> Result<(), NoMemory>
    ensures tokens { OnOk result (writer.new.tokens ≡ writer.old.tokens
        ++ members_tokens (report_members (report_kept report.now))) }
    ensures before { writer.new.before ≡ writer.old.before }
{
    match report {
        Report::Faulty(faults) => {
            write_verdict(writer, "FAULTY")?;
            write_lines_of(alloc, writer, "faulty", faults.as_slice())?;
            writer.end_object()
        }
        Report::Empty => {
            write_verdict(writer, "EMPTY")?;
            writer.end_object()
        }
        Report::Legal(order) => {
            write_verdict(writer, "LEGAL")?;
            write_lines_of(alloc, writer, "order", order.as_slice())?;
            writer.end_object()
        }
        Report::Illegal(line, texts, grounds) => {
            write_verdict(writer, "ILLEGAL")?;
            write_line(writer, *line)?;
            end_with_grounds(alloc, writer, texts, grounds)
        }
        Report::Undecided(line) => {
            write_verdict(writer, "UNDECIDED")?;
            write_line(writer, *line)?;
            writer.end_object()
        }
    }
}

/// Returns a report as a JSON object on one line.
///
/// May return `NoMemory`.
/// Own rule: docs/HISTORIES.md#verdicts.
pub fn json_text(alloc: Global, report: &Report) -> Result<Vec<u8>, NoMemory>
    ensures { IfOk result (λ text. text.items ≡ text_of_report (report_kept report.now)) }
{
    let mut writer = Writer::new(Vec::new(alloc));
    writer.begin_object()?;
    write_members(alloc, &mut writer, report)?;
    let mut out = writer.into_inner();
    out.extend_from_slice(b"\n")?;
    Ok(out)
}
