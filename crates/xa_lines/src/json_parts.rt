//! Writes the parts of a line as members of an object.
ghost use Rattle.std.specs.Prelude.{◌≡◌, ◌++◌, ◌∷◌, [], drop, length, OnOk, encode_utf8_all};
ghost use Rattle.json.specs.Token.{key};
ghost use Rattle.xa_lines.specs.{Script.lines_of, Objects.{part_tokens_as, parts_tokens, number_tokens, text_tokens}};

use crate::json_characters::characters;
use crate::json_mark::{Mark, mark_of};
use crate::json_numbers::number_said;
use crate::json_words::{left_behind, split_first};
use crate::split_line;
use json::Writer;
use std::alloc::Global;
use xa_xid::NoMemory;

/// Returns the key of a part: what stands behind its first byte. An empty part has an empty key.
fn key_of(part: &[u8]) -> &[u8]
    ensures { result.now ≡ drop 1 part.now }
{
    match part {
        [] => part,
        [_, key @ ..] => key,
    }
}

/// Writes a key.
fn write_key(alloc: Global, writer: &mut Writer, name: &[u8]) -> Result<(), NoMemory>
    ensures tokens { OnOk result (writer.new.tokens ≡ writer.old.tokens ++ key (encode_utf8_all name.now) ∷ []) }
    ensures before { writer.new.before ≡ writer.old.before }
{
    let name = characters(alloc, name)?;
    writer.key(name.as_str())
}

/// Writes a key with a text as its value.
fn write_text(alloc: Global, writer: &mut Writer, name: &[u8], text: &[u8]) -> Result<(), NoMemory>
    ensures tokens { OnOk result
        (writer.new.tokens ≡ writer.old.tokens ++ text_tokens name.now text.now) }
    ensures before { writer.new.before ≡ writer.old.before }
{
    write_key(alloc, writer, name)?;
    let text = characters(alloc, text)?;
    writer.string(text.as_str())
}

/// Writes a key with a number as its value; neither if there is no number.
fn write_number(
    alloc: Global,
    writer: &mut Writer,
    name: &[u8],
    number: Option<u64>,
) -> Result<(), NoMemory>
    ensures tokens { OnOk result (writer.new.tokens ≡ writer.old.tokens ++ number_tokens name.now number) }
    ensures before { writer.new.before ≡ writer.old.before }
{
    match number {
        None => Ok(()),
        Some(number) => {
            write_key(alloc, writer, name)?;
            writer.u64(number)
        }
    }
}

/// Writes the member of a part with this mark, if it has one. Its value is the first word of `text`, or all of it if
/// the part stands for the rest. A word of the form has no member, and a number none if the word isn't one.
fn write_part(
    alloc: Global,
    writer: &mut Writer,
    mark: Mark,
    part: &[u8],
    text: &[u8],
) -> Result<(), NoMemory>
    ensures tokens { OnOk result (writer.new.tokens ≡ writer.old.tokens ++ part_tokens_as mark part.now text.now) }
    ensures before { writer.new.before ≡ writer.old.before }
{
    let name = key_of(part);
    let (word, _) = split_first(text);
    match mark {
        Mark::Word => Ok(()),
        Mark::Number => write_number(alloc, writer, name, number_said(word)),
        Mark::Any => write_text(alloc, writer, name, word),
        Mark::Rest | Mark::Statement | Mark::Undecided => write_text(alloc, writer, name, text),
    }
}

/// Writes the members of a line, by the parts of its form, in order. Each part takes its value from what the parts
/// before it left of the line.
///
/// May return `NoMemory`.
pub fn write_parts(
    alloc: Global,
    writer: &mut Writer,
    form: &[u8],
    line: &[u8],
) -> Result<(), NoMemory>
    ensures tokens { OnOk result (writer.new.tokens ≡ writer.old.tokens ++ parts_tokens (lines_of form.now) line.now) }
    ensures before { writer.new.before ≡ writer.old.before }
{
    let mut parts = form;
    let mut text = line;
    while !parts.is_empty() {
        let (part, more) = split_line(parts);
        let mark = mark_of(part);
        write_part(alloc, writer, mark, part, text)?;
        text = left_behind(mark, text);
        parts = more;
    }
    Ok(())
}
