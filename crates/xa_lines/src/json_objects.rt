//! Writes lines as objects.
ghost use Rattle.std.specs.Prelude.{◌≡◌, ◌++◌, IfOk};
ghost use Rattle.xa_lines.specs.{Script.lines_of, Objects.{object_line, objects_of}};

use crate::json_forms::form_of;
use crate::json_parts::write_parts;
use crate::split_line;
use json::Writer;
use std::alloc::Global;
use xa_xid::NoMemory;

/// Appends the object of a line, and a line feed.
fn with_object(alloc: Global, text: Vec<u8>, line: &[u8]) -> Result<Vec<u8>, NoMemory>
    ensures { IfOk result (λ more. more.items ≡ text.items ++ object_line line.now) }
{
    let mut writer = Writer::new(text);
    writer.begin_object()?;
    write_parts(alloc, &mut writer, form_of(line), line)?;
    writer.end_object()?;
    let mut more = writer.into_inner();
    more.extend_from_slice(b"\n")?;
    Ok(more)
}

/// Returns the lines of a text as objects of JSON, each on a line of its own.
///
/// May return `NoMemory`. Doesn't wait.
/// Own rule: docs/COMMANDS.md#output-as-json.
pub fn objects_text(alloc: Global, text: &[u8]) -> Result<Vec<u8>, NoMemory>
    // Proved (scripts, objects-of-lines): Each line of a text becomes one object, in the order of the lines. The
    //   first form that fits the line names its keys: each word that stands for a value, number or rest of the line
    //   is the value of its key, and all other words are the form's own. A line that no form fits is one string.
    ensures { IfOk result (λ objects. objects.items ≡ objects_of (lines_of text.now)) }
{
    let mut objects = Vec::new(alloc);
    let mut rest = text;
    while !rest.is_empty() {
        let (line, lines) = split_line(rest);
        objects = with_object(alloc, objects, line)?;
        rest = lines;
    }
    Ok(objects)
}
