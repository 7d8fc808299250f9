//! Some of the lines of a record.
ghost use Rattle.std.specs.Prelude.{◌≡◌, ◌++◌, OnOk, IfOk};
ghost use Rattle.xa_lines.specs.Script.{lines_of};
ghost use Rattle.xa_record.specs.Shrinking.{line_if, chosen_text as text_chosen};

use std::alloc::Global;
use xa_lines::split_line;
use xa_xid::{NoMemory, skip_blanks};

/// Appends a line and a line feed if `keeps`, without the blanks at the line's beginning. Else appends nothing.
fn push_if(out: &mut Vec<u8>, keeps: bool, line: &[u8]) -> Result<(), NoMemory>
    ensures { OnOk result (out.new.items ≡ out.old.items ++ line_if keeps line.now) }
{
    if keeps {
        out.extend_from_slice(skip_blanks(line))?;
        out.extend_from_slice(b"\n")
    } else {
        Ok(())
    }
}

/// Returns the lines of a text at whose index `keeps` is true, each without the blanks at its beginning and with a line
/// feed. Lines past the end of `keeps` are left out.
///
/// May return `NoMemory`.
pub fn chosen_text(alloc: Global, text: &[u8], keeps: &[bool]) -> Result<Vec<u8>, NoMemory>
    ensures { IfOk result (λ chosen. chosen.items ≡ text_chosen keeps.now (lines_of text.now)) }
{
    let mut out = Vec::new(alloc);
    let mut rest = text;
    for kept in keeps {
        if rest.is_empty() {
            return Ok(out);
        }
        let (line, lines) = split_line(rest);
        push_if(&mut out, *kept, line)?;
        rest = lines;
    }
    Ok(out)
}
