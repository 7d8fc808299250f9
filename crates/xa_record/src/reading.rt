//! Reads a record line by line.
ghost use Rattle.std.specs.Prelude.{◌≡◌, IfOk};
ghost use Rattle.xa_record.specs.{Reading.notes_by, Kept.notes_kept};

use crate::notes::Notes;
use std::alloc::Global;
use xa_lines::split_line;
use xa_xid::NoMemory;

/// Reads a record, which is cut into lines as a script is: its events, and its faulty lines. If `strict`, a
/// call whose text isn't a statement is a faulty line.
///
/// May return `NoMemory`. Doesn't wait.
/// Own rule: docs/HISTORIES.md#records.
#[tactic(auto, unfolding(crate::specs::Reading::notes_by))]
pub fn read_notes(alloc: Global, strict: bool, text: &[u8]) -> Result<Notes<'_>, NoMemory>
    // Proved (records, line-noted)
    ensures { IfOk result (λ notes. notes_kept notes ≡ notes_by strict text.now) }
{
    let mut notes = Notes::new(alloc);
    let mut number: u64 = 0;
    let mut rest = text;
    while !rest.is_empty() {
        let (line, lines) = split_line(rest);
        number += 1;
        notes.take(alloc, strict, number, line)?;
        rest = lines;
    }
    notes.end()?;
    Ok(notes)
}
