//! Scripts whose comments are left blank.
ghost use Rattle.std.specs.Prelude.{◌≡◌, ◌++◌, ◌∷◌, OnOk, IfOk};
ghost use Rattle.xa_lines.specs.Script.{lines_of};
ghost use Rattle.xa_lines.specs.Uncommented.{begins_commented, bare_line, bare_lines, uncommented as uncommented_text};

use crate::{is_comment, split_line};
use std::alloc::Global;
use xa_xid::{NoMemory, skip_blanks};

/// Returns whether the first line that isn't blank is a comment. False if all lines are blank.
fn begins_with_comment(script: &[u8]) -> bool
    ensures { result ≡ begins_commented (lines_of script.now) }
{
    let mut rest = script;
    while !rest.is_empty() {
        let (line, lines) = split_line(rest);
        if !skip_blanks(line).is_empty() {
            return is_comment(line);
        }
        rest = lines;
    }
    false
}

/// Appends a line, which is given without its line feed; or nothing if it is a comment. The caller appends the line
/// feed, so a comment's line is left blank.
fn push_bare(text: &mut Vec<u8>, line: &[u8]) -> Result<(), NoMemory>
    ensures { OnOk result (text.new.items ≡ text.old.items ++ bare_line line.now) }
{
    if is_comment(line) {
        return Ok(());
    }
    text.extend_from_slice(line)
}

/// Returns the lines of a script, with its comments left blank. Each line, also the last, ends in a line feed.
fn without_comments(alloc: Global, script: &[u8]) -> Result<Vec<u8>, NoMemory>
    ensures { IfOk result (λ text. text.items ≡ bare_lines (lines_of script.now)) }
{
    let mut text = Vec::new(alloc);
    let mut rest = script;
    while !rest.is_empty() {
        let (line, lines) = split_line(rest);
        push_bare(&mut text, line)?;
        text.extend_from_slice(b"\n")?;
        rest = lines;
    }
    Ok(text)
}

/// Returns the script that is raced. If its first line that isn't blank is a comment, its comments are left blank, so
/// that each other line keeps its number.
///
/// May return `NoMemory`. Doesn't wait.
/// Own rule: docs/COMMANDS.md#race.
pub fn uncommented(alloc: Global, script: Vec<u8>) -> Result<Vec<u8>, NoMemory>
    // Proved (scripts, comments-left-blank): Of a script whose first line that isn't blank is a comment, each
    //   comment is left blank. Any other script stays as it is.
    ensures { IfOk result (λ text. text.items ≡ uncommented_text script.items) }
{
    if begins_with_comment(script.as_slice()) {
        without_comments(alloc, script.as_slice())
    } else {
        Ok(script)
    }
}
