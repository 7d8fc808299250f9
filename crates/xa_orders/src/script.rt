//! Reads a script to be explored, line by line.
ghost use Rattle.std.specs.Prelude.{◌≡◌, OnOk, IfOk};
ghost use Rattle.xa_lines.specs.Script.{line_of};
ghost use Rattle.xa_statement.specs.Reading.{read_of};
ghost use Rattle.xa_orders.specs.Scripts.{blamed, with_beside, with_after, with_told, with_statement, with_line};
ghost use Rattle.xa_orders.specs.Scripts.{nothing_read, read_more, script_read, is_word as is_word_of};
ghost use Rattle.xa_orders.specs.Kept.{read_kept};

use crate::line::Line;
use crate::stage::Stage;
use std::alloc::Global;
use std::mem;
use xa_lines::{
    ScriptLine, is_comment, push_number, push_syntax_fault, read_line, split_line, split_word,
};
use xa_statement::read_statement;
use xa_xid::{Key, NoMemory, SessionNo, Statement, skip_blanks};

/// What was read of a script.
#[derive(Drop)]
pub struct Script<'a> {
    /// The part that is being read.
    pub stage: Stage,
    /// The lines that are carried out first.
    pub before: Vec<Line<'a>>,
    /// The lines side by side.
    pub beside: Vec<Line<'a>>,
    /// The lines that are carried out last.
    pub later: Vec<Line<'a>>,
    /// What is written for its faulty lines; empty if there is none.
    pub faults: Vec<u8>,
    /// The rows that its lines write.
    pub written: Vec<Key>,
}

/// Whether the line has only this word, with or without blanks around it.
fn is_word(word: &[u8], line: &[u8]) -> bool
    ensures { result ≡ is_word_of word.now line.now }
{
    let (first, rest) = split_word(skip_blanks(line));
    first == word && skip_blanks(rest).is_empty()
}

/// Notes the row that a statement writes, if it writes one, and that isn't noted yet.
fn note_row(written: &mut Vec<Key>, statement: &Statement) -> Result<(), NoMemory> {
    match statement {
        Statement::Put(key, _) | Statement::Del(key) => {
            if !written.contains(key) {
                written.push(key.copy())?;
            }
            Ok(())
        }
        // No other statement writes a row by itself.
        _ => Ok(()),
    }
}

impl<'a> Script<'a> {
    /// A script of which nothing was read yet.
    fn new(alloc: Global) -> Script<'a>
        ensures { read_kept result ≡ nothing_read }
    {
        Script {
            stage: Stage::First,
            before: Vec::new(alloc),
            beside: Vec::new(alloc),
            later: Vec::new(alloc),
            faults: Vec::new(alloc),
            written: Vec::new(alloc),
        }
    }

    /// Notes that the line of this number is faulty. `place` is the byte of its statement at which reading fails, from
    /// 0; it is 0 if the line names no session, or is a BESIDE or AFTER that may not come there.
    fn blame(&mut self, number: u64, place: u64) -> Result<(), NoMemory>
        ensures { OnOk result (read_kept self.new ≡ blamed (read_kept self.old) number place) }
    {
        self.faults.extend_from_slice(b"LINE ")?;
        push_number(&mut self.faults, number)?;
        self.faults.extend_from_slice(b" ")?;
        push_syntax_fault(&mut self.faults, place)?;
        self.faults.extend_from_slice(b"\n")
    }

    /// Takes a line BESIDE: the lines before it are carried out first. A second one, or one after AFTER, is faulty at
    /// its first byte.
    fn take_beside(&mut self, alloc: Global, number: u64) -> Result<(), NoMemory>
        ensures { OnOk result (read_kept self.new ≡ with_beside self.old.stage (read_kept self.old) number) }
    {
        match self.stage {
            Stage::First => {
                // Up to here lines counted as side by side.
                self.before = mem::replace(&mut self.beside, Vec::new(alloc));
                self.stage = Stage::Beside;
                Ok(())
            }
            Stage::Beside => self.blame(number, 0),
            Stage::After => self.blame(number, 0),
        }
    }

    /// Takes a line AFTER: the lines behind it are carried out last. Those before it, from BESIDE on if there was one,
    /// stay side by side. A second AFTER is faulty at its first byte.
    fn take_after(&mut self, number: u64) -> Result<(), NoMemory>
        ensures { OnOk result (read_kept self.new ≡ with_after self.old.stage (read_kept self.old) number) }
    {
        match self.stage {
            Stage::First => {
                self.stage = Stage::After;
                Ok(())
            }
            Stage::Beside => {
                self.stage = Stage::After;
                Ok(())
            }
            Stage::After => self.blame(number, 0),
        }
    }

    /// Takes the line of a session whose statement was read: side by side, or behind AFTER to those that are carried
    /// out last.
    fn take_told(&mut self, session: SessionNo, text: &'a [u8]) -> Result<(), NoMemory>
        ensures { OnOk result (read_kept self.new ≡ with_told self.old.stage (read_kept self.old)
            (record { session = session; text = text.entry.now })) }
    {
        match self.stage {
            // If a line BESIDE follows, `take_beside` moves these lines to those that are carried out first.
            Stage::First => {
                self.beside.push(Line::new(session, text))?;
                Ok(())
            }
            Stage::Beside => {
                self.beside.push(Line::new(session, text))?;
                Ok(())
            }
            Stage::After => {
                self.later.push(Line::new(session, text))?;
                Ok(())
            }
        }
    }

    /// Takes a line that names a session. It is faulty if its statement can't be read; else the row that it writes is
    /// noted.
    fn take_given(
        &mut self,
        number: u64,
        session: SessionNo,
        text: &'a [u8],
    ) -> Result<(), NoMemory>
        ensures { OnOk result
            (read_kept self.new
            ≡ with_statement (read_kept self.old) number (record { session = session; text = text.entry.now })
            (read_of text.entry.now)) }
    {
        match read_statement(text) {
            Ok(statement) => {
                note_row(&mut self.written, &statement)?;
                self.take_told(session, text)
            }
            Err(fault) => self.blame(number, fault.at),
        }
    }

    /// Takes a line that is no comment and neither BESIDE nor AFTER. A blank one changes nothing, and one that names no
    /// session is faulty at byte 0.
    fn take_line(&mut self, number: u64, line: &'a [u8]) -> Result<(), NoMemory>
        ensures { OnOk result (read_kept self.new ≡ with_line (read_kept self.old) number (line_of line.entry.now)) }
    {
        match read_line(line) {
            ScriptLine::Blank => Ok(()),
            ScriptLine::Bad => self.blame(number, 0),
            ScriptLine::Given(session, text) => self.take_given(number, session, text),
        }
    }

    /// Takes the line of this number. A comment changes nothing, BESIDE and AFTER begin a part or are faulty, any other
    /// line is a session's, blank or faulty.
    #[tactic(auto, unfolding(crate::specs::Scripts::read_more))]
    fn take(&mut self, alloc: Global, number: u64, line: &'a [u8]) -> Result<(), NoMemory>
        ensures { OnOk result (read_kept self.new ≡ read_more (read_kept self.old) number line.entry.now) }
    {
        if is_comment(line) {
            Ok(())
        } else if is_word(b"BESIDE", line) {
            self.take_beside(alloc, number)
        } else if is_word(b"AFTER", line) {
            self.take_after(number)
        } else {
            self.take_line(number, line)
        }
    }
}

/// Reads a script.
///
/// Blank lines and comments say nothing, but lines are counted with them, from 1. What is written for faulty lines is
/// in `faults`; these lines are in no part.
/// Errors: `NoMemory` if an allocation failed.
/// May return `NoMemory`. Doesn't wait.
/// Own rule: docs/COMMANDS.md#explore.
pub fn read_script(alloc: Global, text: &[u8]) -> Result<Script<'_>, NoMemory>
    // Proved (orders, script-read): A script's lines go to its three parts, or to its faulty lines, exactly
    //   as the definition of reading says.
    ensures { IfOk result (λ script. read_kept script ≡ script_read text.now) }
{
    let mut script = Script::new(alloc);
    let mut number: u64 = 0;
    let mut rest = text;
    while !rest.is_empty() {
        let (line, lines) = split_line(rest);
        number += 1;
        script.take(alloc, number, line)?;
        rest = lines;
    }
    Ok(script)
}
