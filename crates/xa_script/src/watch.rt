//! Looks at the lines that a job reads, for `--verbose` and `--strict`.
ghost use Rattle.std.specs.Prelude.{◌≡◌, ◌≢◌, ◌||◌, [], false, true, is_some, IfOk, OnOk, OnErr, Some, option_map};
ghost use Rattle.std.specs.{Prelude.unwrap_or, Io.{ReadsAtMost, KnownBytes.ReadConsumes}};
ghost use Rattle.xa_script.specs.Unread.{is_unread, kind_after};

use crate::hint::tell_line;
use crate::line_fault::LineFault;
use crate::line_kind::{LineKind, row_fault, rows_behind};
use std::alloc::Global;
use std::io;
use std::io::Read;
use xa_lines::is_comment;
use xa_record::{LineGap, LineWanted};
use xa_xid::{NoMemory, skip_blanks};

/// A reader whose lines are looked at as they are read.
#[derive(Drop)]
pub struct Watch<'r, I: Read + Drop, R> {
    /// What is read.
    inner: I,
    /// The runtime whose standard error is written to.
    rt: &'r R,
    /// The file's name, if it is one of a list. What is reported of the file comes with it.
    name: Option<&'r str>,
    /// The kind of lines that the job reads.
    kind: LineKind,
    /// How many bytes a line may have, without its line feed.
    most: usize,
    /// Whether lines are looked at.
    looks: bool,
    /// Whether it reports what has to come in a line, and why the input can't be read.
    speaks: bool,
    /// What has been read of the line.
    line: Vec<u8>,
    /// The line's number, from 1.
    number: u64,
    /// How many rows of a return are still missing.
    rows: u64,
    /// Whether some line was faulty, as `new` says.
    faulty: bool,
    /// Whether memory was refused.
    refused: bool,
}

impl<'r, I: Read + Drop, R: Eprint + Alloc<A = Global>> Watch<'r, I, R> {
    /// Returns a reader of the same bytes that looks at their lines, if `speaks` or `counts`: it notes whether some
    /// line is faulty, and if `speaks`, reports what has to come in each that is, behind the input's `name` if it has
    /// one. A line is faulty if it isn't one of this kind, or has more than `most` bytes.
    ///
    /// Takes no memory. Doesn't wait.
    pub fn new(
        rt: &'r R,
        inner: I,
        name: Option<&'r str>,
        kind: LineKind,
        most: usize,
        speaks: bool,
        counts: bool,
    ) -> Watch<'r, I, R>
        ensures reader { result.inner ≡ inner }
        ensures name { result.name ≡ name.entry }
        ensures fresh { result.faulty ≡ false }
        ensures kind { result.kind ≡ kind }
        ensures most { result.most ≡ most }
        ensures looks { result.looks ≡ speaks || counts }
    {
        Watch {
            inner,
            rt,
            name,
            kind,
            most,
            looks: speaks || counts,
            speaks,
            line: Vec::new(rt.alloc()),
            number: 1,
            rows: 0,
            faulty: false,
            refused: false,
        }
    }

    /// Returns the file's name, if it has one, and else an empty one.
    ///
    /// Takes no memory. Doesn't wait.
    pub fn name(&self) -> &'r str
        ensures { result.now ≡ unwrap_or (option_map (λ name. name.now) self.now.name) [] }
    {
        match self.name {
            Some(name) => name,
            None => "",
        }
    }

    /// Returns whether a line was faulty; false also if lines aren't looked at.
    ///
    /// Errors: `NoMemory` if memory was refused for looking at the lines.
    /// Takes no memory. Doesn't wait.
    pub fn has_faults(&self) -> Result<bool, NoMemory>
        ensures faulty { IfOk result (λ faulty. faulty ≡ self.now.faulty) }
        ensures looked { OnOk result (self.now.refused ≡ false) }
        ensures refused { OnErr result (self.now.refused ≡ true) }
    {
        if self.refused {
            return Err(std::alloc::AllocError);
        }
        Ok(self.faulty)
    }

    /// Reports that the file can't be read as it has to be, if it has a name.
    ///
    /// Doesn't wait, unless the standard error does.
    pub fn tell_unread(&self) {
        if let Some(name) = self.name {
            let _ = eprintln!(self.rt; "xa_script: can't read {name}");
        }
    }

    /// Reports the file's name, if it has one, before something else that is reported of the file. If a fault of one of
    /// its lines was reported earlier, so was the name, and it isn't reported again.
    ///
    /// Doesn't wait, unless the standard error does.
    pub fn tell_name(&self) {
        if let (Some(name), false) = (self.name, self.speaks && self.faulty) {
            let _ = eprintln!(self.rt; "xa_script: in {name}");
        }
    }

    /// Reports, if it speaks, what the line that has been read lacks, and before the first fault the file's name.
    fn blame(&self, fault: LineFault<'_>) -> Result<(), NoMemory> {
        if self.speaks {
            self.tell_name();
            tell_line(self.rt, self.number, fault)?;
        }
        Ok(())
    }

    /// Returns the fault of the line that has been read, if it has one.
    fn fault(&self) -> Option<LineFault<'_>>
        ensures { is_some result ≡ is_unread self.now.kind self.now.most self.now.rows self.now.line.items }
    {
        // Only its front is kept, of which nothing else can be said.
        if self.line.len() > self.most {
            return Some(LineFault::TooLong);
        }
        if self.rows > 0 {
            return row_fault(self.line.as_slice());
        }
        self.kind.fault_in(self.line.as_slice())
    }

    /// Updates how many rows of a return are missing: to as many as the line announces, or to one fewer if it stands
    /// where a row was due, even if it is faulty.
    fn count_rows(&mut self)
        ensures inner { self.new.inner ≡ self.old.inner }
        ensures faulty { self.new.faulty ≡ self.old.faulty }
        ensures kind { self.new.kind ≡ self.old.kind }
    {
        let line = self.line.as_slice();
        // Only returns in records have rows, and a silent line is none of them.
        if self.kind != LineKind::Record || skip_blanks(line).is_empty() || is_comment(line) {
            return;
        }
        self.rows = if self.rows > 0 {
            self.rows - 1
        } else {
            rows_behind(line)
        };
    }

    /// Looks at the line that has been read, and begins the next.
    fn end_line(&mut self) -> Result<(), NoMemory>
        ensures inner { self.new.inner ≡ self.old.inner }
        // Proved (scripts, strict-lines): `--strict` counts a line as faulty exactly if it is longer than it may be, or
        //   it isn't one for the job, or isn't a row while rows of a reply have to come.
        ensures faulty { OnOk result (self.new.faulty ≡ (self.old.faulty
            || is_unread (kind_after self.old.kind self.old.line.items) self.old.most self.old.rows
            self.old.line.items)) }
        ensures kind { OnOk result (self.new.kind ≡ kind_after self.old.kind self.old.line.items) }
        ensures begun { OnOk result (self.new.line.items ≡ []) }
    {
        // This line may settle the kind, and is then of that kind itself.
        self.kind = self.kind.settled_by(self.line.as_slice());
        if let Some(fault) = self.fault() {
            self.blame(fault)?;
            // Only now, since the file's name is reported as long as no line was faulty.
            self.faulty = true;
        }
        // The fault depends on whether this line has to be a row, so rows are counted after it.
        self.count_rows();
        self.line.clear();
        // So many lines never come. The sum saturates only because it mustn't overflow.
        self.number = self.number.saturating_add(1);
        Ok(())
    }

    /// Takes a byte; a line feed ends the line. Of a line that is too long one byte more is kept than it may have.
    fn take_byte(&mut self, byte: u8) -> Result<(), NoMemory>
        ensures inner { self.new.inner ≡ self.old.inner }
        // Proved (scripts, strict-lines)
        ensures ended { byte ≡ 10 → OnOk result (self.new.faulty ≡ (self.old.faulty
            || is_unread (kind_after self.old.kind self.old.line.items) self.old.most self.old.rows
            self.old.line.items)) }
        // Proved (scripts, strict-lines)
        ensures begun { byte ≢ 10 → self.new.faulty ≡ self.old.faulty }
    {
        if byte == b'\n' {
            return self.end_line();
        }
        // The one byte more shows at the line's end that it is too long.
        if self.line.len() <= self.most {
            self.line.push(byte)?;
        }
        Ok(())
    }

    /// Takes a byte, unless memory was refused before.
    fn look_at(&mut self, byte: u8)
        ensures { self.new.inner ≡ self.old.inner }
    {
        if !self.refused && self.take_byte(byte).is_err() {
            self.refused = true;
        }
    }

    /// Looks at what was read.
    fn look_at_each(&mut self, bytes: &[u8])
        ensures { self.new.inner ≡ self.old.inner }
    {
        for byte in bytes {
            self.look_at(*byte);
        }
    }

    /// Looks at the end of the input: the last line may lack a line feed, and rows of a return may still be missing.
    /// Missing rows are reported, if it speaks, and make no line faulty.
    fn look_at_end(&mut self)
        ensures { self.new.inner ≡ self.old.inner }
    {
        if !self.line.is_empty() {
            self.look_at(b'\n');
        }
        if self.rows > 0 {
            let wanted = LineWanted::Row;
            let missing = LineFault::NoRecord(LineGap { wanted, at: 0 });
            self.refused |= self.blame(missing).is_err();
            // If the end is read again, this isn't reported again.
            self.rows = 0;
        }
    }

    /// Looks at what was read. No bytes are the end.
    fn look(&mut self, bytes: &[u8])
        ensures { self.new.inner ≡ self.old.inner }
    {
        if bytes.is_empty() {
            self.look_at_end();
        } else {
            self.look_at_each(bytes);
        }
    }
}

impl<'r, I: Read + Drop, R: Eprint + Alloc<A = Global>> Read for Watch<'r, I, R> {
    ghost remaining = { λ watch. I.remaining watch.inner };

    fn read(&mut self, buf: &mut [u8]) -> io::Result<usize>
        ensures bound { ReadsAtMost result buf.new }
        ensures bytes { ReadConsumes (I.remaining self.old.inner) (I.remaining self.new.inner) result buf.new }
    {
        match self.inner.read(buf) {
            Ok(count) => {
                if self.looks {
                    self.look(&buf[..count]);
                }
                Ok(count)
            }
            Err(fault) => {
                if self.speaks {
                    let _ = eprintln!(self.rt; "xa_script: can't read the input: {fault}");
                }
                Err(fault)
            }
        }
    }
}
