//! A writer that writes the literals of its lines as texts.
ghost use Rattle.std.specs.Prelude.{◌≡◌, ◌≤◌, ◌<◌, ◌⊎◌, not, true, false, ⊤, [], length, take, drop, IfOk, OnOk, OnErr};
ghost use Rattle.std.specs.Io.{WritesAtMost, KnownBytes.{Keeps, WriteAppends}};
ghost use Rattle.xa_script.specs.TextLines.{unfed, is_fed, ends_line, IsWrittenAs};

use crate::line_form::{LineForm, is_whole_row};
use crate::text_line::{Room, text_line};
use std::io::{ErrorKind, Write};
use std::{io, mem};

/// A writer that writes the literals of printable bytes in its lines as texts in quotes.
///
/// A line is held until it is whole. A line of more than 512 bytes has no literals of the job's own, and
/// passes unchanged. So does a line that would have more with its texts, and one that a flush cuts off.
#[derive(Drop)]
pub struct Texts<W> {
    /// The writer that is written to.
    inner: W,
    /// The form of the lines.
    form: LineForm,
    /// What has been taken of the line that isn't whole yet.
    held: Room,
    /// What has to be written before more is taken.
    due: Room,
    /// How many bytes of `due` are written.
    given: usize,
    /// Whether the rest of the line passes unchanged.
    passes: bool,
    /// How many rows of a reply are still missing.
    rows: u64,
    ghost within: { given ≤ length due.items },
    ghost apart: { passes ≡ true → held.items ≡ [] },
}

/// Returns how many bytes the first line has, with its line feed; all of them if there is none.
fn line_length(bytes: &[u8]) -> usize
    ensures { result ≤ length bytes.now }
{
    match bytes.iter().position(|byte| *byte == b'\n') {
        Some(place) => place + 1,
        None => bytes.len(),
    }
}

/// Returns a line without its line feed.
fn without_feed(line: &[u8]) -> &[u8]
    ensures { result.now ≡ unfed line.now }
{
    if line.ends_with(b"\n") {
        &line[..line.len() - 1]
    } else {
        line
    }
}

impl<W: Write + Drop> Texts<W> {
    ghost use Rattle.xa_script.specs.Owing.{sent_of, known_of, IsEnded, Ends, Comes};

    /// Returns a writer that writes lines of this form to `inner`.
    ///
    /// Takes no memory. Doesn't wait.
    pub fn new(inner: W, form: LineForm) -> Texts<W>
        ensures known { Keeps (W.contents inner) (known_of W.contents result) }
        ensures form { result.form ≡ form }
    {
        Texts {
            inner,
            form,
            held: Room::new(),
            due: Room::new(),
            given: 0,
            passes: false,
            rows: 0,
        }
    }

    /// Writes some of what is due, by one call. A call that takes nothing is the error `WriteZero`.
    fn give_some(&mut self) -> io::Result<()>
        requires { self.old.given < length self.old.due.items }
        ensures sent { Keeps (sent_of W.contents self.old) (sent_of W.contents self.new) }
        ensures held { self.new.held ≡ self.old.held }
        ensures passes { self.new.passes ≡ self.old.passes }
        ensures form { self.new.form ≡ self.old.form }
        ensures rows { self.new.rows ≡ self.old.rows }
        ensures due { self.new.due ≡ self.old.due }
        ensures more { OnOk result (self.old.given < self.new.given) }
    {
        let count = self.inner.write(&self.due.as_slice()[self.given..])?;
        // A writer that takes nothing would be asked for ever.
        if count == 0 {
            return Err(ErrorKind::WriteZero.into());
        }
        self.given += count;
        Ok(())
    }

    /// Writes what is due.
    fn give(&mut self) -> io::Result<()>
        ensures sent { Keeps (sent_of W.contents self.old) (sent_of W.contents self.new) }
        ensures kept { Keeps (known_of W.contents self.old) (known_of W.contents self.new) }
        ensures held { self.new.held ≡ self.old.held }
        ensures passes { self.new.passes ≡ self.old.passes }
        ensures form { self.new.form ≡ self.old.form }
        ensures rows { self.new.rows ≡ self.old.rows }
        ensures all { OnOk result (drop self.new.given self.new.due.items ≡ []) }
    {
        while self.given < self.due.len() {
            self.give_some()?;
        }
        Ok(())
    }

    /// Notes what has to be written before more is taken.
    fn owe(&mut self, text: Room)
        requires { drop self.old.given self.old.due.items ≡ [] }
        ensures due { self.new.due ≡ text }
        ensures given { self.new.given ≡ 0 }
        ensures inner { self.new.inner ≡ self.old.inner }
        ensures held { self.new.held ≡ self.old.held }
        ensures passes { self.new.passes ≡ self.old.passes }
        ensures form { self.new.form ≡ self.old.form }
        ensures rows { self.new.rows ≡ self.old.rows }
    {
        self.given = 0;
        self.due = text;
    }

    /// Lets what has been taken of the line, and the rest of it, pass unchanged.
    fn let_pass(&mut self) -> io::Result<()>
        requires { drop self.old.given self.old.due.items ≡ [] }
        ensures kept { Keeps (known_of W.contents self.old) (known_of W.contents self.new) }
        ensures held { self.new.held.items ≡ [] }
        ensures passes { self.new.passes ≡ true }
        ensures form { self.new.form ≡ self.old.form }
        ensures rows { self.new.rows ≡ self.old.rows }
        ensures all { OnOk result (drop self.new.given self.new.due.items ≡ []) }
    {
        let held = mem::replace(&mut self.held, Room::new());
        // If the write fails, what was taken stays due, and the rest still passes.
        self.owe(held);
        self.passes = true;
        self.give()
    }

    /// Writes what is due, and what has been taken of the line, if anything; the rest of that line then passes
    /// unchanged.
    fn settle(&mut self) -> io::Result<()>
        ensures kept { Keeps (known_of W.contents self.old) (known_of W.contents self.new) }
        ensures due { OnOk result (drop self.new.given self.new.due.items ≡ []) }
        ensures held { OnOk result (self.new.held.items ≡ []) }
        ensures form { self.new.form ≡ self.old.form }
        ensures rows { self.new.rows ≡ self.old.rows }
        ensures cut { self.new.passes ≡ true → (self.old.passes ≡ true) ⊎ (0 < length self.old.held.items) }
    {
        self.give()?;
        // Nothing of a line is held back, so its rest needn't pass unchanged.
        if self.held.is_empty() {
            return Ok(());
        }
        self.let_pass()
    }

    /// Writes what is due. If there is no more room for the line, of which 512 bytes have then been taken, writes also
    /// these; the line's rest then passes unchanged.
    fn make_room(&mut self) -> io::Result<()>
        ensures kept { Keeps (known_of W.contents self.old) (known_of W.contents self.new) }
        ensures due { OnOk result (drop self.new.given self.new.due.items ≡ []) }
        ensures sent { OnOk result (self.new.passes ≡ false
            → Keeps (sent_of W.contents self.old) (sent_of W.contents self.new)) }
        ensures held { OnOk result (self.new.passes ≡ false → self.new.held ≡ self.old.held) }
        ensures form { self.new.form ≡ self.old.form }
        ensures rows { self.new.rows ≡ self.old.rows }
        ensures full { self.new.passes ≡ true → (self.old.passes ≡ true) ⊎ (length self.old.held.items ≡ 512) }
        ensures open { self.new.passes ≡ false → self.old.passes ≡ false }
    {
        self.give()?;
        if self.held.is_full() {
            return self.let_pass();
        }
        Ok(())
    }

    /// Returns whether what has been taken is a whole line.
    fn is_whole(&self) -> bool
        ensures { result ≡ ends_line self.now.rows self.now.held.items }
    {
        let held = self.held.as_slice();
        // A row may have line feeds in it.
        held.ends_with(b"\n") && (self.rows == 0 || is_whole_row(without_feed(held)))
    }

    /// Returns what is written for a line that ends in a line feed and isn't a row: the line with its literals as
    /// texts; or the line as it is, if the form keeps it, or if it would have more than 512 bytes with these.
    fn written(form: LineForm, line: Room) -> Room
        ensures { IsWrittenAs form line.items result.items }
    {
        if form.keeps(without_feed(line.as_slice())) {
            return line;
        }
        match text_line(line.as_slice()) {
            Some(text) => text,
            None => line,
        }
    }

    /// Has the whole line that was taken written next: a row as it is, any other line as `written` says. Then counts
    /// how many rows are still to come.
    fn end_line(&mut self)
        requires { drop self.old.given self.old.due.items ≡ [] }
        ensures written { IsEnded self.old.form self.old.rows self.old.held.items self.new.due.items self.new.rows }
        ensures given { self.new.given ≡ 0 }
        ensures held { self.new.held.items ≡ [] }
        ensures inner { self.new.inner ≡ self.old.inner }
        ensures passes { self.new.passes ≡ self.old.passes }
        ensures form { self.new.form ≡ self.old.form }
    {
        let held = mem::replace(&mut self.held, Room::new());
        // A row of a list may hold any bytes, so it is left as it is.
        if self.rows > 0 {
            self.rows -= 1;
            self.owe(held);
        } else {
            self.rows = self.form.rows_behind(without_feed(held.as_slice()));
            self.owe(Self::written(self.form, held));
        }
    }

    /// Takes these bytes up to the end of a line, or as long as there is room, and returns how many that are.
    fn take(&mut self, bytes: &[u8]) -> usize
        requires due { drop self.old.given self.old.due.items ≡ [] }
        requires passes { self.old.passes ≡ false }
        ensures bound { result ≤ length bytes.now }
        ensures taken { Comes W.contents self.old (take result bytes.now) self.new
            ⊎ Ends W.contents self.old (take result bytes.now) self.new }
        ensures form { self.new.form ≡ self.old.form }
    {
        let mut taken = 0;
        while taken < bytes.len() && !self.held.is_full() {
            self.held.push(bytes[taken]);
            taken += 1;
            if self.is_whole() {
                self.end_line();
                return taken;
            }
        }
        taken
    }

    /// Writes the first of these bytes, at most to the first line feed, unchanged and by one call. Returns how many
    /// were written. A line that passes isn't counted as a row, and isn't asked how many rows come next.
    fn pass(&mut self, bytes: &[u8]) -> io::Result<usize>
        requires { self.old.passes ≡ true }
        ensures bound { WritesAtMost result bytes.now }
        ensures written { WriteAppends (W.contents self.old.inner) (W.contents self.new.inner) result bytes.now }
        ensures due { self.new.due ≡ self.old.due }
        ensures given { self.new.given ≡ self.old.given }
        ensures held { self.new.held ≡ self.old.held }
        ensures rows { self.new.rows ≡ self.old.rows }
        ensures form { self.new.form ≡ self.old.form }
        ensures fed { IfOk result (λ count. self.new.passes ≡ not (is_fed (take count bytes.now))) }
        ensures passes { OnErr result (self.new.passes ≡ true) }
    {
        let line = &bytes[..line_length(bytes)];
        let count = self.inner.write(line)?;
        // The line ends here, so the next one can be taken.
        if bytes[..count].ends_with(b"\n") {
            self.passes = false;
        }
        Ok(count)
    }
}

impl<W: Write + Drop> Write for Texts<W> {
    ghost use Rattle.xa_script.specs.Owing.{known_of, Takes};

    fn write(&mut self, buf: &[u8]) -> io::Result<usize>
        ensures bound { WritesAtMost result buf.now }
        ensures bytes { ⊤ }
        // Proved (scripts, text-writer): With `--text` the writer keeps the bytes that it takes in order. Each whole
        //   line has its literals of printable bytes written as texts, if the line has at most 512 bytes before and
        //   after that. A row is left as it is, and so is each of the lines that stay as they are. A line that a flush
        //   cuts off passes unchanged, and so does one with more bytes, each up to its line feed.
        ensures taken { IfOk result (λ count. Takes W.contents self.old (take count buf.now) self.new) }
        // Proved (scripts, text-writer)
        ensures form { self.new.form ≡ self.old.form }
        // Proved (scripts, text-writer-faults): After a fault of the `--text` writer nothing more was taken,
        //   and nothing is lost. A flush that succeeds has written all.
        ensures kept { OnErr result (Keeps (known_of W.contents self.old) (known_of W.contents self.new)) }
        // Proved (scripts, text-writer-faults)
        ensures rows { OnErr result (self.new.rows ≡ self.old.rows) }
        // Proved (scripts, text-writer-faults)
        ensures full { OnErr result (self.new.passes ≡ true → (self.old.passes ≡ true)
            ⊎ (length self.old.held.items ≡ 512)) }
    {
        // What is due goes first. A line for which there is no more room then begins to pass.
        self.make_room()?;
        if self.passes {
            self.pass(buf)
        } else {
            Ok(self.take(buf))
        }
    }

    fn flush(&mut self) -> io::Result<()>
        ensures bytes { ⊤ }
        // Proved (scripts, text-writer-faults)
        ensures kept { OnErr result (Keeps (known_of W.contents self.old) (known_of W.contents self.new)) }
        // Proved (scripts, text-writer-faults)
        ensures all { OnOk result (Keeps (known_of W.contents self.old) (W.contents self.new.inner)) }
        // Proved (scripts, text-writer)
        ensures cut { self.new.passes ≡ true → (self.old.passes ≡ true) ⊎ (0 < length self.old.held.items) }
        // Proved (scripts, text-writer)
        ensures rows { self.new.rows ≡ self.old.rows }
        // Proved (scripts, text-writer)
        ensures form { self.new.form ≡ self.old.form }
    {
        self.settle()?;
        self.inner.flush()
    }
}
