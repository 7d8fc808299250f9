//! Judges a record while it comes, for `--follow`.
ghost use Rattle.std.specs.{Prelude.◌≡◌, Io.{ReadsAtMost, KnownBytes.ReadConsumes}};

use std::alloc::Global;
use std::io;
use std::io::Read;
use xa_judge::Silent;
use xa_lines::split_line;
use xa_record::{Allowance, Asked, Form, Outcome, judge_text};
use xa_server::Server;
use xa_xid::NoMemory;

/// A reader of a record. Whenever its writer pauses, the lines that have come are judged, and the standard error is
/// told once no order explains them.
#[derive(Drop)]
pub struct Following<'r, I: Read, R> {
    /// What is read.
    inner: I,
    /// The runtime whose standard error is written to.
    rt: &'r R,
    /// The server with which the record begins.
    base: &'r Server,
    /// The error numbers that stand for others.
    allowances: &'r [Allowance],
    /// What is asked of judging.
    asked: Asked,
    /// Whether lines are still judged as they come.
    follows: bool,
    /// What has been read, as long as `follows`.
    text: Vec<u8>,
    /// How many bytes of `text` were judged.
    judged: usize,
}

impl<'r, I: Read, R: Eprint + Alloc<A = Global>> Following<'r, I, R> {
    /// Returns a reader of the bytes of `inner`. If `follows`, it judges their lines as they come: as a record that
    /// begins with `base`, by these allowances and what is `asked`.
    ///
    /// Takes no memory. Doesn't wait.
    pub fn new(
        rt: &'r R,
        inner: I,
        base: &'r Server,
        allowances: &'r [Allowance],
        asked: Asked,
        follows: bool,
    ) -> Following<'r, I, R>
        ensures { I.remaining result.inner ≡ I.remaining inner }
    {
        Following {
            inner,
            rt,
            base,
            allowances,
            // Only the first line of a plain verdict is told. It needs no explanation and no smaller record.
            asked: Asked {
                form: Form::Plain,
                explains: false,
                shrinks: false,
                ..asked
            },
            follows,
            text: Vec::new(rt.alloc()),
            judged: 0,
        }
    }

    /// Returns how many bytes of `text` are whole lines: up to its last line feed behind the first `judged` bytes, or
    /// `judged` if there is none.
    fn count_whole(&self) -> usize {
        let mut count = self.judged;
        for at in self.judged..self.text.len() {
            if self.text[at] == b'\n' {
                count = at + 1;
            }
        }
        count
    }

    /// Says on the standard error that the lines that have come are ILLEGAL, by the first line of `verdict`, which
    /// says at which line.
    fn tell(&self, verdict: &[u8]) {
        // A verdict is never empty. That isn't known here, and `split_line` takes no empty text.
        if verdict.is_empty() {
            return;
        }
        // The first line is `ILLEGAL line n`, so it is UTF-8.
        let (line, _) = split_line(verdict);
        if let Ok(line) = str::from_utf8(line) {
            let _ = eprintln!(self.rt; "xa_script: {line}, as far as the record has come");
        }
    }

    /// Judges the first `count` bytes of what was read, and says so if they are ILLEGAL. Returns whether later lines
    /// are to be judged as they come, too.
    fn judge_front(&self, count: usize) -> Result<bool, NoMemory> {
        // At least `count` bytes have come, so the front isn't None.
        let Some(front) = self.text.get(..count) else {
            return Ok(false);
        };
        let alloc = self.rt.alloc();
        let judged = judge_text(
            alloc,
            self.base,
            front,
            self.allowances,
            self.asked,
            &mut Silent,
        )?;
        match judged.outcome {
            // ILLEGAL is told only once. At its end the whole record is judged.
            Outcome::Illegal => {
                self.tell(judged.text.as_slice());
                Ok(false)
            }
            // To judge more lines might pass the limit each time. At its end the whole record is judged.
            Outcome::Undecided => Ok(false),
            // A line may be faulty only until the rows that belong to it have come.
            Outcome::Legal | Outcome::Faulty | Outcome::Empty => Ok(true),
        }
    }

    /// Judges all whole lines that have come, if some of them came since the last time. Returns whether later lines are
    /// to be judged as they come, too; true if none came.
    fn judge_more(&mut self) -> Result<bool, NoMemory>
        ensures { self.new.inner ≡ self.old.inner }
    {
        let count = self.count_whole();
        if count <= self.judged {
            return Ok(true);
        }
        self.judged = count;
        self.judge_front(count)
    }

    /// Keeps the bytes that were read. If the record's writer `pauses`, judges what has come as `judge_more` does.
    /// Returns whether later lines are to be judged as they come, too.
    fn take(&mut self, bytes: &[u8], pauses: bool) -> Result<bool, NoMemory>
        ensures { self.new.inner ≡ self.old.inner }
    {
        self.text.extend_from_slice(bytes)?;
        if !pauses {
            return Ok(true);
        }
        self.judge_more()
    }

    /// Takes the bytes that were read as `take` does. If that returns false or memory was refused, later lines aren't
    /// judged as they come any more.
    fn follow(&mut self, bytes: &[u8], pauses: bool)
        ensures { self.new.inner ≡ self.old.inner }
    {
        // Without memory the record is judged at its end alone.
        self.follows = self.take(bytes, pauses).unwrap_or(false);
    }
}

impl<'r, I: Read, R: Eprint + Alloc<A = Global>> Read for Following<'r, I, R> {
    ghost remaining = { λ following. I.remaining following.inner };

    fn read(&mut self, buf: &mut [u8]) -> io::Result<usize>
        ensures bound { ReadsAtMost result buf.new }
        ensures bytes { ReadConsumes (I.remaining self.old.inner) (I.remaining self.new.inner) result buf.new }
    {
        let count = self.inner.read(buf)?;
        // A reader that gives less than it might has no more for now.
        let pauses = count < buf.len();
        if self.follows {
            self.follow(&buf[..count], pauses);
        }
        Ok(count)
    }
}
