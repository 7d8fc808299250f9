//! A reader for tests.
ghost use Rattle.std.specs.Prelude.{◌≡◌, ◌||◌, ◌<◌, ◌≤◌, ◌-◌, ◌+◌, ◌^◌, min, ◌↔◌, false, true, length, Some, IsTrue};
ghost use Rattle.std.specs.{Prelude.{IsErr, IfOk, OnErr, OnOk}, Io.{ReadsAtMost, KnownBytes.ReadConsumes}};

use std::io;
use std::io::{ErrorKind, Read};

/// A reader that gives bytes in pieces of one size, and fails after a number of reads: at each read from then
/// on, or once.
///
/// The error is an interrupted read, which the standard library's own loops would try again.
#[derive(Drop)]
pub struct CutReader<'a> {
    /// The bytes that are left.
    rest: &'a [u8],
    /// The greatest number of bytes that one read gives.
    piece: usize,
    /// How many reads are left before it fails.
    reads: u64,
    /// Whether it goes on after it failed once.
    once: bool,
    /// Whether it has failed.
    faulted: bool,
    /// How often it was read after it first failed, at most 2^64-1.
    after: u64,
    // Each read gives something, so a loop over reads ends.
    ghost some: { 0 < piece },
}

impl<'a> CutReader<'a> {
    ghost use Rattle.xa_lines.specs.Cut.{left_in, piece_of, reads_left_in, goes_on_behind, has_faulted, reads_after};

    /// Returns a reader of these bytes that gives at most `piece` at a time, and fails at each read after the
    /// first `reads`.
    ///
    /// `piece` is at least 1.
    ///
    /// Takes no memory. Doesn't wait.
    pub fn new(bytes: &'a [u8], piece: usize, reads: u64) -> CutReader<'a>
        requires { 0 < piece }
        ensures bytes { left_in result ≡ bytes.now }
        ensures piece { piece_of result ≡ piece }
        ensures reads { reads_left_in result ≡ reads }
        ensures each_time { goes_on_behind result ≡ false }
        ensures fresh { (has_faulted result ≡ false) × (reads_after result ≡ 0) }
    {
        CutReader {
            rest: bytes,
            piece,
            reads,
            once: false,
            faulted: false,
            after: 0,
        }
    }

    /// Returns such a reader that fails at one read only. The reads after that give the bytes that are left.
    ///
    /// `piece` is at least 1.
    ///
    /// Takes no memory. Doesn't wait.
    pub fn once(bytes: &'a [u8], piece: usize, reads: u64) -> CutReader<'a>
        requires { 0 < piece }
        ensures bytes { left_in result ≡ bytes.now }
        ensures piece { piece_of result ≡ piece }
        ensures reads { reads_left_in result ≡ reads }
        ensures once { goes_on_behind result ≡ true }
        ensures fresh { (has_faulted result ≡ false) × (reads_after result ≡ 0) }
    {
        let mut reader = CutReader::new(bytes, piece, reads);
        reader.once = true;
        reader
    }

    /// Returns how many more reads succeed before it first fails; 0 after that.
    ///
    /// Takes no memory. Doesn't wait.
    pub fn reads_left(&self) -> u64
        ensures { result ≡ reads_left_in self.now }
    {
        self.reads
    }

    /// Returns how often it was read after it first failed.
    ///
    /// Takes no memory. Doesn't wait.
    pub fn reads_after_a_fault(&self) -> u64
        ensures { result ≡ reads_after self.now }
    {
        self.after
    }
}

impl<'a> Read for CutReader<'a> {
    ghost use Rattle.xa_lines.specs.Cut.{left_in, piece_of, reads_left_in, goes_on_behind, has_faulted, reads_after};
    ghost use Rattle.xa_lines.specs.Cut.{faults_next};

    ghost remaining = { λ reader. Some (left_in reader) };

    /// Gives as much of what is left as fits into `buf`, at most a piece. If no read is left it fails: at each read, or
    /// if `once` made it, only at the first. Counts the reads after the first that failed.
    fn read(&mut self, buf: &mut [u8]) -> io::Result<usize>
        ensures bound { ReadsAtMost result buf.new }
        ensures bytes { ReadConsumes (Some (left_in self.old)) (Some (left_in self.new)) result buf.new }
        ensures piece { IfOk result (λ count. count ≡ min (min (length (left_in self.old)) (length buf.new))
            (piece_of self.old)) }
        ensures fault { IsErr result ↔ IsTrue (faults_next self.old) }
        ensures reads { reads_left_in self.new ≡ reads_left_in self.old - 1 }
        ensures kept { (piece_of self.new ≡ piece_of self.old) × (goes_on_behind self.new ≡ goes_on_behind self.old) }
        ensures faulted { has_faulted self.new ≡ (has_faulted self.old || faults_next self.old) }
        ensures after { has_faulted self.old ≡ false → reads_after self.new ≡ reads_after self.old }
        ensures more { IsTrue (has_faulted self.old) → reads_after self.new
            ≡ min (reads_after self.old + 1) (2 ^ 64 - 1) }
    {
        if self.faulted {
            self.after = self.after.saturating_add(1);
        }
        // No read is left, and it fails each time, or hasn't failed yet.
        if self.reads == 0 && !(self.once && self.faulted) {
            self.faulted = true;
            return Err(ErrorKind::Interrupted.into());
        }
        // After its one failure a reader goes on, with no read left to be counted: 0 stays 0.
        self.reads = self.reads.saturating_sub(1);
        let count = self.rest.len().min(buf.len()).min(self.piece);
        let (piece, rest) = self.rest.split_at(count);
        buf[..count].copy_from_slice(piece);
        self.rest = rest;
        Ok(count)
    }
}
