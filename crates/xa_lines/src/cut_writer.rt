//! A writer for tests.
ghost use Rattle.std.specs.Prelude.{◌≡◌, ◌||◌, ◌<◌, ◌≤◌, ◌-◌, ◌+◌, ◌^◌, min, false, true, [], length, Some, Ok, IsTrue};
ghost use Rattle.std.specs.{Prelude.{IfOk, IsErr, OnErr, OnOk}, Io.{WritesAtMost, KnownBytes.WriteAppends}};

use std::alloc::Global;
use std::io;
use std::io::{ErrorKind, Write};

/// A writer that takes bytes in pieces of one size, and fails after a number of bytes: at each write from
/// then on, or once.
///
/// The error is an interrupted write, which the standard library's own loops would try again.
#[derive(Drop)]
pub struct CutWriter {
    /// The bytes that were taken.
    taken: Vec<u8>,
    /// The greatest number of bytes that one write takes.
    piece: usize,
    /// How many bytes are taken before it fails.
    room: usize,
    /// Whether it goes on after it failed once, and then takes any number of bytes.
    once: bool,
    /// Whether it has failed for want of room.
    faulted: bool,
    /// How often it was written to after that, at most 2^64-1.
    after: u64,
    // Each write takes something, so a loop over writes ends.
    ghost some: { 0 < piece },
}

impl CutWriter {
    ghost use Rattle.xa_lines.specs.Cut.{taken_by, piece_into, room_in, goes_on_writing, has_refused, writes_after};

    /// Returns a writer that takes at most `piece` bytes at a time, and `room` bytes in all. After these it
    /// fails at each write.
    ///
    /// `piece` is at least 1.
    ///
    /// Takes no memory. Doesn't wait.
    pub fn new(alloc: Global, piece: usize, room: usize) -> CutWriter
        requires { 0 < piece }
        ensures empty { taken_by result ≡ [] }
        ensures piece { piece_into result ≡ piece }
        ensures room { room_in result ≡ room }
        ensures each_time { goes_on_writing result ≡ false }
        ensures fresh { (has_refused result ≡ false) × (writes_after result ≡ 0) }
    {
        CutWriter {
            taken: Vec::new(alloc),
            piece,
            room,
            once: false,
            faulted: false,
            after: 0,
        }
    }

    /// Returns such a writer that fails at one write only. The writes after that are taken.
    ///
    /// `piece` is at least 1.
    ///
    /// Takes no memory. Doesn't wait.
    pub fn once(alloc: Global, piece: usize, room: usize) -> CutWriter
        requires { 0 < piece }
        ensures empty { taken_by result ≡ [] }
        ensures piece { piece_into result ≡ piece }
        ensures room { room_in result ≡ room }
        ensures once { goes_on_writing result ≡ true }
        ensures fresh { (has_refused result ≡ false) × (writes_after result ≡ 0) }
    {
        let mut writer = CutWriter::new(alloc, piece, room);
        writer.once = true;
        writer
    }

    /// Returns the bytes that it took.
    ///
    /// Takes no memory. Doesn't wait.
    pub fn as_slice(&self) -> &[u8]
        ensures { result.now ≡ taken_by self.now }
    {
        self.taken.as_slice()
    }

    /// Returns how often it was written to after it first failed for want of room.
    ///
    /// Takes no memory. Doesn't wait.
    pub fn writes_after_a_fault(&self) -> u64
        ensures { result ≡ writes_after self.now }
    {
        self.after
    }
}

impl Write for CutWriter {
    ghost use Rattle.xa_lines.specs.Cut.{taken_by, piece_into, room_in, goes_on_writing, has_refused, writes_after};
    ghost use Rattle.xa_lines.specs.Cut.{refuses_next, takes_next};

    ghost contents = { λ writer. Some (taken_by writer) };

    /// Takes as much of `buf` as there is room for, at most a piece. If no room is left it fails, even for an empty
    /// `buf`: at each write, or if `once` made it, only at the first, after which room doesn't matter. It also fails if
    /// memory is refused. Counts the writes after the first that failed for want of room.
    fn write(&mut self, buf: &[u8]) -> io::Result<usize>
        ensures bound { WritesAtMost result buf.now }
        ensures bytes { WriteAppends (Some (taken_by self.old)) (Some (taken_by self.new)) result buf.now }
        ensures piece { IfOk result (λ count. count ≡ min (min (length buf.now) (piece_into self.old))
            (takes_next self.old (length buf.now))) }
        ensures room { IfOk result (λ count. room_in self.new ≡ room_in self.old - count) }
        ensures refused { IsTrue (refuses_next self.old) → IsErr result }
        ensures kept { (piece_into self.new ≡ piece_into self.old)
            × (goes_on_writing self.new ≡ goes_on_writing self.old) }
        ensures faulted { has_refused self.new ≡ (has_refused self.old || refuses_next self.old) }
        ensures after { has_refused self.old ≡ false → writes_after self.new ≡ writes_after self.old }
        ensures more { IsTrue (has_refused self.old) → writes_after self.new
            ≡ min (writes_after self.old + 1) (2 ^ 64 - 1) }
    {
        if self.faulted {
            self.after = self.after.saturating_add(1);
        }
        let passed = self.once && self.faulted;
        // No room is left, and it fails each time, or hasn't failed yet. A writer that fails once takes any number of
        // bytes after that.
        if self.room == 0 && !passed {
            self.faulted = true;
            return Err(ErrorKind::Interrupted.into());
        }
        let most = if passed { buf.len() } else { self.room };
        let count = buf.len().min(self.piece).min(most);
        self.taken.extend_from_slice(&buf[..count])?;
        // After its one failure a writer takes more than there is room for: 0 stays 0.
        self.room = self.room.saturating_sub(count);
        Ok(count)
    }

    /// Does nothing: nothing is buffered.
    fn flush(&mut self) -> io::Result<()> {
        Ok(())
    }
}
