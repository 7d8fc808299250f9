//! A client for tests.
ghost use Rattle.std.specs.{Prelude.{◌≡◌, ◌+◌, ◌<◌, ◌≤◌, false, length, Some, IfOk, IsErr, OnOk}, Io.ReadsAtMost};
ghost use Rattle.std.specs.Io.KnownBytes.{ReadConsumes};
ghost use Rattle.xa_lines.specs.Cut.{left_in, piece_of, reads_left_in, goes_on_behind, taken_by, room_in};
ghost use Rattle.xa_lines.specs.Cut.{goes_on_writing};

use crate::{Client, CutReader, CutWriter, LineServer, Stage};
use std::alloc::Global;
use std::io;
use std::io::{ErrorKind, Read, Write};

/// A client that sends bytes in pieces, and keeps what it is given. It fails after a number of reads, and
/// after it took a number of bytes.
#[derive(Drop)]
pub struct Recorded<'a> {
    /// Gives what it sends.
    reader: CutReader<'a>,
    /// Takes what it is given.
    writer: CutWriter,
    /// What it has sent, which the server has received.
    received: Vec<u8>,
    /// How many bytes were flushed to it: those that the writer had taken at the last flush.
    told: usize,
    /// Whether it may send more, or what ended that.
    stage: Stage,
    // No more was told than the writer took.
    ghost within: { told ≤ length (taken_by writer) },
    // Once the streams have faulted they fault each time.
    ghost each_time: { (goes_on_behind reader ≡ false) × (goes_on_writing writer ≡ false) },
}

impl<'a> Recorded<'a> {
    ghost use Rattle.xa_lines.specs.{Recorded.exchange_of, Exchange.IsFresh};

    /// Returns a client that sends these bytes, at most `piece` at a time. It fails at each read after the
    /// first `reads`, and takes `room` bytes in all.
    ///
    /// `piece` is at least 1.
    ///
    /// Takes no memory. Doesn't wait.
    pub fn new(
        alloc: Global,
        bytes: &'a [u8],
        piece: usize,
        reads: u64,
        room: usize,
    ) -> Recorded<'a>
        requires { 0 < piece }
        ensures fresh { IsFresh (exchange_of result) }
        ensures bytes { left_in result.reader ≡ bytes.now }
        ensures piece { piece_of result.reader ≡ piece }
        ensures reads { reads_left_in result.reader ≡ reads }
        ensures room { room_in result.writer ≡ room }
    {
        Recorded {
            reader: CutReader::new(bytes, piece, reads),
            // What it is given isn't cut into pieces.
            writer: CutWriter::new(alloc, usize::MAX, room),
            received: Vec::new(alloc),
            told: 0,
            stage: Stage::Open,
        }
    }

    /// Returns what was flushed to it.
    ///
    /// Takes no memory. Doesn't wait.
    pub fn told(&self) -> &[u8]
        ensures { result.now ≡ (exchange_of self.now).told }
    {
        &self.given()[..self.told]
    }

    /// Returns what it was given, flushed or not.
    ///
    /// Takes no memory. Doesn't wait.
    pub fn given(&self) -> &[u8]
        ensures { result.now ≡ (exchange_of self.now).given }
    {
        self.writer.as_slice()
    }
}

impl<'a, S: LineServer> Client<S> for Recorded<'a> {
    ghost use Rattle.xa_lines.specs.{Recorded.exchange_of, Exchange.{Receives, WritesText, Flushes}};

    ghost exchange = { λ client. Some (exchange_of client) };

    /// Gives what the client sends next, and keeps a copy of it. Returns 0 at the end. If a read fails, or memory for
    /// the copy is refused, the client is deaf from then on.
    fn receive(&mut self, piece: &mut [u8]) -> io::Result<usize>
        requires open { self.old.stage ≡ Stage.Open }
        ensures bound { ReadsAtMost result piece.new }
        ensures received { Receives (Some (exchange_of self.old)) (Some (exchange_of self.new)) result piece.new }
        ensures bytes { ReadConsumes (Some (left_in self.old.reader))
            (Some (left_in self.new.reader)) result piece.new }
        ensures piece { IfOk result (λ count. count ≤ piece_of self.old.reader) }
        ensures reads { OnOk result (reads_left_in self.old.reader ≡ reads_left_in self.new.reader + 1) }
        ensures deaf { reads_left_in self.old.reader ≡ 0 → IsErr result }
        ensures kept { (piece_of self.new.reader ≡ piece_of self.old.reader) × (self.new.writer ≡ self.old.writer) }
    {
        // The room is taken before the read, so that nothing is read that can't be kept.
        if self.received.reserve(piece.len()).is_err() {
            self.stage = Stage::Deaf;
            return Err(ErrorKind::OutOfMemory.into());
        }
        match self.reader.read(piece) {
            Ok(count) => {
                // The room was taken above, so this can't fail.
                self.received.extend_from_slice(&piece[..count]).unwrap();
                if count == 0 {
                    self.stage = Stage::Ended;
                }
                Ok(count)
            }
            Err(fault) => {
                self.stage = Stage::Deaf;
                Err(fault)
            }
        }
    }

    /// Takes all of the text, in one write. If the write fails, or takes less, the client is mute from then on.
    fn tell(&mut self, text: &[u8]) -> io::Result<()>
        ensures told { WritesText (Some (exchange_of self.old)) (Some (exchange_of self.new)) result text.now }
        ensures room { OnOk result (room_in self.old.writer ≡ room_in self.new.writer + length text.now) }
        ensures kept { self.new.reader ≡ self.old.reader }
    {
        // A writer without room would fail, though nothing is to be taken.
        if text.is_empty() {
            return Ok(());
        }
        match self.writer.write(text) {
            Ok(count) if count >= text.len() => Ok(()),
            // Only a part of the text was taken, so the client never hears the rest: a fault, of the kind that a full
            // writer returns.
            Ok(_) => {
                self.stage = Stage::Mute;
                Err(ErrorKind::Interrupted.into())
            }
            Err(fault) => {
                self.stage = Stage::Mute;
                Err(fault)
            }
        }
    }

    /// Notes that all that was given so far is told. It never fails.
    fn flush(&mut self) -> io::Result<()>
        ensures flushed { Flushes (Some (exchange_of self.old)) (Some (exchange_of self.new)) result }
        ensures kept { (self.new.reader ≡ self.old.reader) × (self.new.writer ≡ self.old.writer) }
    {
        self.told = self.writer.as_slice().len();
        Ok(())
    }
}
