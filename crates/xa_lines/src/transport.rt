//! A client over streams.
ghost use Rattle.std.specs.Prelude.{◌≡◌, ◌≢◌, ◌⊎◌, [], take, MatchResult, IfOk, IfErr, OnOk, OnErr};
ghost use Rattle.std.specs.Io.{ReadsAtMost, WritesAtMost, KnownBytes.{Appends, Keeps, ReadConsumes, WriteAppends}};
ghost use Rattle.std.specs.{Io.Buffered.{writer_buffer, writer_contents}, IoError.error_kind};
ghost use Rattle.xa_lines.specs.{Transcript.AppendsPrefix, Trying.{IsTry, HasTried, StopsTrying}};

use crate::{Client, LineServer, PieceReader, PieceWriter};
use std::io;
use std::io::{BufWriter, ErrorKind, Read, Write};

/// Writes once, and returns how many bytes were taken: 0 if the write was interrupted, which is no error here.
///
/// Errors: any other error of the write, and a write that took nothing.
fn give_once<W: PieceWriter>(writer: &mut W, text: &[u8]) -> io::Result<usize>
    ensures bound { WritesAtMost result text.now }
    ensures taken { WriteAppends (W.contents writer.old) (W.contents writer.new) result text.now }
    ensures tried { IfOk result (λ count. IsTry W.takes W.interrupts writer.old (take count text.now) writer.new) }
    ensures refused { OnErr result (W.refuses writer.old writer.new ⊎ W.takes writer.old [] writer.new) }
    ensures retried { IfErr result (λ fault. error_kind fault ≢ ErrorKind.Interrupted) }
{
    match writer.write_piece(text) {
        Ok(0) => Err(ErrorKind::WriteZero.into()),
        Ok(count) => Ok(count),
        Err(fault) => {
            // Nothing was written, and the write may be made again.
            if fault.kind() == ErrorKind::Interrupted {
                return Ok(0);
            }
            Err(fault)
        }
    }
}

/// Gives all of the text to a writer, and tries again if a write is interrupted.
///
/// Errors: any other error of a write, and a write that took nothing, which aren't tried again; and after
/// 2 ^ 64 - 1 writes. A prefix of the text was then taken, and nothing more.
fn give<W: PieceWriter>(writer: &mut W, text: &[u8]) -> io::Result<()>
    ensures all { OnOk result (Appends (W.contents writer.old) (W.contents writer.new) text.now) }
    ensures prefix { OnErr result (AppendsPrefix (W.contents writer.old) (W.contents writer.new) text.now) }
    ensures calls { MatchResult result
        (λ _. HasTried W.takes W.interrupts writer.old text.now writer.new)
        (λ _. StopsTrying W.takes W.interrupts W.refuses writer.old text.now writer.new) }
    ensures retried { IfErr result (λ fault. error_kind fault ≢ ErrorKind.Interrupted) }
{
    let mut written = 0;
    // With a bound the loop is known to end, also if each write is interrupted.
    for _try in 0..u64::MAX {
        if written >= text.len() {
            return Ok(());
        }
        let count = give_once(writer, &text[written..])?;
        written += count;
    }
    // No try is left. The kind isn't `Interrupted`, after which a caller might begin again.
    Err(ErrorKind::TimedOut.into())
}

/// A client over two streams: it sends what a reader gives, and its answers go to a writer.
///
/// A read that is interrupted is an error. A write that is interrupted is tried again, as the standard
/// library's buffer does.
/// After an error of a write or a flush, only a prefix of the text was given.
#[derive(Drop)]
pub struct Transport<R: Read + Drop, W: Write + Drop> {
    reader: R,
    writer: BufWriter<W>,
}

impl<R: Read + Drop, W: Write + Drop> Transport<R, W> {
    /// Returns a client over these streams. Answers are gathered in the writer's buffer, and written when that is full
    /// and at each flush.
    ///
    /// Takes no memory. Doesn't wait.
    pub fn new(reader: R, writer: BufWriter<W>) -> Transport<R, W>
        ensures reader { result.reader ≡ reader }
        ensures writer { result.writer ≡ writer }
    {
        Transport { reader, writer }
    }
}

impl<S: LineServer, R: PieceReader + Drop, W: Write + Drop> Client<S> for Transport<R, W> {
    /// Reads once from the reader. An interrupted read is an error, too.
    fn receive(&mut self, piece: &mut [u8]) -> io::Result<usize>
        ensures bound { ReadsAtMost result piece.new }
        ensures bytes { ReadConsumes (R.remaining self.old.reader) (R.remaining self.new.reader) result piece.new }
        // Proved (scripts, one-read-each): A client over streams reads once at each call, so it reads the end
        //   only once.
        ensures once { MatchResult result (λ count. R.gives self.old.reader (take count piece.new) self.new.reader)
            (λ _. R.fails self.old.reader self.new.reader) }
        ensures writer { self.new.writer ≡ self.old.writer }
    {
        self.reader.read_piece(piece)
    }

    /// Gives all of the text to the writer, as `give` does. The writer's buffer may hold some of the text until the
    /// next flush.
    fn tell(&mut self, text: &[u8]) -> io::Result<()>
        ensures bytes { OnOk result (Appends (writer_contents W.contents self.old.writer)
            (writer_contents W.contents self.new.writer) text.now) }
        ensures prefix { OnErr result
            (AppendsPrefix (writer_contents W.contents self.old.writer)
            (writer_contents W.contents self.new.writer) text.now) }
        // Proved (scripts, interrupted-writes): No fault of telling a client over streams says that a write was
        //   interrupted.
        ensures retried { IfErr result (λ fault. error_kind fault ≢ ErrorKind.Interrupted) }
        ensures reader { self.new.reader ≡ self.old.reader }
    {
        give(&mut self.writer, text)
    }

    /// Writes what the writer's buffer holds, and flushes the writer.
    fn flush(&mut self) -> io::Result<()>
        ensures bytes { Keeps (writer_contents W.contents self.old.writer)
            (writer_contents W.contents self.new.writer) }
        ensures flushed { OnOk result (writer_buffer self.new.writer ≡ []) }
        ensures reader { self.new.reader ≡ self.old.reader }
    {
        self.writer.flush()
    }
}
