//! Readers and writers whose calls a contract can name one by one.
ghost use Rattle.std.specs.{Prelude.{◌≡◌, ℕ, List, take, IfErr, MatchResult}, Io.{ReadsAtMost, WritesAtMost}};
ghost use Rattle.std.specs.{Io.KnownBytes.{Appends, Consumes, Keeps, ReadConsumes, WriteAppends}, IoError.error_kind};

use std::io;
use std::io::{ErrorKind, Read, Write};

/// A reader whose reads a contract can name one by one. Every reader is one.
///
/// Own rule: docs/COMMANDS.md#scripts.
pub trait PieceReader: Read {
    // In the first state a read may give these bytes (none at the end), and leave the reader in the last.
    ghost gives: { Self → List ℕ → Self → Type 0 };

    // In the first state a read may fail, and the reader is then in the last state.
    ghost fails: { Self → Self → Type 0 };

    /// Reads once.
    ///
    /// Errors: the reader's own. Takes no memory. Doesn't wait, unless the reader does.
    fn read_piece(&mut self, piece: &mut [u8]) -> io::Result<usize>
        ensures bound { ReadsAtMost result piece.new }
        ensures bytes { ReadConsumes (Self.remaining self.old) (Self.remaining self.new) result piece.new }
        ensures told { MatchResult result (λ count. gives self.old (take count piece.new) self.new)
            (λ _. fails self.old self.new) };
}

impl<R: Read> PieceReader for R {
    ghost gives = { λ old bytes new. Consumes (R.remaining old) (R.remaining new) bytes };

    ghost fails = { λ old new. Keeps (R.remaining old) (R.remaining new) };

    fn read_piece(&mut self, piece: &mut [u8]) -> io::Result<usize> {
        self.read(piece)
    }
}

/// A writer whose writes a contract can name one by one. Every writer is one.
///
/// Own rule: docs/COMMANDS.md#scripts.
pub trait PieceWriter: Write {
    // In the first state a write may take these bytes, and the writer is then in the last state.
    ghost takes: { Self → List ℕ → Self → Type 0 };

    // In the first state a write may fail, and the writer is then in the last state.
    ghost refuses: { Self → Self → Type 0 };

    // In the first state a write may be interrupted, and the writer is then in the last state.
    ghost interrupts: { Self → Self → Type 0 };

    /// Writes once.
    ///
    /// Errors: the writer's own. Takes no memory. Doesn't wait, unless the writer does.
    fn write_piece(&mut self, bytes: &[u8]) -> io::Result<usize>
        ensures bound { WritesAtMost result bytes.now }
        ensures bytes { WriteAppends (Self.contents self.old) (Self.contents self.new) result bytes.now }
        ensures told { MatchResult result (λ count. takes self.old (take count bytes.now) self.new)
            (λ _. refuses self.old self.new) }
        ensures interrupted { IfErr result (λ fault. error_kind fault ≡ ErrorKind.Interrupted
            → interrupts self.old self.new) };
}

impl<W: Write> PieceWriter for W {
    ghost takes = { λ old bytes new. Appends (W.contents old) (W.contents new) bytes };

    ghost refuses = { λ old new. Keeps (W.contents old) (W.contents new) };

    ghost interrupts = { λ old new. Keeps (W.contents old) (W.contents new) };

    fn write_piece(&mut self, bytes: &[u8]) -> io::Result<usize> {
        self.write(bytes)
    }
}
