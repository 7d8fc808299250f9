//! A writer that reports why a write failed.
ghost use Rattle.std.specs.{Prelude.◌≡◌, Io.{WritesAtMost, KnownBytes.{WriteAppends, Keeps}}};

use std::io;
use std::io::Write;

/// A writer that reports on the standard error why a write failed, once, if `speaks`. Why `inner` can't be flushed
/// isn't reported.
#[derive(Drop)]
pub struct Spoken<'r, W: Write + Drop, R> {
    /// The writer that is written to.
    inner: W,
    /// The runtime whose standard error is written to.
    rt: &'r R,
    /// Whether a failed write is still to be reported.
    speaks: bool,
}

impl<'r, W: Write + Drop, R: Eprint> Spoken<'r, W, R> {
    /// Returns a writer to `inner` that reports the first write that fails, if `speaks`.
    ///
    /// Takes no memory. Doesn't wait.
    pub fn new(rt: &'r R, inner: W, speaks: bool) -> Spoken<'r, W, R>
        ensures { result.inner ≡ inner }
    {
        Spoken { inner, rt, speaks }
    }

    /// Reports why a write failed, if it `speaks` and didn't do so before.
    fn tell(&mut self, fault: &io::Error)
        ensures { self.new.inner ≡ self.old.inner }
    {
        if self.speaks {
            let _ = eprintln!(self.rt; "xa_script: can't write the output: {fault}");
            self.speaks = false;
        }
    }
}

impl<'r, W: Write + Drop, R: Eprint> Write for Spoken<'r, W, R> {
    ghost contents = { λ writer. W.contents writer.inner };

    fn write(&mut self, buf: &[u8]) -> io::Result<usize>
        ensures bound { WritesAtMost result buf.now }
        ensures bytes { WriteAppends (W.contents self.old.inner) (W.contents self.new.inner) result buf.now }
    {
        let written = self.inner.write(buf);
        if let Err(fault) = &written {
            self.tell(fault);
        }
        written
    }

    fn flush(&mut self) -> io::Result<()>
        ensures { Keeps (W.contents self.old.inner) (W.contents self.new.inner) }
    {
        self.inner.flush()
    }
}
