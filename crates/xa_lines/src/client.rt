//! A client of a server of lines.
ghost use Rattle.std.specs.{Prelude.{◌≡◌, ◌<◌, Option, Some, None, length, IfSome}, Io.ReadsAtMost};

use crate::LineServer;
use std::io;

/// A client of a server of lines. It sends lines, and is sent their answers.
///
/// The server has to send, and flush, the answers to all whole lines before it receives more.
/// Own rule: docs/COMMANDS.md#serve.
pub trait Client<S: LineServer> {
    ghost use Rattle.xa_lines.specs.{Exchange.{Exchange, Receives, WritesText, Flushes, CanBeTold}, Served.AwaitsMore};

    // What has passed between client and server so far, if that is known.
    ghost exchange: { Self → Option Exchange } = { λ _. None };

    /// Receives what the client sends next, and returns how many bytes that are. It returns 0 only at the
    /// end.
    ///
    /// Errors: the client's own. Waits for the client.
    fn receive(&mut self, piece: &mut [u8]) -> io::Result<usize>
        requires room { 0 < length piece.old }
        // Proved (scripts, answered-before-more): `serve` receives from a client only after the answers to
        //   all whole lines that it has received are given and flushed. This also holds in a conversation
        //   that never ends.
        requires answered { IfSome (exchange self.old) (AwaitsMore S.begins S.answers) }
        ensures bound { ReadsAtMost result piece.new }
        ensures received { Receives (exchange self.old) (exchange self.new) result piece.new };

    /// Gives all of the text to the client. It may be buffered until the next flush.
    ///
    /// Errors: the client's own. After an error nothing more is given to the client.
    fn tell(&mut self, text: &[u8]) -> io::Result<()>
        requires { IfSome (exchange self.old) CanBeTold }
        ensures { WritesText (exchange self.old) (exchange self.new) result text.now };

    /// Flushes all that was given to the client.
    ///
    /// Errors: the client's own. After an error nothing more is given to the client. Waits for the client.
    fn flush(&mut self) -> io::Result<()>
        requires { IfSome (exchange self.old) CanBeTold }
        ensures { Flushes (exchange self.old) (exchange self.new) result };
}
