//! A server of lines.
ghost use Rattle.std.specs.Prelude.{ℕ, List};

use crate::Answer;
use std::alloc::Global;

/// A server of lines. It answers one after another, and each answer may depend on the lines before.
///
/// A contract sees how it may begin, and how it may answer a line.
/// Own rule: docs/COMMANDS.md#serve.
pub trait LineServer {
    ghost use Rattle.xa_lines.specs.{Received.{Received, Whole, TooLong}, Answer.bytes_of};

    // The server may begin like this.
    ghost begins: { Self → Type 0 };

    // In the first state the line may be answered with the text, and the server is then in the last state.
    ghost answers: { Self → Received → List ℕ → Self → Type 0 };

    /// Answers a line, without its line feed.
    ///
    /// The line has at most 65,536 bytes. A server that is refused memory says so in its answer, which then
    /// takes none.
    fn answer(&mut self, alloc: Global, line: &[u8]) -> Answer
        ensures { answers self.old (Whole line.now) (bytes_of result) self.new };

    /// Answers a line of more than 65,536 bytes.
    fn answer_long(&mut self) -> Answer
        ensures { answers self.old TooLong (bytes_of result) self.new };
}
