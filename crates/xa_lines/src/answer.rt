//! The answer to a line.
ghost use Rattle.std.specs.Prelude.{◌≡◌};

use arrayvec::ArrayVec;

/// The answer to a line, with its line feed. It is empty for a line that has no answer.
#[derive(Drop)]
pub enum Answer {
    /// A text of any length.
    Text(Vec<u8>),
    /// A text of at most 160 bytes, which takes no memory. Each answer to a statement fits except a list, with 16 bytes
    /// to spare.
    Short(ArrayVec<u8, 160>),
}

impl Answer {
    ghost use Rattle.xa_lines.specs.Answer.{bytes_of};

    /// Returns the bytes of the answer.
    ///
    /// Takes no memory. Doesn't wait.
    pub fn as_slice(&self) -> &[u8]
        ensures { result.now ≡ bytes_of self.now }
    {
        match self {
            Answer::Text(text) => text.as_slice(),
            Answer::Short(text) => text.as_slice(),
        }
    }
}
