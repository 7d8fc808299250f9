//! Why a token isn't the one that is expected at its place.
ghost use Rattle.std.specs.Prelude.{◌≡◌};
ghost use Rattle.xa_xid.specs.Faults.{number_of_literal_fault};

use thiserror::Error;

/// Why a literal or a formatID wasn't read.
///
/// Own rule: docs/STATEMENTS.md#literals.
#[derive(Clone, Copy, Debug, Drop, PartialEq, Eq, Error)]
pub enum LiteralFault {
    /// No literal begins there. For a formatID: no number begins there.
    #[error("no literal begins there")]
    NotALiteral,
    /// The closing quote is missing.
    #[error("the closing quote is missing")]
    Unclosed,
    /// There is an odd number of digits between `X'` and `'`.
    #[error("an odd number of hexadecimal digits")]
    OddHex,
    /// The literal stands for more than 64 bytes.
    #[error("more than 64 bytes")]
    TooLong,
    /// The number is above 2^64-1.
    #[error("the number is above 2^64-1")]
    NumberTooLarge,
}

impl LiteralFault {
    /// Returns the fault's number, in `[1, 5]`.
    ///
    /// Takes no memory. Doesn't wait.
    /// Own rule: docs/STATEMENTS.md#literals.
    pub fn number(&self) -> u64
        // Proved (statements, fault-numbers): Each fault of a literal has the number that the table of
        //   faults gives it.
        ensures { result ≡ number_of_literal_fault self.now }
    {
        match self {
            LiteralFault::NotALiteral => 1,
            LiteralFault::Unclosed => 2,
            LiteralFault::OddHex => 3,
            LiteralFault::TooLong => 4,
            LiteralFault::NumberTooLarge => 5,
        }
    }
}
