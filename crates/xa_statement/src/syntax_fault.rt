//! The place where a text stops being a statement.

use thiserror::Error;

/// The text isn't a statement.
///
/// Own rule: docs/STATEMENTS.md#fault-places.
#[derive(Clone, Copy, Debug, Drop, PartialEq, Eq, Error)]
#[error("syntax fault at byte {at}")]
pub struct SyntaxFault {
    /// The place, counted from 0, of the first byte of the first token with which no statement can go on.
    /// If the text ends too soon, it is the text's length.
    pub at: u64,
}
