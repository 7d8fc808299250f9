//! Why a line isn't read.

use xa_record::LineGap;

/// Why a line isn't read, for the job that reads it.
#[derive(Clone, Copy, Debug, PartialEq, Eq)]
pub enum LineFault<'a> {
    /// It doesn't begin with the number of a session.
    NoSession,
    /// This text of it isn't a statement, from this byte of the text on, counted from 0.
    NoStatement(&'a [u8], u64),
    /// It isn't a call.
    NoCall,
    /// It isn't a call that `stops` takes.
    NoStopped,
    /// It gives a statement that `WORK` doesn't take.
    NoWork,
    /// It isn't a line of a record, or not a row where one is due, from this place on.
    NoRecord(LineGap),
    /// It is too long.
    TooLong,
}
