//! The statuses, as `include/nigbaru.h` has them. The header's own functions return two more, 14 and 15, before they
//! call this crate.

/// The call was carried out, or the reply is OK.
pub(crate) const OK: u32 = 0;

/// The reply is the value of a row.
pub(crate) const VALUE: u32 = 1;

/// The reply is that the row has no value; of following, that all entries were handed out.
pub(crate) const NONE: u32 = 2;

/// The reply is a list of prepared branches.
pub(crate) const LIST: u32 = 3;

/// The server refused the statement.
pub(crate) const REFUSED: u32 = 4;

/// Another session appended first.
pub(crate) const OVERTAKEN: u32 = 5;

/// An allocation failed, or the history has more than 2^59 entries.
pub(crate) const NO_MEMORY: u32 = 7;

/// The text is no statement.
pub(crate) const SYNTAX: u32 = 8;

/// The handle is empty, or holds a store for a session or a session for a store.
pub(crate) const NO_HANDLE: u32 = 9;

/// A number is out of its range, or a formatID above 2^63 - 1.
pub(crate) const OUT_OF_RANGE: u32 = 10;

/// Somebody has the session of this number, or is just giving it back.
pub(crate) const NO_SESSION: u32 = 11;

/// The handle that is to be filled holds something.
pub(crate) const HELD: u32 = 13;

/// Entries that the session needs were lost, and no checkpoint helped; of following, that entries are counted as lost.
pub(crate) const BEHIND: u32 = 16;
