//! The identifier of a transaction branch.
ghost use Rattle.std.specs.Prelude.{◌≡◌, Ok};

use crate::{Bytes, copy_of};

/// The identifier of a transaction branch: it names the global transaction, and the branch of it.
///
/// Two identifiers are the same if all three parts are, so `'ab','c'` and `'a','bc'` differ. They are
/// ordered by formatID, then gtrid, then bqual. Texts are ordered by their bytes; if one begins the other,
/// the shorter is first.
///
/// Source: MySQL 8.0 Reference Manual, 'XA Transaction SQL Statements'; X/Open C193, the structure `XID`.
/// The range of formatID, the empty gtrid and the order are our own rule: docs/STATEMENTS.md#identifiers.
#[derive(Clone, Debug, Drop, PartialEq, Eq, PartialOrd, Ord)]
pub struct Xid {
    /// The convention that the two texts follow, in `[0, 2^64)`; 1 if a statement doesn't give it.
    pub format_id: u64,
    /// The global transaction, 0 to 64 bytes.
    pub gtrid: Bytes,
    /// The branch qualifier, 0 to 64 bytes.
    pub bqual: Bytes,
}

impl Xid {
    /// Returns a copy of the identifier.
    ///
    /// Takes no memory. Doesn't wait.
    pub fn copy(&self) -> Xid
        // Proved (statements, copies)
        ensures { result ≡ self.now }
    {
        Xid {
            format_id: self.format_id,
            gtrid: copy_of(&self.gtrid),
            bqual: copy_of(&self.bqual),
        }
    }
}
