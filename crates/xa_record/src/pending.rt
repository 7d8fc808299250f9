//! A return of which rows are still to come.

use xa_xid::SessionNo;

/// A return of which rows are still to come.
#[derive(Drop)]
pub struct Pending<'a> {
    /// The session to which they are returned.
    pub session: SessionNo,
    /// The number of the return's line.
    pub number: u64,
    /// How many rows are still to come.
    pub missing: u64,
    /// The texts of the rows that have come, each of an identifier.
    pub rows: Box<Vec<&'a [u8]>>,
    /// What is written for those lines in the place of rows that aren't rows. It comes after what is written
    /// for the return's own line.
    pub faults: Vec<u8>,
}
