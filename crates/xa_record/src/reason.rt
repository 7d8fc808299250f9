//! What explains an ILLEGAL verdict.

/// What explains an ILLEGAL verdict.
#[derive(Drop)]
pub struct Reason {
    /// The lines of an order that explains what is before the verdict's line.
    pub order: Vec<u8>,
    /// The store after that order: the lines of its listing.
    pub state: Vec<u8>,
}
