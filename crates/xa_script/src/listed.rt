//! What is written for several records, so far.

/// What is written for several records, so far.
#[derive(Drop)]
pub struct Listed {
    /// The text.
    pub text: Vec<u8>,
    /// Whether it is in the Test Anything Protocol.
    pub tap: bool,
    /// How many records were judged.
    pub count: u64,
    /// Of the statuses of the records that were judged, the one that counts, as `worse` says; 0 before the first.
    pub status: u8,
    /// Whether a line of a record had a syntax fault.
    pub faulty: bool,
}
