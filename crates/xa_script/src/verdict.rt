//! The verdict on one of several records.

/// The verdict on one of several records.
#[derive(Drop)]
pub struct Verdict {
    /// The exit status for it: 0 if the record is LEGAL.
    pub status: u8,
    /// What is written for the record alone.
    pub text: Vec<u8>,
}
