//! What was seen at an ILLEGAL line, and its call.

/// What was seen at a line, and the call that returned there.
#[derive(Drop)]
pub struct Exchange {
    /// What was seen, as a line of a record in canonical form, without its line feed. Rows are on lines below it.
    pub seen: Vec<u8>,
    /// The number of the call's line, or 0 if there is no call.
    pub line: u64,
    /// The call, as a line of a record in canonical form, without its line feed. Empty if there is none.
    pub call: Vec<u8>,
}
