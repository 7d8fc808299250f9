//! The answer that C gets: `nigbaru_answer`.

/// The answer that C gets: `nigbaru_answer` of `include/nigbaru.h`.
#[repr(C)]
#[derive(Drop)]
pub struct Told {
    /// How many entries of the history come before the answer; for a text that is no statement, the byte at which it
    /// goes wrong, counted from 0; else 0.
    pub place: u64,
    /// How many bytes of `value` are the row's.
    pub length: u64,
    /// How many identifiers a list has.
    pub count: u64,
    /// The number of the server's error, or 0.
    pub error: u32,
    /// The value of a row.
    pub value: [u8; 64],
}
