//! The entry that C gets: `nigbaru_entry`.

/// The entry that C gets: `nigbaru_entry` of `include/nigbaru.h`.
#[repr(C)]
#[derive(Drop)]
pub struct Handed {
    /// The number of the entry's session, or 0 if there is no entry.
    pub number: u64,
    /// How many bytes of `text` are the statement's.
    pub length: u64,
    /// How many entries are counted as lost (`Next::Lost`), or 0.
    pub lost: u64,
    /// The statement's canonical text in the first `length` bytes, and zeros after it.
    pub text: [u8; 304],
}
