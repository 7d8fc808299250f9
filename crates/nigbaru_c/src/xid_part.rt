//! An identifier as X/Open lays it out.

/// An identifier as X/Open lays it out.
///
/// Source: X/Open C193, the structure `XID`.
#[repr(C)]
#[derive(Drop)]
pub struct XidPart {
    /// The formatID: which convention the bytes follow.
    pub format_id: i64,
    /// How many of the bytes are the gtrid's.
    pub gtrid_length: i64,
    /// How many of the bytes after them are the bqual's.
    pub bqual_length: i64,
    /// The bytes.
    pub data: [u8; 128],
}
