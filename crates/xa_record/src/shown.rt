//! What returns show.

use xa_xid::Bytes;

/// What a return shows, as its lines say it. A value and a list are in boxes of their own, so that they take no
/// room in other lines.
#[derive(Drop)]
pub enum Shown<'a> {
    /// The statement was carried out.
    Ok,
    /// The row that was read has no value.
    None,
    /// The value of the row that was read.
    Value(Box<Bytes>),
    /// The texts of the identifiers of prepared branches, in the order of their lines.
    Rows(Box<Vec<&'a [u8]>>),
    /// A refusal with this number.
    Error(u16),
}
