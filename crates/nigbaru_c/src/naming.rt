//! What the arguments of a call name: an identifier, a key, or a value.
ghost use Rattle.std.specs.Prelude.{◌≡◌};
ghost use Rattle.nigbaru_c.specs.Naming.{key_named, value_named, xid_named};

use crate::XidPart;
use xa_xid::{Bytes, Key, Xid};

/// The value of these bytes, or `None` if they are more than 64.
pub(crate) fn value_of(bytes: &[u8]) -> Option<Bytes>
    ensures { result ≡ value_named bytes.now }
{
    let mut value = Bytes::new();
    match value.try_extend_from_slice(bytes) {
        Ok(()) => Some(value),
        Err(_) => None,
    }
}

/// The key of these bytes, or `None` if they aren't 1 to 64.
pub(crate) fn key_of(bytes: &[u8]) -> Option<Key>
    ensures { result ≡ key_named bytes.now }
{
    match value_of(bytes) {
        Some(bytes) => Key::of(bytes),
        None => None,
    }
}

/// The identifier that X/Open's parts name, or `None` if the formatID is negative or a length isn't in `[0, 64]`.
pub(crate) fn xid_of(part: &XidPart) -> Option<Xid>
    ensures { result ≡ xid_named part.now }
{
    let (gtrid, bqual) = (part.gtrid_length, part.bqual_length);
    // A negative formatID is that of no identifier.
    if part.format_id < 0 || gtrid < 0 || gtrid > 64 || bqual < 0 || bqual > 64 {
        return None;
    }
    let middle = gtrid as usize;
    let end = middle + bqual as usize;
    match (
        value_of(&part.data[..middle]),
        value_of(&part.data[middle..end]),
    ) {
        (Some(gtrid), Some(bqual)) => Some(Xid {
            format_id: part.format_id as u64,
            gtrid,
            bqual,
        }),
        // Neither is longer than 64 bytes, so this is never so.
        _ => None,
    }
}
