//! Identifiers, texts and lists that are the same.
ghost use Rattle.std.specs.Prelude.{◌≡◌, true};
ghost use Rattle.xa_xid.specs.Xid.{same_xid};
ghost use Rattle.xa_judge.specs.Explained.{same_text, same_values, same_rows};

use xa_server::SharedXid;
use xa_xid::{Bytes, Xid};

/// Whether two identifiers are the same.
fn is_one(left: &Xid, right: &Xid) -> bool
    ensures { result ≡ same_xid left.now right.now }
{
    left.cmp(right).is_eq()
}

/// Tells whether two identifiers are the same.
pub fn is_same_xid(left: &Xid, right: &Xid) -> bool
    ensures exact { result ≡ same_xid left.now right.now }
    ensures same { result ≡ true → left.now ≡ right.now }
{
    is_one(left, right)
}

/// Tells whether two texts have the same bytes.
pub fn is_same_text(left: &Bytes, right: &Bytes) -> bool
    ensures exact { result ≡ same_text left.now right.now }
    ensures same { result ≡ true → left.now ≡ right.now }
{
    left.as_slice() == right.as_slice()
}

/// Tells whether two values are the same, or both are missing (None).
pub fn is_same_value(left: &Option<Bytes>, right: &Option<Bytes>) -> bool
    ensures exact { result ≡ same_values left.now right.now }
    ensures same { result ≡ true → left.now ≡ right.now }
{
    match left {
        None => match right {
            None => true,
            Some(_) => false,
        },
        Some(text) => match right {
            None => false,
            Some(other) => is_same_text(text, other),
        },
    }
}

/// Tells whether two lists have the same identifiers in the same order.
pub fn is_same_rows(left: &[Xid], right: &[Xid]) -> bool
    ensures exact { result ≡ same_rows left.now right.now }
    ensures same { result ≡ true → left.now ≡ right.now }
{
    match left {
        [] => match right {
            [] => true,
            [_, ..] => false,
        },
        [row, rows @ ..] => match right {
            [] => false,
            [xid, xids @ ..] => is_same_xid(row, xid) && is_same_rows(rows, xids),
        },
    }
}

/// Tells whether two lists have the same identifiers in the same order; the second has ones that other lists may own.
pub fn is_same_listed(left: &[Xid], right: &[SharedXid]) -> bool
    ensures exact { result ≡ same_rows left.now right.now }
    ensures same { result ≡ true → left.now ≡ right.now }
{
    match left {
        [] => match right {
            [] => true,
            [_, ..] => false,
        },
        [row, rows @ ..] => match right {
            [] => false,
            [xid, xids @ ..] => is_same_xid(row, xid.xid()) && is_same_listed(rows, xids),
        },
    }
}

/// Tells whether two lists are known to have the same identifiers in the same order.
pub fn is_same_lists(left: &[SharedXid], right: &[SharedXid]) -> bool
    ensures { result ≡ true → left.now ≡ right.now }
{
    match left {
        [] => right.is_empty(),
        [one, rest @ ..] => match right {
            [] => false,
            [other, others @ ..] => {
                is_same_xid(one.xid(), other.xid()) && is_same_lists(rest, others)
            }
        },
    }
}
