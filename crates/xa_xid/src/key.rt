//! The key of a row.
ghost use Rattle.std.specs.Prelude.{◌≡◌, ◌<◌, ◌≤◌, ◌↔◌, length, slice_index, Some, IsSome, IfSome, nat_eq, refl, ⊤};
ghost use Rattle.std.specs.Cmp.{partial_equiv_from_equiv};
ghost use Rattle.std.specs.Cmp.Lexicographic.{pointwise, nat_list_eq_equiv, nat_list_cmp_total, texts_po, texts_ties};
ghost use Rattle.xa_xid.specs.{Head.head_of, Limits.text_bytes, Xid.bytes_cmp};

use crate::laws::are_bytes;
use crate::{Bytes, NoMemory, copy_of};
use std::cmp::Ordering;
use std::marker::Model;

/// The key of a row: 1 to 64 bytes. A contract sees it as the list of its bytes.
///
/// Keys are ordered by their bytes; if one key begins another, the shorter one comes first.
///
/// Own rule: docs/STATEMENTS.md#rows-and-locks.
#[derive(Debug, Drop)]
pub struct Key {
    /// The first eight bytes as one number. It decides most comparisons of keys, and a search among rows is mostly
    /// comparisons.
    head: u64,
    /// The key, 1 to 64 bytes.
    bytes: Bytes,
}

impl Model for Key {
    ghost use Rattle.std.specs.Prelude.{ℕ, List, ◌≡◌, ◌<◌, length};
    ghost use Rattle.xa_xid.specs.Head.{head_of};

    ghost Value = { List ℕ };

    ghost view = { λ k. k.bytes.items };

    ghost invariant = { λ k. (0 < length k.bytes.items) × (k.head ≡ head_of k.bytes.items) };
}

/// Returns the byte at the index `place` of a text, or 0 past the text's end.
fn byte_or_zero(text: &[u8], place: usize) -> u8
    ensures { result ≡ slice_index text.now place }
{
    if place < text.len() { text[place] } else { 0 }
}

/// Returns the first eight bytes of a text as one number: the first byte is the highest, missing bytes are
/// zeros.
#[tactic(auto, unfolding(crate::specs::Head::head_of))]
fn head_of(text: &[u8]) -> u64
    ensures { result ≡ head_of text.now }
{
    u64::from_be_bytes([
        byte_or_zero(text, 0),
        byte_or_zero(text, 1),
        byte_or_zero(text, 2),
        byte_or_zero(text, 3),
        byte_or_zero(text, 4),
        byte_or_zero(text, 5),
        byte_or_zero(text, 6),
        byte_or_zero(text, 7),
    ])
}

/// Compares two texts whose heads are equal: their first eight bytes, with zeros for missing ones. If one of the texts
/// has at most eight bytes, the shorter text is the longer one's beginning, so the lengths decide.
fn order_behind(left: &[u8], right: &[u8]) -> Ordering
    requires { head_of left.now ≡ head_of right.now }
    ensures { result ≡ bytes_cmp left.now right.now }
{
    are_bytes(left);
    are_bytes(right);
    // A head has zeros for missing bytes. So where one text ends within equal heads, the longer text goes on
    // with zeros there, and the shorter one is its beginning.
    if left.len() <= 8 {
        return left.len().cmp(&right.len());
    }
    if right.len() <= 8 {
        return left.len().cmp(&right.len());
    }
    // Both have eight bytes, and these are equal. What is left to compare is mostly short, so it is compared byte by
    // byte.
    for place in 8..left.len().min(right.len()) {
        if left[place] < right[place] {
            return Ordering::Less;
        }
        if right[place] < left[place] {
            return Ordering::Greater;
        }
    }
    left.len().cmp(&right.len())
}

/// Compares two texts by their bytes. Their heads, as `head_of` returns them, are given, and decide if they differ.
fn order_of(left_head: u64, left: &[u8], right_head: u64, right: &[u8]) -> Ordering
    requires left { left_head ≡ head_of left.now }
    requires right { right_head ≡ head_of right.now }
    ensures { result ≡ bytes_cmp left.now right.now }
{
    if left_head < right_head {
        return Ordering::Less;
    }
    if right_head < left_head {
        return Ordering::Greater;
    }
    order_behind(left, right)
}

impl Key {
    /// Makes a key of these bytes, or returns `None` if there are none.
    ///
    /// Takes no memory. Doesn't wait.
    pub fn of(bytes: Bytes) -> Option<Key>
        // Proved (statements, keys): A key is made of exactly the texts that aren't empty. Its bytes are
        //   the ones that it was made of, 1 to 64.
        ensures not_empty { IsSome result ↔ (0 < length bytes.items) }
        // Proved (statements, keys)
        ensures bytes { IfSome result (λ key. key ≡ bytes.items) }
    {
        if bytes.is_empty() {
            None
        } else {
            let head = head_of(bytes.as_slice());
            Some(Key { head, bytes })
        }
    }

    /// Returns the bytes, at least one and at most 64.
    ///
    /// Takes no memory. Doesn't wait.
    pub fn as_slice(&self) -> &[u8]
        // Proved (statements, keys)
        ensures value { result.now ≡ self.now }
        // Proved (statements, keys)
        ensures not_empty { 0 < length result.now }
        // Proved (statements, keys)
        ensures fits { length result.now ≤ text_bytes }
    {
        self.bytes.as_slice()
    }

    /// Returns a copy of the key.
    ///
    /// Takes no memory. Doesn't wait.
    pub fn copy(&self) -> Key
        // Proved (statements, copies)
        ensures { result ≡ self.now }
    {
        Key {
            head: self.head,
            bytes: copy_of(&self.bytes),
        }
    }
}

impl Clone for Key {
    ghost is_clone = { λ key copy. copy ≡ key };

    ghost is_infallible = { λ _. ⊤ };

    fn clone(&self) -> Result<Key, NoMemory> {
        Ok(self.copy())
    }
}

impl PartialEq for Key {
    ghost eq = { pointwise nat_eq };

    ghost laws = { partial_equiv_from_equiv nat_list_eq_equiv };

    fn eq(&self, other: &Key) -> bool {
        self.bytes == other.bytes
    }
}

impl Eq for Key {
    ghost laws = { nat_list_eq_equiv };
}

impl PartialOrd for Key {
    ghost partial_cmp = { λ left right. Some (bytes_cmp left right) };

    ghost laws = { texts_po };

    fn partial_cmp(&self, other: &Key) -> Option<Ordering> {
        Some(self.cmp(other))
    }
}

impl Ord for Key {
    ghost cmp = { bytes_cmp };

    ghost total = { nat_list_cmp_total };

    ghost matches_partial_cmp = { λ left right. refl };

    ghost matches_eq = { texts_ties };

    fn cmp(&self, other: &Key) -> Ordering {
        order_of(self.head, &self.bytes, other.head, &other.bytes)
    }
}
