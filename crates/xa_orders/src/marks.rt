//! Numbers made of values, by which equal values are found and different ones told apart.
ghost use Rattle.std.specs.Prelude.{◌≡◌, fold};
ghost use Rattle.xa_orders.specs.Marks.{with_word, with_key, with_text as with_text_of, with_value as with_value_of};

use xa_server::Server;
use xa_xid::{Bytes, Key};

/// The factor for each word: odd, so that no information is lost, with bits as if by chance: 2^64 divided by
/// the golden ratio, rounded down.
const MULTIPLIER: u64 = 0x9e37_79b9_7f4a_7c15;

/// Adds a word to a mark.
#[tactic(auto, unfolding(crate::specs::Marks::with_word))]
pub fn with(mark: u64, word: u64) -> u64
    ensures { result ≡ with_word mark word }
{
    // With the 1, the word 0 changes the mark 0 too. The shift, by nearly half of the 64 bits, lets high bits change
    // low ones. The last step loses nothing, as the highest 29 bits stay.
    let product = (mark ^ word).wrapping_add(1).wrapping_mul(MULTIPLIER);
    product ^ (product >> 29)
}

/// Adds a text to a mark: first its length, so that it matters where one text ends and the next begins, then its
/// bytes.
pub fn with_text(mark: u64, text: &[u8]) -> u64
    ensures { result ≡ with_text_of mark text.now }
{
    let mut longer = with(mark, text.len() as u64);
    for byte in text {
        longer = with(longer, *byte as u64);
    }
    longer
}

/// Returns the mark of a text.
pub fn mark_of_text(text: &[u8]) -> u64 {
    with_text(0, text)
}

/// Adds a value to a mark: a 0 if there is none, else a 1 and the text. So an empty text isn't taken for no value.
pub fn with_value(mark: u64, value: &Option<Bytes>) -> u64
    ensures { result ≡ with_value_of mark value.now }
{
    match value {
        None => with(mark, 0),
        Some(text) => with_text(with(mark, 1), text.as_slice()),
    }
}

/// Adds the committed values of these rows in `server` to a mark, in the order of `keys`.
pub fn with_values(mark: u64, server: &Server, keys: &[Key]) -> u64
    ensures { result ≡ fold (with_key server.now) mark keys.now }
{
    let mut longer = mark;
    for key in keys {
        longer = with_value(longer, &server.value_of(key));
    }
    longer
}
