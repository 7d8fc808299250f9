//! Bytes as characters.
ghost use Rattle.std.specs.Prelude.{◌≡◌, IfOk, string_bytes, encode_utf8_all};

use std::alloc::Global;
use xa_xid::NoMemory;

/// Returns a text as characters: each byte becomes the character with its number.
///
/// May return `NoMemory`.
#[tactic(auto, using(crate::proofs::JsonWritten::characters_more))]
pub fn characters(alloc: Global, text: &[u8]) -> Result<String, NoMemory>
    ensures { IfOk result (λ string. string_bytes string ≡ encode_utf8_all text.now) }
{
    let mut string = String::new(alloc);
    for &byte in text {
        string.push(byte as char)?;
    }
    Ok(string)
}
