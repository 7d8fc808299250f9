//! The numbers of a line.
ghost use Rattle.std.specs.Prelude.{◌≡◌, ◌∷◌, [], Some, None};
ghost use Rattle.xa_lines.specs.Objects.{number_said as said};

use xa_xid::number_of;

/// Returns the number that a word is, in decimal digits, or in hexadecimal ones after `0x`. A colon may stand behind
/// it. None for any other word, also for a number that isn't below 2^64.
///
/// Takes no memory. Doesn't wait.
#[tactic(auto, unfolding(crate::specs::Objects::number_said))]
pub fn number_said(word: &[u8]) -> Option<u64>
    ensures { result ≡ said word.now }
{
    match number_of(word) {
        Ok((number, [])) => Some(number),
        Ok((number, [b':'])) => Some(number),
        _ => None,
    }
}
