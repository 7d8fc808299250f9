//! A law of what `--text` writes, as the contract of a function that does nothing: it is read back.
ghost use Rattle.std.specs.Prelude.{◌≡◌, ◌++◌, ◌==◌, [], ℕ, List, Ok};
ghost use Rattle.xa_xid.specs.{Bytes.StartsNo, Literal.{LiteralAt, literal_ahead}, Xid.Text};
ghost use Rattle.xa_script.specs.Texts.{quoted, word_text};

use xa_xid::laws::literals_are_read_as_spelled;

/// A text in quotes is a literal of its bytes if no quote follows it. What `--text` writes for a word that is
/// a literal is read as the same bytes.
///
/// Takes no memory. Doesn't wait.
/// Own rule: docs/COMMANDS.md#options-of-every-job.
pub fn texts_are_read_back()
    // Proved (scripts, texts-are-read-back): A text that `--text` writes is read back as the same bytes.
    ensures spelled { (bytes rest : List ℕ) → StartsNo (λ byte. byte == 39) rest
        → LiteralAt (quoted bytes ++ rest) bytes rest }
    // Proved (scripts, texts-are-read-back)
    ensures word { (word : List ℕ) (text : Text) → literal_ahead word ≡ Ok (text, [])
        → literal_ahead (word_text word) ≡ Ok (text, []) }
{
    literals_are_read_as_spelled();
}
