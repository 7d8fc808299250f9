//! A line whose literals are written as texts in quotes.
ghost use Rattle.std.specs.Prelude.{◌≡◌, ◌≤◌, ◌+◌, ◌⊎◌, ◌++◌, ◌∷◌, [], ℕ, List, IsTrue, IfSome, IfNone, OnSome, length};
ghost use Rattle.xa_script.specs.Texts.{is_printable, are_printable, between_quotes, quoted, word_text, is_between};
ghost use Rattle.xa_script.specs.Texts.{texts_from, with_texts, IsTooLong};

use arrayvec::ArrayVec;
use xa_xid::literal_of;

/// Room for 512 bytes: no line with literals of the job's own has more.
pub type Room = ArrayVec<u8, 512>;

/// The beginning of a line, as it is written, and the bytes of the word that has begun after it.
#[derive(Drop)]
struct TextLine {
    /// The beginning of the line, as it is written.
    text: Room,
    /// The bytes of the word that has begun.
    word: Room,
}

/// Returns whether a byte is printable ASCII.
fn is_plain(byte: u8) -> bool
    ensures { result ≡ is_printable byte }
{
    32 <= byte && byte <= 126
}

/// Returns whether all bytes are printable ASCII.
fn are_plain(bytes: &[u8]) -> bool
    ensures { result ≡ are_printable bytes.now }
{
    for byte in bytes {
        if !is_plain(*byte) {
            return false;
        }
    }
    true
}

/// Appends a byte; None if there is no room.
fn put(text: &mut Room, byte: u8) -> Option<()>
    ensures some { IfSome result (λ _. text.new.items ≡ text.old.items ++ byte ∷ []) }
    ensures none { IfNone result (IsTooLong (text.old.items ++ byte ∷ [])) }
{
    if text.is_full() {
        return None;
    }
    text.push(byte);
    Some(())
}

/// Appends a word as it is; None if there is no room for all of it.
fn put_word(text: &mut Room, word: &[u8]) -> Option<()>
    ensures some { IfSome result (λ _. text.new.items ≡ text.old.items ++ word.now) }
    ensures none { IfNone result (IsTooLong (text.old.items ++ word.now)) }
{
    match text.try_extend_from_slice(word) {
        Ok(()) => Some(()),
        Err(_) => None,
    }
}

/// Appends bytes as they are written between quotes; None if there is no room for all.
fn put_between(text: &mut Room, bytes: &[u8]) -> Option<()>
    ensures some { IfSome result (λ _. text.new.items ≡ text.old.items ++ between_quotes bytes.now) }
    ensures none { IfNone result (IsTooLong (text.old.items ++ between_quotes bytes.now)) }
{
    for byte in bytes {
        // Within quotes a quote and a backslash stand for themselves only if they are doubled.
        if *byte == b'\'' || *byte == b'\\' {
            put(text, *byte)?;
        }
        put(text, *byte)?;
    }
    Some(())
}

/// Appends bytes as a text in quotes; None if there is no room for all of it.
fn put_text(text: &mut Room, bytes: &[u8]) -> Option<()>
    ensures some { IfSome result (λ _. text.new.items ≡ text.old.items ++ quoted bytes.now) }
    ensures none { IfNone result (IsTooLong (text.old.items ++ quoted bytes.now)) }
{
    put(text, b'\'')?;
    put_between(text, bytes)?;
    put(text, b'\'')
}

/// Appends a word: a literal of printable bytes as a text in quotes, any other word as it is. None if there is no room
/// for all of it.
fn put_written(text: &mut Room, word: &[u8]) -> Option<()>
    ensures some { IfSome result (λ _. text.new.items ≡ text.old.items ++ word_text word.now) }
    ensures none { IfNone result (IsTooLong (text.old.items ++ word_text word.now)) }
{
    match literal_of(word) {
        Ok((bytes, [])) => {
            // Other bytes wouldn't be seen, or would change a terminal.
            if are_plain(bytes.as_slice()) {
                put_text(text, bytes.as_slice())
            } else {
                put_word(text, word)
            }
        }
        // Something comes behind the literal, so the word isn't one.
        Ok((_, [_, ..])) => put_word(text, word),
        Err(_) => put_word(text, word),
    }
}

/// Returns whether a byte separates words: a space, a comma or the line feed.
fn divides(byte: u8) -> bool
    ensures { result ≡ is_between byte }
{
    byte == b' ' || byte == b',' || byte == b'\n'
}

impl TextLine {
    /// Takes a byte of the line; one that divides words has the word before it written. None if there is no room.
    fn take(&mut self, byte: u8) -> Option<()>
        ensures some { IfSome result (λ _. (rest : List ℕ)
            → self.new.text.items ++ texts_from self.new.word.items rest ≡ self.old.text.items
            ++ texts_from self.old.word.items (byte ∷ rest)) }
        ensures word { OnSome result (length self.new.word.items ≤ length self.old.word.items + 1) }
        ensures none { IfNone result (IsTooLong (self.old.word.items ++ byte ∷ []) ⊎ ((rest : List ℕ)
            → IsTooLong (self.old.text.items ++ texts_from self.old.word.items (byte ∷ rest)))) }
    {
        if !divides(byte) {
            return put(&mut self.word, byte);
        }
        put_written(&mut self.text, self.word.as_slice())?;
        put(&mut self.text, byte)?;
        self.word.clear();
        Some(())
    }
}

/// Returns a line with its literals of printable bytes as texts in quotes.
///
/// Returns `None` only if the line or the result has more than 512 bytes, and always if the result has. A longer line
/// is still written if each of its words has at most 512 bytes, and its literals get short enough.
/// Takes no memory. Doesn't wait.
/// Own rule: docs/COMMANDS.md#options-of-every-job.
pub fn text_line(line: &[u8]) -> Option<Room>
    // Proved (scripts, text-lines): With `--text` each literal of printable bytes in a line becomes a text in
    //   quotes, and all else stays. Only if the line has more than 512 bytes, before or after that, it isn't
    //   written so.
    ensures some { IfSome result (λ text. text.items ≡ with_texts line.now) }
    // Proved (scripts, text-lines)
    ensures none { IfNone result (IsTooLong line.now ⊎ IsTooLong (with_texts line.now)) }
{
    let mut so_far = TextLine {
        text: Room::new(),
        word: Room::new(),
    };
    for byte in line {
        so_far.take(*byte)?;
    }
    // Nothing that divides words comes after the last word, so it isn't written yet.
    let TextLine { mut text, word } = so_far;
    put_written(&mut text, word.as_slice())?;
    Some(text)
}
