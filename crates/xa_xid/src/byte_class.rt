//! Kinds of bytes, and how a text is cut after the last byte of a kind.
ghost use Rattle.std.specs.Prelude.{◌≡◌, ◌+◌, ◌≤◌, length, drop};
ghost use Rattle.xa_xid.specs.Bytes.{belongs, front, behind, unblank};

/// A kind of byte by which a text is cut.
///
/// Own rule: docs/STATEMENTS.md#tokens.
#[derive(Clone, Copy, Debug, PartialEq, Eq)]
pub enum ByteClass {
    /// Space, tab, line feed and carriage return.
    Blank,
    /// Letters, digits, `_`, `$` and the bytes from 128 to 255.
    Word,
    /// `0` to `9`.
    Decimal,
    /// `0` to `9`, `A` to `F` and `a` to `f`.
    Hexadecimal,
}

impl ByteClass {
    /// Returns whether the byte is of this kind.
    ///
    /// Takes no memory. Doesn't wait.
    #[tactic(auto, unfolding(crate::specs::Bytes::belongs))]
    pub fn has(self, byte: u8) -> bool
        ensures { result ≡ belongs self byte }
    {
        match self {
            ByteClass::Blank => byte == b' ' || byte == b'\t' || byte == b'\n' || byte == b'\r',
            ByteClass::Word => {
                byte.is_ascii_alphanumeric() || byte == b'_' || byte == b'$' || byte >= 128
            }
            ByteClass::Decimal => (byte as char).is_digit(10),
            ByteClass::Hexadecimal => (byte as char).is_digit(16),
        }
    }

    /// Cuts a text in two: the longest beginning of bytes of this kind, and the rest.
    ///
    /// Takes no memory. Doesn't wait.
    pub fn split(self, text: &[u8]) -> (&[u8], &[u8])
        // Proved (statements, cut-by-kind): A text is cut after the longest beginning whose bytes are all
        //   of one kind.
        ensures front { result.0.now ≡ front (belongs self) text.now }
        // Proved (statements, cut-by-kind)
        ensures behind { result.1.now ≡ behind (belongs self) text.now }
        ensures lengths { length result.0.now + length result.1.now ≡ length text.now }
    {
        for (i, byte) in text.iter().enumerate() {
            if !self.has(*byte) {
                return text.split_at(i);
            }
        }
        text.split_at(text.len())
    }
}

/// Returns the text without the blanks at its beginning.
///
/// Takes no memory. Doesn't wait.
pub fn skip_blanks(text: &[u8]) -> &[u8]
    ensures value { result.now ≡ unblank text.now }
    ensures within { length result.now ≤ length text.now }
{
    ByteClass::Blank.split(text).1
}

/// Returns the text from the index `at` on.
///
/// `at` is in `[0, length]`. Takes no memory. Doesn't wait.
pub(crate) fn text_from(text: &[u8], at: usize) -> &[u8]
    requires { at ≤ length text.now }
    ensures { result.now ≡ drop at text.now }
{
    &text[at..]
}
