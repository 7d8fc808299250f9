//! Text literals, read byte by byte after the opening quote.
ghost use Rattle.std.specs.Prelude.{◌≡◌, ◌++◌, ◌∷◌, ◌≤◌, List, [], length, ℕ, MatchResult, IfOk};
ghost use Rattle.xa_xid.specs.{Literal.{text_literal_of, kept, sized}, Quoted.{read_in_quotes, escaped}};

use crate::byte_class::text_from;
use crate::{Bytes, LiteralFault};

/// What was read last between the quotes, by which the next byte is taken.
#[derive(Clone, Copy, Drop)]
pub enum Mode {
    /// Anything that is complete.
    Plain,
    /// A backslash, whose letter comes next.
    Escape,
    /// A quote, which either closes the literal or is the first of two.
    Quote,
}

/// The bytes that a literal stands for so far; `None` if they are more than 64.
#[derive(Drop)]
struct Kept {
    /// The bytes; `None` from the 65th on.
    bytes: Option<Bytes>,
}

impl Kept {
    /// A literal of which no byte was kept yet.
    fn new() -> Kept
        ensures { result.bytes ≡ kept [] }
    {
        Kept {
            bytes: Some(Bytes::new()),
        }
    }

    /// Adds one byte. The 65th drops all bytes, and no later one is kept.
    fn add(&mut self, byte: u8)
        ensures { (xs : List ℕ) → self.old.bytes ≡ kept xs → self.new.bytes ≡ kept (xs ++ byte ∷ []) }
    {
        if let Some(bytes) = &mut self.bytes {
            if bytes.is_full() {
                self.bytes = None;
            } else {
                bytes.push(byte);
            }
        }
    }

    /// Returns the bytes, with `rest`, the text after the literal; or `TooLong` if there were more than 64.
    fn end(self, rest: &[u8]) -> Result<(Bytes, &[u8]), LiteralFault>
        ensures value { MatchResult result
            (λ found. sized self.bytes rest.now ≡ Ok (found.0, found.1.now))
            (λ fault. sized self.bytes rest.now ≡ Err fault) }
        ensures rest { IfOk result (λ found. found.1.now ≡ rest.now) }
    {
        match self.bytes {
            Some(bytes) => Ok((bytes, rest)),
            None => Err(LiteralFault::TooLong),
        }
    }

    /// Adds what a backslash and a letter stand for, as in MySQL.
    #[tactic(auto, unfolding(crate::specs::Quoted::escaped))]
    fn add_escaped(&mut self, letter: u8)
        ensures { (xs : List ℕ) → self.old.bytes ≡ kept xs → self.new.bytes ≡ kept (xs ++ escaped letter) }
    {
        match letter {
            b'0' => self.add(0),
            // 8 is a backspace; 26, at `Z`, is Control+Z.
            b'b' => self.add(8),
            b'n' => self.add(b'\n'),
            b'r' => self.add(b'\r'),
            b't' => self.add(b'\t'),
            b'Z' => self.add(26),
            // A backslash before `%` or `_` stays.
            b'%' => {
                self.add(b'\\');
                self.add(b'%');
            }
            b'_' => {
                self.add(b'\\');
                self.add(b'_');
            }
            // Any other byte stands for itself, so a quote and a backslash can be written.
            other => self.add(other),
        }
    }
}

/// Reads a text literal whose opening quote comes before `body`; returns its bytes and the text after its
/// closing quote.
///
/// Errors: `Unclosed`, or `TooLong` for more than 64 bytes. It reads on after 64 bytes, since a missing quote
/// is reported before the length. Takes no memory.
pub fn text_literal(quote: u8, body: &[u8]) -> Result<(Bytes, &[u8]), LiteralFault>
    ensures value { MatchResult result
        (λ found. text_literal_of (read_in_quotes quote Mode.Plain body.now) ≡ Ok (found.0, found.1.now))
        (λ fault. text_literal_of (read_in_quotes quote Mode.Plain body.now) ≡ Err fault) }
    ensures within { IfOk result (λ found. length found.1.now ≤ length body.now) }
{
    let mut kept = Kept::new();
    let mut mode = Mode::Plain;
    for (i, byte) in body.iter().enumerate() {
        match mode {
            Mode::Plain => {
                if *byte == quote {
                    mode = Mode::Quote;
                } else if *byte == b'\\' {
                    mode = Mode::Escape;
                } else {
                    kept.add(*byte);
                }
            }
            Mode::Escape => {
                kept.add_escaped(*byte);
                mode = Mode::Plain;
            }
            Mode::Quote => {
                // The quote before another byte closed the literal; two quotes stand for one.
                if *byte != quote {
                    return kept.end(text_from(body, i));
                }
                kept.add(quote);
                mode = Mode::Plain;
            }
        }
    }
    // The text has ended. In mode `Quote` its last byte closed the literal; in the other modes nothing did.
    match mode {
        Mode::Quote => kept.end(text_from(body, body.len())),
        Mode::Plain | Mode::Escape => Err(LiteralFault::Unclosed),
    }
}
