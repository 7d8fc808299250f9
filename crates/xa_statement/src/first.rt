//! Functions that take one token of a wanted kind from the front of a text, and `ends`, which tests what is
//! left.
//!
//! Each returns `None` if another token, a faulty one or none comes first. Their contracts say only what `Some` means.
//! The functions for other files skip the blanks before the token.
ghost use Rattle.std.specs.Prelude.{◌≡◌, ◌<◌, ℕ, Option, Some, [], ◌∷◌, ◌++◌, None, Ok, length, IfSome, IsTrue};
ghost use Rattle.xa_xid.specs.{Bytes.{front, behind}, Literal.{literal_ahead, text_literal_of}, Quoted.read_in_quotes};
ghost use Rattle.xa_xid.specs.declared.quoted.Mode.TheVariants.{Plain};
ghost use Rattle.xa_statement.specs.declared.token.Token.TheVariants.{Word, Comma, Value};
ghost use Rattle.xa_statement.specs.Token.{token_at, run_at, part_of};
ghost use Rattle.xa_statement.specs.Ways.{TakesToken, TakesLiteral, TakesNumber, Ends, plain_in, heads, Closes};

use crate::token::{Keyword, begins_quoted, word_of_run};
use xa_xid::{ByteClass, Bytes, literal_of, number_of, skip_blanks};

/// Takes a word of the grammar, after any blanks; returns it with the text after it. `None` if another token or none
/// comes first.
pub(crate) fn first_word(text: &[u8]) -> Option<(Keyword, &[u8])>
    ensures { IfSome result (λ found. TakesToken (Word found.0) text.now found.1.now) }
{
    // Most texts have their words as canonical texts do.
    match usual_word(text) {
        Some((word, rest)) => Some((word, rest)),
        None => {
            let (word, rest) = word_in_front(skip_blanks(text))?;
            Some((word, rest))
        }
    }
}

/// Takes a word in capitals and the blank after it; returns it with the text after the blank. `None` if the text
/// doesn't begin so, or with a word of a clause.
fn usual_word(text: &[u8]) -> Option<(Keyword, &[u8])>
    ensures { IfSome result (λ found. TakesToken (Word found.0) text.now found.1.now) }
{
    if let Some(rest) = behind_bytes(b"XA ", text) {
        return Some((Keyword::Xa, rest));
    }
    if let Some(rest) = behind_bytes(b"START ", text) {
        return Some((Keyword::Start, rest));
    }
    if let Some(rest) = behind_bytes(b"END ", text) {
        return Some((Keyword::End, rest));
    }
    if let Some(rest) = behind_bytes(b"PREPARE ", text) {
        return Some((Keyword::Prepare, rest));
    }
    if let Some(rest) = behind_bytes(b"COMMIT ", text) {
        return Some((Keyword::Commit, rest));
    }
    if let Some(rest) = behind_bytes(b"ROLLBACK ", text) {
        return Some((Keyword::Rollback, rest));
    }
    if let Some(rest) = behind_bytes(b"GET ", text) {
        return Some((Keyword::Get, rest));
    }
    if let Some(rest) = behind_bytes(b"PUT ", text) {
        return Some((Keyword::Put, rest));
    }
    if let Some(rest) = behind_bytes(b"DEL ", text) {
        return Some((Keyword::Del, rest));
    }
    None
}

/// Returns the word of the grammar that a text begins with, and the text after it; None if another token or none comes
/// first. Blanks aren't skipped.
#[tactic(auto, unfolding(crate::specs::Token::token_at))]
fn word_in_front(text: &[u8]) -> Option<(Keyword, &[u8])>
    ensures some { IfSome result (λ found. 0 < length text.now) }
    ensures token { IfSome result (λ found. token_at text.now ≡ (Word found.0, found.1.now)) }
{
    if text.is_empty() {
        return None;
    }
    // The cases of `token_of`: only a run of word bytes can be a word.
    match text[0] {
        b',' => None,
        b';' => None,
        _ => {
            if begins_quoted(text) {
                None
            } else if ByteClass::Word.has(text[0]) {
                word_run(text)
            } else {
                None
            }
        }
    }
}

/// Returns the word of the grammar that the run of word bytes at the front is, and the text after it; `None` if it is
/// another run.
fn word_run(text: &[u8]) -> Option<(Keyword, &[u8])>
    ensures { IfSome result (λ found. run_at text.now ≡ (Word found.0, found.1.now)) }
{
    let (run, rest) = ByteClass::Word.split(text);
    match word_of_run(run) {
        Some(word) => Some((word, rest)),
        None => None,
    }
}

/// Takes a number, after any blanks; returns it with the text after it. `None` if another token or none comes first, or
/// if the number is above 2^64-1.
pub(crate) fn first_number(text: &[u8]) -> Option<(u64, &[u8])>
    ensures { IfSome result (λ found. TakesNumber text.now found.0 found.1.now) }
{
    match number_of(skip_blanks(text)) {
        Ok((number, rest)) => Some((number, rest)),
        Err(_) => None,
    }
}

/// Returns the text after the byte, if the text begins with it, and else None.
fn behind_byte(byte: u8, text: &[u8]) -> Option<&[u8]>
    ensures { IfSome result (λ rest. text.now ≡ byte ∷ rest.now) }
{
    match text {
        [first, rest @ ..] if *first == byte => Some(rest),
        _ => None,
    }
}

/// Returns the text after the bytes, if the text begins with them, and else None.
fn behind_bytes<'a>(bytes: &[u8], text: &'a [u8]) -> Option<&'a [u8]>
    ensures { IfSome result (λ rest. text.now ≡ bytes.now ++ rest.now) }
{
    let mut rest = text;
    for byte in bytes {
        rest = behind_byte(*byte, rest)?;
    }
    Some(rest)
}

/// Returns the text after a comma, if the first token after any blanks is one; else `None`.
pub(crate) fn behind_comma(text: &[u8]) -> Option<&[u8]>
    ensures { IfSome result (λ rest. TakesToken Comma text.now rest.now) }
{
    let rest = behind_byte(b',', skip_blanks(text))?;
    Some(rest)
}

/// Returns true only if nothing but blanks and at most one `;` is left.
pub(crate) fn ends(text: &[u8]) -> bool
    ensures { IsTrue result → Ends text.now }
{
    let front = skip_blanks(text);
    match behind_byte(b';', front) {
        Some(rest) => skip_blanks(rest).is_empty(),
        None => front.is_empty(),
    }
}

/// Puts the literal that comes first, after any blanks, into `bytes`, which is empty, and returns the text after it.
///
/// `None` if no literal of at most 64 bytes comes first; `bytes` then holds anything.
pub(crate) fn take_literal<'a>(bytes: &mut Bytes, text: &'a [u8]) -> Option<&'a [u8]>
    requires { bytes.now.items ≡ [] }
    ensures { IfSome result (λ rest. TakesLiteral text.now bytes.new rest.now) }
{
    let front = skip_blanks(text);
    // Most literals are plain. For those that aren't, `take_any` reads every form, and replaces whatever is in `bytes`.
    match take_plain(bytes, front) {
        Some(rest) => Some(rest),
        None => {
            let rest = take_any(bytes, front)?;
            Some(rest)
        }
    }
}

/// Puts a literal of any form into `bytes`, and returns the text after it; `None` if the text doesn't begin with a
/// literal of at most 64 bytes. Blanks aren't skipped.
fn take_any<'a>(bytes: &mut Bytes, text: &'a [u8]) -> Option<&'a [u8]>
    ensures some { IfSome result (λ rest. 0 < length text.now) }
    ensures token { IfSome result (λ rest. (number : Option ℕ)
        × (token_at text.now ≡ (Value (Some bytes.new) number, rest.now))) }
{
    match literal_of(text) {
        Ok((found, rest)) => {
            *bytes = found;
            Some(rest)
        }
        Err(_) => None,
    }
}

/// Puts a literal in quotes, of at most 64 bytes each of which stands for itself, into `bytes`, and returns the text
/// after it; `None` if the text doesn't begin with such a literal.
fn take_plain<'a>(bytes: &mut Bytes, text: &'a [u8]) -> Option<&'a [u8]>
    requires { bytes.now.items ≡ [] }
    ensures some { IfSome result (λ rest. 0 < length text.now) }
    ensures token { IfSome result (λ rest. token_at text.now ≡ (Value (Some bytes.new) None, rest.now)) }
{
    match behind_byte(b'\'', text) {
        Some(body) => {
            let rest = take_quoted(b'\'', bytes, body)?;
            Some(rest)
        }
        None => {
            let body = behind_byte(b'"', text)?;
            let rest = take_quoted(b'"', bytes, body)?;
            Some(rest)
        }
    }
}

/// Puts a literal in quotes into `bytes`, from the text after its opening quote, and returns the text after it.
/// `None` if the literal has an escape or two quotes for one, isn't closed, or has more than 64 bytes.
fn take_quoted<'a>(quote: u8, bytes: &mut Bytes, body: &'a [u8]) -> Option<&'a [u8]>
    requires { bytes.now.items ≡ [] }
    ensures { IfSome result (λ rest. text_literal_of (read_in_quotes quote Plain body.now) ≡ Ok (bytes.new, rest.now)) }
{
    let (plain, closing) = split_plain(quote, body);
    let rest = behind_quote(quote, closing)?;
    match bytes.try_extend_from_slice(plain) {
        Ok(()) => Some(rest),
        Err(_) => None,
    }
}

/// Returns whether the byte stands for itself in a literal between two such quotes: it is neither `quote` nor a
/// backslash.
fn is_plain(quote: u8, byte: u8) -> bool
    ensures { result ≡ plain_in quote byte }
{
    byte != quote && byte != b'\\'
}

/// Cuts `body`, which comes after an opening `quote`, in two: the longest beginning of bytes that each stand for
/// themselves, and the rest.
fn split_plain(quote: u8, body: &[u8]) -> (&[u8], &[u8])
    ensures front { result.0.now ≡ front (plain_in quote) body.now }
    ensures behind { result.1.now ≡ behind (plain_in quote) body.now }
{
    for (i, byte) in body.iter().enumerate() {
        if !is_plain(quote, *byte) {
            return body.split_at(i);
        }
    }
    body.split_at(body.len())
}

/// Returns the text after the quote that the text begins with; `None` if it begins with none, or with two,
/// which stand for one byte.
fn behind_quote(quote: u8, text: &[u8]) -> Option<&[u8]>
    ensures { IfSome result (λ rest. Closes quote text.now rest.now) }
{
    match text {
        [first, rest @ ..] if *first == quote && !begins_with(quote, rest) => Some(rest),
        _ => None,
    }
}

/// Returns whether the text begins with the byte.
fn begins_with(byte: u8, text: &[u8]) -> bool
    ensures { result ≡ heads byte text.now }
{
    !text.is_empty() && text[0] == byte
}
