//! Tokens, cut from the front of a text.
ghost use Rattle.std.specs.Prelude.{◌≡◌, ◌<◌, ◌≤◌, length};
ghost use Rattle.xa_statement.specs.Token.{is_word, statement_word, clause_word, keyword_of, opens_quoted};
ghost use Rattle.xa_statement.specs.Token.{quoted_piece, run_at, part_of, token_at};
ghost use Rattle.xa_xid.specs.{Literal.literal_ahead, Number.number_ahead};

use xa_xid::{ByteClass, Bytes, literal_of, number_of};

/// A word of the grammar.
///
/// Source: MySQL 8.0 Reference Manual, 'XA Transaction SQL Statements'.
/// The last four are our own: docs/STATEMENTS.md#grammar.
#[derive(Clone, Copy, Debug, PartialEq, Eq)]
pub enum Keyword {
    Xa,
    Start,
    Begin,
    End,
    Prepare,
    Commit,
    Rollback,
    Recover,
    Join,
    Resume,
    Suspend,
    For,
    Migrate,
    One,
    Phase,
    Convert,
    Xid,
    Get,
    Put,
    Del,
    Disconnect,
}

/// A token of a statement.
#[derive(Drop)]
pub enum Token {
    /// A word of the grammar.
    Word(Keyword),
    /// `,`
    Comma,
    /// `;`
    Semicolon,
    /// Any other token: its value as a literal and as a formatID, each `None` if the token can't stand for
    /// one. `0x41` has both; a token with neither is in no statement.
    Value(Option<Bytes>, Option<u64>),
}

/// Cuts off the token that a text begins with; returns it with the text after it.
///
/// The text isn't empty and doesn't begin with a blank. A faulty literal in quotes takes the rest of the text, and so
/// does a byte with which no token begins. No statement has either, so this can't be observed.
#[tactic(auto, unfolding(crate::specs::Token::token_at))]
pub(crate) fn token_of(text: &[u8]) -> (Token, &[u8])
    requires { 0 < length text.now }
    ensures { (result.0, result.1.now) ≡ token_at text.now }
{
    match text[0] {
        b',' => (Token::Comma, &text[1..]),
        b';' => (Token::Semicolon, &text[1..]),
        _ => {
            if begins_quoted(text) {
                quoted_token(text)
            } else if ByteClass::Word.has(text[0]) {
                run_token(text)
            } else {
                // No token of a statement begins with any other byte: it is taken as a faulty literal.
                (Token::Value(None, None), &[])
            }
        }
    }
}

/// Returns whether the text begins as a literal in quotes does: with a quote, or with `X` or `x` and a single quote.
/// The literal may still be faulty.
pub(crate) fn begins_quoted(text: &[u8]) -> bool
    requires { 0 < length text.now }
    ensures { result ≡ opens_quoted text.now }
{
    match text[0] {
        b'\'' | b'"' => true,
        b'X' | b'x' => text.len() > 1 && text[1] == b'\'',
        _ => false,
    }
}

/// Cuts off the literal in quotes that the text begins with; returns its token with the text after it. A faulty one
/// takes the rest of the text, and has no value.
fn quoted_token(text: &[u8]) -> (Token, &[u8])
    ensures { (result.0, result.1.now) ≡ quoted_piece (literal_ahead text.now) }
{
    match literal_of(text) {
        Ok((bytes, rest)) => (Token::Value(Some(bytes), None), rest),
        Err(_) => (Token::Value(None, None), &[]),
    }
}

/// Cuts off the run of word bytes that the text begins with; returns its token with the text after it. The token is a
/// word of the grammar, or else the run's values as a literal and as a number.
fn run_token(text: &[u8]) -> (Token, &[u8])
    ensures { (result.0, result.1.now) ≡ run_at text.now }
{
    let (run, rest) = ByteClass::Word.split(text);
    match word_of_run(run) {
        Some(word) => (Token::Word(word), rest),
        // Both read the same run: callers give no text that begins as a literal in quotes does.
        None => (Token::Value(literal_part(text), number_part(text)), rest),
    }
}

/// Returns the bytes of the literal that the text begins with; None if it begins with none, or with one that is faulty
/// or has more than 64 bytes.
fn literal_part(text: &[u8]) -> Option<Bytes>
    ensures { result ≡ part_of (literal_ahead text.now) }
{
    match literal_of(text) {
        Ok((bytes, _)) => Some(bytes),
        Err(_) => None,
    }
}

/// Returns the number that the text begins with; None if it begins with none, or with one above 2^64-1.
fn number_part(text: &[u8]) -> Option<u64>
    ensures { result ≡ part_of (number_ahead text.now) }
{
    match number_of(text) {
        Ok((number, _)) => Some(number),
        Err(_) => None,
    }
}

/// Returns the word of the grammar that a run is, without regard to case; `None` if it is none.
#[tactic(auto, unfolding(crate::specs::Token::keyword_of))]
pub(crate) fn word_of_run(run: &[u8]) -> Option<Keyword>
    ensures { result ≡ keyword_of run.now }
{
    match first_word(run) {
        Some(word) => Some(word),
        None => later_word(run),
    }
}

/// Returns the word that a run is, without regard to case, if that word can begin a statement or follow `XA`; else
/// `None`.
#[tactic(auto, unfolding(crate::specs::Token::statement_word))]
fn first_word(run: &[u8]) -> Option<Keyword>
    ensures { result ≡ statement_word run.now }
{
    if same_word(b"XA", run) {
        Some(Keyword::Xa)
    } else if same_word(b"START", run) {
        Some(Keyword::Start)
    } else if same_word(b"BEGIN", run) {
        Some(Keyword::Begin)
    } else if same_word(b"END", run) {
        Some(Keyword::End)
    } else if same_word(b"PREPARE", run) {
        Some(Keyword::Prepare)
    } else if same_word(b"COMMIT", run) {
        Some(Keyword::Commit)
    } else if same_word(b"ROLLBACK", run) {
        Some(Keyword::Rollback)
    } else if same_word(b"RECOVER", run) {
        Some(Keyword::Recover)
    } else if same_word(b"GET", run) {
        Some(Keyword::Get)
    } else if same_word(b"PUT", run) {
        Some(Keyword::Put)
    } else if same_word(b"DEL", run) {
        Some(Keyword::Del)
    } else if same_word(b"DISCONNECT", run) {
        Some(Keyword::Disconnect)
    } else {
        None
    }
}

/// Returns the word that a run is, without regard to case, if that word is one of a clause after an xid or `RECOVER`;
/// else `None`.
#[tactic(auto, unfolding(crate::specs::Token::clause_word))]
fn later_word(run: &[u8]) -> Option<Keyword>
    ensures { result ≡ clause_word run.now }
{
    if same_word(b"JOIN", run) {
        Some(Keyword::Join)
    } else if same_word(b"RESUME", run) {
        Some(Keyword::Resume)
    } else if same_word(b"SUSPEND", run) {
        Some(Keyword::Suspend)
    } else if same_word(b"FOR", run) {
        Some(Keyword::For)
    } else if same_word(b"MIGRATE", run) {
        Some(Keyword::Migrate)
    } else if same_word(b"ONE", run) {
        Some(Keyword::One)
    } else if same_word(b"PHASE", run) {
        Some(Keyword::Phase)
    } else if same_word(b"CONVERT", run) {
        Some(Keyword::Convert)
    } else if same_word(b"XID", run) {
        Some(Keyword::Xid)
    } else {
        None
    }
}

/// Returns whether the run is the word, without regard to case.
fn same_word(word: &[u8], run: &[u8]) -> bool
    ensures { result ≡ is_word word.now run.now }
{
    run.eq_ignore_ascii_case(word)
}
