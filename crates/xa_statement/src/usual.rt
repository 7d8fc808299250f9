//! The usual statements, each read in one go: statements that consist of a verb and an xid, and statements
//! of rows.
//!
//! The machine of states reads every other text, so only that returns faults.
ghost use Rattle.std.specs.Prelude.{◌≡◌, ◌<◌, Some, [], length, IfSome};
ghost use Rattle.xa_xid.specs.{XidText.{xid_of, no_text}, declared.statement.Statement.TheVariants.Put};
ghost use Rattle.xa_statement.specs.declared.state.{Verb.Verb, RowVerb.TheVariants.{Gets, Puts, Deletes}};
ghost use Rattle.xa_statement.specs.declared.state.State.TheVariants.{AtFirst, AfterXa, WantsGtrid, WantsBqual};
ghost use Rattle.xa_statement.specs.{declared.state.State.TheVariants.{WantsFormatId, WantsKey}, Ways.{Goes, Leads}};
ghost use Rattle.xa_statement.specs.{Machine.{after_word, statement_of}, Reading.{read_of, seen_of}};

use crate::SyntaxFault;
use crate::first::{behind_comma, ends, first_number, first_word, take_literal};
use crate::reader::read_tokens;
use crate::state::{Verb, statement_of};
use crate::token::Keyword;
use xa_xid::{Bytes, Key, Statement, Xid};

/// Reads the statement that the whole text spells.
pub(crate) fn read_any(text: &[u8]) -> Result<Statement, SyntaxFault>
    ensures { result ≡ seen_of (read_of text.now) }
{
    // The usual statements are read directly, which is quicker. Where that doesn't succeed, the text is read again,
    // token by token, which reads every statement and finds the place of a fault.
    match first_word(text) {
        Some((Keyword::Xa, rest)) => read_xa(text, rest),
        Some((Keyword::Put, rest)) => read_put(text, rest),
        Some((Keyword::Get, rest)) => read_get(text, rest),
        Some((Keyword::Del, rest)) => read_del(text, rest),
        _ => read_tokens(text),
    }
}

/// Returns what the word after `XA` does with an xid, or `None` if no xid comes after that word.
fn verb_of(word: Keyword) -> Option<Verb>
    ensures { IfSome result (λ verb. after_word AfterXa word ≡ Some (WantsGtrid verb)) }
{
    match word {
        Keyword::Start | Keyword::Begin => Some(Verb::Starts),
        Keyword::End => Some(Verb::Ends),
        Keyword::Prepare => Some(Verb::Prepares),
        Keyword::Commit => Some(Verb::Commits),
        Keyword::Rollback => Some(Verb::RollsBack),
        _ => None,
    }
}

/// Reads a text that begins with `XA`; `rest` is the text after it. If no verb of an xid follows, the whole text is
/// read token by token.
fn read_xa(text: &[u8], rest: &[u8]) -> Result<Statement, SyntaxFault>
    requires { Goes AtFirst text.now AfterXa rest.now }
    ensures { result ≡ seen_of (read_of text.now) }
{
    if let Some((word, rest)) = first_word(rest) {
        if let Some(verb) = verb_of(word) {
            return read_branch(verb, text, rest);
        }
    }
    read_tokens(text)
}

/// Reads a text that begins with `XA` and the word of a verb; `rest` is the text after them. If `rest` isn't an xid and
/// the statement's end, the whole text is read token by token: it may have a clause, or a fault.
fn read_branch(verb: Verb, text: &[u8], rest: &[u8]) -> Result<Statement, SyntaxFault>
    requires { Goes AtFirst text.now (WantsGtrid verb) rest.now }
    ensures { result ≡ seen_of (read_of text.now) }
{
    // If the text doesn't give them, the bqual is empty and the formatID 1.
    let mut xid = Xid {
        format_id: 1,
        gtrid: Bytes::new(),
        bqual: Bytes::new(),
    };
    match take_xid(&mut xid, rest) {
        Some(end) if ends(end) => Ok(statement_of(verb, xid)),
        _ => read_tokens(text),
    }
}

/// Reads an xid into `xid`, and returns the text after it; `None` if no whole xid comes first, and `xid` then holds
/// anything. Parts that the text doesn't give stay as they are: an empty bqual and the formatID 1.
fn take_xid<'a>(xid: &mut Xid, text: &'a [u8]) -> Option<&'a [u8]>
    requires { xid.now ≡ xid_of no_text no_text 1 }
    ensures { IfSome result (λ rest. (verb : Verb) → Leads (WantsGtrid verb) text.now
        (statement_of verb xid.new) rest.now) }
{
    let rest = take_literal(&mut xid.gtrid, text)?;
    match behind_comma(rest) {
        Some(next) => {
            let end = take_bqual(xid, next)?;
            Some(end)
        }
        None => Some(rest),
    }
}

/// Reads a bqual and, if a comma follows, a formatID into an xid that has its gtrid. Returns the text after
/// them; `None` if the bqual is missing or faulty, or the formatID after the comma is.
fn take_bqual<'a>(xid: &mut Xid, text: &'a [u8]) -> Option<&'a [u8]>
    requires { xid.now ≡ xid_of xid.now.gtrid no_text 1 }
    ensures { IfSome result (λ rest. (verb : Verb) → Leads (WantsBqual verb xid.old.gtrid) text.now
        (statement_of verb xid.new) rest.now) }
{
    let rest = take_literal(&mut xid.bqual, text)?;
    match behind_comma(rest) {
        Some(next) => {
            let end = take_format_id(xid, next)?;
            Some(end)
        }
        None => Some(rest),
    }
}

/// Reads a formatID into an xid, and returns the text after it; `None` if no number below 2^64 comes first.
fn take_format_id<'a>(xid: &mut Xid, text: &'a [u8]) -> Option<&'a [u8]>
    ensures { IfSome result (λ rest. (verb : Verb) → Leads (WantsFormatId verb xid.old.gtrid xid.old.bqual) text.now
        (statement_of verb xid.new) rest.now) }
{
    let (number, rest) = first_number(text)?;
    xid.format_id = number;
    Some(rest)
}

/// Reads a text that begins with `GET`; `rest` is the text after it. If `rest` isn't a key and the statement's end, the
/// whole text is read token by token.
fn read_get(text: &[u8], rest: &[u8]) -> Result<Statement, SyntaxFault>
    requires { Goes AtFirst text.now (WantsKey Gets) rest.now }
    ensures { result ≡ seen_of (read_of text.now) }
{
    let mut bytes = Bytes::new();
    match take_literal(&mut bytes, rest) {
        Some(end) if ends(end) => match Key::of(bytes) {
            Some(key) => Ok(Statement::Get(key)),
            // No key is empty: `read_tokens` finds the place of the fault.
            None => read_tokens(text),
        },
        _ => read_tokens(text),
    }
}

/// Reads a text that begins with `DEL`; `rest` is the text after it. If `rest` isn't a key and the statement's end, the
/// whole text is read token by token.
fn read_del(text: &[u8], rest: &[u8]) -> Result<Statement, SyntaxFault>
    requires { Goes AtFirst text.now (WantsKey Deletes) rest.now }
    ensures { result ≡ seen_of (read_of text.now) }
{
    let mut bytes = Bytes::new();
    match take_literal(&mut bytes, rest) {
        Some(end) if ends(end) => match Key::of(bytes) {
            Some(key) => Ok(Statement::Del(key)),
            // No key is empty: `read_tokens` finds the place of the fault.
            None => read_tokens(text),
        },
        _ => read_tokens(text),
    }
}

/// Reads a text that begins with `PUT`; `rest` is the text after it. If `rest` isn't a key, a comma, a value and the
/// statement's end, the whole text is read token by token.
fn read_put(text: &[u8], rest: &[u8]) -> Result<Statement, SyntaxFault>
    requires { Goes AtFirst text.now (WantsKey Puts) rest.now }
    ensures { result ≡ seen_of (read_of text.now) }
{
    let mut bytes = Bytes::new();
    let mut value = Bytes::new();
    match take_row(&mut bytes, &mut value, rest) {
        Some(end) if ends(end) => match Key::of(bytes) {
            Some(key) => Ok(Statement::Put(key, value)),
            // No key is empty: `read_tokens` finds the place of the fault.
            None => read_tokens(text),
        },
        _ => read_tokens(text),
    }
}

/// Reads a key into `key`, a comma, and a value into `value`, and returns the text after the value; `None` if one of
/// the three is missing or faulty. An empty key is left to the caller.
fn take_row<'a>(key: &mut Bytes, value: &mut Bytes, text: &'a [u8]) -> Option<&'a [u8]>
    requires key { key.now.items ≡ [] }
    requires value { value.now.items ≡ [] }
    ensures { IfSome result (λ rest. 0 < length key.new.items
        → Leads (WantsKey Puts) text.now (Put key.new.items value.new) rest.now) }
{
    let found = take_literal(key, text)?;
    let next = behind_comma(found)?;
    let rest = take_literal(value, next)?;
    Some(rest)
}
