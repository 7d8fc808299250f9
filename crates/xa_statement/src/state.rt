//! How far a statement has been read, and the state that each token leads to.
ghost use Rattle.std.specs.Prelude.{◌≡◌};
ghost use Rattle.xa_statement.specs.Machine.{after_word, xid_word, after_comma, after_value, after_token, unended};
ghost use Rattle.xa_statement.specs.Machine.{finish, statement_of, after_key};
ghost use Rattle.xa_xid.specs.XidText.{xid_of};

use crate::token::{Keyword, Token};
use xa_xid::{Bytes, Key, Statement, Xid};

/// What a statement does with its xid.
#[derive(Clone, Copy, Drop)]
pub enum Verb {
    Starts,
    Ends,
    Prepares,
    Commits,
    RollsBack,
}

/// What a statement does with its row.
#[derive(Clone, Copy, Drop)]
pub enum RowVerb {
    Gets,
    Puts,
    Deletes,
}

/// How far a statement has been read, with the parts read so far.
#[derive(Drop)]
pub enum State {
    /// Nothing yet.
    AtFirst,
    /// `XA`
    AfterXa,
    /// `XA` and a word that takes an xid.
    WantsGtrid(Verb),
    /// The gtrid.
    AfterGtrid(Verb, Bytes),
    /// The gtrid and a comma.
    WantsBqual(Verb, Bytes),
    /// The gtrid and the bqual.
    AfterBqual(Verb, Bytes, Bytes),
    /// The gtrid, the bqual and a comma.
    WantsFormatId(Verb, Bytes, Bytes),
    /// All three parts of the xid.
    AfterXid(Verb, Xid),
    /// `XA END xid SUSPEND`
    AfterSuspend,
    /// `XA END xid SUSPEND FOR`
    AfterFor,
    /// `XA COMMIT xid ONE`
    AfterOne(Xid),
    /// `XA RECOVER`
    AfterRecover,
    /// `XA RECOVER CONVERT`
    AfterConvert,
    /// A word that takes a key.
    WantsKey(RowVerb),
    /// `PUT key`
    AfterKey(Key),
    /// `PUT key ,`
    WantsValue(Key),
    /// A statement to which nothing but `;` can be added.
    Whole(Statement),
    /// A statement and `;`.
    Ended(Statement),
}

impl State {
    /// Returns the state after one more token, or `None` if no statement goes on with it.
    #[tactic(auto, unfolding(crate::specs::Machine::after_token))]
    pub fn step(self, token: Token) -> Option<State>
        ensures { result ≡ after_token self token }
    {
        match token {
            Token::Word(word) => self.after_word(word),
            Token::Comma => self.after_comma(),
            // A `;` comes only after a whole statement, and only once.
            Token::Semicolon => match self.unended() {
                Some(statement) => Some(State::Ended(statement)),
                None => None,
            },
            Token::Value(literal, number) => self.after_value(literal, number),
        }
    }

    /// Returns the state after a word, or `None` if the word can't come next.
    fn after_word(self, word: Keyword) -> Option<State>
        ensures { result ≡ after_word self word }
    {
        match self {
            State::AtFirst => first_word(word),
            State::AfterXa => xa_word(word),
            // If they aren't given, the bqual is empty and the formatID 1.
            State::AfterGtrid(verb, gtrid) => xid_word(verb, xid_of(gtrid, Bytes::new(), 1), word),
            State::AfterBqual(verb, gtrid, bqual) => xid_word(verb, xid_of(gtrid, bqual, 1), word),
            State::AfterXid(verb, xid) => xid_word(verb, xid, word),
            State::AfterSuspend => match word {
                Keyword::For => Some(State::AfterFor),
                _ => None,
            },
            // `XA END xid SUSPEND FOR MIGRATE` is recognised but not supported.
            State::AfterFor => match word {
                Keyword::Migrate => Some(State::Whole(Statement::Unsupported)),
                _ => None,
            },
            State::AfterOne(xid) => match word {
                Keyword::Phase => Some(State::Whole(Statement::Commit {
                    xid,
                    one_phase: true,
                })),
                _ => None,
            },
            State::AfterRecover => match word {
                Keyword::Convert => Some(State::AfterConvert),
                _ => None,
            },
            State::AfterConvert => match word {
                Keyword::Xid => Some(State::Whole(Statement::Recover { convert: true })),
                _ => None,
            },
            _ => None,
        }
    }

    /// Returns the state after a comma, or `None` if none can come next.
    fn after_comma(self) -> Option<State>
        ensures { result ≡ after_comma self }
    {
        match self {
            State::AfterGtrid(verb, gtrid) => Some(State::WantsBqual(verb, gtrid)),
            State::AfterBqual(verb, gtrid, bqual) => Some(State::WantsFormatId(verb, gtrid, bqual)),
            State::AfterKey(key) => Some(State::WantsValue(key)),
            _ => None,
        }
    }

    /// Returns the state after a literal, a number, or both: each state takes the one that it wants. `None` if
    /// that one is missing, if the state wants neither, or if a key is empty.
    fn after_value(self, literal: Option<Bytes>, number: Option<u64>) -> Option<State>
        ensures { result ≡ after_value self literal number }
    {
        match self {
            State::WantsGtrid(verb) => Some(State::AfterGtrid(verb, literal?)),
            State::WantsBqual(verb, gtrid) => Some(State::AfterBqual(verb, gtrid, literal?)),
            State::WantsFormatId(verb, gtrid, bqual) => {
                Some(State::AfterXid(verb, xid_of(gtrid, bqual, number?)))
            }
            State::WantsKey(verb) => Some(after_key(verb, Key::of(literal?)?)),
            State::WantsValue(key) => Some(State::Whole(Statement::Put(key, literal?))),
            _ => None,
        }
    }

    /// Returns the statement that was read, if it is whole and its `;` hasn't come yet; else `None`.
    fn unended(self) -> Option<Statement>
        ensures { result ≡ unended self }
    {
        match self {
            // If they aren't given, the bqual is empty and the formatID 1.
            State::AfterGtrid(verb, gtrid) => {
                Some(statement_of(verb, xid_of(gtrid, Bytes::new(), 1)))
            }
            State::AfterBqual(verb, gtrid, bqual) => {
                Some(statement_of(verb, xid_of(gtrid, bqual, 1)))
            }
            State::AfterXid(verb, xid) => Some(statement_of(verb, xid)),
            // `FOR MIGRATE` may follow, but needn't. With or without it the statement isn't supported.
            State::AfterSuspend => Some(Statement::Unsupported),
            State::AfterRecover => Some(Statement::Recover { convert: false }),
            State::Whole(statement) => Some(statement),
            _ => None,
        }
    }

    /// Returns the statement, if the tokens so far are one, with or without a `;`; else `None`.
    #[tactic(auto, unfolding(crate::specs::Machine::finish))]
    pub fn finish(self) -> Option<Statement>
        ensures { result ≡ finish self }
    {
        match self {
            State::Ended(statement) => Some(statement),
            other => other.unended(),
        }
    }
}

/// Returns the state after the first word, or `None` if no statement begins with it.
fn first_word(word: Keyword) -> Option<State>
    ensures { result ≡ after_word State.AtFirst word }
{
    match word {
        Keyword::Xa => Some(State::AfterXa),
        Keyword::Get => Some(State::WantsKey(RowVerb::Gets)),
        Keyword::Put => Some(State::WantsKey(RowVerb::Puts)),
        Keyword::Del => Some(State::WantsKey(RowVerb::Deletes)),
        Keyword::Disconnect => Some(State::Whole(Statement::Disconnect)),
        _ => None,
    }
}

/// Returns the state after `XA` and this word, or `None` if no statement begins so.
fn xa_word(word: Keyword) -> Option<State>
    ensures { result ≡ after_word State.AfterXa word }
{
    match word {
        Keyword::Start | Keyword::Begin => Some(State::WantsGtrid(Verb::Starts)),
        Keyword::End => Some(State::WantsGtrid(Verb::Ends)),
        Keyword::Prepare => Some(State::WantsGtrid(Verb::Prepares)),
        Keyword::Commit => Some(State::WantsGtrid(Verb::Commits)),
        Keyword::Rollback => Some(State::WantsGtrid(Verb::RollsBack)),
        Keyword::Recover => Some(State::AfterRecover),
        _ => None,
    }
}

/// Returns the state after an xid and this word, or `None` if the verb has no such clause.
fn xid_word(verb: Verb, xid: Xid, word: Keyword) -> Option<State>
    ensures { result ≡ xid_word verb xid word }
{
    match (verb, word) {
        // `JOIN`, `RESUME` and `SUSPEND` are recognised but not supported. What comes after `SUSPEND` is still read.
        (Verb::Starts, Keyword::Join | Keyword::Resume) => {
            Some(State::Whole(Statement::Unsupported))
        }
        (Verb::Ends, Keyword::Suspend) => Some(State::AfterSuspend),
        (Verb::Commits, Keyword::One) => Some(State::AfterOne(xid)),
        _ => None,
    }
}

/// Returns the state after the key of a statement with this verb: only `PUT` goes on.
fn after_key(verb: RowVerb, key: Key) -> State
    ensures { result ≡ after_key verb key }
{
    match verb {
        RowVerb::Gets => State::Whole(Statement::Get(key)),
        RowVerb::Puts => State::AfterKey(key),
        RowVerb::Deletes => State::Whole(Statement::Del(key)),
    }
}

/// Returns the statement of a verb and an xid, without `ONE PHASE`.
pub(crate) fn statement_of(verb: Verb, xid: Xid) -> Statement
    ensures { result ≡ statement_of verb xid }
{
    match verb {
        Verb::Starts => Statement::Start(xid),
        Verb::Ends => Statement::End(xid),
        Verb::Prepares => Statement::Prepare(xid),
        Verb::Commits => Statement::Commit {
            xid,
            one_phase: false,
        },
        Verb::RollsBack => Statement::Rollback(xid),
    }
}

/// Puts the parts of an xid together.
fn xid_of(gtrid: Bytes, bqual: Bytes, format_id: u64) -> Xid
    ensures { result ≡ xid_of gtrid bqual format_id }
{
    Xid {
        format_id,
        gtrid,
        bqual,
    }
}
