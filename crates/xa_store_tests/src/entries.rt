//! Entries as words and back, by example.

use xa_statement::read_statement;
use xa_words::{Entry, WORDS, decode, encode};
use xa_xid::{SessionNo, Statement};

/// A statement of a session, and the words of its entry that aren't 0.
#[derive(Clone, Copy)]
struct Laid {
    /// The session's number.
    session: u64,
    /// The statement.
    text: &'static str,
    /// Words 0 to 4.
    head: [u64; 5],
    /// The first word of the first text.
    first: u64,
    /// The first word of the second text.
    second: u64,
}

/// Entries with words that were laid out by hand.
const LAID: [Laid; 4] = [
    Laid {
        session: 1,
        text: "XA START 'abc','def',7",
        head: [1, 1, 3, 3, 7],
        first: 0x6162_6300_0000_0000,
        second: 0x6465_6600_0000_0000,
    },
    Laid {
        session: 3,
        text: "PUT 'k','v'",
        head: [3, 8, 1, 1, 0],
        first: 0x6b00_0000_0000_0000,
        second: 0x7600_0000_0000_0000,
    },
    Laid {
        session: 3,
        text: "GET 'k'",
        head: [3, 7, 1, 0, 0],
        first: 0x6b00_0000_0000_0000,
        second: 0,
    },
    Laid {
        session: 2,
        text: "DISCONNECT",
        head: [2, 10, 0, 0, 0],
        first: 0,
        second: 0,
    },
];

impl Laid {
    /// Its words.
    fn words(&self) -> [u64; WORDS] {
        let mut words = [0; WORDS];
        words[..5].copy_from_slice(&self.head);
        words[5] = self.first;
        words[13] = self.second;
        words
    }

    /// Its entry.
    fn entry(&self) -> Option<Entry> {
        let statement = read_statement(self.text.as_bytes()).ok()?;
        Entry::of(SessionNo::of(self.session)?, &statement)
    }
}

/// Whether an entry is these words, and these words are it.
fn is_there_and_back(entry: &Entry, words: &[u64; WORDS]) -> bool {
    match decode(words) {
        Some(read) => encode(entry) == *words && read == *entry,
        None => false,
    }
}

#[test]
fn entries_are_words_and_back(rt: HostRuntime) {
    for laid in LAID {
        let is_so = match laid.entry() {
            Some(entry) => is_there_and_back(&entry, &laid.words()),
            None => false,
        };
        assert!(rt; is_so, "{}", laid.text);
    }
}

/// A row of `LAID`, the index of one of its words, and a word there with which they are no entry.
const WRONG: [(usize, usize, u64); 17] = [
    (0, 0, 0),
    (0, 0, 17),
    (0, 1, 0),
    (0, 1, 11),
    (0, 2, 2),
    (0, 2, 65),
    (0, 13, 0x6465_6600_0000_0001),
    (0, 20, 1),
    (1, 2, 0),
    (1, 3, 65),
    (1, 4, 1),
    (2, 2, 0),
    (2, 3, 1),
    (2, 4, 1),
    (3, 2, 1),
    (3, 4, 1),
    (3, 12, 1),
];

/// The words of a row with another one at an index.
fn changed(row: usize, index: usize, word: u64) -> Option<[u64; WORDS]> {
    let mut words = LAID.get(row)?.words();
    *words.get_mut(index)? = word;
    Some(words)
}

#[test]
fn other_words_are_no_entry(rt: HostRuntime) {
    for (row, index, word) in WRONG {
        let is_none = match changed(row, index, word) {
            Some(words) => decode(&words).is_none(),
            None => false,
        };
        assert!(rt; is_none, "row {row}: {index} as {word}");
    }
}

/// The entry of a statement of session 16.
fn entry_of(statement: &Statement) -> Option<Entry> {
    Entry::of(SessionNo::of(16)?, statement)
}

#[test]
fn recover_and_unsupported_are_no_entries(rt: HostRuntime) {
    assert!(rt; entry_of(&Statement::Unsupported).is_none());
    assert!(rt; entry_of(&Statement::Recover { convert: true }).is_none());
    assert!(rt; entry_of(&Statement::Recover { convert: false }).is_none());
}
