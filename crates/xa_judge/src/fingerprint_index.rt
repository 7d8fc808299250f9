//! At which places of a list the configurations of each fingerprint are.
ghost use Rattle.std.specs.Prelude.{◌≡◌, true, IfOk};
ghost use Rattle.xa_judge.specs.{Marks.mark, Found.{config_of, IsSpread}};

use crate::branch_records::BranchRecords;
use crate::configuration::Configuration;
use crate::event::Event;
use crate::fingerprints::{mark_of, mark_of_key};
use crate::request::Request;
use crate::room::MOST_RECORDS;
use crate::shared_lists::SharedLists;
use std::alloc::Global;
use std::collections::{BTreeMap, BTreeSet};
use xa_xid::{Key, NoMemory, Statement};

/// The greatest number of written rows that are listed: every fingerprint reads all of them, so more would take too
/// long.
const MOST_WRITTEN: usize = 65_536;

/// At which places of a list the configurations of each fingerprint are, as a chain of places for each
/// fingerprint.
///
/// Every configuration at such a place is compared before it counts as the same. So a poor fingerprint costs time,
/// and makes no verdict wrong.
#[derive(Drop)]
pub struct FingerprintIndex {
    /// The last place of each fingerprint.
    last: BTreeMap<u64, usize>,
    /// For each place the last one before it that has the same fingerprint, if there is one.
    before: Vec<Option<usize>>,
    /// The fingerprint of the configuration that was looked up last; None again after `note` or `clear`.
    sought: Option<u64>,
    /// Rows that events called to write since rows were forgotten last, at most `MOST_WRITTEN`. As a rule each other
    /// row has the same value in all configurations. Where one hasn't, more fingerprints are equal.
    written: Vec<Key>,
    /// For each row that an event called to write, by its fingerprint: how often rows had been forgotten at the last
    /// such event. Past `MOST_RECORDS` rows, new ones are left out (`see_written`).
    rows: BTreeMap<u64, u64>,
    /// How often rows were forgotten.
    forgotten: u64,
    /// How often a configuration was looked up since lookups were forgotten last (`forget_lookups`).
    lookups: u64,
    /// An estimate of the records of branches that servers have in addition to rows.
    branches: BranchRecords,
    /// The lists that configurations share which have seen the same events.
    pub lists: SharedLists,
    alloc: Global,
}

/// The row that the event calls to write by `PUT` or `DEL`; None if it is no such call.
fn key_written(event: &Event) -> Option<&Key> {
    match event {
        Event::Call(_, request) => match request.request() {
            Request::Statement(Statement::Put(key, _)) => Some(key),
            Request::Statement(Statement::Del(key)) => Some(key),
            _ => None,
        },
        _ => None,
    }
}

impl FingerprintIndex {
    /// Returns the index of an empty list.
    pub fn new(alloc: Global) -> FingerprintIndex {
        FingerprintIndex {
            last: BTreeMap::new(alloc),
            before: Vec::new(alloc),
            sought: None,
            written: Vec::new(alloc),
            rows: BTreeMap::new(alloc),
            forgotten: 0,
            lookups: 0,
            branches: BranchRecords::new(alloc),
            lists: SharedLists::new(alloc),
            alloc,
        }
    }

    /// Forgets all places, so that the index can serve another list.
    pub fn clear(&mut self) {
        self.last.clear();
        self.before.clear();
        self.sought = None;
    }

    /// Forgets all places and `lists`, so that the index can serve a list of configurations that have also seen this
    /// event. Takes note of what the event calls to write, and of what it does to branches.
    ///
    /// May return `NoMemory`.
    pub fn go_on(&mut self, event: &Event) -> Result<(), NoMemory> {
        self.clear();
        self.lists.clear();
        if let Some(key) = key_written(event) {
            self.see_written(key)?;
        }
        self.branches.see(event)
    }

    /// Takes note that an event calls to write this row: counts it in `rows`, once, and lists it in `written`, if it
    /// isn't known to be there. Once more rows are counted than any server has room for, no new one is counted.
    fn see_written(&mut self, key: &Key) -> Result<(), NoMemory> {
        let fingerprint = mark_of_key(key);
        let is_full = self.rows.len() > MOST_RECORDS && !self.rows.contains_key(&fingerprint);
        // A row that was listed since rows were forgotten last is listed still.
        let is_listed = !is_full
            && self.rows.insert(fingerprint, self.forgotten)? == Some(self.forgotten);
        // A row is listed once, unless there are too many to be counted. Past the greatest number rows are left out:
        // more fingerprints are equal then.
        if !is_listed && self.written.len() < MOST_WRITTEN {
            self.written.push(key.copy())?;
        }
        Ok(())
    }

    /// Forgets the written rows if the list has one configuration (`count` is how many it has), and by the events no
    /// call is open and no branch exists. From there on all configurations begin with the values of that one.
    pub fn settle(&mut self, count: usize) {
        if count == 1 && self.branches.is_still() {
            self.written.clear();
            self.forgotten = self.forgotten.saturating_add(1);
        }
    }

    /// Returns how many records of rows and branches a server has, estimated from the events: those that the base had
    /// before them aren't counted.
    pub fn records(&self) -> usize {
        self.rows.len().saturating_add(self.branches.sum())
    }

    /// The fingerprint of a configuration.
    fn mark_of(&self, one: &Configuration) -> Result<u64, NoMemory>
        // Proved (records, fingerprints-tell-apart)
        ensures { IfOk result (λ number. number ≡ mark self.now.written.items (config_of one.now)) }
    {
        mark_of(self.alloc, one, self.written.as_slice())
    }

    /// Tells whether the list has more than `limit` different fingerprints. Then it has more than `limit`
    /// configurations of which no two are the same.
    ///
    /// May return `NoMemory`.
    pub fn is_spread(&self, known: &[Configuration], limit: usize) -> Result<bool, NoMemory>
        // Proved (records, fingerprints-tell-apart): Configurations that are counted against the limit
        //   differ: their fingerprints do, and a fingerprint is a function of the configuration.
        ensures { IfOk result (λ spread. spread ≡ true → IsSpread limit known.now) }
    {
        let mut marks = BTreeSet::new(self.alloc);
        let mut count = 0;
        for one in known {
            let fingerprint = self.mark_of(one)?;
            if marks.insert(fingerprint)? {
                count += 1;
            }
        }
        Ok(limit < count)
    }

    /// Takes up the places of the list `known` that the index doesn't have yet.
    ///
    /// May return `NoMemory`.
    pub fn catch_up(&mut self, known: &[Configuration]) -> Result<(), NoMemory> {
        for place in self.before.len()..known.len() {
            let fingerprint = self.mark_of(&known[place])?;
            self.push(fingerprint)?;
        }
        Ok(())
    }

    /// Takes up the next place, whose configuration has this fingerprint.
    fn push(&mut self, fingerprint: u64) -> Result<(), NoMemory> {
        let before = self.last.insert(fingerprint, self.before.len())?;
        self.before.push(before)?;
        Ok(())
    }

    /// Takes up the last of the list's `count` places, at which the caller has just put the configuration that it
    /// looked up. Does nothing if it looked up none, as in a short list: `catch_up` takes up such places later.
    ///
    /// May return `NoMemory`.
    pub fn note(&mut self, count: usize) -> Result<(), NoMemory> {
        match self.sought {
            None => Ok(()),
            Some(fingerprint) => {
                self.sought = None;
                // Only the last place is missing, so the fingerprint is that place's.
                if self.before.len().saturating_add(1) == count {
                    self.push(fingerprint)?;
                }
                Ok(())
            }
        }
    }

    /// Returns the last place that has the fingerprint of the configuration `one`; None if no place has. The
    /// configuration counts as looked up.
    ///
    /// May return `NoMemory`.
    pub fn last_of(&mut self, one: &Configuration) -> Result<Option<usize>, NoMemory> {
        let fingerprint = self.mark_of(one)?;
        self.lookups = self.lookups.saturating_add(1);
        // If the configuration is added next, `note` takes its fingerprint from here: to make it again takes long.
        self.sought = Some(fingerprint);
        Ok(self.last.get(&fingerprint).copied())
    }

    /// Returns how often a configuration was looked up since `forget_lookups` was called last.
    pub fn lookups(&self) -> u64 {
        self.lookups
    }

    /// Counts from nought how often a configuration is looked up.
    pub fn forget_lookups(&mut self) {
        self.lookups = 0;
    }

    /// Returns the last place before this one that has the same fingerprint; None if none has.
    pub fn before(&self, place: usize) -> Option<usize> {
        self.before.get(place).copied().flatten()
    }
}
