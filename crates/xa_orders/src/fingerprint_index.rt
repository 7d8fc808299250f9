//! At which places of a list the ways of each fingerprint are.

use std::alloc::Global;
use std::collections::BTreeMap;
use xa_xid::NoMemory;

/// At which places of a list the ways of each fingerprint are, as a chain of places for each fingerprint.
///
/// Every way at such a place is compared before it is taken for the same. So a poor fingerprint costs time and
/// changes no result.
#[derive(Drop)]
pub struct FingerprintIndex {
    /// The last place of each fingerprint.
    last: BTreeMap<u64, usize>,
    /// For each place the one before it that has its fingerprint, if there is one.
    before: Vec<Option<usize>>,
}

impl FingerprintIndex {
    /// Returns the index of an empty list.
    pub fn new(alloc: Global) -> FingerprintIndex {
        FingerprintIndex {
            last: BTreeMap::new(alloc),
            before: Vec::new(alloc),
        }
    }

    /// Forgets all places, so that it can serve another list.
    pub fn clear(&mut self) {
        self.last.clear();
        self.before.clear();
    }

    /// Takes up the next place of the list, for a way with this fingerprint.
    ///
    /// May return `NoMemory`; the index is of no use then.
    pub fn push(&mut self, fingerprint: u64) -> Result<(), NoMemory> {
        let place = self.before.len();
        let before = self.last.insert(fingerprint, place)?;
        self.before.push(before)?;
        Ok(())
    }

    /// Returns the last place that has this fingerprint, if one has.
    pub fn last_of(&self, fingerprint: u64) -> Option<usize> {
        self.last.get(&fingerprint).copied()
    }

    /// Returns the last place before this one that has the same fingerprint. None if there is none, and also if `place`
    /// isn't in the list.
    pub fn before(&self, place: usize) -> Option<usize> {
        self.before.get(place).copied().flatten()
    }
}
