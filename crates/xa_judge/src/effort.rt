//! How much may be done where configurations are kept that later returns allow.

use crate::fingerprint_index::FingerprintIndex;
use crate::room::holds;

/// How many records of rows and branches may be looked at for any record of events: some seconds' work, after which the
/// other ways to a verdict follow.
const LOOKS: u64 = 22_000_000;

/// How many more may be looked at for each event, since a longer record needs more.
const LOOKS_EACH: u64 = 3_000;

/// What looking up a configuration takes besides: as much as looking at this many records does.
const LOOKUP: u64 = 8;

/// Of a configuration no more records than these are counted: large tables mustn't use up what may be done. So
/// configurations may be looked up 500,000 times at least: `LOOKS` divided by the sum of `LOOKUP` and this number.
const COUNTED: u64 = 36;

/// How many configurations may be kept at a time, and how many more may be looked up. A configuration with more records
/// of rows and branches takes longer to look up, so records are counted.
#[derive(Drop)]
pub struct Effort {
    /// The greatest number that is kept.
    limit: usize,
    /// How many records may still be looked at.
    left: u64,
}

/// How many records were looked at since the index began to count lookups: for each lookup as many as a server has now,
/// but at most `COUNTED`, and `LOOKUP` more.
fn looked_at(index: &FingerprintIndex) -> u64 {
    let each = LOOKUP + COUNTED.min(index.records() as u64);
    each.saturating_mul(index.lookups())
}

impl Effort {
    /// Returns what may be done for a record of `events` events, if at most `limit` configurations are kept at a time.
    pub fn new(limit: usize, events: usize) -> Effort {
        Effort {
            limit,
            left: LOOKS.saturating_add(LOOKS_EACH.saturating_mul(events as u64)),
        }
    }

    /// Tells whether more may be done while `kept` configurations are kept, each with a server of its own: these are no
    /// more than the limit, what was looked at since `spend` is no more than is left, and memory holds them.
    pub fn allows(&self, kept: usize, index: &FingerprintIndex) -> bool {
        kept <= self.limit && looked_at(index) <= self.left && holds(kept, index.records())
    }

    /// Counts what lookups in the index looked at as done, so that less is left, and has the index count lookups from
    /// nought.
    pub fn spend(&mut self, index: &mut FingerprintIndex) {
        self.left = self.left.saturating_sub(looked_at(index));
        index.forget_lookups();
    }
}
