//! How far the checkpoints of a store have come.

use std::sync::atomic::AtomicU64;
use std::sync::atomic::Ordering::SeqCst;

/// How many entries the newest checkpoint has replayed, and the session that was the last to begin to leave one.
///
/// By these numbers sessions see when a checkpoint is worth its time. No answer depends on them.
#[derive(Drop)]
pub(crate) struct Progress {
    /// What the newest checkpoint has replayed.
    newest: AtomicU64,
    /// What the session that was the last to begin to leave a checkpoint had replayed by then.
    begun: AtomicU64,
}

impl Progress {
    /// Makes the progress of a store in which nothing was replayed.
    pub(crate) fn new() -> Progress {
        Progress {
            newest: AtomicU64::new(0),
            begun: AtomicU64::new(0),
        }
    }

    /// Tells how many entries a checkpoint has replayed. Changes nothing if as much or more is told already.
    pub(crate) fn tell(&self, replayed: u64) {
        // If two threads do this at once, the lower number may stay: a checkpoint is then left too early.
        if self.newest.load(SeqCst) < replayed {
            self.newest.store(replayed, SeqCst);
        }
    }

    /// How many entries the newest checkpoint has replayed, by what was told.
    pub(crate) fn newest(&self) -> u64 {
        self.newest.load(SeqCst)
    }

    /// Tells that a session that has replayed so many entries begins to leave a checkpoint.
    pub(crate) fn begin(&self, replayed: u64) {
        self.begun.store(replayed, SeqCst);
    }

    /// How many entries the session had replayed that last began to leave a checkpoint.
    pub(crate) fn begun(&self) -> u64 {
        self.begun.load(SeqCst)
    }
}
