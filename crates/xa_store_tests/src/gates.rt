//! Gates of the tests.

use std::sync::atomic::{AtomicU64, Ordering};
use std::thread::yield_now;
use xa_store::Gate;
use xa_xid::SessionNo;

/// A gate that stops session 1 before its second statement, and each other session before statement `others`, from 0.
#[derive(Drop)]
pub(crate) struct ShutsFirst {
    pub(crate) others: u64,
}

impl Gate for ShutsFirst {
    fn enter(&self, session: SessionNo, line: u64) -> bool {
        if session.get() == 1 {
            line != 1
        } else {
            line < self.others
        }
    }
}

/// A gate that counts how often it is asked, and is shut for a line that is asked for twice, or not in order.
#[derive(Drop)]
pub(crate) struct CountsQuestions {
    /// How often it was asked.
    pub(crate) asked: AtomicU64,
}

impl Gate for CountsQuestions {
    fn enter(&self, _session: SessionNo, line: u64) -> bool {
        self.asked.fetch_add(1, Ordering::SeqCst) == line
    }
}

/// A gate in front of another one, of two sessions. Session 2 comes late; each one that is let past its first
/// line before both have come is alone.
#[derive(Drop)]
pub(crate) struct Watches<G> {
    pub(crate) behind: G,
    /// How many sessions have come to their first line.
    pub(crate) come: AtomicU64,
    /// How many were let past it alone.
    pub(crate) alone: AtomicU64,
}

impl<G: Gate> Watches<G> {
    /// A gate at which nobody stands, in front of this one.
    pub(crate) fn new(behind: G) -> Watches<G> {
        Watches {
            behind,
            come: AtomicU64::new(0),
            alone: AtomicU64::new(0),
        }
    }

    /// Whether both sessions have come, and neither was let past its first line alone.
    pub(crate) fn have_met(&self) -> bool {
        self.come.load(Ordering::SeqCst) == 2 && self.alone.load(Ordering::SeqCst) == 0
    }

    /// Comes to the first line, and notes whether both had come when the gate let this session past.
    fn meet(&self, session: SessionNo) -> bool {
        let _before = self.come.fetch_add(1, Ordering::SeqCst);
        let opened = self.behind.enter(session, 0);
        if self.come.load(Ordering::SeqCst) < 2 {
            let _before = self.alone.fetch_add(1, Ordering::SeqCst);
        }
        opened
    }
}

impl<G: Gate> Gate for Watches<G> {
    fn announce(&self, runs: u64) {
        self.come.store(0, Ordering::SeqCst);
        self.behind.announce(runs);
    }

    fn enter(&self, session: SessionNo, line: u64) -> bool {
        if line > 0 {
            return self.behind.enter(session, line);
        }
        if session.get() == 2 {
            for _ in 0..1_000 {
                yield_now();
            }
        }
        self.meet(session)
    }
}
