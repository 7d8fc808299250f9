//! A gate at which the runs of a race wait for each other before their first statements.
ghost use Rattle.std.specs.Prelude.{IsTrue};

use crate::Gate;
use std::sync::atomic::{AtomicU64, Ordering};
use std::thread::yield_now;
use xa_xid::SessionNo;

/// How often a session that waits for the others lets another thread run before it goes on without them. There is a
/// bound since a session whose thread can't be started never arrives.
const TURNS: u64 = 1_000_000;

/// Lets all runs of a race begin at the same time.
///
/// A session waits before its first statement until all runs that have a statement are there, for at most
/// 1,000,000 turns (it lets another thread run). Then it goes on without them, so a race ends even if a
/// thread can't be started. The gate never stops a run, so outcomes are those of a race with `OpenGate`; some
/// get likelier.
#[derive(Drop)]
pub struct TogetherGate {
    /// How many sessions have a statement.
    awaited: AtomicU64,
    /// How many of them have come to their first statement.
    arrived: AtomicU64,
}

impl TogetherGate {
    /// Makes a gate at which no session waits yet.
    ///
    /// Takes no memory. Doesn't wait.
    /// Own rule: docs/RATTLE.md#races.
    pub fn new() -> TogetherGate {
        TogetherGate {
            awaited: AtomicU64::new(0),
            arrived: AtomicU64::new(0),
        }
    }

    /// Waits until all sessions that have a statement are at their first, or for `TURNS` turns.
    fn await_all(&self) {
        // How many had arrived before doesn't matter: the loop counts anew.
        let _before = self.arrived.fetch_add(1, Ordering::SeqCst);
        for _ in 0..TURNS {
            if self.arrived.load(Ordering::SeqCst) >= self.awaited.load(Ordering::SeqCst) {
                return;
            }
            yield_now();
        }
    }
}

// Proved (stores, gates-let-in)
impl Gate for TogetherGate {
    ghost may_answer = { λ _ _ _ opened. IsTrue opened };

    fn announce(&self, speakers: u64) {
        // A gate may serve one race after another, so the count begins anew. No run has started yet, so the order of
        // these two steps doesn't matter.
        self.arrived.store(0, Ordering::SeqCst);
        self.awaited.store(speakers, Ordering::SeqCst);
    }

    fn enter(&self, _session: SessionNo, line: u64) -> bool {
        // Only first statements begin together.
        if line == 0 {
            self.await_all();
        }
        true
    }
}
