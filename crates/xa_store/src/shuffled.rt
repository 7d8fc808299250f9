//! A gate at which sessions let other threads run for a pseudo-random number of turns.
ghost use Rattle.std.specs.Prelude.{◌≡◌, ◌<◌, IsTrue};

use crate::{Gate, TogetherGate};
use rand_core::utils::NextWord;
use rand_pcg::Pcg32;
use std::thread::yield_now;
use xa_xid::SessionNo;

/// Lets all runs begin at the same time, and delays each of their statements by a pseudo-random time.
///
/// Sessions wait for each other before their first statements, as at `TogetherGate`. Before each of its
/// statements a session lets another thread run for 0 to 63 turns, by a generator with the given seed and a
/// stream for each session. The gate never stops a run, so outcomes are those of a race with `OpenGate`; some
/// get likelier. The scheduler decides what the turns lead to: two races with one seed can differ.
#[derive(Drop)]
pub struct ShuffledGate {
    /// Where the sessions wait for each other at first.
    together: TogetherGate,
    /// The seed of each session's stream.
    seed: u64,
}

impl ShuffledGate {
    /// Makes a gate of a seed, in `[0, 2^64)`.
    ///
    /// Takes no memory. Doesn't wait.
    /// Own rule: docs/RATTLE.md#races.
    pub fn new(seed: u64) -> ShuffledGate
        ensures { result.seed ≡ seed }
    {
        ShuffledGate {
            together: TogetherGate::new(),
            seed,
        }
    }

    /// How many turns a session waits before this line, in `[0, 64)`.
    fn turns(&self, session: SessionNo, line: u64) -> u32
        ensures { result < 64 }
    {
        // The generator is at its start for each line, so the turns depend on seed, session and line alone.
        let mut stream = Pcg32::new(self.seed, session.get());
        stream.advance(line);
        // 64 divides 2^32, so each number of turns is equally likely.
        stream.next_word() % 64
    }
}

// Proved (stores, gates-let-in)
impl Gate for ShuffledGate {
    ghost may_answer = { λ _ _ _ opened. IsTrue opened };

    fn announce(&self, speakers: u64) {
        self.together.announce(speakers);
    }

    fn enter(&self, session: SessionNo, line: u64) -> bool {
        // First statements begin together. The session's own turns come after that. `TogetherGate` stops no run.
        let opened = self.together.enter(session, line);
        for _ in 0..self.turns(session, line) {
            yield_now();
        }
        opened
    }
}
