//! A gate for several races, which shuffles each of them anew.
ghost use Rattle.std.specs.Prelude.{◌<◌, IsTrue};

use rand_core::utils::NextWord;
use rand_pcg::Pcg32;
use std::sync::atomic::{AtomicU64, Ordering};
use std::thread::yield_now;
use xa_store::{Gate, TogetherGate};
use xa_xid::SessionNo;

/// A gate for several races, which shuffles each of them anew.
///
/// The sessions of a race wait for each other before their first lines. Before each of its lines a session
/// steps aside for some turns, as at `ShuffledGate`. The first race has the turns of the given seed, each
/// later one those of the next seed; after 2^64 - 1 comes 0. The gate never stops a run, so a race with it
/// can do no more than one with `OpenGate`.
#[derive(Drop)]
pub struct ReshuffledGate {
    /// Where the sessions of a race wait for each other at first.
    together: TogetherGate,
    /// The seed of the next race.
    seed: AtomicU64,
}

impl ReshuffledGate {
    /// Returns a gate whose first race has this seed, in `[0, 2^64)`.
    ///
    /// Takes no memory. Doesn't wait.
    /// Own rule: docs/COMMANDS.md#race-statistics.
    pub fn new(seed: u64) -> ReshuffledGate {
        ReshuffledGate {
            together: TogetherGate::new(),
            seed: AtomicU64::new(seed),
        }
    }

    /// The number of turns for which a session steps aside before this line, in `[0, 64)`.
    fn turns(&self, session: SessionNo, line: u64) -> u32
        ensures { result < 64 }
    {
        // When the race that runs was announced, `announce` counted the seed on to that of the next one. At 2^64 both
        // wrap around.
        let seed = self.seed.load(Ordering::SeqCst).wrapping_sub(1);
        // Each session has a stream of its own, of which each of its lines has one word, in order.
        let mut stream = Pcg32::new(seed, session.get());
        stream.advance(line);
        // As at `ShuffledGate`. 64 divides 2^32, so each number of turns is equally likely.
        stream.next_word() % 64
    }
}

// Proved (races, reshuffled-gate): `ReshuffledGate` lets every session in, so no race with it ends with
//   `GateShut`.
impl Gate for ReshuffledGate {
    ghost may_answer = { λ _ _ _ opened. IsTrue opened };

    fn announce(&self, speakers: u64) {
        // Each race begins with the next seed, so it is shuffled otherwise.
        let _before = self.seed.fetch_add(1, Ordering::SeqCst);
        self.together.announce(speakers);
    }

    fn enter(&self, session: SessionNo, line: u64) -> bool {
        // Only the first line waits here for the other sessions. `TogetherGate` lets every session in.
        let opened = self.together.enter(session, line);
        // The session then steps aside for as many turns as the seed draws for this line.
        for _ in 0..self.turns(session, line) {
            yield_now();
        }
        opened
    }
}
