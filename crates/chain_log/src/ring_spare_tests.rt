//! Spares of a ring: what they are told, and passes that hear them after they slept.

ghost use Rattle.std.specs.Prelude.{◌≡◌, All, IfSome};
ghost use Rattle.chain_log.specs.{RingPass.{identity_of, log_of}, RingSpare.spare_log_of};

use crate::ring_tests::{Pair, adds, adds_at_once, adds_each, misses, pair_of, pops_pass, reads};
use crate::{RingLog, RingPass, RingSpare};
use std::alloc::Global;

/// Takes the last spare, of a ring, from a list of its spares.
fn pops_spare(log: &RingLog, spares: &mut Vec<RingSpare>) -> Option<RingSpare>
    requires { All (λ spare. spare_log_of spare ≡ identity_of log.now) spares.old.items }
    ensures rest { All (λ spare. spare_log_of spare ≡ identity_of log.now) spares.new.items }
    ensures last { IfSome result (λ spare. spare_log_of spare ≡ identity_of log.now) }
{
    spares.pop()
}

/// A ring with four rows and a spare, the pass that adds, and one that sleeps.
#[derive(Drop)]
struct Sleepers {
    /// The ring.
    log: RingLog,
    /// The pass of session 1, which adds.
    fast: RingPass,
    /// The pass of session 2, which sleeps.
    slow: RingPass,
    /// The spare.
    spare: RingSpare,
    // The pass that adds is of the ring.
    ghost fast_is: { log_of fast ≡ identity_of log },
    // So is the pass that sleeps.
    ghost slow_is: { log_of slow ≡ identity_of log },
    // And so is the spare.
    ghost spare_is: { spare_log_of spare ≡ identity_of log },
}

/// The passes of a pair, with the last of the spares.
fn sleepers_of(pair: Pair, mut spares: Vec<RingSpare>) -> Option<Sleepers>
    requires { All (λ spare. spare_log_of spare ≡ identity_of pair.log) spares.items }
{
    let spare = pops_spare(&pair.log, &mut spares)?;
    let Pair { log, first, second } = pair;
    Some(Sleepers {
        log,
        fast: first,
        slow: second,
        spare,
    })
}

/// Opens a ring with four rows, two sessions and a spare.
fn opens_sleepers(alloc: Global) -> Option<Sleepers> {
    let Ok((log, passes, spares)) = RingLog::open(alloc, 4, 2, 1) else {
        return None;
    };
    sleepers_of(pair_of(log, passes)?, spares)
}

impl Sleepers {
    /// Whether the spare remembers so many entries, and the slow pass has seen so many.
    fn knows(&self, remembered: u64, seen: u64) -> bool {
        (self.log.remembered(&self.spare) == remembered) & (self.log.length(&self.slow) == seen)
    }

    /// The fast pass tells the spare.
    fn fast_tells(&mut self) {
        self.log.tell(&mut self.fast, &mut self.spare);
    }

    /// The slow pass tells the spare.
    fn slow_tells(&mut self) {
        self.log.tell(&mut self.slow, &mut self.spare);
    }

    /// The slow pass hears the spare.
    fn slow_hears(&mut self) {
        self.log.hear(&mut self.spare, &mut self.slow);
    }

    /// Whether the slow pass misses entry 6 and reads entry 7, both of the fast one's.
    fn reads_the_last_lap(&mut self) -> bool {
        let one = self.log.number(&self.fast);
        let missed = misses(&self.log, &mut self.slow, 6);
        missed & reads(&self.log, &mut self.slow, 7, one, 7)
    }

    /// Whether a spare that a pass tells of three entries remembers three, and a pass that hears it has seen three.
    fn passes_on_three(&mut self) -> bool {
        let added = adds_each(&self.log, &mut self.fast, 0, 3);
        self.fast_tells();
        self.slow_hears();
        added & self.knows(3, 3)
    }

    /// Whether a pass that has seen 3 of 11 entries in four rows has seen 11 after it hears a spare that was told
    /// them. It then reads entry 7, and entry 6 is lost.
    fn hears_of_two_laps(&mut self) -> bool {
        let added = adds_each(&self.log, &mut self.fast, 3, 8);
        let asleep = self.knows(3, 3);
        self.fast_tells();
        self.slow_hears();
        added & asleep & self.knows(11, 11) & self.reads_the_last_lap()
    }

    /// Whether the slow pass, which has seen 12 entries, appends the thirteenth, and the fast one sees it.
    fn slow_goes_on(&mut self) -> bool {
        let seen = self.log.length(&self.slow) == 12;
        let added = adds_at_once(&self.log, &mut self.slow, 12);
        seen & added & (self.log.look(&mut self.fast) == 13)
    }

    /// Whether a spare that has seen more than a pass keeps that when the pass tells it less.
    ///
    /// Before, the log has 11 entries, and all three have seen them. `fast` adds the twelfth; `slow` hears of it from
    /// the spare, and adds the thirteenth.
    fn keeps_the_longer(&mut self) -> bool {
        let added = adds(&self.log, &mut self.fast, 11);
        self.fast_tells();
        self.slow_tells();
        let kept = self.knows(12, 11);
        self.slow_hears();
        added & kept & self.slow_goes_on()
    }
}

#[test]
fn a_pass_that_slept_two_laps_hears_a_spare(rt: HostRuntime) {
    let Some(mut sleepers) = opens_sleepers(rt.alloc()) else {
        panic!(rt; "not opened")
    };
    assert!(rt; sleepers.log.sessions() == 2);
    assert!(rt; sleepers.passes_on_three());
    assert!(rt; sleepers.hears_of_two_laps());
    assert!(rt; sleepers.keeps_the_longer());
}

/// Whether a spare that a pass tells of five entries remembers five, and another spare none.
fn tells_one(log: &RingLog, pass: &mut RingPass, spare: &mut RingSpare, other: &RingSpare) -> bool
    requires pass { log_of pass.old ≡ identity_of log.now }
    requires spare { spare_log_of spare.old ≡ identity_of log.now }
    requires other { spare_log_of other.now ≡ identity_of log.now }
{
    let added = adds_each(log, pass, 0, 5);
    log.tell(pass, spare);
    added & (log.remembered(spare) == 5) & (log.remembered(other) == 0)
}

/// Whether a pass tells the first of two spares alone.
fn tells_one_of_two(log: &RingLog, pass: &mut RingPass, mut spares: Vec<RingSpare>) -> bool
    requires pass { log_of pass.old ≡ identity_of log.now }
    requires spares { All (λ spare. spare_log_of spare ≡ identity_of log.now) spares.items }
{
    let Some(other) = pops_spare(log, &mut spares) else {
        return false;
    };
    let Some(mut spare) = pops_spare(log, &mut spares) else {
        return false;
    };
    tells_one(log, pass, &mut spare, &other)
}

#[test]
fn a_spare_that_is_told_nothing_remembers_nothing(rt: HostRuntime) {
    let Ok((log, mut passes, spares)) = RingLog::open(rt.alloc(), 4, 1, 2) else {
        panic!(rt; "not opened")
    };
    let Some(mut pass) = pops_pass(&log, &mut passes) else {
        panic!(rt; "a pass")
    };
    assert!(rt; tells_one_of_two(&log, &mut pass, spares));
}
