//! How passes and spares go to rest, and wake.
ghost use Rattle.std.specs.Prelude.{◌≡◌, IfSome};
ghost use Rattle.chain_log.specs.Resting.{resting_log_of, resting_known_of, resting_spare_log_of};
ghost use Rattle.chain_log.specs.{Resting.resting_spare_known_of, RingPass.{log_of, known_of}};
ghost use Rattle.chain_log.specs.RingSpare.{spare_log_of, spare_known_of};

use crate::{RestingPass, RestingSpare, RingPass, RingSpare};
use atomic_table::Perch;

impl RingPass {
    /// Lets the pass rest between two calls, as threads may share it then.
    ///
    /// Takes no memory. Doesn't wait.
    /// Own rule: docs/INTERNALS.md#the-ring.
    pub fn rest(self) -> RestingPass
        // Proved (log, ring-resting): A pass or a spare that goes to rest, and wakes, is of its ring, and knows what it
        //   knew.
        ensures log { resting_log_of result ≡ log_of self }
        // Proved (log, ring-resting)
        ensures known { resting_known_of result ≡ known_of self }
    {
        let RingPass {
            seat,
            number,
            newest,
            count,
            low,
            columns,
        } = self;
        let perch = Perch::new(&seat, 0);
        // The word of a perch is 2 or more while a seat is there. It is 0 here, so the seat stays, and the word is 2.
        let _rests = perch.give(seat, 0, 2);
        RestingPass {
            perch,
            number,
            newest,
            count,
            low,
            columns,
        }
    }
}

impl RestingPass {
    /// Wakes the pass. `None` would mean that its seat isn't on the perch, but `rest` left it there.
    ///
    /// Takes no memory. Doesn't wait.
    /// Own rule: docs/INTERNALS.md#the-ring.
    pub fn wake(self) -> Option<RingPass>
        // Proved (log, ring-resting)
        ensures log { IfSome result (λ pass. log_of pass ≡ resting_log_of self) }
        // Proved (log, ring-resting)
        ensures known { IfSome result (λ pass. known_of pass ≡ resting_known_of self) }
    {
        let RestingPass {
            perch,
            number,
            newest,
            count,
            low,
            columns,
        } = self;
        // The perch's word becomes 0: no seat is there. What it was isn't needed, as the seat itself comes back.
        let (_, found) = perch.take(0);
        let seat = found?;
        Some(RingPass {
            seat,
            number,
            newest,
            count,
            low,
            columns,
        })
    }
}

impl RingSpare {
    /// Lets the spare rest between two calls, as threads may share it then.
    ///
    /// Takes no memory. Doesn't wait.
    /// Own rule: docs/INTERNALS.md#the-ring.
    pub fn rest(self) -> RestingSpare
        // Proved (log, ring-resting)
        ensures log { resting_spare_log_of result ≡ spare_log_of self }
        // Proved (log, ring-resting)
        ensures known { resting_spare_known_of result ≡ spare_known_of self }
    {
        let RingSpare { seat, count } = self;
        let perch = Perch::new(&seat, 0);
        // The word of a perch is 2 or more while a seat is there. It is 0 here, so the seat stays, and the word is 2.
        let _rests = perch.give(seat, 0, 2);
        RestingSpare { perch, count }
    }
}

impl RestingSpare {
    /// Wakes the spare. `None` would mean that its seat isn't on the perch, but `rest` left it there.
    ///
    /// Takes no memory. Doesn't wait.
    /// Own rule: docs/INTERNALS.md#the-ring.
    pub fn wake(self) -> Option<RingSpare>
        // Proved (log, ring-resting)
        ensures log { IfSome result (λ spare. spare_log_of spare ≡ resting_spare_log_of self) }
        // Proved (log, ring-resting)
        ensures known { IfSome result (λ spare. spare_known_of spare ≡ resting_spare_known_of self) }
    {
        let RestingSpare { perch, count } = self;
        // The perch's word becomes 0: no seat is there. What it was isn't needed, as the seat itself comes back.
        let (_, found) = perch.take(0);
        let seat = found?;
        Some(RingSpare { seat, count })
    }
}
