//! What passes tell a spare, and what they hear from it.
ghost use Rattle.std.specs.Prelude.{◌≡◌, length};
ghost use Rattle.decision_log.specs.Calls.{MeetsFirst, MeetsSecond};
ghost use Rattle.chain_log.specs.{RingPass.{identity_of, log_of, known_of}, RingSpare.{spare_log_of, spare_known_of}};

use crate::ring_layout::place_count;
use crate::{RingLog, RingPass, RingSpare};

impl RingLog {
    /// Returns how many entries a spare remembers.
    ///
    /// Takes no memory. Doesn't wait.
    /// Own rule: docs/INTERNALS.md#the-ring.
    pub fn remembered(&self, spare: &RingSpare) -> u64
        requires { spare_log_of spare.now ≡ identity_of self.now }
        // Proved (log, ring-spares)
        ensures { result ≡ length (spare_known_of spare.now).seen }
    {
        spare.count
    }

    /// Lets a spare meet a pass: the spare has then seen all that the pass has.
    ///
    /// Takes no memory. Doesn't wait.
    /// Own rule: docs/INTERNALS.md#the-ring.
    pub fn tell(&self, pass: &mut RingPass, spare: &mut RingSpare)
        requires pass { log_of pass.old ≡ identity_of self.now }
        requires spare { spare_log_of spare.old ≡ identity_of self.now }
        ensures belongs { (log_of pass.new ≡ log_of pass.old) × (spare_log_of spare.new ≡ spare_log_of spare.old) }
        // Proved (log, ring-spares): After a pass of a ring tells a spare, the spare has seen all that the pass has.
        //   After a pass hears a spare, the pass has seen all that the spare has. Each keeps what it had seen. A spare
        //   returns how many entries it has seen.
        ensures pass { MeetsFirst (known_of pass.old) (known_of pass.new) }
        // Proved (log, ring-spares)
        ensures spare { MeetsSecond (known_of pass.old) (spare_known_of spare.old) (spare_known_of spare.new) }
    {
        let newest = self.table.meet(&mut pass.seat, &mut spare.seat);
        // Else the spare has seen at least as much already, and stays as it is.
        if spare.count < pass.count {
            // `newest` was loaded at a seat that knows both, so what the spare has seen ends there.
            spare.count = place_count(self.columns, newest);
        }
    }

    /// Lets a pass meet a spare: the pass has then seen all that the spare has.
    ///
    /// Takes no memory. Doesn't wait.
    /// Own rule: docs/INTERNALS.md#the-ring.
    pub fn hear(&self, spare: &mut RingSpare, pass: &mut RingPass)
        requires spare { spare_log_of spare.old ≡ identity_of self.now }
        requires pass { log_of pass.old ≡ identity_of self.now }
        ensures belongs { (spare_log_of spare.new ≡ spare_log_of spare.old) × (log_of pass.new ≡ log_of pass.old) }
        // Proved (log, ring-spares)
        ensures spare { MeetsFirst (spare_known_of spare.old) (spare_known_of spare.new) }
        // Proved (log, ring-spares)
        ensures pass { MeetsSecond (spare_known_of spare.old) (known_of pass.old) (known_of pass.new) }
    {
        self.meet_at(&mut spare.seat, spare.count, pass);
    }
}
