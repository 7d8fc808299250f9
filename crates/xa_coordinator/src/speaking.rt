//! The sessions of an unbounded store, as a coordinator uses them.

use crate::{Beside, LastingStore, Speak};
use std::sync::Wait;
use xa_session::{Answer, Fault};
use xa_xid::Statement;

// Proved (coordinator, unbounded-store): An unbounded store's own session keeps the promises of `Speak` over
//   the store's whole history, although the store keeps no entry of it. Its only fault is `NoMemory`.
impl Speak for LastingStore {
    ghost use Rattle.std.specs.Prelude.{◌≡◌, Err, OnErr};
    ghost use Rattle.xa_session.specs.declared.fault.Fault.TheVariants.{NoMemory as WantsMemory};
    ghost use Rattle.xa_coordinator.specs.Lasting.{own_view};

    ghost view = { own_view };

    // the store is never full, and no other session appends during a call
    ghost attempts = { λ old statement result new. OnErr result (result ≡ Err WantsMemory) };

    ghost executes = { λ old statement result new. OnErr result (result ≡ Err WantsMemory) };

    ghost own_part = { λ store. store.own_seen.own };

    ghost lawful = { λ store. store.lawful };

    fn attempt(&mut self, statement: &Statement) -> Result<Answer, Fault> {
        match self.answer_own(statement) {
            Ok(answer) => Ok(answer),
            Err(fault) => Err(fault),
        }
    }

    fn execute<R: Wait>(&mut self, _rt: &R, statement: &Statement) -> Result<Answer, Fault> {
        match self.answer_own(statement) {
            Ok(answer) => Ok(answer),
            Err(fault) => Err(fault),
        }
    }
}

// Proved (coordinator, unbounded-store-beside): The other client's session of an unbounded store keeps the
//   same promises, and its only fault is `NoMemory`. Each of the two sessions stays as it was when the other
//   is used.
impl Beside for LastingStore {
    ghost use Rattle.xa_coordinator.specs.Lasting.{other_alone, other-steady};

    ghost other = { other_alone };

    ghost steady = { other-steady };

    fn execute_other<R: Wait>(&mut self, _rt: &R, statement: &Statement) -> Result<Answer, Fault> {
        match self.answer_other(statement) {
            Ok(answer) => Ok(answer),
            Err(fault) => Err(fault),
        }
    }
}
