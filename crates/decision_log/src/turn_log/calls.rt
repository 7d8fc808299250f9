//! A log with a turn keeps the promises of a log.

use super::{TurnLog, TurnPass};
use crate::{AddFault, DecisionLog};
use xa_words::Entry;
use xa_xid::SessionNo;

// Proved (log, logs-keep-their-promises): A `TurnLog` and a `ChainLog` keep all promises of the trait
//   `DecisionLog`.
impl DecisionLog for TurnLog {
    ghost use Rattle.std.specs.Prelude.{true};
    ghost use Rattle.decision_log.specs.TurnPass.{identity_of, log_of, known_of};

    type Pass = TurnPass;

    const TURNS: bool = true;

    ghost TURNS = { true };

    ghost identity = { identity_of };

    ghost belongs_to = { log_of };

    ghost known = { known_of };

    fn capacity(&self) -> u64 {
        self.capacity
    }

    fn sessions(&self) -> u64 {
        self.sessions
    }

    fn number(&self, pass: &TurnPass) -> SessionNo {
        pass.number
    }

    fn length(&self, pass: &TurnPass) -> u64 {
        pass.front
    }

    fn look(&self, pass: &mut TurnPass) -> u64 {
        let front = self.load_count(&mut pass.seat);
        pass.front = front;
        front
    }

    fn entry(&self, pass: &mut TurnPass, at: u64) -> Entry {
        self.read_entry(&mut pass.seat, at)
    }

    /// Appends an entry of the pass's own session, if the pass has seen the whole history.
    ///
    /// Errors, in this order: `Full` if the pass has seen as many entries as the log can have. `Busy` if another pass
    /// has the turn. `Overtaken` if the history had more entries than the pass had seen; the pass has then seen
    /// `front`.
    fn try_add(&self, pass: &mut TurnPass, entry: &Entry) -> Result<(), AddFault> {
        // The history only grows, so a log that was seen full is still full.
        if pass.front == self.capacity {
            return Err(AddFault::Full);
        }
        let had = self.take_turn(&mut pass.seat, pass.number.get());
        // Another pass has the turn.
        if had != 0 {
            return Err(AddFault::Busy);
        }
        // While this pass has the turn no other appends, so this count holds until the turn is given back.
        let front = self.load_count(&mut pass.seat);
        // Another pass appended since this one looked.
        if front != pass.front {
            self.give_turn(&mut pass.seat);
            pass.front = front;
            return Err(AddFault::Overtaken { front });
        }
        // The words go first: the new count makes their row one of the history. The turn goes last, since others may
        // append from then on.
        self.write_entry(&mut pass.seat, front, entry);
        self.store_count(&mut pass.seat, entry, front + 1);
        self.give_turn(&mut pass.seat);
        pass.front = front + 1;
        Ok(())
    }

    /// Lets two passes meet: the second has then seen all that the first has. The first stays as it is.
    fn meet(&self, first: &mut TurnPass, second: &mut TurnPass) {
        let count = self.table.meet(&mut first.seat, &mut second.seat);
        // The count was loaded at a seat that knows both passes. If the second had seen less, it has now seen as many
        // entries as the count says. Else it stays as it is.
        if second.front < first.front {
            second.front = count;
        }
    }

    ghost own_part = { λ pass. pass.state.part };

    ghost among = { λ pass. pass.state.among };

    ghost numbered = { λ pass. (pass.state.first, pass.state.last) };

    ghost within = { λ pass. pass.state.within };
}
