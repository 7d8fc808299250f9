//! A chain keeps the promises of a log.

ghost use Rattle.std.specs.Prelude.{◌≡◌, false};
ghost use Rattle.decision_log.specs.Calls.{Adds};
ghost use Rattle.chain_log.specs.{ChainPass.{identity_of, log_of, known_of}, Tries.TriesOnce};

use crate::layout::{cell_name, count_from, row_count};
use crate::{ChainLog, ChainPass};
use decision_log::{AddFault, DecisionLog};
use xa_words::Entry;
use xa_xid::SessionNo;

// Proved (log, logs-keep-their-promises)
// Proved (log, never-busy): A `ChainLog` has no turn, so its `try_add` never returns `Busy`.
// Proved (log, chain-takes-no-memory): No call of a `ChainLog` except `open` takes memory, and none can
//   wait. This follows from the signatures of the trait's calls.
impl DecisionLog for ChainLog {
    ghost use Rattle.std.specs.Prelude.{false};
    ghost use Rattle.chain_log.specs.ChainPass.{identity_of, log_of, known_of};

    type Pass = ChainPass;

    const TURNS: bool = false;

    ghost TURNS = { false };

    ghost identity = { identity_of };

    ghost belongs_to = { log_of };

    ghost known = { known_of };

    fn capacity(&self) -> u64 {
        self.capacity
    }

    fn sessions(&self) -> u64 {
        self.sessions
    }

    fn number(&self, pass: &ChainPass) -> SessionNo {
        pass.number
    }

    fn length(&self, pass: &ChainPass) -> u64 {
        pass.count
    }

    /// Sees the whole history, as it is when word 0 is loaded, and returns its length.
    fn look(&self, pass: &mut ChainPass) -> u64 {
        let first = pass.count;
        // The history as it is at this load is what the pass has seen afterwards.
        let newest = self.load_newest(&mut pass.seat);
        let count = count_from(self.sessions, pass.newest, first, newest);
        // The table of columns lacks the rows that are new: `first` up to `count`.
        self.fill(&mut pass.seat, &mut pass.columns, first, count, newest);
        pass.newest = newest;
        pass.count = count;
        count
    }

    /// Returns the entry at place `at`, which the pass has seen. Its cell is in the row of that number.
    fn entry(&self, pass: &mut ChainPass, at: u64) -> Entry {
        let name = self.find(pass, at);
        self.read_entry(&mut pass.seat, name, at)
    }

    /// Appends an entry of the pass's own session, if the pass has seen the whole history.
    ///
    /// Errors, in this order: `Full` if the pass has seen as many entries as the log can have. `Overtaken` if the
    /// history had more entries than the pass had seen; the pass has then seen more, `front` in all.
    fn try_add(&self, pass: &mut ChainPass, entry: &Entry) -> Result<(), AddFault>
        requires belongs { log_of pass.old ≡ identity_of self.now }
        requires own { entry.now.session ≡ (known_of pass.old).number }
        ensures belongs { log_of pass.new ≡ log_of pass.old }
        ensures added { Adds false (identity_of self.now).capacity entry.now result (known_of pass.old)
            (known_of pass.new) }
        // Proved (log, one-exchange): An append to a `ChainLog` makes one exchange, and none at `Full`.
        // Proved (log, never-busy)
        // Proved (sessions, one-try)
        ensures once { TriesOnce result (known_of pass.old) (known_of pass.new) }
    {
        let row = pass.count;
        // The history only grows, so a log that was seen full is still full.
        if row == self.capacity {
            return Err(AddFault::Full);
        }
        // Each session has a cell of its own in each row, so no other writes into this one.
        let own = cell_name(self.sessions, row, pass.number.get());
        self.write_cell(&mut pass.seat, own, pass.newest, entry);
        // Others may have appended since `pass.newest` was loaded: the exchange tests it.
        let found = self.exchange(&mut pass.seat, pass.newest, own, entry);
        // Another cell was the newest, so nothing was appended.
        if found != pass.newest {
            let front = row_count(self.sessions, found);
            self.fill(&mut pass.seat, &mut pass.columns, row, front, found);
            pass.newest = found;
            pass.count = front;
            return Err(AddFault::Overtaken { front });
        }
        // The pass has now seen its own entry too. It was the only new one, so nothing else is to be filled in.
        pass.columns[row as usize] = pass.number.get() as u8;
        pass.newest = own;
        pass.count = row + 1;
        Ok(())
    }

    /// Lets two passes meet: the second has then seen all that the first has. The first stays as it is.
    fn meet(&self, first: &mut ChainPass, second: &mut ChainPass) {
        let newest = self.table.meet(&mut first.seat, &mut second.seat);
        let first_unseen = second.count;
        // Else the second has seen at least as much already, and stays as it is.
        if first_unseen < first.count {
            // `newest` was loaded at a seat that knows both passes, so what the second has seen ends there.
            let count = row_count(self.sessions, newest);
            self.fill(
                &mut second.seat,
                &mut second.columns,
                first_unseen,
                count,
                newest,
            );
            second.newest = newest;
            second.count = count;
        }
    }

    ghost own_part = { λ pass. pass.state.part };

    ghost among = { λ pass. pass.state.among };

    ghost numbered = { λ pass. (pass.state.first, pass.state.last) };

    ghost within = { λ pass. pass.state.within };
}
