//! The table of columns: for each row that a pass has seen, the column in which the row's cell is.
ghost use Rattle.std.specs.Prelude.{◌≡◌, ◌<◌, ◌+◌, List, length};
ghost use Rattle.xa_words.specs.Entry.{Entry};
ghost use Rattle.decision_log.specs.{Known.AllOf, Seats.pass_view};
ghost use Rattle.chain_log.specs.{Cells.{name_before, newest_of}, ChainPass.{identity_of, log_of, known_of}};
ghost use Rattle.chain_log.specs.{ChainSeat.{IsSeat, IsOurs}, Columns.HasColumns};

use crate::layout::{cell_column, cell_name};
use crate::{ChainLog, ChainPass};
use atomic_table::Seat;
use decision_log::SeatView;
use xa_words::Entry;

impl ChainLog {
    /// Returns the name of the cell in a row that was seen.
    pub(crate) fn find(&self, pass: &ChainPass, row: u64) -> u64
        requires belongs { log_of pass.now ≡ identity_of self.now }
        requires seen { row < length (known_of pass.now).seen }
        ensures { result ≡ name_before self.now.sessions (known_of pass.now).seen (row + 1) }
    {
        cell_name(self.sessions, row, u64::from(pass.columns[row as usize]))
    }

    /// Fills the table `columns` for the rows from `first` up to but not including `count`; it has the rows below
    /// `first` already. A row's byte is the session of its entry. `count` is how many entries the pass has seen by
    /// now, and `newest` the name of the last one's cell. The walk goes from that cell back along the links.
    pub(crate) fn fill(
        &self,
        seat: &mut Seat<Entry, SeatView>,
        columns: &mut Vec<u8>,
        first: u64,
        count: u64,
        newest: u64,
    )
        requires seat { IsSeat self.now seat.old }
        requires ours { IsOurs self.now (pass_view seat.old) }
        requires newest { newest ≡ newest_of (pass_view seat.old).sessions (pass_view seat.old).known.seen }
        requires counted { (seen : List Entry) → AllOf self.now.sessions seen
            → newest ≡ newest_of self.now.sessions seen → count ≡ length seen }
        requires kept { HasColumns (pass_view seat.old).capacity first
            (pass_view seat.old).known.seen columns.old.items }
        ensures seat { IsSeat self.now seat.new }
        ensures same { pass_view seat.new ≡ pass_view seat.old }
        ensures kept { HasColumns (pass_view seat.old).capacity (length (pass_view seat.old).known.seen)
            (pass_view seat.old).known.seen columns.new.items }
    {
        let mut name = newest;
        for row in (first..count).rev() {
            columns[row as usize] = cell_column(self.sessions, name);
            // The cell is one of the history, so its link is still what it was. It names the cell in the row before,
            // or is 0 if there is none. The link found in row `first` isn't used.
            name = self.load_word(seat, name, 0);
        }
    }
}
