//! The words of a log, and the only steps that its passes take on them.
//!
//! No file except this one and its submodules reaches the table. So what a seat knows of a pass (its view)
//! changes by these steps only, and the pass's counts change as `Counts` says.
ghost use Rattle.std.specs.Prelude.{◌≡◌, ◌<◌, [], length, IfOk};
ghost use Rattle.atomic_table.specs.Table.{opening};

mod seats;
mod steps;
mod transitions;

use crate::{LogWords, SeatView, Sizes};
use atomic_table::{Seat, Table};
use std::alloc::{AllocError, Global};
use xa_words::Entry;

/// The words of a log, which its passes share under the log's rule.
#[derive(Drop)]
pub struct LogTable<R: LogWords> {
    /// The words. Only this module takes steps on them.
    inner: Table<Entry, SeatView, Sizes, R, Global>,
    // There is word 0, at which passes look.
    ghost some: { 0 < inner.shared.table_id.words },
}

impl<R: LogWords> LogTable<R> {
    /// Makes a table of these words, and the seat that knows all passes.
    ///
    /// May return `AllocError`. Doesn't wait.
    pub fn of_words(
        alloc: Global,
        words: &[u64],
        sizes: &Sizes,
    ) -> Result<(LogTable<R>, Seat<Entry, SeatView>), AllocError>
        requires some { 0 < length words.now }
        requires rule { R.holds sizes.now (opening words.now [] (R.first sizes.now)) }
        ensures { IfOk result
            (λ made. (made.0.inner.shared.table_id.words ≡ length words.now)
            × (made.0.inner.shared.key ≡ sizes.now)
            × (made.1.table_id ≡ made.0.inner.shared.table_id)
            × (made.1.me ≡ (R.first sizes.now, []))) }
    {
        let (inner, seat) = Table::of_words(alloc, words, sizes)?;
        Ok((LogTable { inner }, seat))
    }
}
