//! The stages of a global transaction.

use xa_coordinator::{Prepared, Transaction};

/// The stage of a global transaction that was begun. What is kept here outlives its coordinator.
#[derive(Drop)]
pub enum Stage {
    /// It takes work.
    Working(Transaction),
    /// Its vote is Ready. It can be decided, and finished.
    Ready(Prepared),
    /// Its vote is One Phase or No. It can be finished, but not decided.
    Voted(Prepared),
    /// It was abandoned or finished, or no store took part.
    Over,
}
