//! The transitions of a log, in the form that the table needs. Each names the kind of its step.
ghost use Rattle.decision_log.specs.{Atomic.{Load, Store, Exchange, Tells, Meets}, Seats.{pass_view_of, second_of}};

use crate::{LogTransition, LogWords, SeatView};
use atomic_table::Play;
use std::marker::PhantomData;
use xa_words::Entry;

/// A load.
pub(super) struct Loaded<R, M> {
    of: PhantomData<(R, M)>,
}

impl<R: LogWords, M: LogTransition<R>> Play<Entry, SeatView> for Loaded<R, M> {
    ghost then = { λ step me found after. Tells (M.then (Load step.word) (pass_view_of me.0)) found after };
}

/// A store.
pub(super) struct Stored<R, M> {
    of: PhantomData<(R, M)>,
}

impl<R: LogWords, M: LogTransition<R>> Play<Entry, SeatView> for Stored<R, M> {
    ghost then = { λ step me found after. Tells (M.then (Store step.word step.first) (pass_view_of me.0)) found after };
}

/// An exchange.
pub(super) struct Exchanged<R, M> {
    of: PhantomData<(R, M)>,
}

impl<R: LogWords, M: LogTransition<R>> Play<Entry, SeatView> for Exchanged<R, M> {
    ghost then = { λ step me found after. Tells (M.then (Exchange step.word step.first step.second step.said)
        (pass_view_of me.0)) found after };
}

/// A load of word 0 at a seat with two passes.
pub(super) struct Met<R> {
    of: PhantomData<R>,
}

impl<R: LogWords> Play<Entry, SeatView> for Met<R> {
    ghost then = { λ step me found after. Meets R.newest (pass_view_of me.0) (second_of me.0) found after };
}
