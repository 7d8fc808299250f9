//! How the sessions of a race end: they meet the last one, and return their passes.
ghost use Rattle.std.specs.{Prelude.{◌≡◌, map, IfOk}, List.All};
ghost use Rattle.xa_store.specs.{Closed.HasClosed, Passes.{identity_of, log_of}};

use crate::growing::and_both;
use crate::task::Returned;
use crate::{Log, Pass, Store};
use std::alloc::Global;
use xa_session::Session;
use xa_words::Entry;
use xa_xid::NoMemory;

/// The result of a race: its history, and for each session its pass and its answers.
#[derive(Drop)]
pub(crate) struct Closed<D> {
    /// The history that the sessions have seen.
    pub(crate) history: Vec<Entry>,
    /// The passes of the sessions, in order.
    pub(crate) passes: Vec<Pass>,
    /// What each session was answered.
    pub(crate) done: Vec<D>,
}

/// Splits what the threads returned into the sessions and what each was answered, both in the order given.
fn part<'a, D: Drop>(
    alloc: Global,
    mut returned: Vec<Returned<'a, Log, D>>,
) -> Result<(Vec<Session<'a, Log>>, Vec<D>), NoMemory>
    ensures sessions { IfOk result (λ both. both.0.items ≡ map (λ one. one.session) returned.entry.items) }
    ensures done { IfOk result (λ both. both.1.items ≡ map (λ one. one.done) returned.entry.items) }
{
    let Some(last) = returned.pop() else {
        return Ok((Vec::new(alloc), Vec::new(alloc)));
    };
    // The others are split first, so the last goes to the end of both lists.
    let Returned { session, done } = last;
    let others = part(alloc, returned);
    and_both(others, session, done)
}

/// Has the sessions meet the last one and return their passes, after the threads of a race have ended. The history is
/// what the last one has seen then. After `NoMemory` the sessions are dropped.
pub(crate) fn close_all<D: Drop>(
    alloc: Global,
    store: &Store,
    returned: Vec<Returned<'_, Log, D>>,
) -> Result<Closed<D>, NoMemory>
    requires { All (λ one. log_of one.session.pass ≡ identity_of store.now.log) returned.items }
    ensures closed { IfOk result
        (λ closed. HasClosed (identity_of store.now.log) (map
        (λ one. one.session.pass) returned.entry.items) closed.history.items closed.passes.items) }
    ensures done { IfOk result (λ closed. closed.done.items ≡ map (λ one. one.done) returned.entry.items) }
{
    let (sessions, done) = part(alloc, returned)?;
    match store.close(alloc, sessions) {
        Ok((history, passes)) => Ok(Closed {
            history,
            passes,
            done,
        }),
        // Without memory the sessions come back, and are dropped here.
        Err((_, error)) => Err(error),
    }
}
