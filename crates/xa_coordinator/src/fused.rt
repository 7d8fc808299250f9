//! A session that passes on a limited number of calls and then fails.
ghost use Rattle.std.specs.{Prelude.{◌≡◌, ◌+◌, true, false, ◌<◌, Some, map, slice_get, vec_len}, Borrow.{Lends, sem}};
ghost use Rattle.xa_coordinator.specs.{Fusing.{AnswersAsWithin, limited}, Stores.ChangesAt};

use crate::{Coordinator, Speak};
use std::sync::Wait;
use xa_session::{Answer, Fault};
use xa_xid::Statement;

/// A session that passes on a given number of calls, and then returns `NoMemory` for each later one, as if the
/// coordinator had been stopped there.
///
/// A contract sees it as the session within, but it takes only as many more statements as calls are left. It keeps
/// every promise of a session.
#[derive(Drop)]
pub struct Fused<S: Speak> {
    /// The session within.
    pub(crate) inner: S,
    /// How many calls are still passed on.
    pub(crate) left: u64,
}

impl<S: Speak> Fused<S> {
    ghost use Rattle.xa_coordinator.specs.contracts.fused.Fused.{the_row};

    /// Limits a session to `calls` calls, in `[0, 2^64)`.
    ///
    /// Takes no memory. Doesn't wait.
    /// Own rule: docs/COORDINATOR.md#sessions-of-a-coordinator.
    pub fn new(inner: S, calls: u64) -> Fused<S>
        ensures inner { result.inner ≡ inner }
        ensures left { result.left ≡ calls }
    {
        Fused { inner, left: calls }
    }

    /// Returns the session within, as the calls left it.
    ///
    /// Takes no memory. Doesn't wait.
    pub fn into_inner(self) -> S
        ensures { result ≡ self.inner }
    {
        let Fused { inner, left: _ } = self;
        inner
    }

    /// Lends the session within. What you do with it uses up no call.
    ///
    /// Takes no memory. Doesn't wait.
    pub fn inner_mut(&mut self) -> &mut S
        // Proved (coordinator, limit-lends): The session within a limited one is lent as it is, and what is
        //   done with it leaves the limit.
        ensures inner { result.now ≡ self.old.inner }
        // Proved (coordinator, limit-lends)
        ensures* writes_back { sem 𝓛 (Lends (the_row S.row) S.row self.entry result
            (λ inner. record self.old { inner = inner })) }
    {
        &mut self.inner
    }

    /// Returns how many more calls are passed on.
    ///
    /// Takes no memory. Doesn't wait.
    /// Own rule: docs/COORDINATOR.md#sessions-of-a-coordinator.
    pub fn left(&self) -> u64
        // Proved (coordinator, limit-left): A limited session returns how many more calls it passes on.
        ensures { result ≡ self.now.left }
    {
        self.left
    }

    /// Whether a call is passed on: if any is left, this one is, and one fewer is left.
    fn passes(&mut self) -> bool
        ensures inner { self.new.inner ≡ self.old.inner }
        ensures passed { result ≡ true → self.new.left + 1 ≡ self.old.left }
        ensures spent { result ≡ false → (self.old.left ≡ 0) × (self.new.left ≡ 0) }
    {
        if self.left == 0 {
            return false;
        }
        self.left -= 1;
        true
    }
}

// Proved (coordinator, limited-session): A session that fails from a certain call on keeps the promises of
//   `Speak`. While calls are left, it answers as the session within does, and one call less is left. Then it
//   returns `NoMemory`, and the session within gets no statement.
impl<S: Speak> Speak for Fused<S> {
    ghost view = { limited S.view };

    ghost attempts = { AnswersAsWithin S.attempts };

    ghost executes = { AnswersAsWithin S.executes };

    ghost own_part = { λ fused. S.own_part fused.inner };

    ghost lawful = { λ fused. S.lawful fused.inner };

    fn attempt(&mut self, statement: &Statement) -> Result<Answer, Fault> {
        if !self.passes() {
            return Err(Fault::NoMemory);
        }
        self.inner.attempt(statement)
    }

    fn execute<R: Wait>(&mut self, rt: &R, statement: &Statement) -> Result<Answer, Fault> {
        if !self.passes() {
            return Err(Fault::NoMemory);
        }
        self.inner.execute(rt, statement)
    }
}

impl<S: Speak> Fused<S> {
    /// Sets the limit anew: `calls` more calls are passed on, in `[0, 2^64)`, and then each returns
    /// `NoMemory`.
    ///
    /// Takes no memory. Doesn't wait.
    /// Own rule: docs/COORDINATOR.md#sessions-of-a-coordinator.
    pub fn allow(&mut self, calls: u64)
        ensures inner { self.new.inner ≡ self.old.inner }
        ensures left { self.new.left ≡ calls }
    {
        self.left = calls;
    }
}

impl<S: Speak> Coordinator<Fused<S>> {
    /// Sets the limit of one store's session anew: it passes on `calls` more calls, and then returns
    /// `NoMemory` for each.
    ///
    /// `store`: in `[0, number of stores)`. `calls`: in `[0, 2^64)`. What the coordinator has open stays as
    /// it is.
    /// Takes no memory. Doesn't wait.
    /// Own rule: docs/COORDINATOR.md#sessions-of-a-coordinator.
    #[tactic(auto, using(crate::proofs::Limited::left_there))]
    pub fn allow(&mut self, store: u8, calls: u64)
        requires { store < vec_len self.old.stores }
        ensures name { self.new.name ≡ self.old.name }
        // Proved (coordinator, allow): Allowing calls to the session of a store sets just that session's
        //   limit. No session gets a statement, and what the coordinator has open stays.
        ensures branches { self.new.branches ≡ self.old.branches }
        // Proved (coordinator, allow)
        ensures sessions { map (λ session. session.inner) self.new.stores.items
            ≡ map (λ session. session.inner) self.old.stores.items }
        // Proved (coordinator, allow)
        ensures left { slice_get (map (λ session. session.left) self.new.stores.items) store ≡ Some calls }
        // Proved (coordinator, allow)
        ensures others { ChangesAt store self.old.stores.items self.new.stores.items }
    {
        self.stores[store as usize].allow(calls);
    }
}
