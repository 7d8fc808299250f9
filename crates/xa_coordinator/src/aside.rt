//! How many stores a coordinator has, and statements of another client, whose sessions are held together with the
//! coordinator's.
ghost use Rattle.std.specs.Prelude.{◌≡◌, ◌<◌, ◌≤◌, map, vec_len};
ghost use Rattle.xa_coordinator.specs.{Beside.{IsLeftAlone, IsAnsweredSo}, Stores.{AtStore, EachStore, ChangesAt}};

use crate::{Beside, Coordinator, Fused, Speak};
use std::sync::Wait;
use xa_session::{Answer, Fault};
use xa_xid::Statement;

impl<S: Speak> Coordinator<S> {
    /// Returns how many stores the coordinator has, in `[1, 16]`.
    ///
    /// Takes no memory. Doesn't wait.
    pub fn count(&self) -> u8
        ensures value { result ≡ vec_len self.now.stores }
        ensures most { result ≤ 16 }
    {
        self.stores.len() as u8
    }
}

impl<S: Beside> Coordinator<Fused<S>> {
    /// Has the other client's session of a store answer a statement.
    ///
    /// `store`: in `[0, number of stores)`. The coordinator's sessions get no statement, pass on as many
    /// calls as before, and have open what they had. Errors: those of the other client's session.
    /// May return `NoMemory`. May wait: no number of tries is promised.
    /// Own rule: docs/COORDINATOR.md#calls.
    pub fn execute_other<R: Wait>(
        &mut self,
        rt: &R,
        store: u8,
        statement: &Statement,
    ) -> Result<Answer, Fault>
        requires { store < vec_len self.old.stores }
        // Proved (coordinator, other-client): The other client's session of a store answers a statement as a
        //   session does. The coordinator's sessions know what they knew, pass on as many calls, and have
        //   open what they had.
        ensures name { self.new.name ≡ self.old.name }
        // Proved (coordinator, other-client)
        ensures branches { self.new.branches ≡ self.old.branches }
        // Proved (coordinator, other-client)
        ensures left { map (λ session. session.left) self.new.stores.items
            ≡ map (λ session. session.left) self.old.stores.items }
        // Proved (coordinator, other-client)
        ensures others { ChangesAt store self.old.stores.items self.new.stores.items }
        // Proved (coordinator, other-client)
        ensures alone { AtStore (λ session. S.view session.inner) store IsLeftAlone self.old.stores.items
            self.new.stores.items }
        // Proved (coordinator, other-client)
        ensures given { AtStore (λ session. S.other session.inner) store
            (IsAnsweredSo statement.now result) self.old.stores.items self.new.stores.items }
    {
        self.stores[store as usize].execute_inner(rt, statement)
    }
}

impl<S: Beside> Fused<S> {
    /// Has the other client's session, which the session within holds, answer a statement. That uses up none of the
    /// calls that are left.
    fn execute_inner<R: Wait>(&mut self, rt: &R, statement: &Statement) -> Result<Answer, Fault>
        ensures left { self.new.left ≡ self.old.left }
        ensures alone { IsLeftAlone (S.view self.old.inner) (S.view self.new.inner) }
        ensures given { IsAnsweredSo statement.now result (S.other self.old.inner) (S.other self.new.inner) }
    {
        self.inner.execute_other(rt, statement)
    }
}

impl<S: Beside> Beside for Fused<S> {
    ghost other = { λ fused. S.other fused.inner };

    ghost steady = { λ old new same. S.steady old.inner new.inner (record { base = same.base; beside = same.beside }) };

    fn execute_other<R: Wait>(&mut self, rt: &R, statement: &Statement) -> Result<Answer, Fault> {
        self.inner.execute_other(rt, statement)
    }
}
