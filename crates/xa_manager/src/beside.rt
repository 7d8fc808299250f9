//! Carrying calls out if each of the coordinator's sessions holds the other client's.
ghost use Rattle.std.specs.Prelude.{◌≡◌, ◌⊎◌, IfOk, OnErr, vec_len, length, map};
ghost use Rattle.xa_coordinator.specs.Stores.{EachStore};
ghost use Rattle.xa_manager.specs.Beside.{within, HasRepliedBeside, IsShownBeside, LeavesAlone, PerformsBeside};
ghost use Rattle.xa_manager.specs.{Calls.IsWritten, Managed.whole_of, Said.IsListed, Whole.IsRefused};

use crate::answer::reply_in;
use crate::{Call, Listing, Manager, Response};
use std::alloc::Global;
use std::sync::Wait;
use xa_coordinator::{Beside, Coordinator, Fused, Speak};
use xa_lines::converts;
use xa_server::Reply;
use xa_session::Fault;
use xa_xid::{NoMemory, Statement};

/// What the other client's session of each store answers to `XA RECOVER CONVERT XID`, or its fault, from store 0 on.
/// Room for the answers is taken before the first session is asked, so after `NoMemory` no session got a statement.
fn listed_beside<S: Beside, R: Wait>(
    rt: &R,
    alloc: Global,
    coordinator: &mut Coordinator<Fused<S>>,
) -> Result<Vec<Result<Reply, Fault>>, NoMemory>
    ensures each { IfOk result (λ answers. vec_len answers ≡ vec_len coordinator.old.stores) }
    ensures name { coordinator.new.name ≡ coordinator.old.name }
    ensures branches { coordinator.new.branches ≡ coordinator.old.branches }
    ensures count { length coordinator.new.stores.items ≡ length coordinator.old.stores.items }
    ensures alone { LeavesAlone S.view coordinator.old.stores.items coordinator.new.stores.items }
    ensures listed { IfOk result
        (λ answers. EachStore (within S.other) (IsListed answers.items) coordinator.old.stores.items
        coordinator.new.stores.items) }
    ensures nothing { OnErr result (coordinator.new ≡ coordinator.old) }
{
    let count = coordinator.count();
    let mut answers = Vec::with_capacity(alloc, count as usize)?;
    let listing = Statement::Recover { convert: true };
    for store in 0..count {
        answers.push_reserved(reply_in(coordinator.execute_other(rt, store, &listing)));
    }
    Ok(answers)
}

impl<S: Beside, T: Speak> Manager<Fused<S>, T> {
    /// Gives a statement to the other client's session of a store, which the coordinator's session there holds, and
    /// answers the other client's reply or fault; `UnknownStore` if there is no such store.
    fn at_beside<R: Wait>(&mut self, rt: &R, store: u64, statement: &Statement) -> Response
        ensures { IsRefused (whole_of self.old) (Call.At store statement.now) result (whole_of self.new)
            ⊎ HasRepliedBeside S.view S.other store statement.now (whole_of self.old) result (whole_of self.new) }
    {
        if !self.has_store(store) {
            return Response::UnknownStore(store);
        }
        Response::Replied {
            convert: converts(statement),
            answer: reply_in(self.coordinator.execute_other(rt, store as u8, statement)),
        }
    }

    /// Has the other client of each store, whose session the coordinator's holds, list what is prepared there. Errors:
    /// `NoMemory` if the list of answers has no room; then no session got a statement.
    fn show_beside<R: Wait>(&mut self, rt: &R, alloc: Global) -> Result<Response, NoMemory>
        ensures answers { IfOk result (λ response. IsShownBeside S.view S.other (whole_of self.old) response
            (whole_of self.new)) }
        ensures nothing { OnErr result (whole_of self.new ≡ whole_of self.old) }
    {
        let answers = listed_beside(rt, alloc, &mut self.coordinator)?;
        Ok(Response::Shown(Listing { answers }))
    }

    /// Carries a call out as `answer` does, if the coordinator's session in each store holds the other
    /// client's.
    ///
    /// The sessions that are held answer `AT` and `SHOW`; the manager's own list of other clients gets no
    /// statement.
    /// Errors: `NoMemory` if there is no room for a transaction that begins, or for the list of answers of `SHOW`.
    /// After an error no session got a statement, and nothing changed.
    /// May return `NoMemory`. May wait: no number of tries is promised.
    /// Own rule: docs/COORDINATOR.md#calls.
    pub fn answer_beside<R: Wait>(
        &mut self,
        rt: &R,
        alloc: Global,
        call: &Call,
    ) -> Result<Response, NoMemory>
        requires { IsWritten call.now }
        // Proved (manager, answers-beside): If the coordinator's sessions hold the other clients', calls are
        //   refused and carried out in the same way, and only `AT` and `SHOW` give a statement to the other
        //   clients'.
        ensures answers { IfOk result (λ response. PerformsBeside S.view S.other T.view (whole_of self.old)
            (call.now) response (whole_of self.new)) }
        // Proved (manager, no-memory)
        ensures nothing { OnErr result (whole_of self.new ≡ whole_of self.old) }
    {
        match call {
            Call::At { store, statement } => Ok(self.at_beside(rt, *store, statement)),
            Call::Show => self.show_beside(rt, alloc),
            // No other call speaks to another client's session, so `answer` carries it out as it is.
            _ => self.answer(rt, alloc, call),
        }
    }
}
