//! What a recovery asks of a store: to end what is open, and to list what is prepared.
//!
//! Of the contracts' clauses, `frame` says that no other store's session changes, `marks` what the coordinator then
//! has open in its stores, `quiet` that no entry was added, and `few` how many are added at most.
ghost use Rattle.std.specs.Prelude.{◌≡◌, ◌<◌, ◌≤◌, ◌+◌, Some, None, false, IfOk, IfErr, OnOk, OnErr, slice_get};
ghost use Rattle.std.specs.Prelude.{vec_len};
ghost use Rattle.xa_coordinator.specs.{OpenBranches.association_seen, Parts.added_at, Stores.{AtStore, ChangesAt}};
ghost use Rattle.xa_coordinator.specs.{Recovery.{IsDisconnected, ListsPrepared}, Told.IsUndone};
ghost use Rattle.xa_xid.specs.declared.statement.Statement.TheVariants.{Recover as RecoverStatement};
ghost use Rattle.xa_xid.specs.declared.statement.Statement.TheVariants.{Disconnect as DisconnectStatement};

use crate::{Cause, Coordinator, Speak};
use std::sync::Wait;
use xa_server::{Reply, XidList};
use xa_session::{Answer, Fault};
use xa_xid::Statement;

/// Has a session end what it has open, by `DISCONNECT`. No server refuses that, so only the session can fail.
fn let_go<S: Speak, R: Wait>(rt: &R, session: &mut S) -> Result<(), Fault>
    ensures done { OnOk result (IsDisconnected (S.view session.old) (S.view session.new)) }
    ensures undone { IfErr result (λ fault. IsUndone DisconnectStatement (Cause.Session fault) (S.view session.old)
        (S.view session.new)) }
{
    session.execute(rt, &Statement::Disconnect)?;
    Ok(())
}

/// Asks a session for the prepared branches of its store, by `XA RECOVER`. Returns the list, and its place: how many
/// entries the session has seen then.
#[tactic(auto, using(crate::proofs::LettingGo::listed_quietly))]
fn list_prepared<S: Speak, R: Wait>(rt: &R, session: &mut S) -> Result<(XidList, u64), Fault>
    ensures association { association_seen (S.view session.new) ≡ association_seen (S.view session.old) }
    ensures listed { IfOk result (λ found. ListsPrepared found.0 found.1 (S.view session.old) (S.view session.new)) }
    ensures quiet { OnOk result ((S.view session.new).known.mine ≡ (S.view session.old).known.mine) }
    ensures undone { IfErr result (λ fault. IsUndone (RecoverStatement false) (Cause.Session fault) (S.view session.old)
        (S.view session.new)) }
{
    let Answer { place, reply } = session.execute(rt, &Statement::Recover { convert: false })?;
    match reply {
        Reply::Recovered(xids) => Ok((xids, place)),
        // `XA RECOVER` is answered by a list, whatever the session has open.
        _ => unreachable!(),
    }
}

impl<S: Speak> Coordinator<S> {
    /// Has the session of a store end what it has open, by `DISCONNECT`. After a fault the coordinator has open there
    /// what it had.
    pub(crate) fn disconnect<R: Wait>(&mut self, rt: &R, store: u8) -> Result<(), Fault>
        requires { store < vec_len self.old.stores }
        ensures name { self.new.name ≡ self.old.name }
        ensures frame { ChangesAt store self.old.stores.items self.new.stores.items }
        ensures marks { ChangesAt store self.old.branches self.new.branches }
        ensures unsaid { OnErr result (self.new.branches ≡ self.old.branches) }
        ensures mark { OnOk result (slice_get self.new.branches store ≡ Some None) }
        ensures done { OnOk result (AtStore S.view store IsDisconnected self.old.stores.items self.new.stores.items) }
        ensures undone { IfErr result
            (λ fault. AtStore S.view store (IsUndone DisconnectStatement
            (Cause.Session fault)) self.old.stores.items self.new.stores.items) }
        ensures few { added_at S.view self.new.stores.items store ≤ added_at S.view self.old.stores.items store + 1 }
    {
        let_go(rt, &mut self.stores[store as usize])?;
        self.branches[store as usize] = None;
        Ok(())
    }

    /// Asks a store for its prepared branches. Returns the list, and its place: how many entries the session has seen
    /// then.
    pub(crate) fn prepared_in<R: Wait>(
        &mut self,
        rt: &R,
        store: u8,
    ) -> Result<(XidList, u64), Fault>
        requires { store < vec_len self.old.stores }
        ensures name { self.new.name ≡ self.old.name }
        ensures frame { ChangesAt store self.old.stores.items self.new.stores.items }
        ensures marks { self.new.branches ≡ self.old.branches }
        ensures listed { IfOk result (λ found. AtStore S.view store
            (ListsPrepared found.0 found.1) self.old.stores.items self.new.stores.items) }
        ensures quiet { OnOk result (AtStore S.view store (λ old new. new.known.mine ≡ old.known.mine)
            self.old.stores.items self.new.stores.items) }
        ensures undone { IfErr result
            (λ fault. AtStore S.view store (IsUndone (RecoverStatement false)
            (Cause.Session fault)) self.old.stores.items self.new.stores.items) }
        ensures few { added_at S.view self.new.stores.items store ≤ added_at S.view self.old.stores.items store }
    {
        list_prepared(rt, &mut self.stores[store as usize])
    }
}
