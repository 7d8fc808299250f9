//! The branches that sessions own.
ghost use Rattle.std.specs.Prelude.{◌≡◌, ◌==◌, ℕ, ◌<◌, cond, None, OnOk, length, slice_index_or};
ghost use Rattle.xa_audit.specs.Following.{own_after};

use std::alloc::Global;
use xa_xid::{NoMemory, SessionNo, Statement, Xid};

/// At each session's number, the branch that it owns, or None. A session past the end owns none.
#[derive(Drop)]
pub struct Owned {
    /// The branches.
    pub places: Vec<Option<Xid>>,
}

/// Returns the branch that a session owns after its statement was accepted; None if it owns none. `own` is what it
/// owned before.
pub fn own_by(own: Option<Xid>, statement: &Statement) -> Option<Xid>
    ensures { result ≡ own_after own statement.now }
{
    match statement {
        Statement::Start(xid) => Some(xid.copy()),
        Statement::Prepare(_) => None,
        // A session that owns another branch can't commit or roll this one back, so it owns none afterwards.
        Statement::Commit {
            xid: _,
            one_phase: _,
        } => None,
        Statement::Rollback(_) => None,
        Statement::Disconnect => None,
        Statement::End(_) => own,
        Statement::Recover { convert: _ } => own,
        Statement::Unsupported => own,
        Statement::Get(_) => own,
        Statement::Put(_, _) => own,
        Statement::Del(_) => own,
    }
}

/// Lengthens the list, by sessions that own none, until it has an entry for this session. Each session owns what it
/// owned, also after `NoMemory`.
fn make_place(places: &mut Vec<Option<Xid>>, session: SessionNo) -> Result<(), NoMemory>
    ensures same { (at : ℕ) → slice_index_or places.new.items at None ≡ slice_index_or places.old.items at None }
    ensures there { OnOk result (session < length places.new.items) }
{
    // A session's index is its number, so index 0 stays without a branch.
    while places.len() <= session.get() as usize {
        places.push(None)?;
    }
    Ok(())
}

impl Owned {
    /// Returns the list in which no session owns a branch.
    pub fn new(alloc: Global) -> Owned
        ensures { (at : ℕ) → slice_index_or result.places.items at None ≡ None }
    {
        Owned {
            places: Vec::new(alloc),
        }
    }

    /// Returns the branch that the session owns, or None.
    pub fn of(&self, session: SessionNo) -> Option<Xid>
        ensures { result ≡ slice_index_or self.now.places.items session None }
    {
        match self.places.get(session.get() as usize) {
            Some(Some(xid)) => Some(xid.copy()),
            Some(None) => None,
            None => None,
        }
    }

    /// Takes note that the session owns this branch, or none.
    ///
    /// May return `NoMemory`.
    pub fn set(&mut self, session: SessionNo, own: Option<Xid>) -> Result<(), NoMemory>
        ensures { OnOk result
            ((at : ℕ) → slice_index_or self.new.places.items at None
            ≡ cond (at == session) own (slice_index_or self.old.places.items at None)) }
    {
        make_place(&mut self.places, session)?;
        self.places[session.get() as usize] = own;
        Ok(())
    }
}
