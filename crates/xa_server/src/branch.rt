//! The record of a transaction branch.
ghost use Rattle.std.specs.{Prelude.{◌≡◌, true, false}, Option.option_map_or};
ghost use Rattle.xa_server.specs.State.{is_prepared_phase};

use crate::keys::Keys;
use std::alloc::AllocError;
use xa_xid::SessionNo;

/// The phase of a transaction branch.
///
/// Source: MySQL 8.0 Reference Manual, 'XA Transaction States'; X/Open C193, the branch states.
#[derive(Clone, Copy, Debug, PartialEq, Eq)]
pub enum Phase {
    /// After `XA START`: it takes work.
    Active,
    /// After `XA END`: its work has ended.
    Idle,
    /// After `XA PREPARE`: it is ready to commit, and any free session may finish it.
    Prepared,
}

/// The server's record of a transaction branch. How it holds a row, and what it writes to it, is in the row's
/// record.
#[derive(Drop)]
pub struct BranchRecord {
    /// Its phase.
    pub phase: Phase,
    /// The session that started it, until it is prepared.
    pub owner: Option<SessionNo>,
    /// The rows that it holds, in share or exclusively, each once. So its end visits no other rows.
    pub held: Keys,
}

impl Clone for BranchRecord {
    ghost is_clone = { λ branch copy. copy ≡ branch };

    fn clone(&self) -> Result<BranchRecord, AllocError> {
        Ok(BranchRecord {
            phase: self.phase,
            owner: self.owner,
            held: self.held.copy()?,
        })
    }
}

/// Returns true only if two sessions are the same, or both are missing.
fn is_same_owner(left: Option<SessionNo>, right: Option<SessionNo>) -> bool
    ensures { result ≡ true → left ≡ right }
{
    match left {
        None => right.is_none(),
        Some(session) => match right {
            None => false,
            Some(other) => session.get() == other.get(),
        },
    }
}

impl BranchRecord {
    /// Returns true only if both records are the same. They aren't if one lists its rows in another order.
    pub fn is_same(&self, other: &BranchRecord) -> bool
        ensures { result ≡ true → self.now ≡ other.now }
    {
        self.phase == other.phase
            && is_same_owner(self.owner, other.owner)
            && self.held.is_same(&other.held)
    }
}

/// Returns whether a branch in this phase, if there is one, is PREPARED.
pub fn is_prepared(phase: Option<Phase>) -> bool
    ensures { result ≡ option_map_or is_prepared_phase phase false }
{
    match phase {
        Some(Phase::Prepared) => true,
        Some(Phase::Active) => false,
        Some(Phase::Idle) => false,
        None => false,
    }
}
