//! Verdicts on global transactions.
ghost use Rattle.std.specs.{Prelude.◌≡◌, List.list_any};
ghost use Rattle.xa_audit.specs.Globals.{is_committed, is_in_doubt, is_open, last_end, ends_as, took as took_by};
ghost use Rattle.xa_audit.specs.Globals.{failed as failed_by, verdict_of as verdict_on, same_verdict};

use crate::branch::Branch;
use crate::ends::End;

/// The verdict on a global transaction.
#[derive(Clone, Copy, Debug, PartialEq, Eq)]
pub enum Verdict {
    /// It is neither mixed, nor in doubt, nor open.
    Atomic,
    /// A branch of it took (a life of it is COMMITTED), and another failed (none is, and its last life is ROLLED BACK).
    Mixed,
    /// It isn't mixed, and the last life of a branch is in doubt.
    InDoubt,
    /// It is neither mixed nor in doubt, and the last life of a branch is open.
    Open,
}

/// Whether some life is COMMITTED.
fn has_committed(ends: &[End]) -> bool
    ensures { result ≡ list_any is_committed ends.now }
{
    for end in ends {
        if matches!(end, End::Committed) {
            return true;
        }
    }
    false
}

/// How the last life ends; None if there is no life.
fn last_of(ends: &[End]) -> Option<End>
    ensures { result ≡ last_end ends.now }
{
    let mut last = None;
    for end in ends {
        last = Some(*end);
    }
    last
}

/// Whether some life of the branch is COMMITTED.
fn took(branch: &Branch) -> bool
    ensures { result ≡ took_by branch.now }
{
    has_committed(branch.ends.as_slice())
}

/// Whether no life of the branch is COMMITTED, and its last is ROLLED BACK.
fn failed(branch: &Branch) -> bool
    ensures { result ≡ failed_by branch.now }
{
    !took(branch) && matches!(last_of(branch.ends.as_slice()), Some(End::RolledBack))
}

/// Whether the last life of the branch is in doubt.
fn is_in_doubt_at_last(branch: &Branch) -> bool
    ensures { result ≡ ends_as is_in_doubt branch.now }
{
    matches!(last_of(branch.ends.as_slice()), Some(End::InDoubt))
}

/// Whether the last life of the branch is open.
fn is_open_at_last(branch: &Branch) -> bool
    ensures { result ≡ ends_as is_open branch.now }
{
    matches!(last_of(branch.ends.as_slice()), Some(End::Open))
}

/// Whether some branch took effect: a life of it was committed.
fn any_took(branches: &[Branch]) -> bool
    ensures { result ≡ list_any took_by branches.now }
{
    for branch in branches {
        if took(branch) {
            return true;
        }
    }
    false
}

/// Whether some branch failed: no life of it was committed, and its last one's writes were dropped.
fn any_failed(branches: &[Branch]) -> bool
    ensures { result ≡ list_any failed_by branches.now }
{
    for branch in branches {
        if failed(branch) {
            return true;
        }
    }
    false
}

/// Whether the last life of some branch is in doubt.
fn any_in_doubt(branches: &[Branch]) -> bool
    ensures { result ≡ list_any (ends_as is_in_doubt) branches.now }
{
    for branch in branches {
        if is_in_doubt_at_last(branch) {
            return true;
        }
    }
    false
}

/// Whether the last life of some branch is open.
fn any_open(branches: &[Branch]) -> bool
    ensures { result ≡ list_any (ends_as is_open) branches.now }
{
    for branch in branches {
        if is_open_at_last(branch) {
            return true;
        }
    }
    false
}

/// Returns the verdict on the global transaction that has these branches: the first of MIXED, IN DOUBT, OPEN and
/// ATOMIC that fits.
pub fn verdict_of(branches: &[Branch]) -> Verdict
    ensures { result ≡ verdict_on branches.now }
{
    if any_took(branches) && any_failed(branches) {
        Verdict::Mixed
    } else if any_in_doubt(branches) {
        Verdict::InDoubt
    } else if any_open(branches) {
        Verdict::Open
    } else {
        Verdict::Atomic
    }
}

impl Verdict {
    /// Returns whether both are the same.
    pub fn is(self, other: Verdict) -> bool
        ensures { result ≡ same_verdict self other }
    {
        match (self, other) {
            (Verdict::Atomic, Verdict::Atomic) => true,
            (Verdict::Mixed, Verdict::Mixed) => true,
            (Verdict::InDoubt, Verdict::InDoubt) => true,
            (Verdict::Open, Verdict::Open) => true,
            _ => false,
        }
    }
}
