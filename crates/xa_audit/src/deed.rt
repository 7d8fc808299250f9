//! What accepted statements do to branches.
ghost use Rattle.std.specs.{Prelude.◌≡◌, Option.option_map};
ghost use Rattle.xa_audit.specs.Deeds.{deed_by as deed_said};

use xa_xid::{Statement, Xid};

/// What an accepted statement does to a branch.
#[derive(Clone, Copy, Debug, PartialEq, Eq)]
pub enum Deed {
    /// It starts a life of it: `XA START`.
    Starts,
    /// It writes a row in it: `PUT` or `DEL`.
    Writes,
    /// It prepares it: `XA PREPARE`.
    Prepares,
    /// It commits it: `XA COMMIT`, with `ONE PHASE` or without.
    Commits,
    /// It rolls it back: `XA ROLLBACK` or `DISCONNECT`.
    RollsBack,
}

/// The deed, with the branch that it is about, `own`; None if there is no branch.
fn deed_on(own: Option<Xid>, deed: Deed) -> Option<(Xid, Deed)>
    ensures { result ≡ option_map (λ xid. (xid, deed)) own }
{
    match own {
        Some(xid) => Some((xid, deed)),
        None => None,
    }
}

/// Returns the deed of an accepted statement, and its branch: the one that the statement names, or `own`, the
/// one that the session owned before it. Returns None if the statement changes no life of a branch.
pub fn deed_by(own: Option<Xid>, statement: &Statement) -> Option<(Xid, Deed)>
    ensures { result ≡ deed_said own statement.now }
{
    match statement {
        Statement::Start(xid) => Some((xid.copy(), Deed::Starts)),
        Statement::End(_) => None,
        Statement::Prepare(xid) => Some((xid.copy(), Deed::Prepares)),
        Statement::Commit { xid, one_phase: _ } => Some((xid.copy(), Deed::Commits)),
        Statement::Rollback(xid) => Some((xid.copy(), Deed::RollsBack)),
        Statement::Recover { convert: _ } => None,
        Statement::Unsupported => None,
        Statement::Get(_) => None,
        Statement::Put(_, _) => deed_on(own, Deed::Writes),
        Statement::Del(_) => deed_on(own, Deed::Writes),
        Statement::Disconnect => deed_on(own, Deed::RollsBack),
    }
}
