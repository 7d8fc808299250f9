//! Lists of branches.
ghost use Rattle.std.specs.BTreeMap as tree;
ghost use Rattle.std.specs.Prelude.{◌≡◌, [], ◌∷◌, ◌++◌, OnOk, map};
ghost use Rattle.xa_xid.specs.Xid.{xid_cmp};
ghost use Rattle.xa_audit.specs.Branches.{branch_in};

use crate::branch::Branch;
use crate::lives::Lives;
use std::alloc::Global;
use std::collections::BTreeMap;
use std::marker::Model;
use xa_xid::{NoMemory, Xid};

/// A list of branches. A contract sees it as that list.
#[derive(Drop)]
pub struct Branches {
    list: Vec<Branch>,
}

impl Model for Branches {
    ghost use Rattle.std.specs.Prelude.{List};
    ghost use Rattle.xa_audit.specs.declared.branch.Branch.{Branch as BranchSeen};

    ghost Value = { List BranchSeen };

    ghost view = { λ branches. branches.list.items };
}

impl Branches {
    /// Returns an empty list.
    pub fn new(alloc: Global) -> Branches
        ensures { result ≡ [] }
    {
        Branches {
            list: Vec::new(alloc),
        }
    }

    /// Adds a branch at the end.
    ///
    /// May return `NoMemory`.
    pub fn push(&mut self, branch: Branch) -> Result<(), NoMemory>
        ensures { OnOk result (self.new ≡ self.old ++ branch ∷ []) }
    {
        self.list.push(branch)?;
        Ok(())
    }

    /// Returns the branches.
    pub fn as_slice(&self) -> &[Branch]
        ensures { result.now ≡ self.now }
    {
        self.list.as_slice()
    }
}

/// Adds the branches of a store: one for each identifier that has lives, ascending.
///
/// May return `NoMemory`.
pub fn push_branches(
    alloc: Global,
    branches: &mut Branches,
    store: u64,
    lives: &BTreeMap<Xid, Lives>,
) -> Result<(), NoMemory>
    ensures added { OnOk result (branches.new ≡ branches.old ++ map (branch_in store) lives.now.entries) }
    ensures ordered { tree.IsOrdered xid_cmp lives.now }
{
    for (xid, lived) in lives {
        branches.push(Branch::of(alloc, store, xid, lived)?)?;
    }
    Ok(())
}
