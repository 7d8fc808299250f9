//! What is kept of histories that are audited.
ghost use Rattle.std.specs.BTreeMap as tree;
ghost use Rattle.std.specs.Prelude.{◌≡◌, ◌<◌, ◌+◌, ◌++◌, ◌∷◌, [], ℕ, List, OnOk, map};
ghost use Rattle.xa_xid.specs.Xid.{xid_cmp};
ghost use Rattle.xa_audit.specs.Branches.{branch_in};

use crate::branches::{Branches, push_branches};
use crate::faults::push_faults;
use crate::lives::Lives;
use crate::store::lives_of;
use std::alloc::Global;
use std::collections::BTreeMap;
use xa_xid::{NoMemory, Xid};

/// What is kept of the histories that were taken: those of stores 1, 2, .., in this order.
#[derive(Drop)]
pub struct Audit {
    /// How many histories there are.
    pub stores: u64,
    /// What is written for the lines that aren't read.
    pub faults: Vec<u8>,
    /// If each line is read, the branches of every store.
    pub branches: Branches,
}

impl Audit {
    ghost use Rattle.xa_audit.specs.Audits.{IsAuditOf};

    /// Returns an audit of no history.
    ///
    /// Takes no memory. Doesn't wait.
    pub fn new(alloc: Global) -> Audit
        ensures audit { IsAuditOf [] result }
        ensures stores { result.stores ≡ 0 }
    {
        Audit {
            stores: 0,
            faults: Vec::new(alloc),
            branches: Branches::new(alloc),
        }
    }

    /// Adds the branches of the last store, whose number is `stores`: one for each identifier that has lives.
    fn push_lives(&mut self, alloc: Global, lives: &BTreeMap<Xid, Lives>) -> Result<(), NoMemory>
        ensures added { OnOk result (self.new.branches ≡ self.old.branches
            ++ map (branch_in self.old.stores) lives.now.entries) }
        ensures ordered { tree.IsOrdered xid_cmp lives.now }
        ensures stores { self.new.stores ≡ self.old.stores }
        ensures faults { self.new.faults ≡ self.old.faults }
    {
        push_branches(alloc, &mut self.branches, self.stores, lives)
    }

    /// Takes the history of the next store. At most 64 are taken, as many as the job `audit` reads.
    ///
    /// After `NoMemory` the audit is of no use.
    /// May return `NoMemory`. Doesn't wait.
    /// Own rule: docs/HISTORIES.md#audits.
    pub fn add(&mut self, alloc: Global, history: &[u8]) -> Result<(), NoMemory>
        requires { self.old.stores < 64 }
        ensures audit { OnOk result ((histories : List (List ℕ)) → IsAuditOf histories self.old
            → IsAuditOf (histories ++ history.now ∷ []) self.new) }
        ensures stores { OnOk result (self.new.stores ≡ self.old.stores + 1) }
    {
        self.stores += 1;
        push_faults(&mut self.faults, self.stores, history)?;
        // If some line isn't read, the audit writes only the faults of lines, and needs no branches.
        if self.faults.is_empty() {
            let lives = lives_of(alloc, history)?;
            self.push_lives(alloc, &lives)?;
        }
        Ok(())
    }
}
