//! The global transactions of branches.
ghost use Rattle.std.specs.BTreeMap as tree;
ghost use Rattle.std.specs.{Prelude.{◌≡◌, ◌++◌, ◌∷◌, [], filter, IfOk, OnOk}, Option.unwrap_or};
ghost use Rattle.xa_audit.specs.{declared.global.GlobalName.GlobalName as NameSeen, Following.PutsAt};
ghost use Rattle.xa_audit.specs.Globals.{global_cmp, is_of, if_any};

use crate::branch::Branch;
use crate::branches::Branches;
use crate::global::GlobalName;
use std::alloc::Global;
use std::collections::BTreeMap;
use xa_xid::NoMemory;

/// Returns the branches that were found; an empty list if none were.
fn known_branches(alloc: Global, found: Option<Branches>) -> Branches
    ensures { result ≡ unwrap_or found [] }
{
    match found {
        Some(branches) => branches,
        None => Branches::new(alloc),
    }
}

/// Adds a branch at the end of those of this global transaction, of which there may be none yet.
fn add(
    alloc: Global,
    globals: &mut BTreeMap<GlobalName, Branches>,
    name: GlobalName,
    branch: Branch,
) -> Result<(), NoMemory>
    ensures { OnOk result (PutsAt global_cmp globals.old name
        (unwrap_or (tree.get global_cmp globals.old name) [] ++ branch ∷ []) globals.new) }
{
    let mut branches = known_branches(alloc, globals.remove(&name));
    branches.push(branch)?;
    globals.insert(name, branches)?;
    Ok(())
}

/// Returns each global transaction of these branches, with those of them that are its own, in their order.
///
/// May return `NoMemory`.
pub fn globals_of(
    alloc: Global,
    branches: &[Branch],
) -> Result<BTreeMap<GlobalName, Branches>, NoMemory>
    ensures { IfOk result (λ globals. (name : NameSeen) → tree.get global_cmp globals name
        ≡ if_any (filter (is_of name) branches.now)) }
{
    let mut globals = BTreeMap::new(alloc);
    for branch in branches {
        let name = GlobalName::of(&branch.xid);
        add(alloc, &mut globals, name, branch.copy(alloc)?)?;
    }
    Ok(globals)
}
