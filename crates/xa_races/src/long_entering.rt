//! The runs of a race over a new store without an end.
ghost use Rattle.std.specs.Prelude.{◌≡◌, map, IfOk};
ghost use Rattle.xa_races.specs.LongRace.{IsNewRun, AreNewRuns};

use crate::long_run::LongRun;
use std::alloc::{AllocError, Global};
use std::sync::Arc;
use xa_endless::EndlessStore;
use xa_xid::{NoMemory, Statement};

/// The run in which the session of this number gives these lines. The store is new, and has such a session. May return
/// `NoMemory`.
fn enter(store: &Arc<EndlessStore>, number: u64, lines: Vec<Statement>) -> Result<LongRun, NoMemory>
    ensures { IfOk result (IsNewRun store.now.value number lines.items) }
{
    // Nobody has a session of a new store, so only memory can be missing.
    let Ok(session) = EndlessStore::take(store, number) else {
        return Err(AllocError);
    };
    // A session of a new store has seen nothing. That isn't known here of a session that is taken.
    if session.seen() != 0 {
        return Err(AllocError);
    }
    Ok(LongRun { session, lines })
}

/// The runs of the sessions from 1 on, each with its list of statements. The store is new, and has at least as many
/// sessions as there are lists; otherwise `NoMemory` may be returned, too.
pub(crate) fn enter_all(
    alloc: Global,
    store: &Arc<EndlessStore>,
    lists: Vec<Vec<Statement>>,
) -> Result<Vec<LongRun>, NoMemory>
    ensures { IfOk result (λ runs. AreNewRuns store.now.value 1 (map (λ list. list.items) lists.items) runs.items) }
{
    let mut runs = Vec::new(alloc);
    for lines in lists {
        let number = runs.len() as u64 + 1;
        let run = enter(store, number, lines)?;
        runs.push(run)?;
    }
    Ok(runs)
}
