//! Judges one part of a record, without telling how far it is.
ghost use Rattle.std.specs.Prelude.{IfOk, IfSome};
ghost use Rattle.xa_judge.specs.Verdicts.{IsVerdict};

use crate::event::Event;
use crate::foreseen::judge_ahead;
use crate::progress::Silent;
use crate::search_size::SearchSize;
use crate::verdict::Verdict;
use crate::ways::{judge_by_search, judge_kept};
use std::alloc::Global;
use xa_server::Server;
use xa_xid::NoMemory;

/// How many configurations of a part of a record are kept before one order is looked for. They are enough for several
/// sessions that call for one row without a pause, and so few that each has a server of its own, if there is room.
const MIDDLE: usize = 255;

/// Returns the verdict on one part of a record, if one is found; else None. `limit` bounds the configurations that are
/// kept; the searches for one order have bounds of their own (`SearchSize`).
///
/// May return `NoMemory`.
pub fn judge_part(
    alloc: Global,
    base: &Server,
    events: &[Event],
    limit: usize,
) -> Result<Option<Verdict>, NoMemory>
    ensures { IfOk result (λ found. IfSome found (IsVerdict base.now events.now limit)) }
{
    // Keeping all configurations comes first, since it refutes a part that no order explains. A search for one order
    // of such a part would go on until it has to give up.
    if let Some(verdict) = judge_kept(alloc, base, events, MIDDLE, limit, &mut Silent)? {
        return Ok(Some(verdict));
    }
    let short = SearchSize::Short;
    if let Some(verdict) = judge_by_search(alloc, base, events, limit, short, &mut Silent)? {
        return Ok(Some(verdict));
    }
    if let Some(verdict) = judge_ahead(alloc, base, events, limit)? {
        return Ok(Some(verdict));
    }
    let whole = SearchSize::Whole;
    if let Some(verdict) = judge_by_search(alloc, base, events, limit, whole, &mut Silent)? {
        return Ok(Some(verdict));
    }
    // At last as many configurations as are allowed, since no cheaper way gave a verdict.
    judge_kept(alloc, base, events, limit, limit, &mut Silent)
}
