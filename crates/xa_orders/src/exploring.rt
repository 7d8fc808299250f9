//! Explores lines.
ghost use Rattle.std.specs.Prelude.{◌≡◌, None, IfOk, IfSome};
ghost use Rattle.xa_server.specs.State.{no_state};
ghost use Rattle.xa_orders.specs.{Orders.{IsExplored, base_of}, Found.IsWide};

use crate::line::Line;
use crate::outcome::Outcome;
use crate::outcomes::{outcomes_of, push_told};
use crate::searching::every_way;
use std::alloc::Global;
use xa_server::Server;
use xa_xid::{Key, NoMemory};

/// Returns every outcome of the lines `beside` each other, each once with its least order (the smaller session first),
/// or None if more than `limit` ways that have carried out equally many lines are known to differ.
///
/// The lines `before` are carried out first and the lines `later` last, each list in order, by a server that
/// holds nothing at first. `written` has the rows that lines write; if a row is missing there, the search may be
/// slower, take more memory or keep more ways than `limit`, and no outcome changes. None means that for some number
/// of lines more than `limit` ways have carried out that many, and each two of these ways differ: a line was
/// answered otherwise, or the servers aren't the same.
/// Error: `NoMemory` if an allocation failed. Doesn't wait.
/// Own rule: docs/COMMANDS.md#explore.
pub fn explore(
    alloc: Global,
    before: &[Line<'_>],
    beside: &[Line<'_>],
    later: &[Line<'_>],
    written: Vec<Key>,
    limit: usize,
) -> Result<Option<Vec<Outcome>>, NoMemory>
    // Proved (orders, outcomes): Each listed outcome is what its order gives. Every outcome that an order
    //   gives is listed, with an order that is at most that one. None is listed twice, and the orders ascend.
    ensures explored { IfOk result
        (λ found. IfSome found (λ outcomes. IsExplored (record
        { before = before.now; beside = beside.now; later = later.now }) outcomes.items)) }
    // Proved (orders, undecided): Exploring is undecided only if orders of one length lead to more ways than
    //   the limit, no two of which have come to the same.
    ensures wide { IfOk result
        (λ found. found ≡ None → IsWide beside.now (base_of
        (record { before = before.now; beside = beside.now; later = later.now })) limit) }
{
    let mut server = Server::new(alloc);
    let mut first = Vec::new(alloc);
    // After this, `first` is what the lines before are answered, and `server` is as they leave it.
    push_told(alloc, &mut first, &mut server, before)?;
    match every_way(alloc, beside, written, server, limit)? {
        None => Ok(None),
        Some(ways) => {
            let outcomes = outcomes_of(alloc, first.as_slice(), ways.as_slice(), later)?;
            Ok(Some(outcomes))
        }
    }
}
