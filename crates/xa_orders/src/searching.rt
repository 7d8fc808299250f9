//! Carries lines out in every order.
ghost use Rattle.std.specs.Prelude.{◌≡◌, None, length, IfOk, IfSome};
ghost use Rattle.xa_orders.specs.{Orders.opening, Found.{IsLevel, IsWide, IsOpening}};

use crate::keeper::Keeper;
use crate::line::Line;
use crate::way::Way;
use crate::ways::next_level;
use std::alloc::Global;
use xa_server::Server;
use xa_xid::{Key, NoMemory};

/// The list of the only way on which no line is carried out yet.
fn opening_ways(alloc: Global, lines: &[Line<'_>], server: Server) -> Result<Vec<Way>, NoMemory>
    ensures { IfOk result (λ ways. IsOpening lines.now server ways.items) }
{
    let mut ways = Vec::new(alloc);
    ways.push(Way::opening(alloc, lines, server)?)?;
    Ok(ways)
}

/// Returns the ways that have carried out all lines: each configuration (a server and the lines' answers) with the
/// least order that leads there, and once, unless equal ways weren't known as such. None if more than `limit` ways that
/// have carried out equally many lines are known to differ.
///
/// `server` is as it is before these lines; `written` has the rows that they write.
/// May return `NoMemory`.
pub fn every_way(
    alloc: Global,
    lines: &[Line<'_>],
    written: Vec<Key>,
    server: Server,
    limit: usize,
) -> Result<Option<Vec<Way>>, NoMemory>
    ensures level { IfOk result (λ found. IfSome found
        (λ ways. IsLevel lines.now (opening lines.now server) (length lines.now) ways.items)) }
    ensures wide { IfOk result (λ found. found ≡ None → IsWide lines.now (opening lines.now server) limit) }
{
    let mut keeper = Keeper::new(alloc, &server, lines, written)?;
    let mut ways = opening_ways(alloc, lines, server)?;
    // Each level carries out one more line, so after as many levels all lines are carried out.
    for _ in 0..lines.len() {
        match next_level(alloc, &mut keeper, lines, ways.as_slice(), limit)? {
            None => return Ok(None),
            Some(next) => ways = next,
        }
    }
    Ok(Some(ways))
}
