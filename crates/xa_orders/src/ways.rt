//! Lists of ways, in which each configuration (a server and the lines' answers) is kept once, as far as equal ones are
//! known as such.
ghost use Rattle.std.specs.Prelude.{◌≡◌, ◌++◌, ◌∷◌, [], ◌<◌, List, true, None, length, IfOk, OnOk, IfSome};
ghost use Rattle.xa_orders.specs.{declared.way.Way.Way as Found, Orders.{Any, IsAscending}, Found.config_of};
ghost use Rattle.xa_orders.specs.Found.{order_of, AddsUnlessThere, IsTurnAdded, AllPrecede, IsNextOf, IsWideNext};

use crate::different::is_wide;
use crate::fingerprint_index::FingerprintIndex;
use crate::keeper::Keeper;
use crate::line::Line;
use crate::packing::Packing;
use crate::way::Way;
use std::alloc::Global;
use xa_server::Server;
use xa_xid::{NoMemory, SessionNo};

/// How many ways at the end of a list have servers that are kept as themselves, which are compared faster: a way that
/// comes again is mostly among the last.
const WHOLE: usize = 256;

/// Whether the list has this place, and the way there is known to have come to the same as `one`.
fn is_at(known: &[Way], place: usize, one: &Way) -> Result<bool, NoMemory>
    ensures { IfOk result (λ there. there ≡ true → Any (λ way. config_of way ≡ config_of one.now) known.now) }
{
    match known.get(place) {
        None => Ok(false),
        Some(other) => Ok(other.is_same(one)?),
    }
}

/// Whether a way of the list is known to have come to the same as `one`, which has this fingerprint. Only ways of the
/// same fingerprint are compared, the last one first.
fn is_known(
    known: &[Way],
    index: &FingerprintIndex,
    fingerprint: u64,
    one: &Way,
) -> Result<bool, NoMemory>
    ensures { IfOk result (λ there. there ≡ true → Any (λ way. config_of way ≡ config_of one.now) known.now) }
{
    // A fingerprint has at most as many places as the list, so this many steps look at all of them.
    let mut next = index.last_of(fingerprint);
    for _ in 0..known.len() {
        match next {
            None => return Ok(false),
            Some(place) => {
                if is_at(known, place, one)? {
                    return Ok(true);
                }
                next = index.before(place);
            }
        }
    }
    Ok(false)
}

/// Packs the way that has exactly `WHOLE` others after it, if there is one: its server is then kept in less memory, if
/// that is possible. This is called after each way that is added, so it was called for the ways before that one.
fn pack_before(known: &mut Vec<Way>, packing: &Packing) -> Result<(), NoMemory>
    ensures { OnOk result (known.new.items ≡ known.old.items) }
{
    let count = known.len();
    // No way has `WHOLE` others after it.
    if count <= WHOLE {
        return Ok(());
    }
    match known.get_mut(count - 1 - WHOLE) {
        // The list is longer than `WHOLE`, so it has this place.
        None => Ok(()),
        Some(way) => way.pack(packing),
    }
}

/// Adds the way `one`, unless a way of the list is known to have come to the same.
fn add(known: &mut Vec<Way>, keeper: &mut Keeper, one: Way) -> Result<(), NoMemory>
    ensures { OnOk result (AddsUnlessThere known.old.items one known.new.items) }
{
    let fingerprint = keeper.mark_of(&one);
    let is_there = is_known(known.as_slice(), &keeper.index, fingerprint, &one)?;
    if is_there {
        return Ok(());
    }
    // The index gives the fingerprint the next place, at which the list gets the way.
    keeper.index.push(fingerprint)?;
    known.push(one)?;
    pack_before(known, &keeper.packing)
}

/// Adds to `next` the way to which the session's turn leads, if the session has a line left, unless a way of `next` is
/// known to have come to the same. `server` is that of `way`.
fn add_turn(
    alloc: Global,
    next: &mut Vec<Way>,
    keeper: &mut Keeper,
    lines: &[Line<'_>],
    way: &Way,
    server: &Server,
    session: SessionNo,
) -> Result<(), NoMemory>
    requires { server.now ≡ way.now.server }
    ensures { OnOk result (IsTurnAdded lines.now way.now session next.old.items next.new.items) }
{
    match way.turned(alloc, &mut keeper.texts, server, lines, session)? {
        None => Ok(()),
        Some(new) => {
            add(next, keeper, new)?;
            Ok(())
        }
    }
}

/// Adds to `next` the way to which the turn of the session of this number leads, if there is such a session and it has
/// a line left, unless a way of `next` is known to have come to the same. `server` is that of `way`.
fn add_number(
    alloc: Global,
    next: &mut Vec<Way>,
    keeper: &mut Keeper,
    lines: &[Line<'_>],
    way: &Way,
    server: &Server,
    number: u64,
) -> Result<(), NoMemory>
    requires { server.now ≡ way.now.server }
    ensures { OnOk result (IsTurnAdded lines.now way.now number next.old.items next.new.items) }
{
    match SessionNo::of(number) {
        None => Ok(()),
        Some(session) => {
            add_turn(alloc, next, keeper, lines, way, server, session)?;
            Ok(())
        }
    }
}

/// Adds to `next` each way to which one more turn leads from `way`, unless a way of `next` is known to have come to the
/// same. If `next` was what one more turn of ways that precede `way` leads to, it is then that of these and `way`.
fn add_turns(
    alloc: Global,
    next: &mut Vec<Way>,
    keeper: &mut Keeper,
    lines: &[Line<'_>],
    way: &Way,
) -> Result<(), NoMemory>
    ensures { OnOk result
        ((front : List Found)
        → AllPrecede front way.now
        → IsNextOf lines.now front next.old.items
        → IsNextOf lines.now (front ++ way.now ∷ []) next.new.items) }
{
    // Made once for all sessions, since a packed server has statements to carry out again.
    let server = way.server.made()?;
    // Sessions have the numbers 1 to 16.
    for number in 1..17 {
        add_number(alloc, next, keeper, lines, way, &server, number)?;
    }
    Ok(())
}

/// Returns the ways to which one more turn of `ways` leads, each configuration with its least order; or None if more
/// than `limit` of them are known to differ.
///
/// The orders of `ways` ascend. A configuration is listed once, unless equal ways weren't known as such. So the list
/// may have more than `limit` ways.
/// May return `NoMemory`.
pub fn next_level(
    alloc: Global,
    keeper: &mut Keeper,
    lines: &[Line<'_>],
    ways: &[Way],
    limit: usize,
) -> Result<Option<Vec<Way>>, NoMemory>
    requires { IsAscending order_of ways.now }
    ensures next { IfOk result (λ found. IfSome found (λ next. IsNextOf lines.now ways.now next.items)) }
    ensures wide { IfOk result (λ found. found ≡ None → IsWideNext lines.now ways.now limit) }
{
    // The index is that of the list that begins here.
    keeper.index.clear();
    let mut next = Vec::new(alloc);
    // A list that is no longer than this has at most `limit` ways that are known to differ (`is_wide`).
    let mut most = limit;
    for way in ways {
        add_turns(alloc, &mut next, keeper, lines, way)?;
        let keys = keeper.packing.written();
        let spread = is_wide(alloc, next.as_slice(), keys, limit, &mut most)?;
        if spread {
            return Ok(None);
        }
    }
    Ok(Some(next))
}
