//! Judges a record: which ways to a verdict are tried, and in which order.
ghost use Rattle.std.specs.Prelude.{length, IfOk, IfSome};
ghost use Rattle.xa_judge.specs.{Told.{IsToldUpTo, IsToldOf, seen_for}, Verdicts.IsVerdict};

use crate::by_keys::judge_by_keys;
use crate::event::Event;
use crate::foreseen::judge_ahead;
use crate::loading::count_alone;
use crate::near::judge_behind;
use crate::progress::{Progress, Silent};
use crate::search_size::SearchSize;
use crate::verdict::Verdict;
use crate::way::Way;
use crate::ways::{judge_by_search, judge_in_breadth, judge_kept, judge_narrow, tell_verdict};
use std::alloc::Global;
use xa_server::Server;
use xa_xid::NoMemory;

/// How many configurations are kept of a record before the search tries more. In lists of up to so many each has a
/// server of its own, if there is room (`fit`), so they are quick to look at.
const WIDE: usize = 255;

/// If so many events or more come before calls overlap, and others follow, `WAYS_OF_LONG` is tried, which begins with
/// a search that needs only the rows that later calls name. Fewer events are at most 255 calls, so there are few rows
/// to leave out.
const LONG: usize = 512;

/// The ways that are tried one after another before all configurations are kept, the cheap ones first.
const WAYS: [Way; 6] = [
    Way::Narrow,
    Way::Rows,
    Way::ShortSearch,
    Way::LaterReturns,
    Way::Wide,
    Way::WholeSearch,
];

/// The ways for a record with many events before calls overlap. `ShortSearch` and `BehindWide` need only the rows that
/// later calls name, so they come before the ways that keep configurations of the whole record.
const WAYS_OF_LONG: [Way; 8] = [
    Way::ShortSearch,
    Way::Rows,
    Way::BehindWide,
    Way::Narrow,
    Way::LaterReturns,
    Way::Wide,
    Way::WholeSearch,
    Way::BehindAll,
];

/// The verdict that this way finds; None if it finds none. A way that doesn't tell `progress` how far it is has its
/// verdict told afterwards (`tell_verdict`). `limit` is how many configurations may be kept.
fn judge_by<P: Progress>(
    alloc: Global,
    way: Way,
    base: &Server,
    events: &[Event],
    limit: usize,
    progress: &mut P,
) -> Result<Option<Verdict>, NoMemory>
    ensures verdict { IfOk result (λ found. IfSome found (IsVerdict base.now events.now limit)) }
    ensures told { IfOk result (λ found. IsToldOf P.judged_gives events.now found progress.old progress.new) }
{
    match way {
        Way::Narrow => judge_narrow(alloc, base, events, limit, progress),
        Way::Wide => judge_kept(alloc, base, events, WIDE, limit, progress),
        Way::Rows => {
            let found = judge_by_keys(alloc, base, events, limit)?;
            Ok(tell_verdict(base, events, found, limit, progress))
        }
        Way::ShortSearch => judge_by_search(
            alloc,
            base,
            events,
            limit,
            SearchSize::Short,
            progress,
        ),
        Way::WholeSearch => judge_by_search(
            alloc,
            base,
            events,
            limit,
            SearchSize::Whole,
            progress,
        ),
        Way::LaterReturns => {
            let found = judge_ahead(alloc, base, events, limit)?;
            Ok(tell_verdict(base, events, found, limit, progress))
        }
        Way::BehindWide => judge_behind(alloc, base, events, limit, WIDE, progress),
        Way::BehindAll => judge_behind(alloc, base, events, limit, limit, progress),
    }
}

/// The verdict of the first of the ways that finds one; None if none does.
fn judge_in_order<P: Progress>(
    alloc: Global,
    ways: &[Way],
    base: &Server,
    events: &[Event],
    limit: usize,
    progress: &mut P,
) -> Result<Option<Verdict>, NoMemory>
    ensures verdict { IfOk result (λ found. IfSome found (IsVerdict base.now events.now limit)) }
    ensures told { IfOk result (λ found. IsToldOf P.judged_gives events.now found progress.old progress.new) }
{
    for way in ways {
        if let Some(verdict) = judge_by(alloc, *way, base, events, limit, progress)? {
            return Ok(Some(verdict));
        }
    }
    Ok(None)
}

/// Whether at least `LONG` events come before calls overlap, and some come after these.
fn is_long(events: &[Event]) -> bool {
    let alone = count_alone(events);
    LONG <= alone && alone < events.len()
}

/// Judges the events as `judge` does, and tells `progress` how far it is.
///
/// Errors: `NoMemory` if an allocation failed.
/// Takes memory as `judge` does. Doesn't wait.
/// Own rule: docs/HISTORIES.md#verdicts.
pub fn judge_telling<P: Progress>(
    alloc: Global,
    base: &Server,
    events: &[Event],
    limit: usize,
    progress: &mut P,
) -> Result<Verdict, NoMemory>
    // Proved (records, legal)
    // Proved (records, illegal)
    // Proved (records, illegal-answers)
    // Proved (records, undecided)
    ensures verdict { IfOk result (IsVerdict base.now events.now limit) }
    // Proved (records, progress): `progress` is told of events in passes, in each pass of one event after another, and
    //   of nothing else: of an event its place, and how many events there are. The last pass goes up to what decides.
    ensures told { IfOk result (λ verdict. IsToldUpTo P.judged_gives (length events.now)
        (seen_for events.now verdict) progress.old progress.new) }
{
    let ways: &[Way] = if is_long(events) {
        &WAYS_OF_LONG
    } else {
        &WAYS
    };
    match judge_in_order(alloc, ways, base, events, limit, progress)? {
        Some(verdict) => Ok(verdict),
        // At last all configurations are kept, up to `limit`. No events were judged before these, so `before` is 0.
        None => judge_in_breadth(alloc, base, 0, events, limit, progress),
    }
}

/// Returns the verdict whether any order explains the events, beginning with a server in the state of `base`.
///
/// The verdict is `Undecided` only if more than `limit` different configurations have to be kept before an event, and
/// no verdict was found by a search for one order, by judging statements outside of branches row by row, or by
/// configurations that later returns allow. A record is judged first with at most eight configurations, then row by
/// row, then by a short search for one order, and then by what later returns allow. After these come 255
/// configurations, and a search that tries more, before all configurations are kept. If 512 or more events come
/// before calls overlap, and others follow, the short search and the rows come first instead, and then what follows
/// these events is judged by itself, as it is again with up to `limit` configurations before all are kept.
/// Identifiers that a call returns have to be in ascending order.
/// Errors: `NoMemory` if an allocation failed.
/// Takes memory for the configurations. In a list of up to 255 each has a copy of the server's records, and in a longer
/// one each whose server carried out 128 requests or more since it was copied, as long as 128 MiB hold a copy for each
/// of the list by an estimate; others share those of one server. Those that later returns allow have a copy each: if
/// 384 MiB don't hold these by an estimate, that way finds no verdict. Doesn't wait.
/// Own rule: docs/HISTORIES.md#verdicts.
pub fn judge(
    alloc: Global,
    base: &Server,
    events: &[Event],
    limit: usize,
) -> Result<Verdict, NoMemory>
    // Proved (records, legal): LEGAL comes with moves that lead through all that was seen, so an order of the
    //   statements explains it.
    // Proved (records, illegal): ILLEGAL names a place. An order explains what was seen before it, and no
    //   order explains also what was seen there, or all that was seen.
    // Proved (records, illegal-answers): The answers listed at ILLEGAL are all that some order of what was
    //   seen before gives the call that returns there, and no others.
    // Proved (records, undecided): UNDECIDED is returned only if the events before its place lead to more
    //   configurations than allowed, no two of them the same, though statements take effect as late as they
    //   can. The event there is a return, an unknown answer, or a call of a session whose client is gone with
    //   an open call. Before a return, statements of other sessions count, and none after its call was answered.
    ensures { IfOk result (IsVerdict base.now events.now limit) }
{
    judge_telling(alloc, base, events, limit, &mut Silent)
}
