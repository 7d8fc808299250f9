//! Judges free statements row by row.
//!
//! A session that has no branch reads and writes a row at once, and a row for which only such sessions call is a
//! register of its own. A record that begins without a branch is explained exactly if the statements on each such row
//! are, and so is the rest. The `GET`, `PUT` and `DEL` of such rows are the free statements.
ghost use Rattle.std.specs.Prelude.{◌≡◌, true, false, not, take, IfOk, IfSome};
ghost use Rattle.xa_judge.specs.{Explained.Explained, Keys.{first_turns, HasNoBranch, IsCut, picked}, Near.named_in};
ghost use Rattle.xa_judge.specs.Verdicts.{IsVerdict};

use crate::event::Event;
use crate::following::follows;
use crate::free_rows::free_keys;
use crate::judging_part::judge_part;
use crate::moves::Move;
use crate::parts::{count_before, merge, pick, place_in, sides_of};
use crate::progress::Silent;
use crate::shared_answer::SharedAnswer;
use crate::verdict::Verdict;
use crate::ways::judge_narrow;
use std::alloc::Global;
use std::collections::BTreeSet;
use xa_server::Server;
use xa_xid::{Key, NoMemory};

/// Whether the base has no branch.
fn has_no_branch(alloc: Global, base: &Server) -> Result<bool, NoMemory>
    ensures { IfOk result (λ none. none ≡ true → HasNoBranch base.now) }
{
    let branches = base.branches(alloc)?;
    Ok(branches.is_empty())
}

/// A set of these keys.
fn set_of(alloc: Global, keys: &[Key]) -> Result<BTreeSet<Key>, NoMemory> {
    let mut set = BTreeSet::new(alloc);
    for key in keys {
        set.insert(key.copy())?;
    }
    Ok(set)
}

/// The verdict LEGAL, if `moves`, those of both parts merged, lead through the record; else None.
fn legal_together(
    alloc: Global,
    base: &Server,
    events: &[Event],
    moves: Vec<Move>,
    limit: usize,
) -> Result<Option<Verdict>, NoMemory>
    ensures { IfOk result (λ found. IfSome found (IsVerdict base.now events.now limit)) }
{
    // Only the contract names the limit: LEGAL doesn't depend on it.
    let _limit = limit;
    if follows(alloc, base, events, moves.as_slice())? {
        Ok(Some(Verdict::Legal(moves)))
    } else {
        Ok(None)
    }
}

/// The verdict ILLEGAL at the event at which the part `wanted` is refuted: its place in that part is `index`, and its
/// call could have had the `answers`. `sides` has the part of each event, and `true` is the chosen one. An order
/// explains the first `explained` events of the other part. None if more than `explained` events of the other part come
/// before the refuted event, or if the part `wanted` has no event at `index`.
fn illegal_in(
    base: &Server,
    keys: &BTreeSet<Key>,
    sides: &[bool],
    events: &[Event],
    wanted: bool,
    index: usize,
    answers: Vec<SharedAnswer>,
    explained: usize,
    limit: usize,
) -> Option<Verdict>
    requires none { HasNoBranch base.now }
    requires cut { IsCut (named_in keys.now) first_turns sides.now events.now }
    requires part { IsVerdict base.now (picked wanted sides.now events.now) limit (Verdict.Illegal index answers) }
    requires other { Explained base.now (take explained (picked (not wanted) sides.now events.now)) }
    ensures { IfSome result (IsVerdict base.now events.now limit) }
{
    // Only the contract names these.
    let _base = base;
    let _keys = keys;
    let _events = events;
    let _limit = limit;
    let Some(place) = place_in(sides, wanted, index) else {
        return None;
    };
    if count_before(sides, !wanted, place) <= explained {
        Some(Verdict::Illegal(place, answers))
    } else {
        None
    }
}

/// The verdict on a record by the verdicts on its parts: `chosen` is the verdict on the events whose side is `true`,
/// `rest` the one on the other events. None if one of the two is UNDECIDED, or if no verdict follows from both.
fn together(
    alloc: Global,
    base: &Server,
    keys: &BTreeSet<Key>,
    sides: &[bool],
    events: &[Event],
    chosen: Verdict,
    rest: Verdict,
    limit: usize,
) -> Result<Option<Verdict>, NoMemory>
    requires none { HasNoBranch base.now }
    requires cut { IsCut (named_in keys.now) first_turns sides.now events.now }
    requires chosen { IsVerdict base.now (picked true sides.now events.now) limit chosen }
    requires rest { IsVerdict base.now (picked false sides.now events.now) limit rest }
    ensures { IfOk result (λ found. IfSome found (IsVerdict base.now events.now limit)) }
{
    match chosen {
        Verdict::Legal(moves) => match rest {
            Verdict::Legal(others) => {
                let all = merge(alloc, sides, moves.as_slice(), others.as_slice())?;
                legal_together(alloc, base, events, all, limit)
            }
            // The chosen part is explained as a whole: it has no more events than `sides.len()`.
            Verdict::Illegal(index, answers) => Ok(illegal_in(
                base,
                keys,
                sides,
                events,
                false,
                index,
                answers,
                sides.len(),
                limit,
            )),
            Verdict::Undecided(_) => Ok(None),
        },
        Verdict::Illegal(index, answers) => match rest {
            // The rest is explained as a whole: it has no more events than `sides.len()`.
            Verdict::Legal(_) => Ok(illegal_in(
                base,
                keys,
                sides,
                events,
                true,
                index,
                answers,
                sides.len(),
                limit,
            )),
            Verdict::Illegal(other, others) => {
                // Each part is explained up to its refuted event: the first `index` events of the chosen part, and
                // `other` of the rest. Only the refutation that comes first in the record gives a verdict: for the
                // later one `illegal_in` returns None.
                let first = illegal_in(
                    base, keys, sides, events, true, index, answers, other, limit,
                );
                if first.is_some() {
                    return Ok(first);
                }
                Ok(illegal_in(
                    base, keys, sides, events, false, other, others, index, limit,
                ))
            }
            Verdict::Undecided(_) => Ok(None),
        },
        Verdict::Undecided(_) => Ok(None),
    }
}

/// The verdict on `events`, all of them of free statements on the rows `keys`. Fewer than two rows are judged by
/// `judge_part`. Else few configurations may be enough (`judge_narrow`); if not, each half of the rows is judged as
/// here, and the two verdicts are put together. None if no verdict is found so.
fn judge_rows(
    alloc: Global,
    base: &Server,
    keys: &[Key],
    events: &[Event],
    limit: usize,
) -> Result<Option<Verdict>, NoMemory>
    requires { HasNoBranch base.now }
    ensures { IfOk result (λ found. IfSome found (IsVerdict base.now events.now limit)) }
{
    if keys.len() < 2 {
        return judge_part(alloc, base, events, limit);
    }
    // Rows on which calls don't overlap need no cut, however many they are.
    if let Some(verdict) = judge_narrow(alloc, base, events, limit, &mut Silent)? {
        return Ok(Some(verdict));
    }
    let (few, others) = keys.split_at(keys.len() / 2);
    let named = set_of(alloc, few)?;
    let Some(sides) = sides_of(alloc, &named, events)? else {
        return Ok(None);
    };
    let part = pick(alloc, true, sides.as_slice(), events)?;
    let Some(chosen) = judge_rows(alloc, base, few, part.as_slice(), limit)? else {
        return Ok(None);
    };
    let part = pick(alloc, false, sides.as_slice(), events)?;
    let Some(rest) = judge_rows(alloc, base, others, part.as_slice(), limit)? else {
        return Ok(None);
    };
    together(
        alloc,
        base,
        &named,
        sides.as_slice(),
        events,
        chosen,
        rest,
        limit,
    )
}

/// Returns the verdict on a record whose free statements are judged row by row; or None, if that gives no
/// verdict. `limit` bounds the configurations that are kept of each part, as in `judge_part`.
///
/// May return `NoMemory`.
pub fn judge_by_keys(
    alloc: Global,
    base: &Server,
    events: &[Event],
    limit: usize,
) -> Result<Option<Verdict>, NoMemory>
    // Proved (records, key-by-key): A verdict that is found by judging rows one by one, for which only sessions
    //   call that have no branch then, is right for the whole record.
    ensures { IfOk result (λ found. IfSome found (IsVerdict base.now events.now limit)) }
{
    let keys = free_keys(alloc, events)?;
    // Without such rows nothing can be cut off, and a branch in the base may hold some of them.
    if keys.is_empty() || !has_no_branch(alloc, base)? {
        return Ok(None);
    }
    let named = set_of(alloc, keys.as_slice())?;
    let Some(sides) = sides_of(alloc, &named, events)? else {
        return Ok(None);
    };
    if keys.len() < 2 && count_before(sides.as_slice(), false, sides.len()) == 0 {
        // All events are about this one row, so nothing would be cut off.
        return Ok(None);
    }
    let part = pick(alloc, true, sides.as_slice(), events)?;
    let all = keys.as_slice();
    let Some(chosen) = judge_rows(alloc, base, all, part.as_slice(), limit)? else {
        return Ok(None);
    };
    let part = pick(alloc, false, sides.as_slice(), events)?;
    let Some(rest) = judge_part(alloc, base, part.as_slice(), limit)? else {
        return Ok(None);
    };
    together(
        alloc,
        base,
        &named,
        sides.as_slice(),
        events,
        chosen,
        rest,
        limit,
    )
}
