//! A search for one order that explains a record.
ghost use Rattle.std.specs.Prelude.{◌+◌, ◌^◌, ◌<◌, ℕ, length, IfOk, MatchOption};
ghost use Rattle.xa_judge.specs.Told.{AreReports, ArePasses, IsSize, IsToldUpTo};

use crate::beam::Beam;
use crate::event::Event;
use crate::known::opening;
use crate::loading::{count_alone, moves_alone, server_for};
use crate::moves::Move;
use crate::progress::Progress;
use crate::search_size::SearchSize;
use crate::trunk::{path_of, share};
use std::alloc::Global;
use xa_server::Server;
use xa_xid::NoMemory;

/// The greatest number of configurations that a search keeps after an event. If a search with the first number finds
/// no order, the next one is tried: few are fast, and mostly enough.
const WIDTHS: [usize; 3] = [8, 32, 256];

/// Moves that may lead through all of the events, if a search that keeps at most `width` configurations after each
/// event finds some; else None. The search gives up after about `left` effects, and takes those that it tried off
/// `left`. `before` other events come before these; they matter only for `progress`.
fn moves_within<P: Progress>(
    alloc: Global,
    base: &Server,
    before: usize,
    events: &[Event],
    width: usize,
    left: &mut u64,
    progress: &mut P,
) -> Result<Option<Vec<Move>>, NoMemory>
    requires { before + length events.now < 2 ^ 64 }
    ensures { IfOk result (λ found. MatchOption found
        ((count : ℕ) × AreReports P.judged_gives IsSize before (before + length events.now) progress.old count
        progress.new)
        (λ _. AreReports P.judged_gives IsSize before (before + length events.now) progress.old
        (length events.now) progress.new)) }
{
    let mut beam = Beam::new(alloc, events, opening(alloc, base)?, width, *left)?;
    let mut trunk = Vec::new(alloc);
    for place in 0..events.len() {
        beam.tell(before, events, place, progress);
        beam.see(place)?;
        *left = beam.left();
        if *left == 0 || beam.known.is_empty() {
            return Ok(None);
        }
        share(alloc, place, &mut trunk, &mut beam.known)?;
    }
    // Never empty: the beam begins with one configuration, and after each event the loop has seen that one is left.
    // But `path_of` requires one.
    if beam.known.is_empty() {
        return Ok(None);
    }
    Ok(Some(path_of(trunk, beam.known.as_slice())?))
}

/// Moves that may lead through all of the events, if a search of this size finds some with one of the `WIDTHS`, tried
/// in turn; else None. `before` other events come before these; they matter only for `progress`.
fn moves_behind<P: Progress>(
    alloc: Global,
    base: &Server,
    before: usize,
    events: &[Event],
    size: SearchSize,
    progress: &mut P,
) -> Result<Option<Vec<Move>>, NoMemory>
    requires { before + length events.now < 2 ^ 64 }
    ensures { IfOk result (λ found. MatchOption found
        (ArePasses P.judged_gives (before + length events.now) progress.old progress.new)
        (λ _. IsToldUpTo P.judged_gives (before + length events.now) (before + length events.now) progress.old
        progress.new)) }
{
    // So many effects may be tried with all widths together. Once none is left, each other width gives up after one
    // event.
    let mut left = size.effects(events.len());
    for width in WIDTHS {
        match moves_within(alloc, base, before, events, width, &mut left, progress)? {
            None => {}
            Some(moves) => return Ok(Some(moves)),
        }
    }
    Ok(None)
}

/// Returns moves that may lead through all of the events, if a search of this size finds some. Its caller has to
/// check them. None says nothing about the events.
///
/// The search looks at no order in which a call is answered otherwise than it returns. It keeps the configurations
/// with the fewest stuck calls, whose answers, given now, wouldn't be what they return; first few configurations, then
/// more. It begins where calls overlap. Its server has carried out the calls before that, except those that name a row
/// which no later call names (`server_for`).
/// May return `NoMemory`.
pub fn moves_through<P: Progress>(
    alloc: Global,
    base: &Server,
    events: &[Event],
    size: SearchSize,
    progress: &mut P,
) -> Result<Option<Vec<Move>>, NoMemory>
    ensures { IfOk result (λ found. MatchOption found
        (ArePasses P.judged_gives (length events.now) progress.old progress.new)
        (λ _. IsToldUpTo P.judged_gives (length events.now) (length events.now) progress.old progress.new)) }
{
    // `count_alone` is never more than `events.len()`, but promises nothing, and `split_at` requires it.
    let (first, later) = events.split_at(count_alone(events).min(events.len()));
    let near = server_for(alloc, base, first, later)?;
    match moves_behind(alloc, &near, first.len(), later, size, progress)? {
        None => Ok(None),
        Some(moves) => {
            let mut all = moves_alone(alloc, first)?;
            all.extend_from_slice(moves.as_slice())?;
            Ok(Some(all))
        }
    }
}
