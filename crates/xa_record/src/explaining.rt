//! Explains an ILLEGAL verdict: an order of what comes before its line, and the store after that order.
ghost use Rattle.std.specs.{Prelude.{◌≡◌, ◌<◌, ℕ, length, IfOk, MatchOption, take}, Option.option_map};
ghost use Rattle.xa_judge.specs.{Explained.{Config, opening_config, LeadsThrough, Explained}, Verdicts.IsWide};
ghost use Rattle.xa_lines.specs.Listing.{listing};
ghost use Rattle.xa_record.specs.{Events.AreCalls, Kept.reason_kept, Reading.notes_by};
ghost use Rattle.xa_record.specs.Reports.{keys_named, is_reason_asked, IsReason, IsReasonFound, IsReasonSought};

use crate::asked::Asked;
use crate::lines_again::order_before;
use crate::named_rows::rows_named;
use crate::reason::Reason;
use std::alloc::Global;
use xa_judge::{Event, Move, Progress, Verdict, judge_telling, server_after};
use xa_lines::with_listing;
use xa_server::Server;
use xa_xid::NoMemory;

/// The store to which these moves lead from `base`. They have to lead through all of the events.
fn store_after(
    alloc: Global,
    base: &Server,
    events: &[Event],
    moves: &[Move],
) -> Result<Server, NoMemory>
    requires { (config : Config) × LeadsThrough (opening_config base.now) events.now moves.now config }
    ensures { IfOk result (λ store. (config : Config) × LeadsThrough
        (opening_config base.now) events.now moves.now config × (config.state ≡ store)) }
{
    match server_after(alloc, base, events, moves)? {
        Some(store) => Ok(store),
        // The moves lead through the events, as the first clause requires.
        None => unreachable!(),
    }
}

/// The lines of the store to which these moves lead from `base`, through all of the events: every branch, and the rows
/// that calls name.
fn state_lines(
    alloc: Global,
    base: &Server,
    events: &[Event],
    moves: &[Move],
) -> Result<Vec<u8>, NoMemory>
    requires { (config : Config) × LeadsThrough (opening_config base.now) events.now moves.now config }
    ensures { IfOk result
        (λ text. (config : Config) × LeadsThrough (opening_config base.now) events.now moves.now config
        × (text.items ≡ listing config.state (keys_named events.now))) }
{
    let rows = rows_named(alloc, events)?;
    let store = store_after(alloc, base, events, moves)?;
    with_listing(alloc, Vec::new(alloc), &store, rows.as_slice())
}

/// The order of these moves, which lead from `base` through the events before `place`, and the store after that order.
/// `text` is the record's, read with the texts of calls tested if `strict`, and `events` are all of its events, also
/// those from `place` on.
fn reason_by(
    alloc: Global,
    base: &Server,
    strict: bool,
    text: &[u8],
    events: &[Event],
    place: usize,
    moves: &[Move],
) -> Result<Reason, NoMemory>
    requires are { AreCalls (notes_by strict text.now).told events.now }
    requires within { place < length events.now }
    requires lead { (config : Config) × LeadsThrough (opening_config base.now)
        (take place events.now) moves.now config }
    ensures { IfOk result
        (λ reason. IsReason base.now (take place (notes_by strict text.now).told) (take place events.now)
        (reason_kept reason)) }
{
    let state = state_lines(alloc, base, &events[..place], moves)?;
    let order = order_before(alloc, strict, text, events, place, moves)?;
    Ok(Reason { order, state })
}

/// Moves that lead through the events, which some order has to explain. None only if more than `limit` different
/// configurations have to be kept before one of them.
fn moves_through<P: Progress>(
    alloc: Global,
    base: &Server,
    limit: usize,
    events: &[Event],
    progress: &mut P,
) -> Result<Option<Vec<Move>>, NoMemory>
    requires { Explained base.now events.now }
    ensures { IfOk result (λ found. MatchOption found ((place : ℕ) × IsWide base.now events.now limit place)
        (λ moves. (config : Config) × LeadsThrough (opening_config base.now) events.now moves.items config)) }
{
    match judge_telling(alloc, base, events, limit, progress)? {
        Verdict::Legal(moves) => Ok(Some(moves)),
        // Some order explains these events, as the first clause requires.
        Verdict::Illegal(_, _) => unreachable!(),
        Verdict::Undecided(_) => Ok(None),
    }
}

/// An order that explains the events before `place`, and the store after that order. Some order has to explain them.
/// None only if more than `asked.limit` different configurations have to be kept before one of them. `text` is the
/// record's, and `events` are all of its events.
fn reason_of<P: Progress>(
    alloc: Global,
    base: &Server,
    asked: Asked,
    text: &[u8],
    events: &[Event],
    place: usize,
    progress: &mut P,
) -> Result<Option<Reason>, NoMemory>
    requires are { AreCalls (notes_by asked.strict_calls text.now).told events.now }
    requires within { place < length events.now }
    requires explained { Explained base.now (take place events.now) }
    ensures { IfOk result
        (λ reason. IsReasonFound base.now (take place (notes_by asked.strict_calls text.now).told)
        (take place events.now) asked.limit (option_map reason_kept reason)) }
{
    let found = moves_through(alloc, base, asked.limit, &events[..place], progress)?;
    match found {
        None => Ok(None),
        Some(moves) => Ok(Some(reason_by(
            alloc,
            base,
            asked.strict_calls,
            text,
            events,
            place,
            moves.as_slice(),
        )?)),
    }
}

/// Returns an order that explains the events before `place`, and the store after that order. None if `asked` asks for
/// no explanation, or for a smaller record, which stands in their place. Else None only if more than `asked.limit`
/// different configurations have to be kept before one of these events. `text` is the record's, and `events` are all
/// of its events.
///
/// If the order is sought, the events before the place are judged once more, and `progress` is told how far that is.
/// May return `NoMemory`.
pub fn reason_for<P: Progress>(
    alloc: Global,
    base: &Server,
    asked: Asked,
    text: &[u8],
    events: &[Event],
    place: usize,
    progress: &mut P,
) -> Result<Option<Reason>, NoMemory>
    requires are { AreCalls (notes_by asked.strict_calls text.now).told events.now }
    requires within { place < length events.now }
    requires explained { Explained base.now (take place events.now) }
    ensures { IfOk result
        (λ reason. IsReasonSought (is_reason_asked asked) base.now
        (take place (notes_by asked.strict_calls text.now).told) (take place events.now) asked.limit
        (option_map reason_kept reason)) }
{
    if !asked.explains || asked.shrinks {
        return Ok(None);
    }
    reason_of(alloc, base, asked, text, events, place, progress)
}
