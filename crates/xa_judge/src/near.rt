//! Judges the events that come after calls that don't overlap, on a server that lacks what these calls write, outside
//! branches, to rows that the later events don't name.
//!
//! A test bench often fills its tables first, one call after another. The answers to its other calls don't depend on
//! rows that none of them names, and a server into which these weren't written is soon copied. The base's own rows all
//! stay.
//!
//! The server with all rows is called full. One is near it if it has the same branches, and the same committed values
//! of the rows whose keys are in `keys`.
ghost use Rattle.std.specs.{Prelude.{◌≡◌, ◌+◌, ◌<◌, ◌^◌, ◌++◌, ℕ, true, false, length, IfOk, IfSome, OnOk}, List.All};
ghost use Rattle.xa_server.specs.{State.{State, association_of}, Step.after};
ghost use Rattle.xa_server.specs.declared.association.Association.{Association};
ghost use Rattle.xa_judge.specs.{Explained.{answer_to, next_state, shows_answer, IsSession}, Told.{IsToldOf, seen_for}};
ghost use Rattle.xa_judge.specs.Near.{named_in, AreNear, ReadsNamed, CallsNamed, IsLoadedTo, IsNearLater};
ghost use Rattle.xa_judge.specs.Verdicts.{IsVerdict};

use crate::alone_call::{AloneCall, alone};
use crate::event::Event;
use crate::following::follows;
use crate::foreseen::judge_ahead;
use crate::loading::{count_alone, key_called, moves_alone};
use crate::moves::Move;
use crate::progress::Progress;
use crate::request::Request;
use crate::verdict::Verdict;
use crate::ways::{judge_in_breadth, tell_verdict};
use std::alloc::Global;
use std::collections::BTreeSet;
use xa_server::{BranchState, Reply, Server, XaError};
use xa_xid::{Bytes, Key, NoMemory, SessionNo, Statement, Xid};

/// The keys of the rows that the events call for.
fn keys_called(alloc: Global, events: &[Event]) -> Result<BTreeSet<Key>, NoMemory> {
    let mut keys = BTreeSet::new(alloc);
    for event in events {
        if let Some(key) = key_called(event) {
            keys.insert(key.copy())?;
        }
    }
    Ok(keys)
}

/// Whether the request reads only rows with these keys: false only for a `GET` of another row, as nothing else reads.
fn reads_named(keys: &BTreeSet<Key>, request: &Request) -> bool
    ensures { result ≡ true → ReadsNamed (named_in keys.now) request.now }
{
    match request {
        Request::Statement(Statement::Get(key)) => keys.contains(key),
        _ => true,
    }
}

/// Whether the event, if it is a call, reads only rows with these keys.
fn calls_named(keys: &BTreeSet<Key>, event: &Event) -> bool
    ensures { result ≡ true → CallsNamed (named_in keys.now) event.now }
{
    match event {
        Event::Call(_, request) => reads_named(keys, request.request()),
        Event::Return(_, _) => true,
        Event::Lost(_) => true,
        Event::Unknown(_) => true,
    }
}

/// Whether each of the events that is a call reads only rows with these keys.
fn all_named(keys: &BTreeSet<Key>, events: &[Event]) -> bool
    ensures { result ≡ true → All (CallsNamed (named_in keys.now)) events.now }
{
    for event in events {
        if !calls_named(keys, event) {
            return false;
        }
    }
    true
}

/// Whether this reply to an `XA END` says that its session owns no branch.
fn tells_free(reply: &Reply) -> bool
    ensures { result ≡ true → reply.now ≡ Reply.Refused (XaError.Rmfail BranchState.NonExisting) }
{
    match reply {
        Reply::Refused(XaError::Rmfail(BranchState::NonExisting)) => true,
        _ => false,
    }
}

/// Whether the session is known to own no branch.
#[tactic(auto, using(crate::proofs::NearStates::free_told))]
fn is_free(server: &Server, session: SessionNo) -> Result<bool, NoMemory>
    ensures { IfOk result (λ free. free ≡ true → association_of server.now session ≡ Association.Free) }
{
    // XA END is refused as `tells_free` says exactly if the session owns no branch. So any identifier does, also an
    // empty one.
    let xid = Xid {
        format_id: 0,
        gtrid: Bytes::new(),
        bqual: Bytes::new(),
    };
    let statement = Statement::End(xid);
    let (reply, _enters) = server.reply(session, &statement)?;
    let free = tells_free(&reply);
    Ok(free)
}

/// Whether a session's write of the row with this key is apart: the key is none of `keys`, and the session is known
/// to own no branch.
fn is_apart(
    server: &Server,
    keys: &BTreeSet<Key>,
    session: SessionNo,
    key: &Key,
) -> Result<bool, NoMemory>
    ensures free { IfOk result (λ apart. apart ≡ true → association_of server.now session ≡ Association.Free) }
    ensures other { IfOk result (λ apart. apart ≡ true → named_in keys.now key.now ≡ false) }
{
    if keys.contains(key) {
        return Ok(false);
    }
    is_free(server, session)
}

/// Whether the session's statement is a `PUT` or `DEL` of a row whose key isn't in `keys`, and is known to be outside
/// a branch on `server`, the full one. Then a server near the full one is still near it after the full one alone has
/// carried the statement out.
fn is_left_out(
    server: &Server,
    keys: &BTreeSet<Key>,
    session: SessionNo,
    statement: &Statement,
) -> Result<bool, NoMemory>
    ensures { IfOk result (λ out. out ≡ true → (near : State) → AreNear (named_in keys.now) server.now near
        → AreNear (named_in keys.now) (after server.now session statement.now) near) }
{
    match statement {
        Statement::Put(key, _) => {
            let out = is_apart(server, keys, session, key)?;
            Ok(out)
        }
        Statement::Del(key) => {
            let out = is_apart(server, keys, session, key)?;
            Ok(out)
        }
        // Others may change branches, so the near server carries them out. It does no harm if they change nothing.
        _ => Ok(false),
    }
}

/// Has the near server carry out the session's statement, or leaves it out if `is_left_out` allows that. `full` isn't
/// changed.
#[tactic(auto, using(crate::proofs::NearStates::near_after))]
fn carry_out_near(
    full: &Server,
    near: &mut Server,
    keys: &BTreeSet<Key>,
    session: SessionNo,
    statement: &Statement,
) -> Result<(), NoMemory>
    ensures { OnOk result (AreNear (named_in keys.now) full.now near.old
        → AreNear (named_in keys.now) (after full.now session statement.now) near.new) }
{
    if is_left_out(full, keys, session, statement)? {
        return Ok(());
    }
    // Only the state is wanted: the answer is the full server's.
    let _reply = near.apply(session, statement)?;
    Ok(())
}

/// Has the near server carry out the session's request, or leaves it out as `carry_out_near` does. A text that isn't
/// a statement does nothing.
fn follow(
    full: &Server,
    near: &mut Server,
    keys: &BTreeSet<Key>,
    session: SessionNo,
    request: &Request,
) -> Result<(), NoMemory>
    ensures { OnOk result (AreNear (named_in keys.now) full.now near.old
        → AreNear (named_in keys.now) (next_state full.now session request.now) near.new) }
{
    match request {
        Request::Statement(statement) => carry_out_near(full, near, keys, session, statement),
        Request::Unread => Ok(()),
    }
}

/// Has the full server carry out the call, and the near server too, unless it can be left out there. Returns whether
/// what the call's client saw shows the full server's answer.
fn shows_alone(
    full: &mut Server,
    near: &mut Server,
    keys: &BTreeSet<Key>,
    call: &AloneCall,
) -> Result<bool, NoMemory>
    ensures session { IsSession call.now.session }
    ensures shows { IfOk result (λ shows. shows ≡ shows_answer call.now.seen.now
        (answer_to full.old call.now.session call.now.request.now)) }
    ensures state { OnOk result (full.new ≡ next_state full.old call.now.session call.now.request.now) }
    ensures near { OnOk result (AreNear (named_in keys.now) full.old near.old
        → AreNear (named_in keys.now) full.new near.new) }
{
    // Only the contract needs it: the number of a session is from 1 to 16.
    let _number = call.session.get();
    // The near server goes first: what can be left out is told by the full server before the call.
    follow(full, near, keys, call.session, call.request)?;
    let answer = call.request.carry_out(full, call.session)?;
    Ok(call.seen.shows(&answer))
}

/// Carries the first events out on two copies of the base. The second leaves out what `is_left_out` allows: writes,
/// outside a branch, of rows with other keys. Returns the second; None if an event isn't one of a call and its return
/// directly after it, or if what a client saw doesn't show the first copy's answer.
fn loaded(base: &Server, first: &[Event], keys: &BTreeSet<Key>) -> Result<Option<Server>, NoMemory>
    ensures { IfOk result (λ found. IfSome found
        (λ near. (full : State) × IsLoadedTo base.now first.now full × AreNear (named_in keys.now) full near)) }
{
    let mut full = base.copy()?;
    let mut near = base.copy()?;
    let mut rest = first;
    while !rest.is_empty() {
        let Some(call) = alone(rest) else {
            return Ok(None);
        };
        let shows = shows_alone(&mut full, &mut near, keys, &call)?;
        if !shows {
            return Ok(None);
        }
        rest = call.later;
    }
    Ok(Some(near))
}

/// The verdict LEGAL with the moves for the `first` events, in which calls don't overlap, and behind them `later`, the
/// moves for the events that follow; None if these moves don't lead through all `events` from `base`.
fn legal_behind(
    alloc: Global,
    base: &Server,
    events: &[Event],
    first: &[Event],
    later: &[Move],
    limit: usize,
) -> Result<Option<Verdict>, NoMemory>
    ensures verdict { IfOk result (λ found. IfSome found (IsVerdict base.now events.now limit)) }
    ensures whole { IfOk result (λ found. IfSome found (λ verdict. seen_for events.now verdict ≡ length events.now)) }
{
    // Only the contract names the limit: LEGAL doesn't depend on it.
    let _limit = limit;
    let mut moves = moves_alone(alloc, first)?;
    moves.extend_from_slice(later)?;
    let leads = follows(alloc, base, events, moves.as_slice())?;
    if leads {
        Ok(Some(Verdict::Legal(moves)))
    } else {
        Ok(None)
    }
}

/// The verdict on all `events` by `found`, which is the verdict on the `later` ones, begun on `near`, a server near
/// the one to which the `first` events lead. None if `found` is UNDECIDED, or if its moves don't lead on from those
/// for the first events.
fn verdict_behind(
    alloc: Global,
    base: &Server,
    events: &[Event],
    first: &[Event],
    near: &Server,
    later: &[Event],
    limit: usize,
    found: Verdict,
) -> Result<Option<Verdict>, NoMemory>
    requires parts { events.now ≡ first.now ++ later.now }
    requires within { length first.now + length later.now < 2 ^ 63 }
    requires near { IsNearLater base.now first.now near.now later.now }
    requires found { (bound : ℕ) × IsVerdict near.now later.now bound found }
    ensures verdict { IfOk result (λ whole. IfSome whole (IsVerdict base.now events.now limit)) }
    ensures seen { IfOk result (λ whole. IfSome whole
        (λ verdict. seen_for events.now verdict ≡ length first.now + seen_for later.now found)) }
{
    // Only the contract names them.
    let (_near, _later) = (near, later);
    match found {
        Verdict::Legal(moves) => {
            let whole = legal_behind(alloc, base, events, first, moves.as_slice(), limit)?;
            Ok(whole)
        }
        // In `found`, the place is counted from the first of the later events.
        Verdict::Illegal(place, answers) => {
            Ok(Some(Verdict::Illegal(first.len() + place, answers)))
        }
        // A limit that isn't enough for the later events says nothing of the whole record.
        Verdict::Undecided(_) => Ok(None),
    }
}

/// The verdict on all events, by judging those in `later` on the server `near` with at most `width` configurations,
/// and at most `limit`. None if these aren't enough, or if the moves found don't lead on from those for the `first`
/// events.
fn judge_later_kept<P: Progress>(
    alloc: Global,
    base: &Server,
    events: &[Event],
    first: &[Event],
    near: &Server,
    later: &[Event],
    limit: usize,
    width: usize,
    progress: &mut P,
) -> Result<Option<Verdict>, NoMemory>
    requires parts { events.now ≡ first.now ++ later.now }
    requires within { length first.now + length later.now < 2 ^ 63 }
    requires near { IsNearLater base.now first.now near.now later.now }
    ensures verdict { IfOk result (λ found. IfSome found (IsVerdict base.now events.now limit)) }
    ensures told { IfOk result (λ found. IsToldOf P.judged_gives events.now found progress.old progress.new) }
{
    let found = judge_in_breadth(alloc, near, first.len(), later, width.min(limit), progress)?;
    let whole = verdict_behind(alloc, base, events, first, near, later, limit, found)?;
    Ok(whole)
}

/// The verdict on all events, by judging those in `later` on the server `near` with the configurations that the returns
/// of open calls allow (`judge_ahead`), at most `limit`; None if that gives no verdict on them, or if its moves don't
/// lead on from those for the `first` events.
fn judge_later_ahead(
    alloc: Global,
    base: &Server,
    events: &[Event],
    first: &[Event],
    near: &Server,
    later: &[Event],
    limit: usize,
) -> Result<Option<Verdict>, NoMemory>
    requires parts { events.now ≡ first.now ++ later.now }
    requires within { length first.now + length later.now < 2 ^ 63 }
    requires near { IsNearLater base.now first.now near.now later.now }
    ensures verdict { IfOk result (λ found. IfSome found (IsVerdict base.now events.now limit)) }
{
    match judge_ahead(alloc, near, later, limit)? {
        None => Ok(None),
        Some(found) => verdict_behind(alloc, base, events, first, near, later, limit, found),
    }
}

/// The verdict on all events, by judging those in `later` on `near`, a server near the one to which the `first` ones
/// lead: with the configurations that the returns of open calls allow (`judge_ahead`), at most `limit`; or else with
/// all configurations, at most `width` and at most `limit`. None if neither gives one.
fn judge_later<P: Progress>(
    alloc: Global,
    base: &Server,
    events: &[Event],
    first: &[Event],
    near: &Server,
    later: &[Event],
    limit: usize,
    width: usize,
    progress: &mut P,
) -> Result<Option<Verdict>, NoMemory>
    requires parts { events.now ≡ first.now ++ later.now }
    requires within { length first.now + length later.now < 2 ^ 63 }
    requires near { IsNearLater base.now first.now near.now later.now }
    ensures verdict { IfOk result (λ found. IfSome found (IsVerdict base.now events.now limit)) }
    ensures told { IfOk result (λ found. IsToldOf P.judged_gives events.now found progress.old progress.new) }
{
    let ahead = judge_later_ahead(alloc, base, events, first, near, later, limit)?;
    // That doesn't tell how far it is, so `progress` is told now, if there is a verdict. `judge_later_kept` tells it
    // itself.
    match tell_verdict(base, events, ahead, limit, progress) {
        Some(verdict) => Ok(Some(verdict)),
        None => judge_later_kept(
            alloc, base, events, first, near, later, limit, width, progress,
        ),
    }
}

/// Returns the verdict on the record, by judging only the events after the calls at its beginning that don't overlap.
/// The server for these events lacks what the first calls write, outside branches, to rows that the later events don't
/// name. None if that gives no verdict, neither with the configurations that the returns of open calls allow, at most
/// `limit`, nor with all configurations, at most `width` and at most `limit`. None also if one of the first calls
/// returned something else than the server answers.
///
/// May return `NoMemory`.
pub fn judge_behind<P: Progress>(
    alloc: Global,
    base: &Server,
    events: &[Event],
    limit: usize,
    width: usize,
    progress: &mut P,
) -> Result<Option<Verdict>, NoMemory>
    // Proved (records, named-rows-only): A verdict that is found after calls that don't overlap, on a server
    //   without the rows that no later call names, is right for the whole record.
    ensures verdict { IfOk result (λ found. IfSome found (IsVerdict base.now events.now limit)) }
    ensures told { IfOk result (λ found. IsToldOf P.judged_gives events.now found progress.old progress.new) }
{
    // `count_alone` is never more than `events.len()`, but promises nothing, and `split_at` requires it.
    let (first, later) = events.split_at(count_alone(events).min(events.len()));
    let keys = keys_called(alloc, later)?;
    // All are, since `keys` has every row that a later call names. The proof rests on looking at each.
    if !all_named(&keys, later) {
        return Ok(None);
    }
    let found = loaded(base, first, &keys)?;
    match found {
        None => Ok(None),
        Some(near) => judge_later(
            alloc, base, events, first, &near, later, limit, width, progress,
        ),
    }
}
