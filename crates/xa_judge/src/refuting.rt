//! Refutes a return: none of the answers that its call can have is shown there.
ghost use Rattle.std.specs.Prelude.{◌≡◌, ◌<◌, true, false, Some, slice_get, length, take, IfOk, IfSome};
ghost use Rattle.std.specs.List.{All, Contains};
ghost use Rattle.xa_judge.specs.{declared.answer.Answer.Answer as AnswerSeen, Verdicts.{IsAnswerAfter, IsVerdict}};
ghost use Rattle.xa_judge.specs.{declared.client_state.ClientState.TheVariants.Answered, Explained.shows_answer};

use crate::answer::Answer;
use crate::client_state::ClientState;
use crate::configuration::Configuration;
use crate::event::{Event, Seen};
use crate::following::followed;
use crate::frontier::Frontier;
use crate::moves::Move;
use crate::shared_answer::SharedAnswer;
use crate::verdict::Verdict;
use std::alloc::Global;
use xa_server::{Reply, Server};
use xa_xid::{NoMemory, SessionNo};

/// Whether in the configuration `one` the session is known to have this answer, which hasn't returned yet.
fn has_answer(one: &Configuration, session: SessionNo, answer: &SharedAnswer) -> bool
    ensures { result ≡ true → slice_get one.now.clients.items session ≡ Some (Answered answer.now) }
{
    match one.client(session) {
        None => false,
        Some(ClientState::Idle) => false,
        Some(ClientState::Called(_)) => false,
        Some(ClientState::Answered(other)) => other.is_same(answer),
        Some(ClientState::Gone(_)) => false,
        Some(ClientState::Left) => false,
    }
}

/// The moves to the first of the kept configurations in which the session is known to have this answer; None if there
/// is none.
fn kept_way(
    front: &Frontier,
    session: SessionNo,
    answer: &SharedAnswer,
) -> Result<Option<Vec<Move>>, NoMemory> {
    for one in front.known.iter() {
        if has_answer(one, session, answer) {
            let mut moves = front.trunk.clone()?;
            one.path.add_to(&mut moves)?;
            return Ok(Some(moves));
        }
    }
    Ok(None)
}

/// Whether there is a kept configuration in which the session has this answer, and the moves to the first such one,
/// carried out once more from `base`, lead through the events and give that answer.
fn is_given(
    alloc: Global,
    base: &Server,
    events: &[Event],
    session: SessionNo,
    answer: &SharedAnswer,
    front: &Frontier,
) -> Result<bool, NoMemory>
    ensures { IfOk result (λ given. given ≡ true → IsAnswerAfter base.now events.now session answer.now) }
{
    match kept_way(front, session, answer)? {
        None => Ok(false),
        Some(moves) => match followed(alloc, base, events, moves.as_slice())? {
            None => Ok(false),
            Some(one) => Ok(has_answer(&one, session, answer)),
        },
    }
}

/// Whether kept moves give the session each of the answers (`is_given`).
fn are_given(
    alloc: Global,
    base: &Server,
    events: &[Event],
    session: SessionNo,
    answers: &[SharedAnswer],
    front: &Frontier,
) -> Result<bool, NoMemory>
    ensures { IfOk result (λ given. given ≡ true → All (IsAnswerAfter base.now events.now session) answers.now) }
{
    for answer in answers {
        if !is_given(alloc, base, events, session, answer, front)? {
            return Ok(false);
        }
    }
    Ok(true)
}

/// Whether the return shows none of the answers.
fn shows_none(seen: &Seen, answers: &[SharedAnswer]) -> bool
    ensures { result ≡ true → All (λ answer. shows_answer seen.now answer ≡ false) answers.now }
{
    for answer in answers {
        if seen.shows_kept(answer.kept()) {
            return false;
        }
    }
    true
}

/// Returns the verdict ILLEGAL at the return at this place, which shows `seen` to the session. None if `seen` shows one
/// of the `answers`, if there are none, or if for one of them no order of the `first` events, those before the place,
/// is found that gives it. Only orders are tried that led to a configuration kept in `front`. `answers` has all that
/// can be given.
///
/// May return `NoMemory`.
pub fn refuted(
    alloc: Global,
    base: &Server,
    events: &[Event],
    place: usize,
    first: &[Event],
    session: SessionNo,
    seen: &Seen,
    answers: Vec<SharedAnswer>,
    front: &Frontier,
    limit: usize,
) -> Result<Option<Verdict>, NoMemory>
    requires within { place < length events.now }
    requires first { first.now ≡ take place events.now }
    requires returns { slice_get events.now place ≡ Some (Event.Return session seen.now) }
    requires all { (answer : AnswerSeen) → IsAnswerAfter base.now first.now session answer
        → Contains answers.items answer }
    ensures { IfOk result (λ found. IfSome found (IsVerdict base.now events.now limit)) }
{
    // Only the contract names them.
    let (_events, _limit) = (events, limit);
    // ILLEGAL says also that an order explains the events before the place. Moves that give an answer show that, so
    // there must be an answer.
    if answers.is_empty() || !shows_none(seen, answers.as_slice()) {
        return Ok(None);
    }
    let given = are_given(alloc, base, first, session, answers.as_slice(), front)?;
    if given {
        Ok(Some(Verdict::Illegal(place, answers)))
    } else {
        Ok(None)
    }
}
