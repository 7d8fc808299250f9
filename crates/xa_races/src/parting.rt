//! What the threads of a race over a store without an end returned, as lists.
ghost use Rattle.std.specs.{Prelude.{◌≡◌, Some, None, map, slice_get, IfOk, IfSome}, List.All};
ghost use Rattle.xa_races.specs.declared.racer.Raced.{Raced as RacedValue};

use crate::added::Added;
use crate::racer::Raced;
use crate::said::Said;
use std::alloc::Global;
use xa_endless::EndlessSession;
use xa_session::Answer;
use xa_store::RaceFault;
use xa_xid::NoMemory;

/// The sessions, and for each its answers and what it added.
#[derive(Drop)]
pub(crate) struct Parts {
    /// The sessions, in order.
    pub(crate) sessions: Vec<EndlessSession>,
    /// What each session was answered.
    pub(crate) answers: Vec<Vec<Answer>>,
    /// What each session added.
    pub(crate) added: Vec<Vec<Added>>,
}

/// Splits what the threads returned into three lists in the same order. Faults are left out: `race_on` has seen by
/// `first_fault` that there are none.
pub(crate) fn part(alloc: Global, raced: Vec<Raced>) -> Result<Parts, NoMemory>
    ensures sessions { IfOk result (λ parts. parts.sessions.items ≡ map (λ one. one.session) raced.items) }
    ensures answers { IfOk result (λ parts. parts.answers.items ≡ map (λ one. one.said.answers) raced.items) }
    ensures added { IfOk result (λ parts. parts.added.items ≡ map (λ one. one.said.added) raced.items) }
{
    let mut sessions = Vec::with_capacity(alloc, raced.len())?;
    let mut answers = Vec::with_capacity(alloc, raced.len())?;
    let mut added = Vec::with_capacity(alloc, raced.len())?;
    for one in raced {
        let Raced {
            session,
            said,
            fault: _,
        } = one;
        let Said {
            answers: own,
            added: entries,
        } = said;
        sessions.push_reserved(session);
        answers.push_reserved(own);
        added.push_reserved(entries);
    }
    Ok(Parts {
        sessions,
        answers,
        added,
    })
}

/// The fault of the first in the list that has one. None if none has.
pub(crate) fn first_fault(raced: &[Raced]) -> Option<RaceFault>
    ensures none { result ≡ None → All (λ one. one.fault ≡ None) raced.now }
    ensures some { IfSome result (λ fault. (one : RacedValue) × (place : _) × (slice_get raced.now place ≡ Some one)
        × (one.fault ≡ Some fault)) }
{
    for one in raced {
        if let Some(fault) = one.fault {
            return Some(fault);
        }
    }
    None
}
