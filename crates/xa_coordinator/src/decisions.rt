//! The decisions of a coordinator: the state of each transaction's number.
ghost use Rattle.std.specs.Prelude.{ℕ, ◌≡◌, ◌≤◌, ◌<◌, ◌+◌, [], ◌∷◌, ◌++◌, true, false, length, map, OnOk, OnErr, IfOk};
ghost use Rattle.std.specs.Prelude.{IfErr, IfSome, IfNone};
ghost use Rattle.xa_coordinator.specs.declared.decisions.Decision.TheVariants.{Undecided as StandsUndecided};
ghost use Rattle.xa_coordinator.specs.{Limits.most_numbers, Decisions.{decision_of, is_decided as is_decided_by}};
ghost use Rattle.xa_coordinator.specs.Decisions.{may_be_decided, with_decided, closed_of, CanStand, IsNoList};
ghost use Rattle.xa_coordinator.specs.Decisions.{IsOvertaken};

use crate::fault::{BeginFault, DecisionsFault};
use crate::transaction::{Prepared, VoteKind};
use std::alloc::Global;
use std::marker::Model;
use thiserror::Error;

/// The error of `decide`: the number is closed, or was never given.
#[derive(Clone, Copy, Debug, Drop, PartialEq, Eq, Error)]
#[error("the transaction's number is closed, or was never given")]
pub struct Closed;

/// The decisions of one coordinator: of each number that was given, whether it is undecided, decided or
/// closed.
///
/// You keep them; they outlive the coordinator. A contract sees them as the list of the states of the numbers
/// 1, 2, ..
#[derive(Drop)]
pub struct Decisions {
    /// The states of the numbers 1, 2, .. that were given, from place 0 on.
    by_number: Vec<Decision>,
}

impl Model for Decisions {
    ghost use Rattle.std.specs.Prelude.{List, length, ◌≤◌};
    ghost use Rattle.xa_coordinator.specs.{Limits.most_numbers, declared.decisions.Decision.Decision};

    ghost Value = { List Decision };

    ghost view = { λ decisions. decisions.by_number.items };

    ghost invariant = { λ decisions. length decisions.by_number.items ≤ most_numbers };
}

/// Closes each number that is undecided.
fn close_each(by_number: &mut [Decision])
    ensures { by_number.new ≡ map closed_of by_number.old }
{
    for decision in by_number.iter_mut() {
        *decision = decision.closed();
    }
}

/// The first number that is undecided, if a later one is closed. None if no closed number follows an undecided one.
fn overtaken(list: &[Decision]) -> Option<u64>
    ensures some { IfSome result (IsOvertaken list.now) }
    ensures first { IfSome result (λ number. (other : ℕ) → IsOvertaken list.now other → number ≤ other) }
    ensures none { IfNone result ((number : ℕ) → IsOvertaken list.now number → ⊥) }
{
    // The first undecided number so far. A later one needn't be kept: a closed number after it is after the first, too.
    // The number at place 0 is 1.
    let mut undecided = None;
    for (place, decision) in list.iter().enumerate() {
        match (decision, undecided) {
            (Decision::Closed, Some(first)) => return Some(first),
            (Decision::Closed, None) => {}
            (Decision::Undecided, Some(_)) => {}
            (Decision::Undecided, None) => undecided = Some(place as u64 + 1),
            (Decision::Decided, _) => {}
        }
    }
    None
}

impl Decisions {
    /// How many numbers can be given. Own rule: docs/COORDINATOR.md#decisions.
    pub const MOST: usize = 1_000_000;

    /// Makes decisions that have given no number.
    ///
    /// Takes no memory. Doesn't wait.
    pub fn new(alloc: Global) -> Decisions
        ensures { result ≡ [] }
    {
        Decisions {
            by_number: Vec::new(alloc),
        }
    }

    /// Takes back decisions that were kept elsewhere, as `as_slice` returned them.
    ///
    /// `list`: the states of the numbers 1, 2, .., all of which are given. Errors, in the order of test:
    /// `TooMany` if there are more than 1,000,000; `Overtaken` if a number is undecided and a later one
    /// closed, which no call of a coordinator leads to, with the first such number; `NoMemory` if an
    /// allocation fails.
    /// May return `NoMemory`. Doesn't wait.
    /// Own rule: docs/COORDINATOR.md#decisions.
    pub fn of(alloc: Global, list: &[Decision]) -> Result<Decisions, DecisionsFault>
        // Proved (coordinator, decisions-of): Decisions are made only of lists of at most 1,000,000 numbers
        //   in which no undecided number comes before a closed one. Each number then has the state that the
        //   list has.
        ensures ok { IfOk result (λ decisions. decisions ≡ list.now) }
        // Proved (coordinator, decisions-of)
        ensures stands { OnOk result (CanStand list.now) }
        // Proved (coordinator, decisions-refused): A list is refused as decisions only for the cause that the fault
        //   names. The length is tested first: `Overtaken` is returned only of a list that isn't too long, and names
        //   the first number that is overtaken. Of `NoMemory` only that is known that the list can be decisions.
        ensures fault { IfErr result (IsNoList list.now) }
    {
        if Self::MOST < list.len() {
            return Err(DecisionsFault::TooMany);
        }
        if let Some(number) = overtaken(list) {
            return Err(DecisionsFault::Overtaken { number });
        }
        Ok(Decisions {
            by_number: list.to_vec(alloc)?,
        })
    }

    /// Returns the states of the numbers 1, 2, .. that were given.
    ///
    /// Takes no memory. Doesn't wait.
    pub fn as_slice(&self) -> &[Decision]
        ensures { result.now ≡ self.now }
    {
        self.by_number.as_slice()
    }

    /// The state of a number. None if it wasn't given.
    #[tactic(auto, unfolding(crate::specs::Decisions::decision_of))]
    fn decision(&self, number: u64) -> Option<Decision>
        ensures { result ≡ decision_of self.now number }
    {
        // Numbers begin at 1.
        if number == 0 {
            return None;
        }
        self.by_number.get((number - 1) as usize).copied()
    }

    /// Whether the transaction of this number is decided, which means that it commits.
    ///
    /// Takes no memory. Doesn't wait.
    /// Own rule: docs/COORDINATOR.md#decisions.
    pub fn is_decided(&self, number: u64) -> bool
        // Proved (coordinator, decide): `decide` decides exactly the given number, if it was given and isn't
        //   closed. What was decided stays so.
        ensures { result ≡ is_decided_by self.now number }
    {
        match self.decision(number) {
            Some(Decision::Decided) => true,
            Some(Decision::Undecided) | Some(Decision::Closed) | None => false,
        }
    }

    /// Whether the number was given and isn't closed. A decided one may be decided again: that changes nothing.
    fn may_be_decided(&self, number: u64) -> bool
        ensures { result ≡ may_be_decided self.now number }
    {
        match self.decision(number) {
            Some(Decision::Undecided) => true,
            Some(Decision::Decided) => true,
            Some(Decision::Closed) => false,
            None => false,
        }
    }

    /// The place in the list of a number that was given and isn't closed. None for any other number.
    #[tactic(auto, using(crate::proofs::DecisionsOf::given))]
    fn place_to_decide(&self, number: u64) -> Option<usize>
        ensures some { IfSome result (λ place. (place + 1 ≡ number) × (place < length self.now)
            × (may_be_decided self.now number ≡ true)) }
        ensures none { IfNone result (may_be_decided self.now number ≡ false) }
    {
        // A number that may be decided was given, so it is at least 1.
        if !self.may_be_decided(number) {
            return None;
        }
        Some((number - 1) as usize)
    }

    /// Gives the next number, undecided, and returns it. Errors: `NumbersSpent` if all 1,000,000 were given, and
    /// `NoMemory`. After an error the decisions are as before.
    pub(crate) fn give(&mut self) -> Result<u64, BeginFault>
        ensures number { IfOk result (λ number. number ≡ length self.old + 1) }
        ensures ok { OnOk result (self.new ≡ self.old ++ StandsUndecided ∷ []) }
        ensures room { OnOk result (length self.old < most_numbers) }
        ensures err { OnErr result (self.new ≡ self.old) }
        ensures spent { result ≡ Err BeginFault.NumbersSpent → length self.old ≡ most_numbers }
        ensures full { length self.old ≡ most_numbers → result ≡ Err BeginFault.NumbersSpent }
    {
        if self.by_number.len() >= Self::MOST {
            return Err(BeginFault::NumbersSpent);
        }
        self.by_number.push(Decision::Undecided)?;
        Ok(self.by_number.len() as u64)
    }

    /// Closes every undecided number.
    pub(crate) fn close_all(&mut self)
        ensures { self.new ≡ map closed_of self.old }
    {
        close_each(self.by_number.as_mut_slice());
    }

    /// Records that the transaction of a vote of Ready commits. Call it before any of its branches commits.
    ///
    /// Errors: `Closed` if a recovery has closed the number, or if these decisions never gave it.
    /// After an error nothing is recorded. A second call for the same number returns Ok again.
    /// Takes no memory. Doesn't wait.
    /// Own rule: docs/COORDINATOR.md#decisions.
    pub fn decide(&mut self, prepared: &Prepared) -> Result<(), Closed>
        requires { prepared.now.vote_kind ≡ VoteKind.Ready }
        // Proved (coordinator, decide)
        ensures given { OnOk result (may_be_decided self.old prepared.now.transaction.number ≡ true) }
        // Proved (coordinator, decide)
        ensures ok { OnOk result (self.new ≡ with_decided self.old prepared.now.transaction.number) }
        // Proved (coordinator, decide)
        ensures decided { OnOk result (is_decided_by self.new prepared.now.transaction.number ≡ true) }
        // Proved (coordinator, decide)
        ensures kept { OnOk result ((other : ℕ) → is_decided_by self.old other ≡ true
            → is_decided_by self.new other ≡ true) }
        // Proved (coordinator, decide-fails): If `decide` returns `Closed`, the number is closed or was never
        //   given, and nothing is recorded.
        ensures closed { OnErr result (may_be_decided self.old prepared.now.transaction.number ≡ false) }
        // Proved (coordinator, decide-fails)
        ensures err { OnErr result (self.new ≡ self.old) }
    {
        let Some(place) = self.place_to_decide(prepared.number()) else {
            return Err(Closed);
        };
        self.by_number[place] = Decision::Decided;
        Ok(())
    }
}

/// The state of a number that was given.
#[derive(Clone, Copy, Debug, PartialEq, Eq)]
pub enum Decision {
    /// No decision is recorded yet.
    Undecided,
    /// The transaction's branches commit.
    Decided,
    /// A recovery closed the number before it was decided. It can't be decided any more.
    Closed,
}

impl Decision {
    /// The number's state after a recovery has closed the undecided ones.
    pub(crate) fn closed(self) -> Decision
        ensures { result ≡ closed_of self }
    {
        match self {
            Decision::Decided => Decision::Decided,
            Decision::Undecided => Decision::Closed,
            Decision::Closed => Decision::Closed,
        }
    }
}
