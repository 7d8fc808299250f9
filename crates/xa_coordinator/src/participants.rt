//! Which stores take part in a global transaction.
ghost use Rattle.std.specs.Prelude.{◌≡◌, ◌<◌, ◌≤◌, ◌+◌, ℕ, true, false, IfSome, IfNone, length};

/// How many stores take part, as far as a vote has to know.
#[derive(Clone, Copy, Debug, PartialEq, Eq)]
pub enum Participation {
    /// None.
    Nobody,
    /// Only this one.
    Single(u8),
    /// Two or more.
    Several,
}

/// The stores that take part in a global transaction: a mark for each of 16.
#[derive(Clone, Copy, Debug, PartialEq, Eq)]
pub struct Participants {
    /// Whether each store takes part, by its number.
    pub(crate) members: [bool; 16],
    // One place for each store that a coordinator may have.
    ghost sixteen: { length members ≡ 16 },
}

impl Participants {
    ghost use Rattle.xa_coordinator.specs.{Participants.takes_part, Parts.IsParticipation};

    /// The participants of a transaction without work: no store.
    #[tactic(auto, unfolding(crate::specs::Participants::takes_part))]
    pub(crate) fn none() -> Participants
        ensures { (store : ℕ) → takes_part result store ≡ false }
    {
        Participants {
            members: [false; 16],
        }
    }

    /// Whether the store takes part.
    #[tactic(auto, unfolding(crate::specs::Participants::takes_part))]
    pub(crate) fn contains(&self, store: u8) -> bool
        ensures { result ≡ takes_part self.now store }
    {
        // There are 16 marks. No store of a higher number takes part.
        self.members
            .get(usize::from(store))
            .copied()
            .unwrap_or(false)
    }

    /// Marks a store, below 16, as taking part.
    #[tactic(auto, unfolding(crate::specs::Participants::takes_part))]
    pub(crate) fn insert(&mut self, store: u8)
        requires { store < 16 }
        ensures it { takes_part self.new store ≡ true }
        ensures others { (other : ℕ) → (other ≡ store → ⊥) → takes_part self.new other ≡ takes_part self.old other }
    {
        self.members[usize::from(store)] = true;
    }

    /// The first store that takes part, of the number `from` or a higher one below 16. None if none does.
    fn next_from(&self, from: u8) -> Option<u8>
        ensures some { IfSome result (λ store. (from ≤ store) × (store < 16) × (takes_part self.now store ≡ true)) }
        ensures before { IfSome result (λ store. (other : ℕ) → from ≤ other → other < store
            → takes_part self.now other ≡ false) }
        ensures none { IfNone result ((other : ℕ) → from ≤ other → takes_part self.now other ≡ false) }
    {
        for store in from..16 {
            if self.contains(store) {
                return Some(store);
            }
        }
        None
    }

    /// How many stores take part: none, only one (which is named), or several.
    pub(crate) fn participation(&self) -> Participation
        ensures { IsParticipation self.now result }
    {
        let Some(first) = self.next_from(0) else {
            return Participation::Nobody;
        };
        match self.next_from(first + 1) {
            None => Participation::Single(first),
            Some(_) => Participation::Several,
        }
    }
}
