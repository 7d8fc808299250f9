//! What a recovery found and did.
ghost use Rattle.std.specs.Prelude.{◌≡◌, ◌<◌, ◌+◌, ◌^◌, ◌++◌, ◌∷◌, [], vec_len, vec_capacity};

/// What a recovery found and did, in all stores.
#[derive(Debug, Drop)]
pub struct Report {
    /// For each store, the place of its last `XA RECOVER`: how many entries its session had seen. At that place
    /// no branch of this coordinator's naming was prepared there.
    pub fronts: Vec<u64>,
    /// How many branches were committed.
    pub committed: u128,
    /// How many were rolled back.
    pub rolled_back: u128,
    /// How many were answered XAER_NOTA, since somebody else had finished them.
    pub missing: u128,
}

impl Report {
    /// Adds what a recovery did in one more store, and `front`, the place at which no branch of this coordinator was
    /// prepared there. There is room for the place.
    pub(crate) fn add(&mut self, tally: Tally, front: u64)
        requires room { vec_len self.old.fronts < vec_capacity self.old.fronts }
        requires committed_fits { self.old.committed + tally.committed < 2 ^ 128 }
        requires rolled_back_fits { self.old.rolled_back + tally.rolled_back < 2 ^ 128 }
        requires missing_fits { self.old.missing + tally.missing < 2 ^ 128 }
        ensures fronts { self.new.fronts.items ≡ self.old.fronts.items ++ front ∷ [] }
        ensures capacity { vec_capacity self.new.fronts ≡ vec_capacity self.old.fronts }
        ensures length { vec_len self.new.fronts ≡ vec_len self.old.fronts + 1 }
        ensures committed { self.new.committed ≡ self.old.committed + tally.committed }
        ensures rolled_back { self.new.rolled_back ≡ self.old.rolled_back + tally.rolled_back }
        ensures missing { self.new.missing ≡ self.old.missing + tally.missing }
        ensures committed_within { self.new.committed < self.old.committed + 2 ^ 64 }
        ensures rolled_back_within { self.new.rolled_back < self.old.rolled_back + 2 ^ 64 }
        ensures missing_within { self.new.missing < self.old.missing + 2 ^ 64 }
    {
        // Fewer than 2^64 branches of each store are counted, but those of all stores together may be more: so the sums
        // have 128 bits.
        self.fronts.push_reserved(front);
        self.committed += u128::from(tally.committed);
        self.rolled_back += u128::from(tally.rolled_back);
        self.missing += u128::from(tally.missing);
    }
}

/// What a recovery did with the branches of one store.
#[derive(Clone, Copy, Debug, PartialEq, Eq)]
pub struct Tally {
    /// How many were committed.
    pub committed: u64,
    /// How many were rolled back.
    pub rolled_back: u64,
    /// How many were answered XAER_NOTA.
    pub missing: u64,
}
