//! How much a search for one order may try.

/// How much a search for one order may try.
#[derive(Clone, Copy, Debug)]
pub enum SearchSize {
    /// So little that it takes less time than what comes after it.
    Short,
    /// As much as any search may: beyond that, keeping all configurations decides sooner than going on searching.
    Whole,
}

impl SearchSize {
    /// Returns how many effects such a search may try through so many events: some for any record, and more for a
    /// longer one.
    pub fn effects(self, events: usize) -> u64 {
        // The first number is for any record, the second for each event. They are chosen, and no clause names them:
        // `Short` is to stay quick, and `Whole` to end where keeping all configurations decides sooner.
        let (any, each) = match self {
            SearchSize::Short => (30_000, 8),
            SearchSize::Whole => (500_000, 64),
        };
        (events as u64).saturating_mul(each).saturating_add(any)
    }
}
