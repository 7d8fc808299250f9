//! The numbers of a refusal that was seen.
ghost use Rattle.std.specs.Prelude.{◌≡◌, []};
ghost use Rattle.xa_judge.specs.Explained.{stands_for};

use std::alloc::Global;

/// The numbers of a refusal that was seen.
#[derive(Debug, Drop)]
pub struct ErrorNumbers {
    /// The number that was seen.
    pub seen: u16,
    /// The other numbers for which it is allowed to stand.
    pub others: Vec<u16>,
}

impl ErrorNumbers {
    /// Returns a refusal that stands for no other number than `seen`, in `[0, 65535]`.
    ///
    /// Takes no memory. Doesn't wait.
    pub fn of(alloc: Global, seen: u16) -> ErrorNumbers
        ensures seen { result.seen ≡ seen }
        ensures others { result.others.items ≡ [] }
    {
        ErrorNumbers {
            seen,
            others: Vec::new(alloc),
        }
    }

    /// Tells whether it stands for a refusal of this number.
    pub(crate) fn stand_for(&self, number: u16) -> bool
        ensures { result ≡ stands_for self.now number }
    {
        self.seen == number || self.others.contains(&number)
    }
}
