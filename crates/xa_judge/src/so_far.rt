//! How far judging is.
ghost use Rattle.std.specs.Prelude.{◌≡◌, ◌<◌};

/// How far judging is, before one of the events is judged. Only the judge makes one.
#[derive(Clone, Copy, Debug, Drop)]
pub struct SoFar {
    /// How many events are judged.
    done: u64,
    /// How many there are in all.
    all: u64,
    /// How many configurations are kept.
    configurations: u64,
    pub ghost below: { done < all },
    pub ghost some: { 0 < configurations },
}

impl SoFar {
    /// Returns a report that `done` events of `all` are judged, and that so many configurations are kept.
    pub(crate) fn of(done: u64, all: u64, configurations: u64) -> SoFar
        requires below { done < all }
        requires some { 0 < configurations }
        ensures done { result.done ≡ done }
        ensures all { result.all ≡ all }
        ensures configurations { result.configurations ≡ configurations }
    {
        SoFar {
            done,
            all,
            configurations,
        }
    }

    /// Returns how many events are judged, which is the place of the next one. It is less than `all`.
    pub fn done(&self) -> u64
        ensures { result ≡ self.now.done }
    {
        self.done
    }

    /// Returns how many events there are.
    pub fn all(&self) -> u64
        ensures { result ≡ self.now.all }
    {
        self.all
    }

    /// Returns how many configurations are kept, of which there is at least one.
    pub fn configurations(&self) -> u64
        ensures { result ≡ self.now.configurations }
    {
        self.configurations
    }
}
