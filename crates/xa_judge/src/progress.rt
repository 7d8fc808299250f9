//! Tells how far judging is.
ghost use Rattle.std.specs.Prelude.{◌+◌, ◌^◌, ◌<◌, ◌≤◌, length};
ghost use Rattle.xa_judge.specs.{declared.so_far.SoFar.SoFar, Told.{IsReport, AreReports, IsSize}};

use crate::configuration::Configuration;
use crate::event::Event;
use crate::so_far::SoFar;

/// Takes note of how far judging is.
pub trait Progress {
    /// How taking note changes a value: from the first one, by what is told, to the last one. If nothing is said
    /// here, it may become anything; whoever has to know that the notes are right says more.
    ghost judged_gives: { Self → SoFar → Self → Type 0 } = { λ _ _ _. Unit {0} };

    /// Takes note of how far judging is.
    ///
    /// It is called before each event that is judged. If some events are judged once more, it is called
    /// before each of them again. It isn't called for events before calls overlap if these are left out, nor
    /// for events along which a found order is checked. While free statements are judged row by row, or
    /// configurations are kept that later returns allow, it isn't called either: once a verdict is found so, it
    /// is called for each event up to what decides, in turn, with one configuration.
    fn judged(&mut self, so_far: SoFar)
        ensures { judged_gives self.old so_far self.new };
}

/// Takes no notice of how far judging is.
#[derive(Clone, Copy, Debug, Drop)]
pub struct Silent;

impl Progress for Silent {
    fn judged(&mut self, _so_far: SoFar) {}
}

/// Tells that the event at this place is judged next, with as many configurations as `known` has. `before` others,
/// which count as judged, come before all of the events.
pub fn tell<P: Progress>(
    progress: &mut P,
    before: usize,
    events: &[Event],
    place: usize,
    known: &[Configuration],
)
    requires within { place < length events.now }
    requires fits { before + length events.now < 2 ^ 64 }
    requires some { 0 < length known.now }
    ensures { IsReport P.judged_gives (before + place) (before + length events.now) (length known.now)
        progress.old progress.new }
{
    let done = before + place;
    let all = before + events.len();
    progress.judged(SoFar::of(done as u64, all as u64, known.len() as u64));
}

/// Tells that `done` events of `all` are judged, and so many configurations are kept.
fn tell_numbers<P: Progress>(progress: &mut P, done: usize, all: usize, configurations: usize)
    requires below { done < all }
    requires some { 0 < configurations }
    ensures { IsReport P.judged_gives done all configurations progress.old progress.new }
{
    progress.judged(SoFar::of(done as u64, all as u64, configurations as u64));
}

/// Tells of the first `count` events, one after another, with one configuration before each. That is for a verdict
/// that was found without telling how far judging was.
pub fn tell_first<P: Progress>(progress: &mut P, events: &[Event], count: usize)
    requires within { count ≤ length events.now }
    ensures { AreReports P.judged_gives IsSize 0 (length events.now) progress.old count progress.new }
{
    for place in 0..count {
        tell_numbers(progress, place, events.len(), 1);
    }
}
