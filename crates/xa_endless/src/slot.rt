//! A place for one value that threads take out and put back.
ghost use Rattle.std.specs.Prelude.{◌≡◌, IfSome, IfErr};

use counted_slot::{Counted, FREE, Fits, PRESENT, TAKEN};

/// The value is in its place. A `Counted` begins with this state.
const FULL: u64 = FREE;

/// The value was taken out. Nobody reads a value in its place, so this state is free to say so.
const EMPTY: u64 = PRESENT;

/// A place for one value. Whoever takes the value out has it alone, until it is put back.
///
/// Nobody waits: a call that finds another thread at the place gives up.
#[derive(Drop)]
pub(crate) struct Slot<X: Fits> {
    /// The value, or none, with a word that says which.
    value: Counted<Option<X>>,
}

impl<X: Fits + Drop> Slot<X> {
    /// A place that has its value.
    pub(crate) fn new(value: X, tag: &X::Tag) -> Slot<X>
        requires { X.fits tag.now value }
        ensures { result.value ≡ tag.now }
    {
        Slot {
            value: Counted::new(Some(value), tag),
        }
    }

    /// Takes the value out, if it is in its place. None if it is out, or if another thread is at the place.
    pub(crate) fn take(&self) -> Option<X>
        ensures { IfSome result (X.fits self.now.value) }
    {
        let (found, claim) = self.value.turn(FULL, TAKEN);
        // The value is out, or another thread is at the place.
        if found != FULL {
            claim.done();
            return None;
        }
        // Puts nothing there, and returns the value that was there.
        claim.put(None, EMPTY)
    }

    /// Puts a value into its place, if that is empty. Gives it back if not, or if another thread is at the place.
    pub(crate) fn put(&self, value: X) -> Result<(), X>
        requires { X.fits self.now.value value }
        ensures { IfErr result (λ back. back ≡ value) }
    {
        let (found, claim) = self.value.turn(EMPTY, TAKEN);
        // A value is there, or another thread is at the place.
        if found != EMPTY {
            claim.done();
            return Err(value);
        }
        // The place is empty, so there is nothing to be given back.
        let _nothing = claim.put(Some(value), FULL);
        Ok(())
    }
}
