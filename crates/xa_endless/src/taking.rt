//! Taking a session of a store.
ghost use Rattle.std.specs.Prelude.{◌≡◌, IfOk, IfErr};
ghost use Rattle.chain_log.specs.{RingPass.{identity_of, known_of}, Resting.resting_log_of};
ghost use Rattle.xa_endless.specs.Takes.{IsRefused};

use crate::resting::RestingMember;
use crate::{EndlessSession, EndlessStore};
use std::sync::Arc;
use thiserror::Error;

/// Why a session couldn't be taken.
#[derive(Clone, Copy, Debug, Drop, PartialEq, Eq, Error)]
pub enum TakeFault {
    /// The store has no session of this number.
    #[error("the store has no session of this number")]
    OutOfRange,
    /// The store can't be shared once more.
    #[error("out of memory")]
    NoMemory,
    /// Somebody has the session, or is just giving it back.
    #[error("the session is taken")]
    Taken,
}

impl EndlessStore {
    /// Puts what rests of a session back into the place at `index`, from which it was taken.
    pub(crate) fn put_back(&self, index: usize, resting: RestingMember)
        requires { resting_log_of resting.pass ≡ identity_of self.now.log }
    {
        // Each session of the store has a place. That isn't known here; a session without one would be dropped.
        if index < self.places.len() {
            // Nobody else fills a place whose session this call has, so it is free.
            let _put = self.places[index].put(resting);
        }
    }

    /// Returns how many sessions the store has, in `[1, 16]`.
    ///
    /// Takes no memory. Doesn't wait.
    /// Own rule: docs/RATTLE.md#a-store-without-an-end.
    pub fn sessions(&self) -> u64
        ensures { result ≡ self.now.log.sessions }
    {
        self.log.sessions()
    }

    /// Takes the session of a number, in `[1, sessions]`. Nobody else has it until it leaves.
    ///
    /// Errors, in the order of test: `OutOfRange` if the store has no session of this number, `NoMemory` if the store
    /// can't be shared once more, `Taken` if somebody has the session, or is just giving it back. The store is as
    /// before after an error. Doesn't wait.
    /// Own rule: docs/RATTLE.md#a-store-without-an-end.
    pub fn take(store: &Arc<EndlessStore>, number: u64) -> Result<EndlessSession, TakeFault>
        // Proved (endless, take): A session that is taken is of the store, and has the number that was asked for.
        //   `OutOfRange` is returned only for a number that the store doesn't have, `NoMemory` and `Taken` only for
        //   one that it has.
        ensures store { IfOk result (λ session. session.store.value ≡ store.now.value) }
        // Proved (endless, take)
        ensures number { IfOk result (λ session. (known_of session.member.pass).number ≡ number) }
        // Proved (endless, take)
        ensures err { IfErr result (λ fault. IsRefused store.now.value number fault) }
    {
        if number == 0 || number > store.places.len() as u64 {
            return Err(TakeFault::OutOfRange);
        }
        let Ok(owned) = Arc::try_clone(store) else {
            return Err(TakeFault::NoMemory);
        };
        // Session 1 has place 0.
        let index = (number - 1) as usize;
        // None if somebody has it, or is at the place just now, as when it is given back.
        let Some(resting) = owned.places[index].take() else {
            return Err(TakeFault::Taken);
        };
        let Some(session) = EndlessSession::woken(owned, resting) else {
            return Err(TakeFault::Taken);
        };
        // Each place has the session of its number. That isn't known here; another session would leave again.
        if session.number().get() != number {
            session.leave();
            return Err(TakeFault::Taken);
        }
        Ok(session)
    }
}
