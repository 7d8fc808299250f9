//! A session of an endless store.
ghost use Rattle.std.specs.Prelude.{◌≡◌, ◌≤◌, ◌+◌, length, IfSome};
ghost use Rattle.decision_log.specs.Calls.{MeetsFirst, MeetsSecond};
ghost use Rattle.chain_log.specs.{RingPass.{identity_of, log_of, known_of}, Resting.resting_log_of};
ghost use Rattle.xa_session.specs.Replay.{state_at};
ghost use Rattle.xa_server.specs.State.{no_state};
ghost use Rattle.xa_endless.specs.Resting.{IsAtRest};

use crate::resting::RestingMember;
use crate::{EndlessStore, Member};
use std::sync::Arc;
use xa_xid::SessionNo;

/// A session of an endless store, which it owns together with the store's other sessions. It may be sent to another
/// thread.
///
/// Its history is the store's, from the first entry on. If a session is dropped, its branch stays open, with its locks,
/// and nobody can take its number again: end it by `leave`.
#[derive(Drop)]
pub struct EndlessSession {
    /// The store, which lives as long as anybody has it.
    pub(crate) store: Arc<EndlessStore>,
    /// Its pass and its replica.
    pub(crate) member: Member,
    // The pass is one of this store's log.
    ghost belongs: { log_of member.pass ≡ identity_of store.value.log },
}

impl EndlessSession {
    /// Returns the session's number.
    ///
    /// Takes no memory. Doesn't wait.
    /// Own rule: docs/RATTLE.md#a-store-without-an-end.
    pub fn number(&self) -> SessionNo
        // Proved (endless, reading)
        ensures { result ≡ (known_of self.now.member.pass).number }
    {
        self.store.log.number(&self.member.pass)
    }

    /// Returns how many entries of the history the session has seen.
    ///
    /// Takes no memory. Doesn't wait.
    /// Own rule: docs/RATTLE.md#a-store-without-an-end.
    pub fn seen(&self) -> u64
        // Proved (endless, reading): A session returns its number, and how many entries it has seen and has replayed.
        ensures { result ≡ length (known_of self.now.member.pass).seen }
    {
        self.store.log.length(&self.member.pass)
    }

    /// Returns how many entries of what the session has seen its replica has replayed, from the first on.
    ///
    /// The number never falls. Takes no memory. Doesn't wait.
    /// Own rule: docs/RATTLE.md#a-store-without-an-end.
    pub fn folded(&self) -> u64
        // Proved (endless, reading)
        ensures replayed { result ≡ self.now.member.replica.replayed }
        // Proved (endless, reading)
        ensures within { result ≤ length (known_of self.now.member.pass).seen }
        // Proved (endless, reading)
        ensures state { self.now.member.replica.server ≡ state_at no_state (known_of self.now.member.pass).seen result }
    {
        self.member.replica.replayed
    }

    /// Lets two sessions of one store meet: `other` has then seen all that this session has.
    ///
    /// Takes no memory. Doesn't wait.
    /// Own rule: docs/RATTLE.md#a-store-without-an-end.
    pub fn meet(&mut self, other: &mut EndlessSession)
        requires { log_of self.old.member.pass ≡ log_of other.old.member.pass }
        ensures store { self.new.store.value ≡ self.old.store.value }
        ensures other { other.new.store.value ≡ other.old.store.value }
        // Proved (endless, meet): After two sessions meet, what the first has seen begins what the second has seen. The
        //   first's own entries there are as the first knows them. Both keep their replica, and hand the history out
        //   from where they were.
        ensures replicas { (self.new.member.replica ≡ self.old.member.replica)
            × (other.new.member.replica ≡ other.old.member.replica) }
        // Proved (endless, meet)
        ensures told { (self.new.member.told ≡ self.old.member.told)
            × (other.new.member.told ≡ other.old.member.told) }
        // Proved (endless, meet)
        ensures first { MeetsFirst (known_of self.old.member.pass) (known_of self.new.member.pass) }
        // Proved (endless, meet)
        ensures second { MeetsSecond (known_of self.old.member.pass) (known_of other.old.member.pass)
            (known_of other.new.member.pass) }
    {
        self.store
            .log
            .meet(&mut self.member.pass, &mut other.member.pass);
    }

    /// Gives the session back to its store, from which it can be taken again.
    ///
    /// Nothing is logged: an open branch stays open, with its locks. Takes no memory. Doesn't wait.
    /// Own rule: docs/RATTLE.md#a-store-without-an-end.
    pub fn leave(self) {
        let (store, place, resting) = self.rest();
        store.put_back(place, resting);
    }

    /// Lets the session rest. Returns its store, its place there, and what rests of it.
    fn rest(self) -> (Arc<EndlessStore>, usize, RestingMember)
        ensures store { result.0.value ≡ self.store.value }
        // Session 1 has place 0.
        ensures place { result.1 + 1 ≡ (known_of self.member.pass).number }
        // Proved (endless, leave): What rests of a session that leaves is of its store, has its number and its replica,
        //   and has seen, added and handed out what the session has. So has the session that wakes from it. That a
        //   place gives back what was put there isn't said.
        ensures rests { IsAtRest self.member result.2 }
        ensures fits { resting_log_of result.2.pass ≡ identity_of result.0.value.log }
    {
        let EndlessSession { store, member } = self;
        // Numbers are at least 1, so the difference isn't below 0.
        let place = store.log.number(&member.pass).get() - 1;
        (store, place as usize, member.rest())
    }

    /// Wakes the session that rests in a store. None if its pass isn't there, which can't be.
    pub(crate) fn woken(store: Arc<EndlessStore>, resting: RestingMember) -> Option<EndlessSession>
        requires { resting_log_of resting.pass ≡ identity_of store.value.log }
        ensures store { IfSome result (λ session. session.store.value ≡ store.value) }
        // Proved (endless, leave)
        ensures wakes { IfSome result (λ session. IsAtRest session.member resting) }
    {
        let member = resting.wake()?;
        Some(EndlessSession { store, member })
    }
}
