//! A replica that no session owns.
ghost use Rattle.std.specs.{Prelude.{◌≡◌, ◌<◌, ◌≤◌, false, length, IfSome, IfNone}, Coded.Coded-set};
ghost use Rattle.chain_log.specs.RingPass.{identity_of, log_of, known_of, least_of};
ghost use Rattle.chain_log.specs.RingSpare.{spare_log_of, spare_known_of};
ghost use Rattle.xa_endless.specs.{Members.{Hears, Keeps, Serves, Tends}, Replicas.Stands};
ghost use Rattle.xa_server.specs.{Coding.coded_state, State.no_state};
ghost use Rattle.xa_session.specs.Replay.{state_at};

use crate::{Member, Replica};
use chain_log::{RingLog, RingSpare};
use std::mem;
use std::sync::Arc;

/// A replica that no session owns, and a spare, which remembers the history that the replica stands for.
///
/// The sessions leave a newer one in its place from time to time. A session that is behind goes on from a copy of the
/// replica, and others share its rows. The replica never changes.
#[derive(Drop)]
pub(crate) struct Checkpoint {
    /// The spare, which has seen at least what the replica has replayed.
    pub(crate) spare: RingSpare,
    /// The replica, which sessions share while they copy it, and whose rows their copies share.
    pub(crate) replica: Arc<Replica>,
    // The replica is no farther than what the spare has seen,
    ghost within: { replica.value.replayed ≤ length (spare_known_of spare).seen },
    // and is the server after the entries that it has replayed.
    ghost state: { replica.value.server ≡ state_at no_state (spare_known_of spare).seen replica.value.replayed } by { Coded-set coded_state _ _ },
}

impl Checkpoint {
    /// How many entries the replica has replayed, if the session can go on from there, else None. The session can if
    /// the checkpoint's replica has replayed more than the session's own, and the next entry isn't lost: of the entries
    /// that the session has seen, fewer come after the replayed ones than the ring has slots.
    pub(crate) fn offers(&self, log: &RingLog, member: &Member) -> Option<u64>
        requires mine { spare_log_of self.now.spare ≡ identity_of log.now }
        requires belongs { log_of member.now.pass ≡ identity_of log.now }
        ensures { IfSome result (λ _. member.now.replica.replayed < self.now.replica.value.replayed) }
    {
        let replayed = self.replica.replayed;
        // A replica whose next entry may be lost is of no use: it can't catch up. A log is full long before such a sum
        // reaches 2^64, but that isn't known here, so the sum saturates.
        let is_lost = replayed.saturating_add(log.rows()) <= log.length(&member.pass);
        if replayed <= member.replica.replayed || is_lost {
            None
        } else {
            Some(replayed)
        }
    }

    /// Shares the replica with a session that can go on from there (`offers`). None, with the session as it was, if the
    /// session can't, or if the replica can't be shared once more.
    ///
    /// A session that shares the replica has then seen all that the replica stands for.
    pub(crate) fn share(&mut self, log: &RingLog, member: &mut Member) -> Option<Arc<Replica>>
        requires mine { spare_log_of self.old.spare ≡ identity_of log.now }
        requires belongs { log_of member.old.pass ≡ identity_of log.now }
        ensures mine { spare_log_of self.new.spare ≡ identity_of log.now }
        ensures belongs { log_of member.new.pass ≡ log_of member.old.pass }
        ensures hears { Hears member.old member.new }
        ensures serves { IfSome result (λ shared. Serves member.new shared.value) }
        ensures least { IfSome result (λ _. least_of member.old.pass ≤ length (known_of member.new.pass).seen) }
        ensures none { IfNone result (member.new ≡ member.old) }
    {
        // These two can fail, so they come before anything changes.
        self.offers(log, member)?;
        let shared = Arc::try_clone(&self.replica).ok()?;
        // The session then sees at least as many entries as it knew the history to have. `EndlessStore::copy` promises
        // that if there is no memory for the copy.
        log.look(&mut member.pass);
        // Spare and pass have seen prefixes of one history, so what the replica has replayed begins what the session
        // has seen.
        log.hear(&mut self.spare, &mut member.pass);
        Some(shared)
    }

    /// Shares the replica with a session whose own has replayed as much or more, so that it can share the rows of this
    /// one, and replay the rest. None if the session has seen less than this replica has replayed, or if the replica
    /// can't be shared once more.
    pub(crate) fn lend(&mut self, log: &RingLog, member: &mut Member) -> Option<Arc<Replica>>
        requires mine { spare_log_of self.old.spare ≡ identity_of log.now }
        requires belongs { log_of member.old.pass ≡ identity_of log.now }
        ensures mine { spare_log_of self.new.spare ≡ identity_of log.now }
        ensures belongs { log_of member.new.pass ≡ log_of member.old.pass }
        ensures tends { Tends member.old member.new }
        ensures stands { IfSome result (λ shared. Stands (known_of member.new.pass).seen shared.value) }
    {
        let shared = Arc::try_clone(&self.replica).ok()?;
        // The spare has then seen what the session has, so what the replica has replayed, if that is no more, begins
        // what the session has seen.
        log.tell(&mut member.pass, &mut self.spare);
        if shared.replayed > log.length(&member.pass) {
            return None;
        }
        Some(shared)
    }

    /// Puts a copy of a session's replica in the place of the checkpoint's, if the copy has replayed more. Returns the
    /// one of the two that isn't needed.
    pub(crate) fn renew(
        &mut self,
        log: &RingLog,
        member: &mut Member,
        copy: Arc<Replica>,
    ) -> Arc<Replica>
        requires mine { spare_log_of self.old.spare ≡ identity_of log.now }
        requires belongs { log_of member.old.pass ≡ identity_of log.now }
        requires copy { copy.value ≡ member.old.replica }
        ensures mine { spare_log_of self.new.spare ≡ identity_of log.now }
        ensures belongs { log_of member.new.pass ≡ log_of member.old.pass }
        ensures tends { Tends member.old member.new }
    {
        // Another session has come as far or further, and was here before.
        if copy.replayed <= self.replica.replayed {
            return copy;
        }
        // The spare has then seen what the copy stands for.
        let pass = &mut member.pass;
        log.tell(pass, &mut self.spare);
        mem::replace(&mut self.replica, copy)
    }
}
