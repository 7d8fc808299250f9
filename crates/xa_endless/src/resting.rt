//! What lies in the slots of a store, where threads share it: sessions that nobody has, and checkpoints.
ghost use Rattle.std.specs.{Prelude.{◌≡◌, ◌≤◌, length, IfSome}, Coded.Coded-set};
ghost use Rattle.chain_log.specs.{RingPass.identity_of, Resting.{resting_log_of, resting_known_of}};
ghost use Rattle.chain_log.specs.Resting.{resting_spare_log_of, resting_spare_known_of};
ghost use Rattle.xa_server.specs.{Coding.coded_state, State.no_state};
ghost use Rattle.xa_session.specs.Replay.{state_at};

use crate::Replica;
use chain_log::{RestingPass, RestingSpare, RingLog};
use counted_slot::Fits;
use std::sync::Arc;

/// A session that nobody has.
#[derive(Drop)]
pub struct RestingMember {
    /// Its handle on the ring, at rest.
    pub(crate) pass: RestingPass,
    /// Its own server.
    pub(crate) replica: Replica,
    /// As in `Member`: how many entries `next_entry` has handed out.
    pub(crate) told: u64,
    /// As in `Member`: what the checkpoint had replayed on whose rows its replica stands.
    pub(crate) based: u64,
    // The replica is no farther than what the pass has seen,
    ghost within: { replica.replayed ≤ length (resting_known_of pass).seen },
    // and is the server after the entries that it has replayed.
    ghost state: { replica.server ≡ state_at no_state (resting_known_of pass).seen replica.replayed } by { Coded-set coded_state _ _ },
    // Only entries that the pass has seen were handed out.
    ghost handed: { told ≤ length (resting_known_of pass).seen },
}

impl Fits for RestingMember {
    type Tag = RingLog;

    ghost fits = { λ log member. resting_log_of member.pass ≡ identity_of log };
}

/// A checkpoint that no session has taken out of its place.
#[derive(Drop)]
pub(crate) struct RestingCheckpoint {
    /// The spare, which has seen at least what the replica has replayed.
    pub(crate) spare: RestingSpare,
    /// The replica, which sessions share while they copy it.
    pub(crate) replica: Arc<Replica>,
    // The replica is no farther than what the spare has seen,
    ghost within: { replica.value.replayed ≤ length (resting_spare_known_of spare).seen },
    // and is the server after the entries that it has replayed.
    ghost state: { replica.value.server ≡ state_at no_state
        (resting_spare_known_of spare).seen replica.value.replayed } by { Coded-set coded_state _ _ },
}

impl Fits for RestingCheckpoint {
    type Tag = RingLog;

    ghost fits = { λ log checkpoint. resting_spare_log_of checkpoint.spare ≡ identity_of log };
}
