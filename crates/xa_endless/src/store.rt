//! A store whose history has no end.
ghost use Rattle.std.specs.{Prelude.{◌≡◌, ◌<◌, length, IfSome}, List.All};
ghost use Rattle.chain_log.specs.{RingPass.identity_of, RingSpare.spare_log_of};

use crate::checkpoint::Checkpoint;
use crate::progress::Progress;
use crate::resting::{RestingCheckpoint, RestingMember};
use crate::slot::Slot;
use chain_log::RingLog;
use std::alloc::Global;

/// A store whose history has no end: the ring that its sessions share, the sessions that nobody has, and checkpoints,
/// from which a session goes on that is behind.
///
/// No call on it waits or takes a lock. Its memory doesn't grow with the history. Replicas share the rows that weren't
/// written lately.
#[derive(Drop)]
pub struct EndlessStore {
    /// Where memory for copies of replicas is taken from.
    pub(crate) alloc: Global,
    /// The ring with the history's last entries.
    pub(crate) log: RingLog,
    /// The checkpoints, none to four.
    pub(crate) checkpoints: Vec<Slot<RestingCheckpoint>>,
    /// The sessions that nobody has, each at the place of its number.
    pub(crate) places: Vec<Slot<RestingMember>>,
    /// How far the newest checkpoint has come.
    pub(crate) progress: Progress,
    // Each checkpoint's spare is one of this store's log,
    ghost kept: { All (λ slot. identity_of slot.value ≡ identity_of log) checkpoints.items },
    // and so is each place of a session: the pass that lies there, if it isn't taken.
    ghost free: { All (λ slot. identity_of slot.value ≡ identity_of log) places.items },
}

impl EndlessStore {
    /// Takes the checkpoint at `index` out of its place. None if another session has it, or is at the place just now.
    pub(crate) fn take_checkpoint(&self, index: usize) -> Option<Checkpoint>
        requires { index < length self.now.checkpoints.items }
        ensures { IfSome result (λ checkpoint. spare_log_of checkpoint.spare ≡ identity_of self.now.log) }
    {
        self.checkpoints[index].take()?.wake()
    }

    /// Puts a checkpoint back into the place from which the caller took it.
    pub(crate) fn put_checkpoint(&self, index: usize, checkpoint: Checkpoint)
        requires index { index < length self.now.checkpoints.items }
        requires mine { spare_log_of checkpoint.spare ≡ identity_of self.now.log }
    {
        // Nobody else fills a place that the caller emptied, so it is free.
        let _put = self.checkpoints[index].put(checkpoint.rest());
    }
}
