//! How the sessions leave checkpoints near the end of the history, and share the rows of these.
ghost use Rattle.std.specs.Prelude.{◌≡◌, ◌<◌, length, IfSome};
ghost use Rattle.chain_log.specs.RingPass.{identity_of, log_of, known_of};
ghost use Rattle.xa_endless.specs.{Members.Tends, Replicas.Stands};

use crate::{EndlessStore, Member, Replica};
use std::sync::Arc;

/// In how many steps at most a session goes round the places of the checkpoints, to find one that no other session has.
/// A session has one for a few steps only, so a checkpoint is in its place soon.
const MOST_LOOKS: usize = 256;

/// After how many entries the next checkpoint is left, unless an eighth of the ring's slots is less (`pace`). The rows
/// written since then are what a copy takes time and memory for.
const PACE: u64 = 1_024;

impl EndlessStore {
    /// How many entries a session replays before it shares the rows of a newer checkpoint, or leaves one: `PACE`, or an
    /// eighth of the ring's slots if that is less, so that most of the ring is left for a session that goes on from
    /// there. At least 1.
    fn pace(&self) -> u64 {
        (self.log.rows() / 8).max(1).min(PACE)
    }

    /// Leaves a copy of the session's replica in a checkpoint: the first from the place `first` on, round and round,
    /// that no other session has now, in at most `MOST_LOOKS` steps. If that one has replayed as much or more, it
    /// stays as it is, and will do. The session's replica then shares the copy's rows. Returns false if none was found,
    /// or if there was no memory for the copies.
    pub(crate) fn leave_copy(&self, member: &mut Member, first: usize) -> bool
        requires { log_of member.old.pass ≡ identity_of self.now.log }
        ensures belongs { log_of member.new.pass ≡ log_of member.old.pass }
        ensures tends { Tends member.old member.new }
    {
        let count = self.checkpoints.len();
        // With one session nobody can be behind, and the store has no checkpoint.
        if count == 0 {
            return false;
        }
        // The copies are made before the checkpoint is taken out of its place.
        let Ok(copy) = member.replica.copy() else {
            return false;
        };
        // What was written lately is in the copy's runs now, so this one shares all of it.
        let Ok(own) = copy.copy() else {
            return false;
        };
        let Ok(shared) = Arc::new(self.alloc, copy) else {
            return false;
        };
        for step in 0..MOST_LOOKS {
            // `first` is small, but that isn't known here. Wherever a search begins is right, so the sum may wrap.
            let index = first.wrapping_add(step) % count;
            // If another session has this one, the next may be in its place.
            if let Some(mut checkpoint) = self.take_checkpoint(index) {
                let _unneeded = checkpoint.renew(&self.log, member, shared);
                self.put_checkpoint(index, checkpoint);
                member.replica = own;
                let replayed = member.replica.replayed;
                member.based = replayed;
                self.progress.tell(replayed);
                return true;
            }
        }
        false
    }

    /// Shares the replica of the checkpoint at `index` with a session that has seen what it has replayed. None if
    /// another session has the checkpoint, or as `Checkpoint::lend` says.
    fn lend(&self, index: usize, member: &mut Member) -> Option<Arc<Replica>>
        requires index { index < length self.now.checkpoints.items }
        requires belongs { log_of member.old.pass ≡ identity_of self.now.log }
        ensures belongs { log_of member.new.pass ≡ log_of member.old.pass }
        ensures tends { Tends member.old member.new }
        ensures stands { IfSome result (λ shared. Stands (known_of member.new.pass).seen shared.value) }
    {
        let mut checkpoint = self.take_checkpoint(index)?;
        let shared = checkpoint.lend(&self.log, member);
        self.put_checkpoint(index, checkpoint);
        shared
    }

    /// Has a session's replica stand on the rows of the checkpoint at `index`: a copy of that one replays what it
    /// misses, and takes the replica's place. So the session shares these rows with all others that do so. Returns
    /// whether it does. It doesn't if the checkpoint can't be had or misses entries that are lost, if the replica
    /// hasn't replayed all that the session has seen, or if there is no memory for the copy.
    fn rebase(&self, index: usize, member: &mut Member) -> bool
        requires index { index < length self.now.checkpoints.items }
        requires belongs { log_of member.old.pass ≡ identity_of self.now.log }
        ensures belongs { log_of member.new.pass ≡ log_of member.old.pass }
        ensures tends { Tends member.old member.new }
    {
        let count = self.log.length(&member.pass);
        if member.replica.replayed != count {
            return false;
        }
        let Some(shared) = self.lend(index, member) else {
            return false;
        };
        let Ok(mut replica) = shared.copy() else {
            return false;
        };
        if replica
            .catch_up(&self.log, &mut member.pass, count)
            .is_err()
        {
            return false;
        }
        member.replica = replica;
        member.based = shared.replayed;
        true
    }

    /// The place of the checkpoint that has replayed most, of those that have replayed more than `based` entries and no
    /// more than `most`. None if there is none, or if other sessions have them just now.
    fn newest_between(&self, based: u64, most: u64) -> Option<usize>
        ensures { IfSome result (λ index. index < length self.now.checkpoints.items) }
    {
        let mut best = None;
        let mut further = based;
        for index in 0..self.checkpoints.len() {
            if let Some(checkpoint) = self.take_checkpoint(index) {
                let replayed = checkpoint.replica.replayed;
                self.put_checkpoint(index, checkpoint);
                if replayed > further && replayed <= most {
                    further = replayed;
                    best = Some(index);
                }
            }
        }
        best
    }

    /// Has the session's replica stand on a newer checkpoint, or leaves one, if the session has replayed enough since
    /// the one that it stands on.
    pub(crate) fn tend_in_time(&self, member: &mut Member)
        requires { log_of member.old.pass ≡ identity_of self.now.log }
        ensures belongs { log_of member.new.pass ≡ log_of member.old.pass }
        ensures tends { Tends member.old member.new }
    {
        let replayed = member.replica.replayed;
        // How many entries beyond the checkpoint the session has replayed. It has replayed as much, but that isn't
        // known here.
        let since = replayed - member.based.min(replayed);
        let pace = self.pace();
        if since < pace {
            return;
        }
        // A newer checkpoint is there: its rows are shared already, and few entries are to be replayed on them.
        if self.progress.newest() > member.based {
            if let Some(index) = self.newest_between(member.based, replayed) {
                if self.rebase(index, member) {
                    return;
                }
            }
        }
        // Another session has begun to leave one, or this one has tried in vain, less than a pace ago. After two paces it
        // counts less on the other, which may be stopped.
        let patience = if since < pace.saturating_mul(2) {
            pace
        } else {
            pace / 8
        };
        if replayed < self.progress.begun().saturating_add(patience) {
            return;
        }
        self.progress.begin(replayed);
        // The pace is at least 1, but that isn't known here. If it fails, `based` stays, so the session tries again.
        let _left = self.leave_copy(member, (replayed / pace.max(1)) as usize);
    }
}
