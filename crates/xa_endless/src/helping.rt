//! How a session goes on from a checkpoint: one that is behind, or one that would have to replay many entries.
ghost use Rattle.std.specs.Prelude.{◌≡◌, ◌<◌, ◌≤◌, false, length, IfOk, IfSome, OnErr};
ghost use Rattle.chain_log.specs.RingPass.{identity_of, log_of, known_of, least_of};
ghost use Rattle.xa_endless.specs.Members.{Keeps};

use crate::{EndlessStore, Member};
use xa_xid::NoMemory;

/// How many entries ahead of a session a checkpoint must at least be for a jump. To find the best one, the session
/// takes each checkpoint out of its place for a moment, so that others can't have it. So a jump has to save some
/// replays.
const LEAST_JUMP: u64 = 128;

impl EndlessStore {
    /// How many entries the replica of the checkpoint at `index` has replayed, or 0 if the session can't go on from
    /// there, or if another one has the checkpoint just now.
    fn offered(&self, index: usize, member: &Member) -> u64
        requires index { index < length self.now.checkpoints.items }
        requires belongs { log_of member.now.pass ≡ identity_of self.now.log }
    {
        let Some(checkpoint) = self.take_checkpoint(index) else {
            return 0;
        };
        // What is offered is more than the session has replayed, so 0 stands for nothing else.
        let offered = checkpoint.offers(&self.log, member).unwrap_or(0);
        self.put_checkpoint(index, checkpoint);
        offered
    }

    /// The place of the checkpoint whose replica has replayed most, of those from which the session can go on. None if
    /// there is none, or if other sessions have them just now.
    fn best(&self, member: &Member) -> Option<usize>
        requires { log_of member.now.pass ≡ identity_of self.now.log }
        ensures { IfSome result (λ index. index < length self.now.checkpoints.items) }
    {
        let mut best = None;
        let mut most = 0;
        for index in 0..self.checkpoints.len() {
            let offered = self.offered(index, member);
            // 0 stands for a checkpoint from which the session can't go on.
            if offered > most {
                most = offered;
                best = Some(index);
            }
        }
        best
    }

    /// Has a session go on from the replica of the checkpoint that has replayed most, of those from which it can.
    /// Returns whether it does. It doesn't if there is none, or if that one can't be had by then; nothing has changed
    /// in this case.
    ///
    /// May return `NoMemory`; the session has then the replica that it had, and may have seen more.
    pub(crate) fn help(&self, member: &mut Member) -> Result<bool, NoMemory>
        requires { log_of member.old.pass ≡ identity_of self.now.log }
        ensures belongs { log_of member.new.pass ≡ log_of member.old.pass }
        ensures keeps { Keeps member.old member.new }
        ensures no { IfOk result (λ helped. helped ≡ false → member.new ≡ member.old) }
        ensures err { OnErr result (member.new.replica.replayed < length (known_of member.new.pass).seen) }
        ensures same { OnErr result (member.new.replica ≡ member.old.replica) }
        ensures least { OnErr result (least_of member.old.pass ≤ length (known_of member.new.pass).seen) }
    {
        let Some(index) = self.best(member) else {
            return Ok(false);
        };
        self.copy(index, member)
    }

    /// Has a session go on from a copy of the replica of the checkpoint at `index`. Returns false, with nothing
    /// changed, if another session has the checkpoint, if this one can't go on from it by now, or if the replica can't
    /// be shared once more. May return `NoMemory`; the session may then have seen more.
    fn copy(&self, index: usize, member: &mut Member) -> Result<bool, NoMemory>
        requires index { index < length self.now.checkpoints.items }
        requires belongs { log_of member.old.pass ≡ identity_of self.now.log }
        ensures belongs { log_of member.new.pass ≡ log_of member.old.pass }
        ensures keeps { Keeps member.old member.new }
        ensures no { IfOk result (λ helped. helped ≡ false → member.new ≡ member.old) }
        ensures err { OnErr result (member.new.replica.replayed < length (known_of member.new.pass).seen) }
        ensures same { OnErr result (member.new.replica ≡ member.old.replica) }
        ensures least { OnErr result (least_of member.old.pass ≤ length (known_of member.new.pass).seen) }
    {
        let Some(mut checkpoint) = self.take_checkpoint(index) else {
            return Ok(false);
        };
        let shared = checkpoint.share(&self.log, member);
        self.put_checkpoint(index, checkpoint);
        let Some(shared) = shared else {
            return Ok(false);
        };
        // The copy takes time for the rows that were written lately. Meanwhile the checkpoint is in its place, and
        // others can share it, too.
        member.replica = shared.copy()?;
        member.based = member.replica.replayed;
        Ok(true)
    }

    /// Has a session go on from a checkpoint, if that should take less time than to replay the entries up to there: if
    /// the newest one is ahead by at least `LEAST_JUMP` entries. The session stays as it is if no checkpoint can be
    /// had; without memory for a copy it may have seen more.
    pub(crate) fn jump(&self, member: &mut Member)
        requires { log_of member.old.pass ≡ identity_of self.now.log }
        ensures belongs { log_of member.new.pass ≡ log_of member.old.pass }
        ensures keeps { Keeps member.old member.new }
    {
        let newest = self.progress.newest();
        // How many entries the newest checkpoint is ahead: 0 if the session has replayed as many or more.
        let ahead = newest - member.replica.replayed.min(newest);
        if ahead < LEAST_JUMP {
            return;
        }
        // If no checkpoint can be had, or there is no memory for the copy, the session replays the entries itself.
        let _jumped = self.help(member);
    }
}
