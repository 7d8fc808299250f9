//! What a session leaves for others when it has no more statements.
ghost use Rattle.chain_log.specs.RingPass.{known_of};
ghost use Rattle.xa_endless.specs.{Seen.HasOnlySeen, Stays.Stays};

use crate::EndlessSession;

impl EndlessSession {
    /// Leaves a checkpoint that has replayed at least what the session has. Others that are behind can go on from it.
    ///
    /// A session that ends and has added the last entry should do so, since nobody else will: sessions leave
    /// checkpoints after they have answered. Returns true if a checkpoint has then replayed as much as this session
    /// has, or if the store has none, as one for a single session. Returns false if others use the checkpoints just
    /// now, or if memory runs out: try again. Doesn't wait.
    /// Own rule: docs/RATTLE.md#a-store-without-an-end.
    pub fn leave_checkpoint(&mut self) -> bool
        // Proved (endless, stays)
        ensures stays { Stays self.old self.new }
        // Proved (endless, leave-checkpoint): A session that leaves a checkpoint adds nothing.
        ensures seen { HasOnlySeen (known_of self.old.member.pass) (known_of self.new.member.pass) }
    {
        // With one session nobody can be behind.
        if self.store.checkpoints.is_empty() {
            return true;
        }
        // Any checkpoint will do, so the search begins with the first.
        self.store.leave_copy(&mut self.member, 0)
    }
}
