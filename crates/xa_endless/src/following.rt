//! Handing out the history, entry by entry.
ghost use Rattle.std.specs.Prelude.{◌≡◌, ◌<◌, ◌≤◌, ◌+◌, length};
ghost use Rattle.chain_log.specs.RingPass.{known_of};
ghost use Rattle.xa_endless.specs.{Following.Hands, Seen.HasOnlySeen};

use crate::EndlessSession;
use xa_words::Entry;

/// What comes next in the history, after what a session has handed out.
#[derive(Drop)]
pub enum Next {
    /// The next entry.
    Entry(Entry),
    /// So many entries are counted as lost. The first of them may be overwritten. If there are others, the last three
    /// quarters of the ring's slots come after them.
    Lost(u64),
    /// All that the history has was handed out, or counted as lost.
    End,
}

impl EndlessSession {
    /// Hands out the next entry of the history. Each is handed out once, in order, or counted as lost.
    ///
    /// Takes no memory. Doesn't wait.
    /// Own rule: docs/RATTLE.md#a-store-without-an-end.
    pub fn next_entry(&mut self) -> Next
        ensures store { self.new.store.value ≡ self.old.store.value }
        ensures replica { self.new.member.replica ≡ self.old.member.replica }
        ensures seen { HasOnlySeen (known_of self.old.member.pass) (known_of self.new.member.pass) }
        // Proved (endless, history): A session hands out each entry of the history once and in order, or counts it as
        //   lost. It counts some as lost only if the history has, from the first of them on, at least as many entries
        //   as the ring has slots. It counts more than one only so that the last three quarters of the ring's slots are
        //   still handed out. It says that there is no more only after a look, if it has handed out all that it has
        //   seen.
        ensures hands { Hands self.old.store.value.log result self.old.member self.new.member }
    {
        let log = &self.store.log;
        let told = self.member.told;
        // If all that was seen is handed out, a look tells whether the history has more.
        if told == log.length(&self.member.pass) && log.look(&mut self.member.pass) == told {
            return Next::End;
        }
        if let Some(entry) = log.entry(&mut self.member.pass, told) {
            self.member.told = told + 1;
            return Next::Entry(entry);
        }
        // The ring may have overwritten the entry, so it is counted as lost. A look tells how long the history is now.
        let count = log.look(&mut self.member.pass);
        // Entries of the oldest quarter of the ring may be overwritten before they are handed out, so they are given
        // up, too. At least the entry at `told` is given up, also in a ring of fewer than 4 slots, which has no such
        // quarter.
        let kept = log.rows() - log.rows() / 4;
        let lost = (count - told).saturating_sub(kept).max(1);
        self.member.told = told + lost;
        Next::Lost(lost)
    }
}
