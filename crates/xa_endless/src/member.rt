//! What a session keeps between its calls.
ghost use Rattle.std.specs.{Prelude.{◌≡◌, ◌≤◌, length}, Coded.Coded-set};
ghost use Rattle.chain_log.specs.RingPass.{known_of};
ghost use Rattle.xa_server.specs.{Coding.coded_state, State.no_state};
ghost use Rattle.xa_session.specs.Replay.{state_at};

use crate::Replica;
use chain_log::RingPass;

/// What a session keeps between its calls: its pass, its replica, how far it has handed out the history, and which
/// checkpoint its replica stands on.
#[derive(Drop)]
pub struct Member {
    /// Its handle on the ring.
    pub(crate) pass: RingPass,
    /// Its own server.
    pub(crate) replica: Replica,
    /// How many entries `next_entry` has handed out, lost ones included.
    pub(crate) told: u64,
    /// How many entries the checkpoint had replayed whose rows its replica shares; 0 if it shares none. Once the
    /// replica has replayed a pace (`src/tending.rt`) more, the session shares those of a newer one, or leaves one.
    pub(crate) based: u64,
    // The replica is no farther than what the pass has seen.
    ghost within: { replica.replayed ≤ length (known_of pass).seen },
    // Proved (endless, replica-is-a-prefix): At every moment the replica of a session is the server after a prefix of
    //   what the session has seen, from no branch and no row on.
    ghost state: { replica.server ≡ state_at no_state (known_of pass).seen replica.replayed } by { Coded-set coded_state _ _ },
    // Only entries that the pass has seen were handed out.
    ghost handed: { told ≤ length (known_of pass).seen },
}
