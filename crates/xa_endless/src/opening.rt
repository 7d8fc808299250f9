//! Opening a store.
ghost use Rattle.std.specs.{Prelude.{◌≡◌, ◌≤◌, length, IfOk, IfErr}, List.All};
ghost use Rattle.chain_log.specs.{RingOpens.Refuses, RingPass.{identity_of, log_of}, RingSpare.spare_log_of};
ghost use Rattle.xa_endless.specs.Opens.{Opens, checkpoints_of};

use crate::checkpoint::Checkpoint;
use crate::progress::Progress;
use crate::resting::{RestingCheckpoint, RestingMember};
use crate::slot::Slot;
use crate::{EndlessStore, Member, Replica};
use chain_log::{RingFault, RingLog, RingPass, RingSpare};
use std::alloc::{AllocError, Global};
use std::sync::Arc;

/// How many checkpoints a store of so many sessions has: as many, but at most four, and none for a single session.
fn count_checkpoints(sessions: u64) -> u64
    ensures value { result ≡ checkpoints_of sessions }
    ensures most { result ≤ 4 }
{
    // With one session nobody can be behind. Each takes a column of the ring, and four are enough.
    if sessions <= 1 { 0 } else { sessions.min(4) }
}

/// A session for each pass, at rest in a place, with nothing replayed.
fn place_all(
    alloc: Global,
    log: &RingLog,
    passes: Vec<RingPass>,
) -> Result<Vec<Slot<RestingMember>>, AllocError>
    requires { All (λ pass. log_of pass ≡ identity_of log.now) passes.items }
    ensures ours { IfOk result (λ places. All (λ slot. identity_of slot.value ≡ identity_of log.now) places.items) }
    ensures count { IfOk result (λ places. length places.items ≡ length passes.items) }
{
    let mut places = Vec::new(alloc);
    for pass in passes {
        let member = Member {
            pass,
            replica: Replica::new(alloc),
            told: 0,
            based: 0,
        };
        places.push(Slot::new(member.rest(), log))?;
    }
    Ok(places)
}

/// A checkpoint for each spare, at rest in a place, with nothing replayed.
fn place_checkpoints(
    alloc: Global,
    log: &RingLog,
    spares: Vec<RingSpare>,
) -> Result<Vec<Slot<RestingCheckpoint>>, AllocError>
    requires { All (λ spare. spare_log_of spare ≡ identity_of log.now) spares.items }
    ensures ours { IfOk result (λ places. All (λ slot. identity_of slot.value ≡ identity_of log.now) places.items) }
    ensures count { IfOk result (λ places. length places.items ≡ length spares.items) }
{
    let mut places = Vec::new(alloc);
    for spare in spares {
        let Ok(replica) = Arc::new(alloc, Replica::new(alloc)) else {
            return Err(AllocError);
        };
        let checkpoint = Checkpoint { spare, replica };
        let slot = Slot::new(checkpoint.rest(), log);
        places.push(slot)?;
    }
    Ok(places)
}

impl EndlessStore {
    /// Opens a store with no branch and no row, for 1 to 16 sessions. Its ring has `rows` slots, in `[1, 65536]`.
    ///
    /// A session may sleep while fewer entries than `rows` are added, and then replays them. After as many or more it
    /// goes on from a copy of a checkpoint, a replica that no session owns. A row of the ring takes 184 bytes for each
    /// session and each checkpoint; there are up to 4 checkpoints. Errors, in the order of test: `RowsOutOfRange`,
    /// `SessionsOutOfRange`, `NoMemory`.
    /// Doesn't wait.
    /// Own rule: docs/RATTLE.md#a-store-without-an-end.
    pub fn open(alloc: Global, rows: u64, sessions: u64) -> Result<Arc<EndlessStore>, RingFault>
        // Proved (endless, open): A store opens with as many slots and sessions as were asked for, or with the first
        //   fault, in the order of test, whose cause holds. It has a checkpoint for each session, but at most four, and
        //   none for a single session. Of `NoMemory` only that is known that the tests before it were passed.
        ensures ok { IfOk result (λ store. Opens rows sessions store.value) }
        // Proved (endless, open)
        ensures err { IfErr result (Refuses rows sessions 0) }
    {
        let (log, passes, spares) = RingLog::open(
            alloc,
            rows,
            sessions,
            count_checkpoints(sessions),
        )?;
        let places = place_all(alloc, &log, passes)?;
        let checkpoints = place_checkpoints(alloc, &log, spares)?;
        let store = EndlessStore {
            alloc,
            log,
            checkpoints,
            places,
            progress: Progress::new(),
        };
        match Arc::new(alloc, store) {
            Ok(shared) => Ok(shared),
            Err(_) => Err(RingFault::NoMemory),
        }
    }
}
