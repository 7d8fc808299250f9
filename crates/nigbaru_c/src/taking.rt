//! The call that takes a session of a store.
ghost use Rattle.std.specs.Prelude.{◌≡◌, ◌≢◌, Some, None};
ghost use Rattle.nigbaru_c.specs.Holds.{session_of, store_in, store_of};
ghost use Rattle.nigbaru_c.specs.Taking.{IsTaken, Takes, IsTakeStatus, IsSeatStatus};

use crate::opening::is_free;
use crate::{Chair, Handle, Hold, status};
use std::alloc::Global;
use std::sync::Arc;
use xa_endless::{EndlessStore, TakeFault};

/// Takes the session `number` of the store, and puts it into the handle, if that is empty. Returns `OK`, or the status
/// of a fault, after which the handle is as before.
fn seat(alloc: Global, store: &Arc<EndlessStore>, number: u64, session: &mut Handle) -> u32
    ensures ok { result ≡ 0 → Takes number (Some store.now.value) (session_of session.new.held) }
    ensures err { result ≢ 0 → session.new.held ≡ session.old.held }
    ensures status { IsSeatStatus number store.now.value session.old.held result }
{
    if !is_free(alloc, session) {
        return status::HELD;
    }
    if number == 0 || number > store.sessions() {
        return status::OUT_OF_RANGE;
    }
    // Memory for the box goes first. If it failed later, the session would be taken, and no handle would hold it.
    let Ok(mut chair) = Box::new(alloc, Chair { hold: None }) else {
        return status::NO_MEMORY;
    };
    match EndlessStore::take(store, number) {
        Ok(taken) => {
            chair.hold = Some(Hold::Session(taken));
            session.fill(chair);
            status::OK
        }
        Err(TakeFault::NoMemory) => status::NO_MEMORY,
        // The number was tested above, so somebody has the session, or is just giving it back.
        Err(TakeFault::OutOfRange) | Err(TakeFault::Taken) => status::NO_SESSION,
    }
}

impl Chair {
    /// Takes the session `number` of the store that is held, and puts it into the handle, if that is empty. Returns
    /// `NO_HANDLE` if no store is held, and else the status of `seat`.
    fn seat(&self, alloc: Global, number: u64, session: &mut Handle) -> u32
        ensures ok { result ≡ 0 → Takes number (store_in self.now.hold) (session_of session.new.held) }
        ensures err { result ≢ 0 → session.new.held ≡ session.old.held }
        ensures status { IsTakeStatus number (store_in self.now.hold) session.old.held result }
    {
        match &self.hold {
            Some(Hold::Store(store)) => seat(alloc, store, number, session),
            _ => status::NO_HANDLE,
        }
    }
}

/// Takes a session of a store. See `nigbaru_take` of `include/nigbaru.h`.
///
/// `store`: a handle with a store. `number`: the session's, from 1. `session`: an empty handle. Returns 0, or in the
/// order of test: `NO_HANDLE` if no store is held, `HELD` if the session's handle isn't empty, `OUT_OF_RANGE` if the
/// store has no such session, `NO_MEMORY`, `NO_SESSION` if somebody has it or is just giving it back.
/// After an error both handles are as before. May return `NO_MEMORY`. Doesn't wait.
/// Own rule: docs/EMBEDDING.md#errors.
#[unsafe(no_mangle)]
pub extern "C" fn nigbaru_raw_take(
    alloc: Global,
    store: &mut Handle,
    number: u64,
    session: &mut Handle,
) -> u32
    // Proved (c, take): A session that C takes is of the store, and has the number that was asked for. Its handle was
    //   empty.
    ensures ok { result ≡ 0 → (session.old.held ≡ None) × Takes number (store_of store.old.held)
        (session_of session.new.held) }
    // Proved (c, take-fails): After a fault of taking a session no handle has changed. `NO_HANDLE` is returned
    //   exactly if no store is held. `HELD` and `OUT_OF_RANGE` have their causes; of `NO_MEMORY` and `NO_SESSION`
    //   only that is known that the tests before them were passed.
    ensures err { result ≢ 0 → session.new.held ≡ session.old.held }
    // Proved (c, take-fails)
    ensures same { store.new.held ≡ store.old.held }
    // Proved (c, take-fails)
    ensures status { IsTakeStatus number (store_of store.old.held) session.old.held result }
{
    let Some(chair) = store.empty(alloc) else {
        return status::NO_HANDLE;
    };
    // The store's handle gets its box back, whatever the answer.
    let answer = chair.seat(alloc, number, session);
    store.fill(chair);
    answer
}
