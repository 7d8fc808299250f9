//! The call that opens a store.
ghost use Rattle.std.specs.Prelude.{◌≡◌, ◌≢◌, ◌↔◌, Some, None, IsTrue};
ghost use Rattle.nigbaru_c.specs.{Holds.store_of, Opening.{Opened, IsOpenStatus}};

use crate::{Chair, Handle, Hold, status};
use chain_log::RingFault;
use std::alloc::Global;
use xa_endless::EndlessStore;

/// Whether the handle holds nothing. It holds the same afterwards.
pub(crate) fn is_free(alloc: Global, handle: &mut Handle) -> bool
    ensures same { handle.new.held ≡ handle.old.held }
    ensures value { IsTrue result ↔ (handle.old.held ≡ None) }
{
    // What a handle holds is seen only by taking it out, so it is put back.
    match handle.empty(alloc) {
        Some(chair) => {
            handle.fill(chair);
            false
        }
        None => true,
    }
}

/// Puts a store or a session into an empty handle. Returns `OK`, or `NO_MEMORY`, after which the handle is empty.
fn lodge(alloc: Global, handle: &mut Handle, hold: Hold) -> u32
    requires { handle.old.held ≡ None }
    ensures ok { result ≡ 0 → handle.new.held ≡ Some (record { hold = Some hold }) }
    ensures err { result ≢ 0 → (handle.new.held ≡ None) × (result ≡ 7) }
{
    match Box::new(alloc, Chair { hold: Some(hold) }) {
        Ok(chair) => {
            handle.fill(chair);
            status::OK
        }
        Err(_) => status::NO_MEMORY,
    }
}

/// Opens a store. See `nigbaru_open` of `include/nigbaru.h`.
///
/// `rows`: how many entries its ring keeps, in `[1, 65536]`. `sessions`: in `[1, 16]`. `store`: an empty handle.
/// Returns 0, or in the order of test: `HELD` if the handle isn't empty, `OUT_OF_RANGE` if a number is out of its
/// range, `NO_MEMORY`.
/// After an error the handle is as before. May return `NO_MEMORY`. Doesn't wait.
/// Own rule: docs/EMBEDDING.md#errors.
#[unsafe(no_mangle)]
pub extern "C" fn nigbaru_raw_open(
    alloc: Global,
    rows: u64,
    sessions: u64,
    store: &mut Handle,
) -> u32
    // Proved (c, open): A store that C opens has as many slots and sessions as were asked for, and the handle was
    //   empty. After a fault the handle is as before. `HELD` and `OUT_OF_RANGE` have their causes; of `NO_MEMORY`
    //   only that is known that the tests before it were passed.
    ensures ok { result ≡ 0 → (store.old.held ≡ None) × Opened rows sessions (store_of store.new.held) }
    // Proved (c, open)
    ensures err { result ≢ 0 → store.new.held ≡ store.old.held }
    // Proved (c, open)
    ensures status { IsOpenStatus rows sessions store.old.held result }
{
    if !is_free(alloc, store) {
        return status::HELD;
    }
    match EndlessStore::open(alloc, rows, sessions) {
        Ok(opened) => lodge(alloc, store, Hold::Store(opened)),
        Err(RingFault::NoMemory) => status::NO_MEMORY,
        // All other faults are of numbers out of range.
        Err(_) => status::OUT_OF_RANGE,
    }
}
