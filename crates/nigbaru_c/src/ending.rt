//! The calls that end handles.
ghost use Rattle.std.specs.Prelude.{◌≡◌, ◌≢◌, ◌⊎◌, None};
ghost use Rattle.nigbaru_c.specs.Holds.{session_of, store_of};

use crate::{Handle, Hold, status};
use std::alloc::Global;

/// Gives a session back to its store. See `nigbaru_leave` of `include/nigbaru.h`.
///
/// Returns 0, or `NO_HANDLE` if no session is held, after which the handle is as before.
/// Nothing is logged. Takes no memory. Doesn't wait.
/// Own rule: docs/EMBEDDING.md#errors.
#[unsafe(no_mangle)]
pub extern "C" fn nigbaru_raw_leave(alloc: Global, session: &mut Handle) -> u32
    // Proved (c, leave-and-close): Leaving and closing empty the handle. After a fault the handle is as
    //   before, and held no session or no store.
    ensures ok { result ≡ 0 → (session.new.held ≡ None) × (session_of session.old.held ≢ None) }
    // Proved (c, leave-and-close)
    ensures err { result ≢ 0 → (session.new.held ≡ session.old.held) × (session_of session.old.held ≡ None) }
    // Proved (c, leave-and-close)
    ensures status { (result ≡ 0) ⊎ (result ≡ 9) }
{
    let Some(mut chair) = session.empty(alloc) else {
        return status::NO_HANDLE;
    };
    match chair.hold.take() {
        Some(Hold::Session(held)) => {
            held.leave();
            status::OK
        }
        other => {
            // No session is held, so the handle gets back what it held.
            chair.hold = other;
            session.fill(chair);
            status::NO_HANDLE
        }
    }
}

/// Empties a store's handle. See `nigbaru_close` of `include/nigbaru.h`.
///
/// Returns 0, or `NO_HANDLE` if no store is held, after which the handle is as before.
/// Nothing is logged. Takes no memory. Doesn't wait.
/// Own rule: docs/EMBEDDING.md#errors.
#[unsafe(no_mangle)]
pub extern "C" fn nigbaru_raw_close(alloc: Global, store: &mut Handle) -> u32
    // Proved (c, leave-and-close)
    ensures ok { result ≡ 0 → (store.new.held ≡ None) × (store_of store.old.held ≢ None) }
    // Proved (c, leave-and-close)
    ensures err { result ≢ 0 → (store.new.held ≡ store.old.held) × (store_of store.old.held ≡ None) }
    // Proved (c, leave-and-close)
    ensures status { (result ≡ 0) ⊎ (result ≡ 9) }
{
    let Some(chair) = store.empty(alloc) else {
        return status::NO_HANDLE;
    };
    // The box is dropped here. Its store is freed once its sessions have left, too.
    if matches!(&chair.hold, Some(Hold::Store(_))) {
        return status::OK;
    }
    // No store is held, so the handle gets back what it held.
    store.fill(chair);
    status::NO_HANDLE
}
