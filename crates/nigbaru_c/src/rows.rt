//! The calls about rows, which are named by the bytes of their keys, and the one that ends a session's work.
ghost use Rattle.std.specs.Prelude.{◌≡◌, None};
ghost use Rattle.nigbaru_c.specs.{Asked.Does, Holds.session_of, Naming.{on_row, put}};
ghost use Rattle.nigbaru_c.specs.declared.asked.Asked.TheVariants.{For};
ghost use Rattle.xa_xid.specs.declared.statement.Statement.TheVariants.{Get, Del, Disconnect};

use crate::answering::tell;
use crate::naming::{key_of, value_of};
use crate::{Asked, Handle, Told};
use std::alloc::Global;
use xa_xid::Statement;

/// Has a session try once to read a row. See `nigbaru_get` of `include/nigbaru.h`.
///
/// `session`: a handle. `key`: the row's key. `told`: gets the answer.
/// Returns a status, as `nigbaru_raw_start` does.
/// May return `NO_MEMORY`. Doesn't wait.
/// Own rule: docs/EMBEDDING.md#errors.
#[unsafe(no_mangle)]
pub extern "C" fn nigbaru_raw_get(
    alloc: Global,
    session: &mut Handle,
    key: &[u8],
    told: &mut Told,
) -> u32
    // Proved (c, values)
    // Proved (c, values-fail)
    // Proved (c, values-answer)
    ensures outcome { Does (on_row Get key.now) result told.new session.old.held session.new.held }
    // Proved (c, values-fail)
    ensures same { session_of session.old.held ≡ None → session.new.held ≡ session.old.held }
{
    let asked = match key_of(key) {
        Some(key) => Asked::For(Statement::Get(key)),
        None => Asked::Unfit,
    };
    tell(alloc, session, &asked, told)
}

/// Has a session try once to give a row a value. See `nigbaru_put` of `include/nigbaru.h`.
///
/// `session`: a handle. `key`: the row's key. `value`: its value. `told`: gets the answer.
/// Returns a status, as `nigbaru_raw_start` does.
/// May return `NO_MEMORY`. Doesn't wait.
/// Own rule: docs/EMBEDDING.md#errors.
#[unsafe(no_mangle)]
pub extern "C" fn nigbaru_raw_put(
    alloc: Global,
    session: &mut Handle,
    key: &[u8],
    value: &[u8],
    told: &mut Told,
) -> u32
    // Proved (c, values)
    // Proved (c, values-fail)
    // Proved (c, values-answer)
    ensures outcome { Does (put key.now value.now) result told.new session.old.held session.new.held }
    // Proved (c, values-fail)
    ensures same { session_of session.old.held ≡ None → session.new.held ≡ session.old.held }
{
    let asked = match (key_of(key), value_of(value)) {
        (Some(key), Some(value)) => Asked::For(Statement::Put(key, value)),
        _ => Asked::Unfit,
    };
    tell(alloc, session, &asked, told)
}

/// Has a session try once to remove a row's value. See `nigbaru_del` of `include/nigbaru.h`.
///
/// `session`: a handle. `key`: the row's key. `told`: gets the answer.
/// Returns a status, as `nigbaru_raw_start` does.
/// May return `NO_MEMORY`. Doesn't wait.
/// Own rule: docs/EMBEDDING.md#errors.
#[unsafe(no_mangle)]
pub extern "C" fn nigbaru_raw_del(
    alloc: Global,
    session: &mut Handle,
    key: &[u8],
    told: &mut Told,
) -> u32
    // Proved (c, values)
    // Proved (c, values-fail)
    // Proved (c, values-answer)
    ensures outcome { Does (on_row Del key.now) result told.new session.old.held session.new.held }
    // Proved (c, values-fail)
    ensures same { session_of session.old.held ≡ None → session.new.held ≡ session.old.held }
{
    let asked = match key_of(key) {
        Some(key) => Asked::For(Statement::Del(key)),
        None => Asked::Unfit,
    };
    tell(alloc, session, &asked, told)
}

/// Has a session try once to roll back what it hasn't prepared. See `nigbaru_disconnect` of `include/nigbaru.h`.
///
/// `session`: a handle. `told`: gets the answer.
/// Returns a status, as `nigbaru_raw_start` does.
/// May return `NO_MEMORY`. Doesn't wait.
/// Own rule: docs/EMBEDDING.md#errors.
#[unsafe(no_mangle)]
pub extern "C" fn nigbaru_raw_disconnect(
    alloc: Global,
    session: &mut Handle,
    told: &mut Told,
) -> u32
    // Proved (c, values)
    // Proved (c, values-fail)
    // Proved (c, values-answer)
    ensures outcome { Does (For Disconnect) result told.new session.old.held session.new.held }
    // Proved (c, values-fail)
    ensures same { session_of session.old.held ≡ None → session.new.held ≡ session.old.held }
{
    let asked = Asked::For(Statement::Disconnect);
    tell(alloc, session, &asked, told)
}
