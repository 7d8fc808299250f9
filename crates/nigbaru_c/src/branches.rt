//! The calls about branches, which are named by identifiers.
ghost use Rattle.std.specs.Prelude.{◌≡◌, None, false};
ghost use Rattle.nigbaru_c.specs.{Asked.{Answers, Does}, Holds.session_of, Naming.on_branch, Outcome.status_of};
ghost use Rattle.nigbaru_c.specs.{Telling.{Tells, Lists}, declared.asked.Asked.TheVariants.For};
ghost use Rattle.nigbaru_c.specs.declared.outcome.Outcome.{Outcome as OutcomeOf};
ghost use Rattle.xa_xid.specs.declared.statement.Statement.TheVariants.{Start, End, Prepare, Commit, Rollback, Recover};

use crate::answering::{answer, tell};
use crate::naming::xid_of;
use crate::telling::list;
use crate::{Asked, Handle, Told, XidPart};
use std::alloc::Global;
use xa_xid::Statement;

/// Has a session try once to start a branch. See `nigbaru_start` of `include/nigbaru.h`.
///
/// `session`: a handle. `xid`: the branch. `told`: gets the answer.
/// Returns a status: 0 to 4 with an answer, or in the order of test `NO_HANDLE`, `OUT_OF_RANGE`, and then `BEHIND`,
/// `NO_MEMORY` or `OVERTAKEN`.
/// After an error nothing of the statement is in the history; the session may have seen more.
/// May return `NO_MEMORY`. Doesn't wait.
/// Own rule: docs/EMBEDDING.md#errors.
#[unsafe(no_mangle)]
pub extern "C" fn nigbaru_raw_start(
    alloc: Global,
    session: &mut Handle,
    xid: &XidPart,
    told: &mut Told,
) -> u32
    // Proved (c, values): A call that gives a statement by values tries the one that its arguments name. At status 0
    //   to 4 the answer is the server's reply to it after the first `place` entries of the store's one history, which
    //   have all that the session had seen. A statement that is logged is the next entry, once.
    // Proved (c, values-fail): At any other status nothing of the statement was added, and the status' cause holds, as
    //   for a text. `OUT_OF_RANGE` is returned exactly if a session is held and the arguments name no statement. Then a
    //   formatID is negative, a gtrid's or a bqual's length isn't in `[0, 64]`, a key doesn't have 1 to 64 bytes, or a
    //   value has more than 64. It changes nothing, and a handle without a session stays as it is.
    // Proved (c, values-answer): The answer's fields are those of the reply, and 0 where the reply has none.
    //   `nigbaru_raw_recover` writes identifiers only for a list, as many as there is room for.
    ensures outcome { Does (on_branch Start xid.now) result told.new session.old.held session.new.held }
    // Proved (c, values-fail)
    ensures same { session_of session.old.held ≡ None → session.new.held ≡ session.old.held }
{
    let asked = match xid_of(xid) {
        Some(xid) => Asked::For(Statement::Start(xid)),
        None => Asked::Unfit,
    };
    tell(alloc, session, &asked, told)
}

/// Has a session try once to end the work of its branch. See `nigbaru_end` of `include/nigbaru.h`.
///
/// `session`: a handle. `xid`: the branch. `told`: gets the answer.
/// Returns a status, as `nigbaru_raw_start` does.
/// May return `NO_MEMORY`. Doesn't wait.
/// Own rule: docs/EMBEDDING.md#errors.
#[unsafe(no_mangle)]
pub extern "C" fn nigbaru_raw_end(
    alloc: Global,
    session: &mut Handle,
    xid: &XidPart,
    told: &mut Told,
) -> u32
    // Proved (c, values)
    // Proved (c, values-fail)
    // Proved (c, values-answer)
    ensures outcome { Does (on_branch End xid.now) result told.new session.old.held session.new.held }
    // Proved (c, values-fail)
    ensures same { session_of session.old.held ≡ None → session.new.held ≡ session.old.held }
{
    let asked = match xid_of(xid) {
        Some(xid) => Asked::For(Statement::End(xid)),
        None => Asked::Unfit,
    };
    tell(alloc, session, &asked, told)
}

/// Has a session try once to prepare its branch. See `nigbaru_prepare` of `include/nigbaru.h`.
///
/// `session`: a handle. `xid`: the branch. `told`: gets the answer.
/// Returns a status, as `nigbaru_raw_start` does.
/// May return `NO_MEMORY`. Doesn't wait.
/// Own rule: docs/EMBEDDING.md#errors.
#[unsafe(no_mangle)]
pub extern "C" fn nigbaru_raw_prepare(
    alloc: Global,
    session: &mut Handle,
    xid: &XidPart,
    told: &mut Told,
) -> u32
    // Proved (c, values)
    // Proved (c, values-fail)
    // Proved (c, values-answer)
    ensures outcome { Does (on_branch Prepare xid.now) result told.new session.old.held session.new.held }
    // Proved (c, values-fail)
    ensures same { session_of session.old.held ≡ None → session.new.held ≡ session.old.held }
{
    let asked = match xid_of(xid) {
        Some(xid) => Asked::For(Statement::Prepare(xid)),
        None => Asked::Unfit,
    };
    tell(alloc, session, &asked, told)
}

/// Has a session try once to commit a branch. See `nigbaru_commit` of `include/nigbaru.h`.
///
/// `session`: a handle. `xid`: the branch. `one_phase`: whether it is committed without having been prepared. `told`:
/// gets the answer.
/// Returns a status, as `nigbaru_raw_start` does.
/// May return `NO_MEMORY`. Doesn't wait.
/// Own rule: docs/EMBEDDING.md#errors.
#[unsafe(no_mangle)]
pub extern "C" fn nigbaru_raw_commit(
    alloc: Global,
    session: &mut Handle,
    xid: &XidPart,
    one_phase: bool,
    told: &mut Told,
) -> u32
    // Proved (c, values)
    // Proved (c, values-fail)
    // Proved (c, values-answer)
    ensures outcome { Does (on_branch (λ branch. Commit branch one_phase) xid.now) result told.new session.old.held
        session.new.held }
    // Proved (c, values-fail)
    ensures same { session_of session.old.held ≡ None → session.new.held ≡ session.old.held }
{
    let asked = match xid_of(xid) {
        Some(xid) => Asked::For(Statement::Commit { xid, one_phase }),
        None => Asked::Unfit,
    };
    tell(alloc, session, &asked, told)
}

/// Has a session try once to roll a branch back. See `nigbaru_rollback` of `include/nigbaru.h`.
///
/// `session`: a handle. `xid`: the branch. `told`: gets the answer.
/// Returns a status, as `nigbaru_raw_start` does.
/// May return `NO_MEMORY`. Doesn't wait.
/// Own rule: docs/EMBEDDING.md#errors.
#[unsafe(no_mangle)]
pub extern "C" fn nigbaru_raw_rollback(
    alloc: Global,
    session: &mut Handle,
    xid: &XidPart,
    told: &mut Told,
) -> u32
    // Proved (c, values)
    // Proved (c, values-fail)
    // Proved (c, values-answer)
    ensures outcome { Does (on_branch Rollback xid.now) result told.new session.old.held session.new.held }
    // Proved (c, values-fail)
    ensures same { session_of session.old.held ≡ None → session.new.held ≡ session.old.held }
{
    let asked = match xid_of(xid) {
        Some(xid) => Asked::For(Statement::Rollback(xid)),
        None => Asked::Unfit,
    };
    tell(alloc, session, &asked, told)
}

/// Has a session try once to list the prepared branches. See `nigbaru_recover` of `include/nigbaru.h`.
///
/// `session`: a handle. `told`: gets the answer. `xids`: gets the identifiers, as many as there is room for, and is as
/// before where no list is told. Returns a status: 3 with an answer, or in the order of test `NO_HANDLE`, and then
/// `BEHIND`, `NO_MEMORY` or `OVERTAKEN`.
/// Nothing is logged; the session may have seen more.
/// May return `NO_MEMORY`. Doesn't wait.
/// Own rule: docs/EMBEDDING.md#errors.
#[unsafe(no_mangle)]
pub extern "C" fn nigbaru_raw_recover(
    alloc: Global,
    session: &mut Handle,
    told: &mut Told,
    xids: &mut [XidPart],
) -> u32
    // Proved (c, values)
    // Proved (c, values-fail)
    // Proved (c, values-answer)
    ensures outcome { (outcome : OutcomeOf) × (result ≡ status_of outcome) × Tells outcome told.new
        × Lists outcome xids.old xids.new × Answers (For (Recover false)) outcome (session_of session.old.held)
        (session_of session.new.held) }
    // Proved (c, values-fail)
    ensures same { session_of session.old.held ≡ None → session.new.held ≡ session.old.held }
{
    let asked = Asked::For(Statement::Recover { convert: false });
    let outcome = answer(alloc, session, &asked);
    *told = Told::of(&outcome);
    list(&outcome, xids);
    outcome.number()
}
