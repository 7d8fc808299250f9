//! The call that gives a session a statement.
ghost use Rattle.std.specs.Prelude.{◌≡◌, IsTrue, Some, None};
ghost use Rattle.nigbaru_c.specs.{Holds.{session_in, session_of}, Outcome.{status_of, Fits, Goes, Comes}};
ghost use Rattle.nigbaru_c.specs.Telling.{Tells, Lists};
ghost use Rattle.nigbaru_c.specs.declared.outcome.Outcome.{Outcome as OutcomeOf};

use crate::telling::list;
use crate::{Chair, Handle, Hold, Outcome, Told, XidPart, answering};
use std::alloc::Global;
use xa_endless::EndlessSession;
use xa_statement::read_statement;
use xa_xid::Statement;

/// Whether X/Open's layout, whose formatID is a number of 64 bits with a sign, can hold the statement's identifier;
/// true if the statement has none.
fn fits(statement: &Statement) -> bool
    ensures yes { IsTrue result → Fits statement.now }
    ensures no { Fits statement.now → IsTrue result }
{
    match statement {
        Statement::Start(xid)
        | Statement::End(xid)
        | Statement::Prepare(xid)
        | Statement::Commit { xid, .. }
        | Statement::Rollback(xid) => xid.format_id < 1 << 63,
        _ => true,
    }
}

/// Has the session attempt once to answer the statement that a text spells, unless its formatID is above 2^63 - 1.
fn attempt(session: &mut EndlessSession, text: &[u8]) -> Outcome
    ensures { Goes text.now result session.old session.new }
{
    // The statement is answered where it was read: moving it costs more than reading a short text.
    match read_statement(text) {
        // X/Open's formatID has a sign, so a list of branches can't show one from 2^63 on.
        Ok(statement) if !fits(&statement) => Outcome::OutOfRange,
        Ok(statement) => answering::attempt(session, &statement),
        Err(fault) => Outcome::Misspelled(fault),
    }
}

impl Chair {
    /// Has the session that is held attempt once to answer the statement that a text spells. If none is held, the
    /// outcome is `Vacant`.
    fn attempt(&mut self, text: &[u8]) -> Outcome
        ensures comes { Comes text.now result (session_in self.old.hold) (session_in self.new.hold) }
        ensures same { session_in self.old.hold ≡ None → self.new.hold ≡ self.old.hold }
    {
        match &mut self.hold {
            Some(Hold::Session(session)) => attempt(session, text),
            _ => Outcome::Vacant,
        }
    }
}

/// Has the handle's session attempt once to answer the statement that a text spells. If the handle holds no session,
/// the outcome is `Vacant`.
fn answer(alloc: Global, session: &mut Handle, text: &[u8]) -> Outcome
    ensures comes { Comes text.now result (session_of session.old.held) (session_of session.new.held) }
    ensures same { session_of session.old.held ≡ None → session.new.held ≡ session.old.held }
{
    match session.empty(alloc) {
        // The handle gets its box back, whatever the outcome.
        Some(mut chair) => {
            let outcome = chair.attempt(text);
            session.fill(chair);
            outcome
        }
        None => Outcome::Vacant,
    }
}

/// Has a session try once to answer the statement that a text spells. See `nigbaru_attempt` of
/// `include/nigbaru.h`.
///
/// `session`: a handle. `text`: the statement. `told`: gets the answer, or at `SYNTAX` the place of the fault in the
/// text. `xids`: gets the identifiers of a list, as many as there is room for, and is else as before. Returns a status:
/// 0 to 4 with an answer, or in the order of test `NO_HANDLE`, `SYNTAX`, `OUT_OF_RANGE`, and then `BEHIND`, `NO_MEMORY`
/// or `OVERTAKEN`.
/// After an error nothing of the statement is in the history; the session may have seen more.
/// May return `NO_MEMORY`. Doesn't wait.
/// Own rule: docs/EMBEDDING.md#errors.
#[unsafe(no_mangle)]
pub extern "C" fn nigbaru_raw_attempt(
    alloc: Global,
    session: &mut Handle,
    text: &[u8],
    told: &mut Told,
    xids: &mut [XidPart],
) -> u32
    // Proved (c, attempt): At status 0 to 4 the text spells a statement, and the answer is the server's reply to it
    //   after the first `place` entries of the store's one history, which have all that the session had seen. A
    //   statement that is logged is the next entry, once.
    // Proved (c, attempt-fails): At any other status nothing of the text's statement was added, and the status' cause
    //   holds. At `OVERTAKEN` the one try was lost to a longer history. At `BEHIND` the history has at least as many
    //   entries as the ring has slots, from the next one on that the session would replay. `NO_MEMORY` is for a list,
    //   for a session that hasn't replayed all that is seen and whose next entry may take memory or that needs a copy
    //   of a checkpoint, or after more than 2^59 entries. The statuses for syntax and range change nothing, and a
    //   handle without a session stays as it is.
    // Proved (c, attempt-answer): The answer's fields and the identifiers that C gets are those of the reply, and 0
    //   where the reply has none. Identifiers are written only for a list, as many as there is room for; a formatID
    //   of 2^63 or more is written as -1.
    ensures outcome { (outcome : OutcomeOf) × (result ≡ status_of outcome) × Tells outcome told.new
        × Lists outcome xids.old xids.new × Comes text.now outcome (session_of session.old.held)
        (session_of session.new.held) }
    // Proved (c, attempt-fails)
    ensures same { session_of session.old.held ≡ None → session.new.held ≡ session.old.held }
{
    let outcome = answer(alloc, session, text);
    *told = Told::of(&outcome);
    list(&outcome, xids);
    outcome.number()
}
