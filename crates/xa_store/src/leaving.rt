//! Closing the sessions of a store together.
ghost use Rattle.std.specs.{Prelude.{◌≡◌, ◌<◌, IfOk, IfErr, length, map}, List.{All, AllZip}};
ghost use Rattle.xa_store.specs.{Passes.{identity_of, log_of, known_of}, Gathered.{IsTakenIn, AddsNothing, last_known}};
ghost use Rattle.xa_store.specs.Renewal.{AreGathered};

use crate::{Log, Pass, Store};
use std::alloc::{AllocError, Global};
use xa_session::Session;
use xa_words::Entry;
use xa_xid::NoMemory;

/// Has all sessions leave, and returns their passes, in order. Without memory for the list the sessions come back: none
/// has left then.
fn leave_all(
    alloc: Global,
    sessions: Vec<Session<'_, Log>>,
) -> Result<Vec<Pass>, (Vec<Session<'_, Log>>, NoMemory)>
    ensures ok { IfOk result (λ passes. passes.items ≡ map (λ session. session.pass) sessions.entry.items) }
    ensures err { IfErr result (λ refused. refused.0.items ≡ sessions.entry.items) }
{
    let Ok(mut passes) = Vec::with_capacity(alloc, sessions.len()) else {
        return Err((sessions, AllocError));
    };
    for session in sessions {
        passes.push_reserved(session.leave());
    }
    Ok(passes)
}

impl Store {
    /// Closes these sessions: returns their history, as `history` does, and their passes, in order.
    ///
    /// If at least one session is given, the passes are as `renew` takes them.
    /// Errors: `NoMemory`, if an allocation fails. The sessions then come back, and may have seen more.
    /// May return `NoMemory`. Doesn't wait.
    /// Own rule: docs/RATTLE.md#stores.
    pub fn close<'s>(
        &self,
        alloc: Global,
        mut sessions: Vec<Session<'s, Log>>,
    ) -> Result<(Vec<Entry>, Vec<Pass>), (Vec<Session<'s, Log>>, NoMemory)>
        requires { All (λ session. log_of session.pass ≡ identity_of self.now.log) sessions.items }
        // Proved (stores, close-passes): Closing sessions returns their passes, in order. Each keeps what it
        //   knew and adds nothing.
        ensures passes { IfOk result
            (λ ended. AllZip (λ session pass. (log_of pass ≡ log_of session.pass)
            × AddsNothing (known_of session.pass) (known_of pass)) sessions.entry.items
            ended.1.items) }
        // Proved (stores, close-history): Of sessions that were closed the last has looked. The history that
        //   is returned is what it has seen; it has all that each of them has seen, with each one's own
        //   entries.
        ensures last { IfOk result (λ ended. ended.0.items ≡ (last_known (map known_of ended.1.items)).seen) }
        // Proved (stores, close-history)
        ensures looked { IfOk result
            (λ ended. 0 < length sessions.entry.items
            → (last_known (map (λ session. known_of session.pass) sessions.entry.items)).looks < (last_known
            (map known_of ended.1.items)).looks) }
        // Proved (stores, close-history)
        ensures whole { IfOk result (λ ended. All (λ pass. IsTakenIn ended.0.items (known_of pass)) ended.1.items) }
        // Proved (stores, close-for-renewal): If a session was given, the passes that closing returns are
        //   those that a renewal takes.
        ensures gathered { IfOk result (λ ended. 0 < length sessions.entry.items
            → AreGathered (identity_of self.now.log) ended.1.items) }
        // Proved (stores, close-no-memory): If there is no memory to close sessions, they come back, and have
        //   kept all that they knew.
        ensures err { IfErr result
            (λ refused. AllZip
            (λ old new. (new.base.now ≡ old.base.now) × (log_of new.pass ≡ log_of old.pass)
            × AddsNothing (known_of old.pass) (known_of new.pass))
            sessions.entry.items refused.0.items) }
    {
        match self.history(alloc, &mut sessions) {
            Err(error) => Err((sessions, error)),
            Ok(history) => {
                let passes = leave_all(alloc, sessions)?;
                Ok((history, passes))
            }
        }
    }
}
