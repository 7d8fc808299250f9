//! The history that all of a store's sessions have seen.
ghost use Rattle.std.specs.{Prelude.{◌≡◌, ◌<◌, IfOk, length, map}, List.{All, AllZip}};
ghost use Rattle.xa_store.specs.{Passes.{identity_of, log_of, known_of}, Gathered.{IsTakenIn, AddsNothing, last_known}};

use crate::meeting::{copy_seen, meet_all};
use crate::{Log, Store};
use std::alloc::Global;
use xa_session::Session;
use xa_words::Entry;
use xa_xid::NoMemory;

impl Store {
    /// Returns the history that the last of these sessions has seen, after it looked and all others met it.
    ///
    /// It begins with what each session has seen, and its entries of a session's number are that session's
    /// own. It is empty if no session is given. Errors: `NoMemory`, if an allocation fails.
    /// After an error sessions may have seen more; nothing else has changed.
    /// May return `NoMemory`. Doesn't wait.
    /// Own rule: docs/RATTLE.md#stores.
    pub fn history(
        &self,
        alloc: Global,
        sessions: &mut Vec<Session<'_, Log>>,
    ) -> Result<Vec<Entry>, NoMemory>
        requires { All (λ session. log_of session.pass ≡ identity_of self.now.log) sessions.old.items }
        // Proved (stores, history-keeps): Asking for the history of sessions takes nothing from them and adds
        //   nothing, also without memory.
        ensures keeps { AllZip
            (λ old new. (new.base.now ≡ old.base.now) × (log_of new.pass ≡ log_of old.pass)
            × AddsNothing (known_of old.pass) (known_of new.pass))
            sessions.old.items sessions.new.items }
        // Proved (stores, history-is-last-seen): The history of a store's sessions is what the last of them
        //   has seen after a look.
        ensures last { IfOk result (λ list. list.items ≡ (last_known
            (map (λ session. known_of session.pass) sessions.new.items)).seen) }
        // Proved (stores, history-is-last-seen)
        ensures looked { 0 < length sessions.old.items
            → (last_known (map (λ session. known_of session.pass) sessions.old.items)).looks
            < (last_known (map (λ session. known_of session.pass) sessions.new.items)).looks }
        // Proved (stores, history-has-all): The history of a store's sessions begins with what each of them
        //   has seen, and its entries of each session's number are that session's own.
        ensures whole { IfOk result (λ list. All (λ session. IsTakenIn list.items (known_of session.pass))
            sessions.new.items) }
    {
        if sessions.is_empty() {
            return Ok(Vec::new(alloc));
        }
        // The last one is taken out to meet the others, and put back into its place, also if there is no memory.
        let mut last = sessions.take_last();
        meet_all(sessions, &mut last);
        let history = copy_seen(alloc, &mut last);
        sessions.push_reserved(last);
        history
    }
}
