//! A session of an endless store, as a coordinator uses it.

use crate::{EndlessFault, EndlessSession};
use std::sync::Wait;
use xa_coordinator::Speak;
use xa_session::{Answer, Fault};
use xa_xid::Statement;

// Proved (coordinator, endless-session): A session of an endless store keeps the promises of `Speak` over the store's
//   one history. Its answers have all that those of its own `attempt` and `execute` have. It never returns `Full` or
//   `Busy`. It returns `NoMemory` only for the list of an `XA RECOVER`, for a replica that hasn't replayed all that it
//   has seen, or after more than 2^59 entries. The replica's next entry may take memory then, or it needs a copy of a
//   checkpoint. `attempt` returns it also if entries that the replica needs may be overwritten, and only if it hasn't
//   tried; `execute` only after more looks than tries. Neither hands out an entry of the history.
impl Speak for EndlessSession {
    ghost use Rattle.xa_endless.specs.Sessions.{view_of, keeps-law, SpeaksOnce, SpeaksOn};

    ghost view = { view_of };

    ghost attempts = { λ old statement result new. SpeaksOnce statement result old new };

    ghost executes = { λ old statement result new. SpeaksOn statement result old new };

    ghost own_part = { λ session. session.member.pass.state.part };

    ghost lawful = { keeps-law };

    /// Answers a statement as the session's own `attempt` does.
    ///
    /// The session's `Behind` becomes `NoMemory`, as `Fault` has no such variant: after both nothing was appended, and
    /// another try may be answered. `execute` tries again after `Behind` by itself.
    fn attempt(&mut self, statement: &Statement) -> Result<Answer, Fault> {
        match EndlessSession::attempt(self, statement) {
            Ok(answer) => Ok(answer),
            Err(EndlessFault::Overtaken { front }) => Err(Fault::Overtaken { front }),
            Err(EndlessFault::NoMemory) | Err(EndlessFault::Behind) => Err(Fault::NoMemory),
        }
    }

    fn execute<R: Wait>(&mut self, rt: &R, statement: &Statement) -> Result<Answer, Fault> {
        match EndlessSession::execute(self, rt, statement) {
            Ok(answer) => Ok(answer),
            // The session's own `execute` has no other error.
            Err(_) => Err(Fault::NoMemory),
        }
    }
}
